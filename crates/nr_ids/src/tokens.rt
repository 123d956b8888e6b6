//! The tokens of a directory, and what one of them tells another.
ghost use Rattle.std.specs.Prelude.{◌≡◌, ◌+◌, ◌↔◌, IfOk, Err};
ghost use Rattle.nr_ids.specs.Groups.{IsBadPlan};
ghost use Rattle.nr_ids.specs.Tokens.{Hears, fresh_token, known_to, with_reader_made, with_step, with_steps};

use crate::directory::{Directory, Seat};
use crate::plan::Plan;
use std::alloc::Global;
use std::marker::Model;
use thiserror::Error;

/// Why a directory can't be opened.
#[derive(Clone, Copy, Debug, PartialEq, Eq, Error)]
pub enum OpenFault {
    #[error("the number of groups is out of its limits")]
    BadSize,
    #[error("out of memory")]
    Memory,
}

/// The one token that names, un-names and clears: the dataflow's thread has it beside the map's writer.
#[derive(Drop)]
pub struct Clerk {
    pub(crate) seat: Seat,
}

impl Model for Clerk {
    ghost use Rattle.std.specs.Prelude.{◌≡◌};
    ghost use Rattle.nr_ids.specs.Looking.{HintsNames};
    ghost use Rattle.nr_ids.specs.Tokens.{Sits, Token, token};

    ghost Value = { Token };

    ghost view = { λ clerk. token clerk.seat };

    ghost invariant = { λ clerk. Sits (token clerk.seat).directory clerk.seat × ((token clerk.seat).number ≡ 0) × HintsNames (token clerk.seat) };
}

/// A token that looks ids up and claims groups, for one thread.
#[derive(Drop)]
pub struct Reader {
    pub(crate) seat: Seat,
}

impl Model for Reader {
    ghost use Rattle.nr_ids.specs.Tokens.{Sits, Token, token};

    ghost Value = { Token };

    ghost view = { λ reader. token reader.seat };

    ghost invariant = { λ reader. Sits (token reader.seat).directory reader.seat };
}

/// What its maker had seen when the note was made. It goes to any thread with a message, and a token of
/// the directory hears it there. Its step is the maker's, so nothing is lost where a note is dropped.
#[derive(Drop)]
pub struct Note {
    seat: Seat,
}

impl Model for Note {
    ghost use Rattle.nr_ids.specs.Tokens.{IsNote, Known, known_to, token};

    ghost Value = { Known };

    ghost view = { λ note. known_to (token note.seat) };

    ghost invariant = { λ note. IsNote note.seat };
}

impl Directory {
    /// A directory without names, and its clerk. Refused unless there are 1 to 536,870,911 groups, and
    /// then where there is no memory: a group takes 88 bytes, twice while it opens.
    pub fn open(alloc: Global, plan: Plan) -> Result<(Directory, Clerk), OpenFault>
        ensures bad_size { (result ≡ Err OpenFault.BadSize) ↔ IsBadPlan plan }
        ensures ok { IfOk result (λ (directory, clerk). (directory.plan ≡ plan) × (clerk ≡ fresh_token directory 0)) }
    {
        if plan.is_bad() {
            return Err(OpenFault::BadSize);
        }
        match Directory::lay(alloc, plan) {
            Ok((directory, seat)) => Ok((directory, Clerk { seat })),
            Err(_) => Err(OpenFault::Memory),
        }
    }

    /// The next reader, in 1 step of the clerk's.
    pub fn reader(&self, clerk: &mut Clerk) -> Reader
        requires own { clerk.old.directory ≡ self.now }
        ensures clerk { clerk.new ≡ with_reader_made clerk.old }
        ensures reader { result ≡ fresh_token self.now (clerk.old.made + 1) }
    {
        Reader {
            seat: self.seat(&mut clerk.seat),
        }
    }

    /// A note of what the reader has seen, in 1 step. Else the reader stays as it is.
    pub fn note(&self, reader: &mut Reader) -> Note
        requires own { reader.old.directory ≡ self.now }
        ensures reader { reader.new ≡ with_step reader.old }
        ensures note { result ≡ known_to reader.old }
    {
        Note {
            seat: self.note_seat(&mut reader.seat),
        }
    }

    /// A note of what the clerk has seen, in 1 step. Else the clerk stays as it is.
    pub fn note_clerk(&self, clerk: &mut Clerk) -> Note
        requires own { clerk.old.directory ≡ self.now }
        ensures clerk { clerk.new ≡ with_step clerk.old }
        ensures note { result ≡ known_to clerk.old }
    {
        Note {
            seat: self.note_seat(&mut clerk.seat),
        }
    }

    /// The reader learns, in 2 steps, all that the note's maker had seen.
    pub fn hear(&self, reader: &mut Reader, note: Note)
        requires own { (reader.old.directory ≡ self.now) × (note.directory ≡ self.now) }
        ensures own { reader.new.directory ≡ self.now }
        ensures hears { Hears note reader.old reader.new }
    {
        self.take_note(&mut reader.seat, note.seat);
        self.learn(&mut reader.seat);
    }

    /// The clerk learns the same.
    pub fn hear_clerk(&self, clerk: &mut Clerk, note: Note)
        requires own { (clerk.old.directory ≡ self.now) × (note.directory ≡ self.now) }
        ensures own { clerk.new.directory ≡ self.now }
        ensures hears { Hears note clerk.old clerk.new }
    {
        self.take_note(&mut clerk.seat, note.seat);
        self.learn(&mut clerk.seat);
    }

    /// Makes two notes of one, for two hearers: each says what the one said. Takes 3 steps of the
    /// reader, which learns nothing and otherwise stays as it is.
    pub fn split_note(&self, reader: &mut Reader, note: Note) -> (Note, Note)
        requires own { (note.directory ≡ self.now) × (reader.old.directory ≡ self.now) }
        ensures reader { reader.new ≡ with_steps 3 reader.old }
        ensures notes { result ≡ (note, note) }
    {
        let Note { seat: told } = note;
        self.take_note(&mut reader.seat, told);
        let one = self.retell(&mut reader.seat);
        let other = self.retell(&mut reader.seat);
        (Note { seat: one }, Note { seat: other })
    }
}
