//! Notes: what a token had seen goes with a message to another thread, whose token hears it there.
ghost use Rattle.std.specs.Prelude.{◌≡◌};
ghost use Rattle.nr_board.specs.Callers.{KnowsOwn};
ghost use Rattle.nr_board.specs.Meetings.{HearsNote, known_to, with_step, with_steps};

use crate::pin::Pin;
use crate::reader::Reader;
use crate::reader_map::ReaderMap;
use crate::writer::Writer;
use std::marker::Model;

/// What its maker had seen when the note was made. It goes to any thread, by whatever the program
/// sends messages, and any token of the map hears it there. It is for one hearer: a maker makes one for
/// each, or a reader splits the one that it was sent. Its step is the maker's, so nothing is lost where
/// a note is dropped.
#[derive(Drop)]
pub struct Note {
    pub(crate) told: nr_board::Note,
}

impl Model for Note {
    ghost use Rattle.nr_board.specs.Callers.{token};
    ghost use Rattle.nr_board.specs.Meetings.{Known, known_to};
    ghost use Rattle.nr_board.specs.Notes.{IsNote};

    ghost Value = { Known };

    ghost view = { λ note. known_to (token note.told) };

    ghost invariant = { λ note. IsNote note.told };
}

impl ReaderMap {
    /// A note of what the reader has seen, in 1 step. Else the reader stays as it is.
    pub fn note(&self, reader: &mut Reader) -> Note
        requires own { reader.old.table ≡ self.now }
        ensures reader { reader.new ≡ with_step reader.old }
        ensures note { result ≡ known_to reader.old }
        ensures knows { KnowsOwn reader.old }
    {
        reader.caller.note(self)
    }

    /// A note of what the writer has seen, in 1 step. Else the writer stays as it is.
    pub fn note_writer(&self, writer: &mut Writer) -> Note
        requires own { writer.old.table ≡ self.now }
        ensures writer { writer.new ≡ with_step writer.old }
        ensures note { result ≡ known_to writer.old }
        ensures knows { KnowsOwn writer.old }
    {
        Note {
            told: self.board.note(&mut writer.seat),
        }
    }

    /// A note of what a reader that holds a set has seen, in 1 step. Else it stays as it is, and
    /// keeps the set.
    pub fn note_pin(&self, pin: &mut Pin) -> Note
        requires own { pin.old.reader.table ≡ self.now }
        ensures reader { pin.new.reader ≡ with_step pin.old.reader }
        ensures rows { pin.new.rows ≡ pin.old.rows }
        ensures note { result ≡ known_to pin.old.reader }
        ensures knows { KnowsOwn pin.old.reader }
    {
        pin.caller.note(self)
    }

    /// The reader learns, in 1 step, all that the note's maker had seen.
    pub fn hear(&self, reader: &mut Reader, note: Note)
        requires own { (reader.old.table ≡ self.now) × (note.table ≡ self.now) }
        ensures { HearsNote 1 note reader.old reader.new }
    {
        reader.caller.hear(self, note);
    }

    /// The writer learns the same.
    pub fn hear_writer(&self, writer: &mut Writer, note: Note)
        requires own { (writer.old.table ≡ self.now) × (note.table ≡ self.now) }
        ensures { HearsNote 1 note writer.old writer.new }
    {
        self.board.hear_note(&mut writer.seat, note.told);
    }

    /// A reader that holds a set learns what a note says, and keeps the set. Takes 1 step.
    pub fn hear_pin(&self, pin: &mut Pin, note: Note)
        requires own { (pin.old.reader.table ≡ self.now) × (note.table ≡ self.now) }
        ensures reader { HearsNote 1 note pin.old.reader pin.new.reader }
        ensures rows { pin.new.rows ≡ pin.old.rows }
    {
        pin.caller.hear(self, note);
    }

    /// Makes two notes of one, for two hearers: each says what the one said. Takes 3 steps of the
    /// reader, which learns nothing and otherwise stays as it is.
    pub fn split_note(&self, reader: &mut Reader, note: Note) -> (Note, Note)
        requires own { (note.table ≡ self.now) × (reader.old.table ≡ self.now) }
        ensures reader { reader.new ≡ with_steps 3 reader.old }
        ensures notes { result ≡ (note, note) }
    {
        let (one, other) = self.board.split_note(&mut reader.caller.seat, note.told);
        (Note { told: one }, Note { told: other })
    }
}
