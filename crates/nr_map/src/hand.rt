//! A reader that is idle or holds the set of a key, from call to call.
ghost use Rattle.std.specs.Prelude.{◌≡◌, ◌<◌, ◌*◌, length, slice_get, IsSome, None, Some};
ghost use Rattle.nr_map.specs.Hands.{AgainByHand, BecomesPin, LetsGo, PinsByHand, CopiesHeld, held_for, in_hand, idle};
ghost use Rattle.nr_map.specs.Answers.{AsksKey};
ghost use Rattle.nr_board.specs.Callers.{KnowsOwn};
ghost use Rattle.nr_board.specs.Holds.{HoldsWhatItSays};
ghost use Rattle.nr_board.specs.Meetings.{HearsNote, known_to, with_step};

use crate::answers::Asked;
use crate::notes::Note;
use crate::pin::Pin;
use crate::reader::Reader;
use crate::reader_map::ReaderMap;
use crate::token::Token;
use nr_board::Held;
use nr_model::{Row, RowRoom};
use std::marker::Model;

/// A reader between two calls, whether it holds nothing or the set that it found of a key. What it
/// holds stays as it is until a call lets it go. A hand can't be dropped: its reader is taken out of
/// it.
pub struct Hand {
    pub(crate) caller: Token,
    pub(crate) held: Option<Kept>,
}

// The key whose set is held, and what is held of it.
#[derive(Clone, Copy)]
pub(crate) struct Kept {
    pub(crate) key: u32,
    pub(crate) set: Held,
}

impl Model for Hand {
    ghost use Rattle.nr_map.specs.Hands.{Handed, IsHand, handed};

    ghost Value = { Handed };

    ghost view = { λ hand. handed hand.caller.seat hand.held };

    ghost invariant = { λ hand. IsHand hand.caller.seat hand.caller.own hand.held };
}

impl Hand {
    /// A hand of a reader, which holds nothing.
    pub fn of(reader: Reader) -> Hand
        ensures { result ≡ idle reader }
    {
        Hand {
            caller: reader.into_token(),
            held: None,
        }
    }

    /// Lets go what is held, in 1 step, and gives the reader back; no step where nothing is held.
    pub fn into_reader(self, map: &ReaderMap) -> Reader
        requires own { self.reader.table ≡ map.now }
        ensures own { result.table ≡ map.now }
        ensures lets_go { LetsGo self (idle result) }
        ensures idle { self.key ≡ None → result ≡ self.reader }
    {
        let mut hand = self;
        hand.release(map);
        let Hand { caller, held: _ } = hand;
        Reader::of_token(caller)
    }

    /// A hand of a pin: it holds what the pin held, and takes it for a set of that key. No step.
    pub fn of_pin(pin: Pin, key: u32) -> Hand
        ensures { result ≡ in_hand key pin }
    {
        let Pin { caller, held } = pin;
        Hand {
            caller,
            held: Some(Kept { key, set: held }),
        }
    }

    /// The pin of the set that is held, or the reader where nothing is. No step.
    pub fn into_pin(self) -> Result<Pin, Reader>
        ensures { BecomesPin self result }
    {
        let Hand { caller, held } = self;
        match held {
            Some(kept) => Ok(Pin {
                caller,
                held: kept.set,
            }),
            None => Err(Reader::of_token(caller)),
        }
    }

    /// The number of its reader.
    pub fn number(&self) -> u32
        ensures { result ≡ self.now.reader.number }
    {
        self.caller.number()
    }

    /// The key whose set is held.
    pub fn key(&self) -> Option<u32>
        ensures { result ≡ self.now.key }
    {
        match self.held {
            Some(kept) => Some(kept.key),
            None => None,
        }
    }

    /// How many rows are held.
    #[tactic(auto, using(crate::proofs::HandSteps::hand_says))]
    pub fn len(&self) -> u32
        ensures len { result ≡ length self.now.rows }
        ensures says { HoldsWhatItSays self.now.reader }
    {
        match self.held {
            Some(kept) => kept.set.count,
            None => 0,
        }
    }

    /// Writes the rows that are held over those of the caller's, in 2 steps a row.
    pub fn copy_to<R: RowRoom>(&mut self, map: &ReaderMap, rows: &mut R)
        requires own { self.old.reader.table ≡ map.now }
        requires holds { IsSome self.old.key }
        ensures own { self.new.reader.table ≡ map.now }
        ensures copied { R.shows rows.new self.old.rows }
        ensures reads { CopiesHeld (2 * length self.old.rows) self.old self.new }
    {
        if let Some(kept) = self.held {
            map.board
                .copy_from::<0, R>(&mut self.caller.seat, kept.set, rows);
        }
    }

    /// A row that is held, in 2 steps.
    pub fn row(&mut self, map: &ReaderMap, i: u32) -> Row
        requires own { self.old.reader.table ≡ map.now }
        requires holds { IsSome self.old.key }
        requires i { i < length self.old.rows }
        ensures own { self.new.reader.table ≡ map.now }
        ensures row { slice_get self.old.rows i ≡ Some result }
        ensures reads { CopiesHeld 2 self.old self.new }
    {
        match self.held {
            Some(kept) => self.caller.row(map, kept.set, i),
            None => unreachable!(),
        }
    }

    /// Takes what is held for a set of that key. No step.
    pub fn hold_for(&mut self, key: u32)
        ensures { self.new ≡ held_for key self.old }
    {
        if let Some(kept) = self.held {
            self.held = Some(Kept { key, set: kept.set });
        }
    }

    /// Requests a key as the map's `ask` does, in 1 step: nothing may be held.
    pub fn ask(&mut self, map: &ReaderMap, key: u32) -> Asked
        requires own { self.old.reader.table ≡ map.now }
        requires idle { self.old.key ≡ None }
        requires key { key < map.now.shape.keys }
        ensures own { self.new.reader.table ≡ map.now }
        ensures asks { AsksKey key self.old.reader self.new.reader result }
        ensures idle { (self.new ≡ idle self.new.reader) × (self.new.reader.holds ≡ None) }
        ensures silent { self.new.reader.says ≡ 0 }
        ensures marks { self.new.reader.marks ≡ self.old.reader.marks }
    {
        self.caller.ask(map, key)
    }

    /// Lets go what is held, in 1 step; no step where nothing is.
    pub fn release(&mut self, map: &ReaderMap)
        requires own { self.old.reader.table ≡ map.now }
        ensures own { self.new.reader.table ≡ map.now }
        ensures lets_go { LetsGo self.old self.new }
        ensures idle { self.old.key ≡ None → self.new ≡ self.old }
    {
        if let Some(kept) = self.held {
            map.board
                .let_go(&mut self.caller.seat, self.caller.own, kept.set);
            self.held = None;
        }
    }

    /// Lets go what is held, and finds a key and holds its set: whether the key is filled. Takes the
    /// steps of the map's `pin`, and 1 more where something was held.
    pub fn pin(&mut self, map: &ReaderMap, key: u32) -> bool
        requires own { self.old.reader.table ≡ map.now }
        requires key { key < map.now.shape.keys }
        ensures own { self.new.reader.table ≡ map.now }
        ensures pins { PinsByHand key self.old self.new result }
    {
        self.release(map);
        match map
            .board
            .hold_key(&mut self.caller.seat, self.caller.own, key)
        {
            Some(set) => {
                self.held = Some(Kept { key, set });
                true
            }
            None => false,
        }
    }

    /// Finds a key again: whether it still has the set that is held, put by the same fill or update.
    /// Then this is a find of the key, which is answered with the rows that are held. Takes 1 step,
    /// which loads one word and writes none, and no step where no set of that key is held.
    pub fn again(&mut self, map: &ReaderMap, key: u32) -> bool
        requires own { self.old.reader.table ≡ map.now }
        requires key { key < map.now.shape.keys }
        ensures own { self.new.reader.table ≡ map.now }
        ensures again { AgainByHand key self.old self.new result }
    {
        match self.held {
            Some(kept) if kept.key == key => {
                map.board
                    .find_again(&mut self.caller.seat, kept.set.slot, key)
            }
            _ => false,
        }
    }

    /// A note of what its reader has seen, in 1 step. Else the hand stays as it is.
    pub fn note(&mut self, map: &ReaderMap) -> Note
        requires own { self.old.reader.table ≡ map.now }
        ensures reader { self.new.reader ≡ with_step self.old.reader }
        ensures held { (self.new.key ≡ self.old.key) × (self.new.rows ≡ self.old.rows) }
        ensures note { result ≡ known_to self.old.reader }
        ensures knows { KnowsOwn self.old.reader }
    {
        self.caller.note(map)
    }

    /// Its reader learns, in 1 step, all that the note's maker had seen. What is held stays held.
    pub fn hear(&mut self, map: &ReaderMap, note: Note)
        requires own { (self.old.reader.table ≡ map.now) × (note.table ≡ map.now) }
        ensures reader { HearsNote 1 note self.old.reader self.new.reader }
        ensures held { (self.new.key ≡ self.old.key) × (self.new.rows ≡ self.old.rows) }
    {
        self.caller.hear(map, note);
    }
}
