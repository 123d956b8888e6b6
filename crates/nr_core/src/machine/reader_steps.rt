//! The steps of a reader: each is one operation on one word.
ghost use Rattle.std.specs.Prelude.{◌≡◌, None};
ghost use Rattle.nr_core.specs.States.{Arrive, Read, Depart, Ask, FindAgain};
ghost use Rattle.nr_core.specs.Machine.{next_state, arrive_answer, read_answer, depart_answer, ask_answer, find_again_answer, arrive_hold, arrived_at, asked_at, names_held};
ghost use Rattle.nr_core.specs.declared.places.Hold.TheVariants.{On};
ghost use Rattle.nr_core.specs.Room.{HasRoom};
ghost use Rattle.nr_core.specs.Parts.{machine_state};

use crate::calls::{Arrived, AskReply, Refusal};
use crate::machine::Machine;
use crate::places::Hold;
use nr_words::{ARRIVE, parts};

impl Machine {
    /// Adds one arrival to the key's word. The word that the addition finds says what the reader
    /// holds from then on: the slot that it names, or nothing.
    pub fn arrive(&mut self, reader: u32, key: u32) -> Result<Arrived, Refusal>
        requires { HasRoom (machine_state self.old) }
        ensures answer { result ≡ arrive_answer (machine_state self.old) reader key }
        ensures new { machine_state self.new ≡ next_state (machine_state self.old) (Arrive reader key) }
    {
        self.may_come(reader, key)?;
        let word = self.words.fetch_add(self.layout.key(key), ARRIVE);
        self.holds[reader as usize - 1] = arrive_hold(word);
        Ok(arrived_at(word))
    }

    /// Sets the bit that says that the key is asked, and answers by the word that it finds.
    pub fn ask(&mut self, reader: u32, key: u32) -> Result<AskReply, Refusal>
        requires { HasRoom (machine_state self.old) }
        ensures answer { result ≡ ask_answer (machine_state self.old) reader key }
        ensures new { machine_state self.new ≡ next_state (machine_state self.old) (Ask reader key) }
    {
        self.may_come(reader, key)?;
        let word = self.words.fetch_or(self.layout.key(key), 1);
        Ok(asked_at(word))
    }

    /// Loads a content word of the slot that the reader holds. Word 0 tells the reader how many
    /// rows there are.
    pub fn read(&mut self, reader: u32, index: u64) -> Result<u64, Refusal>
        requires { HasRoom (machine_state self.old) }
        ensures answer { result ≡ read_answer (machine_state self.old) reader index }
        ensures new { machine_state self.new ≡ next_state (machine_state self.old) (Read reader index) }
    {
        let (slot, size) = self.may_read(reader, index)?;
        let word = self.words.load(self.layout.content(slot, index as u32));
        let known = if index == 0 { Some(word) } else { size };
        self.holds[reader as usize - 1] = Hold::On(slot, known);
        Ok(word)
    }

    /// Loads the key's word: whether it names the slot that the reader holds.
    pub fn find_again(&mut self, reader: u32, key: u32) -> Result<bool, Refusal>
        requires { HasRoom (machine_state self.old) }
        ensures answer { result ≡ find_again_answer (machine_state self.old) reader key }
        ensures new { machine_state self.new ≡ next_state (machine_state self.old) (FindAgain reader key) }
    {
        let slot = self.may_find_again(reader, key)?;
        let word = self.words.load(self.layout.key(key));
        Ok(names_slot(word, slot))
    }

    /// Adds one to the departure word of the slot that the reader holds.
    pub fn depart(&mut self, reader: u32) -> Result<(), Refusal>
        requires { HasRoom (machine_state self.old) }
        ensures answer { result ≡ depart_answer (machine_state self.old) reader }
        ensures new { machine_state self.new ≡ next_state (machine_state self.old) (Depart reader) }
    {
        let slot = self.may_depart(reader)?;
        self.words.fetch_add(self.layout.departures(slot), 1);
        self.holds[reader as usize - 1] = Hold::Nothing;
        Ok(())
    }
}

/// What a reader holds whose arrive found the word.
fn arrive_hold(word: u64) -> Hold
    ensures { result ≡ arrive_hold word }
{
    let found = parts(word);
    if found.filled {
        Hold::On(found.slot, None)
    } else {
        Hold::Nothing
    }
}

/// Whether the word names the slot.
fn names_slot(word: u64, slot: u32) -> bool
    ensures { result ≡ names_held (On slot None) word }
{
    let found = parts(word);
    found.filled && found.slot == slot
}

/// What the arrive answers.
fn arrived_at(word: u64) -> Arrived
    ensures { result ≡ arrived_at word }
{
    if parts(word).filled {
        Arrived::Held
    } else {
        Arrived::Hole
    }
}

/// What a request answers that found the word.
fn asked_at(word: u64) -> AskReply
    ensures { result ≡ asked_at word }
{
    let found = parts(word);
    if found.filled {
        AskReply::Filled
    } else if found.ask {
        AskReply::Waiting
    } else {
        AskReply::Send(u64::from(found.slot))
    }
}
