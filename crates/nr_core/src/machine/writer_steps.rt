//! The steps of the writer: each is one operation on one word.
ghost use Rattle.std.specs.Prelude.{◌≡◌, ◌<◌, ◌≤◌, ◌*◌, ◌+◌, [], List, length, slice_index};
ghost use Rattle.nr_model.specs.declared.rows.Row.{Row};
ghost use Rattle.nr_model.specs.declared.rows.TheConstants.{MAX_ROWS};
ghost use Rattle.nr_words.specs.SetWords.{decode, encode};
ghost use Rattle.nr_core.specs.declared.places.Place.TheVariants.{Idle, Reading as ReadingAt};
ghost use Rattle.nr_core.specs.declared.places.Stage.TheVariants.{Reading, Leaving, Withdrawing, Putting};
ghost use Rattle.nr_core.specs.States.{Start, Go};
ghost use Rattle.nr_core.specs.Story.{call_of};
ghost use Rattle.nr_core.specs.Machine.{next_state, moved, found_by, start_answer, go_answer};
ghost use Rattle.nr_core.specs.Outcomes.{step_of, step_or_refusal};
ghost use Rattle.nr_core.specs.Parts.{machine_state};
ghost use Rattle.nr_core.specs.Writer.{looked, fill_asked, cancel_asked, settled, decoded, went, moved_to, desk_in, step_in};
ghost use Rattle.nr_core.specs.Slots.{bound_of, slot_room};
ghost use Rattle.nr_model.specs.Maps.{SetFits};
ghost use Rattle.nr_core.specs.Given.{IsGivenCall};
ghost use Rattle.nr_core.specs.Room.{HasRoom};

use crate::calls::{Refusal, WriterCall};
use crate::machine::Machine;
use crate::outcome::Outcome;
use crate::places::Stage;
use nr_model::{ApplyFault, LAST_NUMBER, RowSet};
use nr_words::{hole_word, naming, parts, word_at};

impl Machine {
    /// The look: loads the word of the call's key.
    pub fn start(&mut self, call: &WriterCall) -> Result<Outcome, Refusal>
        requires room { HasRoom (machine_state self.old) }
        requires fits { SetFits (bound_of (machine_state self.old).shape) (call_of call.now) }
        ensures answer { (found : List Row) → step_or_refusal found result ≡ start_answer (machine_state self.old) call.now }
        ensures new { machine_state self.new ≡ next_state (machine_state self.old) (Start call.now) }
        ensures given { IsGivenCall (bound_of (machine_state self.old).shape) call.now }
    {
        call.given();
        self.may_start(call)?;
        let word = self.words.load(self.layout.key(call.key()));
        Ok(self.look(call, word))
    }

    /// The next step of the writer's call. The set that a find ends with is written into `found`.
    pub fn go(&mut self, found: &mut RowSet) -> Result<Outcome, Refusal>
        requires { HasRoom (machine_state self.old) }
        ensures answer { step_or_refusal found.new result ≡ go_answer (machine_state self.old) }
        ensures new { machine_state self.new ≡ next_state (machine_state self.old) Go }
    {
        match self.stage {
            Stage::Idle => Err(Refusal::NotBusy),
            Stage::Reading(slot) => Ok(self.read_on(slot, found)),
            Stage::Leaving(key) => Ok(self.unpublish(key)),
            Stage::Withdrawing(key) => Ok(self.withdraw(key)),
            Stage::Searching(poll) => Ok(self.poll(poll)),
            Stage::Putting(slot, departed, index) => {
                if index as usize <= 2 * self.rows.len() {
                    Ok(self.put(slot, departed, index))
                } else {
                    Ok(self.publish(slot, departed, index))
                }
            }
        }
    }

    /// Where the call goes from its look, which found that word.
    fn look(&mut self, call: &WriterCall, word: u64) -> Outcome
        requires { length self.old.lists.retired ≤ self.old.layout.slots }
        ensures answer { (found : List Row) → step_of found result ≡ step_in (looked (machine_state self.old).shape (machine_state self.old).desk call.now word) }
        ensures new { machine_state self.new ≡ record (machine_state self.old) { desk = desk_in (looked (machine_state self.old).shape (machine_state self.old).desk call.now word) } }
    {
        let found = parts(word);
        match call {
            WriterCall::Find(_) => {
                if found.filled {
                    self.read_from(call, found.slot)
                } else {
                    self.end(Outcome::Hole)
                }
            }
            WriterCall::Fill(_, number, rows) => {
                if found.filled {
                    self.end(Outcome::Already)
                } else if found.ask {
                    self.fill_asked(call, *number, rows, u64::from(found.slot))
                } else {
                    self.end(Outcome::NotAsked)
                }
            }
            WriterCall::Update(_, _) => {
                if found.filled {
                    self.read_from(call, found.slot)
                } else {
                    self.end(Outcome::Dropped)
                }
            }
            WriterCall::Replace(_, rows) => {
                if found.filled {
                    self.settle_on(call, rows)
                } else {
                    self.end(Outcome::Dropped)
                }
            }
            WriterCall::Evict(key) => {
                if found.filled {
                    self.stage = Stage::Leaving(*key);
                    Outcome::Going
                } else {
                    self.end(Outcome::Nothing)
                }
            }
            WriterCall::Cancel(key) => {
                if found.ask && !found.filled {
                    self.cancel_asked(*key, u64::from(found.slot))
                } else {
                    self.end(Outcome::Nothing)
                }
            }
        }
    }

    /// The call reads the words of a slot that its key names, from the first one on.
    fn read_from(&mut self, call: &WriterCall, slot: u32) -> Outcome
        ensures answer { result ≡ Outcome.Going }
        ensures new { machine_state self.new ≡ record (machine_state self.old) { desk = moved_to (machine_state self.old).desk (ReadingAt call.now slot []) } }
    {
        self.call = *call;
        self.got.clear();
        self.stage = Stage::Reading(slot);
        Outcome::Going
    }

    /// Where a fill goes whose key is asked with that number: it answers the request of its own
    /// number alone.
    fn fill_asked(&mut self, call: &WriterCall, number: u64, rows: &RowSet, asked: u64) -> Outcome
        requires { length self.old.lists.retired ≤ self.old.layout.slots }
        ensures answer { (found : List Row) → step_of found result ≡ step_in (fill_asked (machine_state self.old).shape (machine_state self.old).desk call.now number rows.now asked) }
        ensures new { machine_state self.new ≡ record (machine_state self.old) { desk = desk_in (fill_asked (machine_state self.old).shape (machine_state self.old).desk call.now number rows.now asked) } }
    {
        if asked != number {
            return self.end(Outcome::Stale);
        }
        self.settle_on(call, rows)
    }

    /// The call takes a slot for the set that it brings.
    fn settle_on(&mut self, call: &WriterCall, rows: &RowSet) -> Outcome
        requires { length self.old.lists.retired ≤ self.old.layout.slots }
        ensures answer { (found : List Row) → step_of found result ≡ step_in (settled (machine_state self.old).shape (machine_state self.old).desk call.now rows.now) }
        ensures new { machine_state self.new ≡ record (machine_state self.old) { desk = desk_in (settled (machine_state self.old).shape (machine_state self.old).desk call.now rows.now) } }
    {
        self.call = *call;
        self.rows = *rows;
        self.settle()
    }

    /// Where a cancel goes whose key is asked with that number: the last one is not taken back.
    fn cancel_asked(&mut self, key: u32, asked: u64) -> Outcome
        ensures answer { (found : List Row) → step_of found result ≡ step_in (cancel_asked (machine_state self.old).desk key asked) }
        ensures new { machine_state self.new ≡ record (machine_state self.old) { desk = desk_in (cancel_asked (machine_state self.old).desk key asked) } }
    {
        if asked < LAST_NUMBER {
            self.stage = Stage::Withdrawing(key);
            Outcome::Going
        } else {
            self.end(Outcome::Worn)
        }
    }

    /// Loads the next content word of a slot that a key names.
    fn read_on(&mut self, slot: u32, found: &mut RowSet) -> Outcome
        requires stage { self.old.stage ≡ Reading slot }
        requires room { HasRoom (machine_state self.old) }
        ensures answer { step_of found.new result ≡ step_in (went (machine_state self.old).shape (machine_state self.old).desk (machine_state self.old).desk.place (found_by (machine_state self.old) Go)) }
        ensures new { machine_state self.new ≡ moved (machine_state self.old) Go }
    {
        let word = self.words.load(self.layout.content(slot, self.got.len()));
        self.got.push(word);
        if self.got.is_whole() {
            self.decide(found)
        } else {
            Outcome::Going
        }
    }

    /// Where the call goes from its last read, which completes the set. Only finds and updates read.
    fn decide(&mut self, found: &mut RowSet) -> Outcome
        requires bound { bound_of (machine_state self.old).shape ≤ MAX_ROWS }
        requires fits { length self.old.got ≤ slot_room (machine_state self.old).shape }
        requires few { length self.old.lists.retired ≤ self.old.layout.slots }
        requires whole { length self.old.got ≡ 2 * slice_index self.old.got 0 + 1 }
        ensures answer { step_of found.new result ≡ step_in (decoded (machine_state self.old).shape (machine_state self.old).desk self.old.call (decode self.old.got)) }
        ensures new { machine_state self.new ≡ record (machine_state self.old) { desk = desk_in (decoded (machine_state self.old).shape (machine_state self.old).desk self.old.call (decode self.old.got)) } }
    {
        let Some(rows) = self.got.set() else {
            return self.end(Outcome::Going);
        };
        match &self.call {
            WriterCall::Find(_) => {
                *found = rows;
                self.end(Outcome::Rows)
            }
            WriterCall::Update(_, batch) => match rows.applied(batch, self.layout.rows) {
                Ok(left) => {
                    self.rows = left;
                    self.settle()
                }
                Err(ApplyFault::NoRow) => self.end(Outcome::NoRow),
                Err(ApplyFault::TooMany) => self.end(Outcome::TooMany),
            },
            WriterCall::Fill(_, _, _)
            | WriterCall::Replace(_, _)
            | WriterCall::Evict(_)
            | WriterCall::Cancel(_) => self.end(Outcome::Going),
        }
    }

    /// Stores the next word of the set in the slot that the call took, which no key names and
    /// nobody holds.
    fn put(&mut self, slot: u32, departed: u64, index: u32) -> Outcome
        requires stage { self.old.stage ≡ Putting slot departed index }
        requires room { HasRoom (machine_state self.old) }
        requires more { index ≤ 2 * length self.old.rows }
        ensures answer { (found : List Row) → step_of found result ≡ step_in (went (machine_state self.old).shape (machine_state self.old).desk (machine_state self.old).desk.place (found_by (machine_state self.old) Go)) }
        ensures new { machine_state self.new ≡ moved (machine_state self.old) Go }
    {
        let word = word_at(&self.rows, index as usize);
        self.words.store(self.layout.content(slot, index), word);
        self.stage = Stage::Putting(slot, departed, index + 1);
        Outcome::Going
    }

    /// Swaps in a word that names the slot, with the slot's departures as its arrivals. The slot
    /// that the old word named is retired.
    fn publish(&mut self, slot: u32, departed: u64, index: u32) -> Outcome
        requires stage { self.old.stage ≡ Putting slot departed index }
        requires room { HasRoom (machine_state self.old) }
        requires all_put { 2 * length self.old.rows < index }
        ensures answer { (found : List Row) → step_of found result ≡ step_in (went (machine_state self.old).shape (machine_state self.old).desk (machine_state self.old).desk.place (found_by (machine_state self.old) Go)) }
        ensures new { machine_state self.new ≡ moved (machine_state self.old) Go }
    {
        let place = self.layout.key(self.call.key());
        let word = self.words.swap(place, naming(slot, departed));
        self.retire(word);
        Outcome::Done
    }

    /// Swaps in the word of a hole with the key's ticket number. The slot that the old word named is
    /// retired.
    fn unpublish(&mut self, key: u32) -> Outcome
        requires stage { self.old.stage ≡ Leaving key }
        requires room { HasRoom (machine_state self.old) }
        ensures answer { (found : List Row) → step_of found result ≡ step_in (went (machine_state self.old).shape (machine_state self.old).desk (machine_state self.old).desk.place (found_by (machine_state self.old) Go)) }
        ensures new { machine_state self.new ≡ moved (machine_state self.old) Go }
    {
        let hole = hole_word(self.number(key), false);
        let word = self.words.swap(self.layout.key(key), hole);
        self.retire(word);
        Outcome::Evicted
    }

    /// Swaps in the word of a hole with the next number, so that an answer to the request that is
    /// taken back fills no later one. The old word names no slot.
    fn withdraw(&mut self, key: u32) -> Outcome
        requires stage { self.old.stage ≡ Withdrawing key }
        requires room { HasRoom (machine_state self.old) }
        ensures answer { (found : List Row) → step_of found result ≡ step_in (went (machine_state self.old).shape (machine_state self.old).desk (machine_state self.old).desk.place (found_by (machine_state self.old) Go)) }
        ensures new { machine_state self.new ≡ moved (machine_state self.old) Go }
    {
        let number = self.number(key) + 1;
        let hole = hole_word(number, false);
        self.words.swap(self.layout.key(key), hole);
        self.lists.renumber(key, number);
        self.end(Outcome::Cancelled)
    }

    /// The call ends so.
    fn end(&mut self, outcome: Outcome) -> Outcome
        ensures answer { result ≡ outcome }
        ensures new { machine_state self.new ≡ record (machine_state self.old) { desk = moved_to (machine_state self.old).desk Idle } }
    {
        self.stage = Stage::Idle;
        outcome
    }
}
