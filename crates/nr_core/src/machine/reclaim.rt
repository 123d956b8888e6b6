//! How a call of the writer comes to a slot, and how a slot is retired.
ghost use Rattle.std.specs.Prelude.{◌≡◌, ◌<◌, ◌≤◌, List, length};
ghost use Rattle.nr_model.specs.declared.rows.Row.{Row};
ghost use Rattle.nr_core.specs.declared.places.Stage.TheVariants.{Searching};
ghost use Rattle.nr_core.specs.declared.places.Place.TheVariants.{Idle};
ghost use Rattle.nr_core.specs.States.{Go};
ghost use Rattle.nr_core.specs.Machine.{moved, found_by};
ghost use Rattle.nr_core.specs.Outcomes.{step_of};
ghost use Rattle.nr_core.specs.Parts.{machine_state};
ghost use Rattle.nr_core.specs.Writer.{desk_in, moved_to, no_slot, settled, step_in, swapped, went};
ghost use Rattle.nr_core.specs.Room.{HasRoom};

use crate::machine::Machine;
use crate::outcome::Outcome;
use crate::places::Stage;
use nr_words::same_count;

impl Machine {
    /// The call takes the first free slot for its set. Where none is free it goes on to poll the
    /// retired ones, and where none is retired either it ends.
    pub fn settle(&mut self) -> Outcome
        requires { length self.old.lists.retired ≤ self.old.layout.slots }
        ensures answer { (found : List Row) → step_of found result ≡ step_in (settled (machine_state self.old).shape (machine_state self.old).desk self.old.call self.old.rows) }
        ensures new { machine_state self.new ≡ record (machine_state self.old) { desk = desk_in (settled (machine_state self.old).shape (machine_state self.old).desk self.old.call self.old.rows) } }
    {
        if let Some(slot) = self.lists.take_fresh() {
            self.stage = Stage::Putting(slot, self.first_count, 0);
            Outcome::Going
        } else if self.lists.retired_len() == 0 {
            self.no_slot()
        } else {
            self.stage = Stage::Searching(0);
            Outcome::Going
        }
    }

    /// Loads the departure word of a retired slot. Where the departures are the slot's arrivals,
    /// nobody holds it, and the call takes it. Else the next one is polled, or the call ends.
    pub fn poll(&mut self, poll: u32) -> Outcome
        requires stage { self.old.stage ≡ Searching poll }
        requires room { HasRoom (machine_state self.old) }
        ensures answer { (found : List Row) → step_of found result ≡ step_in (went (machine_state self.old).shape (machine_state self.old).desk (machine_state self.old).desk.place (found_by (machine_state self.old) Go)) }
        ensures new { machine_state self.new ≡ moved (machine_state self.old) Go }
    {
        let retired = self.lists.retired_at(poll as usize);
        let departed = self.words.load(self.layout.departures(retired.slot));
        if same_count(departed, retired.arrivals) {
            self.lists.take_retired(poll as usize);
            self.stage = Stage::Putting(retired.slot, departed, 0);
            Outcome::Going
        } else if poll as usize + 1 < self.lists.retired_len() {
            self.stage = Stage::Searching(poll + 1);
            Outcome::Going
        } else {
            self.no_slot()
        }
    }

    /// The call ends with no slot: each is retired, or named by a key.
    fn no_slot(&mut self) -> Outcome
        requires { length self.old.lists.retired ≤ self.old.layout.slots }
        ensures answer { (found : List Row) → step_of found result ≡ no_slot (machine_state self.old).shape (machine_state self.old).desk }
        ensures new { machine_state self.new ≡ record (machine_state self.old) { desk = moved_to (machine_state self.old).desk Idle } }
    {
        self.stage = Stage::Idle;
        Outcome::NoSlot(self.lists.counts())
    }

    /// The call has swapped another word in for that one, whose slot is retired with its arrivals.
    pub fn retire(&mut self, word: u64)
        requires { length self.old.lists.retired < self.old.layout.slots }
        ensures { machine_state self.new ≡ record (machine_state self.old) { desk = swapped (machine_state self.old).desk word } }
    {
        self.lists.retire(word);
        self.stage = Stage::Idle;
    }
}
