//! The step machine that callers see.
ghost use Rattle.std.specs.Prelude.{◌≡◌, ◌≤◌, ◌<◌, ◌↔◌, ◌⊎◌, IfOk, Err, Some, option_map};
ghost use Rattle.nr_model.specs.Maps.{SetFits, number_of};
ghost use Rattle.nr_model.specs.declared.rows.TheConstants.{DEFAULT_ROWS, MAX_ROWS};
ghost use Rattle.nr_model.specs.declared.seq_map.TheConstants.{MAX_KEYS};
ghost use Rattle.nr_core.specs.Sizes.{IsBadShape};
ghost use Rattle.nr_core.specs.declared.shape.TheConstants.{MAX_READERS, MAX_SLOTS};
ghost use Rattle.nr_core.specs.Story.{call_of, shown};
ghost use Rattle.nr_core.specs.States.{opening_state, number_at, Arrive, Read, Depart, Ask, FindAgain, Start, Go};
ghost use Rattle.nr_core.specs.Machine.{next_state, arrive_answer, read_answer, depart_answer, ask_answer, find_again_answer, start_answer, go_answer};
ghost use Rattle.nr_model.specs.Sizes.{IsBadSize};

use crate::calls::{Arrived, AskReply, Refusal, Step, WriterCall};
use crate::machine::Machine;
use crate::outcome::Outcome;
use crate::shape::Shape;
use nr_model::{DEFAULT_ROWS, OpenFault, RowSet};
use std::alloc::Global;
use std::marker::Model;

/// The machine, in a state to which some steps of its callers lead. A step that is refused changes
/// nothing and makes no operation; every other one makes one operation on one word, and contracts
/// see which (`made`). No step takes memory.
#[derive(Drop)]
pub struct Core {
    machine: Machine,
    /// What a find found last, of which its answer is made.
    found: RowSet,
}

impl Model for Core {
    ghost use Rattle.nr_core.specs.States.{State};
    ghost use Rattle.nr_core.specs.Parts.{machine_state};
    ghost use Rattle.nr_core.specs.Reach.{Reached};

    ghost Value = { State };

    ghost view = { λ core. machine_state core.machine };

    ghost invariant = { λ core. ∥ Reached (machine_state core.machine) ∥₁ };
}

impl Core {
    /// The machine of a map of 1 to 65,536 keys, each a hole, 1 to 131,072 slots, each of which
    /// starts at the first count, and 1 to 1,024 readers. Other sizes are refused, and then want
    /// of memory.
    pub fn open(
        alloc: Global,
        keys: u32,
        slots: u32,
        readers: u32,
        first_count: u64,
    ) -> Result<Core, OpenFault>
        ensures bad_size { (result ≡ Err OpenFault.BadSize)
            ↔ (IsBadSize MAX_KEYS keys ⊎ IsBadSize MAX_SLOTS slots ⊎ IsBadSize MAX_READERS readers) }
        ensures ok { IfOk result (λ core. core ≡ opening_state (record {
          keys = keys;
          slots = slots;
          readers = readers;
          first_count = first_count;
          first_number = 0;
          rows = DEFAULT_ROWS;
        })) }
    {
        let shape = Shape {
            keys,
            slots,
            readers,
            first_count,
            first_number: 0,
            rows: DEFAULT_ROWS,
        };
        Core::open_with(alloc, &shape)
    }

    /// The machine of a map of that shape. Every key is a hole, whose first request has the first
    /// number, 0 to 4,194,303. The other sizes are those of `open`; what is out of its limits is
    /// refused (`BadSize`), and then want of memory (`Memory`).
    pub fn open_with(alloc: Global, shape: &Shape) -> Result<Core, OpenFault>
        ensures bad_size { (result ≡ Err OpenFault.BadSize) ↔ IsBadShape shape.now }
        ensures ok { IfOk result (λ core. core ≡ opening_state shape.now) }
    {
        if shape.is_bad() {
            return Err(OpenFault::BadSize);
        }
        let machine = Machine::open(alloc, shape).map_err(|_| OpenFault::Memory)?;
        Ok(Core {
            machine,
            found: RowSet::new(),
        })
    }

    /// How many rows a key may have, 1 to 255.
    pub fn rows(&self) -> u32
        ensures value { result ≡ self.now.shape.rows }
        ensures positive { 0 < result }
        ensures bounded { result ≤ MAX_ROWS }
    {
        self.machine.rows()
    }

    /// The number of a key, below the number of keys: the one that its next request is sent with,
    /// or, where it is asked or filled, the one of its last request. The writer's list has it, so it
    /// is no step.
    pub fn number(&self, key: u32) -> u64
        requires { key < self.now.shape.keys }
        ensures listed { result ≡ number_at self.now.desk key }
        ensures shown { option_map (λ state. number_of state) (shown self.now key) ≡ Some result }
    {
        self.machine.number(key)
    }

    /// A reader, from 1, arrives at a key, from 0: one addition to the key's word. It holds the
    /// key's slot then, or finds a hole. Refused where there is no such reader or key
    /// (`OutOfRange`), and then where the reader holds a slot (`Holding`).
    pub fn arrive(&mut self, reader: u32, key: u32) -> Result<Arrived, Refusal>
        ensures answer { result ≡ arrive_answer self.old reader key }
        ensures new { self.new ≡ next_state self.old (Arrive reader key) }
    {
        self.machine.arrive(reader, key)
    }

    /// A reader reads a content word of the slot that it holds: one load. Refused where there is no
    /// such reader (`OutOfRange`), then where it holds nothing (`NotHolding`), and then unless the
    /// index is 0 or, once word 0 was read in this hold, at most twice that number (`OutOfRange`).
    pub fn read(&mut self, reader: u32, index: u64) -> Result<u64, Refusal>
        ensures answer { result ≡ read_answer self.old reader index }
        ensures new { self.new ≡ next_state self.old (Read reader index) }
    {
        self.machine.read(reader, index)
    }

    /// A reader leaves the slot that it holds: one addition to the slot's departure word. Refused
    /// where there is no such reader (`OutOfRange`), and then where it holds nothing (`NotHolding`).
    pub fn depart(&mut self, reader: u32) -> Result<(), Refusal>
        ensures answer { result ≡ depart_answer self.old reader }
        ensures new { self.new ≡ next_state self.old (Depart reader) }
    {
        self.machine.depart(reader)
    }

    /// A reader that holds a slot finds a key again: one load of the key's word, which tells whether
    /// it names that slot. Refused where there is no such reader or key (`OutOfRange`), and then where
    /// the reader holds no slot (`NotHolding`).
    pub fn find_again(&mut self, reader: u32, key: u32) -> Result<bool, Refusal>
        ensures answer { result ≡ find_again_answer self.old reader key }
        ensures new { self.new ≡ next_state self.old (FindAgain reader key) }
    {
        self.machine.find_again(reader, key)
    }

    /// A reader asks for a key: one bitwise or on the key's word. Refused where there is no such
    /// reader or key (`OutOfRange`), and then where the reader holds a slot (`Holding`).
    pub fn ask(&mut self, reader: u32, key: u32) -> Result<AskReply, Refusal>
        ensures answer { result ≡ ask_answer self.old reader key }
        ensures new { self.new ≡ next_state self.old (Ask reader key) }
    {
        self.machine.ask(reader, key)
    }

    /// The writer begins a call by its look at the key's word: one load. Refused where there is no
    /// such key (`OutOfRange`), and then where the writer is in a call (`Busy`). A fill brings at most
    /// `rows()` rows.
    pub fn start(&mut self, call: &WriterCall) -> Result<Step, Refusal>
        requires fits { SetFits self.old.shape.rows (call_of call.now) }
        ensures answer { result ≡ start_answer self.old call.now }
        ensures new { self.new ≡ next_state self.old (Start call.now) }
    {
        let outcome = self.machine.start(call)?;
        // most steps go on: they are answered here, before there is room for a set
        if let Outcome::Going = outcome {
            return Ok(Step::Going);
        }
        Ok(outcome.step(&self.found))
    }

    /// The writer's call makes its next step: a load of a content word or of a departure word, a
    /// store of a content word, or a swap of the key's word. Refused where the writer is in no call
    /// (`NotBusy`).
    pub fn go(&mut self) -> Result<Step, Refusal>
        ensures answer { result ≡ go_answer self.old }
        ensures new { self.new ≡ next_state self.old Go }
    {
        let outcome = self.machine.go(&mut self.found)?;
        if let Outcome::Going = outcome {
            return Ok(Step::Going);
        }
        Ok(outcome.step(&self.found))
    }
}
