//! Why a step is refused: a reader or key out of range first, the index of a read last.
ghost use Rattle.std.specs.Prelude.{◌≡◌, ◌<◌, ◌≤◌, None, Some, OnOk, IfOk, IfErr, Option, ℕ};
ghost use Rattle.nr_core.specs.declared.places.Hold.TheVariants.{On};
ghost use Rattle.nr_core.specs.States.{Arrive, Read, Depart, Ask, FindAgain, Start, hold_of, slot_in, key_of};
ghost use Rattle.nr_core.specs.Refusals.{refusal, has_reader, has_key};
ghost use Rattle.nr_core.specs.Room.{HasRoom};
ghost use Rattle.nr_core.specs.Slots.{slot_room};
ghost use Rattle.nr_core.specs.Parts.{machine_state};

use crate::calls::{Refusal, WriterCall};
use crate::machine::Machine;
use crate::places::{Hold, Stage};

impl Machine {
    fn has_reader(&self, reader: u32) -> bool
        ensures { result ≡ has_reader (machine_state self.now).shape reader }
    {
        0 < reader && reader <= self.readers
    }

    fn has_key(&self, key: u32) -> bool
        ensures { result ≡ has_key (machine_state self.now).shape key }
    {
        key < self.layout.keys
    }

    /// For an arrive or a request, whose reader has to hold nothing.
    pub fn may_come(&self, reader: u32, key: u32) -> Result<(), Refusal>
        requires { HasRoom (machine_state self.now) }
        ensures arrive { OnOk result (refusal (machine_state self.now) (Arrive reader key) ≡ None) }
        ensures arrive_refused { IfErr result (λ why. refusal (machine_state self.now) (Arrive reader key) ≡ Some why) }
        ensures ask { OnOk result (refusal (machine_state self.now) (Ask reader key) ≡ None) }
        ensures ask_refused { IfErr result (λ why. refusal (machine_state self.now) (Ask reader key) ≡ Some why) }
        ensures reader { OnOk result ((0 < reader) × (reader ≤ (machine_state self.now).shape.readers)) }
        ensures key { OnOk result (key < (machine_state self.now).shape.keys) }
    {
        if !self.has_reader(reader) || !self.has_key(key) {
            return Err(Refusal::OutOfRange);
        }
        match self.hold(reader) {
            Hold::Nothing => Ok(()),
            Hold::On(_, _) => Err(Refusal::Holding),
        }
    }

    /// For a departure, whose reader has to hold a slot: the slot.
    pub fn may_depart(&self, reader: u32) -> Result<u32, Refusal>
        requires { HasRoom (machine_state self.now) }
        ensures depart { OnOk result (refusal (machine_state self.now) (Depart reader) ≡ None) }
        ensures refused { IfErr result (λ why. refusal (machine_state self.now) (Depart reader) ≡ Some why) }
        ensures reader { OnOk result ((0 < reader) × (reader ≤ (machine_state self.now).shape.readers)) }
        ensures slot { IfOk result (λ slot. slot ≡ slot_in (hold_of (machine_state self.now) reader)) }
        ensures slot_in { IfOk result (λ slot. slot < (machine_state self.now).shape.slots) }
    {
        if !self.has_reader(reader) {
            return Err(Refusal::OutOfRange);
        }
        match self.hold(reader) {
            Hold::Nothing => Err(Refusal::NotHolding),
            Hold::On(slot, _) => Ok(slot),
        }
    }

    /// For a find again, whose reader has to hold a slot: the slot.
    pub fn may_find_again(&self, reader: u32, key: u32) -> Result<u32, Refusal>
        requires { HasRoom (machine_state self.now) }
        ensures again { OnOk result (refusal (machine_state self.now) (FindAgain reader key) ≡ None) }
        ensures refused { IfErr result (λ why. refusal (machine_state self.now) (FindAgain reader key) ≡ Some why) }
        ensures key { OnOk result (key < (machine_state self.now).shape.keys) }
        ensures hold { IfOk result (λ slot. (size : Option ℕ) × (hold_of (machine_state self.now) reader ≡ On slot size)) }
    {
        if !self.has_reader(reader) || !self.has_key(key) {
            return Err(Refusal::OutOfRange);
        }
        match self.hold(reader) {
            Hold::Nothing => Err(Refusal::NotHolding),
            Hold::On(slot, _) => Ok(slot),
        }
    }

    /// For a read, whose reader has to hold a slot: the slot, and the number of rows as far as the
    /// reader knows it. It may read word 0, and once it has read it, two words for each row.
    pub fn may_read(&self, reader: u32, index: u64) -> Result<(u32, Option<u64>), Refusal>
        requires { HasRoom (machine_state self.now) }
        ensures read { OnOk result (refusal (machine_state self.now) (Read reader index) ≡ None) }
        ensures refused { IfErr result (λ why. refusal (machine_state self.now) (Read reader index) ≡ Some why) }
        ensures reader { OnOk result ((0 < reader) × (reader ≤ (machine_state self.now).shape.readers)) }
        ensures hold { IfOk result (λ (slot, size). hold_of (machine_state self.now) reader ≡ On slot size) }
        ensures slot_in { IfOk result (λ (slot, _). slot < (machine_state self.now).shape.slots) }
        ensures index_in { OnOk result (index < slot_room (machine_state self.now).shape) }
    {
        if !self.has_reader(reader) {
            return Err(Refusal::OutOfRange);
        }
        let Hold::On(slot, size) = self.hold(reader) else {
            return Err(Refusal::NotHolding);
        };
        let last = match size {
            None => 0,
            Some(rows) => 2 * rows,
        };
        if index > last {
            return Err(Refusal::OutOfRange);
        }
        Ok((slot, size))
    }

    /// For a start, before which the writer has to be in no call.
    pub fn may_start(&self, call: &WriterCall) -> Result<(), Refusal>
        ensures start { OnOk result (refusal (machine_state self.now) (Start call.now) ≡ None) }
        ensures refused { IfErr result (λ why. refusal (machine_state self.now) (Start call.now) ≡ Some why) }
        ensures key { OnOk result (key_of call.now < (machine_state self.now).shape.keys) }
    {
        if !self.has_key(call.key()) {
            return Err(Refusal::OutOfRange);
        }
        match self.stage {
            Stage::Idle => Ok(()),
            _ => Err(Refusal::Busy),
        }
    }
}
