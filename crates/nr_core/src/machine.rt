//! The machine in any state, and its steps, each of which is proved from what it needs there.
ghost use Rattle.std.specs.Prelude.{◌≡◌, ◌<◌, ◌≤◌, length};
ghost use Rattle.nr_model.specs.Maps.{last_number};
ghost use Rattle.nr_model.specs.declared.rows.TheConstants.{MAX_ROWS};

mod reader_steps;
mod reclaim;
mod refusals;
mod writer_steps;

use crate::calls::WriterCall;
use crate::places::{Hold, Stage};
use crate::shape::Shape;
use crate::slot_lists::SlotLists;
use crate::words::Words;
use crate::words_read::WordsRead;
use nr_model::RowSet;
use nr_words::Layout;
use std::alloc::{AllocError, Global};

/// The words of the map, what the readers 1, 2, .. hold, and where the writer is: its place in its
/// call, the slots that no key names, and the number of each key. Contracts see it as a state
/// (`machine_state`).
///
/// The place is kept in parts (`placed`). The stage is numbers alone, and changes at each step. The
/// call, the set that it puts and the words that it has read have room for a whole set each, so
/// they stay where they are; what they hold counts as far as the stage speaks of it.
///
/// It may be in any state; its steps ask for the room that they need (`HasRoom`). Within a step its
/// parts call each other in states to which no steps lead, so that it can't itself keep the fact
/// that some do. `Core`, around it, keeps it, and has the room by it.
#[derive(Drop)]
pub struct Machine {
    layout: Layout,
    readers: u32,
    first_count: u64,
    first_number: u64,
    words: Words,
    holds: Vec<Hold>,
    stage: Stage,
    call: WriterCall,
    rows: RowSet,
    got: WordsRead,
    lists: SlotLists,
    ghost all_slots: { lists.slots ≡ layout.slots },
}

impl Machine {
    ghost use Rattle.std.specs.Prelude.{IfOk};
    ghost use Rattle.nr_core.specs.States.{opening_state, hold_of, number_at};
    ghost use Rattle.nr_core.specs.Parts.{machine_state};
    ghost use Rattle.nr_core.specs.Room.{HasRoom, RoomOf};

    /// The state in which a map opens, with all the room that its steps need.
    pub fn open(alloc: Global, shape: &Shape) -> Result<Machine, AllocError>
        requires rows { shape.now.rows ≤ MAX_ROWS }
        requires number { shape.now.first_number ≤ last_number }
        ensures { IfOk result (λ machine. machine_state machine ≡ opening_state shape.now) }
    {
        let layout = Layout {
            keys: shape.keys,
            slots: shape.slots,
            rows: shape.rows,
        };
        let words = Words::open(alloc, layout, shape.first_count, shape.first_number)?;
        let holds = vec![in alloc; Hold::Nothing; shape.readers as usize]?;
        let lists = SlotLists::open(alloc, shape)?;
        Ok(Machine {
            layout,
            readers: shape.readers,
            first_count: shape.first_count,
            first_number: shape.first_number,
            words,
            holds,
            stage: Stage::Idle,
            call: WriterCall::Find(0),
            rows: RowSet::new(),
            got: WordsRead::new(),
            lists,
        })
    }

    /// How many rows a key may have.
    pub fn rows(&self) -> u32
        ensures { result ≡ (machine_state self.now).shape.rows }
    {
        self.layout.rows
    }

    /// The ticket number of the key.
    pub fn number(&self, key: u32) -> u64
        requires listed { length self.now.lists.numbers ≡ self.now.layout.keys }
        requires key { key < self.now.layout.keys }
        ensures { result ≡ number_at (machine_state self.now).desk key }
    {
        self.lists.number(key)
    }

    /// What the reader holds.
    fn hold(&self, reader: u32) -> Hold
        requires room { HasRoom (machine_state self.now) }
        requires low { 0 < reader }
        requires high { reader ≤ self.now.readers }
        ensures value { result ≡ hold_of (machine_state self.now) reader }
        ensures room { RoomOf (machine_state self.now).shape result }
    {
        self.holds[reader as usize - 1]
    }
}
