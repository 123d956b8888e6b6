//! What a reader's handle leads to.
ghost use Rattle.std.specs.Prelude.{◌≡◌, ◌<◌, ◌≤◌};
ghost use Rattle.std.specs.Bool.{OnFalse, OnTrue};
ghost use Rattle.nr_c.specs.Endings.{Ends, EndsShare};
ghost use Rattle.nr_c.specs.Hands.{EndsHand, HoldsNone, HoldsSome};
ghost use Rattle.nr_map.specs.Hands.{idle};

use crate::ending::leave;
use crate::watch::Watch;
use nr_map::{Hand, Reader, ReaderMap};
use std::alloc::Global;
use std::sync::Arc;

/// How many words keep two readers' sides on different lines of the processors' caches.
pub const APART: usize = 28;

/// A reader, whether or not it holds a set, with its share of the map, with which it begins as the
/// writer's side does.
#[repr(C)]
pub struct ReaderSide {
    pub map: Arc<ReaderMap, Global>,
    pub hand: Hand,
    pub watch: Watch,
    /// Keeps what the calls of two threads write apart.
    pub apart: [u64; APART],
    ghost own: { hand.reader.table ≡ map.value },
}

// A reader that holds a set is released.
impl Drop for ReaderSide {
    fn drop(self)
        ensures ends { Ends (EndsHand self.hand) }
        ensures share { EndsShare self.map self.watch }
    {
        leave(self.end());
    }
}

impl ReaderSide {
    /// A side with a reader that holds nothing.
    pub fn of(map: Arc<ReaderMap, Global>, reader: Reader, watch: Watch) -> ReaderSide
        requires own { reader.table ≡ map.value }
        ensures map { result.map ≡ map }
        ensures hand { result.hand ≡ idle reader }
        ensures watch { result.watch ≡ watch }
    {
        ReaderSide {
            map,
            hand: Hand::of(reader),
            watch,
            apart: [0; APART],
        }
    }

    /// Whether its map has that key.
    pub fn has_key(&self, key: u32) -> bool
        ensures has { OnTrue result (key < self.now.map.value.shape.keys) }
        ensures hasnt { OnFalse result (self.now.map.value.shape.keys ≤ key) }
    {
        key < self.map.keys()
    }

    /// Whether its reader holds a set.
    pub fn holds(&self) -> bool
        ensures some { OnTrue result (HoldsSome self.now.hand) }
        ensures none { OnFalse result (HoldsNone self.now.hand) }
    {
        self.hand.key().is_some()
    }

    /// The reader, which holds nothing any more. Its share of the map ends, and what it knows of the writer.
    pub fn end(self) -> Reader
        ensures ends { EndsHand self.hand result }
        ensures own { result.table ≡ self.map.value }
        ensures share { EndsShare self.map self.watch }
        ensures back { HoldsNone self.hand → result ≡ self.hand.reader }
    {
        let ReaderSide {
            map,
            hand,
            watch,
            apart: _,
        } = self;
        let reader = hand.into_reader(&map);
        leave(map);
        leave(watch);
        reader
    }
}
