//! What an id reader's handle leads to.
ghost use Rattle.std.specs.Prelude.{◌≡◌};
ghost use Rattle.std.specs.Bool.{OnFalse, OnTrue};
ghost use Rattle.nr_idmap.specs.IdHands.{hand_table_of, idle_by_id, reader_of};
ghost use Rattle.nr_idmap.specs.Keepers.{id_table_of};
ghost use Rattle.nr_c.specs.Endings.{Ends, EndsShare};
ghost use Rattle.nr_c.specs.Hands.{EndsIdHand, HoldsAnId, HoldsNoId};

use crate::ending::leave;
use crate::reader_side::APART;
use crate::watch::Watch;
use nr_idmap::{IdHand, IdMap, IdReader};
use std::alloc::Global;
use std::sync::Arc;

/// A reader by id, whether or not it holds a set, with its share of the map.
pub struct IdReaderSide {
    pub map: Arc<IdMap, Global>,
    pub hand: IdHand,
    pub watch: Watch,
    /// Keeps what the calls of two threads write apart.
    pub apart: [u64; APART],
    ghost own: { hand_table_of hand ≡ map.value },
}

// A reader that holds a set is released.
impl Drop for IdReaderSide {
    fn drop(self)
        ensures ends { Ends (EndsIdHand self.hand) }
        ensures share { EndsShare self.map self.watch }
    {
        leave(self.end());
    }
}

impl IdReaderSide {
    /// A side with a reader that holds nothing.
    pub fn of(map: Arc<IdMap, Global>, reader: IdReader, watch: Watch) -> IdReaderSide
        requires own { id_table_of reader ≡ map.value }
        ensures map { result.map ≡ map }
        ensures hand { result.hand ≡ idle_by_id reader }
        ensures watch { result.watch ≡ watch }
    {
        IdReaderSide {
            map,
            hand: IdHand::of(reader),
            watch,
            apart: [0; APART],
        }
    }

    /// Whether its reader holds a set.
    pub fn holds(&self) -> bool
        ensures some { OnTrue result (HoldsAnId self.now.hand) }
        ensures none { OnFalse result (HoldsNoId self.now.hand) }
    {
        self.hand.id().is_some()
    }

    /// The reader, which holds nothing any more. Its share of the map ends, and what it knows of the writer.
    pub fn end(self) -> IdReader
        ensures ends { EndsIdHand self.hand result }
        ensures own { id_table_of result ≡ self.map.value }
        ensures share { EndsShare self.map self.watch }
        ensures back { HoldsNoId self.hand → result ≡ reader_of self.hand }
    {
        let IdReaderSide {
            map,
            hand,
            watch,
            apart: _,
        } = self;
        let reader = hand.into_reader(&map);
        leave(map);
        leave(watch);
        reader
    }
}
