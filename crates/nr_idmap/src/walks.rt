//! Finds by a hand that goes on from set to set.
ghost use Rattle.std.specs.Prelude.{◌≡◌};
ghost use Rattle.nr_idmap.specs.IdHands.{hand_table_of};
ghost use Rattle.nr_idmap.specs.IdWalks.{FindsFirstOn, FindsOn, IsNear, held_kept};

use crate::finds::{FoundId, NamedWay};
use crate::hands::{Holding, IdHand};
use crate::id_map::IdMap;
use crate::rows::tag_of;
use nr_map::Tagged;
use nr_model::{Row, RowRoom};

impl IdHand {
    /// Finds an id in the way that was looked up for it, and writes its rows into the caller's room, which
    /// stays as it is unless the answer is `Rows`. It takes the steps of the map's `find_kept` with a row more,
    /// of 1 row at most where the way has another id's, and at `Rows` 1 to mark the way, unless it is marked
    /// already. What it finds it holds for no id, until a call lets it go or finds another: a reader that has a
    /// word announces the next set by it in place of this one.
    #[inline(always)]
    pub fn find_in<R: RowRoom>(
        &mut self,
        map: &IdMap,
        at: Option<NamedWay>,
        id: u64,
        rows: &mut R,
    ) -> FoundId
        requires own { hand_table_of self.old ≡ map.now }
        requires near { IsNear map.now.map.shape.keys at }
        ensures own { hand_table_of self.new ≡ map.now }
        ensures finds { FindsOn R.shows id at self.old rows.old self.new rows.new result }
    {
        let Some(at) = at else {
            return FoundId::Absent;
        };
        let found = self
            .hand
            .find_tagged_kept(&map.map, at.way, tag_of(id), rows);
        self.held = held_then(at.way, found);
        map.tell(&mut self.ids, at, found)
    }

    /// As `find_in`, and writes as many of the id's rows over the caller's as there are there: tells how many rows
    /// the id has, 0 unless the answer is `Rows`. It takes the steps of `find_in` of the rows that it writes.
    #[inline(always)]
    pub fn find_first_in(
        &mut self,
        map: &IdMap,
        at: Option<NamedWay>,
        id: u64,
        cells: &mut [Row],
    ) -> (FoundId, u32)
        requires own { hand_table_of self.old ≡ map.now }
        requires near { IsNear map.now.map.shape.keys at }
        ensures own { hand_table_of self.new ≡ map.now }
        ensures finds { FindsFirstOn id at self.old cells.old self.new cells.new result.1 result.0 }
    {
        let Some(at) = at else {
            return (FoundId::Absent, 0);
        };
        let (found, count) = self
            .hand
            .find_tagged_first(&map.map, at.way, tag_of(id), cells);
        self.held = held_then(at.way, found);
        (map.tell(&mut self.ids, at, found), count)
    }
}

// What is held of the way in which a hand found that.
fn held_then(way: u32, found: Tagged) -> Option<Holding>
    ensures { result ≡ held_kept way found }
{
    match found {
        Tagged::Hole => None,
        Tagged::Rows | Tagged::Other => Some(Holding { id: 0, way }),
    }
}
