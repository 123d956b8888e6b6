//! What a hand does that holds nothing: it finds as a reader does.
ghost use Rattle.std.specs.Prelude.{◌≡◌, ◌<◌, None};
ghost use Rattle.nr_idmap.specs.IdFinds.{FindsById};
ghost use Rattle.nr_idmap.specs.IdHands.{hand_table_of, reader_of};

use crate::finds::FoundId;
use crate::hands::IdHand;
use crate::id_map::IdMap;
use crate::rows::tag_of;
use nr_model::RowRoom;

impl IdHand {
    /// Finds an id as the map's `find` does, in as many steps. Nothing may be held, and nothing is then.
    pub fn find<R: RowRoom>(&mut self, map: &IdMap, id: u64, rows: &mut R) -> FoundId
        requires own { hand_table_of self.old ≡ map.now }
        requires idle { self.old.id ≡ None }
        requires id { 0 < id }
        ensures own { hand_table_of self.new ≡ map.now }
        ensures idle { self.new.id ≡ None }
        ensures finds { FindsById R.shows id (reader_of self.old) rows.old (reader_of self.new) rows.new result }
    {
        let first = map.directory.plan().first_way(id);
        self.hand.load_key(&map.map, first);
        let Some(at) = map.look_up(&mut self.ids, id) else {
            return FoundId::Absent;
        };
        let found = self.hand.find_tagged(&map.map, at.way, tag_of(id), rows);
        map.tell(&mut self.ids, at, found)
    }
}
