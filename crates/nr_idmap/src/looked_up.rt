//! Look-ups of many ids by a hand.
ghost use Rattle.std.specs.Prelude.{◌≡◌, ◌<◌, ◌≤◌, All, length, take};
ghost use Rattle.nr_idmap.specs.IdHands.{hand_table_of};
ghost use Rattle.nr_idmap.specs.IdLoads.{LooksAhead, LooksUpEach, key_named, keys_named};
ghost use Rattle.nr_idmap.specs.IdWalks.{IsNear};

use crate::finds::NamedWay;
use crate::hands::IdHand;
use crate::id_map::IdMap;
use crate::wanted::BATCH;

impl IdHand {
    /// Looks up at most sixteen ids, in their order, writes their ways over the first ones there, and loads words
    /// that finds there will need, so that the lines of memory in which they lie are near. What is held stays held.
    /// Takes 2 loads an id, the look-up of `find` and its look at a mark for each, and the map's `load_ahead` for as
    /// many keys.
    #[inline(never)]
    pub fn look_up(&mut self, map: &IdMap, ids: &[u64], ways: &mut [Option<NamedWay>; BATCH])
        requires own { hand_table_of self.old ≡ map.now }
        requires ids { All (λ id. 0 < id) ids.now }
        requires few { length ids.now ≤ 16 }
        requires near { All (IsNear map.now.map.shape.keys) ways.old }
        ensures own { hand_table_of self.new ≡ map.now }
        ensures looks { LooksAhead ids.now (take (length ids.now) ways.new) self.old self.new }
        ensures near { All (IsNear map.now.map.shape.keys) ways.new }
    {
        map.directory.load_ahead(&mut self.ids, ids);
        let mut keys = [0; BATCH];
        map.look_up_all(&mut self.ids, ids, ways, &mut keys);
        self.hand.load_ahead(&map.map, &keys[..ids.len()]);
    }
}

impl IdMap {
    // Writes the ids' ways over the first ones there, and the keys of these, with zeros in place of none.
    fn look_up_all(
        &self,
        reader: &mut nr_ids::Reader,
        ids: &[u64],
        ways: &mut [Option<NamedWay>; BATCH],
        keys: &mut [u32; BATCH],
    )
        requires own { reader.old.directory ≡ self.now.directory }
        requires ids { All (λ id. 0 < id) ids.now }
        requires few { length ids.now ≤ 16 }
        requires near { All (IsNear self.now.map.shape.keys) ways.old }
        ensures own { reader.new.directory ≡ self.now.directory }
        ensures looks { LooksUpEach ids.now (take (length ids.now) ways.new) reader.old reader.new }
        ensures near { All (IsNear self.now.map.shape.keys) ways.new }
        ensures keys { take (length ids.now) keys.new ≡ keys_named (take (length ids.now) ways.new) }
        ensures inside { All (λ key. key < self.now.map.shape.keys) (keys_named (take (length ids.now) ways.new)) }
    {
        // A directory has ways, so the map has keys.
        self.directory.plan();
        for place in 0..ids.len() {
            let at = self.look_up(reader, ids[place]);
            ways[place] = at;
            keys[place] = key_of(at);
        }
    }
}

// The key of a way, and 0 in place of none.
fn key_of(at: Option<NamedWay>) -> u32
    ensures { result ≡ key_named at }
{
    match at {
        Some(at) => at.way,
        None => 0,
    }
}
