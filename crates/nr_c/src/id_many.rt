//! Finds of many ids by one call.
ghost use Rattle.std.specs.Prelude.{◌≡◌, ◌<◌, ◌≤◌, ◌%◌, ◌==◌, ◌↔◌, All, IsTrue, length, take};
ghost use Rattle.std.specs.Prelude.{List, Option, None, replicate};
ghost use Rattle.nr_idmap.specs.declared.finds.NamedWay.{NamedWay as Named};
ghost use Rattle.nr_idmap.specs.IdHands.{hand_table_of};
ghost use Rattle.nr_idmap.specs.IdWalks.{IsNear};
ghost use Rattle.nr_c.specs.IdLive.{WhenIdleById};
ghost use Rattle.nr_c.specs.IdMany.{AreIds, FindsIdAt, FindsOneId, FindsSomeIds, LooksUpIds, WithIds, ids_wanted};
ghost use Rattle.nr_c.specs.Live.{WhenLive};
ghost use Rattle.nr_c.specs.Many.{InOrder};

use crate::codes::{NR_CLOSED, NR_DONE, NR_HOLDING, NR_NO_KEY};
use crate::id_codes::of_found_id;
use crate::id_reader_handle::NrIdReader;
use crate::rows::NrRows;
use crate::watch::Watch;
use nr_idmap::{BATCH, IdHand, IdMap, NamedWay};

/// An id to be found, what its find was answered, and the room for its rows.
#[repr(C)]
pub struct NrWantedId {
    pub id: u64,
    pub answer: u32,
    pub rows: NrRows,
}

/// Looks each of the ids up, in their order, and finds it in the way that has its name: a find of each is an
/// entry of its own, also of an id that is wanted twice. Each has its answer beside it, and its rows in its own
/// room, which stays as it is where that isn't `NR_ROWS`. Takes for each id the look-up of `nr_find_id` and its
/// look at a mark, 5 loads, 1 more for each 4 rows that an id may have up to 12, and the steps of
/// `nr_find_kept` of a row more, which lets go what the find before it holds by the next announcement; 1 to mark
/// the way of rows, unless it is marked already; and 1 in the end if the last one found holds its set. The
/// look-ups are made for 16 ids at a time before these are found.
/// Answers `NR_DONE`; or, with no step, `NR_NO_KEY` where one of them is 0, or `NR_HOLDING` where the
/// reader holds a set.
#[unsafe(no_mangle)]
pub extern "C" fn nr_find_each_id(reader: &mut NrIdReader, wanted: &mut [NrWantedId]) -> u32
    ensures { WhenLive (wanted.new ≡ wanted.old) (WithIds (AreIds wanted.old) (wanted.new ≡ wanted.old) (WhenIdleById (wanted.new ≡ wanted.old) (FindsSomeIds wanted.old wanted.new))) reader.old.live reader.new.live result }
{
    if !reader.is_live() {
        return NR_CLOSED;
    }
    if !are_ids(wanted) {
        return NR_NO_KEY;
    }
    let side = reader.side();
    if side.holds() {
        return NR_HOLDING;
    }
    find_all_ids(&side.map, &mut side.hand, &mut side.watch, wanted);
    side.hand.release(&side.map);
    NR_DONE
}

fn are_ids(wanted: &[NrWantedId]) -> bool
    ensures { IsTrue result ↔ AreIds wanted.now }
{
    wanted.iter().all(|one| one.id > 0)
}

fn find_all_ids(map: &IdMap, hand: &mut IdHand, watch: &mut Watch, wanted: &mut [NrWantedId])
    requires own { hand_table_of hand.old ≡ map.now }
    requires ids { AreIds wanted.old }
    ensures own { hand_table_of hand.new ≡ map.now }
    ensures finds { (ways : List (Option Named)) × InOrder FindsIdAt 0 wanted.old wanted.new ((hand.old, replicate 16 None), watch.old) ((hand.new, ways), watch.new) }
{
    let mut ways = [None; BATCH];
    for place in 0..wanted.len() {
        look_up_from(map, hand, place, &wanted[place..], &mut ways);
        find_one_id(map, hand, watch, ways[place % BATCH], &mut wanted[place]);
    }
}

// Before the first of sixteen ids, the look-ups of all of them. These are the ids from that place on.
fn look_up_from(
    map: &IdMap,
    hand: &mut IdHand,
    place: usize,
    left: &[NrWantedId],
    ways: &mut [Option<NamedWay>; BATCH],
)
    requires own { hand_table_of hand.old ≡ map.now }
    requires ids { AreIds left.now }
    requires near { All (IsNear map.now.map.shape.keys) ways.old }
    ensures own { hand_table_of hand.new ≡ map.now }
    ensures looks { LooksUpIds (place % 16 == 0) (ids_wanted (take 16 left.now)) (hand.old, ways.old) (hand.new, ways.new) }
    ensures near { All (IsNear map.now.map.shape.keys) ways.new }
{
    if place % BATCH == 0 {
        let group = &left[..left.len().min(BATCH)];
        let mut ids = [0; BATCH];
        copy_ids(group, &mut ids);
        hand.look_up(map, &ids[..group.len()], ways);
    }
}

// Writes the ids of a group over the first ones there. It isn't inlined, as `look_up` isn't: the loop over all ids keeps
// its values in registers so.
#[inline(never)]
fn copy_ids(group: &[NrWantedId], ids: &mut [u64; BATCH])
    requires few { length group.now ≤ 16 }
    ensures { take (length group.now) ids.new ≡ ids_wanted group.now }
{
    for place in 0..group.len() {
        ids[place] = group[place].id;
    }
}

fn find_one_id(
    map: &IdMap,
    hand: &mut IdHand,
    watch: &mut Watch,
    at: Option<NamedWay>,
    one: &mut NrWantedId,
)
    requires own { hand_table_of hand.old ≡ map.now }
    requires near { IsNear map.now.map.shape.keys at }
    ensures own { hand_table_of hand.new ≡ map.now }
    ensures finds { FindsOneId at one.old one.new (hand.old, watch.old) (hand.new, watch.new) }
{
    let answer = of_found_id(hand.find_in(map, at, one.id, &mut one.rows));
    one.answer = watch.heard(answer);
}
