//! Finds of many ids by one call, whose rows go to one array of the caller's.
ghost use Rattle.std.specs.Prelude.{◌≡◌, ◌<◌, ◌≤◌, ◌*◌, ◌%◌, ◌==◌, ◌↔◌, All, IsTrue, length, take};
ghost use Rattle.std.specs.Prelude.{List, Option, None, replicate};
ghost use Rattle.nr_idmap.specs.declared.finds.NamedWay.{NamedWay as Named};
ghost use Rattle.nr_idmap.specs.IdHands.{hand_table_of};
ghost use Rattle.nr_idmap.specs.IdWalks.{IsNear};
ghost use Rattle.nr_c.specs.IdLive.{WhenIdleById};
ghost use Rattle.nr_c.specs.IdMany.{LooksUpIds, WithIds};
ghost use Rattle.nr_c.specs.IdManyFirst.{AreFoundIds, FindsIdAtFirst, FindsIdFirst, FindsIdsFirst, ids_found};
ghost use Rattle.nr_c.specs.Live.{WhenLive};
ghost use Rattle.nr_c.specs.Many.{InOrder};

use crate::codes::{NR_CLOSED, NR_DONE, NR_HOLDING, NR_NO_KEY};
use crate::id_codes::of_found_id;
use crate::id_reader_handle::NrIdReader;
use crate::many_first::{part_begin, room_for};
use crate::watch::Watch;
use nr_idmap::{BATCH, IdHand, IdMap, NamedWay};
use nr_model::Row;

/// An id to be found, what its find was answered, and how many rows it has.
#[repr(C)]
pub struct NrFoundId {
    pub id: u64,
    pub answer: u32,
    pub count: u32,
}

/// As `nr_find_each_id`, with the rows in one array of the caller's, of which each id has as many as the next,
/// in the ids' order: the rows divided by the ids. Beside each id stands how many rows it has, 0 unless its
/// answer is `NR_ROWS`: where that is more than the id's part takes, the first ones are there. Of a set so many
/// rows are read, and its tag.
#[unsafe(no_mangle)]
pub extern "C" fn nr_find_each_rows_id(
    reader: &mut NrIdReader,
    wanted: &mut [NrFoundId],
    rows: &mut [Row],
) -> u32
    ensures { WhenLive ((wanted.new ≡ wanted.old) × (rows.new ≡ rows.old))
        (WithIds (AreFoundIds wanted.old) ((wanted.new ≡ wanted.old) × (rows.new ≡ rows.old))
        (WhenIdleById ((wanted.new ≡ wanted.old) × (rows.new ≡ rows.old))
        (FindsIdsFirst wanted.old wanted.new rows.old rows.new)))
        reader.old.live reader.new.live result }
{
    if !reader.is_live() {
        return NR_CLOSED;
    }
    if !are_found_ids(wanted) {
        return NR_NO_KEY;
    }
    let side = reader.side();
    if side.holds() {
        return NR_HOLDING;
    }
    let room = room_for(rows.len(), wanted.len());
    find_ids_first(
        &side.map,
        &mut side.hand,
        &mut side.watch,
        room,
        wanted,
        rows,
    );
    side.hand.release(&side.map);
    NR_DONE
}

fn are_found_ids(wanted: &[NrFoundId]) -> bool
    ensures { IsTrue result ↔ AreFoundIds wanted.now }
{
    wanted.iter().all(|one| one.id > 0)
}

fn find_ids_first(
    map: &IdMap,
    hand: &mut IdHand,
    watch: &mut Watch,
    room: usize,
    wanted: &mut [NrFoundId],
    rows: &mut [Row],
)
    requires own { hand_table_of hand.old ≡ map.now }
    requires ids { AreFoundIds wanted.old }
    requires within { length wanted.old * room ≤ length rows.old }
    ensures own { hand_table_of hand.new ≡ map.now }
    ensures finds { (ways : List (Option Named)) × InOrder (FindsIdAtFirst room) 0 wanted.old wanted.new (((hand.old, replicate 16 None), watch.old), rows.old) (((hand.new, ways), watch.new), rows.new) }
{
    let mut ways = [None; BATCH];
    for place in 0..wanted.len() {
        look_up_found(map, hand, place, &wanted[place..], &mut ways);
        let begin = part_begin(place, room, wanted.len(), rows.len());
        let cells = &mut rows[begin..begin + room];
        find_id_first(
            map,
            hand,
            watch,
            ways[place % BATCH],
            &mut wanted[place],
            cells,
        );
    }
}

// Before the first of sixteen ids, the look-ups of all of them. These are the ids from that place on.
fn look_up_found(
    map: &IdMap,
    hand: &mut IdHand,
    place: usize,
    left: &[NrFoundId],
    ways: &mut [Option<NamedWay>; BATCH],
)
    requires own { hand_table_of hand.old ≡ map.now }
    requires ids { AreFoundIds left.now }
    requires near { All (IsNear map.now.map.shape.keys) ways.old }
    ensures own { hand_table_of hand.new ≡ map.now }
    ensures looks { LooksUpIds (place % 16 == 0) (ids_found (take 16 left.now)) (hand.old, ways.old) (hand.new, ways.new) }
    ensures near { All (IsNear map.now.map.shape.keys) ways.new }
{
    if place % BATCH == 0 {
        let group = &left[..left.len().min(BATCH)];
        let mut ids = [0; BATCH];
        copy_found_ids(group, &mut ids);
        hand.look_up(map, &ids[..group.len()], ways);
    }
}

// Writes the ids of a group over the first ones there. It isn't inlined, as `look_up` isn't: the loop over all ids keeps
// its values in registers so.
#[inline(never)]
fn copy_found_ids(group: &[NrFoundId], ids: &mut [u64; BATCH])
    requires few { length group.now ≤ 16 }
    ensures { take (length group.now) ids.new ≡ ids_found group.now }
{
    for place in 0..group.len() {
        ids[place] = group[place].id;
    }
}

fn find_id_first(
    map: &IdMap,
    hand: &mut IdHand,
    watch: &mut Watch,
    at: Option<NamedWay>,
    one: &mut NrFoundId,
    cells: &mut [Row],
)
    requires own { hand_table_of hand.old ≡ map.now }
    requires near { IsNear map.now.map.shape.keys at }
    ensures own { hand_table_of hand.new ≡ map.now }
    ensures finds { FindsIdFirst at one.old one.new cells.old cells.new (hand.old, watch.old) (hand.new, watch.new) }
{
    let (found, count) = hand.find_first_in(map, at, one.id, cells);
    one.count = count;
    one.answer = watch.heard(of_found_id(found));
}
