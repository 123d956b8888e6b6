//! Finds of many keys by one call, whose rows go to one array of the caller's.
ghost use Rattle.std.specs.Prelude.{◌≡◌, ◌<◌, ◌≤◌, ◌+◌, ◌*◌, ◌/◌, ◌%◌, ◌==◌, All, length, take};
ghost use Rattle.std.specs.Bool.{OnFalse, OnTrue};
ghost use Rattle.nr_c.specs.Live.{WhenIdle, WhenLive};
ghost use Rattle.nr_c.specs.Many.{InOrder, LoadsKeysAhead, WithKeys};
ghost use Rattle.nr_c.specs.ManyFirst.{AreFoundKeys, FindsAtFirst, FindsOneFirst, FindsSomeFirst, count_found, first_code, keys_found};

use crate::codes::{NR_CLOSED, NR_DONE, NR_HOLDING, NR_HOLE, NR_NO_KEY, NR_ROWS};
use crate::reader_handle::NrReader;
use crate::reader_side::ReaderSide;
use crate::watch::Watch;
use nr_map::{Hand, ReaderMap};
use nr_model::Row;

// How many keys' words are loaded ahead at a time.
const GROUP: usize = 16;

/// A key to be found, what its find was answered, and how many rows its set has.
#[repr(C)]
pub struct NrFound {
    pub key: u32,
    pub answer: u32,
    pub count: u32,
}

/// As `nr_find_each`, with the rows in one array of the caller's, of which each key has as many as the next,
/// in the keys' order: the rows divided by the keys. Beside each key stands how many rows its set has, 0 at a
/// hole: where that is more than the key's part takes, the first ones are there. Of a set so many rows are read.
#[unsafe(no_mangle)]
pub extern "C" fn nr_find_each_rows(
    reader: &mut NrReader,
    wanted: &mut [NrFound],
    rows: &mut [Row],
) -> u32
    ensures { WhenLive ((wanted.new ≡ wanted.old) × (rows.new ≡ rows.old))
        (WithKeys (λ side. AreFoundKeys side wanted.old) ((wanted.new ≡ wanted.old) × (rows.new ≡ rows.old))
        (WhenIdle ((wanted.new ≡ wanted.old) × (rows.new ≡ rows.old))
        (FindsSomeFirst wanted.old wanted.new rows.old rows.new)))
        reader.old.live reader.new.live result }
{
    if !reader.is_live() {
        return NR_CLOSED;
    }
    let side = reader.side();
    if !side.has_found_keys(wanted) {
        return NR_NO_KEY;
    }
    if side.holds() {
        return NR_HOLDING;
    }
    let room = room_for(rows.len(), wanted.len());
    find_all_first(
        &side.map,
        &mut side.hand,
        &mut side.watch,
        room,
        wanted,
        rows,
    );
    side.hand.release(&side.map);
    NR_DONE
}

impl ReaderSide {
    // Whether its map has each of the keys.
    fn has_found_keys(&self, wanted: &[NrFound]) -> bool
        ensures all { OnTrue result (AreFoundKeys self.now wanted.now) }
        ensures not_all { OnFalse result (¬ (AreFoundKeys self.now wanted.now)) }
    {
        let keys = self.map.keys();
        for one in wanted {
            if one.key >= keys {
                return false;
            }
        }
        true
    }
}

/// How many of the rows each of so many has.
pub fn room_for(rows: usize, many: usize) -> usize
    ensures room { 0 < many → result ≡ rows / many }
    ensures within { many * result ≤ rows }
{
    if many == 0 {
        return 0;
    }
    rows / many
}

/// Where the part of one of so many begins, of which each has so much room among the rows.
pub fn part_begin(place: usize, room: usize, many: usize, rows: usize) -> usize
    requires place { place < many }
    requires within { many * room ≤ rows }
    ensures begin { result ≡ place * room }
    ensures within { result + room ≤ rows }
{
    place * room
}

fn find_all_first(
    map: &ReaderMap,
    hand: &mut Hand,
    watch: &mut Watch,
    room: usize,
    wanted: &mut [NrFound],
    rows: &mut [Row],
)
    requires own { hand.old.reader.table ≡ map.now }
    requires keys { All (λ one. one.key < map.now.shape.keys) wanted.old }
    requires within { length wanted.old * room ≤ length rows.old }
    ensures own { hand.new.reader.table ≡ map.now }
    ensures finds { InOrder (FindsAtFirst room) 0 wanted.old wanted.new ((hand.old, watch.old), rows.old) ((hand.new, watch.new), rows.new) }
{
    for place in 0..wanted.len() {
        load_first_from(map, hand, place, &wanted[place..]);
        let begin = part_begin(place, room, wanted.len(), rows.len());
        find_one_first(
            map,
            hand,
            watch,
            &mut wanted[place],
            &mut rows[begin..begin + room],
        );
    }
}

// Before the first of sixteen keys, the loads for all of them. These are the keys from that place on.
fn load_first_from(map: &ReaderMap, hand: &mut Hand, place: usize, left: &[NrFound])
    requires own { hand.old.reader.table ≡ map.now }
    requires keys { All (λ one. one.key < map.now.shape.keys) left.now }
    ensures own { hand.new.reader.table ≡ map.now }
    ensures loads { LoadsKeysAhead (place % 16 == 0) (keys_found (take 16 left.now)) hand.old hand.new }
{
    if place % GROUP == 0 {
        let group = &left[..left.len().min(GROUP)];
        let mut keys = [0; GROUP];
        copy_found_keys(group, &mut keys);
        hand.load_ahead(map, &keys[..group.len()]);
    }
}

// Writes the keys of a group over the first ones there. It isn't inlined, as `load_ahead` isn't: the loop over all keys
// keeps its values in registers so.
#[inline(never)]
fn copy_found_keys(group: &[NrFound], keys: &mut [u32; GROUP])
    requires few { length group.now ≤ 16 }
    ensures { take (length group.now) keys.new ≡ keys_found group.now }
{
    for place in 0..group.len() {
        keys[place] = group[place].key;
    }
}

fn find_one_first(
    map: &ReaderMap,
    hand: &mut Hand,
    watch: &mut Watch,
    one: &mut NrFound,
    cells: &mut [Row],
)
    requires own { hand.old.reader.table ≡ map.now }
    requires key { one.old.key < map.now.shape.keys }
    ensures own { hand.new.reader.table ≡ map.now }
    ensures finds { FindsOneFirst one.old one.new cells.old cells.new (hand.old, watch.old) (hand.new, watch.new) }
{
    let found = hand.find_first(map, one.key, cells);
    one.count = of_count(found);
    one.answer = watch.heard(of_first(found));
}

fn of_first(found: Option<u32>) -> u32
    ensures { result ≡ first_code found }
{
    match found {
        Some(_) => NR_ROWS,
        None => NR_HOLE,
    }
}

fn of_count(found: Option<u32>) -> u32
    ensures { result ≡ count_found found }
{
    match found {
        Some(count) => count,
        None => 0,
    }
}
