//! Finds of many keys by one call.
ghost use Rattle.std.specs.Prelude.{◌≡◌, ◌<◌, ◌≤◌, ◌%◌, ◌==◌, All, length, take};
ghost use Rattle.std.specs.Bool.{OnFalse, OnTrue};
ghost use Rattle.nr_c.specs.Live.{WhenIdle, WhenLive};
ghost use Rattle.nr_c.specs.Many.{AreKeysOf, FindsAtByCode, FindsOneByCode, FindsSome, InOrder, LoadsKeysAhead, WithKeys, keys_wanted};

use crate::codes::{NR_CLOSED, NR_DONE, NR_HOLDING, NR_NO_KEY, of_found};
use crate::reader_handle::NrReader;
use crate::reader_side::ReaderSide;
use crate::rows::NrRows;
use crate::watch::Watch;
use nr_map::{Hand, ReaderMap};

// How many keys' words are loaded ahead at a time.
const GROUP: usize = 16;

/// A key to be found, what its find was answered, and the room for its rows.
#[repr(C)]
pub struct NrWanted {
    pub key: u32,
    pub answer: u32,
    pub rows: NrRows,
}

/// Looks each of the keys up, in their order, as a hand's `find_kept` does one, which lets go what it
/// holds by the next announcement, and lets the last one's set go. A find of each is an entry of its own,
/// also of a key that is wanted twice. Each has its answer beside it, `NR_ROWS`, `NR_HOLE` or `NR_CLOSED`, and
/// its rows in its own room, which stays as it is where the key is a hole. Takes the steps of all the finds; 1 if
/// the last one found rows; and for each key 3 loads, and 1 more for each 4 rows, or part of 4, that a key
/// may have above 4 and up to 16: these are made for 16 keys at a time before these are found.
/// Answers `NR_DONE`; or, with no step, `NR_NO_KEY` where there is no such key as one of them, or
/// `NR_HOLDING` where the reader holds a set.
#[unsafe(no_mangle)]
pub extern "C" fn nr_find_each(reader: &mut NrReader, wanted: &mut [NrWanted]) -> u32
    ensures { WhenLive (wanted.new ≡ wanted.old) (WithKeys (λ side. AreKeysOf side wanted.old) (wanted.new ≡ wanted.old) (WhenIdle (wanted.new ≡ wanted.old) (FindsSome wanted.old wanted.new))) reader.old.live reader.new.live result }
{
    if !reader.is_live() {
        return NR_CLOSED;
    }
    let side = reader.side();
    if !side.has_keys(wanted) {
        return NR_NO_KEY;
    }
    if side.holds() {
        return NR_HOLDING;
    }
    find_all(&side.map, &mut side.hand, &mut side.watch, wanted);
    side.hand.release(&side.map);
    NR_DONE
}

impl ReaderSide {
    // Whether its map has each of the keys.
    fn has_keys(&self, wanted: &[NrWanted]) -> bool
        ensures all { OnTrue result (AreKeysOf self.now wanted.now) }
        ensures not_all { OnFalse result (¬ (AreKeysOf self.now wanted.now)) }
    {
        let keys = self.map.keys();
        for one in wanted {
            if one.key >= keys {
                return false;
            }
        }
        true
    }
}

fn find_all(map: &ReaderMap, hand: &mut Hand, watch: &mut Watch, wanted: &mut [NrWanted])
    requires own { hand.old.reader.table ≡ map.now }
    requires keys { All (λ one. one.key < map.now.shape.keys) wanted.old }
    ensures own { hand.new.reader.table ≡ map.now }
    ensures finds { InOrder FindsAtByCode 0 wanted.old wanted.new (hand.old, watch.old) (hand.new, watch.new) }
{
    for place in 0..wanted.len() {
        load_from(map, hand, place, &wanted[place..]);
        find_one(map, hand, watch, &mut wanted[place]);
    }
}

// Before the first of sixteen keys, the loads for all of them. These are the keys from that place on.
fn load_from(map: &ReaderMap, hand: &mut Hand, place: usize, left: &[NrWanted])
    requires own { hand.old.reader.table ≡ map.now }
    requires keys { All (λ one. one.key < map.now.shape.keys) left.now }
    ensures own { hand.new.reader.table ≡ map.now }
    ensures loads { LoadsKeysAhead (place % 16 == 0) (keys_wanted (take 16 left.now)) hand.old hand.new }
{
    if place % GROUP == 0 {
        let group = &left[..left.len().min(GROUP)];
        let mut keys = [0; GROUP];
        copy_keys(group, &mut keys);
        hand.load_ahead(map, &keys[..group.len()]);
    }
}

// Writes the keys of a group over the first ones there. It isn't inlined, as `load_ahead` isn't: the loop over all keys
// keeps its values in registers so.
#[inline(never)]
fn copy_keys(group: &[NrWanted], keys: &mut [u32; GROUP])
    requires few { length group.now ≤ 16 }
    ensures { take (length group.now) keys.new ≡ keys_wanted group.now }
{
    for place in 0..group.len() {
        keys[place] = group[place].key;
    }
}

fn find_one(map: &ReaderMap, hand: &mut Hand, watch: &mut Watch, one: &mut NrWanted)
    requires own { hand.old.reader.table ≡ map.now }
    requires key { one.old.key < map.now.shape.keys }
    ensures own { hand.new.reader.table ≡ map.now }
    ensures finds { FindsOneByCode one.old one.new (hand.old, watch.old) (hand.new, watch.new) }
{
    let answer = of_found(hand.find_kept(map, one.key, &mut one.rows));
    one.answer = watch.heard(answer);
}
