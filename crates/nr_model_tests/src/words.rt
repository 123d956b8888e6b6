//! Words, sets and layouts, with what they must be.
ghost use Rattle.std.specs.Prelude.{◌<◌, ◌≤◌, ◌^◌};

use crate::calls::{row, set_of};
use crate::same::{are_same, is_same};
use nr_model::{MAX_ROWS, Row, RowSet};
use nr_words::{
    ARRIVE, KeyParts, Layout, MAX_CONTENT_WORDS, decode, encode, hole_word, key_word, names,
    naming, opening_words, parts, same_count, word_at,
};
use std::process::Abort;

/// The parts pack into the word, and the word gives them back.
fn assert_packs(rt: &impl Abort, ask: bool, filled: bool, slot: u32, arrivals: u64, word: u64)
    requires slot { slot < 2 ^ 22 }
    requires arrivals { arrivals < 2 ^ 40 }
{
    let given = KeyParts {
        ask,
        filled,
        slot,
        arrivals,
    };
    is_same(rt, &key_word(given), &word);
    is_same(rt, &parts(word), &given);
}

#[test]
fn key_words_pack_their_parts(rt: HostRuntime) {
    assert_packs(&rt, false, false, 0, 0, 0);
    assert_packs(&rt, true, false, 0, 0, 1);
    assert_packs(&rt, false, true, 5, 3, 50331670);
    assert_packs(&rt, false, true, 5, 3, 0x0000_0000_0300_0016);
    assert_packs(&rt, true, true, 2, 1, 16777227);
    assert_packs(&rt, true, true, 2, 1, 0x0000_0000_0100_000b);
    assert_packs(&rt, false, true, 131071, 0, 524286);
    assert_packs(&rt, false, true, 131071, 0, 0x0000_0000_0007_fffe);
    assert_packs(&rt, false, true, 0, 1099511627775, 18446744073692774402);
    assert_packs(&rt, false, true, 0, 1099511627775, 0xffff_ffff_ff00_0002);
}

#[test]
fn an_arrival_wraps_the_count_alone(rt: HostRuntime) {
    is_same(&rt, &ARRIVE, &16777216);
    is_same(&rt, &18446744073692774402u64.wrapping_add(ARRIVE), &2);
    assert_packs(&rt, false, true, 0, 0, 2);
}

#[test]
fn holes_carry_their_numbers(rt: HostRuntime) {
    is_same(&rt, &hole_word(0, false), &0);
    is_same(&rt, &hole_word(3, true), &13);
    is_same(&rt, &hole_word(4194303, false), &16777212);
    assert_packs(&rt, false, false, 4194303, 0, 16777212);
}

#[test]
fn arrivals_begin_at_the_departures(rt: HostRuntime) {
    is_same(&rt, &naming(5, 3), &50331670);
    is_same(&rt, &naming(5, 1099511627779), &50331670);
    is_same(&rt, &naming(0, 1099511627775), &18446744073692774402);
}

#[test]
fn a_filled_word_names_its_slot_alone(rt: HostRuntime) {
    assert!(rt; names(50331670, 5));
    assert!(rt; names(50331671, 5));
    assert!(rt; !names(50331670, 4));
    assert!(rt; !names(50331668, 5));
}

#[test]
fn counts_wrap(rt: HostRuntime) {
    assert!(rt; same_count(0, 1099511627776));
    assert!(rt; !same_count(0, 1099511627775));
}

/// The content words of a slot with room for fifteen rows.
const WORDS_OF_15: usize = 31;

/// The words of the rows `3:9` and `7:1` there.
const TWO_ROWS: [u64; WORDS_OF_15] = [
    2, 3, 9, 7, 1, 0, 0, 0, 0, 0, 0, 0, 0, 0, 0, 0, 0, 0, 0, 0, 0, 0, 0, 0, 0, 0, 0, 0, 0, 0, 0,
];

/// The same rows, but not in their order.
const ROWS_IN_NO_ORDER: [u64; WORDS_OF_15] = [
    2, 7, 1, 3, 9, 0, 0, 0, 0, 0, 0, 0, 0, 0, 0, 0, 0, 0, 0, 0, 0, 0, 0, 0, 0, 0, 0, 0, 0, 0, 0,
];

/// The set of the rows lies in these words, whatever stood there before, and comes back in order.
fn assert_lies(rt: &impl Abort, rows: &[Row], ascending: &[Row], expected: &[u64]) {
    let set = set_of(rt, rows);
    let mut room = [u64::MAX; MAX_CONTENT_WORDS];
    let count = expected.len().min(MAX_CONTENT_WORDS);
    assert!(rt; 2 * set.len() < count);
    encode(&set, &mut room[..count]);
    are_same(rt, &room[..count], expected);
    assert_spells(rt, expected, ascending);
}

/// The words spell the set of just these rows.
fn assert_spells(rt: &impl Abort, words: &[u64], ascending: &[Row]) {
    assert!(rt; words.len() <= MAX_CONTENT_WORDS);
    let Some(set) = decode(words) else {
        panic!(rt; "no set")
    };
    are_same(rt, set.as_slice(), ascending);
}

#[test]
fn sets_lie_in_words(rt: HostRuntime) {
    let ascending = [row(3, 9), row(7, 1)];
    assert_lies(&rt, &[row(7, 1), row(3, 9)], &ascending, &TWO_ROWS);
    assert_lies(&rt, &[], &[], &[0; WORDS_OF_15]);
}

#[test]
fn one_row_fills_the_smallest_slot(rt: HostRuntime) {
    assert_lies(&rt, &[row(3, 9)], &[row(3, 9)], &[1, 3, 9]);
}

#[test]
fn each_word_of_a_set_is_found_alone(rt: HostRuntime) {
    let set = set_of(&rt, &[row(7, 1), row(3, 9)]);
    for (index, word) in TWO_ROWS.iter().enumerate() {
        is_same(&rt, &word_at(&set, index), word);
    }
    is_same(&rt, &word_at(&set, 510), &0);
    is_same(&rt, &word_at(&RowSet::new(), 0), &0);
    is_same(&rt, &word_at(&RowSet::new(), 1), &0);
}

#[test]
fn words_that_spell_no_set(rt: HostRuntime) {
    let mut words = [0; WORDS_OF_15];
    words[0] = 16;
    assert!(rt; decode(&words).is_none());
    assert!(rt; decode(&ROWS_IN_NO_ORDER).is_none());
    assert!(rt; decode(&[2, 3, 9]).is_none());
    assert!(rt; decode(&[u64::MAX, 3, 9]).is_none());
}

/// The rows `1:0`, `2:0`, .. `255:0`.
fn most_rows() -> [Row; MAX_ROWS] {
    let mut rows = [row(0, 0); MAX_ROWS];
    for at in 0..MAX_ROWS {
        rows[at].a = at as u64 + 1;
    }
    rows
}

/// The words in which they lie.
fn words_of_most_rows() -> [u64; MAX_CONTENT_WORDS] {
    let mut words = [0; MAX_CONTENT_WORDS];
    words[0] = 255;
    for a in 1..=MAX_ROWS {
        words[2 * a - 1] = a as u64;
    }
    words
}

#[test]
fn the_largest_set_fills_the_largest_slot(rt: HostRuntime) {
    let rows = most_rows();
    is_same(&rt, &(rows.len(), MAX_CONTENT_WORDS), &(255, 511));
    assert_lies(&rt, &rows, &rows, &words_of_most_rows());
}

#[test]
fn each_word_of_the_largest_set_is_found_alone(rt: HostRuntime) {
    let set = set_of(&rt, &most_rows());
    for (index, word) in words_of_most_rows().iter().enumerate() {
        is_same(&rt, &word_at(&set, index), word);
    }
}

#[test]
fn more_rows_than_a_set_has_are_no_set(rt: HostRuntime) {
    let mut words = words_of_most_rows();
    words[0] = 256;
    assert!(rt; decode(&words).is_none());
}

#[test]
fn layouts_place_each_word(rt: HostRuntime) {
    let layout = Layout {
        keys: 2,
        slots: 3,
        rows: 15,
    };
    is_same(&rt, &layout.key(0), &0);
    is_same(&rt, &layout.key(1), &1);
    is_same(&rt, &layout.departures(1), &34);
    is_same(&rt, &layout.content(1, 0), &35);
    is_same(&rt, &layout.content(2, 30), &97);
    is_same(&rt, &layout.content_words(), &31);
    is_same(&rt, &layout.total(), &98);
    let largest = Layout {
        keys: 65536,
        slots: 131072,
        rows: 15,
    };
    is_same(&rt, &largest.total(), &4259840);
}

#[test]
fn a_page_is_a_slot_of_255_rows(rt: HostRuntime) {
    let layout = Layout {
        keys: 2,
        slots: 3,
        rows: 255,
    };
    is_same(&rt, &layout.departures(1), &514);
    is_same(&rt, &layout.content(1, 0), &515);
    is_same(&rt, &layout.content(2, 510), &1537);
    is_same(&rt, &layout.content_words(), &511);
    is_same(&rt, &layout.total(), &1538);
}

/// The words of a new map of two keys with room for so many rows, whose first count is 7 and whose first number is 3,
/// with that many words behind them.
fn opened<R: Abort + AllocGlobal>(rt: &R, rows: u32, behind: u64) -> Vec<u64>
    requires rows { rows ≤ 255 }
    requires behind { behind < 2 ^ 40 }
{
    let layout = Layout {
        keys: 2,
        slots: 3,
        rows,
    };
    opening_words(rt.alloc(), layout, 7, 3, behind).expect(rt, "memory")
}

/// So many words are those of such a map, with the departure words at these places.
fn assert_opened(rt: &impl Abort, words: &[u64], count: usize, departures: &[usize]) {
    is_same(rt, &words.len(), &count);
    for (place, word) in words.iter().enumerate() {
        let expected = match place {
            0 | 1 => 12,
            _ if departures.contains(&place) => 7,
            _ => 0,
        };
        is_same(rt, word, &expected);
    }
}

#[test]
fn a_new_map_has_holes_with_first_numbers_and_slots_with_first_counts(rt: HostRuntime) {
    assert_opened(&rt, &opened(&rt, 15, 0), 98, &[2, 34, 66]);
    assert_opened(&rt, &opened(&rt, 255, 2), 1540, &[2, 514, 1026]);
}
