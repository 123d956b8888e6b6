//! Words, sets in words, and the places of words.
use crate::calls::row;
use crate::same::is_same;
use nr_model::RowSet;
use nr_words::{ARRIVE, KeyParts, Layout, decode, encode, hole_word, key_word, parts, same_count};

#[test]
fn words_are_packed(rt: HostRuntime) {
    let given = KeyParts {
        ask: true,
        filled: true,
        slot: 2,
        arrivals: 1,
    };
    let word: u64 = key_word(given);
    let back: KeyParts = parts(word);
    is_same(&rt, &(word, back), &(16777227, given));
    let hole: u64 = hole_word(3, true);
    let step: u64 = ARRIVE;
    let same: bool = same_count(0, 1099511627776);
    is_same(&rt, &(hole, step, same), &(13, 16777216, true));
}

#[test]
fn sets_come_back_from_words(rt: HostRuntime) {
    let set = RowSet::of(&[row(7, 1), row(3, 9)]).expect(&rt, "a set");
    let mut words = [u64::MAX; 31];
    encode(&set, &mut words);
    let back: Option<RowSet> = decode(&words);
    let first = back.map(|set| set.get(0));
    is_same(
        &rt,
        &(words[4], words[5], first),
        &(1, 0, Some(Some(row(3, 9)))),
    );
}

#[test]
fn words_have_places(rt: HostRuntime) {
    let layout = Layout {
        keys: 2,
        slots: 3,
        rows: 255,
    };
    let places: [u64; 4] = [
        layout.key(1),
        layout.departures(1),
        layout.content(2, 510),
        layout.total(),
    ];
    is_same(&rt, &places, &[1, 514, 1537, 1538]);
}
