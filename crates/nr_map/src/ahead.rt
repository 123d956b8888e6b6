//! Loads of words that finds of many keys will need, by which these words are near then.
ghost use Rattle.std.specs.Prelude.{◌≡◌, ◌<◌, ◌≤◌, ◌+◌, ◌-◌, ◌*◌, All, length, min, take};
ghost use Rattle.nr_model.specs.declared.rows.TheConstants.{MAX_ROWS};
ghost use Rattle.nr_words.specs.Places.{total_of};
ghost use Rattle.nr_core.specs.Slots.{layout};
ghost use Rattle.nr_board.specs.Callers.{token};
ghost use Rattle.nr_map.specs.LoadsAhead.{LoadsAhead, LoadsKey, LoadsKeys, LoadsLines, LoadsOfSets, LoadsPlaces, LoadsSets, LoadsTwo, Stays, begin_of, line_places, more_lines, more_of};

use crate::hand::Hand;
use crate::reader::Reader;
use crate::reader_map::ReaderMap;
use nr_board::Seat;
use nr_words::{Layout, parts};

/// For how many keys words are loaded ahead at a time.
pub(crate) const GROUP: usize = 16;

// How many words lie in a line of the caches.
const LINE: u64 = 8;

// Where the content words of a slot begin, and where the last of them stands.
#[derive(Clone, Copy)]
struct Span {
    first: u64,
    last: u64,
}

impl Hand {
    /// Loads words that finds of at most sixteen keys will need, as the map's `load_ahead`, in as many
    /// steps. What is held stays held.
    #[inline(never)]
    pub fn load_ahead(&mut self, map: &ReaderMap, keys: &[u32])
        requires own { self.old.reader.table ≡ map.now }
        requires keys { All (λ key. key < map.now.shape.keys) keys.now }
        requires few { length keys.now ≤ 16 }
        ensures own { self.new.reader.table ≡ map.now }
        ensures loads { LoadsAhead keys.now self.old.reader self.new.reader }
        ensures held { (self.new.key ≡ self.old.key) × (self.new.rows ≡ self.old.rows) }
    {
        map.load_for(&mut self.caller.seat, keys);
    }

    /// Loads a key's word, as the map's `load_key`, in 1 step. What is held stays held.
    pub fn load_key(&mut self, map: &ReaderMap, key: u32)
        requires own { self.old.reader.table ≡ map.now }
        requires key { key < map.now.shape.keys }
        ensures own { self.new.reader.table ≡ map.now }
        ensures loads { LoadsKey key self.old.reader self.new.reader }
        ensures held { (self.new.key ≡ self.old.key) × (self.new.rows ≡ self.old.rows) }
    {
        map.board.load_key(&mut self.caller.seat, key);
    }
}

impl ReaderMap {
    /// Loads a key's word, so that the line of memory in which it lies is near for finds of the keys
    /// there. It tells nothing. Takes 1 step.
    pub fn load_key(&self, reader: &mut Reader, key: u32)
        requires own { reader.old.table ≡ self.now }
        requires key { key < self.now.shape.keys }
        ensures own { reader.new.table ≡ self.now }
        ensures loads { LoadsKey key reader.old reader.new }
    {
        self.board.load_key(&mut reader.caller.seat, key);
    }

    /// Loads words that finds of at most sixteen keys will need, so that the lines of memory in which
    /// they lie are near then: the words of the keys; two words of the set of each, eight apart; and
    /// one of each further line that its rows need, up to five lines. It tells nothing, and `find_each`
    /// makes the same loads itself. Takes 3 steps a key, and 1 more for each 4 rows, or part of 4,
    /// that a key may have above 4 and up to 16, however many it has.
    pub fn load_ahead(&self, reader: &mut Reader, keys: &[u32])
        requires own { reader.old.table ≡ self.now }
        requires keys { All (λ key. key < self.now.shape.keys) keys.now }
        requires few { length keys.now ≤ 16 }
        ensures own { reader.new.table ≡ self.now }
        ensures loads { LoadsAhead keys.now reader.old reader.new }
    {
        self.load_for(&mut reader.caller.seat, keys);
    }

    fn load_for(&self, seat: &mut Seat, keys: &[u32])
        requires own { (token seat.old).table ≡ self.now }
        requires keys { All (λ key. key < self.now.shape.keys) keys.now }
        requires few { length keys.now ≤ 16 }
        ensures loads { LoadsAhead keys.now (token seat.old) (token seat.new) }
        ensures stays { Stays seat.old seat.new }
    {
        let mut words = [0; GROUP];
        self.load_keys(seat, keys, &mut words);
        self.load_sets(seat, &words[..keys.len()]);
    }

    fn load_keys(&self, seat: &mut Seat, keys: &[u32], words: &mut [u64; GROUP])
        requires own { (token seat.old).table ≡ self.now }
        requires keys { All (λ key. key < self.now.shape.keys) keys.now }
        requires few { length keys.now ≤ 16 }
        ensures loads { LoadsKeys keys.now (take (length keys.now) words.new) (token seat.old) (token seat.new) }
        ensures stays { Stays seat.old seat.new }
    {
        for place in 0..keys.len() {
            words[place] = self.board.load_key(seat, keys[place]);
        }
    }

    // The sets that these words of keys name.
    fn load_sets(&self, seat: &mut Seat, words: &[u64])
        requires own { (token seat.old).table ≡ self.now }
        requires few { length words.now ≤ 16 }
        ensures loads { LoadsOfSets (layout self.now.shape) words.now (token seat.old) (token seat.new) }
        ensures stays { Stays seat.old seat.new }
    {
        let sizes = self.board.layout();
        let mut counts = [0; GROUP];
        self.load_slots(seat, sizes, words, &mut counts);
        if more_lines(sizes.rows) > 0 {
            self.load_lines(seat, sizes, words, &counts);
        }
    }

    // Two lines of each set, however long it is; and how long each is.
    fn load_slots(&self, seat: &mut Seat, sizes: Layout, words: &[u64], counts: &mut [u64; GROUP])
        requires own { (token seat.old).table ≡ self.now }
        requires sizes { sizes ≡ layout self.now.shape }
        requires keys { 0 < sizes.keys }
        requires rows { sizes.rows ≤ MAX_ROWS }
        requires few { length words.now ≤ 16 }
        ensures loads { LoadsSets sizes words.now (take (length words.now) counts.new) (token seat.old) (token seat.new) }
        ensures stays { Stays seat.old seat.new }
    {
        for place in 0..words.len() {
            let span = span_named(sizes, words[place]);
            counts[place] = self.load_slot(seat, span);
        }
    }

    fn load_slot(&self, seat: &mut Seat, span: Span) -> u64
        requires own { (token seat.old).table ≡ self.now }
        requires order { span.first ≤ span.last }
        requires within { span.last < total_of (layout self.now.shape) }
        ensures loads { LoadsTwo span.first (span.first + min 8 (span.last - span.first)) result (token seat.old) (token seat.new) }
        ensures stays { Stays seat.old seat.new }
    {
        let count = self.board.load_word(seat, span.first);
        let more = LINE.min(span.last - span.first);
        self.board.load_word(seat, span.first + more);
        count
    }

    // The other lines of sets of so many rows.
    fn load_lines(&self, seat: &mut Seat, sizes: Layout, words: &[u64], counts: &[u64; GROUP])
        requires own { (token seat.old).table ≡ self.now }
        requires sizes { sizes ≡ layout self.now.shape }
        requires keys { 0 < sizes.keys }
        requires some { 0 < sizes.rows }
        requires rows { sizes.rows ≤ MAX_ROWS }
        requires few { length words.now ≤ 16 }
        ensures loads { LoadsLines sizes words.now (take (length words.now) counts.now) (token seat.old) (token seat.new) }
        ensures stays { Stays seat.old seat.new }
    {
        for place in 0..words.len() {
            let span = span_named(sizes, words[place]);
            self.load_rest(seat, sizes.rows, span, counts[place]);
        }
    }

    // For each line that a shorter set lacks its last word is loaded, so that the steps are as many.
    fn load_rest(&self, seat: &mut Seat, rows: u32, span: Span, count: u64)
        requires own { (token seat.old).table ≡ self.now }
        requires rows { rows ≡ self.now.shape.rows }
        requires some { 0 < rows }
        requires order { span.first ≤ span.last }
        requires within { span.last < total_of (layout self.now.shape) }
        ensures loads { LoadsPlaces (line_places span.first (min (2 * min count rows) (span.last - span.first)) (more_lines rows)) (token seat.old) (token seat.new) }
        ensures stays { Stays seat.old seat.new }
    {
        let set = 2 * count.min(u64::from(rows));
        let last = set.min(span.last - span.first);
        for line in 0..u64::from(more_lines(rows)) {
            let index = LINE * (line + 2);
            self.board.load_word(seat, span.first + index.min(last));
        }
    }
}

// The content words of the slot that a key's word names, and word 0 alone where it names none of the
// map's.
fn span_named(sizes: Layout, word: u64) -> Span
    requires keys { 0 < sizes.keys }
    requires rows { sizes.rows ≤ MAX_ROWS }
    ensures order { result.first ≤ result.last }
    ensures first { result.first ≡ begin_of sizes word }
    ensures last { result.last ≡ begin_of sizes word + more_of sizes word }
    ensures within { result.last < total_of sizes }
{
    let found = parts(word);
    if found.filled && found.slot < sizes.slots {
        Span {
            first: sizes.content(found.slot, 0),
            last: sizes.content(found.slot, 2 * sizes.rows),
        }
    } else {
        Span { first: 0, last: 0 }
    }
}

// Of how many lines beyond two a word is loaded, of sets of at most so many rows.
fn more_lines(rows: u32) -> u32
    requires { 0 < rows }
    ensures { result ≡ more_lines rows }
{
    ((rows - 1) / 4).min(3)
}
