//! What an opening line asks for.
ghost use Rattle.std.specs.Prelude.{◌≡◌, true};
ghost use Rattle.nr_core.specs.Sizes.{IsBadShape};

use crate::limits::{MAX_KEYS, MAX_NUMBER, MAX_READERS, MAX_ROWS, MAX_SLOTS};
use crate::words::{Words, number};
use nr_core::Shape;
use nr_model::DEFAULT_ROWS;

/// How many keys, slots and readers a map is to have, the count at which each slot starts, the
/// number at which each key's requests start, and how many rows a key may have.
#[derive(Clone, Copy)]
pub struct Opening {
    pub keys: u64,
    pub slots: u64,
    pub readers: u64,
    pub first_count: u64,
    pub first_number: u64,
    pub rows: u64,
}

impl Opening {
    ghost use Rattle.nr_text.specs.Opening.{opening_of_words, is_in_limits, shape_of_opening};
    ghost use Rattle.nr_text.specs.Words.{words_left};

    /// The opening that three to six numbers spell. The first count and the first number are 0 and
    /// the rows 15 where they are left out.
    pub fn parse(mut words: Words<'_>) -> Option<Opening>
        ensures { result ≡ opening_of_words (words_left words.entry) }
    {
        let keys = words.next()?;
        let slots = words.next()?;
        let readers = words.next()?;
        let first_count = words.next();
        let first_number = words.next();
        let rows = words.next();
        if words.next().is_some() {
            return None;
        }
        Some(Opening {
            keys: number(keys)?,
            slots: number(slots)?,
            readers: number(readers)?,
            first_count: match first_count {
                None => 0,
                Some(word) => number(word)?,
            },
            first_number: match first_number {
                None => 0,
                Some(word) => number(word)?,
            },
            rows: match rows {
                None => u64::from(DEFAULT_ROWS),
                Some(word) => number(word)?,
            },
        })
    }

    /// Whether a script or a schedule may open a map of these sizes.
    pub fn is_in_limits(&self) -> bool
        ensures { result ≡ is_in_limits self.now }
    {
        0 < self.keys
            && self.keys <= u64::from(MAX_KEYS)
            && 0 < self.slots
            && self.slots <= u64::from(MAX_SLOTS)
            && 0 < self.readers
            && self.readers <= u64::from(MAX_READERS)
            && self.first_number <= MAX_NUMBER
            && 0 < self.rows
            && self.rows <= u64::from(MAX_ROWS)
    }

    /// The shape of the map, which no opening refuses for its sizes.
    pub fn shape(&self) -> Shape
        requires { is_in_limits self.now ≡ true }
        ensures shape { result ≡ shape_of_opening self.now }
        ensures opens { IsBadShape result → ⊥ }
    {
        Shape {
            keys: self.keys as u32,
            slots: self.slots as u32,
            readers: self.readers as u32,
            first_count: self.first_count,
            first_number: self.first_number,
            rows: self.rows as u32,
        }
    }
}
