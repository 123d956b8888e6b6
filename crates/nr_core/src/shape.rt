//! The sizes of a map.
ghost use Rattle.std.specs.Prelude.{◌↔◌, IsTrue};

use nr_model::{LAST_NUMBER, MAX_KEYS, MAX_ROWS, is_bad_size};

/// The largest number of slots of a map.
pub const MAX_SLOTS: u32 = 131_072;

/// The largest number of readers of a map.
pub const MAX_READERS: u32 = 1_024;

/// The largest number of slots of a large map.
pub const MAX_LARGE_SLOTS: u32 = 4_194_303;

/// The largest number of readers of a large map.
pub const MAX_LARGE_READERS: u32 = 65_535;

/// How many keys, slots and readers a map has, the count at which every slot starts, the number
/// at which every key's requests start, and how many rows a key may have.
#[derive(Clone, Copy, Debug)]
pub struct Shape {
    pub keys: u32,
    pub slots: u32,
    pub readers: u32,
    pub first_count: u64,
    pub first_number: u64,
    pub rows: u32,
}

impl Shape {
    ghost use Rattle.std.specs.Prelude.{◌<◌, ◌⊎◌};
    ghost use Rattle.nr_model.specs.declared.rows.TheConstants.{MAX_ROWS};
    ghost use Rattle.nr_model.specs.Maps.{last_number};
    ghost use Rattle.nr_model.specs.Sizes.{IsBadSize};
    ghost use Rattle.nr_core.specs.Sizes.{IsBadLargeShape, IsBadShape};

    /// Whether an opening refuses the shape: a number of keys, slots or readers is out of its
    /// limits, the first ticket number is over 4,194,303, or a key may have no row or more than 255.
    pub fn is_bad(&self) -> bool
        ensures { IsTrue result ↔ IsBadShape self.now }
    {
        is_bad_size(MAX_KEYS, self.keys)
            || is_bad_size(MAX_SLOTS, self.slots)
            || is_bad_size(MAX_READERS, self.readers)
            || self.is_bad_for_keys()
    }
    /// Whether the opening of a large map refuses the shape: it has no slot or more than 4,194,303,
    /// no key, no reader or more than 65,535, or what is out of its limits as above.
    pub fn is_bad_large(&self) -> bool
        ensures { IsTrue result ↔ IsBadLargeShape self.now }
    {
        is_bad_size(MAX_LARGE_SLOTS, self.slots)
            || self.keys == 0
            || is_bad_size(MAX_LARGE_READERS, self.readers)
            || self.is_bad_for_keys()
    }
    // Whether a key can't begin at the first number, or can't have that many rows.
    fn is_bad_for_keys(&self) -> bool
        ensures { IsTrue result ↔ ((last_number < self.now.first_number) ⊎ IsBadSize MAX_ROWS self.now.rows) }
    {
        self.first_number > LAST_NUMBER || is_bad_size(MAX_ROWS as u32, self.rows)
    }
}
