//! The sizes of a map as C has them.
ghost use Rattle.std.specs.Prelude.{◌≡◌};
ghost use Rattle.nr_c.specs.Sizes.{shape_of_sizes, sizes_of};

use nr_core::Shape;
use nr_map::ReaderMap;

/// What a map is opened with.
#[repr(C)]
#[derive(Clone, Copy)]
pub struct NrShape {
    pub keys: u32,
    pub slots: u32,
    pub readers: u32,
    pub rows: u32,
    pub first_count: u64,
    pub first_number: u64,
}

/// How many keys, slots and readers a map has, and how many rows a key may have.
#[repr(C)]
#[derive(Clone, Copy)]
pub struct NrSizes {
    pub keys: u32,
    pub slots: u32,
    pub readers: u32,
    pub rows: u32,
}

impl NrShape {
    /// The same sizes as the map's own calls take them.
    pub fn shape(self) -> Shape
        ensures { result ≡ shape_of_sizes self }
    {
        Shape {
            keys: self.keys,
            slots: self.slots,
            readers: self.readers,
            first_count: self.first_count,
            first_number: self.first_number,
            rows: self.rows,
        }
    }
}

impl NrSizes {
    /// The sizes of a map.
    pub fn of(map: &ReaderMap) -> NrSizes
        ensures { result ≡ sizes_of map.now.shape }
    {
        NrSizes {
            keys: map.keys(),
            slots: map.slots(),
            readers: map.readers(),
            rows: map.rows(),
        }
    }
}
