//! Room for a value that comes out of a store.
use nr_model::{RowRoom, RowSource};

/// A value that came out, with the id that had it and the stamp that it came with.
#[repr(C)]
#[derive(Clone, Copy, PartialEq, Eq, Debug)]
pub struct GivenValue {
    pub id: u64,
    pub stamp: u64,
    pub value: u64,
}

// Of a store's sets the first row tells the id, and the second has the value.
impl RowRoom for GivenValue {
    ghost use Rattle.nr_cache.specs.GivenValues.{ShowsValue};

    ghost shows = { ShowsValue };

    fn refill<S: RowSource>(&mut self, count: usize, source: &mut S) {
        for place in 0..count {
            let row = source.give(place);
            if place == 0 {
                self.id = row.b;
            } else if place == 1 {
                self.stamp = row.a;
                self.value = row.b;
            }
        }
    }
}
