//! Where the dataflow has its rows from.
use nr_model::{Row, RowSet};
use nr_serve::Source;

/// Key `k` has the one row `k:b`, for all keys the same `b`.
#[derive(Drop)]
pub struct Shelf {
    pub b: u64,
}

impl Source for Shelf {
    fn rows(&mut self, key: u32, _bound: u32) -> RowSet {
        let row = Row {
            a: u64::from(key),
            b: self.b,
        };
        match RowSet::of(&[row]) {
            Ok(rows) => rows,
            Err(_) => RowSet::new(),
        }
    }
}
