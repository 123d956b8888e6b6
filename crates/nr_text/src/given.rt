//! The set or the batch that a line gives, which has its room here, so that no command carries one.
ghost use Rattle.std.specs.Prelude.{◌≡◌, ◌≤◌, length, IfSome, option_map};
ghost use Rattle.nr_text.specs.Grammar.{within};

use crate::rows::within;
use nr_model::{Batch, RowSet, TooMany};
use std::marker::Model;

/// The room for the set and the batch of one line after another.
#[derive(Drop)]
pub struct LineRoom {
    rows: Result<RowSet, TooMany>,
    batch: Option<Batch>,
}

impl LineRoom {
    /// Room, with nothing of a line in it.
    pub fn new() -> LineRoom {
        LineRoom {
            rows: Ok(RowSet::new()),
            batch: None,
        }
    }

    /// Puts a set into its room.
    pub fn put_rows(&mut self, rows: Result<RowSet, TooMany>) -> GivenRows<'_>
        ensures { result ≡ rows }
    {
        self.rows = rows;
        GivenRows { rows: &self.rows }
    }

    /// Puts a batch into its room.
    pub fn put_batch(&mut self, batch: Batch) -> GivenBatch<'_>
        ensures { result ≡ batch }
    {
        self.batch = Some(batch);
        match &self.batch {
            Some(batch) => GivenBatch { batch },
            None => unreachable!(),
        }
    }
}

/// The set that a line gives, or that its rows are too many.
#[derive(Drop)]
pub struct GivenRows<'a> {
    rows: &'a Result<RowSet, TooMany>,
}

impl<'a> Model for GivenRows<'a> {
    ghost use Rattle.std.specs.Prelude.{List, Result};
    ghost use Rattle.nr_model.specs.declared.rows.Row.{Row};
    ghost use Rattle.nr_model.specs.declared.rows.TooMany.{TooMany};

    ghost Value = { Result (List Row) TooMany };

    ghost view = { λ given. given.rows.now };
}

impl GivenRows<'_> {
    /// The set, where it has at most that many rows.
    pub fn within(&self, bound: u32) -> Option<&RowSet>
        ensures value { option_map (λ rows. rows.now) result ≡ within bound self.now }
        ensures fits { IfSome result (λ rows. length rows.now ≤ bound) }
    {
        within(self.rows, bound)
    }
}

/// The batch that a line gives.
#[derive(Drop)]
pub struct GivenBatch<'a> {
    batch: &'a Batch,
}

impl<'a> Model for GivenBatch<'a> {
    ghost use Rattle.std.specs.Prelude.{List};
    ghost use Rattle.nr_model.specs.declared.batches.Delta.{Delta};

    ghost Value = { List Delta };

    ghost view = { λ given. given.batch.now };
}

impl GivenBatch<'_> {
    /// The batch, where it lies.
    pub fn batch(&self) -> &Batch
        ensures { result.now ≡ self.now }
    {
        self.batch
    }
}
