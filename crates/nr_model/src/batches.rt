//! Signed rows, and batches of one to sixty-four of them.
ghost use Rattle.std.specs.Prelude.{◌≡◌, ◌≤◌, ◌<◌, ◌↔◌, ℕ, [], length, slice_get, IfOk, Err};
ghost use Rattle.nr_model.specs.Batches.{IsBatch};

use crate::cells::padded_copy;
use crate::rows::{BLANK, Row};
use std::marker::Model;
use thiserror::Error;

/// The number of signed rows that a batch has room for.
pub const MAX_DELTAS: usize = 64;

/// A row that is added, or one that is taken away. It lies in memory as C has it.
#[repr(C)]
#[derive(Clone, Copy, Debug, PartialEq, Eq)]
pub struct Delta {
    pub row: Row,
    pub plus: bool,
}

/// What stands in a cell that is not in use.
const NO_DELTA: Delta = Delta {
    row: BLANK,
    plus: false,
};

/// Why signed rows are no batch.
#[derive(Clone, Copy, Debug, PartialEq, Eq, Error)]
pub enum BatchFault {
    #[error("a batch has no rows")]
    Empty,
    #[error("a batch has more than 64 rows")]
    TooLong,
}

/// Why a batch cannot be applied to a row set.
#[derive(Clone, Copy, Debug, PartialEq, Eq, Error)]
pub enum ApplyFault {
    #[error("a row to be taken away is not there")]
    NoRow,
    #[error("more rows would be left than a key may have")]
    TooMany,
}

/// One to sixty-four signed rows, in the order in which they were given.
#[derive(Clone, Copy, Debug)]
pub struct Batch {
    len: usize,
    cells: [Delta; MAX_DELTAS],
}

impl Model for Batch {
    ghost use Rattle.std.specs.Prelude.{◌≡◌, ◌<◌, List, length, take};
    ghost use Rattle.nr_model.specs.declared.batches.Delta.{Delta};

    ghost Value = { List Delta };

    ghost use Rattle.nr_model.specs.Batches.{no_delta};
    ghost use Rattle.nr_model.specs.declared.batches.TheConstants.{MAX_DELTAS};
    ghost use Rattle.nr_model.specs.Padded.{IsPadded, padded, length-in_use};

    ghost view = { λ batch. take batch.len batch.cells };

    ghost invariant = { λ batch. IsPadded MAX_DELTAS no_delta batch.len batch.cells × (0 < batch.len) };

    ghost inverse = { λ deltas. record { len = length deltas; cells = padded MAX_DELTAS no_delta deltas } };

    ghost inverse_ok = { λ batch kept. let used : length (take batch.len batch.cells) ≡ batch.len = length-in_use _ _ _ _ kept.0 in Prim.rw (← kept.0.unused, used) };
}

impl Batch {
    /// The batch of those rows. None at all and more than sixty-four are refused.
    pub fn of(deltas: &[Delta]) -> Result<Batch, BatchFault>
        ensures empty { (result ≡ Err BatchFault.Empty) ↔ (length deltas.now ≡ 0) }
        ensures too_long { (result ≡ Err BatchFault.TooLong) ↔ (MAX_DELTAS < length deltas.now) }
        ensures ok { IfOk result (λ batch. batch ≡ deltas.now) }
    {
        if deltas.is_empty() {
            return Err(BatchFault::Empty);
        }
        if deltas.len() > MAX_DELTAS {
            return Err(BatchFault::TooLong);
        }
        Ok(Batch {
            len: deltas.len(),
            cells: padded_copy(deltas, NO_DELTA),
        })
    }

    /// How many signed rows the batch has, 1 to 64.
    pub fn len(&self) -> usize
        ensures value { result ≡ length self.now }
        ensures not_empty { 0 < result }
        ensures bounded { result ≤ MAX_DELTAS }
    {
        self.len
    }

    /// The signed row at that index, from 0, or `None` behind the last one.
    pub fn get(&self, i: usize) -> Option<Delta>
        ensures { result ≡ slice_get self.now i }
    {
        if i < self.len {
            Some(self.cells[i])
        } else {
            None
        }
    }

    /// The signed rows.
    pub fn as_slice(&self) -> &[Delta]
        ensures value { result.now ≡ self.now }
        ensures batch { IsBatch result.now }
    {
        &self.cells[..self.len]
    }
}
