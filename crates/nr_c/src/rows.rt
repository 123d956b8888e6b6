//! Rows as C has them. A row, and a signed one, is the model's own.
ghost use Rattle.std.specs.Prelude.{◌≡◌, ◌<◌, ◌≤◌, ◌⊎◌, ◌++◌, MatchOption, drop, length, min};
ghost use Rattle.std.specs.Bool.{OnFalse, OnTrue};
ghost use Rattle.nr_model.specs.Batches.{IsBatch};
ghost use Rattle.nr_model.specs.Rows.{IsRowSet, is_ascending};
ghost use Rattle.nr_model.specs.declared.batches.TheConstants.{MAX_DELTAS};
ghost use Rattle.nr_map.specs.FirstRows.{ArePutOver};
ghost use Rattle.nr_c.specs.Rows.{AreRefused};

use crate::codes::{NR_NOT_SORTED, NR_TOO_MANY};
use nr_model::{Delta, MAX_DELTAS, MAX_ROWS, Row, RowRoom, RowSource};

// How many rows are put without a loop.
const FIRST: usize = 4;

/// Room for the rows of a key. The first `count` of them are in use, in ascending order.
#[repr(C)]
pub struct NrRows {
    pub count: u64,
    pub row: [Row; MAX_ROWS],
}

impl RowRoom for NrRows {
    ghost use Rattle.nr_c.specs.RowCells.{ShowsSet};

    ghost shows = { ShowsSet };

    #[inline(always)]
    fn refill<S: RowSource>(&mut self, count: usize, source: &mut S) {
        put_rows(&mut self.row, count, source);
        self.count = count as u64;
    }
}

// As `put_over`, but up to four rows are put without a loop of as many turns: a find that follows would wait for the
// number of rows, by which such a loop ends.
#[inline(always)]
fn put_rows<S: RowSource>(cells: &mut [Row], count: usize, source: &mut S)
    requires count { count ≡ length (S.rows source.old) }
    requires room { count ≤ length cells.old }
    requires ready { S.is_ready source.old 0 }
    ensures cells { cells.new ≡ S.rows source.old ++ drop count cells.old }
    ensures rows { S.rows source.new ≡ S.rows source.old }
    ensures ready { S.is_ready source.new count }
    ensures gave { S.gave source.old count source.new }
{
    put_first(cells, count, source);
    for place in FIRST..count {
        let given = source.give(place);
        cells[place] = given;
    }
}

// The first four of the rows, or as many as there are.
#[inline(always)]
fn put_first<S: RowSource>(cells: &mut [Row], count: usize, source: &mut S)
    requires count { count ≡ length (S.rows source.old) }
    requires room { count ≤ length cells.old }
    requires ready { S.is_ready source.old 0 }
    ensures cells { ArePutOver (S.rows source.old) cells.old (min 4 count) cells.new }
    ensures rows { S.rows source.new ≡ S.rows source.old }
    ensures ready { S.is_ready source.new (min 4 count) }
    ensures gave { S.gave source.old (min 4 count) source.new }
{
    for place in 0..FIRST {
        if place < count {
            let given = source.give(place);
            cells[place] = given;
        }
    }
}

/// Whether those signed rows are one to sixty-four.
pub fn are_batch(deltas: &[Delta]) -> bool
    ensures batch { OnTrue result (IsBatch deltas.now) }
    ensures none { OnFalse result ((length deltas.now ≡ 0) ⊎ (MAX_DELTAS < length deltas.now)) }
{
    !deltas.is_empty() && deltas.len() <= MAX_DELTAS
}

/// Whether no row is below the one before it.
pub fn ascends(rows: &[Row]) -> bool
    ensures { result ≡ is_ascending rows.now }
{
    for place in 1..rows.len() {
        if rows[place] < rows[place - 1] {
            return false;
        }
    }
    true
}

/// By which answer those rows are refused as a key's, of which a map allows so many, if they are.
pub fn refusal(bound: u32, rows: &[Row]) -> Option<u32>
    ensures { MatchOption result (IsRowSet bound rows.now) (λ code. AreRefused bound rows.now code) }
{
    if rows.len() > bound as usize {
        return Some(NR_TOO_MANY);
    }
    if !ascends(rows) {
        return Some(NR_NOT_SORTED);
    }
    None
}
