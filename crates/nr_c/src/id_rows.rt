//! Which rows an id can have.
ghost use Rattle.std.specs.Prelude.{◌≡◌, MatchOption};
ghost use Rattle.nr_model.specs.Batches.{IsBatch};
ghost use Rattle.nr_idmap.specs.Tags.{AreIdDeltas, IsIdSet};
ghost use Rattle.nr_c.specs.IdRows.{AreIdDeltasRefused, AreIdRowsRefused};

use crate::codes::{NR_BAD_BATCH, NR_BAD_ROW};
use crate::rows::{are_batch, refusal};
use nr_idmap::{are_id_deltas, are_id_rows};
use nr_model::{Delta, Row};

/// By which answer those rows are refused as an id's, of which it may have so many, if they are.
pub fn id_refusal(bound: u32, rows: &[Row]) -> Option<u32>
    ensures { MatchOption result (IsIdSet bound rows.now) (λ code. AreIdRowsRefused bound rows.now code) }
{
    if let Some(code) = refusal(bound, rows) {
        return Some(code);
    }
    if !are_id_rows(rows) {
        return Some(NR_BAD_ROW);
    }
    None
}

/// By which answer those signed rows are refused as an id's, if they are.
pub fn id_batch_refusal(deltas: &[Delta]) -> Option<u32>
    ensures { MatchOption result (IsBatch deltas.now × AreIdDeltas deltas.now) (λ code. AreIdDeltasRefused deltas.now code) }
{
    if !are_batch(deltas) {
        return Some(NR_BAD_BATCH);
    }
    if !are_id_deltas(deltas) {
        return Some(NR_BAD_ROW);
    }
    None
}
