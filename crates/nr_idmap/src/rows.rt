//! The rows of ids, and sets that begin with a tag.
ghost use Rattle.std.specs.Prelude.{◌≡◌, ◌<◌, ◌↔◌, ◌∷◌, ◌+◌, length, IsTrue};
ghost use Rattle.nr_model.specs.Rows.{IsRowSet};
ghost use Rattle.nr_model.specs.declared.rows.TheConstants.{MAX_ROWS};
ghost use Rattle.nr_idmap.specs.Tags.{AreIdDeltas, AreIdRows, CopiesBehind, HasTag, IsIdSet, rows_behind, tag_of};

use nr_model::{Delta, Row, RowRoom, RowSource, SortedRows};

/// Whether those rows can be an id's: each `a` is above 0.
pub fn are_id_rows(rows: &[Row]) -> bool
    ensures { IsTrue result ↔ AreIdRows rows.now }
{
    rows.iter().all(|row| row.a > 0)
}

/// Whether those signed rows can change an id's rows: each `a` is above 0.
pub fn are_id_deltas(deltas: &[Delta]) -> bool
    ensures { IsTrue result ↔ AreIdDeltas deltas.now }
{
    deltas.iter().all(|delta| delta.row.a > 0)
}

/// The rows of a slice, one by one.
#[derive(Drop)]
pub(crate) struct PlainRows<'a> {
    pub rows: &'a [Row],
}

impl RowSource for PlainRows<'_> {
    ghost use Rattle.std.specs.Prelude.{◌≡◌};
    ghost use Rattle.std.proofs.Common.{◌∙◌, refl};

    ghost rows = { λ source. source.rows.now };

    ghost is_ready = { λ _ _. Unit {0} };

    ghost gave = { λ first _ last. last.rows.now ≡ first.rows.now };

    fn give(&mut self, place: usize) -> Row {
        self.rows[place]
    }

    ghost gave_none = { λ _. refl };

    ghost gave_more = { λ _ _ _ _ a b. b ∙ a };
}

/// The same behind an id's tag.
#[derive(Drop)]
pub(crate) struct TaggedRows<'a> {
    pub id: u64,
    pub rows: &'a [Row],
}

impl RowSource for TaggedRows<'_> {
    ghost use Rattle.std.specs.Prelude.{◌≡◌, ◌∷◌};
    ghost use Rattle.std.proofs.Common.{◌∙◌, refl};
    ghost use Rattle.nr_idmap.specs.Tags.{tag_of};

    ghost rows = { λ source. tag_of source.id ∷ source.rows.now };

    ghost is_ready = { λ _ _. Unit {0} };

    ghost gave = { λ first _ last. (last.id ≡ first.id) × (last.rows.now ≡ first.rows.now) };

    fn give(&mut self, place: usize) -> Row {
        if place == 0 {
            tag_of(self.id)
        } else {
            self.rows[place - 1]
        }
    }

    ghost gave_none = { λ _. (refl, refl) };

    ghost gave_more = { λ _ _ _ _ a b. (b.0 ∙ a.0, b.1 ∙ a.1) };
}

/// The first row of an id's set.
pub(crate) fn tag_of(id: u64) -> Row
    ensures { result ≡ tag_of id }
{
    Row { a: 0, b: id }
}

/// Puts the rows, behind the id's tag, in place of the sorted ones.
pub(crate) fn put_tagged(sorted: &mut SortedRows, id: u64, rows: &[Row], bound: u32)
    requires id_set { IsIdSet bound rows.now }
    requires few { bound < MAX_ROWS }
    ensures sorted { sorted.new ≡ tag_of id ∷ rows.now }
    ensures row_set { IsRowSet (bound + 1) sorted.new }
{
    sorted.refill(rows.len() + 1, &mut TaggedRows { id, rows });
}

/// Writes the rows behind the id's tag into the room: whether the set has that tag. If not, the room
/// stays as it is.
pub(crate) fn copy_behind<R: RowRoom>(set: &[Row], id: u64, rows: &mut R) -> bool
    requires row_set { IsRowSet MAX_ROWS set.now }
    ensures copies { CopiesBehind R.shows id set.now rows.old rows.new result }
{
    if !has_tag(set, id) {
        return false;
    }
    let behind = &set[1..];
    rows.refill(behind.len(), &mut PlainRows { rows: behind });
    true
}

/// Whether the set has the id's tag.
pub(crate) fn has_tag(set: &[Row], id: u64) -> bool
    ensures { IsTrue result ↔ HasTag id set.now }
{
    match set.first() {
        Some(tag) => tag.a == 0 && tag.b == id,
        None => false,
    }
}

/// The rows behind a set's tag.
pub(crate) fn behind(set: &[Row]) -> &[Row]
    requires some { 0 < length set.now }
    requires row_set { IsRowSet MAX_ROWS set.now }
    ensures rows { result.now ≡ rows_behind set.now }
    ensures row_set { IsRowSet MAX_ROWS result.now }
{
    &set[1..]
}

/// Writes the rows into the room.
pub(crate) fn copy_all<R: RowRoom>(set: &[Row], rows: &mut R)
    requires row_set { IsRowSet MAX_ROWS set.now }
    ensures shows { R.shows rows.new set.now }
{
    rows.refill(set.len(), &mut PlainRows { rows: set });
}
