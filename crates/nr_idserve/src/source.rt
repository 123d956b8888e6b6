//! Where a dataflow by id has its rows from.
ghost use Rattle.std.specs.Prelude.{◌≡◌, ◌≤◌, [], IfErr, IfOk, length};
ghost use Rattle.nr_idmap.specs.Tags.{AreIdRows};

use nr_model::RowSet;
use nr_serve::SourceFault;

/// Answers upqueries: the rows of an id as they stand now.
pub trait IdSource {
    ghost use Rattle.std.specs.Prelude.{ℕ, List};
    ghost use Rattle.nr_model.specs.declared.rows.Row.{Row};

    /// What a source says of the rows that it gives: of itself before, the id, the bound that it was told,
    /// the rows, and itself after. Nothing, unless it says so.
    ghost gives: { Self → (id bound : ℕ) → List Row → Self → Type 0 } = { λ _ _ _ _ _. Unit {0} };

    /// What it says where it gives none: of itself before, the id, the bound, and itself after. Nothing,
    /// unless it says so.
    ghost fails: { Self → (id bound : ℕ) → Self → Type 0 } = { λ _ _ _ _. Unit {0} };

    /// Puts the rows of an id, at most `bound` of them, each with an `a` above 0, into the empty room.
    /// Nobody reads the room where it fails.
    fn rows(&mut self, id: u64, bound: u32, room: &mut RowSet) -> Result<(), SourceFault>
        requires room { room.old ≡ [] }
        ensures few { IfOk result (λ _. length room.new ≤ bound) }
        ensures untagged { IfOk result (λ _. AreIdRows room.new) }
        ensures gives { IfOk result (λ _. gives self.old id bound room.new self.new) }
        ensures fails { IfErr result (λ _. fails self.old id bound self.new) };
}
