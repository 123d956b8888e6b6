//! Where the dataflow has its rows from.
ghost use Rattle.std.specs.Prelude.{◌<◌, ◌≤◌, IfErr, IfOk, length};
ghost use Rattle.nr_model.specs.declared.rows.TheConstants.{MAX_ROWS};

use nr_model::RowSet;
use thiserror::Error;

/// Answers upqueries: the rows of a key as they stand now. One that may have none to give is a
/// `FallibleSource`.
pub trait Source {
    ghost use Rattle.std.specs.Prelude.{ℕ, List};
    ghost use Rattle.nr_model.specs.declared.rows.Row.{Row};

    /// What a source says of the rows that it gives: of itself before, the key, the bound that it
    /// was told, the rows, and itself after. Nothing, unless it says so.
    ghost gives: { Self → (key bound : ℕ) → List Row → Self → Type 0 } = { λ _ _ _ _ _. Unit {0} };

    /// The rows of a key, at most `bound` of them, a number from 1 to `MAX_ROWS`.
    fn rows(&mut self, key: u32, bound: u32) -> RowSet
        requires bound { (0 < bound) × (bound ≤ MAX_ROWS) }
        ensures few { length result ≤ bound }
        ensures gives { gives self.old key bound result self.new };
}

/// Why a source gives no rows.
#[derive(Clone, Copy, Debug, PartialEq, Eq, Error)]
#[error("the rows of a key can't be had now")]
pub struct SourceFault;

/// Answers upqueries, and may fail to. It fills a room that is there, so that no set is copied. Each
/// `Source` is one that never fails.
pub trait FallibleSource {
    ghost use Rattle.std.specs.Prelude.{ℕ, List};
    ghost use Rattle.nr_model.specs.declared.rows.Row.{Row};

    /// What it says of the rows that it gives, as a `Source` does.
    ghost gives: { Self → (key bound : ℕ) → List Row → Self → Type 0 } = { λ _ _ _ _ _. Unit {0} };

    /// What it says where it gives none: of itself before, the key, the bound, and itself after.
    /// Nothing, unless it says so.
    ghost fails: { Self → (key bound : ℕ) → Self → Type 0 } = { λ _ _ _ _. Unit {0} };

    /// Puts the rows of a key, at most `bound` of them, a number from 1 to `MAX_ROWS`, into the room
    /// that it is handed, in place of what an earlier call left there. Nobody reads the room where
    /// it fails.
    fn try_rows(&mut self, key: u32, bound: u32, room: &mut RowSet) -> Result<(), SourceFault>
        requires bound { (0 < bound) × (bound ≤ MAX_ROWS) }
        ensures few { IfOk result (λ _. length room.new ≤ bound) }
        ensures gives { IfOk result (λ _. gives self.old key bound room.new self.new) }
        ensures fails { IfErr result (λ _. fails self.old key bound self.new) };
}

impl<S: Source> FallibleSource for S {
    ghost use Rattle.nr_serve.specs.Sources.{FailsNever};

    ghost gives = { S.gives };

    ghost fails = { FailsNever };

    fn try_rows(&mut self, key: u32, bound: u32, room: &mut RowSet) -> Result<(), SourceFault> {
        *room = self.rows(key, bound);
        Ok(())
    }
}
