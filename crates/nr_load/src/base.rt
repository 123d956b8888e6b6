//! The base table, from which the dataflow of a load fills.
ghost use Rattle.std.specs.Prelude.{◌≡◌, ◌<◌, IfOk, length, replicate};
ghost use Rattle.nr_load.specs.Base.{StepsBase};

use nr_model::{Delta, Row, RowRoom, RowSet, RowSource};
use nr_serve::{FallibleSource, SourceFault};
use std::alloc::{AllocError, Global};
use std::marker::Model;

/// One row `k:x` for each key k. x begins at 0, and each step of the key adds one, up to 2^64 - 1.
#[derive(Drop)]
pub(crate) struct Base {
    values: Vec<u64>,
}

impl Model for Base {
    ghost use Rattle.std.specs.Prelude.{ℕ, List};

    ghost Value = { List ℕ };

    ghost view = { λ base. base.values.items };
}

// One row, as a set has it that is put into a room.
#[derive(Drop)]
struct One {
    row: Row,
}

impl RowSource for One {
    ghost use Rattle.std.specs.Prelude.{◌∷◌, []};

    ghost rows = { λ one. one.row ∷ [] };

    ghost is_ready = { λ _ _. Unit {0} };

    ghost gave = { λ _ _ _. Unit {0} };

    fn give(&mut self, _place: usize) -> Row {
        self.row
    }

    ghost gave_none = { λ _. tt };

    ghost gave_more = { λ _ _ _ _ _ _. tt };
}

impl FallibleSource for Base {
    ghost use Rattle.nr_load.specs.Base.{GivesRow};
    ghost use Rattle.nr_serve.specs.Sources.{FailsNever};

    ghost gives = { GivesRow };

    ghost fails = { FailsNever };

    fn try_rows(&mut self, key: u32, _bound: u32, room: &mut RowSet) -> Result<(), SourceFault> {
        match self.values.get(key as usize) {
            Some(value) => {
                let row = Row {
                    a: u64::from(key),
                    b: *value,
                };
                room.refill(1, &mut One { row });
            }
            None => *room = RowSet::new(),
        }
        Ok(())
    }
}

impl Base {
    pub(crate) fn open(alloc: Global, keys: u32) -> Result<Base, AllocError>
        ensures { IfOk result (λ base. base ≡ replicate keys 0) }
    {
        let values = Vec::from_elem(alloc, 0u64, keys as usize)?;
        Ok(Base { values })
    }

    /// Makes the key's row `k:x` the row `k:(x+1)`, and gives the signed rows that do the same. None
    /// where x is the last number; then nothing is changed.
    pub(crate) fn step(&mut self, key: u32) -> Option<[Delta; 2]>
        requires { key < length self.old }
        ensures { StepsBase key self.old self.new result }
    {
        let before = self.values[key as usize];
        let after = before.checked_add(1)?;
        self.values[key as usize] = after;
        let a = u64::from(key);
        Some([
            Delta {
                plus: false,
                row: Row { a, b: before },
            },
            Delta {
                plus: true,
                row: Row { a, b: after },
            },
        ])
    }
}
