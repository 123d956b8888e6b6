//! What was done to the words, for contracts alone: it takes no memory, and nothing of it runs.
ghost use Rattle.std.specs.Prelude.{◌≡◌, List, [], ◌∷◌, ◌++◌};
ghost use Rattle.std.specs.Borrow.{ftrue};
ghost use Rattle.nr_core.specs.declared.operation.Operation.{Operation};

use crate::operation::Operation;
use std::marker::Model;

/// The operations so far, oldest first.
#[derive(Drop)]
pub struct Trace {
    pub ghost made: { List Operation },
}

impl Model for Trace {
    ghost also_owns = { λ _. ftrue };
}

impl Trace {
    /// No operation yet.
    pub fn new() -> Trace
        ensures { result.made ≡ [] }
    {
        Trace {}
    }

    /// These operations and the next one.
    #[inline(always)]
    pub fn then(&self, _operation: &Operation) -> Trace
        ensures { result.made ≡ self.now.made ++ _operation.now ∷ [] }
    {
        Trace {}
    }
}
