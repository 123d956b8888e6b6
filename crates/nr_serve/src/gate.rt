//! Who lets a client have the rows that it found.

/// Asked by a client that has found rows, before it hands them out. It is given the number of the
/// client's reader and that of the get, counted from 1 for each client.
pub trait Gate {
    ghost use Rattle.std.specs.Prelude.{ℕ, Bool};

    /// What a gate says when it was asked: of itself, the reader, the get, and whether it lets pass.
    /// Nothing, unless it says so.
    ghost lets: { Self → ℕ → ℕ → Bool → Type 0 } = { λ _ _ _ _. Unit {0} };

    /// What it says when it was told of an answer. Nothing, unless it says so.
    ghost hears: { Self → ℕ → ℕ → Type 0 } = { λ _ _ _. Unit {0} };

    /// Whether this reader may go on in that get.
    fn pass(&self, reader: u32, get: u64) -> bool
        ensures { lets self.now reader get result };

    /// Told after the rows of that get were copied and released.
    fn answered(&self, reader: u32, get: u64)
        ensures { hears self.now reader get };
}

/// A gate that always lets pass.
#[derive(Clone, Copy, Debug)]
pub struct OpenGate;

impl Gate for OpenGate {
    fn pass(&self, _reader: u32, _get: u64) -> bool {
        true
    }

    fn answered(&self, _reader: u32, _get: u64) {}
}
