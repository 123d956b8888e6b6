//! How many keys a shared table has, for the proof alone.
ghost use Rattle.std.specs.Prelude.{ℕ};

use std::marker::Brand;

/// A number of keys. It stands in the type of a lock, since a clause knows of what is under a lock only
/// what its type says. A function that opens a table for a number takes a parameter with this bound,
/// and who calls it with `Brand` picks the number.
pub trait Keys: Send + Sync {
    ghost keys: { ℕ };
}

impl Keys for Brand {
    ghost keys = { 1 };
}
