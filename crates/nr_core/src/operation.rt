//! The operations on words.

/// A load of the word at a place, an addition to it, a bitwise or, a store, or a swap.
#[derive(Clone, Copy, Debug)]
pub enum Operation {
    Load(u64),
    Add(u64, u64),
    Or(u64, u64),
    Store(u64, u64),
    Swap(u64, u64),
}
