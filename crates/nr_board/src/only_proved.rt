//! What contracts and proofs alone read of a function's arguments.

/// A call's operand that the function's steps don't need, since the writer's place in its call tells
/// it: the contract names it, and Rust is to see it used.
pub fn only_proved<T: Copy>(_operand: T) {}
