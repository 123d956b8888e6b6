//! What is asserted. Each `assert_eq!` of a test would be proved anew.
use std::fmt::Debug;
use std::process::Abort;

/// The two are the same.
pub(crate) fn is_same<T: Debug + PartialEq, R: Abort>(rt: &R, got: &T, wanted: &T) {
    assert_eq!(rt; got, wanted);
}

/// The two have the same items.
pub(crate) fn are_same<T: Debug + PartialEq, R: Abort>(rt: &R, got: &[T], wanted: &[T]) {
    is_same(rt, &got, &wanted);
}
