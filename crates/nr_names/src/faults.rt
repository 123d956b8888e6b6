//! Why a call on names is refused.
use thiserror::Error;

/// Why a call on names was refused.
#[derive(Clone, Copy, Debug, PartialEq, Eq, Error)]
pub enum NameFault {
    #[error("the name is empty")]
    Empty,
    #[error("the name is too long")]
    TooLong,
    #[error("all numbers are taken")]
    Full,
    #[error("out of memory")]
    Memory,
    #[error("no name has this number")]
    NoName,
}
