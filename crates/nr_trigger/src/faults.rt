//! Why one attempt did nothing.
use thiserror::Error;

/// Why one attempt to post did nothing.
#[derive(Clone, Copy, Debug, PartialEq, Eq, Error)]
pub enum PostFault {
    /// The queue was full at one moment of the call.
    #[error("the queue is full")]
    Full,
    /// Another thread was within a call of its own, or the queue has carried 2^62 requests.
    #[error("another thread is in the way")]
    InTheWay,
}

/// Why one attempt to take did nothing.
#[derive(Clone, Copy, Debug, PartialEq, Eq, Error)]
pub enum TakeFault {
    /// The queue was empty at one moment of the call.
    #[error("the queue is empty")]
    Empty,
    /// Another thread was within a call of its own, or the queue has carried 2^62 requests.
    #[error("another thread is in the way")]
    InTheWay,
}
