//! Why a run ends early, and why a line has no answer.
use std::alloc::AllocError;
use thiserror::Error;

/// Why a run ended before its input did.
#[derive(Clone, Copy, Debug, PartialEq, Eq, Error)]
pub enum RunFault {
    /// A read failed.
    #[error("the input could not be read")]
    Read,
    /// A write failed, or took no bytes.
    #[error("the output could not be written")]
    Write,
    /// A growth of memory was refused.
    #[error("no memory")]
    Memory,
    /// The input goes on past its limit.
    #[error("the input is too long")]
    TooMuch,
}

/// Why a line, or a part of it, has no answer: a refusal, which is then its reply, or want of memory,
/// which ends the run.
#[derive(Clone, Copy)]
pub enum LineError<R> {
    Refused(R),
    Memory,
}

impl<R> From<AllocError> for LineError<R> {
    ghost use Rattle.std.specs.Prelude.{◌≡◌};
    ghost use Rattle.nr_text.specs.declared.fault.LineError.TheVariants.{Memory};

    ghost from_gives = { λ _ error. error ≡ Memory };

    fn from(_: AllocError) -> LineError<R> {
        LineError::Memory
    }
}
