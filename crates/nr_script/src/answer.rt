//! What a line is answered.
use crate::alone::{PinRefusal, Said};
use nr_text::{LineError, Rows};
use std::fmt;
use std::fmt::Write;

/// Why a line is refused, in the order in which that is tried.
#[derive(Clone, Copy)]
pub(crate) enum ScriptRefusal {
    Bad,
    Closed,
    NoReader,
    NoKey,
    TooLong,
    Full,
    TooMany,
    Holding,
    NotHolding,
}

impl From<PinRefusal> for ScriptRefusal {
    ghost use Rattle.std.specs.Prelude.{◌≡◌};
    ghost use Rattle.nr_script.specs.Opened.{refused};

    ghost from_gives = { λ map_refusal refusal. refusal ≡ refused map_refusal };

    fn from(refusal: PinRefusal) -> ScriptRefusal {
        match refusal {
            PinRefusal::Holding => ScriptRefusal::Holding,
            PinRefusal::NotHolding => ScriptRefusal::NotHolding,
        }
    }
}

impl From<ScriptRefusal> for LineError<ScriptRefusal> {
    ghost use Rattle.std.specs.Prelude.{◌≡◌};
    ghost use Rattle.nr_text.specs.declared.fault.LineError.TheVariants.{Refused};

    ghost from_gives = { λ refusal error. error ≡ Refused refusal };

    fn from(refusal: ScriptRefusal) -> LineError<ScriptRefusal> {
        LineError::Refused(refusal)
    }
}

/// An answer, as it is written.
#[derive(Drop)]
pub(crate) struct AnswerWord<'a>(pub(crate) &'a Said<'a>);

impl fmt::Display for AnswerWord<'_> {
    ghost use Rattle.std.specs.Prelude.{Some};
    ghost use Rattle.nr_script.specs.Said.{answer_said};
    ghost use Rattle.nr_script.specs.Spelling.{spelled_script_answer};

    ghost output = { λ word. Some (spelled_script_answer (answer_said word.0.now)) };

    fn fmt<W: fmt::Write>(&self, f: &mut fmt::Formatter<W>) -> fmt::Result {
        match self.0 {
            Said::Ok => f.write_str("ok"),
            Said::Rows(rows) => {
                let rows = Rows(rows);
                write!(f, "{rows}")
            }
            Said::Hole => f.write_str("hole"),
            Said::Send(_) => f.write_str("send"),
            Said::Waiting => f.write_str("waiting"),
            Said::Filled => f.write_str("filled"),
            Said::Done => f.write_str("done"),
            Said::NotAsked => f.write_str("not-asked"),
            Said::Stale => f.write_str("stale"),
            Said::Already => f.write_str("already"),
            Said::Dropped => f.write_str("dropped"),
            Said::NoRow => f.write_str("no-row"),
            Said::TooMany => f.write_str("too-many"),
            Said::Evicted => f.write_str("evicted"),
            Said::Nothing => f.write_str("nothing"),
            Said::Cancelled => f.write_str("cancelled"),
            Said::Worn => f.write_str("worn"),
            Said::Other => f.write_str("other"),
            Said::NoSlot => f.write_str("no-slot"),
        }
    }
}

impl fmt::Display for ScriptRefusal {
    ghost use Rattle.std.specs.Prelude.{Some};
    ghost use Rattle.nr_script.specs.Spelling.{spelled_script_refusal};

    ghost output = { λ refusal. Some (spelled_script_refusal refusal) };

    fn fmt<W: fmt::Write>(&self, f: &mut fmt::Formatter<W>) -> fmt::Result {
        f.write_str(match self {
            ScriptRefusal::Bad => "bad",
            ScriptRefusal::Closed => "closed",
            ScriptRefusal::NoReader => "no-reader",
            ScriptRefusal::NoKey => "no-key",
            ScriptRefusal::TooLong => "too-long",
            ScriptRefusal::Full => "full",
            ScriptRefusal::TooMany => "too-many",
            ScriptRefusal::Holding => "holding",
            ScriptRefusal::NotHolding => "not-holding",
        })
    }
}
