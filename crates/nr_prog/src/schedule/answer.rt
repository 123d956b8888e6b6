//! What a line of a schedule is answered.
use nr_core::{Arrived, AskReply, NoSlot, Refusal, Step, WReply};
use nr_text::{LineError, ReplyWord};
use std::fmt;
use std::fmt::Write;
use std::marker::Model;

/// A step of the writer's. It has room for a whole set, so it stays where the machine put it.
#[derive(Drop)]
pub(crate) struct WriterStep<'a> {
    step: &'a Step,
}

impl<'a> Model for WriterStep<'a> {
    ghost use Rattle.nr_core.specs.declared.calls.Step.{Step};

    ghost Value = { Step };

    ghost view = { λ told. told.step.now };
}

impl<'a> WriterStep<'a> {
    ghost use Rattle.std.specs.Prelude.{◌≡◌};

    /// The step, unless the machine refused it.
    pub(crate) fn of(tried: &'a Result<Step, Refusal>) -> Result<WriterStep<'a>, Refusal>
        ensures { result ≡ tried.now }
    {
        match tried {
            Ok(step) => Ok(WriterStep { step }),
            Err(why) => Err(*why),
        }
    }

    fn step(&self) -> &Step
        ensures { result.now ≡ self.now }
    {
        self.step
    }
}

/// The answer to a command that isn't refused.
#[derive(Drop)]
pub(crate) enum StepAnswer<'a> {
    Ok,
    Arrived(Arrived),
    Word(u64),
    Asked(AskReply),
    /// Whether the key has the set that the reader holds.
    Again(bool),
    Writer(WriterStep<'a>),
}

/// Why a line is refused, in the order in which that is tried.
#[derive(Clone, Copy)]
pub(crate) enum StepRefusal {
    Bad,
    Closed,
    TooMany,
    Refused(Refusal),
}

impl From<Refusal> for StepRefusal {
    ghost use Rattle.std.specs.Prelude.{◌≡◌};
    ghost use Rattle.nr_prog.specs.declared.schedule.answer.StepRefusal.TheVariants.{Refused};

    ghost from_gives = { λ why refusal. refusal ≡ Refused why };

    fn from(why: Refusal) -> StepRefusal {
        StepRefusal::Refused(why)
    }
}

impl From<StepRefusal> for LineError<StepRefusal> {
    ghost use Rattle.std.specs.Prelude.{◌≡◌};
    ghost use Rattle.nr_text.specs.declared.fault.LineError.TheVariants.{Refused};

    ghost from_gives = { λ refusal error. error ≡ Refused refusal };

    fn from(refusal: StepRefusal) -> LineError<StepRefusal> {
        LineError::Refused(refusal)
    }
}

impl fmt::Display for StepAnswer<'_> {
    ghost use Rattle.std.specs.Prelude.{Some};
    ghost use Rattle.nr_prog.specs.ScheduleSpelling.{spelled_schedule_answer};

    ghost output = { λ answer. Some (spelled_schedule_answer answer) };

    fn fmt<W: fmt::Write>(&self, f: &mut fmt::Formatter<W>) -> fmt::Result {
        match self {
            StepAnswer::Ok => f.write_str("ok"),
            StepAnswer::Arrived(Arrived::Held) => f.write_str("held"),
            StepAnswer::Arrived(Arrived::Hole) => f.write_str("hole"),
            StepAnswer::Word(word) => write!(f, "{word}"),
            StepAnswer::Asked(AskReply::Send(_)) => f.write_str("send"),
            StepAnswer::Asked(AskReply::Waiting) => f.write_str("waiting"),
            StepAnswer::Asked(AskReply::Filled) => f.write_str("filled"),
            StepAnswer::Again(true) => f.write_str("same"),
            StepAnswer::Again(false) => f.write_str("other"),
            StepAnswer::Writer(told) => match told.step() {
                Step::Going => f.write_str("-"),
                Step::Ended(WReply::Reply(reply)) => {
                    let reply = ReplyWord(reply);
                    write!(f, "{reply}")
                }
                Step::Ended(WReply::NoSlot(NoSlot { live, held })) => {
                    write!(f, "no-slot {live} {held}")
                }
            },
        }
    }
}

impl fmt::Display for StepRefusal {
    ghost use Rattle.std.specs.Prelude.{Some};
    ghost use Rattle.nr_prog.specs.ScheduleSpelling.{spelled_schedule_refusal};

    ghost output = { λ refusal. Some (spelled_schedule_refusal refusal) };

    fn fmt<W: fmt::Write>(&self, f: &mut fmt::Formatter<W>) -> fmt::Result {
        f.write_str(match self {
            StepRefusal::Bad => "bad",
            StepRefusal::Closed => "closed",
            StepRefusal::TooMany => "too-many",
            StepRefusal::Refused(Refusal::Holding) => "holding",
            StepRefusal::Refused(Refusal::NotHolding) => "not-holding",
            StepRefusal::Refused(Refusal::Busy) => "busy",
            StepRefusal::Refused(Refusal::NotBusy) => "not-busy",
            StepRefusal::Refused(Refusal::OutOfRange) => "out-of-range",
        })
    }
}
