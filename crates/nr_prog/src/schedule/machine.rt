//! A schedule: closed until it is opened, and then the step machine.
ghost use Rattle.std.specs.Prelude.{◌≡◌, None, Some};
ghost use Rattle.nr_text.specs.Dialogue.{IsOutcome};
ghost use Rattle.nr_prog.specs.ScheduleCommands.{schedule_command};
ghost use Rattle.nr_prog.specs.ScheduleMachine.{answer_schedule_line, answer_closed_schedule, opens_schedule};
ghost use Rattle.nr_text.specs.Grammar.{words};

use crate::schedule::answer::{StepAnswer, StepRefusal};
use crate::schedule::command::{Command, parse};
use crate::schedule::opened::Opened;
use nr_core::{Refusal, Step};
use nr_text::{LineError, LineRoom, Responder, RunFault, set_text};
use std::alloc::Global;

/// A schedule's state. It begins closed. What a line gives and the writer's step that it makes have
/// their room here, so that nothing carries a set.
#[derive(Drop)]
pub(crate) struct ScheduleMachine {
    opened: Option<Opened>,
    given: LineRoom,
    tried: Result<Step, Refusal>,
}

impl Responder for ScheduleMachine {
    ghost use Rattle.std.specs.Prelude.{◌^◌};
    ghost use Rattle.nr_prog.specs.ScheduleMachine as schedule;

    ghost State = { schedule.ScheduleState };

    ghost state_of = { λ machine. machine.opened };

    ghost answer = { schedule.schedule_reply };

    // Nothing in it counts up.
    ghost lines_left = { λ _. 2 ^ 64 };

    fn answer_line(
        &mut self,
        alloc: Global,
        line: &[u8],
        reply: &mut String,
    ) -> Result<(), RunFault> {
        let said = answer_plain(
            &mut self.opened,
            alloc,
            line,
            &mut self.given,
            &mut self.tried,
        );
        match said {
            Ok(answer) => set_text(reply, &answer),
            Err(LineError::Refused(refusal)) => set_text(reply, &refusal),
            Err(LineError::Memory) => Err(RunFault::Memory),
        }
    }
}

impl ScheduleMachine {
    ghost use Rattle.nr_prog.specs.ScheduleMachine.{closed_schedule};

    pub(crate) fn new() -> ScheduleMachine
        ensures { result.opened ≡ closed_schedule }
    {
        ScheduleMachine {
            opened: None,
            given: LineRoom::new(),
            tried: Ok(Step::Going),
        }
    }
}

/// The answer to a plain line.
fn answer_plain<'a>(
    opened: &mut Option<Opened>,
    alloc: Global,
    line: &[u8],
    given: &mut LineRoom,
    tried: &'a mut Result<Step, Refusal>,
) -> Result<StepAnswer<'a>, LineError<StepRefusal>>
    ensures { IsOutcome (answer_schedule_line opened.old line.now) (opens_schedule opened.old (schedule_command (words line.now))) result opened.new }
{
    let command = parse(line, given).ok_or(StepRefusal::Bad)?;
    match opened {
        Some(schedule) => Ok(schedule.answer(&command, tried)?),
        None => open(opened, alloc, &command),
    }
}

/// The answer to a command before the schedule is opened.
fn open(
    opened: &mut Option<Opened>,
    alloc: Global,
    command: &Command<'_>,
) -> Result<StepAnswer<'static>, LineError<StepRefusal>>
    requires { opened.old ≡ None }
    ensures { IsOutcome (answer_closed_schedule command.now) (opens_schedule opened.old (Some command.now)) result opened.new }
{
    let Command::Open(opening) = command else {
        return Err(LineError::Refused(StepRefusal::Closed));
    };
    if !opening.is_in_limits() {
        return Err(LineError::Refused(StepRefusal::Bad));
    }
    let schedule = Opened::open(alloc, opening)?;
    *opened = Some(schedule);
    Ok(StepAnswer::Ok)
}
