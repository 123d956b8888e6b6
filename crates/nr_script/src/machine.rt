//! A script over a running map: closed until it is opened, and then a map.
ghost use Rattle.std.specs.Prelude.{◌≡◌, None, Some};
ghost use Rattle.nr_text.specs.Dialogue.{IsOutcome};
ghost use Rattle.nr_script.specs.Commands.{script_command};
ghost use Rattle.nr_script.specs.Machine.{answer_script_line, answer_closed_script, takes_memory};
ghost use Rattle.nr_text.specs.Grammar.{words};

use crate::alone::Answer;
use crate::answer::{AnswerWord, ScriptRefusal};
use crate::command::{Command, parse};
use crate::opened::Opened;
use nr_model::RowSet;
use nr_text::{LineError, LineRoom, Responder, RunFault, set_text};
use std::alloc::Global;

/// A script's state. It begins closed. It can't be dropped: its map must be closed.
pub(crate) struct ScriptMachine {
    opened: Option<Opened>,
    given: LineRoom,
    found: RowSet,
}

impl Responder for ScriptMachine {
    ghost use Rattle.std.specs.Prelude.{string_bytes};
    ghost use Rattle.std.specs.Prelude.{◌^◌};
    ghost use Rattle.nr_script.specs.Machine.{script_state};
    ghost use Rattle.nr_script.specs.Machine as script;

    ghost State = { script.ScriptState };

    ghost state_of = { script_state };

    ghost answer = { script.script_reply };

    // Nothing in it counts up.
    ghost lines_left = { λ _. 2 ^ 64 };

    fn answer_line(
        &mut self,
        alloc: Global,
        line: &[u8],
        reply: &mut String,
    ) -> Result<(), RunFault> {
        let said = answer_plain(
            &mut self.opened,
            alloc,
            line,
            &mut self.given,
            &mut self.found,
        );
        match said {
            Ok(answer) => set_text(reply, &AnswerWord(answer.said())),
            Err(LineError::Refused(refusal)) => set_text(reply, &refusal),
            Err(LineError::Memory) => Err(RunFault::Memory),
        }
    }
}

impl ScriptMachine {
    ghost use Rattle.nr_script.specs.Machine.{script_state, closed_script};

    pub(crate) fn new() -> ScriptMachine
        ensures { script_state result ≡ closed_script }
    {
        ScriptMachine {
            opened: None,
            given: LineRoom::new(),
            found: RowSet::new(),
        }
    }

    /// The script ends, and with it the map that it opened.
    pub(crate) fn close(self) {
        let ScriptMachine {
            opened,
            given: _,
            found: _,
        } = self;
        match opened {
            None => {}
            Some(script) => script.close(),
        }
    }
}

// The answer to a plain line. What the line gives and what it finds has its room, so that nothing carries a set.
fn answer_plain<'a>(
    opened: &mut Option<Opened>,
    alloc: Global,
    line: &[u8],
    given: &mut LineRoom,
    found: &'a mut RowSet,
) -> Result<Answer<'a>, LineError<ScriptRefusal>>
    ensures { IsOutcome (answer_script_line opened.old line.now) (takes_memory opened.old (script_command (words line.now))) result opened.new }
{
    let command = parse(line, given).ok_or(ScriptRefusal::Bad)?;
    match opened {
        Some(script) => script.answer(&command, found),
        None => open(opened, alloc, &command),
    }
}

// The answer to a command before the script is opened.
fn open(
    opened: &mut Option<Opened>,
    alloc: Global,
    command: &Command<'_>,
) -> Result<Answer<'static>, LineError<ScriptRefusal>>
    requires { opened.old ≡ None }
    ensures { IsOutcome (answer_closed_script command.now) (takes_memory opened.old (Some command.now)) result opened.new }
{
    let Command::Open { named, sizes } = command else {
        return Err(LineError::Refused(ScriptRefusal::Closed));
    };
    if !sizes.is_in_limits() {
        return Err(LineError::Refused(ScriptRefusal::Bad));
    }
    let script = Opened::open(alloc, *named, sizes)?;
    match opened.replace(script) {
        None => {}
        Some(before) => before.close(),
    }
    Ok(Answer::ok())
}
