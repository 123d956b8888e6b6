//! Schedules, from a reader to a writer.
ghost use Rattle.std.specs.Prelude.{◌<◌};
ghost use Rattle.nr_text.specs.Limits.{longest_input};
ghost use Rattle.nr_text.specs.Run.{Runs};
ghost use Rattle.nr_prog.specs.ScheduleMachine.{schedule_text};

use crate::schedule::machine::ScheduleMachine;
use nr_text::{INPUT_LIMIT, RunFault, serve};
use std::alloc::Global;
use std::io::{Read, Write};

/// Answers each line of a schedule by one line, before it reads on, over a step machine of its own.
///
/// Ends early where a read fails, where a write fails or takes nothing, where memory is refused for
/// the machine that a line opens or for a reply, and where the input is over 268,435,456 bytes.
pub fn run_steps<R: Read, W: Write>(
    alloc: Global,
    reader: &mut R,
    writer: &mut W,
) -> Result<(), RunFault>
    ensures { Runs schedule_text longest_input result (R.remaining reader.old) (R.remaining reader.new) (W.contents writer.old) (W.contents writer.new) }
{
    run_steps_within(alloc, INPUT_LIMIT, reader, writer)
}

/// The same as `run_steps`, for an input of at most `limit` bytes.
pub fn run_steps_within<R: Read, W: Write>(
    alloc: Global,
    limit: u64,
    reader: &mut R,
    writer: &mut W,
) -> Result<(), RunFault>
    ensures { Runs schedule_text limit result (R.remaining reader.old) (R.remaining reader.new) (W.contents writer.old) (W.contents writer.new) }
{
    let mut machine = ScheduleMachine::new();
    serve(alloc, limit, &mut machine, reader, writer)
}
