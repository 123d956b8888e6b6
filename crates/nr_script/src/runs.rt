//! A script, from a reader to a writer.
ghost use Rattle.std.specs.Prelude.{◌≡◌, ◌<◌, ◌≤◌, ◌⊎◌, length, IfOk, OnOk, IfErr, Err};
ghost use Rattle.nr_text.specs.Limits.{longest_input};
ghost use Rattle.nr_text.specs.Lines.{lines};
ghost use Rattle.nr_text.specs.Run.{Runs};
ghost use Rattle.nr_script.specs.Machine.{replies_of, script_text};

use crate::machine::ScriptMachine;
use nr_text::{INPUT_LIMIT, RunFault, serve};
use std::alloc::Global;
use std::io::{Read, Write};

/// Answers each line of a script by one line, before it reads on, over a map of its own.
///
/// Ends early where a read fails, where a write fails or takes nothing, where memory is refused for
/// the map that a line opens or for a reply, and where the input is over 268,435,456 bytes.
pub fn run<R: Read, W: Write>(alloc: Global, reader: &mut R, writer: &mut W) -> Result<(), RunFault>
    ensures { Runs script_text longest_input result (R.remaining reader.old) (R.remaining reader.new) (W.contents writer.old) (W.contents writer.new) }
{
    run_within(alloc, INPUT_LIMIT, reader, writer)
}

/// The same as `run`, for an input of at most `limit` bytes.
pub fn run_within<R: Read, W: Write>(
    alloc: Global,
    limit: u64,
    reader: &mut R,
    writer: &mut W,
) -> Result<(), RunFault>
    ensures { Runs script_text limit result (R.remaining reader.old) (R.remaining reader.new) (W.contents writer.old) (W.contents writer.new) }
{
    let mut machine = ScriptMachine::new();
    let served = serve(alloc, limit, &mut machine, reader, writer);
    machine.close();
    served
}

/// The replies to a script that lies in memory.
///
/// Refused where memory is, and where the script is over 268,435,456 bytes.
pub fn replies(alloc: Global, script: &[u8]) -> Result<Vec<u8>, RunFault>
    ensures text { IfOk result (λ text. text.items ≡ script_text (lines script.now)) }
    ensures whole { OnOk result (length script.now ≤ longest_input) }
    ensures too_much { result ≡ Err RunFault.TooMuch → longest_input < length script.now }
    ensures fault { IfErr result (λ fault. (fault ≡ RunFault.Memory) ⊎ (fault ≡ RunFault.TooMuch)) }
{
    let mut text = Vec::new(alloc);
    let mut reader = script;
    let ran = run(alloc, &mut reader, &mut text);
    replies_of(ran, text)
}

/// What a run over bytes in memory comes to. These are read without a fault, and a vector takes all
/// bytes unless memory is refused.
fn replies_of(ran: Result<(), RunFault>, text: Vec<u8>) -> Result<Vec<u8>, RunFault>
    ensures { result ≡ replies_of ran text }
{
    match ran {
        Ok(()) => Ok(text),
        Err(RunFault::TooMuch) => Err(RunFault::TooMuch),
        Err(_) => Err(RunFault::Memory),
    }
}
