//! Whatever answers lines, and its run from a reader to a writer.
ghost use Rattle.std.specs.Prelude.{ℕ, ◌+◌, ◌<◌, ◌≤◌, List, OnOk, IfErr, ◌≡◌, true, string_bytes};
ghost use Rattle.nr_text.specs.Input.{StandsFor};
ghost use Rattle.nr_text.specs.Plain.{is_plain, or_bad};
ghost use Rattle.nr_text.specs.Run.{Runs};
ghost use Rattle.nr_text.specs.Text.{text};

use crate::fault::RunFault;
use crate::input::{Input, LineEnd};
use crate::line::Line;
use crate::output::send;
use std::alloc::Global;
use std::io::{Read, Write};

/// Answers plain lines, one after another.
pub trait Responder {
    // What its replies depend on.
    ghost State: { Type 0 };

    ghost state_of: { Self → State };

    // The reply to a plain line, and the state after it.
    ghost answer: { State → List ℕ → List ℕ × State };

    // How many more lines it can surely answer, before one of its counters is at its end.
    ghost lines_left: { Self → ℕ };

    /// Sets the text to the line's reply.
    ///
    /// Refused with Memory where memory is.
    fn answer_line(
        &mut self,
        alloc: Global,
        line: &[u8],
        reply: &mut String,
    ) -> Result<(), RunFault>
        requires left { 0 < lines_left self.old }
        requires plain { is_plain line.now ≡ true }
        ensures reply { OnOk result (answer (state_of self.old) line.now ≡ (string_bytes reply.new, state_of self.new)) }
        ensures left { OnOk result (lines_left self.old ≤ lines_left self.new + 1) }
        ensures fault { IfErr result (λ fault. fault ≡ RunFault.Memory) };
}

/// Sets the text to the reply to any line: `bad` where it isn't plain, else the responder's.
fn reply_to<M: Responder>(
    alloc: Global,
    responder: &mut M,
    line: &Line,
    reply: &mut String,
) -> Result<(), RunFault>
    requires { 0 < M.lines_left responder.old }
    ensures reply { OnOk result ((bytes : List ℕ) → StandsFor line.now bytes → or_bad M.answer (M.state_of responder.old) bytes ≡ (string_bytes reply.new, M.state_of responder.new)) }
    ensures left { OnOk result (M.lines_left responder.old ≤ M.lines_left responder.new + 1) }
    ensures fault { IfErr result (λ fault. fault ≡ RunFault.Memory) }
{
    if let Some(text) = line.plain() {
        return responder.answer_line(alloc, text, reply);
    }
    reply.clear();
    reply.push_str("bad").map_err(|_| RunFault::Memory)
}

/// Answers each line of the reader by one line to the writer, before it reads on.
/// The input may have `limit` bytes.
///
/// Ends early where a read fails, where a write fails or takes nothing, where memory is refused for
/// a reply, and where the input goes on past its limit.
pub fn serve<M: Responder, R: Read, W: Write>(
    alloc: Global,
    limit: u64,
    responder: &mut M,
    reader: &mut R,
    writer: &mut W,
) -> Result<(), RunFault>
    requires { limit < M.lines_left responder.old }
    ensures { Runs (text (or_bad M.answer) (M.state_of responder.old)) limit result (R.remaining reader.old) (R.remaining reader.new) (W.contents writer.old) (W.contents writer.new) }
{
    let mut input = Input::new(limit);
    let mut line = Line::new();
    let mut reply = String::new(alloc);
    'lines: loop {
        let end = input.read_line(reader, &mut line)?;
        if let LineEnd::NoLine = end {
            return Ok(());
        }
        reply_to(alloc, responder, &line, &mut reply)?;
        send(&mut reply, writer)?;
        if let LineEnd::InputEnd = end {
            return Ok(());
        }
    }
}
