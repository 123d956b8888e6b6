//! Bytes and replies to a writer.
ghost use Rattle.std.specs.Prelude.{◌≡◌, OnOk, IfErr, IfSome, string_bytes};
ghost use Rattle.nr_text.specs.Output.{Sends, SendsReply};

use crate::fault::RunFault;
use std::fmt::{Display, Write as _};
use std::io::Write;

/// Sets the text to what the value displays. Refused with Memory where memory is.
pub fn set_text<D: Display>(text: &mut String, value: &D) -> Result<(), RunFault>
    ensures written { OnOk result (IfSome (D.output value.now) (λ bytes. string_bytes text.new ≡ bytes)) }
    ensures fault { IfErr result (λ fault. fault ≡ RunFault.Memory) }
{
    text.clear();
    let written = write!(text, "{value}");
    written.map_err(|_| RunFault::Memory)
}

/// Writes all the bytes. A write that takes none is a fault, and so is any error.
pub fn write_all<W: Write>(writer: &mut W, bytes: &[u8]) -> Result<(), RunFault>
    ensures { Sends (W.contents writer.old) (W.contents writer.new) bytes.now result }
{
    let mut rest = bytes;
    'rest: while !rest.is_empty() {
        match writer.write(rest) {
            Ok(0) => return Err(RunFault::Write),
            Ok(count) => rest = &rest[count..],
            Err(_) => return Err(RunFault::Write),
        }
    }
    Ok(())
}

/// Writes a reply and a line feed.
pub(crate) fn send<W: Write>(reply: &mut String, writer: &mut W) -> Result<(), RunFault>
    ensures { SendsReply (W.contents writer.old) (W.contents writer.new) (string_bytes reply.old) result }
{
    if reply.push('\n').is_err() {
        return Err(RunFault::Memory);
    }
    write_all(writer, reply.as_bytes())
}
