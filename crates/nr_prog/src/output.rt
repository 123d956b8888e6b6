//! Where the program's own lines go.
ghost use Rattle.std.specs.Prelude.{OnErr};
ghost use Rattle.nr_text.specs.Output.{Sends};

use nr_text::{RunFault, write_all};
use std::io::Write;

/// Where lines and reports go: any writer. Only where a write may fail is one cut short.
pub trait Output: Write {
    // A write may fail. What tells lines to any such writer must tell them whole where this is never so.
    ghost may_fail: { Type 0 };

    /// Writes all the bytes.
    fn tell(&mut self, bytes: &[u8]) -> Result<(), RunFault>
        ensures sends { Sends (Self.contents self.old) (Self.contents self.new) bytes.now result }
        ensures fails { OnErr result may_fail };
}

// Nothing is known of when a write of any writer fails.
impl<W: Write> Output for W {
    ghost may_fail = { Unit {0} };

    fn tell(&mut self, bytes: &[u8]) -> Result<(), RunFault> {
        write_all(self, bytes)
    }
}
