//! `handle` and `side` have a file of their own: their clauses name the row of the handle, which the
//! file that declares it cannot import.
ghost use Rattle.std.specs.Prelude.{◌≡◌, [], ◌∷◌};
ghost use types.Logic.{sem};
ghost use Rattle.nr_c.specs.HandleFollows.{follows_handle, follows_side};
ghost use Rattle.nr_c.specs.NamedHandles.{writer};
ghost use Rattle.nr_c.specs.declared.writer_side.WriterSide.{WriterSide as Held};

use crate::handle::Handle;
use crate::writer_handle::NrWriter;
use crate::writer_side::WriterSide;

impl NrWriter {
    /// What the handle leads to, for a call.
    pub fn side(&mut self) -> &mut WriterSide
        requires { (held : Held) × (self.old.live ≡ held ∷ []) }
        ensures* writes_back { sem 𝓛 (follows_side writer self.entry result) }
        ensures value { self.old.live ≡ result.now ∷ [] }
    {
        self.handle().token()
    }

    /// The same word without its name for C.
    pub fn handle(&mut self) -> &mut Handle<WriterSide>
        ensures* writes_back { sem 𝓛 (follows_handle writer self.entry result) }
        ensures value { self.old ≡ writer.of result.now }
    {
        let whole = self as *mut NrWriter;
        unsafe { &mut *(whole as *mut Handle<WriterSide>) }
    }
}
