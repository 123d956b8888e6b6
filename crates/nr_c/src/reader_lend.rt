//! `handle` and `side` have a file of their own: their clauses name the row of the handle, which the
//! file that declares it cannot import.
ghost use Rattle.std.specs.Prelude.{◌≡◌, [], ◌∷◌};
ghost use types.Logic.{sem};
ghost use Rattle.nr_c.specs.HandleFollows.{follows_handle, follows_side};
ghost use Rattle.nr_c.specs.NamedHandles.{reader};
ghost use Rattle.nr_c.specs.declared.reader_side.ReaderSide.{ReaderSide as Held};

use crate::handle::Handle;
use crate::reader_handle::NrReader;
use crate::reader_side::ReaderSide;

impl NrReader {
    /// What the handle leads to, for a call.
    pub fn side(&mut self) -> &mut ReaderSide
        requires { (held : Held) × (self.old.live ≡ held ∷ []) }
        ensures* writes_back { sem 𝓛 (follows_side reader self.entry result) }
        ensures value { self.old.live ≡ result.now ∷ [] }
    {
        self.handle().token()
    }

    /// The same word without its name for C.
    pub fn handle(&mut self) -> &mut Handle<ReaderSide>
        ensures* writes_back { sem 𝓛 (follows_handle reader self.entry result) }
        ensures value { self.old ≡ reader.of result.now }
    {
        let whole = self as *mut NrReader;
        unsafe { &mut *(whole as *mut Handle<ReaderSide>) }
    }
}
