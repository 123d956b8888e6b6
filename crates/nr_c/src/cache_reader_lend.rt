//! `handle` and `side` have a file of their own: their clauses name the row of the handle, which the
//! file that declares it cannot import.
ghost use Rattle.std.specs.Prelude.{◌≡◌, [], ◌∷◌};
ghost use types.Logic.{sem};
ghost use Rattle.nr_c.specs.HandleFollows.{follows_handle, follows_side};
ghost use Rattle.nr_c.specs.NamedHandles.{cache_reader};
ghost use Rattle.nr_c.specs.declared.id_reader_side.IdReaderSide.{IdReaderSide as Held};

use crate::cache_reader_handle::NrCacheReader;
use crate::handle::Handle;
use crate::id_reader_side::IdReaderSide;

impl NrCacheReader {
    /// What the handle leads to, for a call.
    pub fn side(&mut self) -> &mut IdReaderSide
        requires { (held : Held) × (self.old.live ≡ held ∷ []) }
        ensures* writes_back { sem 𝓛 (follows_side cache_reader self.entry result) }
        ensures value { self.old.live ≡ result.now ∷ [] }
    {
        self.handle().token()
    }

    /// The same word without its name for C.
    pub fn handle(&mut self) -> &mut Handle<IdReaderSide>
        ensures* writes_back { sem 𝓛 (follows_handle cache_reader self.entry result) }
        ensures value { self.old ≡ cache_reader.of result.now }
    {
        let whole = self as *mut NrCacheReader;
        unsafe { &mut *(whole as *mut Handle<IdReaderSide>) }
    }
}
