//! `handle` and `side` have a file of their own: their clauses name the row of the handle, which the
//! file that declares it cannot import.
ghost use Rattle.std.specs.Prelude.{◌≡◌, [], ◌∷◌};
ghost use types.Logic.{sem};
ghost use Rattle.nr_c.specs.HandleFollows.{follows_handle, follows_side};
ghost use Rattle.nr_c.specs.NamedHandles.{cache};
ghost use Rattle.nr_c.specs.declared.cache_side.CacheSide.{CacheSide as Held};

use crate::cache_handle::NrCache;
use crate::cache_side::CacheSide;
use crate::handle::Handle;

impl NrCache {
    /// What the handle leads to, for a call.
    pub fn side(&mut self) -> &mut CacheSide
        requires { (held : Held) × (self.old.live ≡ held ∷ []) }
        ensures* writes_back { sem 𝓛 (follows_side cache self.entry result) }
        ensures value { self.old.live ≡ result.now ∷ [] }
    {
        self.handle().token()
    }

    /// The same word without its name for C.
    pub fn handle(&mut self) -> &mut Handle<CacheSide>
        ensures* writes_back { sem 𝓛 (follows_handle cache self.entry result) }
        ensures value { self.old ≡ cache.of result.now }
    {
        let whole = self as *mut NrCache;
        unsafe { &mut *(whole as *mut Handle<CacheSide>) }
    }
}
