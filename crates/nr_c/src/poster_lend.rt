//! `handle` and `side` have a file of their own: their clauses name the row of the handle, which the
//! file that declares it cannot import.
ghost use Rattle.std.specs.Prelude.{◌≡◌, [], ◌∷◌};
ghost use types.Logic.{sem};
ghost use Rattle.nr_c.specs.HandleFollows.{follows_handle, follows_side};
ghost use Rattle.nr_c.specs.NamedHandles.{poster};
ghost use Rattle.nr_c.specs.declared.poster_side.PosterSide.{PosterSide as Held};

use crate::handle::Handle;
use crate::poster_handle::NrPoster;
use crate::poster_side::PosterSide;

impl NrPoster {
    /// What the handle leads to, for a call.
    pub fn side(&mut self) -> &mut PosterSide
        requires { (held : Held) × (self.old.live ≡ held ∷ []) }
        ensures* writes_back { sem 𝓛 (follows_side poster self.entry result) }
        ensures value { self.old.live ≡ result.now ∷ [] }
    {
        self.handle().token()
    }

    /// The same word without its name for C.
    pub fn handle(&mut self) -> &mut Handle<PosterSide>
        ensures* writes_back { sem 𝓛 (follows_handle poster self.entry result) }
        ensures value { self.old ≡ poster.of result.now }
    {
        let whole = self as *mut NrPoster;
        unsafe { &mut *(whole as *mut Handle<PosterSide>) }
    }
}
