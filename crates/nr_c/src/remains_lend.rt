//! `handle` and `side` have a file of their own: their clauses name the row of the handle, which the
//! file that declares it cannot import.
ghost use Rattle.std.specs.Prelude.{◌≡◌, [], ◌∷◌};
ghost use types.Logic.{sem};
ghost use Rattle.nr_c.specs.HandleFollows.{follows_handle, follows_side};
ghost use Rattle.nr_c.specs.NamedHandles.{remains};
ghost use Rattle.nr_c.specs.declared.remains_side.RemainsSide.{RemainsSide as Held};

use crate::handle::Handle;
use crate::remains_handle::NrRemains;
use crate::remains_side::RemainsSide;

impl NrRemains {
    /// What the handle leads to, for a call.
    pub fn side(&mut self) -> &mut RemainsSide
        requires { (held : Held) × (self.old.live ≡ held ∷ []) }
        ensures* writes_back { sem 𝓛 (follows_side remains self.entry result) }
        ensures value { self.old.live ≡ result.now ∷ [] }
    {
        self.handle().token()
    }

    /// The same word without its name for C.
    pub fn handle(&mut self) -> &mut Handle<RemainsSide>
        ensures* writes_back { sem 𝓛 (follows_handle remains self.entry result) }
        ensures value { self.old ≡ remains.of result.now }
    {
        let whole = self as *mut NrRemains;
        unsafe { &mut *(whole as *mut Handle<RemainsSide>) }
    }
}
