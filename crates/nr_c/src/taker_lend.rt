//! `handle` and `side` have a file of their own: their clauses name the row of the handle, which the
//! file that declares it cannot import.
ghost use Rattle.std.specs.Prelude.{◌≡◌, [], ◌∷◌};
ghost use types.Logic.{sem};
ghost use Rattle.nr_c.specs.HandleFollows.{follows_handle, follows_side};
ghost use Rattle.nr_c.specs.NamedHandles.{taker};
ghost use Rattle.nr_c.specs.declared.taker_side.TakerSide.{TakerSide as Held};

use crate::handle::Handle;
use crate::taker_handle::NrTaker;
use crate::taker_side::TakerSide;

impl NrTaker {
    /// What the handle leads to, for a call.
    pub fn side(&mut self) -> &mut TakerSide
        requires { (held : Held) × (self.old.live ≡ held ∷ []) }
        ensures* writes_back { sem 𝓛 (follows_side taker self.entry result) }
        ensures value { self.old.live ≡ result.now ∷ [] }
    {
        self.handle().token()
    }

    /// The same word without its name for C.
    pub fn handle(&mut self) -> &mut Handle<TakerSide>
        ensures* writes_back { sem 𝓛 (follows_handle taker self.entry result) }
        ensures value { self.old ≡ taker.of result.now }
    {
        let whole = self as *mut NrTaker;
        unsafe { &mut *(whole as *mut Handle<TakerSide>) }
    }
}
