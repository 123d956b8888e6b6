//! `token` has a file of its own: its clause names the row of the handle, which the file that
//! declares it cannot import.
ghost use Rattle.std.specs.Prelude.{◌≡◌, [], ◌∷◌};
ghost use types.Logic.{sem};
ghost use Rattle.nr_c.specs.HandleFollows.{follows_token};

use crate::handle::Handle;

impl<T> Handle<T> {
    /// What the handle leads to, for a call.
    pub fn token(&mut self) -> &mut T
        requires { (held : T) × (self.old.live ≡ held ∷ []) }
        ensures* writes_back { sem 𝓛 (follows_token T.row self.entry result) }
        ensures value { self.old.live ≡ result.now ∷ [] }
    {
        let ptr = self.ptr;
        unsafe { &mut *ptr }
    }
}
