//! Whose rows go where a group is full.
ghost use Rattle.std.specs.Prelude.{◌≡◌, ◌<◌, false, true};

/// Says which ids may be evicted.
pub trait Victims {
    ghost use Rattle.std.specs.Prelude.{ℕ, Bool};

    /// What they say when they were asked: of themselves before, the id, whether it may go, and themselves
    /// after. Nothing, unless they say so.
    ghost lets: { Self → ℕ → Bool → Self → Type 0 } = { λ _ _ _ _. Unit {0} };

    /// Whether this id may be evicted, so that another gets its way. It was chosen as `IdMap::choose` does.
    fn may_go(&mut self, id: u64) -> bool
        requires { 0 < id }
        ensures { lets self.old id result self.new };
}

/// Nobody may go.
#[derive(Clone, Copy, Debug)]
pub struct NoVictims;

impl Victims for NoVictims {
    ghost lets = { λ _ _ may_go _. may_go ≡ false };

    fn may_go(&mut self, _id: u64) -> bool {
        false
    }
}

/// Any id may go.
#[derive(Clone, Copy, Debug)]
pub struct AnyVictim;

impl Victims for AnyVictim {
    ghost lets = { λ _ _ may_go _. may_go ≡ true };

    fn may_go(&mut self, _id: u64) -> bool {
        true
    }
}
