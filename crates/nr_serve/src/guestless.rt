//! The lobby's calls for a caller without a guest. Each makes a guest for its length, and contracts are told what
//! that guest saw and did.
ghost use Rattle.std.specs.Prelude.{◌≡◌, ◌<◌, ◌⊎◌, ◌++◌, ◌∷◌, ◌↔◌, [], IsTrue, slice_index};
ghost use Rattle.nr_serve.specs.Counts.{ClosesOnce, IsNew, RaisesOnly, Visits, closed_at, groups_below, whole_at};

use crate::lobby::Lobby;
use std::sync::Wait;

impl Lobby {
    /// How often the whole lobby was raised, up to 2^64 - 1.
    pub fn count<R: Wait>(&self, _rt: &R) -> u64
        ensures { Visits self.now (λ guest. IsNew guest × (slice_index guest.seen whole_at ≡ result)) }
    {
        let mut guest = self.guest();
        let count = self.count_as(&mut guest);
        guest.leave();
        count
    }

    /// Raises each count by one and wakes all sleepers. A raise of a count to 2^64 - 1 closes the
    /// lobby, and later ones change nothing.
    pub fn raise<R: Wait>(&self, rt: &R)
        ensures { Visits self.now (RaisesOnly (groups_below 64 ++ whole_at ∷ [])) }
    {
        let mut guest = self.guest();
        self.raise_as(rt, &mut guest);
        guest.leave();
    }

    /// Sleeps while the count of the whole lobby is at most `n` and it isn't closed, and tells the
    /// count after that.
    pub fn wait_past<R: Wait>(&self, rt: &R, n: u64) -> u64
        ensures { Visits self.now (λ guest. IsNew guest × (slice_index guest.seen whole_at ≡ result) × ((n < result) ⊎ (0 < slice_index guest.seen closed_at))) }
    {
        let mut guest = self.guest();
        self.wait_past_as(rt, &mut guest, n);
        let raised = self.count_as(&mut guest);
        guest.leave();
        raised
    }

    /// Closes it for good and wakes all sleepers; from now on nobody sleeps here.
    pub fn close<R: Wait>(&self, _rt: &R)
        ensures { Visits self.now ClosesOnce }
    {
        let mut guest = self.guest();
        self.close_as(&mut guest);
        guest.leave();
    }

    /// Whether it was closed.
    pub fn is_closed<R: Wait>(&self, _rt: &R) -> bool
        ensures { Visits self.now (λ guest. IsNew guest × (IsTrue result ↔ (0 < slice_index guest.seen closed_at))) }
    {
        let mut guest = self.guest();
        let is_closed = self.is_closed_as(&mut guest);
        guest.leave();
        is_closed
    }
}
