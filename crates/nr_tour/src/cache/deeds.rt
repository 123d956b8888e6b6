//! What was done to a store.
ghost use Rattle.std.specs.Prelude.{◌≡◌, ◌<◌};
ghost use Rattle.std.specs.VecDeque.{deque_capacity, deque_len};
ghost use Rattle.nr_tour.specs.Deeds.{with_begun, with_landed};

use nr_cache::{Begun, Flight, Landed};
use std::collections::VecDeque;

/// What a call did.
#[derive(Clone, Copy)]
pub enum Deed {
    /// A flight began.
    Began(Flight),
    /// The value is held that the flight of that number brought.
    Held(u64),
    /// An id was invalidated.
    Invalidated(u64),
}

/// Tells of a flight that began.
pub fn tell_begun(deeds: &mut VecDeque<Deed>, begun: Begun)
    requires room { deque_len deeds.old < deque_capacity deeds.old }
    ensures told { deeds.new.items ≡ with_begun begun deeds.old.items }
{
    match begun {
        Begun::Load(flight) => deeds.push_front_reserved(Deed::Began(flight)),
        Begun::Held | Begun::Wait(_) | Begun::Alone => {}
    }
}

/// Tells of a value that is held.
pub fn tell_landed(deeds: &mut VecDeque<Deed>, number: u64, landed: Landed)
    requires room { deque_len deeds.old < deque_capacity deeds.old }
    ensures told { deeds.new.items ≡ with_landed number landed deeds.old.items }
{
    match landed {
        Landed::Held(_) => deeds.push_front_reserved(Deed::Held(number)),
        Landed::Own => {}
    }
}
