//! The lobby as a client has it.
ghost use Rattle.std.specs.Prelude.{◌≡◌, ◌<◌, ◌⊎◌, ◌↔◌, ◌∷◌, [], IfErr, IfOk, IsTrue, slice_index};
ghost use Rattle.nr_serve.specs.Counts.{IsNew, OnlyLooks, Raises, closed_at, failed_at, group_at, rung_at, told_at};
ghost use Rattle.nr_serve.specs.Gets.{AwaitsFill};

use crate::answers::Requested;
use crate::counts::Guest;
use crate::hands::Hands;
use crate::lobby::Lobby;
use crate::sleepers::{Limit, TooLate};
use std::marker::Model;
use std::snapshot::Snapshot;
use std::sync::Wait;

/// The count of a key's group, and what the client had in its hands when it read that.
#[derive(Drop)]
pub(crate) struct Counted {
    key: u32,
    count: u64,
    hands: Snapshot<Hands>,
}

/// A lobby with a client's own guest, by which alone one looks, sleeps and rings the bell there.
/// Nothing else of it is raised through this. For crates whose clients sleep in a lobby.
#[derive(Drop)]
pub struct Watched<'a> {
    lobby: &'a Lobby,
    guest: Guest,
}

impl<'a> Model for Watched<'a> {
    ghost use Rattle.std.specs.Prelude.{◌≡◌};
    ghost use Rattle.nr_serve.specs.Counts.{GuestSeen};

    ghost Value = { GuestSeen };

    ghost view = { λ watched. watched.guest };

    ghost invariant = { λ watched. watched.guest.lobby ≡ watched.lobby.now };
}

impl<'a> Watched<'a> {
    /// With a new guest.
    pub fn of(lobby: &'a Lobby) -> Watched<'a>
        ensures lobby { result.lobby ≡ lobby.now }
        ensures new { IsNew result }
    {
        let guest = lobby.guest();
        Watched { lobby, guest }
    }

    /// How often the lobby was raised for the keys of this one's group.
    #[inline(always)]
    pub fn group_count(&mut self, key: u32) -> u64
        ensures looks { OnlyLooks self.old self.new }
        ensures found { slice_index self.new.seen (group_at key) ≡ result }
    {
        self.lobby.count_for(&mut self.guest, key)
    }

    /// Sleeps while the count of this key's group is at most `n` and the lobby isn't closed, within the
    /// limit. A thread that waits for another's work reads the count before it looks for that work.
    pub fn wait_within<L: Limit<R>, R: Wait>(
        &mut self,
        rt: &R,
        key: u32,
        n: u64,
        limit: &L,
    ) -> Result<(), TooLate>
        ensures looks { OnlyLooks self.old self.new }
        ensures past { IfOk result (λ _. (n < slice_index self.new.seen (group_at key)) ⊎ (0 < slice_index self.new.seen closed_at)) }
        ensures late { IfErr result (λ late. L.lapses limit.now late) }
    {
        self.lobby.wait_within(rt, &mut self.guest, key, n, limit)
    }

    /// The count of this key's group, for a client that makes a try then.
    #[inline(always)]
    pub(crate) fn count_for(&mut self, key: u32, hands: &Hands) -> Counted
        ensures looks { OnlyLooks self.old self.new }
        ensures found { slice_index self.new.seen (group_at key) ≡ result.count }
        ensures key { result.key ≡ key }
        ensures hands { result.hands.value ≡ hands.now }
    {
        Counted {
            key,
            count: self.group_count(key),
            hands: Snapshot::of(hands),
        }
    }

    /// How often the rows of a key of this one's group couldn't be had.
    pub fn failures_for(&mut self, key: u32) -> u64
        ensures looks { OnlyLooks self.old self.new }
        ensures found { slice_index self.new.seen (failed_at key) ≡ result }
    {
        self.lobby.failures_for(&mut self.guest, key)
    }

    /// Sleeps after a try that was made since the count was read, and to which a fill is to come: while
    /// the count of the key's group is at most that and the lobby isn't closed, within the limit.
    pub(crate) fn wait_past<L: Limit<R>, R: Wait>(
        &mut self,
        rt: &R,
        counted: &Counted,
        requested: &Requested,
        hands: &Hands,
        limit: &L,
    ) -> Result<(), TooLate>
        requires { AwaitsFill counted.now.key counted.now.hands.value hands.now requested.now }
        ensures looks { OnlyLooks self.old self.new }
        ensures past { IfOk result (λ _. (counted.now.count < slice_index self.new.seen (group_at counted.now.key)) ⊎ (0 < slice_index self.new.seen closed_at)) }
        ensures late { IfErr result (λ late. L.lapses limit.now late) }
    {
        let _ = requested;
        let _ = hands;
        self.wait_within(rt, counted.key, counted.count, limit)
    }

    /// How often the dataflow told how much it has applied.
    pub fn tellings(&mut self) -> u64
        ensures looks { OnlyLooks self.old self.new }
        ensures found { slice_index self.new.seen told_at ≡ result }
    {
        self.lobby.tellings(&mut self.guest)
    }

    /// Sleeps while the dataflow has told at most `tellings` times how much it has applied, and the lobby
    /// isn't closed. A thread that is about to sleep reads that number before it looks for what was told.
    pub fn wait_for_telling<R: Wait>(&mut self, rt: &R, tellings: u64)
        ensures looks { OnlyLooks self.old self.new }
        ensures past { (tellings < slice_index self.new.seen told_at) ⊎ (0 < slice_index self.new.seen closed_at) }
    {
        self.lobby.wait_for_telling(rt, &mut self.guest, tellings);
    }

    /// Whether the lobby is closed.
    pub fn is_closed(&mut self) -> bool
        ensures looks { OnlyLooks self.old self.new }
        ensures closed { IsTrue result ↔ (0 < slice_index self.new.seen closed_at) }
    {
        self.lobby.is_closed_as(&mut self.guest)
    }

    /// Rings the bell, once a ticket was posted.
    pub fn ring<R: Wait>(&mut self, rt: &R)
        ensures { Raises (rung_at ∷ []) self.old self.new }
    {
        self.lobby.ring(rt, &mut self.guest);
    }
}
