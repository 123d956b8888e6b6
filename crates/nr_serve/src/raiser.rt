//! The lobby as a dataflow has it.
ghost use Rattle.std.specs.Prelude.{◌≡◌, ◌∷◌, [], slice_index};
ghost use Rattle.nr_serve.specs.Counts.{IsNew, OnlyLooks, Raises, fails_for, raises_for, rung_at, told_at};
ghost use Rattle.nr_serve.specs.Turns.{AwaitsPost};

use crate::counts::Guest;
use crate::lobby::Lobby;
use nr_trigger::Taker;
use std::marker::Model;
use std::snapshot::Snapshot;
use std::sync::Wait;

/// How often the bell was rung, and what the taker had taken when that was read.
#[derive(Drop)]
pub struct Rung {
    rings: u64,
    taker: Snapshot<Taker>,
}

impl Model for Rung {
    ghost use Rattle.nr_serve.specs.Rings.{RungSeen};

    ghost Value = { RungSeen };

    ghost view = { λ rung. record { rings = rung.rings; taker = rung.taker.value } };
}

/// A lobby with the dataflow's own guest, through which alone it is raised here. For crates whose
/// dataflows raise a lobby.
#[derive(Drop)]
pub struct Raiser<'a> {
    lobby: &'a Lobby,
    guest: Guest,
}

impl<'a> Model for Raiser<'a> {
    ghost use Rattle.std.specs.Prelude.{◌≡◌};
    ghost use Rattle.nr_serve.specs.Counts.{GuestSeen};

    ghost Value = { GuestSeen };

    ghost view = { λ raiser. raiser.guest };

    ghost invariant = { λ raiser. raiser.guest.lobby ≡ raiser.lobby.now };
}

impl<'a> Raiser<'a> {
    /// With a new guest.
    pub fn of(lobby: &'a Lobby) -> Raiser<'a>
        ensures lobby { result.lobby ≡ lobby.now }
        ensures new { IsNew result }
    {
        let guest = lobby.guest();
        Raiser { lobby, guest }
    }

    /// Raises the count of this key's group and that of the whole lobby.
    pub fn raise_for<R: Wait>(&mut self, rt: &R, key: u32)
        ensures { Raises (raises_for key) self.old self.new }
    {
        self.lobby.raise_for(rt, &mut self.guest, key);
    }

    /// As `raise_for`, and counts for the key's group that a source failed.
    pub fn fail_for<R: Wait>(&mut self, rt: &R, key: u32)
        ensures { Raises (fails_for key) self.old self.new }
    {
        self.lobby.fail_for(rt, &mut self.guest, key);
    }

    /// Wakes those who wait until more was applied, once that was told.
    pub fn tell<R: Wait>(&mut self, rt: &R)
        ensures { Raises (told_at ∷ []) self.old self.new }
    {
        self.lobby.tell(rt, &mut self.guest);
    }

    /// How often the bell was rung, for a dataflow that looks then what was posted.
    pub fn rings(&mut self, taker: &Taker) -> Rung
        ensures looks { OnlyLooks self.old self.new }
        ensures rung { result ≡ record { rings = slice_index self.new.seen rung_at; taker = taker.now } }
    {
        Rung {
            rings: self.lobby.rings(&mut self.guest),
            taker: Snapshot::of(taker),
        }
    }

    /// Sleeps after one look since the bell was read, which found nothing posted: until it was rung
    /// since, or the lobby is closed.
    pub fn wait_for_ring<R: Wait>(&mut self, rt: &R, rung: &Rung, taker: &Taker)
        requires { AwaitsPost rung.now.taker taker.now }
        ensures { OnlyLooks self.old self.new }
    {
        let _ = taker;
        self.lobby.wait_for_ring(rt, &mut self.guest, rung.rings);
    }
}
