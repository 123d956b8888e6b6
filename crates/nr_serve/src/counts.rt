//! The counts of a lobby. Their table is private to this module, whose functions make one step each.
ghost use Rattle.std.specs.Prelude.{◌≡◌, ◌≢◌, ◌<◌, ◌++◌, ◌∷◌, ◌+◌, [], IfOk, MatchBool, slice_index};
ghost use Rattle.nr_serve.specs.Hands.{capped, last_count};
ghost use Rattle.nr_serve.specs.Counts.{HasLeft, IsLaterOf, IsNew, OnlyLooks, closed_at};

use atomic_table::{Play, Seat, Table, TableRule};
use std::alloc::{AllocError, Global};
use std::marker::Model;

/// How many numbers there are.
const NUMBERS: usize = 536;

/// The place of the number that is above 0 once the lobby is closed.
pub(crate) const CLOSED_AT: usize = 520;

/// For contracts alone, which see it as the data of that name. No value of it is made.
pub struct View {}

impl Model for View {
    ghost use Rattle.nr_serve.specs.Counts.{Visit, new_guest};

    ghost Value = { Visit };

    ghost view = { λ _. new_guest };
}

pub struct Rule;

impl TableRule<(), View, ()> for Rule {
    ghost use Rattle.nr_serve.specs.Counts.{AreCounts, new_guest};

    ghost holds = { λ _. AreCounts };

    ghost first = { λ _. new_guest };
}

struct Looks;

impl Play<(), View> for Looks {
    ghost use Rattle.nr_serve.specs.Counts.{has_read_count};

    ghost then = { has_read_count };
}

struct Closes;

impl Play<(), View> for Closes {
    ghost use Rattle.nr_serve.specs.Counts.{has_closed};

    ghost then = { has_closed };
}

struct Raises;

impl Play<(), View> for Raises {
    ghost use Rattle.nr_serve.specs.Counts.{has_raised};

    ghost then = { has_raised };
}

/// What a thread has seen of a lobby, and what it did there. It has no bytes.
#[derive(Drop)]
pub struct Guest {
    seat: Seat<(), View>,
}

impl Model for Guest {
    ghost use Rattle.nr_board.specs.Views.{view_of};
    ghost use Rattle.nr_serve.specs.Counts.{GuestSeen};

    ghost Value = { GuestSeen };

    ghost view = { λ guest. record { lobby = guest.seat.table_id; seen = (view_of guest.seat).seen; raised = (view_of guest.seat).raised; closes = (view_of guest.seat).closes } };
}

impl Guest {
    /// Ends its visit, of which contracts can tell from now on.
    pub(crate) fn leave(self)
        ensures { HasLeft self }
    {}
}

/// The numbers that the guests of a lobby share.
#[derive(Drop)]
pub(crate) struct Counts {
    table: Table<(), View, (), Rule, Global>,
}

impl Model for Counts {
    ghost use Rattle.std.specs.Prelude.{◌≡◌};
    ghost use Rattle.atomic_table.specs.Seated.{TableId};

    ghost Value = { TableId };

    ghost view = { λ counts. counts.table.shared.table_id };

    ghost invariant = { λ counts. counts.table.shared.table_id.words ≡ 536 };
}

impl Counts {
    /// Each is 0.
    pub(crate) fn open(alloc: Global) -> Result<Counts, AllocError> {
        let (table, _) = Table::of_words(alloc, &[0; NUMBERS], &())?;
        Ok(Counts { table })
    }

    /// The number at a place, found by a guest that has raised nothing.
    pub(crate) fn enter(&self, place: usize) -> (u64, Guest)
        requires { place < 536 }
        ensures lobby { let (_, guest) = result in guest.lobby ≡ self.now }
        ensures new { let (_, guest) = result in IsNew guest }
        ensures found { let (found, guest) = result in slice_index guest.seen place ≡ found }
    {
        let (found, seat) = self.table.shared.load_new_seat::<Looks>(place);
        (found, Guest { seat })
    }

    /// The number at a place.
    pub(crate) fn at(&self, guest: &mut Guest, place: usize) -> u64
        requires lobby { guest.old.lobby ≡ self.now }
        requires place { place < 536 }
        ensures looks { OnlyLooks guest.old guest.new }
        ensures found { slice_index guest.new.seen place ≡ result }
    {
        self.table.shared.load::<Looks>(&mut guest.seat, place)
    }

    pub(crate) fn close(&self, guest: &mut Guest)
        requires lobby { guest.old.lobby ≡ self.now }
        ensures raised { guest.new.raised ≡ guest.old.raised }
        ensures closes { guest.new.closes ≡ guest.old.closes + 1 }
        ensures later { IsLaterOf guest.old guest.new }
        ensures closed { 0 < slice_index guest.new.seen closed_at }
    {
        self.table
            .shared
            .fetch_max::<Closes>(&mut guest.seat, CLOSED_AT, 1);
    }

    /// Raises the count at a place from `count` to `next`, unless it is another, and says whether
    /// it did.
    pub(crate) fn raise(&self, guest: &mut Guest, place: usize, count: u64, next: u64) -> bool
        requires lobby { guest.old.lobby ≡ self.now }
        requires place { (place < 536) × (place ≢ closed_at) }
        requires next { next ≡ capped (count + 1) }
        requires last { next ≡ last_count → 0 < slice_index guest.old.seen closed_at }
        ensures raised { MatchBool result (guest.new.raised ≡ guest.old.raised ++ place ∷ []) (guest.new.raised ≡ guest.old.raised) }
        ensures closes { guest.new.closes ≡ guest.old.closes }
        ensures later { IsLaterOf guest.old guest.new }
    {
        let shared = &self.table.shared;
        let found = shared.compare_exchange::<Raises>(&mut guest.seat, place, count, next);
        found == count
    }
}
