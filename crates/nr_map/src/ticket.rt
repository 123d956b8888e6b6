//! The ticket of a request that has to be sent.
ghost use Rattle.std.specs.Prelude.{◌≡◌, ◌<◌};

use nr_board::Board;
use std::marker::Model;
use std::snapshot::Snapshot;

/// One request that was answered `Send`, with its ticket number, by which it is filled. It can't be
/// dropped: it must be spent by the sender of the upquery. Contracts see its map too.
pub struct Ticket {
    key: u32,
    number: u64,
    map: Snapshot<Board>,
}

impl Model for Ticket {
    ghost use Rattle.std.specs.Prelude.{◌<◌};
    ghost use Rattle.nr_map.specs.Tickets.{Request};

    ghost Value = { Request };

    ghost view = { λ ticket. record { table = ticket.map.value; key = ticket.key; number = ticket.number } };

    ghost invariant = { λ ticket. ticket.key < ticket.map.value.shape.keys };
}

impl Ticket {
    pub(crate) fn of(map: &Board, key: u32, number: u64) -> Ticket
        requires { key < map.now.shape.keys }
        ensures { result ≡ record { table = map.now; key = key; number = number } }
    {
        Ticket {
            key,
            number,
            map: Snapshot::of(map),
        }
    }

    /// The key that was requested.
    pub fn key(&self) -> u32
        ensures key { result ≡ self.now.key }
        ensures near { result < self.now.table.shape.keys }
    {
        self.key
    }

    /// The ticket number, which the fill names.
    pub fn number(&self) -> u64
        ensures { result ≡ self.now.number }
    {
        self.number
    }

    /// The key that was requested. The ticket is spent.
    pub fn into_key(self) -> u32
        ensures key { result ≡ self.key }
        ensures near { result < self.table.shape.keys }
    {
        let Ticket {
            key,
            number: _,
            map: _,
        } = self;
        key
    }
}
