//! What a client has in its hands from get to get.
ghost use Rattle.std.specs.Prelude.{◌≡◌, None, Some};
ghost use Rattle.nr_board.specs.Meetings.{with_steps};
ghost use Rattle.nr_map.specs.Hands.{idle};

use core::mem::replace_with;
use nr_map::{Hand, Note, Reader, ReaderMap, Ticket};
use nr_trigger::Poster;
use std::marker::Model;

/// A client's tokens, the ticket that it keeps, and its count of requests that were sent. Its reader holds a
/// set within a try alone.
pub struct Hands {
    pub(crate) reader: Hand,
    pub(crate) poster: Poster,
    /// At most one: that which the full queue handed back.
    pub(crate) kept: Option<Ticket>,
    /// Requests answered `Send`, up to 2^64 - 1.
    pub(crate) sends: u64,
}

impl Model for Hands {
    ghost use Rattle.std.specs.Prelude.{◌≡◌, None};
    ghost use Rattle.nr_serve.specs.Hands.{HandsSeen};

    ghost Value = { HandsSeen };

    ghost view = { λ hands. record { reader = hands.reader.reader; poster = hands.poster; kept = hands.kept; sends = hands.sends } };

    ghost invariant = { λ hands. hands.reader.key ≡ None };
}

impl Hands {
    /// With no ticket, before the first request.
    pub(crate) fn of(reader: Reader, poster: Poster) -> Hands
        ensures { result ≡ record { reader = reader; poster = poster; kept = None; sends = 0 } }
    {
        Hands {
            reader: Hand::of(reader),
            poster,
            kept: None,
            sends: 0,
        }
    }

    // Keeps a ticket where none is kept.
    pub(crate) fn keep(&mut self, ticket: Ticket)
        requires { self.old.kept ≡ None }
        ensures { self.new ≡ record self.old { kept = Some ticket } }
    {
        match self.kept.replace(ticket) {
            None => {}
            Some(_) => unreachable!(),
        }
    }
}

/// Makes two notes of one, as the map's `split_note`, by a reader that holds no set.
pub(crate) fn split_by_hand(map: &ReaderMap, reader: &mut Hand, note: Note) -> (Note, Note)
    requires own { (note.table ≡ map.now) × (reader.old.reader.table ≡ map.now) }
    requires idle { reader.old.key ≡ None }
    ensures reader { reader.new ≡ idle (with_steps 3 reader.old.reader) }
    ensures notes { result ≡ (note, note) }
{
    replace_with(reader, (map, note), split)
}

fn split(reader: Hand, of: (&ReaderMap, Note)) -> (Hand, (Note, Note))
    requires own { let (map, note) = of in (note.table ≡ map.now) × (reader.reader.table ≡ map.now) }
    requires idle { reader.key ≡ None }
    ensures reader { let (after, _) = result in after ≡ idle (with_steps 3 reader.reader) }
    ensures notes { let (_, note) = of.entry in let (_, notes) = result in notes ≡ (note, note) }
{
    let (map, note) = of;
    let mut reader = reader.into_reader(map);
    let notes = map.split_note(&mut reader, note);
    (Hand::of(reader), notes)
}
