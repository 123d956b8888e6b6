//! What goes through the queue.
ghost use Rattle.std.specs.Prelude.{◌≡◌};
ghost use Rattle.nr_trigger.specs.Posts.{upquery_of};

use nr_map::{Note, Ticket};

/// What a ticket names: the key whose rows are wanted, and the request's ticket number.
#[derive(Clone, Copy, Debug, PartialEq, Eq)]
pub struct Upquery {
    pub key: u32,
    pub number: u64,
}

impl Upquery {
    pub(crate) fn of(ticket: &Ticket) -> Upquery
        ensures { result ≡ upquery_of ticket.now }
    {
        Upquery {
            key: ticket.key(),
            number: ticket.number(),
        }
    }
}

/// An upquery on its way, with the number of its poster and, where it sent one along, a note of what
/// the asker had seen.
#[derive(Drop)]
pub struct Post {
    pub poster: u32,
    pub upquery: Upquery,
    pub note: Option<Note>,
}
