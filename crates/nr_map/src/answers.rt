//! What a request answers.
use crate::ticket::Ticket;

/// The answer to a request.
pub enum Asked {
    /// Nobody asked before: the owner of the ticket sends the upquery.
    Send(Ticket),
    /// An upquery is under way.
    Waiting,
    /// The key is filled.
    Filled,
}
