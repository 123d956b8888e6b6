//! What a client by id has in its hands from get to get.
ghost use Rattle.std.specs.Prelude.{◌≡◌, None, Some};

use nr_idmap::{Claim, IdReader};
use nr_trigger::Poster;

/// A client's tokens, and the claim that it keeps.
pub struct IdHands {
    pub(crate) reader: IdReader,
    pub(crate) poster: Poster,
    /// At most one: that which found the queue full.
    pub(crate) kept: Option<Claim>,
}

impl IdHands {
    // Keeps a claim where none is kept.
    pub(crate) fn keep(&mut self, claim: Claim)
        requires { self.old.kept ≡ None }
        ensures { self.new ≡ record self.old { kept = Some claim } }
    {
        match self.kept.replace(claim) {
            None => {}
            Some(_) => unreachable!(),
        }
    }
}
