//! What the dataflow takes.
ghost use Rattle.std.specs.Prelude.{◌≡◌, None};

use crate::post::Post;
use nr_map::Note;
use std::marker::Model;

/// A ticket that was posted, for the dataflow to fill its key. It can't be dropped: it must be
/// spent by the fill of its key.
pub struct Trigger {
    post: Post,
}

impl Model for Trigger {
    ghost use Rattle.nr_trigger.specs.declared.post.Post.{Post as Posted};

    ghost Value = { Posted };

    ghost view = { λ trigger. trigger.post };
}

impl Trigger {
    pub(crate) fn of(post: Post) -> Trigger
        ensures { result ≡ post }
    {
        Trigger { post }
    }

    /// The key that was requested.
    pub fn key(&self) -> u32
        ensures { result ≡ self.now.upquery.key }
    {
        self.post.upquery.key
    }

    /// Which of the key's requests it is.
    pub fn number(&self) -> u64
        ensures { result ≡ self.now.upquery.number }
    {
        self.post.upquery.number
    }

    /// The note that was posted with the ticket, for one hearer. None where there was none, or it was
    /// taken out before.
    pub fn note(&mut self) -> Option<Note>
        ensures note { result ≡ self.old.note }
        ensures rest { self.new ≡ record self.old { note = None } }
    {
        self.post.note.take()
    }

    /// The key that was requested. The trigger is spent, and a note that it still has is dropped.
    pub fn into_key(self) -> u32
        ensures { result ≡ self.upquery.key }
    {
        let Trigger { post } = self;
        post.upquery.key
    }
}
