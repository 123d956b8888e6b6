//! The attempts on the queue, each of which its token counts.
ghost use Rattle.std.specs.Prelude.{◌≡◌, ◌<◌, ◌+◌, ◌++◌, ◌∷◌, ℕ, [], IfErr, IfOk, MatchOption, MatchResult, None};
ghost use Rattle.nr_trigger.specs.declared.faults.PostFault.TheVariants.{Full as full};
ghost use Rattle.nr_trigger.specs.declared.faults.TakeFault.TheVariants.{Empty as empty};
ghost use Rattle.nr_trigger.specs.Tokens.{IsSamePoster, IsSameTaker, WasEmpty, WasFull, poster_tried, taker_tried};
ghost use Rattle.nr_trigger.specs.Posts.{IsNoteOf};

use crate::faults::{PostFault, TakeFault};
use crate::post::{Post, Upquery};
use crate::rule::{Pops, Pushes};
use crate::tokens::{Poster, Taker};
use crate::triggers::Triggers;
use nr_map::Note;
use std::marker::Model;
use std::sync::Wait;

/// How many attempts a token has made, for contracts alone: nothing of it runs.
#[derive(Drop)]
pub(crate) struct Attempts {
    pub(crate) ghost made: { ℕ },
}

impl Model for Attempts {
    ghost use Rattle.std.specs.Borrow.{ftrue};

    ghost also_owns = { λ _. ftrue };
}

// A count owns nothing, so it goes where its token goes.
unsafe impl Send for Attempts {}

impl Attempts {
    pub(crate) fn none() -> Attempts
        ensures { result.made ≡ 0 }
    {
        Attempts {}
    }

    // One more, which is made next.
    #[inline(always)]
    fn then(&self) -> Attempts
        ensures { result.made ≡ self.now.made + 1 }
    {
        Attempts {}
    }
}

impl Triggers {
    /// Puts it at the back, as this poster's. It comes back where the queue was full.
    pub(crate) fn push<R: Wait>(
        &self,
        rt: &R,
        poster: &mut Poster,
        upquery: Upquery,
        note: Option<Note>,
    ) -> Result<(), Post>
        requires own { poster.old.queue ≡ self.now.id }
        requires key { upquery.key < poster.old.keys }
        requires note { IsNoteOf poster.old.map note }
        ensures own { IsSamePoster poster.old poster.new }
        ensures tries { poster.new.tries ≡ poster.old.tries + 1 }
        ensures posted { MatchResult result (λ _. poster.new.posted ≡ poster.old.posted ++ upquery ∷ []) (λ back. (back.note ≡ note) × (poster.new ≡ poster_tried poster.old)) }
        ensures notes { IfOk result (λ _. poster.new.notes ≡ poster.old.notes ++ note ∷ []) }
        ensures full { IfErr result (λ _. WasFull self.now.capacity poster.old) }
    {
        let post = Post {
            poster: poster.number,
            upquery,
            note,
        };
        poster.tries = poster.tries.then();
        self.queue.push_as::<Pushes, R>(rt, &mut poster.seat, post)
    }

    /// Takes what is at the front.
    pub(crate) fn pop<R: Wait>(&self, rt: &R, taker: &mut Taker) -> Option<Post>
        requires own { taker.old.queue ≡ self.now.id }
        ensures own { IsSameTaker taker.old taker.new }
        ensures tries { taker.new.tries ≡ taker.old.tries + 1 }
        ensures taken { MatchOption result (taker.new ≡ taker_tried taker.old) (λ post. taker.new.taken ≡ taker.old.taken ++ post ∷ []) }
        ensures key { MatchOption result (WasEmpty taker.old) (λ post. (post.upquery.key < taker.old.keys) × IsNoteOf taker.old.map post.note) }
    {
        taker.tries = taker.tries.then();
        self.queue.pop_as::<Pops, R>(rt, &mut taker.seat)
    }

    /// Puts it at the back as this poster's, if one attempt does.
    pub(crate) fn try_push(&self, poster: &mut Poster, upquery: Upquery) -> Result<(), PostFault>
        requires own { poster.old.queue ≡ self.now.id }
        requires key { upquery.key < poster.old.keys }
        ensures own { IsSamePoster poster.old poster.new }
        ensures tries { poster.new.tries ≡ poster.old.tries + 1 }
        ensures posted { MatchResult result (λ _. (poster.new.posted ≡ poster.old.posted ++ upquery ∷ []) × (poster.new.notes ≡ poster.old.notes ++ None ∷ [])) (λ _. poster.new ≡ poster_tried poster.old) }
        ensures full { IfErr result (λ fault. fault ≡ full → WasFull self.now.capacity poster.old) }
    {
        let post = Post {
            poster: poster.number,
            upquery,
            note: None,
        };
        poster.tries = poster.tries.then();
        match self.queue.try_push_as::<Pushes>(&mut poster.seat, post) {
            Ok(()) => Ok(()),
            Err(back) => {
                drop(back);
                Err(self.obstacle_to_push(poster))
            }
        }
    }

    // Why an attempt to push failed that was made just now.
    fn obstacle_to_push(&self, poster: &mut Poster) -> PostFault
        requires own { poster.old.queue ≡ self.now.id }
        ensures same { poster.new ≡ poster.old }
        ensures full { result ≡ full → WasFull self.now.capacity poster.old }
    {
        if self.queue.is_full_as::<Pushes>(&mut poster.seat) {
            return PostFault::Full;
        }
        PostFault::InTheWay
    }

    /// Takes what is at the front, if one attempt does.
    pub(crate) fn try_pop(&self, taker: &mut Taker) -> Result<Post, TakeFault>
        requires own { taker.old.queue ≡ self.now.id }
        ensures own { IsSameTaker taker.old taker.new }
        ensures tries { taker.new.tries ≡ taker.old.tries + 1 }
        ensures taken { MatchResult result (λ post. (taker.new.taken ≡ taker.old.taken ++ post ∷ []) × (post.upquery.key < taker.old.keys) × IsNoteOf taker.old.map post.note) (λ _. taker.new ≡ taker_tried taker.old) }
        ensures empty { IfErr result (λ fault. fault ≡ empty → WasEmpty taker.old) }
    {
        taker.tries = taker.tries.then();
        match self.queue.try_pop_as::<Pops>(&mut taker.seat) {
            Some(post) => Ok(post),
            None => Err(self.obstacle_to_pop(taker)),
        }
    }

    // Why an attempt to pop failed that was made just now.
    fn obstacle_to_pop(&self, taker: &mut Taker) -> TakeFault
        requires own { taker.old.queue ≡ self.now.id }
        ensures same { taker.new ≡ taker.old }
        ensures empty { result ≡ empty → WasEmpty taker.old }
    {
        if self.queue.is_empty_as::<Pops>(&mut taker.seat) {
            return TakeFault::Empty;
        }
        TakeFault::InTheWay
    }
}
