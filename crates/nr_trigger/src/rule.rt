//! The rule of the queue, and what each kind of step tells.
ghost use Rattle.nr_trigger.specs.Posts.{Limits};

use crate::post::Post;
use crate::view::View;
use crossbeam_queue::protocol::{Lesson, Outcome, Protocol, Split};
use std::marker::{Brand, PhantomData};

pub struct Rule;

impl Protocol<Post, View> for Rule {
    ghost use Rattle.nr_trigger.specs.Views.{Opener};
    ghost use Rattle.nr_trigger.specs.Delivers.{Delivers};

    ghost holds = { Delivers };

    ghost first = { Opener };
}

/// What may go through the queue, for the proof alone.
pub trait Limit {
    ghost limits: { Limits };
}

impl Limit for Brand {
    ghost use Rattle.nr_trigger.specs.Posts.{without_notes};

    ghost limits = { without_notes 0 };
}

/// The first pass becomes the taker's.
pub struct Begins<L> {
    limit: PhantomData<L>,
}

impl<L: Limit> Split<View> for Begins<L> {
    ghost use Rattle.nr_trigger.specs.Views.{Leftover, opening_taker};

    ghost left = { λ _. opening_taker L.limits };

    ghost right = { λ _. Leftover };
}

/// The taker makes the next poster.
pub struct Seats;

impl Split<View> for Seats {
    ghost use Rattle.nr_trigger.specs.Views.{next_poster, with_poster};

    ghost left = { with_poster };

    ghost right = { next_poster };
}

/// A push, and a push that found the queue full.
pub struct Pushes;

impl Outcome<Post, View> for Pushes {
    ghost use Rattle.nr_trigger.specs.Views.{has_posted};

    ghost then = { has_posted };
}

impl Lesson<Post, View> for Pushes {
    ghost use Rattle.nr_trigger.specs.Delivers.{Moment};

    ghost fact = { Moment };
}

/// A pop, and a pop that found the queue empty.
pub struct Pops;

impl Outcome<Post, View> for Pops {
    ghost use Rattle.nr_trigger.specs.Views.{has_taken};

    ghost then = { has_taken };
}

impl Lesson<Post, View> for Pops {
    ghost use Rattle.nr_trigger.specs.Delivers.{Moment};

    ghost fact = { Moment };
}
