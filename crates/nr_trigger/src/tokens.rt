//! What the threads post and take with.
use crate::attempts::Attempts;
use crate::post::Post;
use crate::view::View;
use crossbeam_queue::Pass;
use std::marker::Model;

/// What a thread posts with.
#[derive(Drop)]
pub struct Poster {
    pub(crate) seat: Pass<Post, View>,
    pub(crate) number: u32,
    pub(crate) tries: Attempts,
}

impl Model for Poster {
    ghost use Rattle.std.specs.Prelude.{◌≡◌, []};
    ghost use Rattle.crossbeam_queue.specs.Passes.{view as known};
    ghost use Rattle.nr_board.specs.Views.{carried_by};
    ghost use Rattle.nr_trigger.specs.Views.{Poster as PosterKnows, posting_of};
    ghost use Rattle.nr_trigger.specs.Tokens.{PosterSeen, poster_seen};

    ghost Value = { PosterSeen };

    ghost view = { λ poster. poster_seen poster.seat.table_id (posting_of (known poster.seat)) poster.tries.made };

    ghost invariant = { λ poster. (carried_by poster.seat ≡ []) × (known poster.seat ≡ PosterKnows (posting_of (known poster.seat))) × (poster.number ≡ (posting_of (known poster.seat)).number) };
}

/// What the dataflow's thread takes with.
#[derive(Drop)]
pub struct Taker {
    pub(crate) seat: Pass<Post, View>,
    pub(crate) tries: Attempts,
}

impl Model for Taker {
    ghost use Rattle.std.specs.Prelude.{◌≡◌, []};
    ghost use Rattle.crossbeam_queue.specs.Passes.{view as known};
    ghost use Rattle.nr_board.specs.Views.{carried_by};
    ghost use Rattle.nr_trigger.specs.Views.{Taker as TakerKnows, taking_of};
    ghost use Rattle.nr_trigger.specs.Tokens.{TakerSeen, taker_seen};

    ghost Value = { TakerSeen };

    ghost view = { λ taker. taker_seen taker.seat.table_id (taking_of (known taker.seat)) taker.tries.made };

    ghost invariant = { λ taker. (carried_by taker.seat ≡ []) × (known taker.seat ≡ TakerKnows (taking_of (known taker.seat))) };
}
