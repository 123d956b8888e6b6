//! What a poster's handle leads to.
ghost use Rattle.std.specs.Prelude.{◌≡◌};

use nr_trigger::{Poster, Triggers};
use std::alloc::Global;
use std::sync::Arc;

/// A poster with its share of the queue, with which it begins as the taker's side does, and whose keys
/// are below that number.
#[derive(Drop)]
#[repr(C)]
pub struct PosterSide {
    pub queue: Arc<Triggers, Global>,
    pub poster: Poster,
    pub keys: u32,
    ghost own: { poster.queue ≡ queue.value.id },
    ghost below: { poster.keys ≡ keys },
}
