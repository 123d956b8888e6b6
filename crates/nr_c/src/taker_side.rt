//! What the taker's handle leads to.
ghost use Rattle.std.specs.Prelude.{◌≡◌, All};

use nr_trigger::{Poster, Taker, Triggers};
use std::alloc::Global;
use std::sync::Arc;

/// The taker with its share of the queue, and the posters that no handle has yet. The queue's keys
/// are below that number.
/// It begins with the queue, by whose place what `embed/null` makes tells two queues apart.
#[derive(Drop)]
#[repr(C)]
pub struct TakerSide {
    pub queue: Arc<Triggers, Global>,
    pub taker: Taker,
    pub spare: Vec<Poster, Global>,
    pub keys: u32,
    ghost own: { taker.queue ≡ queue.value.id },
    ghost spares: { All (λ poster. poster.queue ≡ queue.value.id) spare.items },
    ghost below: { taker.keys ≡ keys },
    ghost each_below: { All (λ poster. poster.keys ≡ keys) spare.items },
}
