//! What opens a queue of requests and its handles, and what ends them.
ghost use Rattle.std.specs.Prelude.{◌≡◌, ◌↔◌, ◌⊎◌, ℕ, [], Err, IfOk, IfErr};
ghost use Rattle.nr_model.specs.Sizes.{IsBadSize};
ghost use Rattle.nr_core.specs.declared.shape.TheConstants.{MAX_LARGE_READERS, MAX_LARGE_SLOTS};
ghost use Rattle.nr_c.specs.Endings.{EndsSide};
ghost use Rattle.nr_c.specs.Live.{WhenBothLive, WhenEmpty, WhenOther};
ghost use Rattle.nr_c.specs.Queues.{IsNewQueue, OneQueue, OpensQueue, ReturnsPoster, TakesPoster};

use crate::codes::{NR_BAD_SIZE, NR_CLOSED, NR_DONE, NR_LIVE, NR_NO_MEMORY, NR_NO_POSTER};
use crate::ending::leave;
use crate::poster_handle::NrPoster;
use crate::poster_side::PosterSide;
use crate::taker_handle::NrTaker;
use crate::taker_side::TakerSide;
use nr_model::OpenFault;
use nr_trigger::{Poster, Triggers};
use std::alloc::Global;
use std::sync::Arc;

/// Opens a queue for requests of keys below a number, and makes the taker's handle live. Answers
/// `NR_DONE`; `NR_LIVE` where the handle is live already; `NR_BAD_SIZE` where a size is out of its
/// limits, a capacity of 1 to 4,194,303 requests and 1 to 65,535 posters; or `NR_NO_MEMORY`. The handle
/// stays as it was where it isn't done.
#[unsafe(no_mangle)]
pub extern "C" fn nr_open_queue(
    alloc: Global,
    keys: u32,
    capacity: u32,
    posters: u32,
    taker: &mut NrTaker,
) -> u32
    ensures { WhenEmpty (OpensQueue capacity posters keys) taker.old.live taker.new.live result }
{
    if taker.is_live() {
        return NR_LIVE;
    }
    match opened_queue(alloc, keys, capacity, posters) {
        Ok(side) => {
            taker.lead_to(side);
            NR_DONE
        }
        Err(OpenFault::BadSize) => NR_BAD_SIZE,
        Err(OpenFault::Memory) => NR_NO_MEMORY,
    }
}

// A queue's taker's side. Contracts are told the number of keys by the caller.
fn opened_queue(
    alloc: Global,
    keys: u32,
    capacity: u32,
    posters: u32,
) -> Result<Box<TakerSide, Global>, OpenFault>
    ghost below: { ℕ }
    requires told { below ≡ keys }
    ensures bad_size { (result ≡ Err OpenFault.BadSize) ↔ (IsBadSize MAX_LARGE_SLOTS capacity ⊎ IsBadSize MAX_LARGE_READERS posters) }
    ensures ok { IfOk result (λ side. IsNewQueue capacity posters keys side.value) }
{
    let (queue, spare, taker) = Triggers::open_large(alloc, capacity, posters)?;
    let queue = Arc::new(alloc, queue).map_err(|_| OpenFault::Memory)?;
    let side = TakerSide {
        queue,
        taker,
        spare,
        keys,
    };
    Ok(Box::new(alloc, side).map_err(|_| OpenFault::Memory)?)
}

/// Makes the handle of one more poster live. Answers `NR_DONE`; `NR_CLOSED` where the taker's isn't
/// live; `NR_LIVE` where the poster's is already; `NR_NO_POSTER` where each poster has a handle; or
/// `NR_NO_MEMORY`. The poster's handle stays as it was where it isn't done.
#[unsafe(no_mangle)]
pub extern "C" fn nr_open_poster(alloc: Global, taker: &mut NrTaker, poster: &mut NrPoster) -> u32
    ensures { WhenOther TakesPoster taker.old.live poster.old.live taker.new.live poster.new.live result }
{
    if !taker.is_live() {
        return NR_CLOSED;
    }
    if poster.is_live() {
        return NR_LIVE;
    }
    let side = taker.side();
    let Some(next) = side.spare.pop() else {
        return NR_NO_POSTER;
    };
    match posting(alloc, &side.queue, side.keys, next) {
        Ok(made) => {
            poster.lead_to(made);
            NR_DONE
        }
        Err(next) => {
            side.spare.push_reserved(next);
            NR_NO_MEMORY
        }
    }
}

// A poster's side. The poster comes back where there is no memory.
fn posting(
    alloc: Global,
    queue: &Arc<Triggers, Global>,
    keys: u32,
    poster: Poster,
) -> Result<Box<PosterSide, Global>, Poster>
    requires own { poster.queue ≡ queue.now.value.id }
    requires below { poster.keys ≡ keys }
    ensures ok { IfOk result (λ side. (side.value.queue.value ≡ queue.now.value) × (side.value.poster ≡ poster)) }
    ensures back { IfErr result (λ back. back ≡ poster) }
{
    let Ok(queue) = Arc::try_clone(queue) else {
        return Err(poster);
    };
    let side = PosterSide {
        queue,
        poster,
        keys,
    };
    match Box::new(alloc, side) {
        Ok(side) => Ok(side),
        Err(failed) => {
            let PosterSide {
                queue,
                poster,
                keys: _,
            } = failed.value;
            drop(queue);
            Err(poster)
        }
    }
}

/// Ends a poster, which the next opening of a poster hands out again. Answers `NR_DONE`; `NR_CLOSED`
/// where one of the handles isn't live; or `NR_NO_MEMORY`, and then nothing has changed.
#[unsafe(no_mangle)]
pub extern "C" fn nr_return_poster(alloc: Global, taker: &mut NrTaker, poster: &mut NrPoster) -> u32
    requires one_queue { OneQueue taker.old.live poster.old.live }
    ensures { WhenBothLive ReturnsPoster taker.old.live poster.old.live taker.new.live poster.new.live result }
{
    if !taker.is_live() || !poster.is_live() {
        return NR_CLOSED;
    }
    let side = taker.side();
    if side.spare.try_reserve(1).is_err() {
        return NR_NO_MEMORY;
    }
    let PosterSide {
        queue,
        poster,
        keys: _,
    } = poster.close(alloc);
    leave(queue);
    side.spare.push_reserved(poster);
    NR_DONE
}

/// Ends a poster, which no handle gets again. Nothing happens where the handle isn't live.
#[unsafe(no_mangle)]
pub extern "C" fn nr_close_poster(alloc: Global, poster: &mut NrPoster)
    ensures empty { poster.new.live ≡ [] }
    ensures ends { EndsSide poster.old.live }
{
    if !poster.is_live() {
        return;
    }
    leave(poster.close(alloc));
}

/// Ends the taker. The memory of the queue goes with the last handle. Nothing happens where the handle
/// isn't live.
#[unsafe(no_mangle)]
pub extern "C" fn nr_close_taker(alloc: Global, taker: &mut NrTaker)
    ensures empty { taker.new.live ≡ [] }
    ensures ends { EndsSide taker.old.live }
{
    if !taker.is_live() {
        return;
    }
    leave(taker.close(alloc));
}
