//! Requests on their way to the dataflow.
ghost use Rattle.std.specs.Prelude.{◌≡◌, ⊤};
ghost use Rattle.nr_c.specs.Live.{WhenLive, WithKey};
ghost use Rattle.nr_c.specs.Posting.{PostsOn, TakerCalls, TakesByCode, poster_keys};

use crate::codes::{NR_CLOSED, NR_DONE, NR_NO_KEY, of_post, of_take_fault};
use crate::poster_handle::NrPoster;
use crate::taker_handle::NrTaker;
use nr_trigger::Upquery;

/// Puts a request at the back of the queue, by one attempt: `NR_DONE`. `NR_FULL` where the queue was
/// full at one moment of the call, and `NR_IN_THE_WAY` where another thread is within a call of its own
/// or the queue has carried 2^62 requests; then nothing has changed. `NR_NO_KEY`, with no attempt,
/// where the queue has no such key.
#[unsafe(no_mangle)]
pub extern "C" fn nr_post(poster: &mut NrPoster, key: u32, number: u64) -> u32
    ensures { WhenLive ⊤ (WithKey poster_keys key ⊤ (PostsOn key number)) poster.old.live poster.new.live result }
{
    if !poster.is_live() {
        return NR_CLOSED;
    }
    let side = poster.side();
    if key >= side.keys {
        return NR_NO_KEY;
    }
    let upquery = Upquery { key, number };
    of_post(side.queue.try_post(&mut side.poster, upquery))
}

/// Takes the request at the front of the queue, by one attempt: `NR_DONE`, and its key and number
/// are told. `NR_EMPTY` where the queue was empty at one moment of the call, and `NR_IN_THE_WAY` where
/// another thread is within a call of its own or the queue has carried 2^62 requests; then nothing has
/// changed.
#[unsafe(no_mangle)]
pub extern "C" fn nr_take(taker: &mut NrTaker, key: &mut u32, number: &mut u64) -> u32
    ensures { WhenLive ((key.new ≡ key.old) × (number.new ≡ number.old)) (TakerCalls (TakesByCode key.old number.old key.new number.new)) taker.old.live taker.new.live result }
{
    if !taker.is_live() {
        return NR_CLOSED;
    }
    let side = taker.side();
    match side.queue.try_take(&mut side.taker) {
        Ok(trigger) => {
            *number = trigger.number();
            *key = trigger.into_key();
            NR_DONE
        }
        Err(fault) => of_take_fault(fault),
    }
}
