//! What a reader that holds nothing calls.
ghost use Rattle.std.specs.Prelude.{◌≡◌};
ghost use Rattle.nr_c.specs.Live.{AsksByCode, ByIdleReader, FindsByCode, ReaderAsks, ReaderHears};

use crate::codes::{NR_CLOSED, NR_FILLED, NR_HOLDING, NR_NO_KEY, NR_SEND, NR_WAITING, of_found};
use crate::reader_handle::NrReader;
use crate::rows::NrRows;
use nr_map::Asked;

/// Looks a key up, and puts its rows into the caller's cells, which stay as they are where the key
/// is a hole. Takes the steps of the map's `find`, and at a hole 1 more, which looks whether the writer was
/// closed. Answers `NR_ROWS` or `NR_HOLE`, and in place of that `NR_CLOSED` where it was; or `NR_NO_KEY`, or
/// `NR_HOLDING` where the reader holds a set, with no step.
#[unsafe(no_mangle)]
pub extern "C" fn nr_find(reader: &mut NrReader, key: u32, rows: &mut NrRows) -> u32
    ensures { ByIdleReader key (rows.new ≡ rows.old) (ReaderHears (FindsByCode key rows.old rows.new)) reader.old.live reader.new.live result }
{
    if !reader.is_live() {
        return NR_CLOSED;
    }
    let side = reader.side();
    if !side.has_key(key) {
        return NR_NO_KEY;
    }
    if side.holds() {
        return NR_HOLDING;
    }
    let answer = of_found(side.hand.find(&side.map, key, rows));
    side.watch.heard(answer)
}

/// Requests a key, in 1 step after a look whether the writer was closed: then it makes none, and answers
/// `NR_CLOSED`. Answers `NR_SEND`, and then `number` is the request's ticket number, which the sender of the
/// upquery hands on to the fill; or `NR_WAITING` or `NR_FILLED`. `NR_NO_KEY`, or `NR_HOLDING` where the reader
/// holds a set, with no step.
#[unsafe(no_mangle)]
pub extern "C" fn nr_ask(reader: &mut NrReader, key: u32, number: &mut u64) -> u32
    ensures { ByIdleReader key (number.new ≡ number.old) (ReaderAsks (number.new ≡ number.old) (AsksByCode key number.old number.new)) reader.old.live reader.new.live result }
{
    if !reader.is_live() {
        return NR_CLOSED;
    }
    let side = reader.side();
    if !side.has_key(key) {
        return NR_NO_KEY;
    }
    if side.holds() {
        return NR_HOLDING;
    }
    if side.watch.is_closed() {
        return NR_CLOSED;
    }
    match side.hand.ask(&side.map, key) {
        Asked::Send(ticket) => {
            *number = ticket.number();
            ticket.into_key();
            NR_SEND
        }
        Asked::Waiting => NR_WAITING,
        Asked::Filled => NR_FILLED,
    }
}
