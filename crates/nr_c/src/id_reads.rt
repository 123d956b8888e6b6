//! What a reader by id calls.
ghost use Rattle.std.specs.Prelude.{◌≡◌, ⊤};
ghost use Rattle.nr_c.specs.IdLive.{ByIdleIdReader, IdHandAsks, IdReaderHears, WithId};
ghost use Rattle.nr_c.specs.IdReads.{FindsIdByCode, RequestsByCode};
ghost use Rattle.nr_c.specs.Live.{WhenLive};

use crate::codes::{NR_CLOSED, NR_HOLDING, NR_NO_KEY};
use crate::id_codes::{of_found_id, of_request};
use crate::id_reader_handle::NrIdReader;
use crate::rows::NrRows;

/// Looks an id up, and puts its rows into the caller's cells, which stay as they are with each other
/// answer: `NR_ROWS`; `NR_ASKED` where its way was a hole, since its upquery is under way or it was
/// evicted within the call; `NR_HOLE` where within the call it had no way; `NR_OTHER` where its way
/// became another id's; or, with no step, `NR_NO_KEY` for the id 0, and `NR_HOLDING` where the reader
/// holds a set. Takes 1 load; a look-up, which looks at the hints of the id's group and at the name of
/// each way with the id's hint, up to the id's, and unless one of them was, so too in its second group;
/// where a way had the name, 1 look at its mark, and then 1 where the way is a hole, 2n + 7 for n rows, and 7 where it has another id's, more where it is written
/// meanwhile, and 1 to mark it where rows were found and it isn't marked. Where none were found 1 more looks
/// whether the writer was closed, and then the answer is `NR_CLOSED`.
#[unsafe(no_mangle)]
pub extern "C" fn nr_find_id(reader: &mut NrIdReader, id: u64, rows: &mut NrRows) -> u32
    ensures { ByIdleIdReader id (rows.new ≡ rows.old) (IdReaderHears (FindsIdByCode id rows.old rows.new)) reader.old.live reader.new.live result }
{
    if !reader.is_live() {
        return NR_CLOSED;
    }
    if id == 0 {
        return NR_NO_KEY;
    }
    let side = reader.side();
    if side.holds() {
        return NR_HOLDING;
    }
    let answer = of_found_id(side.hand.find(&side.map, id, rows));
    side.watch.heard(answer)
}

/// Requests an id that has no way. Answers `NR_SEND` where the claim of its group is this caller's, whose
/// id goes to the writer; `NR_WAITING` where a claim of its group is open, or was within the call;
/// `NR_NAMED` where the id has a way; `NR_WORN` where its group had the last of its claims; or
/// `NR_NO_KEY` for the id 0, with no step. Takes 1 step, where no claim is open those of a look-up, and 1
/// more where the claim is granted or another was within the call; and before them 1 that looks whether the writer was closed: then it makes no other, and answers `NR_CLOSED`. A set that
/// the reader holds stays held.
#[unsafe(no_mangle)]
pub extern "C" fn nr_request_id(reader: &mut NrIdReader, id: u64) -> u32
    ensures { WhenLive ⊤ (WithId id ⊤ (IdHandAsks (RequestsByCode id))) reader.old.live reader.new.live result }
{
    if !reader.is_live() {
        return NR_CLOSED;
    }
    if id == 0 {
        return NR_NO_KEY;
    }
    let side = reader.side();
    if side.watch.is_closed() {
        return NR_CLOSED;
    }
    of_request(side.hand.request(&side.map, id))
}
