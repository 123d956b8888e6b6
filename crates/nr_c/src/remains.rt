//! A map that is taken apart, and the sets that come out of what remains.
ghost use Rattle.std.specs.Prelude.{◌≡◌, []};
ghost use Rattle.nr_c.specs.Endings.{EndsSide};
ghost use Rattle.nr_c.specs.Live.{WhenLive, WhenOther};
ghost use Rattle.nr_c.specs.Remains.{NextByCode, TakesApart};

use crate::codes::{NR_CLOSED, NR_DONE, NR_GIVEN, NR_LIVE, NR_NOTHING, NR_READERS_OUT};
use crate::ending::leave;
use crate::remains_handle::NrRemains;
use crate::remains_side::LeftMap;
use crate::rows::NrRows;
use crate::writer_handle::NrWriter;
use crate::writer_side::WriterSide;
use std::alloc::Global;

/// Takes a map apart whose readers are all back, so that nobody holds a set: `NR_DONE`, the writer's
/// handle leads nowhere any more, and `remains` to the sets that no call gave out. `NR_LIVE` where
/// `remains` is live already, and `NR_READERS_OUT` where some reader isn't back; then both handles stay
/// as they were. No step, and no memory.
#[unsafe(no_mangle)]
pub extern "C" fn nr_take_apart(
    alloc: Global,
    writer: &mut NrWriter,
    remains: &mut NrRemains,
) -> u32
    ensures { WhenOther TakesApart writer.old.live remains.old.live writer.new.live remains.new.live result }
{
    if !writer.is_live() {
        return NR_CLOSED;
    }
    if remains.is_live() {
        return NR_LIVE;
    }
    if !writer.side().has_all_readers() {
        return NR_READERS_OUT;
    }
    let WriterSide {
        map,
        apart: _,
        writer,
        spare,
        mut room,
        watch,
    } = writer.close(alloc);
    leave(watch);
    let rest = map.leave(writer, spare);
    room.left = Some(LeftMap { map, rest });
    remains.lead_to(room);
    NR_DONE
}

/// Gives out the next set that was put and that no call gave out, filled keys' sets among them, in 2n + 1
/// steps for n rows: `NR_GIVEN`, and `had` shows it. `NR_NOTHING` where all have come out, and `had`
/// stays.
#[unsafe(no_mangle)]
pub extern "C" fn nr_next(remains: &mut NrRemains, had: &mut NrRows) -> u32
    ensures { WhenLive (had.new ≡ had.old) (NextByCode had.old had.new) remains.old.live remains.new.live result }
{
    if !remains.is_live() {
        return NR_CLOSED;
    }
    let side = remains.side();
    match &mut side.left {
        Some(left) => {
            if left.rest.next_of(&left.map, had) {
                NR_GIVEN
            } else {
                NR_NOTHING
            }
        }
        None => NR_NOTHING,
    }
}

/// Ends what remains, and the map's memory with it. The sets that have not come out are lost. Nothing
/// happens where the handle isn't live.
#[unsafe(no_mangle)]
pub extern "C" fn nr_close_remains(alloc: Global, remains: &mut NrRemains)
    ensures empty { remains.new.live ≡ [] }
    ensures ends { EndsSide remains.old.live }
{
    if !remains.is_live() {
        return;
    }
    leave(remains.close(alloc));
}
