//! What opens a map over ids and its handles, and what ends them.
ghost use Rattle.std.specs.Prelude.{◌≡◌, ◌↔◌, [], Err, IfErr, IfOk};
ghost use Rattle.nr_idmap.specs.IdHands.{idle_by_id};
ghost use Rattle.nr_idmap.specs.IdOpenings.{IsBadIdShape};
ghost use Rattle.nr_idmap.specs.Keepers.{id_table_of};
ghost use Rattle.nr_c.specs.Live.{WhenEmpty, WhenOther};
ghost use Rattle.nr_c.specs.Closings.{IsNewWatch};
ghost use Rattle.nr_c.specs.IdOpenings.{EndsIdReader, EndsIdWriter, IsNewIdWriter, OpensIdMap, TakesIdReader, id_shape_of};

use crate::codes::{NR_BAD_SIZE, NR_CLOSED, NR_DONE, NR_LIVE, NR_NO_MEMORY, NR_NO_READER};
use crate::ending::leave;
use crate::id_reader_handle::NrIdReader;
use crate::id_reader_side::IdReaderSide;
use crate::id_shape::NrIdShape;
use crate::id_writer_handle::NrIdWriter;
use crate::id_writer_side::IdWriterSide;
use crate::ledger::Ledger;
use crate::reader_side::APART;
use crate::watch::Watch;
use nr_idmap::{IdMap, IdReader};
use nr_model::OpenFault;
use std::alloc::Global;
use std::sync::Arc;

/// Opens a map over ids of that shape, and makes the writer's handle live. Answers `NR_DONE`; `NR_LIVE`
/// where the handle is live already; `NR_BAD_SIZE` where a size is out of its limits, 1 to 536,870,911
/// groups, 1 to 4,194,303 slots, 1 to 65,534 readers, 1 to 254 rows and a first ticket number up to
/// 4,194,303; or `NR_NO_MEMORY`. The handle stays as it was where it isn't done. `number` is the map's, by
/// which its upqueries are told from other maps': what `embed/null` makes gives each map another one.
#[unsafe(no_mangle)]
pub extern "C" fn nr_open_ids(
    alloc: Global,
    shape: &NrIdShape,
    writer: &mut NrIdWriter,
    number: u64,
) -> u32
    ensures { WhenEmpty (OpensIdMap (id_shape_of shape.now) number) writer.old.live writer.new.live result }
{
    if writer.is_live() {
        return NR_LIVE;
    }
    match opened_ids(alloc, shape, number) {
        Ok(side) => {
            writer.lead_to(side);
            NR_DONE
        }
        Err(OpenFault::BadSize) => NR_BAD_SIZE,
        Err(OpenFault::Memory) => NR_NO_MEMORY,
    }
}

// The writer's side of a new map.
fn opened_ids(
    alloc: Global,
    shape: &NrIdShape,
    number: u64,
) -> Result<Box<IdWriterSide, Global>, OpenFault>
    ensures bad_size { (result ≡ Err OpenFault.BadSize) ↔ IsBadIdShape (id_shape_of shape.now) }
    ensures ok { IfOk result (λ side. IsNewIdWriter (id_shape_of shape.now) number side.value) }
{
    let (map, writer, spare) = IdMap::open(alloc, &shape.shape())?;
    let Ok(ledger) = Ledger::empty(alloc, number, map.ways()) else {
        return Err(OpenFault::Memory);
    };
    let map = Arc::new(alloc, map).map_err(|_| OpenFault::Memory)?;
    let watch = Watch::open(alloc).map_err(|_| OpenFault::Memory)?;
    let side = IdWriterSide {
        apart: [0; APART],
        map,
        writer,
        spare,
        ledger,
        watch,
    };
    Ok(Box::new(alloc, side).map_err(|_| OpenFault::Memory)?)
}

/// Makes the handle of one more reader live. Answers `NR_DONE`; `NR_CLOSED` where the writer's isn't
/// live; `NR_LIVE` where the reader's is already; `NR_NO_READER` where each reader has a handle; or
/// `NR_NO_MEMORY`. The reader's handle stays as it was where it isn't done.
#[unsafe(no_mangle)]
pub extern "C" fn nr_open_id_reader(
    alloc: Global,
    writer: &mut NrIdWriter,
    reader: &mut NrIdReader,
) -> u32
    ensures { WhenOther TakesIdReader writer.old.live reader.old.live writer.new.live reader.new.live result }
{
    if !writer.is_live() {
        return NR_CLOSED;
    }
    if reader.is_live() {
        return NR_LIVE;
    }
    let side = writer.side();
    let Some(next) = side.spare.pop() else {
        return NR_NO_READER;
    };
    match seated_by_id(alloc, &side.map, &side.watch, next) {
        Ok(made) => {
            reader.lead_to(made);
            NR_DONE
        }
        Err(next) => {
            side.spare.push_reserved(next);
            NR_NO_MEMORY
        }
    }
}

/// A reader's side. The reader comes back where there is no memory.
pub fn seated_by_id(
    alloc: Global,
    map: &Arc<IdMap, Global>,
    writers: &Watch,
    reader: IdReader,
) -> Result<Box<IdReaderSide, Global>, IdReader>
    requires own { id_table_of reader ≡ map.now.value }
    ensures ok { IfOk result (λ side. (side.value.map.value ≡ map.now.value) × (side.value.hand ≡ idle_by_id reader)) }
    ensures watch { IfOk result (λ side. (side.value.watch.word ≡ writers.now.word) × IsNewWatch side.value.watch) }
    ensures back { IfErr result (λ back. back ≡ reader) }
{
    let Ok(map) = Arc::try_clone(map) else {
        return Err(reader);
    };
    let Ok(watch) = writers.share() else {
        return Err(reader);
    };
    match Box::new(alloc, IdReaderSide::of(map, reader, watch)) {
        Ok(side) => Ok(side),
        Err(failed) => Err(failed.value.end()),
    }
}

/// Ends a reader, which no handle gets again. What it holds is released. Nothing happens where the
/// handle isn't live.
#[unsafe(no_mangle)]
pub extern "C" fn nr_close_id_reader(alloc: Global, reader: &mut NrIdReader)
    ensures empty { reader.new.live ≡ [] }
    ensures ends { EndsIdReader reader.old.live }
{
    if !reader.is_live() {
        return;
    }
    leave(reader.close(alloc));
}

/// Ends the writer, and with it each upquery that is open. Readers are told of it. The memory of the map goes
/// with the last handle. Nothing happens where the handle isn't live.
#[unsafe(no_mangle)]
pub extern "C" fn nr_close_id_writer(alloc: Global, writer: &mut NrIdWriter)
    ensures empty { writer.new.live ≡ [] }
    ensures ends { EndsIdWriter writer.old.live }
{
    if !writer.is_live() {
        return;
    }
    let mut side = writer.close(alloc);
    side.watch.close();
    leave(side);
}
