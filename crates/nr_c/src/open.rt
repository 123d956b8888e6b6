//! What opens a map and its handles, and what ends them.
ghost use Rattle.std.specs.Prelude.{◌≡◌, ◌↔◌, [], Err, IfOk, IfErr};
ghost use Rattle.nr_map.specs.Hands.{idle};
ghost use Rattle.nr_map.specs.Opened.{IsOpened, words_of_large};
ghost use Rattle.nr_c.specs.Live.{OneMap, WhenBothLive, WhenEmpty, WhenLive, WhenOther};
ghost use Rattle.nr_c.specs.Closings.{IsNewWatch};
ghost use Rattle.nr_c.specs.Openings.{EndsReader, EndsWriter, IsNewWriter, IsRefused, Opens, ReturnsReader, TakesReader};
ghost use Rattle.nr_c.specs.Sizes.{TellsSizes, shape_of_sizes};

use crate::codes::{NR_BAD_SIZE, NR_CLOSED, NR_DONE, NR_LIVE, NR_NO_MEMORY, NR_NO_READER};
use crate::ending::leave;
use crate::reader_handle::NrReader;
use crate::reader_side::{APART, ReaderSide};
use crate::remains_side::RemainsSide;
use crate::sizes::{NrShape, NrSizes};
use crate::watch::Watch;
use crate::writer_handle::NrWriter;
use crate::writer_side::WriterSide;
use nr_core::Shape;
use nr_map::{Reader, ReaderMap, Writer};
use nr_model::OpenFault;
use std::alloc::Global;
use std::sync::Arc;

/// Opens a map of that shape, and makes the writer's handle live. Answers `NR_DONE`; `NR_LIVE` where
/// the handle is live already; `NR_BAD_SIZE` where a size is out of its limits, 1 to 65,536 keys, 1 to
/// 131,072 slots and 1 to 1,024 readers, or 1 to 4,294,967,295 keys, 1 to 4,194,303 slots and
/// 1 to 65,535 readers; with a first ticket number up to 4,194,303 and 1 to 255 rows a key; or `NR_NO_MEMORY`.
/// The handle stays as it was where it isn't done.
#[unsafe(no_mangle)]
pub extern "C" fn nr_open(alloc: Global, shape: &NrShape, writer: &mut NrWriter) -> u32
    ensures { WhenEmpty (Opens (shape_of_sizes shape.now)) writer.old.live writer.new.live result }
{
    if writer.is_live() {
        return NR_LIVE;
    }
    match opened(alloc, shape) {
        Ok(side) => {
            writer.lead_to(side);
            NR_DONE
        }
        Err(OpenFault::BadSize) => NR_BAD_SIZE,
        Err(OpenFault::Memory) => NR_NO_MEMORY,
    }
}

// The limits of a large map are no narrower than those of others.
fn opened_map(alloc: Global, shape: &Shape) -> Result<(ReaderMap, Writer, Vec<Reader>), OpenFault>
    ensures bad_size { (result ≡ Err OpenFault.BadSize) ↔ IsRefused shape.now }
    ensures ok { IfOk result (λ (map, writer, readers). IsOpened shape.now (words_of_large shape.now) map writer readers.items) }
{
    ReaderMap::open_large(alloc, shape)
}

// A map's writer's side.
fn opened(alloc: Global, shape: &NrShape) -> Result<Box<WriterSide, Global>, OpenFault>
    ensures bad_size { (result ≡ Err OpenFault.BadSize) ↔ IsRefused (shape_of_sizes shape.now) }
    ensures ok { IfOk result (λ side. IsNewWriter (shape_of_sizes shape.now) side.value) }
{
    let (map, writer, spare) = opened_map(alloc, &shape.shape())?;
    let map = Arc::new(alloc, map).map_err(|_| OpenFault::Memory)?;
    let room = Box::new(alloc, RemainsSide::empty()).map_err(|_| OpenFault::Memory)?;
    let watch = Watch::open(alloc).map_err(|_| OpenFault::Memory)?;
    let side = WriterSide {
        map,
        apart: [0; APART],
        writer,
        spare,
        room,
        watch,
    };
    Ok(Box::new(alloc, side).map_err(|_| OpenFault::Memory)?)
}

/// Makes the handle of one more reader live. Answers `NR_DONE`; `NR_CLOSED` where the writer's isn't
/// live; `NR_LIVE` where the reader's is already; `NR_NO_READER` where each reader has a handle; or
/// `NR_NO_MEMORY`. The reader's handle stays as it was where it isn't done.
#[unsafe(no_mangle)]
pub extern "C" fn nr_open_reader(alloc: Global, writer: &mut NrWriter, reader: &mut NrReader) -> u32
    ensures { WhenOther TakesReader writer.old.live reader.old.live writer.new.live reader.new.live result }
{
    if !writer.is_live() {
        return NR_CLOSED;
    }
    if reader.is_live() {
        return NR_LIVE;
    }
    let side = writer.side();
    let Some(next) = side.spare.pop() else {
        return NR_NO_READER;
    };
    match seated(alloc, &side.map, &side.watch, next) {
        Ok(made) => {
            reader.lead_to(made);
            NR_DONE
        }
        Err(next) => {
            side.spare.push_reserved(next);
            NR_NO_MEMORY
        }
    }
}

// A reader's side. The reader comes back where there is no memory.
fn seated(
    alloc: Global,
    map: &Arc<ReaderMap, Global>,
    writers: &Watch,
    reader: Reader,
) -> Result<Box<ReaderSide, Global>, Reader>
    requires own { reader.table ≡ map.now.value }
    ensures ok { IfOk result (λ side. (side.value.map.value ≡ map.now.value) × (side.value.hand ≡ idle reader)) }
    ensures watch { IfOk result (λ side. (side.value.watch.word ≡ writers.now.word) × IsNewWatch side.value.watch) }
    ensures back { IfErr result (λ back. back ≡ reader) }
{
    let Ok(map) = Arc::try_clone(map) else {
        return Err(reader);
    };
    let Ok(watch) = writers.share() else {
        return Err(reader);
    };
    match Box::new(alloc, ReaderSide::of(map, reader, watch)) {
        Ok(side) => Ok(side),
        Err(failed) => Err(failed.value.end()),
    }
}

/// Ends a reader, which the next opening of a reader hands out again. What it holds is released.
/// Answers `NR_DONE`; `NR_CLOSED` where one of the handles isn't live; or `NR_NO_MEMORY`, and then
/// nothing has changed.
#[unsafe(no_mangle)]
pub extern "C" fn nr_return_reader(
    alloc: Global,
    writer: &mut NrWriter,
    reader: &mut NrReader,
) -> u32
    requires one_map { OneMap reader.old.live writer.old.live }
    ensures { WhenBothLive ReturnsReader writer.old.live reader.old.live writer.new.live reader.new.live result }
{
    if !writer.is_live() || !reader.is_live() {
        return NR_CLOSED;
    }
    let side = writer.side();
    if side.spare.try_reserve(1).is_err() {
        return NR_NO_MEMORY;
    }
    side.spare.push_reserved(reader.close(alloc));
    NR_DONE
}

/// Ends a reader, which no handle gets again. What it holds is released. Nothing happens where the
/// handle isn't live.
#[unsafe(no_mangle)]
pub extern "C" fn nr_close_reader(alloc: Global, reader: &mut NrReader)
    ensures empty { reader.new.live ≡ [] }
    ensures ends { EndsReader reader.old.live }
{
    if !reader.is_live() {
        return;
    }
    leave(reader.close(alloc));
}

/// Ends the writer. Readers are told of it. The memory of the map goes with the last handle. Nothing happens
/// where the handle isn't live.
#[unsafe(no_mangle)]
pub extern "C" fn nr_close_writer(alloc: Global, writer: &mut NrWriter)
    ensures empty { writer.new.live ≡ [] }
    ensures ends { EndsWriter writer.old.live }
{
    if !writer.is_live() {
        return;
    }
    let mut side = writer.close(alloc);
    side.watch.close();
    leave(side);
}

/// The map's sizes: `NR_DONE`; or `NR_CLOSED`, and `sizes` stay.
#[unsafe(no_mangle)]
pub extern "C" fn nr_sizes(reader: &mut NrReader, sizes: &mut NrSizes) -> u32
    ensures { WhenLive (sizes.new ≡ sizes.old) (TellsSizes sizes.new) reader.old.live reader.new.live result }
{
    if !reader.is_live() {
        return NR_CLOSED;
    }
    let side = reader.side();
    *sizes = NrSizes::of(&side.map);
    NR_DONE
}
