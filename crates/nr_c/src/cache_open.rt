//! What opens a cache and its handles, and what ends them.
ghost use Rattle.std.specs.Prelude.{◌≡◌, ◌↔◌, [], Err, IfOk};
ghost use Rattle.nr_cache.specs.Openings.{IsBadStoreShape};
ghost use Rattle.nr_c.specs.Live.{WhenEmpty, WhenOther};
ghost use Rattle.nr_c.specs.CacheOpenings.{EndsCache, IsNewCache, OpensCache, TakesCacheReader, cache_shape_of};
ghost use Rattle.nr_c.specs.IdOpenings.{EndsIdReader};

use crate::cache_handle::NrCache;
use crate::cache_reader_handle::NrCacheReader;
use crate::cache_shape::NrCacheShape;
use crate::cache_side::CacheSide;
use crate::codes::{NR_BAD_SIZE, NR_CLOSED, NR_DONE, NR_LIVE, NR_NO_MEMORY, NR_NO_READER};
use crate::ending::leave;
use crate::id_open::seated_by_id;
use crate::reader_side::APART;
use crate::watch::Watch;
use nr_cache::Store;
use nr_model::OpenFault;
use std::alloc::Global;
use std::sync::Arc;

/// Opens a cache of that shape, and makes its handle live. Answers `NR_DONE`; `NR_LIVE` where the handle is
/// live already; `NR_BAD_SIZE` where a size is out of its limits, 1 to 516,000 groups, 1 to eight values a
/// group, and 1 to 65,533 readers; or `NR_NO_MEMORY`. The handle stays as it was where it isn't done. No other
/// call of the store takes memory.
#[unsafe(no_mangle)]
pub extern "C" fn nr_open_cache(alloc: Global, shape: &NrCacheShape, cache: &mut NrCache) -> u32
    ensures { WhenEmpty (OpensCache (cache_shape_of shape.now)) cache.old.live cache.new.live result }
{
    if cache.is_live() {
        return NR_LIVE;
    }
    match opened_cache(alloc, shape) {
        Ok(side) => {
            cache.lead_to(side);
            NR_DONE
        }
        Err(OpenFault::BadSize) => NR_BAD_SIZE,
        Err(OpenFault::Memory) => NR_NO_MEMORY,
    }
}

// The side of a new cache.
fn opened_cache(alloc: Global, shape: &NrCacheShape) -> Result<Box<CacheSide, Global>, OpenFault>
    ensures bad_size { (result ≡ Err OpenFault.BadSize) ↔ IsBadStoreShape (cache_shape_of shape.now) }
    ensures ok { IfOk result (λ side. IsNewCache (cache_shape_of shape.now) side.value) }
{
    let (map, store, spare) = Store::open(alloc, &shape.shape())?;
    let Ok(map) = Arc::new(alloc, map) else {
        store.close();
        return Err(OpenFault::Memory);
    };
    let Ok(watch) = Watch::open(alloc) else {
        store.close();
        return Err(OpenFault::Memory);
    };
    let side = CacheSide {
        apart: [0; APART],
        map,
        store,
        spare,
        watch,
    };
    let Ok(side) = Box::new(alloc, side) else {
        return Err(OpenFault::Memory);
    };
    Ok(side)
}

/// Makes the handle of one more reader live. Answers `NR_DONE`; `NR_CLOSED` where the cache's isn't live;
/// `NR_LIVE` where the reader's is already; `NR_NO_READER` where each reader has a handle; or `NR_NO_MEMORY`.
/// The reader's handle stays as it was where it isn't done.
#[unsafe(no_mangle)]
pub extern "C" fn nr_open_cache_reader(
    alloc: Global,
    cache: &mut NrCache,
    reader: &mut NrCacheReader,
) -> u32
    ensures { WhenOther TakesCacheReader cache.old.live reader.old.live cache.new.live reader.new.live result }
{
    if !cache.is_live() {
        return NR_CLOSED;
    }
    if reader.is_live() {
        return NR_LIVE;
    }
    let side = cache.side();
    let Some(next) = side.spare.pop() else {
        return NR_NO_READER;
    };
    match seated_by_id(alloc, &side.map, &side.watch, next) {
        Ok(made) => {
            reader.lead_to(made);
            NR_DONE
        }
        Err(next) => {
            side.spare.push_reserved(next);
            NR_NO_MEMORY
        }
    }
}

/// Ends a reader, which no handle gets again. The value that it holds is released. Nothing happens where the
/// handle isn't live.
#[unsafe(no_mangle)]
pub extern "C" fn nr_close_cache_reader(alloc: Global, reader: &mut NrCacheReader)
    ensures empty { reader.new.live ≡ [] }
    ensures ends { EndsIdReader reader.old.live }
{
    if !reader.is_live() {
        return;
    }
    leave(reader.close(alloc));
}

/// Ends the cache, and with it each flight that is under way. Readers are told of it. The memory of the map
/// goes with the last handle. Nothing happens where the handle isn't live.
#[unsafe(no_mangle)]
pub extern "C" fn nr_close_cache(alloc: Global, cache: &mut NrCache)
    ensures empty { cache.new.live ≡ [] }
    ensures ends { EndsCache cache.old.live }
{
    if !cache.is_live() {
        return;
    }
    let mut side = cache.close(alloc);
    side.watch.close();
    leave(side);
}
