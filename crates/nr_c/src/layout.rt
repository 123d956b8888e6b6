//! What C's header says of its values in memory. The fields of each lie in their order there, which
//! the C test shows.
ghost use Rattle.std.specs.Prelude.{◌≡◌, ◌≤◌};
ghost use Rattle.nr_c.specs.Layout.{struct_size};

use crate::cache_flight::NrFlight;
use crate::cache_handle::NrCache;
use crate::cache_looks::NrCacheCounts;
use crate::cache_reader_handle::NrCacheReader;
use crate::cache_shape::NrCacheShape;
use crate::id_many::NrWantedId;
use crate::id_many_first::NrFoundId;
use crate::id_reader_handle::NrIdReader;
use crate::id_shape::NrIdShape;
use crate::id_writer_handle::NrIdWriter;
use crate::kept_upquery::NrUpquery;
use crate::many::NrWanted;
use crate::many_first::NrFound;
use crate::poster_handle::NrPoster;
use crate::reader_handle::NrReader;
use crate::remains_handle::NrRemains;
use crate::rows::NrRows;
use crate::sizes::{NrShape, NrSizes};
use crate::slots::NrSlots;
use crate::taker_handle::NrTaker;
use crate::writer_handle::NrWriter;
use nr_cache::{FoundValue, GivenValue};
use nr_model::{Delta, Row};
use std::mem::{align_of, size_of};

const _: () = prove!(size_of::<Row>() == 16);

const _: () = prove!(size_of::<Delta>() == 24);

const _: () = prove!(size_of::<NrRows>() == 8 + 255 * 16);

const _: () = prove!(size_of::<NrWanted>() == 8 + 8 + 255 * 16);

const _: () = prove!(size_of::<NrShape>() == 32);

const _: () = prove!(size_of::<NrSizes>() == 16);

const _: () = prove!(size_of::<NrSlots>() == 12);

const _: () = prove!(size_of::<NrWriter>() == 8);

const _: () = prove!(size_of::<NrReader>() == 8);

const _: () = prove!(size_of::<NrRemains>() == 8);

const _: () = prove!(size_of::<NrTaker>() == 8);

const _: () = prove!(size_of::<NrPoster>() == 8);

const _: () = prove!(size_of::<NrIdShape>() == 32);

const _: () = prove!(size_of::<NrUpquery>() == 40);

const _: () = prove!(size_of::<NrIdWriter>() == 8);

const _: () = prove!(size_of::<NrIdReader>() == 8);

const _: () = prove!(size_of::<NrWantedId>() == 8 + 8 + 8 + 255 * 16);

const _: () = prove!(size_of::<NrCacheShape>() == 40);

const _: () = prove!(size_of::<NrCache>() == 8);

const _: () = prove!(size_of::<NrCacheReader>() == 8);

const _: () = prove!(size_of::<FoundValue>() == 16);

const _: () = prove!(size_of::<NrCacheCounts>() == 32);

const _: () = prove!(size_of::<NrFlight>() == 16);

const _: () = prove!(size_of::<GivenValue>() == 24);

const _: () = prove!(size_of::<NrFound>() == 12);

const _: () = prove!(size_of::<NrFoundId>() == 16);

const _: () = prove!(align_of::<NrRows>() == 8);

/// How many bytes the struct takes that has this place among the header's, from 0; 0 beyond the last. No step.
#[unsafe(no_mangle)]
pub extern "C" fn nr_struct_size(place: u32) -> u32
    ensures { result ≡ struct_size place }
{
    let size = match place {
        0 => size_of::<Row>(),
        1 => size_of::<NrRows>(),
        2 => size_of::<NrWanted>(),
        3 => size_of::<Delta>(),
        4 => size_of::<NrShape>(),
        5 => size_of::<NrSizes>(),
        6 => size_of::<NrSlots>(),
        7 => size_of::<NrWriter>(),
        8 => size_of::<NrReader>(),
        9 => size_of::<NrRemains>(),
        10 => size_of::<NrTaker>(),
        11 => size_of::<NrPoster>(),
        12 => size_of::<NrIdShape>(),
        13 => size_of::<NrUpquery>(),
        14 => size_of::<NrIdWriter>(),
        15 => size_of::<NrIdReader>(),
        16 => size_of::<NrWantedId>(),
        _ => later_size(place),
    };
    size as u32
}

// Of a cache's structs, and of those whose rows lie apart.
fn later_size(place: u32) -> usize
    requires { 17 ≤ place }
    ensures size { result ≡ struct_size place }
    ensures few { result ≤ 40 }
{
    match place {
        17 => size_of::<NrCacheShape>(),
        18 => size_of::<NrCache>(),
        19 => size_of::<NrCacheReader>(),
        20 => size_of::<FoundValue>(),
        21 => size_of::<NrCacheCounts>(),
        22 => size_of::<NrFlight>(),
        23 => size_of::<GivenValue>(),
        24 => size_of::<NrFound>(),
        25 => size_of::<NrFoundId>(),
        _ => 0,
    }
}
