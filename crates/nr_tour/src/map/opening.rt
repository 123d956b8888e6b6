//! How a map is opened.
ghost use Rattle.std.specs.Prelude.{◌≡◌, ◌<◌, IfOk};

use crate::map::calls::ask_and_fill;
use nr_map::{Reader, ReaderMap, Writer};
use nr_model::OpenFault;
use std::alloc::Global;

/// A map of that many keys and slots with two readers, and its tokens. A token is of this one map, and
/// every call asks that of its token: hence the clause. The list has just the readers that were asked
/// for, so nobody has to look whether one is missing.
pub fn opened(
    alloc: Global,
    keys: u32,
    slots: u32,
) -> Result<(ReaderMap, Writer, Reader, Reader), OpenFault>
    ensures keys { IfOk result (λ (map, _, _, _). map.shape.keys ≡ keys) }
    ensures own { IfOk result (λ (map, writer, one, two). (writer.table ≡ map) × (one.table ≡ map) × (two.table ≡ map)) }
{
    let (map, writer, mut readers) = ReaderMap::open(alloc, keys, slots, 2, 0)?;
    let (Some(two), Some(one)) = (readers.pop(), readers.pop()) else {
        unreachable!()
    };
    Ok((map, writer, one, two))
}

/// The same, where key 0 was asked for by reader 1 and is filled.
pub fn opened_filled(
    alloc: Global,
    keys: u32,
    slots: u32,
) -> Result<(ReaderMap, Writer, Reader, Reader), OpenFault>
    requires key { 0 < keys }
    ensures keys { IfOk result (λ (map, _, _, _). map.shape.keys ≡ keys) }
    ensures own { IfOk result (λ (map, writer, one, two). (writer.table ≡ map) × (one.table ≡ map) × (two.table ≡ map)) }
{
    let (map, mut writer, mut one, two) = opened(alloc, keys, slots)?;
    ask_and_fill(&map, &mut one, &mut writer);
    Ok((map, writer, one, two))
}
