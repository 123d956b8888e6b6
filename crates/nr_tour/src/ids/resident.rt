//! A map over ids: one thread misses, its claim is answered, and it finds.
ghost use Rattle.std.specs.Prelude.{◌≡◌, ◌<◌, IfOk, IfSome};
ghost use Rattle.nr_idmap.specs.Keepers.{id_rows, id_table_of};

use crate::ids::answering::answer;
use crate::ids::wanting::want;
use nr_idmap::{ClosedMap, IdMap, IdReader, IdShape, IdWriter, Upquery};
use nr_model::{OpenFault, Row, RowSet};
use std::alloc::Global;
use std::io;
use std::io::Print;

/// A map over ids with its writer and its one reader.
pub fn opened_ids(alloc: Global) -> Result<(IdMap, IdWriter, IdReader), OpenFault>
    ensures own { IfOk result (λ (map, writer, reader). (writer.table ≡ map) × (id_table_of reader ≡ map)) }
    ensures room { IfOk result (λ (map, _, _). 0 < id_rows map) }
{
    // The key of a program that serves strangers is drawn at random.
    let shape = IdShape {
        groups: 2,
        key: 5,
        slots: 18,
        readers: 1,
        rows: 3,
        first_number: 0,
    };
    let (map, writer, mut readers) = IdMap::open(alloc, &shape)?;
    let Some(reader) = readers.pop() else {
        unreachable!()
    };
    Ok((map, writer, reader))
}

/// Nobody fills it any more.
pub fn end_upquery(left: Option<Upquery>, gone: &ClosedMap)
    requires { IfSome left (λ upquery. upquery.table ≡ gone.now) }
{
    if let Some(upquery) = left {
        upquery.end(gone);
    }
}

/// A map over ids for one reader is opened, and ends.
pub fn show_ids<R: AllocGlobal + Print>(rt: &R) -> anyhow::Result<()> {
    let (map, writer, reader) = opened_ids(rt.alloc())?;
    show_and_close(rt, map, writer, reader)?;
    Ok(())
}

// An upquery can't be dropped, so from here on there is no way out by a `?`.
fn show_and_close<R: Print>(
    rt: &R,
    map: IdMap,
    mut writer: IdWriter,
    mut reader: IdReader,
) -> io::Result<()>
    requires own { (writer.table ≡ map) × (id_table_of reader ≡ map) }
    requires room { 0 < id_rows map }
{
    let (told, left) = show_miss(rt, &map, &mut writer, &mut reader);
    end_upquery(left, &map.close());
    told
}

// An id is missed, claimed, answered and found. An upquery that isn't filled is left.
fn show_miss<R: Print>(
    rt: &R,
    map: &IdMap,
    writer: &mut IdWriter,
    reader: &mut IdReader,
) -> (io::Result<()>, Option<Upquery>)
    requires own { (writer.old.table ≡ map.now) × (id_table_of reader.old ≡ map.now) }
    requires room { 0 < id_rows map.now }
    ensures left { let (_, left) = result in IfSome left (λ upquery. upquery.table ≡ map.now) }
{
    let mut rows = RowSet::new();
    let missed = want(map, reader, 42, &mut rows);
    let left = answer(map, writer, 42, &[Row { a: 1, b: 2 }], 7);
    let found = want(map, reader, 42, &mut rows);
    let told = println!(rt; "id 42: {missed:?}, then {found:?}: {:?}", rows.as_slice());
    (told, left)
}
