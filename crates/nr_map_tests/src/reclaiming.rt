//! Sets that come back once the slots in which they stood are taken again.
ghost use Rattle.std.specs.Prelude.{◌≡◌, ◌<◌};

use crate::calls::{Told, pairs_are, rows_of};
use crate::held::{pin, release};
use crate::same::is_same;
use crate::worked::Worked;
use nr_map::{Reader, ReaderMap, Reaped, Reclaimed, Writer};
use nr_model::RowSet;
use std::process::Abort;

/// What a replacement of key 0 by one row gives out. `None` where it was refused.
fn replace(map: &ReaderMap, writer: &mut Writer, a: u64, had: &mut RowSet) -> Option<Reclaimed>
    requires own { writer.old.table ≡ map.now }
    requires key { 0 < map.now.shape.keys }
    ensures own { writer.new.table ≡ map.now }
{
    let rows = rows_of(&[(a, a)]);
    if rows.len() > map.rows() as usize {
        return None;
    }
    map.replace_reclaiming(writer, 0, rows.as_slice(), had).ok()
}

/// The same of a fill with two rows, by the key's ticket number.
fn fill(map: &ReaderMap, writer: &mut Writer, a: u64, had: &mut RowSet) -> Option<Reclaimed>
    requires own { writer.old.table ≡ map.now }
    requires key { 0 < map.now.shape.keys }
    ensures own { writer.new.table ≡ map.now }
{
    let rows = rows_of(&[(a, a), (a, a)]);
    if rows.len() > map.rows() as usize {
        return None;
    }
    let number = map.number(writer, 0);
    map.fill_reclaiming(writer, 0, number, rows.as_slice(), had)
        .ok()
}

/// What a call gave out, and the set that came with it.
fn gave<R: Abort>(
    rt: &R,
    given: Option<Reclaimed>,
    had: &RowSet,
    wanted: Reclaimed,
    pairs: &[(u64, u64)],
) {
    is_same(rt, &given, &Some(wanted));
    assert!(rt; pairs_are(had, pairs));
}

/// A replacement of key 0 gives that out.
fn replaces<R: Abort>(
    rt: &R,
    map: &ReaderMap,
    writer: &mut Writer,
    a: u64,
    wanted: Reclaimed,
    pairs: &[(u64, u64)],
)
    requires own { writer.old.table ≡ map.now }
    requires key { 0 < map.now.shape.keys }
    ensures own { writer.new.table ≡ map.now }
{
    let mut had = RowSet::new();
    let given = replace(map, writer, a, &mut had);
    gave(rt, given, &had, wanted, pairs);
}

/// A reap gives that out.
fn reaps<R: Abort>(
    rt: &R,
    map: &ReaderMap,
    writer: &mut Writer,
    wanted: Reaped,
    pairs: &[(u64, u64)],
)
    requires own { writer.old.table ≡ map.now }
    ensures own { writer.new.table ≡ map.now }
{
    let mut had = RowSet::new();
    is_same(rt, &map.reap(writer, &mut had), &wanted);
    assert!(rt; pairs_are(&had, pairs));
}

/// A map of key 0, which is filled by two rows.
fn filled<R: Abort + AllocGlobal>(rt: &R) -> Worked
    ensures { result.shape.keys ≡ 1 }
{
    let mut worked = Worked::open(rt, 1, 3, 1, 0);
    let mut had = RowSet::new();
    worked.asks(rt, 0, Told::Send(0, 0));
    let given = fill(&worked.map, &mut worked.writer, 1, &mut had);
    gave(rt, given, &had, Reclaimed::Nothing, &[]);
    worked
}

/// Three replacements while a reader holds the first set, and then a fourth after it let go.
fn replaces_beside_a_pin<R: Abort>(rt: &R, map: &ReaderMap, writer: &mut Writer, reader: Reader)
    requires own { (writer.old.table ≡ map.now) × (reader.table ≡ map.now) }
    requires key { 0 < map.now.shape.keys }
{
    let Ok(pin) = pin(map, reader, 0) else {
        panic!(rt; "key 0 is a hole")
    };
    replaces(rt, map, writer, 2, Reclaimed::Nothing, &[]);
    replaces(rt, map, writer, 3, Reclaimed::Nothing, &[]);
    replaces(rt, map, writer, 4, Reclaimed::Set, &[(2, 2)]);
    release(map, pin);
    replaces(rt, map, writer, 5, Reclaimed::Set, &[(1, 1), (1, 1)]);
}

#[test]
fn a_held_set_comes_back_after_its_reader_let_go(rt: HostRuntime) {
    let Worked {
        map,
        mut writer,
        reader,
    } = filled(&rt);
    replaces_beside_a_pin(&rt, &map, &mut writer, reader);
}

/// Reaps while a reader holds the first set, and after it let go; then a replacement, which takes the
/// slot of the first set.
fn reaps_beside_a_pin<R: Abort>(rt: &R, map: &ReaderMap, writer: &mut Writer, reader: Reader)
    requires own { (writer.old.table ≡ map.now) × (reader.table ≡ map.now) }
    requires key { 0 < map.now.shape.keys }
{
    let Ok(pin) = pin(map, reader, 0) else {
        panic!(rt; "key 0 is a hole")
    };
    reaps(rt, map, writer, Reaped::Nothing, &[]);
    replaces(rt, map, writer, 2, Reclaimed::Nothing, &[]);
    reaps(rt, map, writer, Reaped::Held, &[]);
    replaces(rt, map, writer, 3, Reclaimed::Nothing, &[]);
    reaps(rt, map, writer, Reaped::Set, &[(2, 2)]);
    release(map, pin);
    reaps(rt, map, writer, Reaped::Set, &[(1, 1), (1, 1)]);
    reaps(rt, map, writer, Reaped::Nothing, &[]);
    replaces(rt, map, writer, 4, Reclaimed::Nothing, &[]);
}

#[test]
fn a_reap_gives_out_a_set_before_its_slot_is_taken(rt: HostRuntime) {
    let Worked {
        map,
        mut writer,
        reader,
    } = filled(&rt);
    reaps_beside_a_pin(&rt, &map, &mut writer, reader);
}

#[test]
fn readers_come_back_one_by_one(rt: HostRuntime) {
    let Worked {
        map,
        writer,
        reader,
    } = Worked::open(&rt, 1, 3, 1, 0);
    let mut out = map.readers_out();
    assert!(&rt; out.count() == 1);
    map.take_back(&mut out, reader);
    assert!(&rt; out.count() == 0);
    let mut rest = map.leave_by(writer, out);
    let mut had = RowSet::new();
    assert!(&rt; !rest.next_of(&map, &mut had));
}
