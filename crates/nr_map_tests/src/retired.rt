//! A retired slot is taken again as soon as no reader holds it, and not before.
ghost use Rattle.std.specs.Prelude.{◌≡◌, ◌<◌};

use crate::calls::{Told, UPDATED, look, pairs_are, plus, update};
use crate::held::{pin, release};
use crate::same::is_same;
use crate::worked::Worked;
use nr_map::{Found, NoSlot, Reader, ReaderMap, UpdateFault, Writer};
use nr_model::RowSet;
use std::process::Abort;

// A map of one key in two slots, which has one row.
fn filled(rt: &(impl Abort + AllocGlobal)) -> Worked
    ensures { result.shape.keys ≡ 1 }
{
    let mut worked = Worked::open(rt, 1, 2, 1, 0);
    worked.asks(rt, 0, Told::Send(0, 0));
    worked.fills(rt, 0, 0, &[(1, 1)]);
    worked
}

#[test]
fn a_slot_that_nobody_holds_is_taken_again(rt: HostRuntime) {
    let mut worked = filled(&rt);
    worked.updates(&rt, 0, &[plus(2, 2)], Ok(()));
    worked.updates(&rt, 0, &[plus(3, 3)], Ok(()));
    worked.looks(&rt, 0, &[(1, 1), (2, 2), (3, 3)]);
}

// Two updates of a key whose first set a reader holds. None where it can't be pinned.
fn update_beside_pin(
    map: &ReaderMap,
    writer: &mut Writer,
    reader: Reader,
) -> Option<[Option<Result<(), UpdateFault>>; 2]>
    requires own { (writer.old.table ≡ map.now) × (reader.table ≡ map.now) }
    requires key { 0 < map.now.shape.keys }
    ensures own { writer.new.table ≡ map.now }
{
    let pin = pin(map, reader, 0).ok()?;
    let first = update(map, writer, 0, &[plus(2, 2)]);
    let second = update(map, writer, 0, &[plus(3, 3)]);
    release(map, pin);
    Some([first, second])
}

#[test]
fn a_held_slot_is_not_taken_again(rt: HostRuntime) {
    let Worked {
        map,
        mut writer,
        reader,
    } = filled(&rt);
    let held = UpdateFault::NoSlot(NoSlot { live: 1, held: 1 });
    let updated = update_beside_pin(&map, &mut writer, reader);
    is_same(&rt, &updated, &Some([UPDATED, Some(Err(held))]));
    let mut rows = RowSet::new();
    is_same(&rt, &look(&map, &mut writer, 0, &mut rows), &Found::Rows);
    assert!(rt; pairs_are(&rows, &[(1, 1), (2, 2)]));
}
