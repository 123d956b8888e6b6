//! The running map.
ghost use Rattle.std.specs.Prelude.{◌≡◌, ◌<◌};

use crate::same::is_same;
use crate::worked::{Worked, next};
use nr_map::{
    Asked, Cancel, Evict, FillFault, Found, KeyKind, NoSlot, Pin, Reader, ReaderMap, Shape, Ticket,
    UpdateFault, Writer,
};
use nr_model::{Batch, Delta, OpenFault, Row, RowSet};
use std::alloc::Global;
use std::process::Abort;
use std::test::Fail;

// The sizes of a new map, and the numbers of its readers.
fn sizes(alloc: Global) -> Result<([u32; 4], Option<u32>, Option<u32>), OpenFault> {
    let opened: (ReaderMap, Writer, Vec<Reader>) = ReaderMap::open(alloc, 2, 5, 2, 0)?;
    let (map, _writer, readers) = opened;
    let first = readers.get(0).map(|reader| reader.number());
    let second = readers.get(1).map(|reader| reader.number());
    let sizes = [map.keys(), map.slots(), map.readers(), map.rows()];
    Ok((sizes, first, second))
}

#[test]
fn a_map_has_sizes_and_readers_in_order(rt: HostRuntime) {
    let wanted = ([2, 5, 2, 15], Some(1), Some(2));
    is_same(&rt, &sizes(rt.alloc()), &Ok(wanted));
}

// A request's key and number, if it is sent.
fn sent(map: &ReaderMap, reader: &mut Reader, key: u32) -> Option<(u32, u64)>
    requires own { reader.old.table ≡ map.now }
    requires key { key < map.now.shape.keys }
    ensures own { reader.new.table ≡ map.now }
{
    let asked: Asked = map.ask(reader, key);
    match asked {
        Asked::Send(ticket) => Some(spent(ticket)),
        Asked::Waiting | Asked::Filled => None,
    }
}

fn spent(ticket: Ticket) -> (u32, u64) {
    let number: u64 = ticket.number();
    let key: u32 = ticket.key();
    let last: u32 = ticket.into_key();
    (u32::min(key, last), number)
}

// The places that a fill without a slot tells.
fn fill_places(fault: FillFault) -> Option<NoSlot> {
    match fault {
        FillFault::NotAsked | FillFault::Already | FillFault::Stale => None,
        FillFault::NoSlot(places) => Some(places),
    }
}

fn update_places(fault: UpdateFault) -> Option<NoSlot> {
    match fault {
        UpdateFault::Dropped | UpdateFault::NoRow | UpdateFault::TooMany => None,
        UpdateFault::NoSlot(places) => Some(places),
    }
}

#[test]
fn a_refusal_for_want_of_a_slot_tells_the_places(rt: HostRuntime) {
    let places = NoSlot { live: 1, held: 2 };
    is_same(&rt, &fill_places(FillFault::NoSlot(places)), &Some(places));
    is_same(
        &rt,
        &update_places(UpdateFault::NoSlot(places)),
        &Some(places),
    );
    is_same(&rt, &fill_places(FillFault::Stale), &None);
    is_same(&rt, &update_places(UpdateFault::NoRow), &None);
}

// A row of the key, filled by the request's number and found by the reader.
fn filled(worked: &mut Worked) -> (Result<(), FillFault>, Found, Found, usize)
    requires { 0 < worked.old.shape.keys }
    ensures { worked.new ≡ worked.old }
{
    let mut rows = RowSet::new();
    let filled = worked.map.fill(&mut worked.writer, 0, 0, &RowSet::new());
    let found: Found = worked.map.find(&mut worked.reader, 0, &mut rows);
    let looked: Found = worked.map.look(&mut worked.writer, 0, &mut rows);
    (filled, found, looked, rows.len())
}

// What the writer is answered of a filled key.
fn changed(
    worked: &mut Worked,
    batch: &Batch,
) -> (Result<(), UpdateFault>, KeyKind, u64, Evict, Cancel)
    requires { 0 < worked.old.shape.keys }
    ensures { worked.new ≡ worked.old }
{
    let updated: Result<(), UpdateFault> = worked.map.update(&mut worked.writer, 0, batch);
    let state: KeyKind = worked.map.state(&mut worked.writer, 0);
    let number: u64 = worked.map.number(&worked.writer, 0);
    let evicted: Evict = worked.map.evict(&mut worked.writer, 0);
    let cancelled: Cancel = worked.map.cancel(&mut worked.writer, 0);
    (updated, state, number, evicted, cancelled)
}

fn one_row() -> Delta {
    Delta {
        plus: true,
        row: Row { a: 1, b: 1 },
    }
}

#[test]
fn a_key_is_asked_for_filled_changed_and_evicted(rt: HostRuntime) -> Result<(), Fail> {
    let mut worked = Worked::open(&rt, 1, 3, 1, 0);
    is_same(
        &rt,
        &sent(&worked.map, &mut worked.reader, 0),
        &Some((0, 0)),
    );
    let wanted = (Ok(()), Found::Rows, Found::Rows, 0);
    is_same(&rt, &filled(&mut worked), &wanted);
    let wanted = (Ok(()), KeyKind::Rows, 0, Evict::Evicted, Cancel::Nothing);
    let batch = Batch::of(&[one_row()])?;
    is_same(&rt, &changed(&mut worked, &batch), &wanted);
    Ok(())
}

// Whether a key can be pinned, with its rows then. The writer gathers the reader by its pin.
fn pinned(map: &ReaderMap, writer: &mut Writer, reader: Reader) -> (Option<u32>, Reader)
    requires own { (writer.old.table ≡ map.now) × (reader.table ≡ map.now) }
    requires key { 0 < map.now.shape.keys }
    ensures { let (_, back) = result in back.table ≡ map.now }
{
    let pinned: Result<Pin, Reader> = map.pin(reader, 0);
    match pinned {
        Ok(mut pin) => {
            map.gather_pin(writer, &mut pin);
            let len: u32 = pin.len();
            if 0 < len {
                let _row: Row = pin.row(map, 0);
            }
            (Some(len), pin.release(map))
        }
        Err(reader) => (None, reader),
    }
}

// Each reader hears the writer and the other, and the writer hears each reader.
fn meet_all(map: &ReaderMap, writer: &mut Writer, one: &mut Reader, two: &mut Reader)
    requires own { (writer.old.table ≡ map.now) × (one.old.table ≡ map.now) × (two.old.table ≡ map.now) }
    ensures own { (writer.new.table ≡ map.now) × (one.new.table ≡ map.now) × (two.new.table ≡ map.now) }
{
    map.meet(one, writer);
    map.meet_readers(two, one);
    map.gather(writer, two);
}

#[test]
fn readers_pin_and_meet(rt: HostRuntime) {
    let opened = ReaderMap::open(rt.alloc(), 1, 3, 2, 0);
    let (map, mut writer, mut readers) = opened.expect(&rt, "a map");
    let mut two = next(&rt, &map, &mut readers);
    let mut one = next(&rt, &map, &mut readers);
    meet_all(&map, &mut writer, &mut one, &mut two);
    is_same(&rt, &(one.number(), two.number()), &(1, 2));
    let (held, _one) = pinned(&map, &mut writer, one);
    is_same(&rt, &held, &None);
}

#[test]
fn a_shape_opens_a_map(rt: HostRuntime) {
    let shape = Shape {
        keys: 1,
        slots: 1,
        readers: 1,
        first_count: 0,
        first_number: 0,
        rows: 0,
    };
    let refused: Option<OpenFault> = ReaderMap::open_with(rt.alloc(), &shape).err();
    is_same(&rt, &refused, &Some(OpenFault::BadSize));
}
