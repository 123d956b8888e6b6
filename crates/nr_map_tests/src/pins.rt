//! A reader holds a set in a thread of its own while the writer updates its key.
ghost use Rattle.std.specs.Prelude.{◌≡◌, ◌<◌};

use crate::calls::{Told, ask, evict, minus, plus, updates};
use crate::held::{gather_pin, only_row, pin, release};
use crate::same::is_same;
use crate::worked::Worked;
use nr_map::{KeyKind, Reader, ReaderMap, Writer};
use nr_model::Row;
use std::process::Abort;
use std::sync::atomic::{AtomicBool, Ordering};
use std::thread::{self, Threads, join};

const TURNS: u32 = 1_000_000;

/// What happened so far. Each thread waits for what the one before it did.
#[derive(Drop)]
struct Flags {
    pinned: AtomicBool,
    updated: AtomicBool,
    sent: AtomicBool,
}

// Whether the flag was raised at one of that many looks.
fn is_raised(flag: &AtomicBool) -> bool {
    for _ in 0..TURNS {
        if flag.load(Ordering::SeqCst) {
            return true;
        }
        thread::yield_now();
    }
    false
}

// Pins key 0, waits until the other reader's request was sent, and reads the row that it holds.
fn hold(map: &ReaderMap, flags: &Flags, reader: Reader) -> (Option<Row>, Reader)
    requires own { reader.table ≡ map.now }
    requires key { 0 < map.now.shape.keys }
    ensures { let (_, token) = result in token.table ≡ map.now }
{
    let mut pin = match pin(map, reader, 0) {
        Ok(pin) => pin,
        Err(reader) => return (None, reader),
    };
    flags.pinned.store(true, Ordering::SeqCst);
    let row = if is_raised(&flags.sent) {
        only_row(map, &mut pin)
    } else {
        None
    };
    (row, release(map, pin))
}

// Updates key 0 once it is pinned: whether it was done.
fn update_once_pinned(map: &ReaderMap, flags: &Flags, mut writer: Writer) -> (bool, Writer)
    requires own { writer.table ≡ map.now }
    requires key { 0 < map.now.shape.keys }
    ensures { let (_, token) = result in token.table ≡ map.now }
{
    let was_pinned = is_raised(&flags.pinned);
    let is_updated = updates(map, &mut writer, 0, &[minus(5, 6), plus(7, 8)]);
    flags.updated.store(true, Ordering::SeqCst);
    (was_pinned && is_updated, writer)
}

// Requests key 1 once key 0 is updated: whether the request is sent.
fn ask_once_updated(map: &ReaderMap, flags: &Flags, mut reader: Reader) -> (bool, Reader)
    requires own { reader.table ≡ map.now }
    requires key { 1 < map.now.shape.keys }
    ensures { let (_, token) = result in token.table ≡ map.now }
{
    let was_updated = is_raised(&flags.updated);
    let is_sent = ask(map, &mut reader, 1) == Told::Send(1, 0);
    flags.sent.store(is_sent, Ordering::SeqCst);
    (was_updated && is_sent, reader)
}

fn update_and_ask<R: Threads + Sync>(
    rt: &R,
    map: &ReaderMap,
    flags: &Flags,
    writer: Writer,
    reader: Reader,
) -> ((bool, Writer), (bool, Reader))
    requires keys { 1 < map.now.shape.keys }
    requires own { (reader.table ≡ map.now) × (writer.table ≡ map.now) }
    ensures { let ((_, one), (_, other)) = result in (one.table ≡ map.now) × (other.table ≡ map.now) }
{
    join(
        rt,
        move || -> (bool, Writer)
            requires { (1 < map.now.shape.keys) × (writer.table ≡ map.now) }
            ensures { let (_, token) = result in token.table ≡ map.entry.now }
        { update_once_pinned(map, flags, writer) },
        move || -> (bool, Reader)
            requires { (1 < map.now.shape.keys) × (reader.table ≡ map.now) }
            ensures { let (_, token) = result in token.table ≡ map.entry.now }
        { ask_once_updated(map, flags, reader) },
    )
}

fn all_three<R: Threads + Sync>(
    rt: &R,
    map: &ReaderMap,
    flags: &Flags,
    one: Reader,
    two: Reader,
    writer: Writer,
) -> ((Option<Row>, Reader), ((bool, Writer), (bool, Reader)))
    requires keys { 1 < map.now.shape.keys }
    requires own { (one.table ≡ map.now) × (two.table ≡ map.now) × (writer.table ≡ map.now) }
    ensures { let ((_, holder), ((_, updater), (_, asker))) = result in (holder.table ≡ map.now) × (updater.table ≡ map.now) × (asker.table ≡ map.now) }
{
    join(
        rt,
        move || -> (Option<Row>, Reader)
            requires { (1 < map.now.shape.keys) × (one.table ≡ map.now) }
            ensures { let (_, token) = result in token.table ≡ map.entry.now }
        { hold(map, flags, one) },
        move || -> ((bool, Writer), (bool, Reader))
            requires { (1 < map.now.shape.keys) × (writer.table ≡ map.now) × (two.table ≡ map.now) }
            ensures { let ((_, one), (_, other)) = result in (one.table ≡ map.entry.now) × (other.table ≡ map.entry.now) }
        { update_and_ask(rt, map, flags, writer, two) },
    )
}

// The reader still holds the old row when key 1 was requested, after the update.
fn holds_beside<R: Abort + Threads + Sync>(rt: &R, worked: Worked, two: Reader) -> (Worked, Reader)
    requires keys { worked.shape.keys ≡ 2 }
    requires two { two.table ≡ worked }
    ensures { let (worked, other) = result in other.table ≡ worked }
{
    let Worked {
        map,
        writer,
        reader,
    } = worked;
    let flags = Flags {
        pinned: AtomicBool::new(false),
        updated: AtomicBool::new(false),
        sent: AtomicBool::new(false),
    };
    let ((held, reader), ((updated, writer), (asked, two))) = all_three(
        rt, &map, &flags, reader, two, writer,
    );
    is_same(
        rt,
        &(held, updated, asked),
        &(Some(Row { a: 5, b: 6 }), true, true),
    );
    let worked = Worked {
        map,
        writer,
        reader,
    };
    (worked, two)
}

// Then the writer gathers both readers, finds its update, and knows of the request.
#[test]
fn pinned_set_outlives_an_update(rt: HostRuntime) {
    let (mut worked, two) = Worked::open_two(&rt, 2, 5, 0);
    worked.asks(&rt, 0, Told::Send(0, 0));
    worked.fills(&rt, 0, 0, &[(5, 6)]);
    let (mut worked, mut two) = holds_beside(&rt, worked, two);
    worked.map.gather(&mut worked.writer, &mut worked.reader);
    worked.map.gather(&mut worked.writer, &mut two);
    worked.looks(&rt, 0, &[(7, 8)]);
    worked.stands(&rt, 1, KeyKind::Asked);
}

// Pins key 0, and reads the row that is held once the key was evicted and the pin gathered.
fn row_of_gathered(map: &ReaderMap, writer: &mut Writer, reader: Reader) -> Option<Row>
    requires own { (reader.table ≡ map.now) × (writer.old.table ≡ map.now) }
    requires key { 0 < map.now.shape.keys }
{
    let mut pin = pin(map, reader, 0).ok()?;
    evict(map, writer, 0);
    gather_pin(map, writer, &mut pin);
    let row = only_row(map, &mut pin);
    release(map, pin);
    row
}

#[test]
fn gathered_pin_keeps_its_set(rt: HostRuntime) {
    let mut worked = Worked::open(&rt, 1, 3, 1, 0);
    worked.asks(&rt, 0, Told::Send(0, 0));
    worked.fills(&rt, 0, 0, &[(5, 6)]);
    let Worked {
        map,
        mut writer,
        reader,
    } = worked;
    let held = row_of_gathered(&map, &mut writer, reader);
    is_same(&rt, &held, &Some(Row { a: 5, b: 6 }));
}
