//! A token for each thread: the map is shared, and a token moves to the thread that calls with it.
ghost use Rattle.std.specs.Prelude.{◌≡◌, ◌<◌};

use crate::map::calls::{Told, ask, fill};
use crate::map::opening::opened;
use crate::map::page::Page;
use nr_map::{Found, Reader, ReaderMap, Writer};
use nr_model::{OpenFault, RowSet};
use std::alloc::Global;
use std::thread::{Threads, join};

// What each thread does: finds the key, and asks for it where it is a hole.
fn find_or_ask(map: &ReaderMap, mut reader: Reader, key: u32) -> (Told, Reader)
    requires own { reader.table ≡ map.now }
    requires key { key < map.now.shape.keys }
    ensures { result.1.table ≡ map.now }
{
    let mut rows = RowSet::new();
    let told = match map.find(&mut reader, key, &mut rows) {
        Found::Rows => Told::Filled,
        Found::Hole => ask(map, &mut reader, key),
    };
    (told, reader)
}

// Hands each reader to a thread of its own, and has both back once the threads have ended.
fn both<R: Threads + Sync>(
    rt: &R,
    map: &ReaderMap,
    one: Reader,
    two: Reader,
) -> ((Told, Reader), (Told, Reader))
    requires own { (one.table ≡ map.now) × (two.table ≡ map.now) }
    requires key { 0 < map.now.shape.keys }
    ensures { let ((_, one), (_, two)) = result in (one.table ≡ map.now) × (two.table ≡ map.now) }
{
    join(
        rt,
        move || -> (Told, Reader)
            requires { (one.table ≡ map.now) × (0 < map.now.shape.keys) }
            ensures { let (_, reader) = result in reader.table ≡ map.entry.now }
        { find_or_ask(map, one, 0) },
        move || -> (Told, Reader)
            requires { (two.table ≡ map.now) × (0 < map.now.shape.keys) }
            ensures { let (_, reader) = result in reader.table ≡ map.entry.now }
        { find_or_ask(map, two, 0) },
    )
}

fn sends_of(told: Told) -> u32
    ensures { result < 2 }
{
    match told {
        Told::Send(_) => 1,
        Told::Waiting | Told::Filled => 0,
    }
}

// Two threads miss key 0 at once. Which of them is told to send depends on them; that just one is
// doesn't.
fn ask_at_once<R: Threads + Sync>(
    rt: &R,
    map: &ReaderMap,
    writer: &mut Writer,
    one: Reader,
    two: Reader,
    page: &mut Page,
)
    requires readers { (one.table ≡ map.now) × (two.table ≡ map.now) }
    requires writer { writer.old.table ≡ map.now }
    requires key { 0 < map.now.shape.keys }
{
    let ((first, one), (second, two)) = both(rt, map, one, two);
    let _filled = fill(map, writer, 0);
    let ((third, _one), (fourth, _two)) = both(rt, map, one, two);
    page.line(
        "requests to be sent: ",
        &(sends_of(first) + sends_of(second)),
    );
    page.line("after the fill: ", &(third, fourth));
}

pub fn chapter<R: Threads + Sync>(rt: &R, alloc: Global) -> Result<Page, OpenFault> {
    let (map, mut writer, one, two) = opened(alloc, 2, 5)?;
    let mut page = Page::titled(alloc, "Two threads");
    ask_at_once(rt, &map, &mut writer, one, two, &mut page);
    Ok(page)
}
