//! A map of chosen sizes: few rows a key, and slots enough whatever its readers hold.
ghost use Rattle.std.specs.Prelude.{◌≡◌, ◌≢◌, ◌+◌, ◌<◌, ◌≤◌, ℕ, List, IfOk, Err};
ghost use Rattle.nr_model.specs.declared.rows.Row.{Row};
ghost use Rattle.nr_model.specs.declared.states.KeyState.TheVariants as states;
ghost use Rattle.nr_model.specs.Maps.{state_of};
ghost use Rattle.nr_model.specs.Rows.{IsRowSet};
ghost use Rattle.nr_board.specs.Callers.{map_seen};
ghost use Rattle.nr_map.specs.SlotBounds.{HasRoomForAll};

use crate::map::calls::{ask, fill};
use crate::map::page::Page;
use nr_map::{KeyKind, NoSlot, Reader, ReaderMap, Shape, UpdateFault, Writer, laws};
use nr_model::{Batch, Delta, OpenFault, Row};
use std::alloc::Global;

/// A change that only brings a row.
pub const MORE: [Delta; 1] = [Delta {
    plus: true,
    row: Row { a: 1, b: 1 },
}];

// A slot for each filled key, one for each reader, which may hold an old set, and one for the set
// that is being written.
fn slots_for(keys: u32, readers: u32) -> u32
    requires { (keys ≤ 65536) × (readers ≤ 1024) }
    ensures { result ≡ keys + readers + 1 }
{
    keys + readers + 1
}

// A map of 2 keys of at most 2 rows each, with its writer and its one reader.
fn opened_small(alloc: Global) -> Result<(ReaderMap, Writer, Reader), OpenFault>
    ensures keys { IfOk result (λ (map, _, _). map.shape.keys ≡ 2) }
    ensures own { IfOk result (λ (map, writer, reader). (writer.table ≡ map) × (reader.table ≡ map)) }
    ensures room { IfOk result (λ (map, _, _). HasRoomForAll map) }
{
    let shape = Shape {
        keys: 2,
        slots: slots_for(2, 1),
        readers: 1,
        first_count: 0,
        first_number: 0,
        rows: 2,
    };
    let (map, writer, mut readers) = ReaderMap::open_with(alloc, &shape)?;
    let Some(reader) = readers.pop() else {
        unreachable!()
    };
    Ok((map, writer, reader))
}

// An update of a map with slots enough. A law says that it never comes to `NoSlot`; who calls it has
// the law in a proof, and at run time the call does nothing.
fn update(map: &ReaderMap, writer: &mut Writer, key: u32, change: &Batch) -> Result<(), UpdateFault>
    requires own { writer.old.table ≡ map.now }
    requires key { key < map.now.shape.keys }
    requires room { HasRoomForAll map.now }
    ensures own { writer.new.table ≡ map.now }
    ensures slot { (counts : NoSlot) → result ≢ Err (UpdateFault.NoSlot counts) }
{
    laws::room_for_updates();
    map.update(writer, key, change)
}

// What a key is by now, whatever was called before. A law says of the history that the writer has
// seen then: where the key is filled, it has at most the rows that a key may have, in order.
fn state_now(map: &ReaderMap, writer: &mut Writer, key: u32) -> KeyKind
    requires own { writer.old.table ≡ map.now }
    requires key { key < map.now.shape.keys }
    ensures own { writer.new.table ≡ map.now }
    ensures few { (number : ℕ) (rows : List Row) → state_of (map_seen writer.new) key ≡ states.Rows number rows → IsRowSet map.now.shape.rows rows }
{
    laws::rows_fit_the_map();
    map.state(writer, key)
}

fn show_sizes(map: &ReaderMap, page: &mut Page) {
    page.line("keys ", &map.keys());
    page.more(", slots ", &map.slots());
    page.more(", readers ", &map.readers());
    page.more(", rows a key ", &map.rows());
}

fn keep_small(map: &ReaderMap, writer: &mut Writer, change: &Batch, more: &Batch, page: &mut Page)
    requires own { writer.old.table ≡ map.now }
    requires key { 0 < map.now.shape.keys }
    requires room { HasRoomForAll map.now }
{
    page.line("a fill: ", &fill(map, writer, 0));
    page.line("an update: ", &update(map, writer, 0, change));
    page.line("a third row: ", &update(map, writer, 0, more));
    page.line("the key: ", &state_now(map, writer, 0));
}

/// Key 0 is filled with two rows, changed to two others, and refuses a third.
pub fn chapter(alloc: Global, change: &Batch, more: &Batch) -> Result<Page, OpenFault> {
    let (map, mut writer, mut reader) = opened_small(alloc)?;
    let mut page = Page::titled(alloc, "Other sizes");
    show_sizes(&map, &mut page);
    ask(&map, &mut reader, 0);
    keep_small(&map, &mut writer, change, more, &mut page);
    Ok(page)
}
