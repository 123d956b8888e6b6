//! What the dataflow does to a filled key.
ghost use Rattle.std.specs.Prelude.{◌≡◌, ◌<◌};

use crate::map::calls::set_of;
use crate::map::opening::opened_filled;
use crate::map::page::Page;
use nr_map::{ReaderMap, Writer};
use nr_model::{Batch, Delta, OpenFault, Row, RowSet};
use std::alloc::Global;

/// A change of the rows that a fill brings: one goes and another comes.
pub const CHANGE: [Delta; 2] = [
    Delta {
        plus: false,
        row: Row { a: 7, b: 1 },
    },
    Delta {
        plus: true,
        row: Row { a: 8, b: 2 },
    },
];

// Replaces key 0's set, and looks up what is there then.
fn replace(map: &ReaderMap, writer: &mut Writer, page: &mut Page)
    requires own { writer.old.table ≡ map.now }
    requires key { 0 < map.now.shape.keys }
    ensures own { writer.new.table ≡ map.now }
{
    let replaced = map.replace(writer, 0, &set_of(map, &[Row { a: 5, b: 5 }]));
    let mut rows = RowSet::new();
    map.look(writer, 0, &mut rows);
    page.line("a replacement: ", &replaced);
    page.more(", by ", &rows.as_slice());
}

// The change is applied whole or not at all: the second time there is no row `7:1` to take away, and
// the third time no set.
fn keep_up(map: &ReaderMap, writer: &mut Writer, change: &Batch, page: &mut Page)
    requires own { writer.old.table ≡ map.now }
    requires key { 0 < map.now.shape.keys }
{
    let mut rows = RowSet::new();
    page.line("an update: ", &map.update(writer, 0, change));
    map.look(writer, 0, &mut rows);
    page.more(", to ", &rows.as_slice());
    page.line("the same again: ", &map.update(writer, 0, change));
    replace(map, writer, page);
    page.line("an eviction: ", &map.evict(writer, 0));
    let dropped = map.update(writer, 0, change);
    page.line("an update of the hole: ", &dropped);
}

/// Key 0 is filled; the writer changes it, replaces its set and evicts it.
pub fn chapter(alloc: Global, change: &Batch) -> Result<Page, OpenFault> {
    let (map, mut writer, _one, _two) = opened_filled(alloc, 2, 5)?;
    let mut page = Page::titled(alloc, "Upkeep");
    keep_up(&map, &mut writer, change, &mut page);
    Ok(page)
}
