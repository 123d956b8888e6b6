//! Several keys that are looked up by one call.
ghost use Rattle.std.specs.Prelude.{◌≡◌, ◌<◌};

use crate::map::calls::{ask, fill};
use crate::map::opening::opened_filled;
use crate::map::page::Page;
use nr_map::{Reader, ReaderMap, Wanted, Writer};
use nr_model::{OpenFault, RowSet};
use std::alloc::Global;

fn show_found(wanted: &[Wanted<RowSet>; 3], page: &mut Page) {
    page.more(": ", &[wanted[0].found, wanted[1].found, wanted[2].found]);
}

// Each key has a room of its own, and a key that stands twice is found twice.
fn find_together(map: &ReaderMap, writer: &mut Writer, reader: &mut Reader, page: &mut Page)
    requires own { (reader.old.table ≡ map.now) × (writer.old.table ≡ map.now) }
    requires keys { 1 < map.now.shape.keys }
{
    let mut wanted = [
        Wanted::of(1, RowSet::new()),
        Wanted::of(0, RowSet::new()),
        Wanted::of(1, RowSet::new()),
    ];
    map.find_each(reader, &mut wanted);
    page.line("keys ", &[wanted[0].key, wanted[1].key, wanted[2].key]);
    show_found(&wanted, page);
    page.line("the rows of key 0: ", &wanted[1].rows.as_slice());
    let filled = fill(map, writer, 1);
    map.find_each(reader, &mut wanted);
    page.line("once key 1 is filled, ", &filled);
    show_found(&wanted, page);
}

// What finds of both keys will need is loaded while there is something else to do, and the word of one.
fn load(map: &ReaderMap, reader: &mut Reader)
    requires own { reader.old.table ≡ map.now }
    requires keys { 1 < map.now.shape.keys }
    ensures own { reader.new.table ≡ map.now }
{
    map.load_ahead(reader, &[0, 1]);
    map.load_key(reader, 0);
}

/// Key 0 is filled, and key 1 is filled between two looks at both.
pub fn chapter(alloc: Global) -> Result<Page, OpenFault> {
    let (map, mut writer, mut one, _two) = opened_filled(alloc, 2, 5)?;
    let mut page = Page::titled(alloc, "Many keys");
    ask(&map, &mut one, 1);
    load(&map, &mut one);
    find_together(&map, &mut writer, &mut one, &mut page);
    Ok(page)
}
