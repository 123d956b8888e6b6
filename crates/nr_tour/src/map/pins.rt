//! A set that a reader holds stays as it was.
ghost use Rattle.std.specs.Prelude.{◌≡◌, ◌<◌};

use crate::map::opening::opened_filled;
use crate::map::page::Page;
use nr_map::{Pin, Reader, ReaderMap, Writer};
use nr_model::{Batch, OpenFault, Row, RowSet};
use std::alloc::Global;

// The first of the rows that a pin holds, which is read where it lies.
fn first_row(map: &ReaderMap, pin: &mut Pin) -> Option<Row>
    requires own { pin.old.reader.table ≡ map.now }
    ensures own { pin.new.reader.table ≡ map.now }
{
    if 0 < pin.len() {
        Some(pin.row(map, 0))
    } else {
        None
    }
}

// Each of the pin's two calls is one load: is the set that it holds still the key's?
fn update_beside(
    map: &ReaderMap,
    writer: &mut Writer,
    pin: &mut Pin,
    change: &Batch,
    page: &mut Page,
)
    requires own { (pin.old.reader.table ≡ map.now) × (writer.old.table ≡ map.now) }
    requires key { 0 < map.now.shape.keys }
    ensures own { pin.new.reader.table ≡ map.now }
{
    let before = pin.again(map, 0);
    let updated = map.update(writer, 0, change);
    let after = pin.again(map, 0);
    page.line("an update beside it: ", &updated);
    page.line("the key has its set before and after: ", &[before, after]);
}

fn show_rows(map: &ReaderMap, pin: &mut Pin, page: &mut Page)
    requires own { pin.old.reader.table ≡ map.now }
    ensures own { pin.new.reader.table ≡ map.now }
{
    let mut rows = RowSet::new();
    pin.copy_to(map, &mut rows);
    page.line("it has ", &rows.as_slice());
    page.line("its first row: ", &first_row(map, pin));
}

fn find_new(map: &ReaderMap, reader: &mut Reader, page: &mut Page)
    requires own { reader.old.table ≡ map.now }
    requires key { 0 < map.now.shape.keys }
{
    let mut rows = RowSet::new();
    map.find(reader, 0, &mut rows);
    page.line("reader 2 finds ", &rows.as_slice());
}

// Where the key is a hole the reader comes back in place of a pin, and there is nothing to tell.
fn hold_over_update(
    map: &ReaderMap,
    writer: &mut Writer,
    one: Reader,
    two: &mut Reader,
    change: &Batch,
    page: &mut Page,
)
    requires readers { (one.table ≡ map.now) × (two.old.table ≡ map.now) }
    requires writer { writer.old.table ≡ map.now }
    requires key { 0 < map.now.shape.keys }
{
    let mut pin = match map.pin(one, 0) {
        Ok(pin) => pin,
        Err(_) => return,
    };
    // A pin can't be dropped, so from here to its release there is no way out: no `?`.
    update_beside(map, writer, &mut pin, change, page);
    show_rows(map, &mut pin, page);
    find_new(map, two, page);
    page.line("it was held by reader ", &pin.number());
    page.more(", which came back as ", &pin.release(map).number());
}

/// Reader 1 holds key 0's set while the key is updated; reader 2 finds the new one.
pub fn chapter(alloc: Global, change: &Batch) -> Result<Page, OpenFault> {
    let (map, mut writer, one, mut two) = opened_filled(alloc, 2, 5)?;
    let mut page = Page::titled(alloc, "A pin");
    hold_over_update(&map, &mut writer, one, &mut two, change, &mut page);
    Ok(page)
}
