//! Rows that go from key to key, with no set between.
ghost use Rattle.std.specs.Prelude.{◌≡◌, ◌<◌, IsTrue};
ghost use Rattle.nr_model.specs.Rows.{is_ascending};

use crate::map::calls::ask;
use crate::map::opening::opened_filled;
use crate::map::page::Page;
use crate::map::upkeep::CHANGE;
use nr_map::{FillFault, Reader, ReaderMap, ReplaceFault, Writer};
use nr_model::{OpenFault, Row, SortedRows};
use std::alloc::Global;

// A fill from a slice whose rows are in order. None where they are more than a key may have.
fn fill_from(
    map: &ReaderMap,
    writer: &mut Writer,
    key: u32,
    rows: &[Row],
) -> Option<Result<(), FillFault>>
    requires own { writer.old.table ≡ map.now }
    requires key { key < map.now.shape.keys }
    requires in_order { IsTrue (is_ascending rows.now) }
    ensures { writer.new.table ≡ map.now }
{
    if rows.len() > map.rows() as usize {
        return None;
    }
    let number = map.number(writer, key);
    Some(map.fill_rows(writer, key, number, rows))
}

// A replacement from such a slice. None where the rows are more than a key may have.
fn replace_from(
    map: &ReaderMap,
    writer: &mut Writer,
    key: u32,
    rows: &[Row],
) -> Option<Result<(), ReplaceFault>>
    requires own { writer.old.table ≡ map.now }
    requires key { key < map.now.shape.keys }
    requires in_order { IsTrue (is_ascending rows.now) }
{
    if rows.len() > map.rows() as usize {
        return None;
    }
    Some(map.replace_rows(writer, key, rows))
}

// `SortedRows` is a room for rows, as any type is that has `RowRoom`: a find writes them there. A change
// needs no batch where its signed rows stand, one to sixty-four.
fn copy_rows(map: &ReaderMap, writer: &mut Writer, reader: &mut Reader, page: &mut Page)
    requires own { (reader.old.table ≡ map.now) × (writer.old.table ≡ map.now) }
    requires keys { 1 < map.now.shape.keys }
{
    let mut sorted = SortedRows::new();
    page.line("reader 1 finds ", &map.find_into(reader, 0, &mut sorted));
    page.line(
        "a fill with them: ",
        &fill_from(map, writer, 1, sorted.as_slice()),
    );
    page.line("a change: ", &map.update_rows(writer, 1, &CHANGE));
    let mut rows = SortedRows::new();
    page.line("the writer finds ", &map.look_into(writer, 1, &mut rows));
    page.more(": ", &rows.as_slice());
    let replaced = replace_from(map, writer, 0, rows.as_slice());
    page.line("the first key gets them too: ", &replaced);
}

// A set may begin with a tag, a row that says whose rows the others are: a find by the tag writes those
// alone, and of another's set nothing.
fn find_behind(map: &ReaderMap, reader: &mut Reader, page: &mut Page)
    requires own { reader.old.table ≡ map.now }
    requires keys { 0 < map.now.shape.keys }
    ensures own { reader.new.table ≡ map.now }
{
    let mut rows = SortedRows::new();
    let found = map.find_tagged(reader, 0, Row { a: 3, b: 9 }, &mut rows);
    page.line("by the tag 3:9 reader 1 finds ", &found);
    page.more(": ", &rows.as_slice());
}

/// Key 0 is filled, and key 1 gets the same rows, of which one goes and another comes. Then key 0's
/// set is replaced by key 1's.
pub fn chapter(alloc: Global) -> Result<Page, OpenFault> {
    let (map, mut writer, mut one, _two) = opened_filled(alloc, 2, 5)?;
    let mut page = Page::titled(alloc, "Another room");
    ask(&map, &mut one, 1);
    find_behind(&map, &mut one, &mut page);
    copy_rows(&map, &mut writer, &mut one, &mut page);
    Ok(page)
}
