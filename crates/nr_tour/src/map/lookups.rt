//! A key is missing, is asked for once, and is found once it is filled.
ghost use Rattle.std.specs.Prelude.{◌≡◌, ◌<◌};

use crate::map::calls::{ask, fill};
use crate::map::opening::opened;
use crate::map::page::Page;
use nr_map::{Reader, ReaderMap, Writer};
use nr_model::{OpenFault, RowSet};
use std::alloc::Global;

// Two readers want key 0.
fn find_first(
    map: &ReaderMap,
    writer: &mut Writer,
    one: &mut Reader,
    two: &mut Reader,
    page: &mut Page,
)
    requires readers { (one.old.table ≡ map.now) × (two.old.table ≡ map.now) }
    requires writer { writer.old.table ≡ map.now }
    requires key { 0 < map.now.shape.keys }
{
    // A hole leaves the caller's set as it is, so one set serves for many finds.
    let mut rows = RowSet::new();
    page.line("reader 1 finds ", &map.find(one, 0, &mut rows));
    page.line("it asks: ", &ask(map, one, 0));
    page.line("reader 2 asks: ", &ask(map, two, 0));
    page.line("the fill: ", &fill(map, writer, 0));
    page.line("reader 2 finds ", &map.find(two, 0, &mut rows));
    page.more(": ", &rows.as_slice());
}

/// The map is new.
pub fn chapter(alloc: Global) -> Result<Page, OpenFault> {
    let (map, mut writer, mut one, mut two) = opened(alloc, 2, 5)?;
    let mut page = Page::titled(alloc, "A first read");
    find_first(&map, &mut writer, &mut one, &mut two, &mut page);
    Ok(page)
}
