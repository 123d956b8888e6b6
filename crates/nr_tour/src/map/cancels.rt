//! A request is taken back.
ghost use Rattle.std.specs.Prelude.{◌≡◌, ◌<◌};

use crate::map::calls::{ROWS, ask, set_of};
use crate::map::opening::opened;
use crate::map::page::Page;
use nr_map::{Reader, ReaderMap, Writer};
use nr_model::OpenFault;
use std::alloc::Global;

// An upquery was lost on its way, or so the dataflow thinks: it takes the request back, and the next
// one is sent under the next number. Should the old answer come after all, it is stale.
fn take_back(
    map: &ReaderMap,
    writer: &mut Writer,
    one: &mut Reader,
    two: &mut Reader,
    page: &mut Page,
)
    requires readers { (one.old.table ≡ map.now) × (two.old.table ≡ map.now) }
    requires writer { writer.old.table ≡ map.now }
    requires key { 0 < map.now.shape.keys }
{
    let rows = set_of(map, &ROWS);
    page.line("a request: ", &ask(map, one, 0));
    let cancelled = map.cancel(writer, 0);
    let second = ask(map, two, 0);
    let late = map.fill(writer, 0, 0, &rows);
    let filled = map.fill(writer, 0, 1, &rows);
    page.line("it is taken back: ", &cancelled);
    page.line("the next one: ", &second);
    page.line("the first answer: ", &late);
    page.line("the second: ", &filled);
}

pub fn chapter(alloc: Global) -> Result<Page, OpenFault> {
    let (map, mut writer, mut one, mut two) = opened(alloc, 2, 5)?;
    let mut page = Page::titled(alloc, "A cancel");
    take_back(&map, &mut writer, &mut one, &mut two, &mut page);
    Ok(page)
}
