//! What to do where there is no slot.
ghost use Rattle.std.specs.Prelude.{◌≡◌, ◌<◌};

use crate::map::calls::{ask, fill};
use crate::map::opening::opened_filled;
use crate::map::page::Page;
use nr_map::{Reader, ReaderMap, Writer};
use nr_model::{Batch, OpenFault};
use std::alloc::Global;

// Of two slots key 0 has one, and a pin holds its old set in the other: there is none for key 1 until
// the pin is released. The key stays asked meanwhile, so the same answer fills it later.
fn wait_for_pin(
    map: &ReaderMap,
    writer: &mut Writer,
    one: Reader,
    two: &mut Reader,
    change: &Batch,
    page: &mut Page,
)
    requires readers { (one.table ≡ map.now) × (two.old.table ≡ map.now) }
    requires writer { writer.old.table ≡ map.now }
    requires keys { 1 < map.now.shape.keys }
    ensures { writer.new.table ≡ map.now }
{
    let pin = match map.pin(one, 0) {
        Ok(pin) => pin,
        Err(_) => return,
    };
    map.update(writer, 0, change).ok();
    ask(map, two, 1);
    page.line("a fill beside a pin: ", &fill(map, writer, 1));
    let counts = map.slot_counts(writer);
    page.line("the slots: ", &counts);
    page.line("the key is asked for: ", &ask(map, two, 1));
    pin.release(map);
    page.line("the fill after the release: ", &fill(map, writer, 1));
}

// With both slots filled keys', an update has none for its new set until another key is evicted.
fn evict_another(map: &ReaderMap, writer: &mut Writer, change: &Batch, page: &mut Page)
    requires writer { writer.old.table ≡ map.now }
    requires keys { 1 < map.now.shape.keys }
{
    let none = map.update(writer, 1, change);
    page.line("an update among filled keys: ", &none);
    page.line("another key: ", &map.evict(writer, 0));
    page.line("the update again: ", &map.update(writer, 1, change));
}

/// A map of 2 keys, 2 readers and 2 slots only. With 5 it would never come to this: one for each
/// key, each reader and one more.
pub fn chapter(alloc: Global, change: &Batch) -> Result<Page, OpenFault> {
    let (map, mut writer, one, mut two) = opened_filled(alloc, 2, 2)?;
    let mut page = Page::titled(alloc, "No slot");
    wait_for_pin(&map, &mut writer, one, &mut two, change, &mut page);
    evict_another(&map, &mut writer, change, &mut page);
    Ok(page)
}
