//! A map with more keys and slots than `open_with` gives, and a queue for it.
use crate::map::Page;
use nr_map::{ReaderMap, Shape};
use nr_model::OpenFault;
use nr_trigger::Triggers;
use std::alloc::Global;

// Whether there is memory for a queue with a place for each key.
fn has_queue(alloc: Global) -> bool {
    Triggers::open_large(alloc, 200_000, 1).is_ok()
}

/// A map of 200,000 keys, of which the last is looked at.
pub fn opened_large(alloc: Global) -> Result<Page, OpenFault> {
    let shape = Shape {
        keys: 200_000,
        slots: 200_002,
        readers: 1,
        first_count: 0,
        first_number: 0,
        rows: 1,
    };
    let (map, mut writer, _readers) = ReaderMap::open_large(alloc, &shape)?;
    let mut page = Page::titled(alloc, "A large map");
    page.line("keys ", &map.keys());
    page.more(", slots ", &map.slots());
    page.line("its last key: ", &map.state(&mut writer, 199_999));
    let is_refused = ReaderMap::open_with(alloc, &shape).is_err();
    page.line("too large for open_with: ", &is_refused);
    page.line("a queue with a place for each key: ", &has_queue(alloc));
    Ok(page)
}
