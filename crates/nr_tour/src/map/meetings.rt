//! What one token can know of another's calls.
ghost use Rattle.std.specs.Prelude.{◌≡◌, ◌<◌};
ghost use Rattle.nr_model.specs.Histories.{entries_of};
ghost use Rattle.nr_board.specs.Meetings.{with_step};
ghost use Rattle.nr_board.specs.Rule.{StartsWith};

use crate::map::calls::{ask, fill};
use crate::map::opening::opened;
use crate::map::page::Page;
use nr_map::{Hand, Reader, ReaderMap, Writer};
use nr_model::{OpenFault, RowSet};
use std::alloc::Global;

// The writer learns what a reader did: its history then has exactly the reader's calls, and the
// reader's has the writer's.
fn gather(map: &ReaderMap, writer: &mut Writer, reader: &mut Reader)
    requires own { (reader.old.table ≡ map.now) × (writer.old.table ≡ map.now) }
    ensures own { (reader.new.table ≡ map.now) × (writer.new.table ≡ map.now) }
    ensures calls { entries_of writer.new.seen reader.old.number ≡ reader.old.mine }
    ensures back { StartsWith reader.new.seen writer.new.seen }
{
    map.gather(writer, reader);
}

// A reader learns all that another one has seen, which makes a note of it in one step and else stays
// as it is.
fn tell(map: &ReaderMap, from: &mut Reader, to: &mut Reader)
    requires own { (from.old.table ≡ map.now) × (to.old.table ≡ map.now) }
    ensures own { (from.new ≡ with_step from.old) × (to.new.table ≡ map.now) }
    ensures seen { StartsWith to.new.seen from.old.seen }
{
    map.meet_readers(to, from);
}

// A reader learns all that the writer has seen, as where the dataflow tells it that a key is filled.
fn inform(map: &ReaderMap, writer: &mut Writer, reader: &mut Reader)
    requires own { (reader.old.table ≡ map.now) × (writer.old.table ≡ map.now) }
    ensures own { (reader.new.table ≡ map.now) × (writer.new ≡ with_step writer.old) }
    ensures seen { StartsWith reader.new.seen writer.old.seen }
{
    map.meet(reader, writer);
}

// A reader that holds a set is gathered through its hand, which has the same rows after it.
fn gather_holder(map: &ReaderMap, writer: &mut Writer, hand: &mut Hand)
    requires own { (hand.old.reader.table ≡ map.now) × (writer.old.table ≡ map.now) }
    ensures own { (hand.new.reader.table ≡ map.now) × (writer.new.table ≡ map.now) }
    ensures calls { entries_of writer.new.seen hand.old.reader.number ≡ hand.old.reader.mine }
    ensures held { (hand.new.key ≡ hand.old.key) × (hand.new.rows ≡ hand.old.rows) }
{
    map.gather_hand(writer, hand);
}

// The rows of a pin that was gathered while its key was evicted. Where the key is a hole there is
// nothing to tell.
fn hold_meanwhile(map: &ReaderMap, writer: &mut Writer, reader: Reader, page: &mut Page)
    requires own { (reader.table ≡ map.now) × (writer.old.table ≡ map.now) }
    requires key { 0 < map.now.shape.keys }
{
    let mut hand = Hand::of(reader);
    if hand.pin(map, 0) {
        map.evict(writer, 0);
        gather_holder(map, writer, &mut hand);
        let mut rows = RowSet::new();
        hand.copy_to(map, &mut rows);
        page.line("a pin that was gathered has ", &rows.as_slice());
    }
    hand.into_reader(map);
}

// Reader 1 asks for key 0, the writer gathers it, and it tells reader 2. A proof may then say that the
// writer and reader 2 know of the request; the run shows only what the key is.
fn ask_and_learn(
    map: &ReaderMap,
    writer: &mut Writer,
    one: &mut Reader,
    two: &mut Reader,
    page: &mut Page,
)
    requires readers { (one.old.table ≡ map.now) × (two.old.table ≡ map.now) }
    requires writer { writer.old.table ≡ map.now }
    requires key { 0 < map.now.shape.keys }
    ensures own { (one.new.table ≡ map.now) × (writer.new.table ≡ map.now) }
{
    page.line("the key before the request: ", &map.state(writer, 0));
    ask(map, one, 0);
    gather(map, writer, one);
    page.line("after it: ", &map.state(writer, 0));
    tell(map, one, two);
}

// The writer fills key 0 and tells the reader, whose find then comes after the fill.
fn fill_and_inform(map: &ReaderMap, writer: &mut Writer, reader: &mut Reader, page: &mut Page)
    requires own { (reader.old.table ≡ map.now) × (writer.old.table ≡ map.now) }
    requires key { 0 < map.now.shape.keys }
    ensures own { (reader.new.table ≡ map.now) × (writer.new.table ≡ map.now) }
{
    page.line("after a fill, ", &fill(map, writer, 0));
    inform(map, writer, reader);
    let found = map.find(reader, 0, &mut RowSet::new());
    page.more(", whoever was told finds ", &found);
}

pub fn chapter(alloc: Global) -> Result<Page, OpenFault> {
    let (map, mut writer, mut one, mut two) = opened(alloc, 2, 5)?;
    let mut page = Page::titled(alloc, "A meeting");
    ask_and_learn(&map, &mut writer, &mut one, &mut two, &mut page);
    fill_and_inform(&map, &mut writer, &mut one, &mut page);
    hold_meanwhile(&map, &mut writer, one, &mut page);
    Ok(page)
}
