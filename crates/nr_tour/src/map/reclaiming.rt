//! Rows that refer to texts, which are freed when nobody can see their set any more.
ghost use Rattle.std.specs.Prelude.{◌≡◌, ◌<◌, All, length};

use crate::map::calls::ask;
use crate::map::page::Page;
use crate::map::texts::Texts;
use nr_map::{FillFault, Pin, Reader, ReaderMap, Reaped, Reclaimed, Remains, Rest, Writer};
use nr_model::{Delta, OpenFault, Row, SortedRows};
use std::alloc::Global;

const FIRST: [Row; 1] = [Row { a: 1, b: 0 }];

const LAST: [Row; 1] = [Row { a: 1, b: 2 }];

// No text is in two sets: the row of the first goes as that of the second comes.
const CHANGE: [Delta; 2] = [
    Delta {
        plus: false,
        row: Row { a: 1, b: 0 },
    },
    Delta {
        plus: true,
        row: Row { a: 1, b: 1 },
    },
];

// A slot that was never taken had no set, so nothing comes back.
fn fill(map: &ReaderMap, writer: &mut Writer) -> Result<Reclaimed, FillFault>
    requires own { writer.old.table ≡ map.now }
    requires key { 0 < map.now.shape.keys }
    requires rows { 0 < map.now.shape.rows }
    ensures { writer.new.table ≡ map.now }
{
    let number = map.number(writer, 0);
    map.fill_reclaiming(writer, 0, number, &FIRST, &mut SortedRows::new())
}

// The text that a held set refers to is read where it stands.
fn read_text(map: &ReaderMap, pin: &mut Pin, texts: &Texts, page: &mut Page)
    requires own { pin.old.reader.table ≡ map.now }
    ensures own { pin.new.reader.table ≡ map.now }
{
    if 0 < pin.len() {
        let row = pin.row(map, 0);
        page.line("the pin's text: ", &texts.get(row));
    }
}

// The key gets its second set while a pin holds the first, so that waits, and its text is there. The
// reader comes back, and holds nothing.
fn change_beside(
    map: &ReaderMap,
    writer: &mut Writer,
    reader: Reader,
    texts: &Texts,
    page: &mut Page,
) -> Reader
    requires own { (reader.table ≡ map.now) × (writer.old.table ≡ map.now) }
    requires key { 0 < map.now.shape.keys }
    ensures own { (result.table ≡ map.now) × (writer.new.table ≡ map.now) }
{
    let mut pin = match map.pin(reader, 0) {
        Ok(pin) => pin,
        Err(reader) => return reader,
    };
    let mut had = SortedRows::new();
    let changed = map.update_reclaiming(writer, 0, &CHANGE, &mut had);
    page.line("an update beside a pin: ", &changed);
    page.line("a reap: ", &map.reap(writer, &mut had));
    read_text(map, &mut pin, texts, page);
    pin.release(map)
}

// The replacement takes the slot of the first set, whose text is freed. The second set waits in its
// slot until the reap.
fn free_two(map: &ReaderMap, writer: &mut Writer, texts: &mut Texts, page: &mut Page)
    requires own { writer.old.table ≡ map.now }
    requires key { 0 < map.now.shape.keys }
    requires rows { 0 < map.now.shape.rows }
    ensures { writer.new.table ≡ map.now }
{
    let mut had = SortedRows::new();
    let replaced = map.replace_reclaiming(writer, 0, &LAST, &mut had);
    if let Ok(Reclaimed::Set) = replaced {
        texts.free(had.as_slice());
    }
    page.line("a replacement: ", &replaced);
    page.more(", and texts left: ", &texts.count());
    let reaped = map.reap(writer, &mut had);
    if let Reaped::Set = reaped {
        texts.free(had.as_slice());
    }
    page.line("a reap: ", &reaped);
    page.more(", and texts left: ", &texts.count());
}

// At the end of a map each set comes out that no call gave out, the filled keys' too: at most one for
// each slot.
fn free_rest(mut remains: Remains, slots: u32, texts: &mut Texts) {
    let mut had = SortedRows::new();
    for _ in 0..slots {
        if remains.next_into(&mut had) {
            texts.free(had.as_slice());
        }
    }
}

// Each put has a row that refers to another text.
fn put_three(
    map: &ReaderMap,
    writer: &mut Writer,
    mut reader: Reader,
    texts: &mut Texts,
    page: &mut Page,
) -> Reader
    requires own { (reader.table ≡ map.now) × (writer.old.table ≡ map.now) }
    requires key { 0 < map.now.shape.keys }
    requires rows { 0 < map.now.shape.rows }
    ensures own { (result.table ≡ map.now) × (writer.new.table ≡ map.now) }
{
    ask(map, &mut reader, 0);
    page.line("a fill: ", &fill(map, writer));
    let reader = change_beside(map, writer, reader, texts, page);
    free_two(map, writer, texts, page);
    reader
}

// The one reader of a map leaves its list and is back in it, where there is room for it still.
fn put_by_one(
    map: &ReaderMap,
    writer: &mut Writer,
    readers: &mut Vec<Reader>,
    texts: &mut Texts,
    page: &mut Page,
)
    requires own { writer.old.table ≡ map.now }
    requires key { 0 < map.now.shape.keys }
    requires rows { 0 < map.now.shape.rows }
    requires one { length readers.old.items ≡ 1 }
    requires readers { All (λ reader. reader.table ≡ map.now) readers.old.items }
    ensures own { writer.new.table ≡ map.now }
    ensures one { length readers.new.items ≡ 1 }
    ensures readers { All (λ reader. reader.table ≡ map.now) readers.new.items }
{
    let Some(reader) = readers.pop() else {
        unreachable!()
    };
    let reader = put_three(map, writer, reader, texts, page);
    readers.push_reserved(reader);
}

// A key whose set is put three times, in a map of two slots.
fn give_back(alloc: Global, texts: &mut Texts, page: &mut Page) -> Result<(), OpenFault> {
    let (map, mut writer, mut readers) = ReaderMap::open(alloc, 1, 2, 1, 0)?;
    put_by_one(&map, &mut writer, &mut readers, texts, page);
    free_rest(map.take_apart(writer, readers), 2, texts);
    page.line("at the end of the map: ", &texts.count());
    Ok(())
}

// The one reader asks for the key, which is filled.
fn fill_for_one(map: &ReaderMap, writer: &mut Writer, readers: &mut Vec<Reader>, page: &mut Page)
    requires own { writer.old.table ≡ map.now }
    requires key { 0 < map.now.shape.keys }
    requires rows { 0 < map.now.shape.rows }
    requires one { length readers.old.items ≡ 1 }
    requires readers { All (λ reader. reader.table ≡ map.now) readers.old.items }
    ensures own { writer.new.table ≡ map.now }
    ensures one { length readers.new.items ≡ 1 }
    ensures readers { All (λ reader. reader.table ≡ map.now) readers.new.items }
{
    let Some(mut reader) = readers.pop() else {
        unreachable!()
    };
    ask(map, &mut reader, 0);
    page.line("a fill: ", &fill(map, writer));
    readers.push_reserved(reader);
}

// What is left of a map that stays. One of its two slots was taken.
fn show_rest(map: &ReaderMap, mut rest: Rest, page: &mut Page)
    requires own { rest.writer.table ≡ map.now }
{
    let mut had = SortedRows::new();
    let first = rest.next_of(map, &mut had);
    let second = rest.next_of(map, &mut had);
    page.line("where it lies: ", &[first, second]);
    page.more(": ", &had.as_slice());
}

// The sets of a map that isn't given away come out where they lie.
fn leave_in_place(alloc: Global, page: &mut Page) -> Result<(), OpenFault> {
    let (map, mut writer, mut readers) = ReaderMap::open(alloc, 1, 2, 1, 0)?;
    fill_for_one(&map, &mut writer, &mut readers, page);
    show_rest(&map, map.leave(writer, readers), page);
    Ok(())
}

pub fn chapter(alloc: Global) -> Result<Page, OpenFault> {
    let mut texts = Texts::of_three(alloc)?;
    let mut page = Page::titled(alloc, "Given back");
    give_back(alloc, &mut texts, &mut page)?;
    leave_in_place(alloc, &mut page)?;
    Ok(page)
}
