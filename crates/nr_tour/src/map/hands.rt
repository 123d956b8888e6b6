//! A reader that keeps the set that it found, from one find to the next.
ghost use Rattle.std.specs.Prelude.{◌≡◌, ◌<◌, None};

use crate::map::opening::opened_filled;
use crate::map::page::Page;
use nr_map::{Asked, Hand, Reader, ReaderMap, Writer};
use nr_model::{Batch, OpenFault, Row, RowSet};
use std::alloc::Global;

// The second find is one load and writes nothing, since the key has the set that the hand holds.
fn find_twice(map: &ReaderMap, hand: &mut Hand, page: &mut Page)
    requires own { hand.old.reader.table ≡ map.now }
    requires key { 0 < map.now.shape.keys }
    ensures own { hand.new.reader.table ≡ map.now }
{
    let mut rows = RowSet::new();
    let first = hand.find_kept(map, 0, &mut rows);
    let second = hand.find_kept(map, 0, &mut rows);
    page.line("it finds ", &[first, second]);
    page.more(": ", &rows.as_slice());
}

// A hand hears notes and makes them too, whether it holds a set or not.
fn hear_and_tell(map: &ReaderMap, writer: &mut Writer, hand: &mut Hand)
    requires own { (hand.old.reader.table ≡ map.now) × (writer.old.table ≡ map.now) }
    ensures own { hand.new.reader.table ≡ map.now }
{
    hand.hear(map, map.note_writer(writer));
    map.hear_writer(writer, hand.note(map));
}

// Now the key has another set: the hand lets the old one go, and holds the new one.
fn find_new(map: &ReaderMap, hand: &mut Hand, page: &mut Page)
    requires own { hand.old.reader.table ≡ map.now }
    requires key { 0 < map.now.shape.keys }
    ensures own { hand.new.reader.table ≡ map.now }
{
    let mut rows = RowSet::new();
    let third = hand.find_kept(map, 0, &mut rows);
    page.line("after an update ", &third);
    page.more(": ", &rows.as_slice());
    page.line("it holds the set of ", &hand.key());
}

fn keep_over_update(
    map: &ReaderMap,
    writer: &mut Writer,
    hand: &mut Hand,
    change: &Batch,
    page: &mut Page,
)
    requires own { (hand.old.reader.table ≡ map.now) × (writer.old.table ≡ map.now) }
    requires key { 0 < map.now.shape.keys }
    ensures own { hand.new.reader.table ≡ map.now }
{
    find_twice(map, hand, page);
    map.update(writer, 0, change).ok();
    hear_and_tell(map, writer, hand);
    find_new(map, hand, page);
}

// What a hand holds can be kept as a pin for a while, and be given back to a hand.
fn through_pin(map: &ReaderMap, hand: Hand) -> Hand
    requires own { hand.reader.table ≡ map.now }
    ensures own { result.reader.table ≡ map.now }
{
    match hand.into_pin() {
        Ok(pin) => Hand::of_pin(pin, 0),
        Err(reader) => Hand::of(reader),
    }
}

// Whether the key has the set that is held, whose rows are copied then.
fn copy_again(map: &ReaderMap, hand: &mut Hand, rows: &mut RowSet) -> bool
    requires own { hand.old.reader.table ≡ map.now }
    requires key { 0 < map.now.shape.keys }
    ensures own { hand.new.reader.table ≡ map.now }
{
    let again = hand.again(map, 0);
    if again {
        hand.copy_to(map, rows);
    }
    again
}

// Whether a request finds key 0 filled.
fn is_filled(map: &ReaderMap, hand: &mut Hand) -> bool
    requires own { hand.old.reader.table ≡ map.now }
    requires idle { hand.old.key ≡ None }
    requires key { 0 < map.now.shape.keys }
    ensures own { hand.new.reader.table ≡ map.now }
{
    match hand.ask(map, 0) {
        Asked::Filled => true,
        Asked::Waiting => false,
        Asked::Send(ticket) => {
            ticket.into_key();
            false
        }
    }
}

// A hand that is to hold nothing for a while is released, so that no slot waits for it.
fn pin_anew(map: &ReaderMap, hand: &mut Hand, page: &mut Page)
    requires own { hand.old.reader.table ≡ map.now }
    requires key { 0 < map.now.shape.keys }
    ensures own { hand.new.reader.table ≡ map.now }
{
    hand.release(map);
    let pinned = hand.pin(map, 0);
    page.line(
        "it pins the key anew, and its rows: ",
        &(pinned, hand.len()),
    );
    let mut rows = RowSet::new();
    page.line(
        "the key has this set still: ",
        &copy_again(map, hand, &mut rows),
    );
}

// Whichever key it is taken for, the set stays as it is.
fn show_first(map: &ReaderMap, hand: &mut Hand, page: &mut Page)
    requires own { hand.old.reader.table ≡ map.now }
    ensures own { hand.new.reader.table ≡ map.now }
{
    hand.hold_for(1);
    if hand.key().is_some() && 0 < hand.len() {
        page.line("its first row: ", &hand.row(map, 0));
    }
}

fn find_and_ask(map: &ReaderMap, mut hand: Hand, page: &mut Page)
    requires own { hand.reader.table ≡ map.now }
    requires key { 0 < map.now.shape.keys }
{
    let once = hand.find(map, 0, &mut RowSet::new());
    page.line("a find that keeps nothing: ", &once);
    page.more(", ", &hand.key());
    let tag = Row { a: 0, b: 1 };
    let other = hand.find_tagged(map, 0, tag, &mut RowSet::new());
    page.line("a find by the tag 0:1: ", &other);
    page.line(
        "a request finds the key filled: ",
        &is_filled(map, &mut hand),
    );
    page.line("its reader: ", &hand.number());
    hand.into_reader(map);
}

fn keep_and_pin(
    map: &ReaderMap,
    writer: &mut Writer,
    reader: Reader,
    change: &Batch,
    page: &mut Page,
)
    requires own { (reader.table ≡ map.now) × (writer.old.table ≡ map.now) }
    requires key { 0 < map.now.shape.keys }
{
    let mut hand = Hand::of(reader);
    keep_over_update(map, writer, &mut hand, change, page);
    let mut hand = through_pin(map, hand);
    pin_anew(map, &mut hand, page);
    show_first(map, &mut hand, page);
    find_and_ask(map, hand, page);
}

/// One reader finds key 0 three times, with an update before the last.
pub fn chapter(alloc: Global, change: &Batch) -> Result<Page, OpenFault> {
    let (map, mut writer, one, _two) = opened_filled(alloc, 2, 5)?;
    let mut page = Page::titled(alloc, "A hand");
    keep_and_pin(&map, &mut writer, one, change, &mut page);
    Ok(page)
}
