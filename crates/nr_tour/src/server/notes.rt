//! A write that another thread reads once it was acknowledged: a note goes with the message.
ghost use Rattle.std.specs.Prelude.{◌≡◌, ◌<◌, IfOk};
ghost use Rattle.nr_board.specs.Meetings.{HearsNote};
ghost use Rattle.nr_map.specs.Written.{FindsAfter, answered};

use crate::map::{Page, ROWS, opened, set_of};
use nr_map::{Asked, FillFault, Found, Note, Pin, Reader, ReaderMap, Writer, laws};
use nr_model::{OpenFault, RowSet};
use nr_trigger::{Poster, Taker, Triggers};
use std::alloc::Global;
use std::sync::Wait;
use std::thread::{Threads, join};

// A queue for the map, whose tickets may have notes of it.
fn queue_for(alloc: Global, map: &ReaderMap) -> Result<(Triggers, Poster, Taker), OpenFault>
    ensures queue { IfOk result (λ (triggers, poster, taker). (poster.queue ≡ triggers.id) × (taker.queue ≡ triggers.id)) }
    ensures keys { IfOk result (λ (_, poster, taker). (poster.keys ≡ map.now.shape.keys) × (taker.keys ≡ map.now.shape.keys)) }
    ensures map { IfOk result (λ (_, poster, taker). (poster.map ≡ Some map.now) × (taker.map ≡ Some map.now)) }
{
    let (triggers, mut posters, taker) = Triggers::open_for(alloc, map, 1, 1)?;
    let Some(poster) = posters.pop() else {
        unreachable!()
    };
    Ok((triggers, poster, taker))
}

// Who asks for key 0 tells with the ticket what it has seen.
fn ask_and_tell<R: Wait>(
    rt: &R,
    map: &ReaderMap,
    triggers: &Triggers,
    reader: &mut Reader,
    poster: &mut Poster,
)
    requires own { (reader.old.table ≡ map.now) × (0 < map.now.shape.keys) }
    requires queue { (poster.old.queue ≡ triggers.now.id) × (poster.old.keys ≡ map.now.shape.keys) × (poster.old.map ≡ Some map.now) }
    ensures own { reader.new.table ≡ map.now }
{
    match map.ask(reader, 0) {
        Asked::Send(ticket) => {
            let note = map.note(reader);
            if let Err((back, _)) = triggers.post_with(rt, poster, ticket, note) {
                back.into_key();
            }
        }
        Asked::Waiting | Asked::Filled => {}
    }
}

// The dataflow hears it before it fills the key.
fn hear_and_fill<R: Wait>(
    rt: &R,
    map: &ReaderMap,
    triggers: &Triggers,
    writer: &mut Writer,
    taker: &mut Taker,
) -> Option<Result<(), FillFault>>
    requires own { writer.old.table ≡ map.now }
    requires queue { (taker.old.queue ≡ triggers.now.id) × (taker.old.keys ≡ map.now.shape.keys) × (taker.old.map ≡ Some map.now) }
    ensures own { writer.new.table ≡ map.now }
{
    let mut trigger = triggers.take(rt, taker)?;
    if let Some(note) = trigger.note() {
        map.hear_writer(writer, note);
    }
    let number = trigger.number();
    Some(map.fill(writer, trigger.into_key(), number, &set_of(map, &ROWS)))
}

// Once the writer has written, its note goes with the acknowledgement: it tells all that the writer
// had seen by then.
fn acknowledge(map: &ReaderMap, writer: &mut Writer) -> Note
    requires own { writer.old.table ≡ map.now }
    ensures own { (writer.new.table ≡ map.now) × (result.table ≡ map.now) }
    ensures seen { result.seen ≡ writer.old.seen }
{
    map.note_writer(writer)
}

// A reader that hears the note has seen the write, in any thread.
fn hear(map: &ReaderMap, reader: &mut Reader, note: Note)
    requires own { (reader.old.table ≡ map.now) × (note.table ≡ map.now) }
    ensures own { reader.new.table ≡ map.now }
    ensures hears { HearsNote 1 note reader.old reader.new }
{
    map.hear(reader, note);
}

// What the other thread does: it hears the note, and finds the key. A law says what it finds: the
// rows of the write, or of a later one, and a hole only where the key was evicted since.
fn hear_and_find(map: &ReaderMap, mut reader: Reader, note: Note) -> (Found, RowSet)
    requires own { (reader.table ≡ map.now) × (note.table ≡ map.now) }
    requires key { 0 < map.now.shape.keys }
    ensures written { let (found, rows) = result in FindsAfter map.now 0 note.seen (answered found rows) }
{
    laws::finds_what_it_heard();
    hear(map, &mut reader, note);
    let mut rows = RowSet::new();
    let found = map.find(&mut reader, 0, &mut rows);
    (found, rows)
}

// The writer goes on in this thread, and the reader hears the note in one of its own.
fn found_there<R: Threads + Sync>(rt: &R, map: &ReaderMap, reader: Reader, note: Note) -> Found
    requires own { (reader.table ≡ map.now) × (note.table ≡ map.now) }
    requires key { 0 < map.now.shape.keys }
{
    let ((found, _rows), ()) = join(
        rt,
        move || -> (Found, RowSet)
            requires { (reader.table ≡ map.now) × (note.table ≡ map.now) × (0 < map.now.shape.keys) }
        { hear_and_find(map, reader, note) },
        move || {},
    );
    found
}

// The request and its answer go by a queue of their own.
fn fill_by_queue<R: Wait>(
    rt: &R,
    alloc: Global,
    map: &ReaderMap,
    reader: &mut Reader,
    writer: &mut Writer,
) -> Result<Option<Result<(), FillFault>>, OpenFault>
    requires own { (reader.old.table ≡ map.now) × (writer.old.table ≡ map.now) }
    requires key { 0 < map.now.shape.keys }
    ensures own { (reader.new.table ≡ map.now) × (writer.new.table ≡ map.now) }
{
    let (triggers, mut poster, mut taker) = queue_for(alloc, map)?;
    ask_and_tell(rt, map, &triggers, reader, &mut poster);
    Ok(hear_and_fill(rt, map, &triggers, writer, &mut taker))
}

// A reader that was told tells the writer.
fn tell_back(map: &ReaderMap, writer: &mut Writer, reader: &mut Reader, note: Note)
    requires own { (reader.old.table ≡ map.now) × (writer.old.table ≡ map.now) × (note.table ≡ map.now) }
    ensures own { (reader.new.table ≡ map.now) × (writer.new.table ≡ map.now) }
{
    hear(map, reader, note);
    map.hear_writer(writer, map.note(reader));
}

// A pin makes a note and hears one as its reader does, and keeps its set.
fn tell_holder(map: &ReaderMap, writer: &mut Writer, pin: &mut Pin)
    requires own { (pin.old.reader.table ≡ map.now) × (writer.old.table ≡ map.now) }
    ensures own { pin.new.reader.table ≡ map.now }
{
    map.hear_writer(writer, map.note_pin(pin));
    map.hear_pin(pin, acknowledge(map, writer));
}

// Where the key is a hole there is nothing to tell.
fn hold_meanwhile(map: &ReaderMap, writer: &mut Writer, reader: Reader, page: &mut Page)
    requires own { (reader.table ≡ map.now) × (writer.old.table ≡ map.now) }
    requires key { 0 < map.now.shape.keys }
{
    let mut pin = match map.pin(reader, 0) {
        Ok(pin) => pin,
        Err(_) => return,
    };
    tell_holder(map, writer, &mut pin);
    let mut rows = RowSet::new();
    pin.copy_to(map, &mut rows);
    page.line("a pin that told and heard has ", &rows.as_slice());
    pin.release(map);
}

// The message is for two: a reader that passes it on splits its note for them.
fn tell_two<R: Threads + Sync>(
    rt: &R,
    map: &ReaderMap,
    writer: &mut Writer,
    mut one: Reader,
    two: Reader,
    page: &mut Page,
)
    requires own { (one.table ≡ map.now) × (two.table ≡ map.now) × (writer.old.table ≡ map.now) }
    requires key { 0 < map.now.shape.keys }
{
    let note = acknowledge(map, writer);
    let (note, other) = map.split_note(&mut one, note);
    let found = found_there(rt, map, two, note);
    page.line("the thread that heard of it finds ", &found);
    tell_back(map, writer, &mut one, other);
    hold_meanwhile(map, writer, one, page);
}

/// A reader asks for key 0, the writer fills it, and a note of that goes to a thread which finds the
/// key.
pub fn written_and_read<R: Threads + Wait + Sync>(
    rt: &R,
    alloc: Global,
) -> Result<Page, OpenFault> {
    let (map, mut writer, mut one, two) = opened(alloc, 2, 5)?;
    let filled = fill_by_queue(rt, alloc, &map, &mut one, &mut writer)?;
    let mut page = Page::titled(alloc, "An acknowledged write");
    page.line("the fill: ", &filled);
    tell_two(rt, &map, &mut writer, one, two, &mut page);
    Ok(page)
}
