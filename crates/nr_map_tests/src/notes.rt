//! Notes that go by a channel from the writer's thread to a reader's.
ghost use Rattle.std.specs.Prelude.{◌≡◌, ◌<◌};
ghost use Rattle.nr_board.specs.Meetings.{Known};

use crate::calls::{Told, fill, finds, plus, rows_of, updates};
use crate::same::is_same;
use crate::worked::Worked;
use crossbeam_channel::{Receiver, Sender, unbounded};
use nr_map::{Note, Reader, ReaderMap, Writer};
use std::alloc::{AllocError, Global};
use std::marker::{Brand, Model, PhantomData};
use std::sync::Wait;
use std::test::Fail;
use std::thread::{Threads, join};

/// Which notes go by a channel, for the proof alone.
trait Carries {
    ghost use Rattle.nr_board.specs.Meetings.{Known};

    ghost takes: { Known → Type 0 };
}

impl Carries for Brand {
    ghost takes = { λ _. Unit {0} };
}

/// That the key was written, with a note of it.
#[derive(Drop)]
struct Word<C: Carries> {
    note: Note,
    of: PhantomData<C>,
}

impl<C: Carries> Model for Word<C> {
    ghost use Rattle.nr_board.specs.Meetings.{Known};

    ghost Value = { Known };

    ghost view = { λ word. word.note };

    ghost invariant = { λ word. C.takes word.note };
}

impl<C: Carries> Word<C> {
    fn of(note: Note) -> Word<C>
        requires { C.takes note }
    {
        Word {
            note,
            of: PhantomData,
        }
    }

    fn into_note(self) -> Note
        ensures { C.takes result }
    {
        let Word { note, of: _ } = self;
        note
    }
}

/// Fills key 0 and updates it, and sends word of that: whether all was done.
fn write_and_tell<C: Carries, R: Wait>(
    rt: &R,
    map: &ReaderMap,
    mut writer: Writer,
    told: Sender<Word<C>, Global>,
) -> bool
    requires own { writer.table ≡ map.now }
    requires key { 0 < map.now.shape.keys }
    requires carries { (note : Known) → note.table ≡ map.now → C.takes note }
{
    let filled = fill(map, &mut writer, 0, 0, &rows_of(&[(5, 6)]));
    let is_updated = updates(map, &mut writer, 0, &[plus(7, 8)]);
    let word = Word::of(map.note_writer(&mut writer));
    filled == Some(Ok(())) && is_updated && told.send(rt, word).is_ok()
}

/// Hears a note. Of two notes made of one either says the same.
fn hear(map: &ReaderMap, reader: &mut Reader, note: Note)
    requires own { (reader.old.table ≡ map.now) × (note.table ≡ map.now) }
    ensures own { reader.new.table ≡ map.now }
{
    let (_first, second) = map.split_note(reader, note);
    map.hear(reader, second);
}

/// Waits for word, and finds key 0 then: whether it has the rows that were written.
fn hear_and_find<C: Carries, R: Wait>(
    rt: &R,
    map: &ReaderMap,
    mut reader: Reader,
    words: Receiver<Word<C>, Global>,
) -> bool
    requires own { reader.table ≡ map.now }
    requires key { 0 < map.now.shape.keys }
    requires carried { (note : Known) → C.takes note → note.table ≡ map.now }
{
    let Ok(word) = words.recv(rt) else {
        return false;
    };
    hear(map, &mut reader, word.into_note());
    finds(map, &mut reader, 0, &[(5, 6), (7, 8)])
}

/// The writer in one thread, the reader in another, and a channel between them.
fn both<C: Carries + Send, R: Threads + Wait + Sync>(
    rt: &R,
    alloc: Global,
    map: &ReaderMap,
    writer: Writer,
    reader: Reader,
) -> Result<(bool, bool), AllocError>
    requires own { (writer.table ≡ map.now) × (reader.table ≡ map.now) }
    requires key { 0 < map.now.shape.keys }
    requires carries { (note : Known) → note.table ≡ map.now → C.takes note }
    requires carried { (note : Known) → C.takes note → note.table ≡ map.now }
{
    let (told, words): (Sender<Word<C>, Global>, Receiver<Word<C>, Global>) = unbounded(alloc)?;
    Ok(join(
        rt,
        move || -> bool
            requires own { (writer.table ≡ map.now) × (0 < map.now.shape.keys) }
            requires carries { (note : Known) → note.table ≡ map.now → C.takes note }
        { write_and_tell(rt, map, writer, told) },
        move || -> bool
            requires own { (reader.table ≡ map.now) × (0 < map.now.shape.keys) }
            requires carried { (note : Known) → C.takes note → note.table ≡ map.now }
        { hear_and_find(rt, map, reader, words) },
    ))
}

fn both_of_map<R: Threads + Wait + Sync>(
    rt: &R,
    alloc: Global,
    map: &ReaderMap,
    writer: Writer,
    reader: Reader,
) -> Result<(bool, bool), AllocError>
    requires own { (writer.table ≡ map.now) × (reader.table ≡ map.now) }
    requires key { 0 < map.now.shape.keys }
{
    both::<Brand, R>(rt, alloc, map, writer, reader)
}

#[test]
fn a_note_goes_by_a_channel(rt: HostRuntime) -> Result<(), Fail> {
    let mut worked = Worked::open(&rt, 1, 3, 1, 0);
    worked.asks(&rt, 0, Told::Send(0, 0));
    let Worked {
        map,
        writer,
        reader,
    } = worked;
    is_same(
        &rt,
        &both_of_map(&rt, rt.alloc(), &map, writer, reader)?,
        &(true, true),
    );
    Ok(())
}
