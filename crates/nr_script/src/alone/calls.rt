//! The calls of one reader.
ghost use Rattle.std.specs.Prelude.{◌≡◌, ◌<◌};
ghost use Rattle.nr_board.specs.Meetings.{HearsNote, known_to, with_step};
ghost use Rattle.nr_model.specs.declared.calls.Call.TheVariants as model;
ghost use Rattle.nr_script.specs.Hands.{FindsAgain, MakesCall, MakesPin, NotesFor, ShowsPin, Unpins};

use crate::alone::answer::{Answer, PinRefusal, Said};
use nr_map::{Asked, Found, Hand, ReaderMap, Writer};
use nr_model::RowSet;

// A reader that has no pin hears the writer before its call, so that its call comes after all that the
// writer had seen.
fn hear_writer(map: &ReaderMap, writer: &mut Writer, hand: &mut Hand)
    requires own { (writer.old.table ≡ map.now) × (hand.old.reader.table ≡ map.now) }
    ensures writer { writer.new ≡ with_step writer.old }
    ensures reader { HearsNote 1 (known_to writer.old) hand.old.reader hand.new.reader }
    ensures held { (hand.new.key ≡ hand.old.key) × (hand.new.rows ≡ hand.old.rows) }
{
    let note = map.note_writer(writer);
    hand.hear(map, note);
}

pub(crate) fn find_at<'a>(
    map: &ReaderMap,
    writer: &mut Writer,
    hand: &mut Hand,
    key: u32,
    rows: &'a mut RowSet,
) -> Result<Answer<'a>, PinRefusal>
    requires own { (writer.old.table ≡ map.now) × (hand.old.reader.table ≡ map.now) }
    requires key { key < map.now.shape.keys }
    ensures writer { NotesFor writer.old writer.new result }
    ensures made { MakesCall writer.old.seen (model.Find key) hand.old hand.new result }
{
    if hand.key().is_some() {
        return Err(PinRefusal::Holding);
    }
    hear_writer(map, writer, hand);
    let said = match hand.find(map, key, rows) {
        Found::Rows => Said::Rows(rows),
        Found::Hole => Said::Hole,
    };
    Ok(Answer { said })
}

pub(crate) fn ask_at(
    map: &ReaderMap,
    writer: &mut Writer,
    hand: &mut Hand,
    key: u32,
) -> Result<Answer<'static>, PinRefusal>
    requires own { (writer.old.table ≡ map.now) × (hand.old.reader.table ≡ map.now) }
    requires key { key < map.now.shape.keys }
    ensures writer { NotesFor writer.old writer.new result }
    ensures made { MakesCall writer.old.seen (model.Ask key) hand.old hand.new result }
{
    if hand.key().is_some() {
        return Err(PinRefusal::Holding);
    }
    hear_writer(map, writer, hand);
    let said = match hand.ask(map, key) {
        Asked::Send(ticket) => {
            let number = ticket.number();
            ticket.into_key();
            Said::Send(number)
        }
        Asked::Waiting => Said::Waiting,
        Asked::Filled => Said::Filled,
    };
    Ok(Answer { said })
}

pub(crate) fn pin_at(
    map: &ReaderMap,
    writer: &mut Writer,
    hand: &mut Hand,
    key: u32,
) -> Result<Answer<'static>, PinRefusal>
    requires own { (writer.old.table ≡ map.now) × (hand.old.reader.table ≡ map.now) }
    requires key { key < map.now.shape.keys }
    ensures writer { NotesFor writer.old writer.new result }
    ensures made { MakesPin writer.old.seen key hand.old hand.new result }
{
    if hand.key().is_some() {
        return Err(PinRefusal::Holding);
    }
    hear_writer(map, writer, hand);
    let said = if hand.pin(map, key) {
        Said::Ok
    } else {
        Said::Hole
    };
    Ok(Answer { said })
}

/// The rows that a reader has pinned.
pub(crate) fn show_at<'a>(
    map: &ReaderMap,
    hand: &mut Hand,
    rows: &'a mut RowSet,
) -> Result<Answer<'a>, PinRefusal>
    requires { hand.old.reader.table ≡ map.now }
    ensures { ShowsPin hand.old hand.new result }
{
    if hand.key().is_none() {
        return Err(PinRefusal::NotHolding);
    }
    hand.copy_to(map, rows);
    Ok(Answer {
        said: Said::Rows(rows),
    })
}

/// Whether a key still has the set that a reader has pinned: its rows where that is so. A reader
/// with a pin hears nobody before: the round after each line has told it what the writer had seen.
pub(crate) fn again_at<'a>(
    map: &ReaderMap,
    hand: &mut Hand,
    key: u32,
    rows: &'a mut RowSet,
) -> Result<Answer<'a>, PinRefusal>
    requires own { hand.old.reader.table ≡ map.now }
    requires key { key < map.now.shape.keys }
    ensures { FindsAgain key hand.old hand.new result }
{
    let Some(pinned) = hand.key() else {
        return Err(PinRefusal::NotHolding);
    };
    hand.hold_for(key);
    let found = hand.again(map, key);
    hand.hold_for(pinned);
    if !found {
        return Ok(Answer { said: Said::Other });
    }
    hand.copy_to(map, rows);
    Ok(Answer {
        said: Said::Rows(rows),
    })
}

pub(crate) fn unpin_at(map: &ReaderMap, hand: &mut Hand) -> Result<Answer<'static>, PinRefusal>
    requires { hand.old.reader.table ≡ map.now }
    ensures { Unpins hand.old hand.new result }
{
    if hand.key().is_none() {
        return Err(PinRefusal::NotHolding);
    }
    hand.release(map);
    Ok(Answer { said: Said::Ok })
}
