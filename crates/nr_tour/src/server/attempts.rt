//! The queue for a thread that may not wait: each call makes one attempt.
ghost use Rattle.std.specs.Prelude.{◌≡◌, ◌<◌, ◌≤◌, MatchOption};

use crate::map::{Page, ROWS, set_of};
use crate::server::queue::{Server, opened_server};
use nr_map::{Asked, FillFault, Reader, ReaderMap, Writer};
use nr_model::OpenFault;
use nr_trigger::{PostFault, Poster, Taker, Triggers, Upquery};
use std::alloc::Global;

// Requests a key, and gives what the ticket of a request that is to be sent names. The ticket is spent
// here, so the owner of the request owes its upquery now.
fn request(map: &ReaderMap, reader: &mut Reader, key: u32) -> Option<Upquery>
    requires own { reader.old.table ≡ map.now }
    requires key { key < map.now.shape.keys }
    ensures own { reader.new.table ≡ map.now }
    ensures key { MatchOption result (Unit {0}) (λ upquery. upquery.key ≡ key) }
{
    match map.ask(reader, key) {
        Asked::Send(ticket) => {
            let upquery = Upquery {
                key: ticket.key(),
                number: ticket.number(),
            };
            ticket.into_key();
            Some(upquery)
        }
        Asked::Waiting | Asked::Filled => None,
    }
}

// One attempt to post a request. It is still to be posted where the queue is full, and where another
// thread is in the way.
fn try_post(triggers: &Triggers, poster: &mut Poster, upquery: Option<Upquery>) -> Option<Upquery>
    requires queue { poster.old.queue ≡ triggers.now.id }
    requires key { MatchOption upquery (Unit {0}) (λ upquery. upquery.key < poster.old.keys) }
    ensures queue { (poster.new.queue ≡ triggers.now.id) × (poster.new.keys ≡ poster.old.keys) }
    ensures key { MatchOption result (Unit {0}) (λ upquery. upquery.key < poster.new.keys) }
{
    let upquery = upquery?;
    match triggers.try_post(poster, upquery) {
        Ok(()) => None,
        Err(PostFault::Full | PostFault::InTheWay) => Some(upquery),
    }
}

// One attempt to take a trigger, which is answered and spent.
fn try_answer(
    map: &ReaderMap,
    triggers: &Triggers,
    writer: &mut Writer,
    taker: &mut Taker,
) -> Option<(u32, Result<(), FillFault>)>
    requires own { writer.old.table ≡ map.now }
    requires queue { (taker.old.queue ≡ triggers.now.id) × (taker.old.keys ≤ map.now.shape.keys) }
    ensures own { writer.new.table ≡ map.now }
    ensures queue { (taker.new.queue ≡ triggers.now.id) × (taker.new.keys ≡ taker.old.keys) }
{
    let trigger = triggers.try_take(taker).ok()?;
    let filled = map.fill(writer, trigger.key(), trigger.number(), &set_of(map, &ROWS));
    Some((trigger.into_key(), filled))
}

// The dataflow's part: a request that is left is posted once the first was taken.
fn answer_in_turn(
    map: &ReaderMap,
    triggers: &Triggers,
    poster: &mut Poster,
    left: Option<Upquery>,
    writer: &mut Writer,
    taker: &mut Taker,
    page: &mut Page,
)
    requires own { writer.old.table ≡ map.now }
    requires poster { poster.old.queue ≡ triggers.now.id }
    requires key { MatchOption left (Unit {0}) (λ upquery. upquery.key < poster.old.keys) }
    requires taker { (taker.old.queue ≡ triggers.now.id) × (taker.old.keys ≤ map.now.shape.keys) }
{
    page.line("an answer: ", &try_answer(map, triggers, writer, taker));
    page.line("it is left: ", &try_post(triggers, poster, left));
    page.line("another: ", &try_answer(map, triggers, writer, taker));
    page.line("a third: ", &try_answer(map, triggers, writer, taker));
}

// Two requests and room for one, as in the chapter before. The second is left.
fn post_in_turn(
    map: &ReaderMap,
    triggers: &Triggers,
    reader: &mut Reader,
    poster: &mut Poster,
    page: &mut Page,
) -> Option<Upquery>
    requires own { (reader.old.table ≡ map.now) × (map.now.shape.keys ≡ 2) }
    requires queue { (poster.old.queue ≡ triggers.now.id) × (poster.old.keys ≡ 2) }
    ensures queue { poster.new.queue ≡ triggers.now.id }
    ensures key { MatchOption result (Unit {0}) (λ upquery. upquery.key < poster.new.keys) }
{
    let first = request(map, reader, 0);
    page.line(
        "of the first request is left: ",
        &try_post(triggers, poster, first),
    );
    let second = request(map, reader, 1);
    let left = try_post(triggers, poster, second);
    page.line("of the second: ", &left);
    left
}

/// Nobody else calls here, so no attempt fails for a thread that is in the way.
pub fn passed_on(alloc: Global) -> Result<Page, OpenFault> {
    let Server {
        map,
        mut writer,
        mut reader,
        triggers,
        mut poster,
        mut taker,
    } = opened_server(alloc, 1)?;
    let mut page = Page::titled(alloc, "One attempt");
    let left = post_in_turn(&map, &triggers, &mut reader, &mut poster, &mut page);
    answer_in_turn(
        &map,
        &triggers,
        &mut poster,
        left,
        &mut writer,
        &mut taker,
        &mut page,
    );
    Ok(page)
}
