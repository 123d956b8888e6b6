//! A running map whose tokens all have one owner: each call is answered as the sequential map
//! answers it, and a call finds no slot exactly where all slots are in use.
ghost use Rattle.std.specs.Prelude.{◌≡◌, ◌≤◌, ◌<◌, ◌↔◌, All, length, Ok, Err, IfOk, map as each_of};
ghost use Rattle.nr_core.specs.Sizes.{IsBadShape};
ghost use Rattle.nr_model.specs.declared.rows.TheConstants.{MAX_ROWS};
ghost use Rattle.nr_script.specs.WriterCalls.{model_call, writer_key};
ghost use Rattle.nr_map.specs.Hands.{idle};

mod answer;
mod calls;
mod premises;
mod round;
mod writer_calls;

use crate::alone::calls::{again_at, ask_at, find_at, pin_at, show_at, unpin_at};
use crate::alone::premises::laws;
use crate::alone::round::gather_round;
use crate::alone::writer_calls::call_writer;
pub use answer::{Answer, PinRefusal, Said};
use nr_map::{Hand, Reader, ReaderMap, Shape, Writer};
use nr_model::laws::{legal_begins, numbers_count_cancels};
use nr_model::{OpenFault, RowSet};
use std::alloc::{AllocError, Global};
use std::marker::Model;
pub use writer_calls::WriterCall;

/// A map, its writer and its readers, each idle or with a pin. After each call every reader is
/// gathered, the one that called first. It can't be dropped: it must be closed.
pub struct Alone {
    map: ReaderMap,
    writer: Writer,
    hands: Vec<Hand>,
}

impl Model for Alone {
    ghost use Rattle.nr_script.specs.MapState.{MapState};
    ghost use Rattle.nr_script.specs.Alone.{IsAlone, shown_by};

    ghost Value = { MapState };

    ghost view = { λ inside. shown_by inside.map inside.writer inside.hands.items };

    ghost invariant = { λ inside. IsAlone inside.map inside.writer inside.hands.items };
}

impl Alone {
    ghost use Rattle.nr_model.specs.Maps.{SetFits, key_count, number_of, state_of};
    ghost use Rattle.nr_model.specs.declared.calls.Call.TheVariants as model;
    ghost use Rattle.nr_script.specs.MapState.{answer_again, answer_call, answer_of_reader, answer_pinning, answer_show, answer_unpin, opened_map};

    /// A map of that shape, each key a hole. Refused where the shape is out of its limits, and then
    /// where there is no memory.
    pub fn open(alloc: Global, shape: &Shape) -> Result<Alone, OpenFault>
        ensures bad_size { (result ≡ Err OpenFault.BadSize) ↔ IsBadShape shape.now }
        ensures ok { IfOk result (λ alone. alone ≡ opened_map shape.now) }
    {
        let (map, mut writer, readers) = ReaderMap::open_with(alloc, shape)?;
        let mut hands = match hands_of(alloc, readers) {
            Ok(hands) => hands,
            Err(_) => return Err(OpenFault::Memory),
        };
        laws();
        gather_round(&map, &mut writer, hands.as_mut_slice(), 0);
        Ok(Alone { map, writer, hands })
    }

    /// How many keys the map has. They are numbered from 0.
    pub fn keys(&self) -> u32
        ensures { result ≡ key_count self.now.map }
    {
        self.map.keys()
    }

    /// How many rows a key may have: 1 to 255.
    pub fn rows(&self) -> u32
        ensures value { result ≡ self.now.map.bound }
        ensures positive { 0 < result }
        ensures bounded { result ≤ MAX_ROWS }
    {
        self.map.rows()
    }

    /// How many readers the map has. Here they are numbered from 0.
    pub fn readers(&self) -> u32
        ensures { result ≡ length self.now.pins }
    {
        self.map.readers()
    }

    /// The ticket number of a key as it stands, by which a fill answers the key's request.
    pub fn number(&self, key: u32) -> u64
        requires { key < key_count self.now.map }
        ensures { result ≡ number_of (state_of self.now.map key) }
    {
        numbers_count_cancels();
        legal_begins();
        self.map.number(&self.writer, key)
    }

    /// A call of the writer's at one of the map's keys. The rows of a find are written into the set.
    pub fn call<'a>(&mut self, call: &WriterCall<'_>, rows: &'a mut RowSet) -> Answer<'a>
        requires key { writer_key call.now < key_count self.old.map }
        requires fits { SetFits self.old.map.bound (model_call call.now) }
        ensures { answer_call self.old (model_call call.now) ≡ (Ok result, self.new) }
    {
        laws();
        let answer = call_writer(&self.map, &mut self.writer, call, rows);
        gather_round(&self.map, &mut self.writer, self.hands.as_mut_slice(), 0);
        answer
    }

    /// A find of a reader's that has no pin. The rows are written into the set.
    pub fn find<'a>(
        &mut self,
        at: usize,
        key: u32,
        rows: &'a mut RowSet,
    ) -> Result<Answer<'a>, PinRefusal>
        requires reader { at < length self.old.pins }
        requires key { key < key_count self.old.map }
        ensures { answer_of_reader self.old at (model.Find key) ≡ (result, self.new) }
    {
        laws();
        let answer = find_at(&self.map, &mut self.writer, &mut self.hands[at], key, rows)?;
        gather_round(&self.map, &mut self.writer, self.hands.as_mut_slice(), at);
        Ok(answer)
    }

    /// A request of a reader's that has no pin.
    pub fn ask(&mut self, at: usize, key: u32) -> Result<Answer<'static>, PinRefusal>
        requires reader { at < length self.old.pins }
        requires key { key < key_count self.old.map }
        ensures { answer_of_reader self.old at (model.Ask key) ≡ (result, self.new) }
    {
        laws();
        let answer = ask_at(&self.map, &mut self.writer, &mut self.hands[at], key)?;
        gather_round(&self.map, &mut self.writer, self.hands.as_mut_slice(), at);
        Ok(answer)
    }

    /// A reader that has no pin pins the set of a key, if the key has one.
    pub fn pin(&mut self, at: usize, key: u32) -> Result<Answer<'static>, PinRefusal>
        requires reader { at < length self.old.pins }
        requires key { key < key_count self.old.map }
        ensures { answer_pinning self.old at key (state_of self.old.map key) ≡ (result, self.new) }
    {
        laws();
        let answer = pin_at(&self.map, &mut self.writer, &mut self.hands[at], key)?;
        gather_round(&self.map, &mut self.writer, self.hands.as_mut_slice(), at);
        Ok(answer)
    }

    /// Shows the set that a reader has pinned: its rows are written into the caller's.
    pub fn show<'a>(&mut self, at: usize, rows: &'a mut RowSet) -> Result<Answer<'a>, PinRefusal>
        requires { at < length self.old.pins }
        ensures { answer_show self.old at ≡ (result, self.new) }
    {
        laws();
        let answer = show_at(&self.map, &mut self.hands[at], rows)?;
        gather_round(&self.map, &mut self.writer, self.hands.as_mut_slice(), at);
        Ok(answer)
    }

    /// Finds a key again by a reader's pin: where the key has the set that the reader pinned, its
    /// rows are written into the set.
    pub fn again<'a>(
        &mut self,
        at: usize,
        key: u32,
        rows: &'a mut RowSet,
    ) -> Result<Answer<'a>, PinRefusal>
        requires reader { at < length self.old.pins }
        requires key { key < key_count self.old.map }
        ensures { answer_again self.old at key ≡ (result, self.new) }
    {
        laws();
        let answer = again_at(&self.map, &mut self.hands[at], key, rows)?;
        gather_round(&self.map, &mut self.writer, self.hands.as_mut_slice(), at);
        Ok(answer)
    }

    /// Ends a reader's pin.
    pub fn unpin(&mut self, at: usize) -> Result<Answer<'static>, PinRefusal>
        requires { at < length self.old.pins }
        ensures { answer_unpin self.old at ≡ (result, self.new) }
    {
        laws();
        let answer = unpin_at(&self.map, &mut self.hands[at])?;
        gather_round(&self.map, &mut self.writer, self.hands.as_mut_slice(), at);
        Ok(answer)
    }

    /// The map ends: pins that are left are released.
    pub fn close(self) {
        let Alone {
            map,
            writer: _,
            hands,
        } = self;
        end_hands(&map, hands);
    }
}

// A hand for each reader, which holds nothing.
fn hands_of(alloc: Global, readers: Vec<Reader>) -> Result<Vec<Hand>, AllocError>
    ensures { IfOk result (λ hands. hands.items ≡ each_of idle readers.items) }
{
    let mut hands = Vec::with_capacity(alloc, readers.len())?;
    for reader in readers {
        hands.push_reserved(Hand::of(reader));
    }
    Ok(hands)
}

fn end_hands(map: &ReaderMap, mut hands: Vec<Hand>)
    requires { All (λ s. s.reader.table ≡ map.now) hands.items }
{
    while let Some(hand) = hands.pop() {
        hand.into_reader(map);
    }
    hands.destroy_empty();
}
