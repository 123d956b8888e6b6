//! The dataflow's side: it fills the keys whose tickets were posted, and keeps the map's rows right.
ghost use Rattle.std.specs.Prelude.{◌≡◌, ◌≢◌, ◌<◌, ◌≤◌, ◌∷◌, [], length, None, Some, Err};
ghost use Rattle.std.specs.Borrow.{sem};
ghost use Rattle.nr_model.specs.Batches.{IsBatch};
ghost use Rattle.nr_board.specs.Callers.{KnowsOwn};
ghost use Rattle.nr_board.specs.Meetings.{HearsNote, known_to, with_step};
ghost use Rattle.nr_board.specs.WriterAnswers.{CancelsKey, EvictsKey, ReplacesKey, UpdatesKey};
ghost use Rattle.nr_serve.specs.Counts.{IsNew, Raises, told_at};

use crate::applied::{Applied, Measure};
use crate::lobby::Lobby;
use crate::raiser::Raiser;
use crate::service::Service;
use nr_map::{Cancel, Evict, NoSlot, Note, ReaderMap, ReplaceFault, UpdateFault, Writer, laws};
use nr_model::{Batch, Delta, RowSet};
use nr_trigger::{Taker, Trigger, Triggers};
use std::marker::Model;
use std::sync::Wait;

/// A dataflow over a map: the map's one writer, with what was posted to it and where its rows come
/// from. It can't be dropped, since it may keep a trigger: it must be ended.
pub struct Dataflow<'a, S> {
    pub(crate) map: &'a ReaderMap,
    pub(crate) triggers: &'a Triggers,
    pub(crate) raiser: Raiser<'a>,
    pub(crate) writer: Writer,
    pub(crate) taker: Taker,
    pub(crate) kept: Option<Trigger>,
    pub(crate) source: S,
    /// Where the source puts its rows.
    pub(crate) room: RowSet,
}

impl<'a, S> Model for Dataflow<'a, S> {
    ghost use Rattle.nr_serve.specs.Flows.{FlowSeen, IsPlaced};

    ghost Value = { FlowSeen S };

    ghost view = { λ flow. record { map = flow.map.now; queue = flow.triggers.now; writer = flow.writer; taker = flow.taker; kept = flow.kept; source = flow.source; guest = flow.raiser } };

    ghost invariant = { λ flow. IsPlaced flow.map.now flow.triggers.now flow.writer flow.taker flow.kept };
}

impl<'a, S> Dataflow<'a, S> {
    ghost use Rattle.nr_map.specs.SlotBounds.{HasRoomForAll};
    ghost use Rattle.nr_serve.specs.Turns.{CancelRaises};
    ghost use Rattle.nr_serve.specs.Lending.{LendsSource};

    /// The dataflow of a map, over a queue that takes keys of this map alone. It raises the lobby, so
    /// that has to be the one in which the map's clients sleep; a `Service` sees to that.
    pub fn open(
        map: &'a ReaderMap,
        writer: Writer,
        triggers: &'a Triggers,
        taker: Taker,
        source: S,
        lobby: &'a Lobby,
    ) -> Dataflow<'a, S>
        requires map { writer.table ≡ map.now }
        requires queue { taker.queue ≡ triggers.now.id }
        requires keys { taker.keys ≤ map.now.shape.keys }
        ensures flow { result ≡ record { map = map.now; queue = triggers.now; writer = writer; taker = taker; kept = None; source = source; guest = result.guest } }
        ensures guest { (result.guest.lobby ≡ lobby.now) × IsNew result.guest }
    {
        Dataflow {
            map,
            triggers,
            raiser: Raiser::of(lobby),
            writer,
            taker,
            kept: None,
            source,
            room: RowSet::new(),
        }
    }

    /// The dataflow of a service whose queue takes keys of its map alone.
    pub fn of_service(
        service: &'a Service,
        writer: Writer,
        taker: Taker,
        source: S,
    ) -> Dataflow<'a, S>
        requires map { writer.table ≡ service.now.map }
        requires queue { taker.queue ≡ service.now.queue.id }
        requires keys { taker.keys ≤ service.now.map.shape.keys }
        ensures flow { result ≡ record { map = service.now.map; queue = service.now.queue; writer = writer; taker = taker; kept = None; source = source; guest = result.guest } }
        ensures guest { (result.guest.lobby ≡ service.now.lobby) × IsNew result.guest }
    {
        let (map, triggers) = (service.map(), service.triggers());
        Dataflow::open(map, writer, triggers, taker, source, service.lobby())
    }

    /// Applies a batch to the rows of a key, as the map's `update` does. On a map with a slot for
    /// each key, each reader and one more there always is a slot.
    pub fn apply(&mut self, key: u32, batch: &Batch) -> Result<(), UpdateFault>
        requires key { key < self.old.map.shape.keys }
        ensures updates { UpdatesKey self.old.map.shape.rows key batch.now self.old.writer self.new.writer result }
        ensures rest { self.new ≡ record self.old { writer = self.new.writer } }
        ensures room { HasRoomForAll self.old.map → (counts : NoSlot) → result ≢ Err (UpdateFault.NoSlot counts) }
    {
        self.apply_rows(key, batch.as_slice())
    }

    /// As `apply`, with one to sixty-four signed rows in place of a batch, so that those which stand
    /// somewhere need no copy.
    pub fn apply_rows(&mut self, key: u32, deltas: &[Delta]) -> Result<(), UpdateFault>
        requires key { key < self.old.map.shape.keys }
        requires batch { IsBatch deltas.now }
        ensures updates { UpdatesKey self.old.map.shape.rows key deltas.now self.old.writer self.new.writer result }
        ensures rest { self.new ≡ record self.old { writer = self.new.writer } }
        ensures room { HasRoomForAll self.old.map → (counts : NoSlot) → result ≢ Err (UpdateFault.NoSlot counts) }
    {
        laws::room_for_updates();
        self.map.update_rows(&mut self.writer, key, deltas)
    }

    /// Puts a set whole in place of a filled key's, as the map's `replace` does. On a map with a
    /// slot for each key, each reader and one more there always is a slot.
    pub fn replace(&mut self, key: u32, rows: &RowSet) -> Result<(), ReplaceFault>
        requires key { key < self.old.map.shape.keys }
        requires few { length rows.now ≤ self.old.map.shape.rows }
        ensures replaces { ReplacesKey key rows.now self.old.writer self.new.writer result }
        ensures rest { self.new ≡ record self.old { writer = self.new.writer } }
        ensures room { HasRoomForAll self.old.map → (counts : NoSlot) → result ≢ Err (ReplaceFault.NoSlot counts) }
    {
        laws::room_for_replacements();
        self.map.replace(&mut self.writer, key, rows)
    }

    /// Makes a filled key a hole, as the map's `evict` does.
    pub fn evict(&mut self, key: u32) -> Evict
        requires key { key < self.old.map.shape.keys }
        ensures evicts { EvictsKey key self.old.writer self.new.writer result }
        ensures rest { self.new ≡ record self.old { writer = self.new.writer } }
    {
        self.map.evict(&mut self.writer, key)
    }

    /// Takes the request of a key back, as the map's `cancel` does. Raises the lobby for the key
    /// where it did, so that clients that wait for the key request it again.
    pub fn cancel<R: Wait>(&mut self, rt: &R, key: u32) -> Cancel
        requires key { key < self.old.map.shape.keys }
        ensures cancels { CancelsKey key self.old.writer self.new.writer result }
        ensures raised { CancelRaises result key self.old.guest self.new.guest }
        ensures rest { self.new ≡ record self.old { writer = self.new.writer; guest = self.new.guest } }
    {
        let answer = self.map.cancel(&mut self.writer, key);
        if answer == Cancel::Cancelled {
            self.raiser.raise_for(rt, key);
        }
        answer
    }

    /// Tells those who wait for it that so much was applied, in 1 step of its writer: with a note of what
    /// the writer has seen now, and so after all that it applied before. Less than was told before
    /// tells nothing.
    pub fn tell_applied<M: Measure, R: Wait>(
        &mut self,
        rt: &R,
        applied: &Applied<'_, M>,
        amount: u64,
    )
        requires lobby { applied.now ≡ self.old.guest.lobby }
        requires reached { KnowsOwn self.old.writer → M.reached amount (known_to self.old.writer) }
        ensures raised { Raises (told_at ∷ []) self.old.guest self.new.guest }
        ensures rest { self.new ≡ record self.old { writer = with_step self.old.writer; guest = self.new.guest } }
    {
        let note = self.map.note_writer(&mut self.writer);
        applied.raise(rt, amount, note);
        self.raiser.tell(rt);
    }

    /// A note of what the dataflow has seen, in 1 step of its writer. Else the dataflow stays as it
    /// is.
    pub fn note(&mut self) -> Note
        ensures own { result.table ≡ self.old.map }
        ensures note { result ≡ known_to self.old.writer }
        ensures knows { KnowsOwn self.old.writer }
        ensures rest { self.new ≡ record self.old { writer = with_step self.old.writer } }
    {
        self.map.note_writer(&mut self.writer)
    }

    /// The dataflow learns, in 1 step of its writer, all that the note's maker had seen.
    pub fn hear(&mut self, note: Note)
        requires { note.table ≡ self.old.map }
        ensures hears { HearsNote 1 note self.old.writer self.new.writer }
        ensures rest { self.new ≡ record self.old { writer = self.new.writer } }
    {
        self.map.hear_writer(&mut self.writer, note);
    }

    /// Where the rows come from.
    pub fn source(&mut self) -> &mut S
        ensures* lends { sem 𝓛 (LendsSource S.row self.entry result) }
        ensures value { result.now ≡ self.old.source }
    {
        &mut self.source
    }

    /// Hands out what the dataflow was opened with, and the trigger that it keeps.
    pub fn end(self) -> (Writer, Taker, Option<Trigger>, S)
        ensures writer { let (writer, _, _, _) = result in writer ≡ self.entry.writer }
        ensures taker { let (_, taker, _, _) = result in taker ≡ self.entry.taker }
        ensures kept { let (_, _, kept, _) = result in kept ≡ self.entry.kept }
        ensures source { let (_, _, _, source) = result in source ≡ self.entry.source }
    {
        let Dataflow {
            map: _,
            triggers: _,
            raiser: _,
            writer,
            taker,
            kept,
            source,
            room: _,
        } = self;
        (writer, taker, kept, source)
    }
}
