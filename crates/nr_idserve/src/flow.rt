//! The dataflow by id: it admits the ids whose claims were posted, fills them, and keeps their rows right.
ghost use Rattle.std.specs.Prelude.{◌≡◌, ◌∷◌, [], None};
ghost use Rattle.nr_board.specs.Meetings.{known_to, with_step};
ghost use Rattle.nr_ids.specs.Tokens as ids;
ghost use Rattle.nr_idmap.specs.IdNotes.{WriterHears, note_table_of};
ghost use Rattle.nr_idmap.specs.Keepers.{OwesSame};
ghost use Rattle.nr_serve.specs.Counts.{IsNew, Raises, told_at};
ghost use Rattle.nr_idserve.specs.IdApplied.{known_to_keeper};

use crate::applied::{IdApplied, IdMeasure};
use crate::service::IdService;
use nr_idmap::{IdNote, IdWriter, Upquery};
use nr_serve::Raiser;
use nr_trigger::Taker;
use std::marker::Model;
use std::sync::Wait;

/// The one writer of a map over ids, with the taker of its queue of claims. It can't be dropped, since it
/// may keep an upquery: it must be ended.
pub struct IdDataflow<'a> {
    pub(crate) service: &'a IdService,
    pub(crate) raiser: Raiser<'a>,
    pub(crate) writer: IdWriter,
    pub(crate) taker: Taker,
    pub(crate) kept: Option<Upquery>,
    /// The id of a claim that was taken, and whose group was full.
    pub(crate) refused: Option<u64>,
}

impl<'a> Model for IdDataflow<'a> {
    ghost use Rattle.nr_idserve.specs.IdFlows.{IdFlowSeen, IsPlacedById};

    ghost Value = { IdFlowSeen };

    ghost view = { λ flow. record { map = flow.service.now.map; queue = flow.service.now.queue; lobby = flow.service.now.lobby; writer = flow.writer; taker = flow.taker; kept = flow.kept; refused = flow.refused; guest = flow.raiser } };

    ghost invariant = { λ flow. IsPlacedById flow.service.now.map flow.service.now.queue flow.writer flow.taker flow.kept flow.refused };
}

impl<'a> IdDataflow<'a> {
    /// The dataflow of a service.
    pub fn open(service: &'a IdService, writer: IdWriter, taker: Taker) -> IdDataflow<'a>
        requires map { writer.table ≡ service.now.map }
        requires queue { taker.queue ≡ service.now.queue.id }
        ensures flow { result ≡ record { map = service.now.map; queue = service.now.queue; lobby = service.now.lobby; writer = writer; taker = taker; kept = None; refused = None; guest = result.guest } }
        ensures guest { (result.guest.lobby ≡ service.now.lobby) × IsNew result.guest }
    {
        IdDataflow {
            service,
            raiser: Raiser::of(service.lobby()),
            writer,
            taker,
            kept: None,
            refused: None,
        }
    }

    /// Tells those who wait for it that so much was applied: with a note of what the writer has seen now, in
    /// a step on each of its map's tables, and so after all that it applied before. Less than was told
    /// before tells nothing.
    pub fn tell_applied<M: IdMeasure, R: Wait>(
        &mut self,
        rt: &R,
        applied: &IdApplied<'_, M>,
        amount: u64,
    )
        requires lobby { applied.now ≡ self.old.lobby }
        requires reached { note_table_of (known_to_keeper self.old.writer) ≡ self.old.map → M.reached amount (known_to_keeper self.old.writer) }
        ensures raised { Raises (told_at ∷ []) self.old.guest self.new.guest }
        ensures map { self.new.writer.writer ≡ with_step self.old.writer.writer }
        ensures clerk { self.new.writer.clerk ≡ ids.with_step self.old.writer.clerk }
        ensures asker { self.new.writer.asker ≡ self.old.writer.asker }
        ensures owes { OwesSame self.old.writer self.new.writer }
        ensures rest { self.new ≡ record self.old { writer = self.new.writer; guest = self.new.guest } }
    {
        let note = self.note();
        applied.raise(rt, amount, note);
        self.raiser.tell(rt);
    }

    /// A note of what the dataflow has seen, in a step of its writer on each of its map's tables. It goes
    /// with the acknowledgement of a write.
    pub fn note(&mut self) -> IdNote
        ensures of { note_table_of result ≡ self.old.map }
        ensures note { result ≡ record { map = known_to self.old.writer.writer; ids = ids.known_to self.old.writer.clerk } }
        ensures map { self.new.writer.writer ≡ with_step self.old.writer.writer }
        ensures clerk { self.new.writer.clerk ≡ ids.with_step self.old.writer.clerk }
        ensures asker { self.new.writer.asker ≡ self.old.writer.asker }
        ensures owes { OwesSame self.old.writer self.new.writer }
        ensures rest { self.new ≡ record self.old { writer = self.new.writer } }
    {
        self.service.map().note_writer(&mut self.writer)
    }

    /// The dataflow learns all that the note's maker had seen.
    pub fn hear(&mut self, note: IdNote)
        requires { note_table_of note ≡ self.old.map }
        ensures hears { WriterHears note self.old.writer self.new.writer }
        ensures owes { OwesSame self.old.writer self.new.writer }
        ensures rest { self.new ≡ record self.old { writer = self.new.writer } }
    {
        self.service.map().hear_writer(&mut self.writer, note);
    }
}
