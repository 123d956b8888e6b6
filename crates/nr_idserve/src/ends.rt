//! How a dataflow by id ends its upqueries, and how it keeps rows right.
ghost use Rattle.std.specs.Prelude.{◌≡◌, ◌<◌, ◌∷◌, IfSome, Some};
ghost use Rattle.nr_model.specs.Batches.{IsBatch};
ghost use Rattle.nr_board.specs.WriterAnswers.{ReplacesKey, UpdatesKey};
ghost use Rattle.nr_idmap.specs.IdWrites.{CallsWay, EvictsId, WithdrawsId};
ghost use Rattle.nr_idmap.specs.Keepers.{OwesSame, id_rows};
ghost use Rattle.nr_idmap.specs.Tags.{AreIdDeltas, IsIdSet, tag_of};
ghost use Rattle.nr_idserve.specs.IdEnds.{EvictRaises, FailsOneId, FillsOneId, InvalidatesOneId, IsOfSame};

use crate::flow::IdDataflow;
use nr_idmap::{
    Evict, IdFault, IdWriter, NoSlot, ReplaceFault, Unfilled, UpdateFault, Upquery, Withdrawn,
};
use nr_model::{Delta, Row};
use nr_serve::Spent;
use nr_trigger::Taker;
use std::sync::Wait;

impl<'a> IdDataflow<'a> {
    /// Fills the id of an upquery with its rows, at most as many as an id may have. That spends the upquery
    /// and raises the lobby for the id's group, also where the upquery isn't open. Where there is no slot
    /// it comes back, and is open still.
    pub fn fill<R: Wait>(
        &mut self,
        rt: &R,
        upquery: Upquery,
        rows: &[Row],
    ) -> Result<Spent, (Upquery, NoSlot)>
        requires own { upquery.table ≡ self.old.map }
        requires rows { IsIdSet (id_rows self.old.map) rows.now }
        ensures { FillsOneId upquery rows.now self.old self.new result }
    {
        let map = self.service.map();
        let group = map.group_of(upquery.id());
        match map.fill(&mut self.writer, upquery, rows) {
            Ok(()) => {
                self.raiser.raise_for(rt, group);
                Ok(Spent::Filled)
            }
            Err(Unfilled::Closed) => {
                self.raiser.raise_for(rt, group);
                Ok(Spent::Passed)
            }
            Err(Unfilled::NoSlot(upquery, counts)) => Err((upquery, counts)),
        }
    }

    /// Ends an upquery whose rows can't be had: withdraws it, and tells of it those who wait for the id, so
    /// that they claim it anew. It comes back where it can't be withdrawn, since its ticket number is the
    /// last one.
    pub fn fail<R: Wait>(&mut self, rt: &R, upquery: Upquery) -> Result<Spent, Upquery>
        requires { upquery.table ≡ self.old.map }
        ensures { FailsOneId upquery self.old self.new result }
    {
        let group = self.service.map().group_of(upquery.id());
        match self.withdraw(upquery) {
            Withdrawn::Done => {
                self.raiser.fail_for(rt, group);
                Ok(Spent::Failed)
            }
            Withdrawn::Closed => Ok(Spent::Passed),
            Withdrawn::Worn(upquery) => Err(upquery),
        }
    }

    /// Ends an upquery whose rows a change has overtaken: as `fail`, but no failure is counted. Rows that
    /// come for it then never fill the id.
    pub fn invalidate<R: Wait>(&mut self, rt: &R, upquery: Upquery) -> Result<Spent, Upquery>
        requires { upquery.table ≡ self.old.map }
        ensures { InvalidatesOneId upquery self.old self.new result }
    {
        let group = self.service.map().group_of(upquery.id());
        match self.withdraw(upquery) {
            Withdrawn::Done => {
                self.raiser.raise_for(rt, group);
                Ok(Spent::Failed)
            }
            Withdrawn::Closed => Ok(Spent::Passed),
            Withdrawn::Worn(upquery) => Err(upquery),
        }
    }

    fn withdraw(&mut self, upquery: Upquery) -> Withdrawn
        requires { upquery.table ≡ self.old.map }
        ensures withdraws { WithdrawsId upquery.owed self.old.writer self.new.writer result }
        ensures same { IsOfSame upquery result }
        ensures rest { self.new ≡ record self.old { writer = self.new.writer } }
    {
        self.service.map().withdraw(&mut self.writer, upquery)
    }

    /// Keeps an upquery for the next take. The one that was kept before, if any, comes back.
    pub fn keep(&mut self, upquery: Upquery) -> Option<Upquery>
        requires { upquery.table ≡ self.old.map }
        ensures back { result ≡ self.old.kept }
        ensures own { IfSome result (λ back. back.table ≡ self.old.map) }
        ensures kept { self.new ≡ record self.old { kept = Some upquery } }
    {
        self.kept.replace(upquery)
    }

    /// Applies one to sixty-four signed rows to an id's rows, as the map's `update` does.
    pub fn update(&mut self, id: u64, deltas: &[Delta]) -> Result<(), IdFault<UpdateFault>>
        requires id { 0 < id }
        requires batch { IsBatch deltas.now }
        requires deltas { AreIdDeltas deltas.now }
        ensures updates { CallsWay (λ way. UpdatesKey self.old.map.map.shape.rows way deltas.now) id self.old.writer self.new.writer result }
        ensures owes { OwesSame self.old.writer self.new.writer }
        ensures rest { self.new ≡ record self.old { writer = self.new.writer } }
    {
        self.service.map().update(&mut self.writer, id, deltas)
    }

    /// Puts rows in place of all that an id has, as the map's `replace` does.
    pub fn replace(&mut self, id: u64, rows: &[Row]) -> Result<(), IdFault<ReplaceFault>>
        requires id { 0 < id }
        requires rows { IsIdSet (id_rows self.old.map) rows.now }
        ensures replaces { CallsWay (λ way. ReplacesKey way (tag_of id ∷ rows.now)) id self.old.writer self.new.writer result }
        ensures owes { OwesSame self.old.writer self.new.writer }
        ensures rest { self.new ≡ record self.old { writer = self.new.writer } }
    {
        self.service.map().replace(&mut self.writer, id, rows)
    }

    /// Takes an id's rows and its way, as the map's `evict` does, and raises the lobby for its group: a
    /// client that met the hole on the way waits for rows that nobody sends. An id whose upquery is under
    /// way keeps it: see `invalidate`.
    pub fn evict<R: Wait>(&mut self, rt: &R, id: u64) -> Evict
        requires { 0 < id }
        ensures evicts { EvictsId id self.old.writer self.new.writer result }
        ensures owes { OwesSame self.old.writer self.new.writer }
        ensures raised { EvictRaises result id self.old self.new }
        ensures rest { self.new ≡ record self.old { writer = self.new.writer; guest = self.new.guest } }
    {
        let map = self.service.map();
        match map.evict(&mut self.writer, id) {
            Evict::Evicted => {
                self.raiser.raise_for(rt, map.group_of(id));
                Evict::Evicted
            }
            Evict::Nothing => Evict::Nothing,
        }
    }

    /// Hands out what the dataflow was opened with, the upquery that it keeps, and the id of the claim.
    pub fn end(self) -> (IdWriter, Taker, Option<Upquery>, Option<u64>)
        ensures writer { let (writer, _, _, _) = result in writer ≡ self.entry.writer }
        ensures taker { let (_, taker, _, _) = result in taker ≡ self.entry.taker }
        ensures kept { let (_, _, kept, _) = result in kept ≡ self.entry.kept }
        ensures own { let (writer, taker, kept, _) = result in (writer.table ≡ self.entry.map) × (taker.queue ≡ self.entry.queue.id) × IfSome kept (λ upquery. upquery.table ≡ self.entry.map) }
        ensures refused { let (_, _, _, refused) = result in refused ≡ self.entry.refused }
    {
        let IdDataflow {
            service: _,
            raiser: _,
            writer,
            taker,
            kept,
            refused,
        } = self;
        (writer, taker, kept, refused)
    }
}
