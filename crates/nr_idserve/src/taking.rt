//! How a dataflow by id comes by upqueries: from the claims that were posted.
ghost use Rattle.std.specs.Prelude.{◌≡◌, ◌<◌, IfOk, None, slice_index};
ghost use Rattle.nr_ids.specs.Looking.{IsFull};
ghost use Rattle.nr_idmap.specs.Keepers.{IsTied};
ghost use Rattle.nr_serve.specs.Counts.{OnlyLooks, rung_at};
ghost use Rattle.nr_serve.specs.Turns.{AwaitsPost};
ghost use Rattle.nr_idserve.specs.IdTakes.{AdmitsMakingRoom, AdmitsNext, AdmitsOne, Asking, ChoosesFor, IsAskedOf};
ghost use Rattle.nr_idserve.specs.IdTakes.{MakesRoom, NextsId, Say, TakesById};

use crate::flow::IdDataflow;
use crate::victims::Victims;
use nr_idmap::{Evict, Refused, Upquery};
use nr_serve::Rung;
use std::sync::Wait;

/// What a take found.
pub enum Taken {
    /// An upquery, which is to be answered.
    Asked(Upquery),
    /// A claim of this id needs no upquery: it isn't open, or the id has a way.
    Passed(u64),
    /// Each way of this id's two groups has a name, and the id that was chosen may not go, or its upquery is
    /// open. The claim is kept, and tried first in the next take, which chooses the next id.
    Full(u64),
    /// No claim was kept, and none had been posted.
    Idle,
}

impl<'a> IdDataflow<'a> {
    /// Takes the upquery that is kept; or else admits the claim that is kept, or the next one of the queue,
    /// which opens an upquery, and raises the lobby for the id's group, which can be claimed again. Where
    /// each way of the id's two groups has a name, an id that has a way of its first group is chosen as
    /// `IdMap::choose` does, in 3 steps; if `victims` let it go, it is evicted as `evict` does, which always
    /// makes room. The upquery can't be dropped: `fill`, `fail`, `invalidate` or `keep` has it back, and any
    /// other may come and go before. May wait for a thread that is within a call of its own.
    pub fn take<V: Victims, R: Wait>(&mut self, rt: &R, victims: &mut V) -> Taken
        ensures takes { Asking V.lets victims.old victims.new (λ said. TakesById said self.old self.new result) }
        ensures own { IsAskedOf self.old.map result }
        ensures free { self.new.kept ≡ None }
        ensures places { (self.new.map ≡ self.old.map) × (self.new.queue ≡ self.old.queue) × (self.new.lobby ≡ self.old.lobby) }
    {
        if let Some(upquery) = self.kept.take() {
            return Taken::Asked(upquery);
        }
        let Some(id) = self.next_id(rt) else {
            return Taken::Idle;
        };
        if id == 0 {
            return Taken::Passed(id);
        }
        self.admit_next(rt, victims, id)
    }

    // The id of the claim that is kept, or else of the next one of the queue.
    fn next_id<R: Wait>(&mut self, rt: &R) -> Option<u64>
        ensures nexts { NextsId self.old self.new result }
        ensures kept { self.new.kept ≡ self.old.kept }
        ensures places { (self.new.map ≡ self.old.map) × (self.new.queue ≡ self.old.queue) × (self.new.lobby ≡ self.old.lobby) }
    {
        if let Some(id) = self.refused.take() {
            return Some(id);
        }
        let trigger = self.service.claims().take(rt, &mut self.taker)?;
        let id = trigger.number();
        trigger.into_key();
        Some(id)
    }

    fn admit_next<V: Victims, R: Wait>(&mut self, rt: &R, victims: &mut V, id: u64) -> Taken
        requires { 0 < id }
        ensures admits { Asking V.lets victims.old victims.new (λ said. AdmitsNext id said self.old self.new result) }
        ensures kept { self.new.kept ≡ self.old.kept }
        ensures own { IsAskedOf self.old.map result }
        ensures places { (self.new.map ≡ self.old.map) × (self.new.queue ≡ self.old.queue) × (self.new.lobby ≡ self.old.lobby) }
    {
        match self.admit_making_room(rt, victims, id) {
            Ok(upquery) => Taken::Asked(upquery),
            Err(Refused::Full) => {
                self.refused = Some(id);
                Taken::Full(id)
            }
            Err(Refused::NoClaim) => Taken::Passed(id),
            Err(Refused::Named(_)) => Taken::Passed(id),
        }
    }

    // Admits an id, after an eviction where its groups are full.
    fn admit_making_room<V: Victims, R: Wait>(
        &mut self,
        rt: &R,
        victims: &mut V,
        id: u64,
    ) -> Result<Upquery, Refused>
        requires { 0 < id }
        ensures admits { Asking V.lets victims.old victims.new (λ said. AdmitsMakingRoom id said self.old self.new result) }
        ensures kept { self.new.kept ≡ self.old.kept }
        ensures own { IfOk result (λ upquery. upquery.table ≡ self.old.map) }
        ensures places { (self.new.map ≡ self.old.map) × (self.new.queue ≡ self.old.queue) × (self.new.lobby ≡ self.old.lobby) }
    {
        match self.admit(rt, id) {
            Ok(upquery) => return Ok(upquery),
            Err(Refused::NoClaim) => return Err(Refused::NoClaim),
            Err(Refused::Named(way)) => return Err(Refused::Named(way)),
            Err(Refused::Full) => {}
        }
        self.writer.is_tied();
        if !self.make_room(rt, victims, id) {
            return Err(Refused::Full);
        }
        self.admit(rt, id)
    }

    // Admits an id, and raises the lobby for its group if it did.
    fn admit<R: Wait>(&mut self, rt: &R, id: u64) -> Result<Upquery, Refused>
        requires { 0 < id }
        ensures admits { AdmitsOne id self.old self.new result }
        ensures kept { self.new.kept ≡ self.old.kept }
        ensures own { IfOk result (λ upquery. upquery.table ≡ self.old.map) }
        ensures places { (self.new.map ≡ self.old.map) × (self.new.queue ≡ self.old.queue) × (self.new.lobby ≡ self.old.lobby) }
    {
        let map = self.service.map();
        let upquery = map.admit(&mut self.writer, id)?;
        self.raiser.raise_for(rt, map.group_of(id));
        Ok(upquery)
    }

    // Evicts the id that is chosen in favour of that one, if it may go: whether it did.
    fn make_room<V: Victims, R: Wait>(&mut self, rt: &R, victims: &mut V, id: u64) -> bool
        requires tied { IsTied self.old.writer }
        requires full { IsFull id self.old.writer.clerk }
        ensures makes { (say : Say) × MakesRoom id say self.old self.new result × V.lets victims.old say.id say.may_go victims.new }
        ensures kept { self.new.kept ≡ self.old.kept }
        ensures places { (self.new.map ≡ self.old.map) × (self.new.queue ≡ self.old.queue) × (self.new.lobby ≡ self.old.lobby) }
    {
        let victim = self.choose(id);
        if !victims.may_go(victim) {
            return false;
        }
        match self.evict(rt, victim) {
            Evict::Evicted => true,
            Evict::Nothing => false,
        }
    }

    // The id that may be evicted in favour of that one, whose groups are full.
    fn choose(&mut self, id: u64) -> u64
        requires tied { IsTied self.old.writer }
        requires full { IsFull id self.old.writer.clerk }
        ensures chooses { ChoosesFor id self.old self.new result }
        ensures real { 0 < result }
    {
        match self.service.map().choose(&mut self.writer, id) {
            Some(victim) => victim,
            None => unreachable!(),
        }
    }

    /// How often the bell has been rung. A thread that is about to sleep reads this first, then looks
    /// for what may have come, and sleeps only if nothing has.
    pub fn rings(&mut self) -> Rung
        ensures looks { OnlyLooks self.old.guest self.new.guest }
        ensures rest { self.new ≡ record self.old { guest = self.new.guest } }
        ensures rung { result ≡ record { rings = slice_index self.new.guest.seen rung_at; taker = self.old.taker } }
    {
        self.raiser.rings(&self.taker)
    }

    /// Sleeps after one take since the bell was read, which was idle, with nothing kept: until a claim was
    /// posted since, or the lobby is closed.
    pub fn sleep<R: Wait>(&mut self, rt: &R, rung: &Rung)
        requires none { (self.old.kept ≡ None) × (self.old.refused ≡ None) }
        requires idle { AwaitsPost rung.now.taker self.old.taker }
        ensures looks { OnlyLooks self.old.guest self.new.guest }
        ensures rest { self.new ≡ record self.old { guest = self.new.guest } }
    {
        self.raiser.wait_for_ring(rt, rung, &self.taker);
    }
}
