//! A turn of a dataflow by id: it takes an upquery, asks a source for its id's rows, and ends it.
ghost use Rattle.std.specs.Prelude.{◌≡◌, None, Some};
ghost use Rattle.nr_idmap.specs.Keepers.{id_rows};
ghost use Rattle.nr_idmap.specs.Tags.{IsIdSet};
ghost use Rattle.nr_idserve.specs.IdTakes.{Asking};
ghost use Rattle.nr_idserve.specs.IdTurns.{AnswersAsked, FailsOrKeeps, FillsOrKeeps, TurnsById, TurnsOrSleeps};

use crate::flow::IdDataflow;
use crate::source::IdSource;
use crate::taking::Taken;
use crate::victims::Victims;
use nr_idmap::{NoSlot, Upquery};
use nr_model::{Row, RowSet};
use nr_serve::{SourceFault, Spent};
use std::sync::Wait;

/// What a turn by id did.
#[derive(Clone, Copy, Debug, PartialEq, Eq)]
pub enum IdTurn {
    /// Nothing was kept, and no claim had been posted.
    Idle,
    /// The id is filled.
    Filled(u64),
    /// The claim of this id needs no upquery, or the upquery wasn't open.
    Passed(u64),
    /// The source failed for the id. Its upquery was withdrawn, if it was open.
    Failed(u64),
    /// Each way of this id's two groups has a name, and none was evicted. The claim is kept, and tried first
    /// in the next turn.
    Full(u64),
    /// There was no slot for the rows. The upquery is kept, and comes first in the next turn.
    Kept(NoSlot),
    /// The source failed for the id, whose upquery can't be withdrawn, since its ticket number is the last
    /// one. It is kept, and comes first in the next turn.
    Worn(u64),
}

impl<'a> IdDataflow<'a> {
    /// Takes an upquery as `take` does, asks the source for its id's rows, and fills it with them, or fails
    /// it where the source does. One that comes back is kept, and its source asked again in the next turn.
    /// May wait for a thread that is within a call of its own.
    pub fn turn<V: Victims, S: IdSource, R: Wait>(
        &mut self,
        rt: &R,
        victims: &mut V,
        source: &mut S,
    ) -> IdTurn
        ensures turns { Asking V.lets victims.old victims.new (λ said. TurnsById S.gives S.fails said self.old source.old self.new source.new result) }
        ensures places { (self.new.map ≡ self.old.map) × (self.new.queue ≡ self.old.queue) × (self.new.lobby ≡ self.old.lobby) }
    {
        match self.take(rt, victims) {
            Taken::Asked(upquery) => self.answer(rt, source, upquery),
            Taken::Passed(id) => IdTurn::Passed(id),
            Taken::Full(id) => IdTurn::Full(id),
            Taken::Idle => IdTurn::Idle,
        }
    }

    /// As `turn`, and where that finds nothing it sleeps until a client has posted a claim or the lobby is
    /// closed, and then tells that it was idle. Call it again after that. It never sleeps while anything is
    /// kept.
    pub fn turn_or_sleep<V: Victims, S: IdSource, R: Wait>(
        &mut self,
        rt: &R,
        victims: &mut V,
        source: &mut S,
    ) -> IdTurn
        ensures turns { Asking V.lets victims.old victims.new (λ said. TurnsOrSleeps S.gives S.fails said self.old source.old self.new source.new result) }
        ensures places { (self.new.map ≡ self.old.map) × (self.new.queue ≡ self.old.queue) × (self.new.lobby ≡ self.old.lobby) }
    {
        let rung = self.rings();
        let turned = self.turn(rt, victims, source);
        if let IdTurn::Idle = turned {
            self.sleep(rt, &rung);
        }
        turned
    }

    // Ends an upquery that was taken, by what the source says of its id.
    fn answer<S: IdSource, R: Wait>(&mut self, rt: &R, source: &mut S, upquery: Upquery) -> IdTurn
        requires own { upquery.table ≡ self.old.map }
        requires none { self.old.kept ≡ None }
        ensures answers { AnswersAsked S.gives S.fails upquery self.old source.old self.new source.new result }
        ensures places { (self.new.map ≡ self.old.map) × (self.new.queue ≡ self.old.queue) × (self.new.lobby ≡ self.old.lobby) }
    {
        let mut room = RowSet::new();
        match source.rows(upquery.id(), self.service.map().rows(), &mut room) {
            Ok(()) => self.fill_or_keep(rt, upquery, room.as_slice()),
            Err(SourceFault) => self.fail_or_keep(rt, upquery),
        }
    }

    // Fills an upquery, and keeps it where there is no slot.
    fn fill_or_keep<R: Wait>(&mut self, rt: &R, upquery: Upquery, rows: &[Row]) -> IdTurn
        requires own { upquery.table ≡ self.old.map }
        requires rows { IsIdSet (id_rows self.old.map) rows.now }
        requires none { self.old.kept ≡ None }
        ensures ends { FillsOrKeeps upquery rows.now self.old self.new result }
        ensures places { (self.new.map ≡ self.old.map) × (self.new.queue ≡ self.old.queue) × (self.new.lobby ≡ self.old.lobby) }
    {
        let id = upquery.id();
        match self.fill(rt, upquery, rows) {
            Ok(Spent::Filled) => IdTurn::Filled(id),
            Ok(Spent::Passed) => IdTurn::Passed(id),
            Ok(Spent::Failed) => unreachable!(),
            Err((upquery, counts)) => {
                self.put_back(upquery);
                IdTurn::Kept(counts)
            }
        }
    }

    // Fails an upquery, and keeps it where it can't be withdrawn.
    fn fail_or_keep<R: Wait>(&mut self, rt: &R, upquery: Upquery) -> IdTurn
        requires own { upquery.table ≡ self.old.map }
        requires none { self.old.kept ≡ None }
        ensures ends { FailsOrKeeps upquery self.old self.new result }
        ensures places { (self.new.map ≡ self.old.map) × (self.new.queue ≡ self.old.queue) × (self.new.lobby ≡ self.old.lobby) }
    {
        let id = upquery.id();
        match self.fail(rt, upquery) {
            Ok(_) => IdTurn::Failed(id),
            Err(upquery) => {
                self.put_back(upquery);
                IdTurn::Worn(id)
            }
        }
    }

    // Keeps an upquery where none is kept.
    fn put_back(&mut self, upquery: Upquery)
        requires own { upquery.table ≡ self.old.map }
        requires none { self.old.kept ≡ None }
        ensures { self.new ≡ record self.old { kept = Some upquery } }
    {
        match self.keep(upquery) {
            None => {}
            Some(_) => unreachable!(),
        }
    }
}
