//! What the dataflow does with a trigger: it takes one, and spends or keeps it; and a turn, which does all that.
ghost use Rattle.std.specs.Prelude.{◌≡◌, ◌≢◌, ◌<◌, ◌≤◌, IfErr, IfOk, IsTrue, length, slice_index, None, Some, Ok, Err};
ghost use Rattle.std.specs.Result.{is_ok};
ghost use Rattle.nr_serve.specs.Counts.{OnlyLooks, Raises, raises_for, rung_at};

use crate::dataflow::Dataflow;
use crate::raiser::Rung;
use crate::source::Source;
use crate::try_turns::TryTurn;
use nr_map::{Cancel, FillFault, NoSlot, laws};
use nr_model::RowSet;
use nr_trigger::Trigger;
use std::sync::Wait;

/// What became of a trigger that was spent.
#[derive(Clone, Copy, Debug, PartialEq, Eq)]
pub enum Spent {
    /// Its key is filled.
    Filled,
    /// Its key needs neither rows nor a cancel: it is filled already, or nobody asks for it any
    /// more, or its request has another ticket number.
    Passed,
    /// Its request was taken back, and its key is a hole that may be requested anew.
    Failed,
}

/// What a turn did.
#[derive(Clone, Copy, Debug, PartialEq, Eq)]
pub enum Turn {
    /// No trigger was kept, and no ticket had been posted.
    Idle,
    /// The key is filled.
    Filled(u32),
    /// The key needs no fill: it is filled already, or nobody asks for it any more, or its request
    /// has another ticket number.
    Passed(u32),
    /// There was no slot for the rows; the trigger is kept and tried first in the next turn.
    Kept(NoSlot),
}

impl<'a, S> Dataflow<'a, S> {
    ghost use Rattle.nr_board.specs.WriterAnswers.{FillsKey};
    ghost use Rattle.nr_map.specs.SlotBounds.{HasRoomForAll};
    ghost use Rattle.nr_serve.specs.Ends.{FailsOne, FillsOne, TakesBack};
    ghost use Rattle.nr_serve.specs.Turns.{AwaitsPost, Nexts};

    /// Takes the trigger that is kept, or else the next one of the queue, for rows that are to be
    /// had meanwhile. It can't be dropped: `fill`, `fail` or `keep` has it back, and any other
    /// trigger may come and go before. May wait for a thread that is within a call of its own.
    pub fn take<R: Wait>(&mut self, rt: &R) -> Option<Trigger>
        ensures { Nexts self.old self.new result }
    {
        match self.kept.take() {
            Some(trigger) => Some(trigger),
            None => self.triggers.take(rt, &mut self.taker),
        }
    }

    /// Fills the trigger's key with its rows, at most `rows()` of them, by the trigger's ticket
    /// number. That spends the trigger and raises the lobby for the key, also where the key needs no
    /// fill. Where there is no slot the trigger comes back; on a map with a slot for each key, each
    /// reader and one more there always is one.
    pub fn fill<R: Wait>(
        &mut self,
        rt: &R,
        trigger: Trigger,
        rows: &RowSet,
    ) -> Result<Spent, (Trigger, NoSlot)>
        requires key { trigger.upquery.key < self.old.map.shape.keys }
        requires few { length rows.now ≤ self.old.map.shape.rows }
        ensures fills { FillsOne trigger rows.now self.old self.new result }
        ensures room { HasRoomForAll self.old.map → IsTrue (is_ok result) }
    {
        laws::room_for_fills();
        let _ = &self.map;
        match self.fill_key(&trigger, rows) {
            Ok(()) => {
                self.spend(rt, trigger);
                Ok(Spent::Filled)
            }
            Err(FillFault::NotAsked | FillFault::Already | FillFault::Stale) => {
                self.spend(rt, trigger);
                Ok(Spent::Passed)
            }
            Err(FillFault::NoSlot(counts)) => Err((trigger, counts)),
        }
    }

    /// Ends a trigger whose rows can't be had: takes its request back, if that still stands, and
    /// tells of it those who wait for the key, so that they request it anew. It comes back where
    /// the request can't be taken back, since its ticket number is the last one.
    pub fn fail<R: Wait>(&mut self, rt: &R, trigger: Trigger) -> Result<Spent, Trigger>
        requires key { trigger.upquery.key < self.old.map.shape.keys }
        ensures { FailsOne trigger self.old self.new result }
    {
        match self.take_back(&trigger) {
            Cancel::Cancelled => {
                self.raiser.fail_for(rt, trigger.into_key());
                Ok(Spent::Failed)
            }
            Cancel::Nothing => {
                trigger.into_key();
                Ok(Spent::Passed)
            }
            Cancel::Worn => Err(trigger),
        }
    }

    /// Keeps a trigger for the next take or turn. The one that was kept before, if any, comes back.
    pub fn keep(&mut self, trigger: Trigger) -> Option<Trigger>
        requires key { trigger.upquery.key < self.old.map.shape.keys }
        ensures back { result ≡ self.old.kept }
        ensures kept { self.new ≡ record self.old { kept = Some trigger } }
    {
        self.kept.replace(trigger)
    }

    /// How often the bell has been rung. A thread that is about to sleep reads this first, then looks
    /// for what may have come, and sleeps only if nothing has.
    pub fn rings(&mut self) -> Rung
        ensures looks { OnlyLooks self.old.guest self.new.guest }
        ensures rest { self.new ≡ record self.old { guest = self.new.guest } }
        ensures rung { result ≡ record { rings = slice_index self.new.guest.seen rung_at; taker = self.old.taker } }
    {
        self.raiser.rings(&self.taker)
    }

    /// Sleeps until the bell was rung since it was read, or the lobby is closed: after one look for a
    /// ticket since then, which found none, with no trigger kept. One that looks for more than
    /// tickets, as for rows that other threads bring, looks for that too since the bell was read;
    /// who brings it rings the bell then.
    pub fn sleep<R: Wait>(&mut self, rt: &R, rung: &Rung)
        requires none { self.old.kept ≡ None }
        requires idle { AwaitsPost rung.now.taker self.old.taker }
        ensures looks { OnlyLooks self.old.guest self.new.guest }
        ensures rest { self.new ≡ record self.old { guest = self.new.guest } }
    {
        self.raiser.wait_for_ring(rt, rung, &self.taker);
    }

    // Fills the trigger's key by its ticket number.
    fn fill_key(&mut self, trigger: &Trigger, rows: &RowSet) -> Result<(), FillFault>
        requires key { trigger.now.upquery.key < self.old.map.shape.keys }
        requires few { length rows.now ≤ self.old.map.shape.rows }
        ensures fills { FillsKey trigger.now.upquery.key trigger.now.upquery.number rows.now self.old.writer self.new.writer result }
        ensures rest { self.new ≡ record self.old { writer = self.new.writer } }
    {
        let number = trigger.number();
        self.map.fill(&mut self.writer, trigger.key(), number, rows)
    }

    // Spends a trigger after its fill, and raises the lobby for its key.
    pub(crate) fn spend<R: Wait>(&mut self, rt: &R, trigger: Trigger)
        ensures raised { Raises (raises_for trigger.upquery.key) self.old.guest self.new.guest }
        ensures rest { self.new ≡ record self.old { guest = self.new.guest } }
    {
        self.raiser.raise_for(rt, trigger.into_key());
    }

    // Cancels the trigger's own request. A request of another ticket number is left alone.
    fn take_back(&mut self, trigger: &Trigger) -> Cancel
        requires key { trigger.now.upquery.key < self.old.map.shape.keys }
        ensures cancels { TakesBack trigger.now.upquery self.old.writer self.new.writer result }
        ensures rest { self.new ≡ record self.old { writer = self.new.writer } }
    {
        let key = trigger.key();
        if self.map.number(&self.writer, key) != trigger.number() {
            return Cancel::Nothing;
        }
        self.map.cancel(&mut self.writer, key)
    }

    // Keeps a trigger where none is kept.
    pub(crate) fn put_back(&mut self, trigger: Trigger)
        requires none { self.old.kept ≡ None }
        requires key { trigger.upquery.key < self.old.map.shape.keys }
        ensures { self.new ≡ record self.old { kept = Some trigger } }
    {
        match self.keep(trigger) {
            None => {}
            Some(_) => unreachable!(),
        }
    }
}

impl<'a, S: Source> Dataflow<'a, S> {
    ghost use Rattle.nr_map.specs.SlotBounds.{HasRoomForAll};
    ghost use Rattle.nr_serve.specs.Turns.{Turns};

    /// Takes the trigger that is kept, or else the next one of the queue, asks the source for its
    /// key's rows, and fills the key by the trigger's ticket number. Raises the lobby for the key
    /// where it was filled or needed no fill. A trigger that is kept is tried again in the next turn,
    /// with rows that the source is asked for again; on a map with a slot for each key, each reader
    /// and one more, none is ever kept. May wait for a thread that is within a call of its own.
    pub fn turn<R: Wait>(&mut self, rt: &R) -> Turn
        ensures turns { Turns S.gives self.old self.new result }
        ensures places { (self.new.map ≡ self.old.map) × (self.new.queue ≡ self.old.queue) }
        ensures room { HasRoomForAll self.old.map → (counts : NoSlot) → result ≢ Turn.Kept counts }
    {
        match self.try_turn(rt) {
            TryTurn::Idle => Turn::Idle,
            TryTurn::Filled(key) => Turn::Filled(key),
            TryTurn::Passed(key) => Turn::Passed(key),
            TryTurn::Kept(counts) => Turn::Kept(counts),
            TryTurn::Failed(_) | TryTurn::Worn(_) => unreachable!(),
        }
    }

    /// As `turn`, and where that finds nothing it sleeps until a client has posted a ticket or the
    /// lobby is closed, and then tells that it was idle. Call it again after that. It never sleeps
    /// while a trigger is kept.
    pub fn turn_or_sleep<R: Wait>(&mut self, rt: &R) -> Turn
        ensures turns { Turns S.gives self.old self.new result }
        ensures places { (self.new.map ≡ self.old.map) × (self.new.queue ≡ self.old.queue) }
        ensures room { HasRoomForAll self.old.map → (counts : NoSlot) → result ≢ Turn.Kept counts }
    {
        let rung = self.raiser.rings(&self.taker);
        let turned = self.turn(rt);
        if let Turn::Idle = turned {
            self.sleep(rt, &rung);
        }
        turned
    }
}
