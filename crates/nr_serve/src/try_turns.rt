//! A turn of a dataflow whose source may fail.
ghost use Rattle.std.specs.Prelude.{◌≡◌, ◌≢◌, ◌<◌, ◌≤◌, IfErr, IfOk, length, None, Ok, Err};

use crate::dataflow::Dataflow;
use crate::source::{FallibleSource, SourceFault};
use nr_map::{FillFault, NoSlot, ReaderMap, laws};
use nr_model::RowSet;
use nr_trigger::Trigger;
use std::sync::Wait;

/// What a turn did whose source may fail.
#[derive(Clone, Copy, Debug, PartialEq, Eq)]
pub enum TryTurn {
    /// No trigger was kept, and no ticket had been posted.
    Idle,
    /// The key is filled.
    Filled(u32),
    /// The key needs no fill: it is filled already, or nobody asks for it any more, or its request
    /// has another ticket number.
    Passed(u32),
    /// The source failed for the key. The trigger's request was taken back, if it still stood.
    Failed(u32),
    /// There was no slot for the rows; the trigger is kept and tried first in the next turn.
    Kept(NoSlot),
    /// The source failed for the key, whose ticket number is the last one, so that no request of it
    /// can be taken back; the trigger is kept and tried first in the next turn.
    Worn(u32),
}

impl<'a, S: FallibleSource> Dataflow<'a, S> {
    ghost use Rattle.nr_map.specs.SlotBounds.{HasRoomForAll};
    ghost use Rattle.nr_serve.specs.Turns.{AsksSource, TurnsFailed, TurnsOrFails};

    /// As `turn`, with a source that may fail. Where it does, the trigger's request is taken back and
    /// the lobby raised for the key, or the trigger is kept where the request can't be taken back. The
    /// source is asked again then.
    pub fn try_turn<R: Wait>(&mut self, rt: &R) -> TryTurn
        ensures turns { TurnsOrFails S.gives S.fails self.old self.new result }
        ensures places { (self.new.map ≡ self.old.map) × (self.new.queue ≡ self.old.queue) }
        ensures room { HasRoomForAll self.old.map → (counts : NoSlot) → result ≢ TryTurn.Kept counts }
    {
        let Some(trigger) = self.take(rt) else {
            return TryTurn::Idle;
        };
        let key = trigger.key();
        match self.fill_from_source(&trigger) {
            Ok(Ok(())) => {
                self.spend(rt, trigger);
                TryTurn::Filled(key)
            }
            Ok(Err(FillFault::NotAsked | FillFault::Already | FillFault::Stale)) => {
                self.spend(rt, trigger);
                TryTurn::Passed(key)
            }
            Ok(Err(FillFault::NoSlot(counts))) => {
                self.put_back(trigger);
                TryTurn::Kept(counts)
            }
            Err(SourceFault) => self.turn_failed(rt, trigger),
        }
    }

    /// As `try_turn`, and where that finds nothing it sleeps until a client has posted a ticket or the
    /// lobby is closed, and then tells that it was idle. Call it again after that. It never sleeps
    /// while a trigger is kept.
    pub fn try_turn_or_sleep<R: Wait>(&mut self, rt: &R) -> TryTurn
        ensures turns { TurnsOrFails S.gives S.fails self.old self.new result }
        ensures places { (self.new.map ≡ self.old.map) × (self.new.queue ≡ self.old.queue) }
        ensures room { HasRoomForAll self.old.map → (counts : NoSlot) → result ≢ TryTurn.Kept counts }
    {
        let rung = self.raiser.rings(&self.taker);
        let turned = self.try_turn(rt);
        if let TryTurn::Idle = turned {
            self.sleep(rt, &rung);
        }
        turned
    }

    // Fills the trigger's key with rows that the source gives now, if it does.
    fn fill_from_source(&mut self, trigger: &Trigger) -> Result<Result<(), FillFault>, SourceFault>
        requires key { trigger.now.upquery.key < self.old.map.shape.keys }
        ensures asks { AsksSource S.gives S.fails trigger.now self.old self.new result }
        ensures rest { self.new ≡ record self.old { writer = self.new.writer; source = self.new.source } }
        ensures room { HasRoomForAll self.old.map → (counts : NoSlot) → result ≢ Ok (Err (FillFault.NoSlot counts)) }
    {
        laws::room_for_fills();
        let key = trigger.key();
        ask_source(&mut self.source, self.map, key, &mut self.room)?;
        Ok(
            self.map
                .fill(&mut self.writer, key, trigger.number(), &self.room),
        )
    }

    // Ends a trigger for whose key the source failed.
    fn turn_failed<R: Wait>(&mut self, rt: &R, trigger: Trigger) -> TryTurn
        requires none { self.old.kept ≡ None }
        requires key { trigger.upquery.key < self.old.map.shape.keys }
        ensures { TurnsFailed trigger self.old self.new result }
    {
        let key = trigger.key();
        match self.fail(rt, trigger) {
            Ok(_) => TryTurn::Failed(key),
            Err(trigger) => {
                self.put_back(trigger);
                TryTurn::Worn(key)
            }
        }
    }
}

// Asks the source for a key's rows, with the map's bound on them.
fn ask_source<S: FallibleSource>(
    source: &mut S,
    map: &ReaderMap,
    key: u32,
    room: &mut RowSet,
) -> Result<(), SourceFault>
    ensures few { IfOk result (λ _. length room.new ≤ map.now.shape.rows) }
    ensures gives { IfOk result (λ _. S.gives source.old key map.now.shape.rows room.new source.new) }
    ensures fails { IfErr result (λ _. S.fails source.old key map.now.shape.rows source.new) }
{
    source.try_rows(key, map.rows(), room)
}
