//! The thread of the dataflow.
ghost use Rattle.std.specs.Prelude.{◌≡◌, ◌≢◌, ◌<◌, [], true, None, MatchOption, length, replicate};
ghost use Rattle.nr_map.specs.SlotBounds.{HasRoomForAll};
ghost use Rattle.nr_load.specs.Flowed.{Changed, Flows, TurnsAll, TurnsOnce};
ghost use Rattle.nr_load.specs.Gained.{Gained};
ghost use Rattle.nr_load.specs.Handed.{IsTakerOf};
ghost use Rattle.nr_load.specs.UnderWay.{ahead_of};

use crate::base::Base;
use crate::fault::LoadFault;
use crate::shared::Shared;
use crate::under_way::UnderWay;
use nr_map::{UpdateFault, Writer};
use nr_serve::{Dataflow, Guest, TryTurn};
use nr_trigger::Taker;
use std::sync::Wait;

/// What the dataflow's thread gives back.
#[derive(Drop)]
pub struct Flowed {
    pub writer: Writer,
    pub taker: Taker,
    /// How many fills were done, up to 2^64 - 1.
    pub fills: u64,
    pub fault: Option<LoadFault>,
    /// That by which it closed the lobby at its end.
    pub guest: Guest,
}

/// What a turn came to.
#[derive(Clone, Copy, Debug, PartialEq, Eq)]
pub(crate) enum Turned {
    /// Nothing was asked for.
    Idle,
    /// A trigger was spent, and its key changed where that filled it.
    Went,
    /// The map refused a change.
    Wrong,
}

// What becomes of a key after a fill: at each fourth one it is evicted, else its row is changed.
fn change(flow: &mut Dataflow<'_, Base>, key: u32, fills: u64) -> Result<(), UpdateFault>
    requires key { (key < flow.old.map.shape.keys) × (key < length flow.old.source) }
    requires room { HasRoomForAll flow.old.map }
    ensures gained { (gained : Gained flow.old.map.shape.keys flow.old.writer flow.new.writer 0 0) × Changed flow.old.writer.number fills key gained.entries flow.old.source flow.new.source result }
    ensures places { (flow.new.map ≡ flow.old.map) × (flow.new.queue ≡ flow.old.queue) }
    ensures triggers { (flow.new.taker ≡ flow.old.taker) × (flow.new.kept ≡ flow.old.kept) }
{
    if fills % 4 == 0 {
        flow.evict(key);
        return Ok(());
    }
    let Some(deltas) = flow.source().step(key) else {
        return Ok(());
    };
    flow.apply_rows(key, &deltas)
}

fn turn_once<R: Wait>(rt: &R, flow: &mut Dataflow<'_, Base>, fills: &mut u64) -> Turned
    requires base { length flow.old.source ≡ flow.old.map.shape.keys }
    requires room { HasRoomForAll flow.old.map }
    ensures turns { TurnsOnce flow.old fills.old flow.new fills.new result }
    ensures places { (flow.new.map ≡ flow.old.map) × (flow.new.queue ≡ flow.old.queue) }
{
    let before = *fills;
    match flow.try_turn_or_sleep(rt) {
        TryTurn::Idle => Turned::Idle,
        TryTurn::Passed(_) => Turned::Went,
        TryTurn::Failed(_) | TryTurn::Kept(_) | TryTurn::Worn(_) => unreachable!(),
        TryTurn::Filled(key) => {
            *fills = before.saturating_add(1);
            match change(flow, key, *fills) {
                Ok(()) => Turned::Went,
                Err(_) => Turned::Wrong,
            }
        }
    }
}

fn is_last(turned: Turned, is_closed: bool) -> bool
    ensures wrong { turned ≡ Turned.Wrong → result ≡ true }
    ensures idle { result ≡ true → turned ≢ Turned.Went }
{
    match turned {
        Turned::Idle => is_closed,
        Turned::Went => false,
        Turned::Wrong => true,
    }
}

fn fault_of(turned: Turned) -> Option<LoadFault>
    ensures { MatchOption result (turned ≢ Turned.Wrong) (λ fault. (fault ≡ LoadFault.WrongRows) × (turned ≡ Turned.Wrong)) }
{
    match turned {
        Turned::Idle | Turned::Went => None,
        Turned::Wrong => Some(LoadFault::WrongRows),
    }
}

// Turns until the lobby is closed and nothing is left to fill, or until a change of rows is refused.
// Before each turn as many triggers are taken as may be under way. Gives how many fills were done.
fn turn_on<R: Wait>(
    rt: &R,
    shared: &Shared,
    flow: &mut Dataflow<'_, Base>,
    under_way: &mut UnderWay,
) -> (u64, Option<LoadFault>)
    requires base { flow.old.source ≡ replicate flow.old.map.shape.keys 0 }
    requires room { HasRoomForAll flow.old.map }
    requires none { (flow.old.kept ≡ None) × (under_way.old.posts ≡ []) }
    requires most { under_way.old.most ≡ ahead_of shared.now.upqueries }
    ensures { let (fills, fault) = result in TurnsAll flow.old flow.new fills fault }
{
    let lobby = shared.service.lobby();
    let mut guest = lobby.guest();
    let mut fills = 0;
    for _ in rt.forever() {
        let is_closed = lobby.is_closed_as(&mut guest);
        under_way.ready(rt, flow);
        let turned = turn_once(rt, flow, &mut fills);
        if is_last(turned, is_closed) {
            return (fills, fault_of(turned));
        }
    }
    unreachable!()
}

// All turns, with room for the triggers that are under way.
fn turn_all<R: Wait>(
    rt: &R,
    shared: &Shared,
    flow: &mut Dataflow<'_, Base>,
) -> (u64, Option<LoadFault>)
    requires base { flow.old.source ≡ replicate flow.old.map.shape.keys 0 }
    requires room { HasRoomForAll flow.old.map }
    requires none { flow.old.kept ≡ None }
    ensures { let (fills, fault) = result in TurnsAll flow.old flow.new fills fault }
{
    let Ok(mut under_way) = UnderWay::open(shared.alloc, shared.upqueries) else {
        return (0, Some(LoadFault::Memory));
    };
    let turned = turn_on(rt, shared, flow, &mut under_way);
    under_way.end();
    turned
}

/// Makes all turns of the dataflow, and then ends the load.
pub(crate) fn flow_on<R: Wait>(
    rt: &R,
    shared: &Shared,
    writer: Writer,
    taker: Taker,
    base: Base,
) -> Flowed
    requires own { writer.table ≡ shared.now.service.map }
    requires queue { IsTakerOf shared.now.service.map shared.now.service.queue taker }
    requires base { base ≡ replicate shared.now.service.map.shape.keys 0 }
    ensures flows { Flows writer taker result }
    ensures closes { (result.guest.lobby ≡ shared.now.service.lobby) × (0 < result.guest.closes) }
{
    let mut flow = Dataflow::of_service(&shared.service, writer, taker, base);
    let (fills, fault) = turn_all(rt, shared, &mut flow);
    let (writer, taker, kept, _) = flow.end();
    if let Some(trigger) = kept {
        trigger.into_key();
    }
    let guest = shared.end();
    Flowed {
        writer,
        taker,
        fills,
        fault,
        guest,
    }
}
