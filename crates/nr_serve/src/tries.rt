//! The tries of a get.
ghost use Rattle.std.specs.Prelude.{◌≡◌, ◌<◌, ◌+◌, ◌*◌, [], IfErr, IfOk, IsSome, length, None};
ghost use Rattle.nr_core.specs.Marks.{acted};
ghost use Rattle.nr_board.specs.Callers.{Rests};
ghost use Rattle.nr_serve.specs.Counts.{OnlyLooks};
ghost use Rattle.nr_serve.specs.Gates.{AsksGate, AsksOnce};
ghost use Rattle.nr_serve.specs.Gets.{AnswersHeld, AwaitsFill, GetsInTime, IsPending, LeavesKept, MissesOnce, TriesOnce, kept_attempts, requested, sent_attempts};
ghost use Rattle.nr_serve.specs.Hands.{IsReady, Moves};
ghost use Rattle.nr_serve.specs.Rings.{Rings};
ghost use Rattle.nr_serve.specs.Waits.{GetsSleeping, SleepsIf};

use crate::answers::{Got, Requested, Tried};
use crate::gate::Gate;
use crate::hands::Hands;
use crate::shared::Shared;
use crate::sleepers::{Limit, TooLate};
use crate::watched::{Counted, Watched};
use nr_map::{Asked, Hand, ReaderMap};
use nr_model::RowSet;
use nr_trigger::Triggers;
use std::sync::Wait;
use std::thread;

/// How often a gate is asked before a get is barred.
const MAX_PASSES: u32 = 1_000_000;

/// After how many of them it yields, which takes milliseconds on a busy machine.
const PASSES_A_YIELD: u32 = 1_000;

// Posts the ticket that is kept, which stays where the queue is full.
#[inline(always)]
#[tactic(auto, using(crate::proofs::Ringing::rings_same, crate::proofs::Ringing::rings_once, crate::proofs::Ringing::rings_none))]
fn post_kept<R: Wait>(
    rt: &R,
    map: &ReaderMap,
    triggers: &Triggers,
    lobby: &mut Watched<'_>,
    hands: &mut Hands,
)
    requires { IsReady map.now triggers.now hands.old }
    ensures ready { IsReady map.now triggers.now hands.new }
    ensures moves { Moves 0 [] hands.old hands.new }
    ensures reader { hands.new.reader ≡ hands.old.reader }
    ensures attempts { hands.new.poster.tries ≡ hands.old.poster.tries + kept_attempts hands.old.kept }
    ensures rings { Rings hands.old lobby.old hands.new lobby.new }
{
    let Some(ticket) = hands.kept.take() else {
        return;
    };
    match triggers.post(rt, &mut hands.poster, ticket) {
        Ok(()) => lobby.ring(rt),
        Err(ticket) => hands.keep(ticket),
    }
}

// Requests the key unless a ticket is kept, and posts the ticket of a request that is to be sent.
#[inline(never)]
#[tactic(auto, using(crate::proofs::Ringing::rings_same))]
fn request<R: Wait>(
    rt: &R,
    map: &ReaderMap,
    triggers: &Triggers,
    lobby: &mut Watched<'_>,
    key: u32,
    hands: &mut Hands,
) -> Requested
    requires ready { IsReady map.now triggers.now hands.old }
    requires key { key < map.now.shape.keys }
    ensures ready { IsReady map.now triggers.now hands.new }
    ensures moves { Moves (length (requested hands.old.reader.number key result)) (requested hands.old.reader.number key result) hands.old hands.new }
    ensures marks { hands.new.reader.marks ≡ hands.old.reader.marks }
    ensures leaves { LeavesKept result hands.new.kept }
    ensures attempts { hands.new.poster.tries ≡ hands.old.poster.tries + sent_attempts result }
    ensures rings { Rings hands.old lobby.old hands.new lobby.new }
{
    if hands.kept.is_some() {
        return Requested::NotMade;
    }
    match hands.reader.ask(map, key) {
        Asked::Send(ticket) => {
            let number = ticket.number();
            hands.sends = hands.sends.saturating_add(1);
            hands.keep(ticket);
            post_kept(rt, map, triggers, lobby, hands);
            Requested::Sent(number)
        }
        Asked::Waiting => Requested::Waiting,
        Asked::Filled => Requested::Filled,
    }
}

// Asks the gate until it lets pass, but not for ever.
fn lets_pass<G: Gate>(shared: &Shared<'_, G>, get: u64) -> bool
    ensures { G.lets shared.now.gate.now shared.now.reader get result }
{
    for asked in 0..MAX_PASSES {
        if shared.gate.pass(shared.reader, get) {
            return true;
        }
        if asked % PASSES_A_YIELD == 0 {
            thread::yield_now();
        }
    }
    false
}

// With the set of a filled key: copies its rows for the caller, if the gate lets pass, and lets it go.
#[inline(always)]
fn answer<G: Gate>(shared: &Shared<'_, G>, get: u64, reader: &mut Hand, rows: &mut RowSet) -> Got
    requires own { reader.old.reader.table ≡ shared.now.map.now }
    requires holds { IsSome reader.old.key }
    ensures answers { AnswersHeld reader.old rows.old reader.new.reader rows.new result }
    ensures asks { AsksGate G.lets G.hears shared.now.gate.now shared.now.reader get result }
    ensures idle { (reader.new.key ≡ None) × (reader.new.reader.holds ≡ None) }
    ensures marks { reader.new.reader.marks ≡ acted reader.old.reader.marks reader.old.reader.marks.put }
{
    if !lets_pass(shared, get) {
        reader.release(shared.map);
        return Got::Barred;
    }
    reader.copy_to(shared.map, rows);
    reader.release(shared.map);
    shared.gate.answered(shared.reader, get);
    Got::Rows
}

// One try: posts the ticket that is kept, and pins the key; asks for a hole.
#[inline(always)]
fn try_once<G: Gate, R: Wait>(
    rt: &R,
    shared: &Shared<'_, G>,
    lobby: &mut Watched<'_>,
    get: u64,
    key: u32,
    hands: &mut Hands,
    rows: &mut RowSet,
) -> Tried
    requires ready { IsReady shared.now.map.now shared.now.triggers.now hands.old }
    requires key { key < shared.now.map.now.shape.keys }
    ensures ready { IsReady shared.now.map.now shared.now.triggers.now hands.new }
    ensures tries { TriesOnce key hands.old rows.old hands.new rows.new result }
    ensures rings { Rings hands.old lobby.old hands.new lobby.new }
    ensures asks { AsksOnce G.lets G.hears shared.now.gate.now shared.now.reader get result }
{
    post_kept(rt, shared.map, shared.triggers, lobby, hands);
    if hands.reader.pin(shared.map, key) {
        return Tried::Ended(answer(shared, get, &mut hands.reader, rows));
    }
    Tried::Missed(request(rt, shared.map, shared.triggers, lobby, key, hands))
}

// After a try that found a hole: sleeps until the count has gone past what it was before the try, if
// another try is to follow, no ticket is kept and a fill is to come.
#[tactic(auto, using(crate::proofs::Later::looks_none))]
fn sleep_if<L: Limit<R>, R: Wait>(
    rt: &R,
    lobby: &mut Watched<'_>,
    tries_left: u32,
    counted: &Counted,
    requested: &Requested,
    hands: &Hands,
    limit: &L,
) -> Result<(), TooLate>
    requires { MissesOnce counted.now.key counted.now.hands.value hands.now requested.now }
    ensures looks { OnlyLooks lobby.old lobby.new }
    ensures late { IfErr result (λ late. L.lapses limit.now late) }
    ensures sleeps { IfOk result (λ _. SleepsIf tries_left counted.now.count counted.now.key (IsPending requested.now) hands.now.kept lobby.new) }
    ensures slept { IfErr result (λ _. (0 < tries_left) × AwaitsFill counted.now.key counted.now.hands.value hands.now requested.now) }
{
    if tries_left > 0 && requested.is_pending() && hands.kept.is_none() {
        lobby.wait_past(rt, counted, requested, hands, limit)?;
    }
    Ok(())
}

/// Tries to get the rows of a key, and sleeps in the lobby between two tries where an upquery is
/// under way, until the count of the key's group has gone past what it was before the try. A sleep
/// that times out ends the get.
pub(crate) fn get_by_tries<G: Gate, L: Limit<R>, R: Wait>(
    rt: &R,
    shared: &Shared<'_, G>,
    lobby: &mut Watched<'_>,
    limit: &L,
    get: u64,
    key: u32,
    tries: u32,
    hands: &mut Hands,
    rows: &mut RowSet,
) -> Result<Got, TooLate>
    requires ready { IsReady shared.now.map.now shared.now.triggers.now hands.old }
    requires key { key < shared.now.map.now.shape.keys }
    ensures ready { IsReady shared.now.map.now shared.now.triggers.now hands.new }
    ensures gets { GetsInTime key tries hands.old rows.old hands.new rows.new result }
    ensures late { IfErr result (λ late. L.lapses limit.now late) }
    ensures at_once { tries ≡ 0 → hands.new ≡ hands.old }
    ensures waits { GetsSleeping key tries hands.old rows.old lobby.old hands.new rows.new lobby.new result }
    ensures rings { Rings hands.old lobby.old hands.new lobby.new }
    ensures asks { IfOk result (λ got. AsksGate G.lets G.hears shared.now.gate.now shared.now.reader get got) }
{
    for i in 0..tries {
        let counted = lobby.count_for(key, hands);
        let requested = match try_once(rt, shared, lobby, get, key, hands, rows) {
            Tried::Ended(got) => return Ok(got),
            Tried::Missed(requested) => requested,
        };
        sleep_if(rt, lobby, tries - i - 1, &counted, &requested, hands, limit)?;
    }
    Ok(Got::GaveUp)
}
