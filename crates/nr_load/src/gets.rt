//! A worker's gets.
ghost use Rattle.std.specs.Prelude.{◌≡◌, ◌≢◌, ◌≤◌, ◌<◌, ◌∷◌, [], ℕ, List, MatchBool, MatchOption, None, Some, false, length, replicate, slice_index, true};
ghost use Rattle.nr_model.specs.declared.rows.Row.{Row};
ghost use Rattle.nr_serve.specs.Counts.{closed_at};
ghost use Rattle.nr_load.specs.Drawn.{drawn, drawn_on};
ghost use Rattle.nr_load.specs.Works.{AreNews, GetsKey, Judged, Works, answers, of_gets};

use crate::draws::Draws;
use crate::fault::LoadFault;
use nr_model::{Row, RowSet};
use nr_serve::{Client, Gate, Got, Guest, Lobby};
use std::alloc::Global;
use std::sync::Wait;

/// How often a get of a load tries.
pub const TRIES: u32 = 1_000_000;

/// What a worker did.
#[derive(Clone, Copy, Debug, PartialEq, Eq)]
pub struct Worked {
    /// The gets that it began.
    pub made: u32,
    /// Those that ended with rows.
    pub answered: u32,
    /// Whether it found the lobby closed, and began no more.
    pub stopped: bool,
    pub fault: Option<LoadFault>,
}

impl Worked {
    // The lobby was found closed after that many gets.
    fn stopped(made: u32, answered: u32) -> Worked
        ensures made { (result.made ≡ made) × (result.answered ≡ answered) }
        ensures stopped { (result.stopped ≡ true) × (result.fault ≡ None) }
    {
        Worked {
            made,
            answered,
            stopped: true,
            fault: None,
        }
    }

    // Ended by a fault, or without one by the last get.
    fn ended(made: u32, answered: u32, fault: Option<LoadFault>) -> Worked
        ensures made { (result.made ≡ made) × (result.answered ≡ answered) }
        ensures fault { (result.fault ≡ fault) × (result.stopped ≡ false) }
    {
        Worked {
            made,
            answered,
            stopped: false,
            fault,
        }
    }
}

// The row of a set that has just one.
fn only_row(rows: &RowSet) -> Option<Row>
    ensures { MatchOption result ((row : Row) → rows.now ≢ row ∷ []) (λ row. rows.now ≡ row ∷ []) }
{
    if rows.len() == 1 { rows.get(0) } else { None }
}

// Whether it is one row of the key, not below what was known of it; then that is known.
fn is_news(rows: &RowSet, key: u32, known: &mut [u64]) -> bool
    requires { key < length known.old }
    ensures { MatchBool result (AreNews key rows.now known.old known.new) ((known.new ≡ known.old) × ((later : List ℕ) → AreNews key rows.now known.old later → ⊥)) }
{
    let Some(row) = only_row(rows) else {
        return false;
    };
    if row.a != u64::from(key) || row.b < known[key as usize] {
        return false;
    }
    known[key as usize] = row.b;
    true
}

fn answers_of(got: Got) -> u32
    ensures { result ≡ answers got }
{
    match got {
        Got::Rows => 1,
        Got::GaveUp | Got::Barred => 0,
    }
}

// The fault that is told of a get, whose rows are noted where they are news.
fn judge(got: Got, rows: &RowSet, key: u32, known: &mut [u64]) -> Option<LoadFault>
    requires { key < length known.old }
    ensures { Judged key got rows.now known.old known.new result }
{
    match got {
        Got::Barred => Some(LoadFault::Barred),
        Got::GaveUp => None,
        Got::Rows => {
            if is_news(rows, key, known) {
                None
            } else {
                Some(LoadFault::WrongRows)
            }
        }
    }
}

// A get of the next drawn key, and the fault that is told of it.
fn get_drawn<R: Wait, G: Gate>(
    rt: &R,
    client: &mut Client<'_, G>,
    draws: &mut Draws,
    rows: &mut RowSet,
    known: &mut [u64],
) -> (Got, Option<LoadFault>)
    requires keys { draws.old.keys ≤ client.old.map.shape.keys }
    requires known { length known.old ≡ draws.old.keys }
    ensures places { (client.new.map ≡ client.old.map) × (client.new.queue ≡ client.old.queue) × (client.new.opened ≡ client.old.opened) }
    ensures draws { (draws.new.keys ≡ draws.old.keys) × (draws.new.generator ≡ drawn_on draws.old.generator) }
    ensures gets { let (got, _) = result in GetsKey TRIES (drawn draws.old.keys draws.old.generator) client.old.hands client.new.hands got rows.new }
    ensures judged { let (got, fault) = result in Judged (drawn draws.old.keys draws.old.generator) got rows.new known.old known.new fault }
{
    let key = draws.next();
    let got = client.get(rt, key, TRIES, rows);
    let fault = judge(got, rows, key, known);
    (got, fault)
}

/// A get of each of the next `gets` drawn keys, in order. Before each it looks whether the lobby is
/// closed, and then stops. A fault ends it: `Barred` where a gate never let pass, `WrongRows` where a
/// get gave anything but one row `k:x` of its key with x not below what this worker saw of k before,
/// and `Memory` where there is none for what it knows of each key; then it begins no get.
pub fn load_gets<R: Wait, G: Gate>(
    rt: &R,
    alloc: Global,
    client: &mut Client<'_, G>,
    draws: &mut Draws,
    gets: u32,
    lobby: &Lobby,
) -> Worked
    requires { draws.old.keys ≤ client.old.map.shape.keys }
    ensures works { Works TRIES draws.old.keys result.made (replicate draws.old.keys 0) draws.old.generator client.old.hands draws.new.generator client.new.hands result.answered (of_gets result.fault) }
    ensures memory { result.fault ≡ Some LoadFault.Memory → result.made ≡ 0 }
    ensures few { (result.made ≤ gets) × (result.answered ≤ result.made) }
    ensures all { result.stopped ≡ false → result.fault ≡ None → result.made ≡ gets }
    ensures places { (client.new.map ≡ client.old.map) × (client.new.queue ≡ client.old.queue) × (client.new.opened ≡ client.old.opened) }
{
    let (worked, _) = make_gets(rt, alloc, client, draws, gets, lobby);
    worked
}

/// The gets of `load_gets`, and the guest by which it looked.
pub(crate) fn make_gets<R: Wait, G: Gate>(
    rt: &R,
    alloc: Global,
    client: &mut Client<'_, G>,
    draws: &mut Draws,
    gets: u32,
    lobby: &Lobby,
) -> (Worked, Guest)
    requires { draws.old.keys ≤ client.old.map.shape.keys }
    ensures works { let (worked, _) = result in Works TRIES draws.old.keys worked.made (replicate draws.old.keys 0) draws.old.generator client.old.hands draws.new.generator client.new.hands worked.answered (of_gets worked.fault) }
    ensures memory { let (worked, _) = result in worked.fault ≡ Some LoadFault.Memory → worked.made ≡ 0 }
    ensures few { let (worked, _) = result in (worked.made ≤ gets) × (worked.answered ≤ worked.made) }
    ensures all { let (worked, _) = result in worked.stopped ≡ false → worked.fault ≡ None → worked.made ≡ gets }
    ensures guest { let (_, guest) = result in guest.lobby ≡ lobby.now }
    ensures stopped { let (worked, guest) = result in worked.stopped ≡ true → 0 < slice_index guest.seen closed_at }
    ensures places { (client.new.map ≡ client.old.map) × (client.new.queue ≡ client.old.queue) × (client.new.opened ≡ client.old.opened) }
{
    let mut guest = lobby.guest();
    let Ok(mut known) = Vec::from_elem(alloc, 0u64, draws.keys() as usize) else {
        return (Worked::ended(0, 0, Some(LoadFault::Memory)), guest);
    };
    let mut rows = RowSet::new();
    let mut answered: u32 = 0;
    for made in 0..gets {
        if lobby.is_closed_as(&mut guest) {
            return (Worked::stopped(made, answered), guest);
        }
        let (got, fault) = get_drawn(rt, client, draws, &mut rows, known.as_mut_slice());
        answered += answers_of(got);
        if let Some(fault) = fault {
            return (Worked::ended(made + 1, answered, Some(fault)), guest);
        }
    }
    (Worked::ended(gets, answered, None), guest)
}
