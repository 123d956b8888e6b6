//! Threads that sleep in a lobby, and what wakes them: each is given time to fall asleep, and then must come back by
//! one call alone. On a slow machine it may not sleep yet, and what is asserted holds all the same.
use crate::opened::comes;
use crate::same::is_same;
use nr_serve::{Lobby, NoLimit, Watched};
use std::alloc::{AllocError, Global};
use std::process::Abort;
use std::sync::Wait;
use std::sync::atomic::{AtomicBool, Ordering};
use std::thread::{self, Scope, Threads};
use std::time::{Clock, Duration};

const GROUPS: u32 = 64;

/// What a thread sleeps for: a raise of the whole lobby, or one for a key, by the lobby's own call or as a client does.
#[derive(Clone, Copy)]
enum Cause {
    Whole,
    Key(u32),
    KeyOfClient(u32),
}

/// A thread that sleeps until a count is above 0, and tells that it came back.
#[derive(Drop)]
struct Sleeper {
    cause: Cause,
    came: AtomicBool,
}

impl Sleeper {
    fn of(cause: Cause) -> Sleeper {
        Sleeper {
            cause,
            came: AtomicBool::new(false),
        }
    }

    fn sleep<R: Wait>(&self, rt: &R, lobby: &Lobby) {
        match self.cause {
            Cause::Whole => {
                lobby.wait_past(rt, 0);
            }
            Cause::Key(key) => {
                lobby.wait_past_for(rt, &mut lobby.guest(), key, 0);
            }
            Cause::KeyOfClient(key) => {
                let _ = Watched::of(lobby).wait_within(rt, key, 0, &NoLimit);
            }
        }
        self.came.store(true, Ordering::SeqCst);
    }

    // Whether it comes within ten seconds.
    fn comes<R: Clock>(&self, rt: &R) -> bool {
        comes(rt, &self.came)
    }
}

/// What is done once all sleep.
#[derive(Clone, Copy)]
enum Deed {
    Raise,
    RaiseFor(u32),
    /// A raise for a key of each group, in turn.
    RaiseForEach,
    Close,
}

// Whether each of these comes.
fn all_come<R: Clock>(rt: &R, sleepers: &[Sleeper]) -> bool {
    for sleeper in sleepers.iter() {
        if !sleeper.comes(rt) {
            return false;
        }
    }
    true
}

// Raises for one key of each group, another one than that for which a thread sleeps. Whether just that thread comes,
// before the next raise.
fn each_comes<R: Wait + Clock>(rt: &R, lobby: &Lobby, sleepers: &[Sleeper]) -> bool {
    let mut key = GROUPS;
    for sleeper in sleepers.iter() {
        if sleeper.came.load(Ordering::SeqCst) {
            return false;
        }
        lobby.raise_for(rt, &mut lobby.guest(), key);
        if !sleeper.comes(rt) {
            return false;
        }
        key = key.wrapping_add(1);
    }
    true
}

// Does it, and tells whether it woke them. Then whoever sleeps still is helped.
fn wakes<R: Wait + Clock>(rt: &R, lobby: &Lobby, sleepers: &[Sleeper], deed: Deed) -> bool {
    thread::sleep(rt, Duration::from_millis(200));
    let woken = match deed {
        Deed::Raise => {
            lobby.raise(rt);
            all_come(rt, sleepers)
        }
        Deed::RaiseFor(key) => {
            lobby.raise_for(rt, &mut lobby.guest(), key);
            all_come(rt, sleepers)
        }
        Deed::RaiseForEach => each_comes(rt, lobby, sleepers),
        Deed::Close => {
            lobby.close(rt);
            all_come(rt, sleepers)
        }
    };
    lobby.close(rt);
    lobby.raise(rt);
    woken
}

// A thread for each of them. Whether none was refused.
fn start<'s, E, R: Threads + Wait + Sync>(
    scope: &Scope<'s, E>,
    rt: &'s R,
    lobby: &'s Lobby,
    sleepers: &'s [Sleeper],
) -> bool {
    for sleeper in sleepers.iter() {
        if scope.spawn(move || sleeper.sleep(rt, lobby)).is_err() {
            return false;
        }
    }
    true
}

// Whether the deed wakes all these, where a thread can be started for each.
fn are_woken<R: Threads + Wait + Clock + Sync>(
    rt: &R,
    lobby: &Lobby,
    sleepers: &[Sleeper],
    deed: Deed,
) -> Option<bool> {
    thread::scope(thread::scope_env(), rt, |scope| -> Option<bool> {
        let started = start(scope, rt, lobby, sleepers);
        let woken = wakes(rt, lobby, sleepers, deed);
        started.then_some(woken)
    })
}

// One for each group of keys, by the lobby's own call or as a client.
fn of_each_group(alloc: Global, as_clients: bool) -> Result<Vec<Sleeper>, AllocError> {
    let mut sleepers = Vec::new(alloc);
    for key in 0..GROUPS {
        let cause = if as_clients {
            Cause::KeyOfClient(key)
        } else {
            Cause::Key(key)
        };
        sleepers.push(Sleeper::of(cause))?;
    }
    Ok(sleepers)
}

fn all_wake<R: Threads + Wait + Clock + Sync + AllocGlobal + Abort>(
    rt: &R,
    sleepers: &[Sleeper],
    deed: Deed,
) {
    let lobby = Lobby::open(rt.alloc()).expect(rt, "a lobby");
    is_same(rt, &are_woken(rt, &lobby, sleepers, deed), &Some(true));
}

#[test]
fn a_raise_wakes_who_waits_for_the_whole_lobby(rt: HostRuntime) {
    all_wake(&rt, &[Sleeper::of(Cause::Whole)], Deed::Raise);
}

#[test]
fn a_raise_for_a_key_wakes_who_waits_for_the_whole_lobby(rt: HostRuntime) {
    all_wake(&rt, &[Sleeper::of(Cause::Whole)], Deed::RaiseFor(5));
}

#[test]
fn a_close_wakes_who_waits_for_the_whole_lobby(rt: HostRuntime) {
    all_wake(&rt, &[Sleeper::of(Cause::Whole)], Deed::Close);
}

// Keys 3 and 67 are of one group, and one raise wakes all three.
#[test]
fn a_raise_for_a_key_wakes_all_sleepers_of_its_group(rt: HostRuntime) {
    let sleepers = [
        Sleeper::of(Cause::Key(3)),
        Sleeper::of(Cause::Key(3)),
        Sleeper::of(Cause::Key(67)),
    ];
    all_wake(&rt, &sleepers, Deed::RaiseFor(3));
}

#[test]
fn raises_for_keys_wake_each_group_by_itself(rt: HostRuntime) {
    let sleepers = of_each_group(rt.alloc(), false).expect(&rt, "memory");
    all_wake(&rt, sleepers.as_slice(), Deed::RaiseForEach);
}

#[test]
fn raises_for_keys_wake_clients_of_each_group_by_themselves(rt: HostRuntime) {
    let sleepers = of_each_group(rt.alloc(), true).expect(&rt, "memory");
    all_wake(&rt, sleepers.as_slice(), Deed::RaiseForEach);
}

#[test]
fn a_raise_wakes_all_groups(rt: HostRuntime) {
    let sleepers = of_each_group(rt.alloc(), false).expect(&rt, "memory");
    all_wake(&rt, sleepers.as_slice(), Deed::Raise);
}

#[test]
fn a_close_wakes_all_groups(rt: HostRuntime) {
    let sleepers = of_each_group(rt.alloc(), false).expect(&rt, "memory");
    all_wake(&rt, sleepers.as_slice(), Deed::Close);
}
