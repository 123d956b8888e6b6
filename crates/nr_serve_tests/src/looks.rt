//! How often a wait looks before it sleeps, counted by the time that a processor has for it: so many waits whose time is
//! past, which look and don't sleep, against as many looks one by one. The shortest of several times counts of each.
use crate::same::is_same;
use crate::wakes::busy;
use nr_serve::{Lobby, Watched};
use std::process::Abort;
use std::sync::Wait;
use std::time::{Clock, CpuClock, Duration, Instant};

/// How often a wait looks before it sleeps.
const LOOKS: u32 = 1_000;

const WAITS: u32 = 100;

const TIMES: u32 = 20;

/// A wait for more than no raise of key 0, whose time is past, or a look at its count and at whether the lobby is closed.
#[derive(Clone, Copy)]
enum Deed {
    Wait(Instant),
    Look,
}

impl Deed {
    fn is_done<R: Wait + Clock>(self, rt: &R, watched: &mut Watched<'_>) {
        match self {
            Deed::Wait(past) => {
                let _ = watched.wait_within(rt, 0, 0, &past);
            }
            Deed::Look => {
                watched.group_count(0);
                watched.is_closed();
            }
        }
    }

    // How long this thread has a processor for so many of them.
    fn lasts<R: Wait + Clock + CpuClock>(
        self,
        rt: &R,
        watched: &mut Watched<'_>,
        times: u32,
    ) -> Duration {
        let since = busy(rt);
        for _ in 0..times {
            self.is_done(rt, watched);
        }
        busy(rt).saturating_sub(since)
    }

    fn shortest<R: Wait + Clock + CpuClock>(
        self,
        rt: &R,
        watched: &mut Watched<'_>,
        times: u32,
    ) -> Duration {
        let mut shortest = self.lasts(rt, watched, times);
        for _ in 1..TIMES {
            let next = self.lasts(rt, watched, times);
            if next < shortest {
                shortest = next;
            }
        }
        shortest
    }
}

// A wait looks for as long as half of its looks take at least, and where there was a raise for a quarter of that time at
// most, since its first look sees it.
fn looks_and_sees<R: Abort + Wait + Clock + CpuClock>(rt: &R, lobby: &Lobby) {
    let Ok(past) = Instant::now(rt) else {
        panic!(rt; "a clock");
    };
    let mut watched = Watched::of(lobby);
    let looked = Deed::Look.shortest(rt, &mut watched, LOOKS * WAITS);
    let waited = Deed::Wait(past).shortest(rt, &mut watched, WAITS);
    lobby.raise_for(rt, &mut lobby.guest(), 0);
    let saw = Deed::Wait(past).shortest(rt, &mut watched, WAITS);
    is_same(rt, &(looked <= waited.saturating_mul(2)), &true);
    is_same(rt, &(saw.saturating_mul(4) <= waited), &true);
}

#[test]
fn a_wait_looks_a_thousand_times_before_it_sleeps(rt: HostRuntime) {
    let lobby = Lobby::open(rt.alloc()).expect(&rt, "a lobby");
    looks_and_sees(&rt, &lobby);
}
