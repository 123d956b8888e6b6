//! Where clients sleep until the dataflow has done something, and the dataflow until something was
//! posted.
ghost use Rattle.std.specs.Prelude.{◌≡◌, ◌≢◌, ◌<◌, ◌≤◌, ◌+◌, ◌⊎◌, ◌++◌, ◌∷◌, ◌↔◌, [], IfErr, IfOk, IfSome, IsTrue, slice_index};
ghost use Rattle.nr_serve.specs.Hands.{capped, last_count};
ghost use Rattle.nr_serve.specs.Counts.{IsLaterOf, IsNew, OnlyLooks, Raises, closed_at, failed_at, fails_for, group_at, groups_below, raises_for, rung_at, told_at, whole_at};

use crate::counts::{CLOSED_AT, Counts, Guest};
use crate::sleepers::{Limit, NoLimit, Sleepers, TooLate};
use crossbeam_utils::CachePadded;
use nr_model::OpenFault;
use std::alloc::Global;
use std::hint;
use std::marker::Model;
use std::sync::Wait;

/// How many groups of keys have a count and sleepers of their own.
const GROUPS: u32 = 64;

/// The index of the count of the whole lobby.
const WHOLE_AT: usize = 512;

/// The index of the count of tellings, on the same line as the one before: who raises either is the dataflow.
const TOLD_AT: usize = 513;

/// The index of the bell.
const RUNG_AT: usize = 528;

/// How often a thread looks before it goes to sleep, since to sleep and wake takes longer than a
/// fill.
const LOOKS: u32 = 1_000;

/// Counts that only rise, one for each group of keys and one for all, with those who sleep until
/// they have risen. A key's group is its number modulo 64. The bell is a count too, which a post
/// raises.
#[derive(Drop)]
pub struct Lobby {
    counts: Counts,
    groups: [CachePadded<Sleepers>; 64],
    whole: CachePadded<Sleepers>,
    told: CachePadded<Sleepers>,
    rung: CachePadded<Sleepers>,
}

impl Model for Lobby {
    ghost use Rattle.atomic_table.specs.Seated.{TableId};

    ghost Value = { TableId };

    ghost view = { λ lobby. lobby.counts };
}

// The place of the count of a key's group. Each lies on a line of the cache of its own.
#[inline(always)]
fn group_at(key: u32) -> usize
    ensures { result ≡ group_at key }
{
    8 * (key % GROUPS) as usize
}

// The place of the count of failures for a key's group, on the same line.
fn failed_at(key: u32) -> usize
    ensures { result ≡ failed_at key }
{
    group_at(key) + 1
}

impl Lobby {
    /// A lobby that was never raised and isn't closed. Refused where there is no memory.
    pub fn open(alloc: Global) -> Result<Lobby, OpenFault>
        ensures { IfErr result (λ fault. fault ≡ OpenFault.Memory) }
    {
        let Ok(counts) = Counts::open(alloc) else {
            return Err(OpenFault::Memory);
        };
        Ok(Lobby {
            counts,
            groups: std::array::from_fn(|_| CachePadded::new(Sleepers::new())),
            whole: CachePadded::new(Sleepers::new()),
            told: CachePadded::new(Sleepers::new()),
            rung: CachePadded::new(Sleepers::new()),
        })
    }

    /// A guest, which has done nothing.
    pub fn guest(&self) -> Guest
        ensures lobby { result.lobby ≡ self.now }
        ensures new { IsNew result }
    {
        self.counts.enter(CLOSED_AT).1
    }

    /// `count`, with what the guest knows.
    pub fn count_as(&self, guest: &mut Guest) -> u64
        requires { guest.old.lobby ≡ self.now }
        ensures looks { OnlyLooks guest.old guest.new }
        ensures found { slice_index guest.new.seen whole_at ≡ result }
    {
        self.counts.at(guest, WHOLE_AT)
    }

    /// How often it was raised for the keys of this one's group, up to 2^64 - 1.
    #[inline(always)]
    pub fn count_for(&self, guest: &mut Guest, key: u32) -> u64
        requires { guest.old.lobby ≡ self.now }
        ensures looks { OnlyLooks guest.old guest.new }
        ensures found { slice_index guest.new.seen (group_at key) ≡ result }
    {
        self.counts.at(guest, group_at(key))
    }

    /// `raise`, with what the guest did.
    #[tactic(auto, using(crate::proofs::Later::raises_none, crate::proofs::Later::raises_both))]
    pub fn raise_as<R: Wait>(&self, rt: &R, guest: &mut Guest)
        requires { guest.old.lobby ≡ self.now }
        ensures { Raises (groups_below 64 ++ whole_at ∷ []) guest.old guest.new }
    {
        for group in 0..GROUPS {
            self.raise_at(rt, guest, 8 * group as usize);
        }
        self.raise_at(rt, guest, WHOLE_AT);
        self.wake_all();
    }

    /// Raises the count of this key's group and that of the whole lobby by one, and wakes those who
    /// sleep there. A raise of a count to 2^64 - 1 closes the lobby, and later ones change nothing.
    #[tactic(auto, using(crate::proofs::Later::raises_both))]
    pub fn raise_for<R: Wait>(&self, rt: &R, guest: &mut Guest, key: u32)
        requires { guest.old.lobby ≡ self.now }
        ensures { Raises (raises_for key) guest.old guest.new }
    {
        self.raise_at(rt, guest, group_at(key));
        self.raise_at(rt, guest, WHOLE_AT);
        self.groups[(key % GROUPS) as usize].wake_all();
        self.whole.wake_all();
    }

    /// As `raise_for`, once the rows of a key couldn't be had: before that it counts so for the key's
    /// group.
    #[tactic(auto, using(crate::proofs::Later::raises_both))]
    pub(crate) fn fail_for<R: Wait>(&self, rt: &R, guest: &mut Guest, key: u32)
        requires { guest.old.lobby ≡ self.now }
        ensures { Raises (fails_for key) guest.old guest.new }
    {
        self.raise_at(rt, guest, failed_at(key));
        self.raise_for(rt, guest, key);
    }

    /// How often the rows of a key of this one's group couldn't be had, up to 2^64 - 1.
    pub(crate) fn failures_for(&self, guest: &mut Guest, key: u32) -> u64
        requires { guest.old.lobby ≡ self.now }
        ensures looks { OnlyLooks guest.old guest.new }
        ensures found { slice_index guest.new.seen (failed_at key) ≡ result }
    {
        self.counts.at(guest, failed_at(key))
    }

    /// `wait_past`, with what the guest knows.
    pub fn wait_past_as<R: Wait>(&self, rt: &R, guest: &mut Guest, n: u64) -> u64
        requires { guest.old.lobby ≡ self.now }
        ensures looks { OnlyLooks guest.old guest.new }
        ensures past { (n < result) ⊎ (0 < slice_index guest.new.seen closed_at) }
        ensures between { (slice_index guest.old.seen whole_at ≤ result) × (result ≤ slice_index guest.new.seen whole_at) }
    {
        self.wait_for_ever(rt, guest, WHOLE_AT, &self.whole, n)
    }

    /// Sleeps while the count of this key's group is at most `n` and the lobby isn't closed, and
    /// tells the count.
    pub fn wait_past_for<R: Wait>(&self, rt: &R, guest: &mut Guest, key: u32, n: u64) -> u64
        requires { guest.old.lobby ≡ self.now }
        ensures looks { OnlyLooks guest.old guest.new }
        ensures past { (n < result) ⊎ (0 < slice_index guest.new.seen closed_at) }
        ensures between { (slice_index guest.old.seen (group_at key) ≤ result) × (result ≤ slice_index guest.new.seen (group_at key)) }
    {
        let changed = &self.groups[(key % GROUPS) as usize];
        self.wait_for_ever(rt, guest, group_at(key), changed, n)
    }

    // The same, with a limit of time.
    pub(crate) fn wait_within<L: Limit<R>, R: Wait>(
        &self,
        rt: &R,
        guest: &mut Guest,
        key: u32,
        n: u64,
        limit: &L,
    ) -> Result<(), TooLate>
        requires { guest.old.lobby ≡ self.now }
        ensures looks { OnlyLooks guest.old guest.new }
        ensures past { IfOk result (λ _. (n < slice_index guest.new.seen (group_at key)) ⊎ (0 < slice_index guest.new.seen closed_at)) }
        ensures late { IfErr result (λ late. L.lapses limit.now late) }
    {
        let changed = &self.groups[(key % GROUPS) as usize];
        self.wait_at(rt, guest, group_at(key), changed, n, limit)?;
        Ok(())
    }

    /// `close`, with what the guest did.
    pub fn close_as(&self, guest: &mut Guest)
        requires { guest.old.lobby ≡ self.now }
        ensures later { IsLaterOf guest.old guest.new }
        ensures closed { 0 < slice_index guest.new.seen closed_at }
        ensures raised { guest.new.raised ≡ guest.old.raised }
        ensures closes { guest.new.closes ≡ guest.old.closes + 1 }
    {
        self.counts.close(guest);
        self.wake_all();
    }

    /// `is_closed`, with what the guest knows.
    pub fn is_closed_as(&self, guest: &mut Guest) -> bool
        requires { guest.old.lobby ≡ self.now }
        ensures looks { OnlyLooks guest.old guest.new }
        ensures closed { IsTrue result ↔ (0 < slice_index guest.new.seen closed_at) }
    {
        self.counts.at(guest, CLOSED_AT) > 0
    }

    /// Rings the bell, which wakes a dataflow that sleeps until something is posted. A client does
    /// so after each post; a program that posts in a way of its own must do it too. A ring to
    /// 2^64 - 1 closes the lobby.
    pub fn ring<R: Wait>(&self, rt: &R, guest: &mut Guest)
        requires { guest.old.lobby ≡ self.now }
        ensures { Raises (rung_at ∷ []) guest.old guest.new }
    {
        self.raise_at(rt, guest, RUNG_AT);
        self.rung.wake_all();
    }

    // Wakes those who wait until the dataflow told that more was applied.
    pub(crate) fn tell<R: Wait>(&self, rt: &R, guest: &mut Guest)
        requires { guest.old.lobby ≡ self.now }
        ensures { Raises (told_at ∷ []) guest.old guest.new }
    {
        self.raise_at(rt, guest, TOLD_AT);
        self.told.wake_all();
    }

    // How often it told so, up to 2^64 - 1.
    pub(crate) fn tellings(&self, guest: &mut Guest) -> u64
        requires { guest.old.lobby ≡ self.now }
        ensures looks { OnlyLooks guest.old guest.new }
        ensures found { slice_index guest.new.seen told_at ≡ result }
    {
        self.counts.at(guest, TOLD_AT)
    }

    // Sleeps while it told so at most that often and the lobby isn't closed.
    pub(crate) fn wait_for_telling<R: Wait>(&self, rt: &R, guest: &mut Guest, tellings: u64)
        requires { guest.old.lobby ≡ self.now }
        ensures looks { OnlyLooks guest.old guest.new }
        ensures past { (tellings < slice_index guest.new.seen told_at) ⊎ (0 < slice_index guest.new.seen closed_at) }
    {
        self.wait_for_ever(rt, guest, TOLD_AT, &self.told, tellings);
    }

    // How often the bell was rung, up to 2^64 - 1.
    pub(crate) fn rings(&self, guest: &mut Guest) -> u64
        requires { guest.old.lobby ≡ self.now }
        ensures looks { OnlyLooks guest.old guest.new }
        ensures found { slice_index guest.new.seen rung_at ≡ result }
    {
        self.counts.at(guest, RUNG_AT)
    }

    // Sleeps while the bell was rung at most that often and the lobby isn't closed, and tells how
    // often it was rung.
    pub(crate) fn wait_for_ring<R: Wait>(&self, rt: &R, guest: &mut Guest, rings: u64) -> u64
        requires { guest.old.lobby ≡ self.now }
        ensures looks { OnlyLooks guest.old guest.new }
        ensures past { (rings < result) ⊎ (0 < slice_index guest.new.seen closed_at) }
        ensures between { (slice_index guest.old.seen rung_at ≤ result) × (result ≤ slice_index guest.new.seen rung_at) }
    {
        self.wait_for_ever(rt, guest, RUNG_AT, &self.rung, rings)
    }

    #[tactic(auto, using(crate::proofs::Later::raises_none, crate::proofs::Later::raises_both, crate::proofs::Later::raises_then_steps))]
    fn raise_at<R: Wait>(&self, rt: &R, guest: &mut Guest, place: usize)
        requires lobby { guest.old.lobby ≡ self.now }
        requires place { (place < 536) × (place ≢ closed_at) }
        ensures { Raises (place ∷ []) guest.old guest.new }
    {
        for _ in rt.forever() {
            let (count, next) = self.next_count(guest, place);
            if self.counts.raise(guest, place, count, next) {
                return;
            }
        }
        unreachable!()
    }

    // The count at a place, and what a raise makes of it. The last raise closes the lobby before it is
    // made.
    #[tactic(auto, using(crate::proofs::Later::raises_none, crate::proofs::Later::raises_then_looks, crate::proofs::Later::raises_then_closes))]
    fn next_count(&self, guest: &mut Guest, place: usize) -> (u64, u64)
        requires lobby { guest.old.lobby ≡ self.now }
        requires place { (place < 536) × (place ≢ closed_at) }
        ensures raises { Raises [] guest.old guest.new }
        ensures next { let (count, next) = result in next ≡ capped (count + 1) }
        ensures last { let (_, next) = result in next ≡ last_count → 0 < slice_index guest.new.seen closed_at }
    {
        let count = self.counts.at(guest, place);
        let next = count.saturating_add(1);
        if next == u64::MAX {
            self.close_as(guest);
        }
        (count, next)
    }

    fn wait_for_ever<R: Wait>(
        &self,
        rt: &R,
        guest: &mut Guest,
        place: usize,
        changed: &Sleepers,
        n: u64,
    ) -> u64
        requires lobby { guest.old.lobby ≡ self.now }
        requires place { place < 536 }
        ensures looks { OnlyLooks guest.old guest.new }
        ensures past { (n < result) ⊎ (0 < slice_index guest.new.seen closed_at) }
        ensures between { (slice_index guest.old.seen place ≤ result) × (result ≤ slice_index guest.new.seen place) }
    {
        match self.wait_at(rt, guest, place, changed, n, &NoLimit) {
            Ok(count) => count,
            Err(_) => unreachable!(),
        }
    }

    // The sleep is announced before the count is read, so no raise is missed.
    #[tactic(auto, using(crate::proofs::Later::looks_none, crate::proofs::Later::looks_both))]
    fn wait_at<L: Limit<R>, R: Wait>(
        &self,
        rt: &R,
        guest: &mut Guest,
        place: usize,
        changed: &Sleepers,
        n: u64,
        limit: &L,
    ) -> Result<u64, TooLate>
        requires lobby { guest.old.lobby ≡ self.now }
        requires place { place < 536 }
        ensures looks { OnlyLooks guest.old guest.new }
        ensures past { IfOk result (λ count. (n < count) ⊎ (0 < slice_index guest.new.seen closed_at)) }
        ensures between { IfOk result (λ count. (slice_index guest.old.seen place ≤ count) × (count ≤ slice_index guest.new.seen place)) }
        ensures late { IfErr result (λ late. L.lapses limit.now late) }
    {
        if let Some(count) = self.soon_past(guest, place, n) {
            return Ok(count);
        }
        for _ in rt.forever() {
            let announced = changed.announce();
            if let Some(count) = self.past(guest, place, n) {
                return Ok(count);
            }
            limit.sleep(rt, announced)?;
        }
        unreachable!()
    }

    // Looks for a short while for a count to wake up at.
    #[tactic(auto, using(crate::proofs::Later::looks_none, crate::proofs::Later::looks_both))]
    fn soon_past(&self, guest: &mut Guest, place: usize, n: u64) -> Option<u64>
        requires lobby { guest.old.lobby ≡ self.now }
        requires place { place < 536 }
        ensures looks { OnlyLooks guest.old guest.new }
        ensures past { IfSome result (λ count. (n < count) ⊎ (0 < slice_index guest.new.seen closed_at)) }
        ensures between { IfSome result (λ count. (slice_index guest.old.seen place ≤ count) × (count ≤ slice_index guest.new.seen place)) }
    {
        for _ in 0..LOOKS {
            if let Some(count) = self.past(guest, place, n) {
                return Some(count);
            }
            hint::spin_loop();
        }
        None
    }

    // The count at a place, unless it is at most `n` and the lobby isn't closed.
    #[tactic(auto, using(crate::proofs::Later::looks_both))]
    fn past(&self, guest: &mut Guest, place: usize, n: u64) -> Option<u64>
        requires lobby { guest.old.lobby ≡ self.now }
        requires place { place < 536 }
        ensures looks { OnlyLooks guest.old guest.new }
        ensures past { IfSome result (λ count. (n < count) ⊎ (0 < slice_index guest.new.seen closed_at)) }
        ensures between { IfSome result (λ count. (slice_index guest.old.seen place ≤ count) × (count ≤ slice_index guest.new.seen place)) }
    {
        let count = self.counts.at(guest, place);
        if count > n || self.is_closed_as(guest) {
            return Some(count);
        }
        None
    }

    fn wake_all(&self) {
        for group in self.groups.iter() {
            group.wake_all();
        }
        self.whole.wake_all();
        self.told.wake_all();
        self.rung.wake_all();
    }
}
