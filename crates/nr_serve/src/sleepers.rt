//! Where threads sleep until they are woken, or until a time. It is the kit's `EventCount` with a limit
//! of time: a sleeper announces itself, looks once more at what it waits for, and then sleeps.
ghost use Rattle.std.specs.Prelude.{◌≡◌, ◌<◌, ◌≤◌, ◌+◌, IfErr, IfOk, Some};
ghost use Rattle.core.specs.Duration.{as_nanos};
ghost use Rattle.std.specs.Option.{ForSome};
ghost use Rattle.std.specs.Time.{instant_nanos};

use std::sync::Wait;
use std::sync::atomic::AtomicU64;
use std::sync::atomic::Ordering::SeqCst;
use std::time::{Clock, Duration, Instant};

/// The answer of a sleep that timed out, which alone makes one.
#[derive(Debug, Drop)]
pub struct TooLate {
    until: Instant,
    /// What the clock showed then, where it could be read.
    read: Option<Instant>,
    ghost past: { ForSome read (λ now. instant_nanos until ≤ instant_nanos now) },
}

/// The threads that sleep until one thing has changed.
#[derive(Drop)]
pub(crate) struct Sleepers {
    /// How often they were woken, where there were any.
    wakes: AtomicU64,
    waiting: AtomicU64,
}

/// A sleep that is announced. Dropped, it is over.
pub struct Announced<'a> {
    sleepers: &'a Sleepers,
    wakes: u64,
}

impl Sleepers {
    pub(crate) fn new() -> Sleepers {
        Sleepers {
            wakes: AtomicU64::new(0),
            waiting: AtomicU64::new(0),
        }
    }

    /// Call it first, look then whether there is anything to sleep for, and sleep if there is.
    pub(crate) fn announce(&self) -> Announced<'_> {
        self.waiting.fetch_add(1, SeqCst);
        Announced {
            sleepers: self,
            wakes: self.wakes.load(SeqCst),
        }
    }

    /// Call it after the change. It ends each sleep that was announced before.
    pub(crate) fn wake_all(&self) {
        if self.waiting.load(SeqCst) != 0 {
            self.wakes.fetch_add(1, SeqCst);
            self.wakes.wake_all();
        }
    }
}

impl Announced<'_> {
    // The number that the sleep is to find unchanged.
    fn low(&self) -> u32 {
        (self.wakes & 0xffff_ffff) as u32
    }
}

impl Drop for Announced<'_> {
    fn drop(self) {
        let Self { sleepers, wakes: _ } = self;
        sleepers.waiting.fetch_sub(1, SeqCst);
    }
}

/// How long a sleep may last: `NoLimit`, or until an `Instant`.
pub trait Limit<R> {
    ghost use Rattle.nr_serve.specs.declared.sleepers.TooLate.{TooLate};

    /// Whether it may time out so.
    ghost lapses: { Self → TooLate → Type 0 };

    /// Sleeps until a wake after the announcement, or the limit. It may end for no reason, so look
    /// again then.
    fn sleep(&self, rt: &R, announced: Announced<'_>) -> Result<(), TooLate>
        ensures { IfErr result (λ late. lapses self.now late) };
}

/// As long as it takes.
pub struct NoLimit;

impl<R: Wait> Limit<R> for NoLimit {
    ghost lapses = { λ _ _. ⊥ };

    fn sleep(&self, rt: &R, announced: Announced<'_>) -> Result<(), TooLate> {
        announced.sleepers.wakes.park(rt, announced.low());
        Ok(())
    }
}

/// Until that time. A clock that can't be read ends the sleep.
impl<R: Wait + Clock> Limit<R> for Instant {
    ghost use Rattle.std.specs.Prelude.{◌≡◌};

    ghost lapses = { λ until late. late.until ≡ until };

    fn sleep(&self, rt: &R, announced: Announced<'_>) -> Result<(), TooLate> {
        let left = time_left(rt, *self)?;
        announced
            .sleepers
            .wakes
            .park_timeout(rt, announced.low(), left);
        Ok(())
    }
}

// How long it is until then.
fn time_left<R: Clock>(rt: &R, until: Instant) -> Result<Duration, TooLate>
    ensures left { IfOk result (λ left. (now : Instant) × (0 < as_nanos left) × (instant_nanos now + as_nanos left ≡ instant_nanos until)) }
    ensures late { IfErr result (λ late. late.until ≡ until) }
{
    let Ok(now) = Instant::now(rt) else {
        return Err(TooLate { until, read: None });
    };
    left_at(now, until)
}

// How long it is from now until then.
fn left_at(now: Instant, until: Instant) -> Result<Duration, TooLate>
    ensures left { IfOk result (λ left. (0 < as_nanos left) × (instant_nanos now + as_nanos left ≡ instant_nanos until)) }
    ensures late { IfErr result (λ late. (late.until ≡ until) × (late.read ≡ Some now)) }
{
    match until.checked_duration_since(now) {
        Some(left) if !left.is_zero() => Ok(left),
        _ => Err(TooLate {
            until,
            read: Some(now),
        }),
    }
}
