//! A watch that keeps how long its site waited.
ghost use Rattle.std.specs.Prelude.{◌≡◌, ◌+◌, ◌-◌, ◌^◌, IfErr, IfOk, max, min};
ghost use Rattle.std.specs.Duration.{as_nanos};

use crate::watch::Watch;
use dine_graph::SiteId;
use std::io;
use std::rt::Clock;
use std::time::{Duration, Instant};

/// How often a site waited for its forks, how long all these waits took together, and the longest of them, both in
/// nanoseconds.
#[derive(Clone, Copy, Debug, Default, PartialEq, Eq)]
pub struct Waits {
    pub count: u64,
    pub sum: u64,
    pub longest: u64,
}

impl Waits {
    /// Adds a wait of so many nanoseconds. Each number stops at the largest `u64`.
    pub fn add(&mut self, nanos: u64)
        ensures count { self.new.count ≡ min (self.old.count + 1) (2 ^ 64 - 1) }
        ensures sum { self.new.sum ≡ min (self.old.sum + nanos) (2 ^ 64 - 1) }
        ensures longest { self.new.longest ≡ max self.old.longest nanos }
    {
        self.count = self.count.saturating_add(1);
        self.sum = self.sum.saturating_add(nanos);
        self.longest = self.longest.max(nanos);
    }

    // Adds a wait of this time. If the clock failed, it is left out.
    fn add_timed(&mut self, wait: io::Result<Duration>)
        ensures failed { IfErr wait (λ _. self.new ≡ self.old) }
        ensures count { IfOk wait (λ _. self.new.count ≡ min (self.old.count + 1) (2 ^ 64 - 1)) }
        ensures sum { IfOk wait (λ took. self.new.sum
            ≡ min (self.old.sum + min (as_nanos took) (2 ^ 64 - 1)) (2 ^ 64 - 1)) }
        ensures longest { IfOk wait (λ took. self.new.longest
            ≡ max self.old.longest (min (as_nanos took) (2 ^ 64 - 1))) }
    {
        if let Ok(took) = wait {
            self.add(nanos_of(took));
        }
    }
}

// How many nanoseconds this is, at most the largest `u64`.
fn nanos_of(took: Duration) -> u64
    ensures { result ≡ min (as_nanos took) (2 ^ 64 - 1) }
{
    u64::try_from(took.as_nanos()).unwrap_or(u64::MAX)
}

/// Keeps the waits of its site by a clock. A wait is from when the site grew hungry, which for its first job is before
/// the threads start, until it begins. If the clock fails, that wait is left out.
#[derive(Drop)]
pub struct WaitClock<R: Drop> {
    /// The waits so far.
    pub waits: Waits,
    clock: R,
    hungry_since: Option<Instant>,
}

impl<R: Clock + Drop + Send> WaitClock<R> {
    /// Makes a watch with no waits yet, which reads this clock: pass `rt`.
    pub fn new(clock: R) -> WaitClock<R>
        ensures { result.waits ≡ record { count = 0; sum = 0; longest = 0 } }
    {
        WaitClock {
            waits: Waits {
                count: 0,
                sum: 0,
                longest: 0,
            },
            clock,
            hungry_since: None,
        }
    }
}

impl<R: Clock + Drop + Send> Watch for WaitClock<R> {
    fn hungry(&mut self, _site: SiteId, _k: u32) {
        self.hungry_since = Instant::now(&self.clock).ok();
    }

    fn begin(&mut self, _site: SiteId, _k: u32) {
        let Some(since) = self.hungry_since else {
            return;
        };
        self.hungry_since = None;
        self.waits.add_timed(since.elapsed(&self.clock));
    }
}
