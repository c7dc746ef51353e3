//! How long the ends of epochs take: each from when a site begins the last meal that it may eat in its epoch, after
//! which the epoch is over, until the first task of the next epoch begins.

use anyhow::Result;
use std::alloc::Global;
use std::rt::Clock;
use std::sync::Arc;
use std::sync::atomic::{AtomicU64, Ordering};
use std::time::Instant;

/// When the first task of an epoch began, and when the epoch was over, in nanoseconds from a start; 0 stands for not
/// yet.
#[derive(Drop)]
pub struct EpochTimes {
    start: Instant,
    // How many meals a site may eat in an epoch.
    jobs: u32,
    began: AtomicU64,
    over: AtomicU64,
}

impl EpochTimes {
    /// Returns the times of the first epoch, from now on.
    pub fn open<R: Clock>(rt: &R, jobs: u32) -> Result<EpochTimes> {
        Ok(EpochTimes {
            start: Instant::now(rt)?,
            jobs,
            began: AtomicU64::new(0),
            over: AtomicU64::new(0),
        })
    }

    /// Notes that a site begins a task in its meal of this number in the epoch.
    pub fn note<R: Clock>(&self, rt: &R, k: u32) {
        if k == 1 {
            self.set(rt, &self.began);
        }
        if k >= self.jobs {
            self.set(rt, &self.over);
        }
    }

    // Sets a time that is not set yet.
    fn set<R: Clock>(&self, rt: &R, time: &AtomicU64) {
        if time.load(Ordering::SeqCst) == 0
            && let Ok(since) = self.start.elapsed(rt)
        {
            let now = u64::try_from(since.as_nanos()).unwrap_or(u64::MAX);
            // Another site may have set it meanwhile.
            let _ = time.compare_exchange(0, now, Ordering::SeqCst, Ordering::SeqCst);
        }
    }
}

/// How long the ends of epochs took, in nanoseconds.
#[derive(Drop)]
pub struct EpochEnds {
    // When the epoch before was over; 0 if there is none, or if it ended otherwise.
    over: u64,
    ends: Vec<u64>,
}

impl EpochEnds {
    /// Returns those of no epoch.
    pub fn none(alloc: Global) -> EpochEnds {
        EpochEnds {
            over: 0,
            ends: Vec::new(alloc),
        }
    }

    /// Adds the end of the epoch before one that has ended, and makes its times those of the next.
    pub fn add(&mut self, times: &Arc<EpochTimes, Global>) {
        let began = times.began.swap(0, Ordering::SeqCst);
        if self.over > 0 && began > self.over {
            // An end that is lost here is missed in their number.
            let _ = self.ends.push(began - self.over);
        }
        self.over = times.over.swap(0, Ordering::SeqCst);
    }

    /// Writes how many ends there were, and how long they took: in the middle, the most, and together.
    pub fn write<R: Eprint>(mut self, rt: &R) -> Result<()> {
        self.ends.sort()?;
        let mut all = 0u64;
        for end in self.ends.iter() {
            all = all.saturating_add(*end);
        }
        if let (Some(middle), Some(longest)) = (
            self.ends.get(self.ends.len() / 2),
            self.ends.last(),
        ) {
            let count = self.ends.len();
            eprintln!(rt; "ends={count} end_p50={middle} end_longest={longest} end_all={all}")?;
        }
        Ok(())
    }
}
