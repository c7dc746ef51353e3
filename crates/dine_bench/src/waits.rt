//! The longest wait of a site, from when it is hungry to when it eats. A job does as many turns as the first job of its
//! site does in the plan.

use anyhow::Result;
use dine_link::Lane;
use dine_plan::Plan;
use dine_run::{
    Job, JobFault, RunOptions, SiteId, Table, Watch, Watched, no_values, run_jobs_with,
};
use std::alloc::Global;
use std::rt::Clock;
use std::sync::Wait;
use std::thread::Threads;
use std::time::{Duration, Instant};

// A job that turns a word, by steps of xorshift.
#[derive(Drop)]
struct Turns {
    count: u32,
    word: u32,
}

impl Job<()> for Turns {
    type Fault = JobFault;

    fn run(&mut self, _table: &Table<'_, ()>) -> Result<(), JobFault> {
        self.word = turned(self.word, self.count);
        Ok(())
    }
}

/// Returns the word after this number of turns.
pub fn turned(word: u32, count: u32) -> u32 {
    let mut word = word;
    for _ in 0..count {
        word = turned_once(word);
    }
    word
}

fn turned_once(word: u32) -> u32 {
    let word = word ^ (word << 13);
    let word = word ^ (word >> 17);
    word ^ (word << 5)
}

// Keeps the longest wait of its site, but for the first, which begins before all threads are there.
#[derive(Drop)]
struct LongestWait<R: Drop> {
    clock: R,
    since: Option<Instant>,
    longest: Duration,
}

impl<R: Clock + Drop + Send> Watch for LongestWait<R> {
    fn hungry(&mut self, _site: SiteId, k: u32) {
        self.since = if k > 1 {
            Instant::now(&self.clock).ok()
        } else {
            None
        };
    }

    fn begin(&mut self, _site: SiteId, _k: u32) {
        let Some(since) = self.since else {
            return;
        };
        if let Ok(wait) = since.elapsed(&self.clock) {
            self.longest = self.longest.max(wait);
        }
    }
}

// Returns the turns of the first job of a site.
fn turns_of(plan: &Plan, site: SiteId) -> u32 {
    if site.0 < plan.sites() && plan.jobs(site.0) > 0 {
        plan.job(site.0, 1).turns
    } else {
        0
    }
}

// Returns the microseconds of the longest wait of any site in one run.
pub fn longest_wait<L: Lane + 'static, R: Threads + Wait + Clock + Copy + Send + 'static>(
    rt: &R,
    alloc: Global,
    plan: &Plan,
    options: RunOptions,
) -> Result<u128>
where
    L::Tx: 'static,
    L::ClosedTx: 'static,
    L::Rx: 'static,
{
    let mut jobs = Vec::new(alloc);
    for site in plan.site_ids() {
        let turns = Turns {
            count: turns_of(plan, site),
            word: 1,
        };
        let watch = LongestWait {
            clock: *rt,
            since: None,
            longest: Duration::ZERO,
        };
        jobs.push(Watched::new(plan, site, turns, watch))?;
    }
    let values = no_values(alloc, plan)?;
    let done = run_jobs_with::<L, _, _>(rt, alloc, plan, values, jobs, options)?;
    let mut longest = Duration::ZERO;
    for site in done.sites.iter() {
        longest = longest.max(site.job.watch.longest);
    }
    Ok(longest.as_micros())
}
