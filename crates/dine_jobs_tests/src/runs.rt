// Runs of jobs that have to end well. What a run promises is left out of these contracts, since each fact that a test
// knows makes its steps dearer to prove.
ghost use Rattle.dine_jobs.specs.JobSites.{HaveJobSites};

use crate::asserts::same;
use dine_run::{Job, JobsDone, Plan, SiteDone, no_values, on_channels, on_rings, run_jobs};
use std::alloc::Global;
use std::process::Abort;
use std::sync::Wait;
use std::thread::Threads;

#[derive(Clone, Copy)]
pub enum Links {
    Channels,
    Rings,
}

pub const BOTH: [Links; 2] = [Links::Channels, Links::Rings];

// Returns what a run over links of a kind leaves.
pub fn ran<R, T, J>(
    rt: &R,
    alloc: Global,
    plan: &Plan,
    links: Links,
    values: Vec<T>,
    jobs: Vec<J>,
) -> JobsDone<T, J>
where
    R: Threads + Wait + Abort + Copy + Send + 'static,
    T: Drop + Send + 'static,
    J: Job<T> + 'static,
    requires expected { HaveJobSites J.expects plan.now jobs }
{
    match links {
        Links::Channels => on_channels(rt, alloc, plan, values, jobs).expect(rt, "a run"),
        Links::Rings => on_rings(rt, alloc, plan, values, jobs).expect(rt, "a run"),
    }
}

// Returns what a run by `run_jobs` leaves.
pub fn ran_jobs<R, T, J>(
    rt: &R,
    alloc: Global,
    plan: &Plan,
    values: Vec<T>,
    jobs: Vec<J>,
) -> JobsDone<T, J>
where
    R: Threads + Wait + Abort + Copy + Send + 'static,
    T: Drop + Send + 'static,
    J: Job<T> + 'static,
    requires expected { HaveJobSites J.expects plan.now jobs }
{
    run_jobs(rt, alloc, plan, values, jobs).expect(rt, "a run")
}

// The values of a plan whose edges have none.
pub fn nothing(rt: &impl Abort, alloc: Global, plan: &Plan) -> Vec<()> {
    no_values(alloc, plan).expect(rt, "memory")
}

// Each site made this number of calls, of which this number failed.
pub fn all_did<J: Drop, F: Drop>(
    rt: &impl Abort,
    sites: &[SiteDone<J, F>],
    calls: u32,
    failures: u32,
) {
    for site in sites {
        same(
            rt,
            &(site.calls().len(), site.failures.len()),
            &(calls as usize, failures as usize),
        );
    }
}
