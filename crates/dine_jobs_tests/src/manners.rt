// Polite, patient and greedy runs of jobs over values.
use crate::asserts::same;
use crate::plans::band_of;
use crate::runs::{BOTH, Links, all_did};
use dine_run::{
    ChannelLane, EdgeValue, Job, JobFault, JobsDone, Place, Plan, RingLane, RunOptions, Table,
    run_jobs_with,
};
use std::alloc::Global;
use std::process::Abort;
use std::sync::Wait;
use std::thread::Threads;

const RUNS: u32 = 10;

const SITES: u32 = 6;

const JOBS: u32 = 20;

// Adds one to each of its values.
#[derive(Drop)]
struct Counter;

impl Job<u64> for Counter {
    type Fault = JobFault;

    fn run(&mut self, table: &Table<'_, u64>) -> Result<(), JobFault> {
        for place in 0..table.places() {
            let mut value = table.open(Place(place))?;
            *value = value.wrapping_add(1);
        }
        Ok(())
    }
}

// A value of 0 for each edge, and a counter for each site.
fn fresh(rt: &impl Abort, alloc: Global, plan: &Plan) -> (Vec<u64>, Vec<Counter>) {
    let values = vec![in alloc; 0u64; plan.edges() as usize].expect(rt, "memory");
    let mut jobs = Vec::new(alloc);
    for _ in 0..SITES {
        jobs.push(Counter).expect(rt, "memory");
    }
    (values, jobs)
}

// Runs the jobs over links of a kind.
fn ran_so<R: Threads + Wait + Abort + Copy + Send + 'static>(
    rt: &R,
    alloc: Global,
    plan: &Plan,
    links: Links,
    options: RunOptions,
) -> JobsDone<u64, Counter> {
    let (values, jobs) = fresh(rt, alloc, plan);
    let done = match links {
        Links::Channels => {
            run_jobs_with::<ChannelLane, u64, Counter>(rt, alloc, plan, values, jobs, options)
        }
        Links::Rings => {
            run_jobs_with::<RingLane, u64, Counter>(rt, alloc, plan, values, jobs, options)
        }
    };
    done.expect(rt, "a run")
}

// Each value has what all jobs of both its ends add.
fn are_sums(rt: &impl Abort, values: &[EdgeValue<u64>]) {
    for value in values {
        same(rt, &value.value, &(2 * u64::from(JOBS)));
    }
}

fn adds_up<R: Threads + Wait + Abort + Copy + Send + 'static>(
    rt: &R,
    alloc: Global,
    links: Links,
    options: RunOptions,
) {
    let plan = band_of(rt, alloc, SITES, JOBS);
    let done = ran_so(rt, alloc, &plan, links, options);
    are_sums(rt, done.values.as_slice());
    all_did(rt, done.sites.as_slice(), JOBS, 0);
    same(
        rt,
        &(done.values.len(), done.found_open),
        &(plan.edges() as usize, 0),
    );
}

// Runs the jobs several times over each kind of links.
fn add_up<R: Threads + Wait + Abort + Copy + Send + 'static>(
    rt: &R,
    alloc: Global,
    options: RunOptions,
) {
    for _ in 0..RUNS {
        for links in BOTH {
            adds_up(rt, alloc, links, options);
        }
    }
}

#[test]
fn polite_jobs_add_up(rt: HostRuntime) {
    add_up(&rt, rt.alloc(), RunOptions::polite())
}

#[test]
fn patient_jobs_add_up(rt: HostRuntime) {
    add_up(&rt, rt.alloc(), RunOptions::patience(3))
}

#[test]
fn greedy_jobs_add_up(rt: HostRuntime) {
    add_up(&rt, rt.alloc(), RunOptions::greedy())
}
