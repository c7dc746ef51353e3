// No two jobs have a value open at the same time: many runs over each kind of links, and one way to share that is
// broken, in which they do.
use crate::asserts::same;
use crate::plans::band_of;
use crate::runs::{Links, nothing, ran};
use dine_run::{EdgeValue, Job, JobFault, Place, Plan, SiteDone, Table};
use std::alloc::Global;
use std::process::Abort;
use std::sync::atomic::{AtomicU64, Ordering};
use std::sync::{Arc, Mutex, Wait};
use std::thread;
use std::thread::Threads;

const RUNS: u32 = 200;

const SITES: u32 = 8;

const JOBS: u32 = 50;

const NUMBERS: usize = 64;

// Adds one to each number of each of its values, in steps that another thread would spoil.
#[derive(Drop)]
struct Adder;

impl Job<Vec<u64>> for Adder {
    type Fault = JobFault;

    fn run(&mut self, table: &Table<'_, Vec<u64>>) -> Result<(), JobFault> {
        for place in 0..table.places() {
            let mut numbers = table.open(Place(place))?;
            for number in numbers.iter_mut() {
                *number = number.wrapping_add(1);
            }
        }
        Ok(())
    }
}

// Numbers that are all 0 for each edge.
fn zeros(rt: &impl Abort, alloc: Global, plan: &Plan) -> Vec<Vec<u64>> {
    let mut values = Vec::new(alloc);
    for _ in 0..plan.edges() {
        let numbers = Vec::from_elem(alloc, 0u64, NUMBERS).expect(rt, "memory");
        values.push(numbers).expect(rt, "memory");
    }
    values
}

// An adder for each site.
fn adders(rt: &impl Abort, alloc: Global, plan: &Plan) -> Vec<Adder> {
    let mut adders = Vec::new(alloc);
    for _ in 0..plan.sites() {
        adders.push(Adder).expect(rt, "memory");
    }
    adders
}

// How many numbers are not what all jobs of both ends add.
fn wrong(values: &[EdgeValue<Vec<u64>>]) -> u32 {
    let mut wrong = 0u32;
    for value in values {
        for number in value.value.as_slice() {
            if *number != 2 * JOBS as u64 {
                wrong = wrong.saturating_add(1);
            }
        }
    }
    wrong
}

// How many jobs failed.
fn failed(sites: &[SiteDone<Adder, JobFault>]) -> usize {
    let mut failed = 0usize;
    for site in sites {
        failed = failed.saturating_add(site.failures.len());
    }
    failed
}

// In each run all numbers are right, no job failed, and each value was free.
fn each_is_free<R: Threads + Wait + Abort + Copy + Send + 'static>(
    rt: &R,
    alloc: Global,
    links: Links,
) {
    let plan = band_of(rt, alloc, SITES, JOBS);
    for _ in 0..RUNS {
        let (values, adders) = (zeros(rt, alloc, &plan), adders(rt, alloc, &plan));
        let done = ran(rt, alloc, &plan, links, values, adders);
        let found = (wrong(done.values.as_slice()), failed(done.sites.as_slice()));
        same(rt, &found, &(0, 0));
        same(rt, &done.found_open, &0);
    }
}

#[test]
fn each_value_is_free_over_rings(rt: HostRuntime) {
    each_is_free(&rt, rt.alloc(), Links::Rings);
}

#[test]
fn each_value_is_free_over_channels(rt: HostRuntime) {
    each_is_free(&rt, rt.alloc(), Links::Channels);
}

// Shares one lock among all sites, which no fork guards, and counts how often it is not free.
#[derive(Drop)]
struct Unguarded {
    shared: Arc<Mutex<u64>>,
    missed: Arc<AtomicU64>,
}

impl Job<()> for Unguarded {
    type Fault = JobFault;

    fn run(&mut self, _table: &Table<'_, ()>) -> Result<(), JobFault> {
        let Some(mut number) = self.shared.try_lock() else {
            self.missed.fetch_add(1, Ordering::SeqCst);
            return Err(JobFault);
        };
        thread::yield_now();
        *number = number.wrapping_add(1);
        Ok(())
    }
}

// Jobs for all sites that share a lock, and a count of how often it is not free.
fn jobs_sharing(rt: &impl Abort, alloc: Global, missed: &Arc<AtomicU64>) -> Vec<Unguarded> {
    let lock = Arc::new(alloc, Mutex::new(0u64)).expect(rt, "memory");
    let mut jobs = Vec::new(alloc);
    for _ in 0..SITES {
        let shared = Arc::try_clone(&lock).expect(rt, "memory");
        let missed = Arc::try_clone(missed).expect(rt, "memory");
        jobs.push(Unguarded { shared, missed }).expect(rt, "memory");
    }
    jobs
}

// Whether some run met a lock that was taken.
fn meets_a_taken_lock<R: Threads + Wait + Abort + Copy + Send + 'static>(
    rt: &R,
    alloc: Global,
) -> bool {
    let plan = band_of(rt, alloc, SITES, JOBS);
    let missed = Arc::new(alloc, AtomicU64::new(0)).expect(rt, "memory");
    for _ in 0..RUNS {
        let values = nothing(rt, alloc, &plan);
        let jobs = jobs_sharing(rt, alloc, &missed);
        let _done = ran(rt, alloc, &plan, Links::Rings, values, jobs);
        if missed.load(Ordering::SeqCst) > 0 {
            return true;
        }
    }
    false
}

// The runs above would find a lock that is not free: with one lock for many edges, some run finds it so.
#[test]
fn a_lock_that_no_fork_guards_is_found_taken(rt: HostRuntime) {
    same(&rt, &meets_a_taken_lock(&rt, rt.alloc()), &true);
}
