// Jobs that are cancelled.
use crate::asserts::{holds, same};
use crate::plans::{all_resigning, band_of};
use crate::runs::{all_did, nothing, ran_jobs};
use dine_run::{Cancel, Cancellable, Failure, Job, JobFault, Plan, SiteDone, Stopped, Table};
use std::alloc::Global;
use std::process::Abort;
use std::sync::Wait;
use std::test::Fail;
use std::thread;
use std::thread::Threads;
use std::time::{Duration, Instant};

const MANY: u32 = 64;

// Goes on until it is told to stop, and then fails. The bound is never reached.
#[derive(Drop)]
struct Endless {
    cancel: Cancel,
}

impl Job<()> for Endless {
    type Fault = JobFault;

    fn run(&mut self, _table: &Table<'_, ()>) -> Result<(), JobFault> {
        for _ in 0..u64::MAX {
            if self.cancel.is_set() {
                break;
            }
            thread::yield_now();
        }
        Err(JobFault)
    }
}

fn endless_jobs(
    rt: &impl Abort,
    alloc: Global,
    plan: &Plan,
    cancel: &Cancel,
) -> Vec<Cancellable<Endless>> {
    let mut jobs = Vec::new(alloc);
    for _ in 0..plan.sites() {
        let job = Endless {
            cancel: cancel.share().expect(rt, "memory"),
        };
        let share = cancel.share().expect(rt, "memory");
        jobs.push(Cancellable::new(job, share)).expect(rt, "memory");
    }
    jobs
}

// Whether a job that had begun is among those that failed.
fn has_begun(failures: &[Failure<Stopped<JobFault>>]) -> bool {
    for failure in failures {
        if failure.fault == Stopped::Failed(JobFault) {
            return true;
        }
    }
    false
}

// Each site was stopped at its first job, which had begun or not. Some had, and some had not.
fn stopped_at_the_first(
    rt: &impl Abort,
    sites: &[SiteDone<Cancellable<Endless>, Stopped<JobFault>>],
) {
    all_did(rt, sites, 1, 1);
    let mut begun = 0u32;
    for site in sites {
        if has_begun(site.failures.as_slice()) {
            begun = begun.saturating_add(1);
        }
    }
    holds(rt, 1 <= begun);
    holds(rt, begun < MANY);
}

#[test]
fn a_run_of_64_endless_jobs_ends_within_a_second(rt: HostRuntime) -> Result<(), Fail> {
    let alloc = rt.alloc();
    let plan = all_resigning(&rt, alloc, MANY, 1_000);
    let cancel = Cancel::open(alloc)?;
    let jobs = endless_jobs(&rt, alloc, &plan, &cancel);
    let values = nothing(&rt, alloc, &plan);
    let clock = rt;
    let setter = thread::spawn(&rt, move || {
        thread::sleep(&clock, Duration::from_millis(100));
        cancel.set();
        Instant::now(&clock)
    })?;
    let done = ran_jobs(&rt, alloc, &plan, values, jobs);
    let took = setter.join(&rt)?.elapsed(&rt)?;
    holds(&rt, took < Duration::from_secs(1));
    stopped_at_the_first(&rt, done.sites.as_slice());
    Ok(())
}

// Does nothing.
#[derive(Drop)]
struct Idle;

impl Job<()> for Idle {
    type Fault = JobFault;

    fn run(&mut self, table: &Table<'_, ()>) -> Result<(), JobFault> {
        if table.k() % 2 == 0 {
            Err(JobFault)
        } else {
            Ok(())
        }
    }
}

fn idle_jobs(rt: &impl Abort, alloc: Global, cancel: &Cancel) -> Vec<Cancellable<Idle>> {
    let mut jobs = Vec::new(alloc);
    for _ in 0..3 {
        let share = cancel.share().expect(rt, "memory");
        jobs.push(Cancellable::new(Idle, share))
            .expect(rt, "memory");
    }
    jobs
}

// How many jobs were cancelled, and how many failed.
fn stops_of(sites: &[SiteDone<Cancellable<Idle>, Stopped<JobFault>>]) -> (u32, u32) {
    let (mut cancelled, mut failed) = (0u32, 0u32);
    for site in sites {
        for failure in site.failures.as_slice() {
            match failure.fault {
                Stopped::Cancelled => cancelled = cancelled.saturating_add(1),
                Stopped::Failed(_) => failed = failed.saturating_add(1),
            }
        }
    }
    (cancelled, failed)
}

// How many jobs went well.
fn went_well(sites: &[SiteDone<Cancellable<Idle>, Stopped<JobFault>>]) -> u32 {
    let mut well = 0u32;
    for site in sites {
        for call in site.calls() {
            if call.ok {
                well = well.saturating_add(1);
            }
        }
    }
    well
}

// Runs three sites with two jobs each, by a flag that is set or not. Checks how many jobs were cancelled, how many
// failed, and how many went well.
fn ends_with<R: Threads + Wait + Abort + Copy + Send + 'static>(
    rt: &R,
    alloc: Global,
    set: bool,
    stops: (u32, u32),
    well: u32,
) {
    let plan = band_of(rt, alloc, 3, 2);
    let cancel = Cancel::open(alloc).expect(rt, "memory");
    if set {
        cancel.set();
    }
    let jobs = idle_jobs(rt, alloc, &cancel);
    let done = ran_jobs(rt, alloc, &plan, nothing(rt, alloc, &plan), jobs);
    same(rt, &stops_of(done.sites.as_slice()), &stops);
    same(rt, &went_well(done.sites.as_slice()), &well);
}

#[test]
fn a_job_is_not_begun_once_the_flag_is_set(rt: HostRuntime) {
    ends_with(&rt, rt.alloc(), false, (0, 3), 3);
    ends_with(&rt, rt.alloc(), true, (6, 0), 0);
}
