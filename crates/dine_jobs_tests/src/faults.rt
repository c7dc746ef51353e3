// Runs of jobs that are refused, and what they return.
use crate::asserts::same;
use crate::plans::band_of;
use dine_run::{Job, JobFault, JobsCause, JobsDone, JobsFault, Plan, Table, run_jobs};
use std::alloc::Global;
use std::process::Abort;
use std::sync::Wait;
use std::thread::Threads;

#[derive(Drop)]
struct Idle(u32);

impl Job<u32> for Idle {
    type Fault = JobFault;

    fn run(&mut self, _table: &Table<'_, u32>) -> Result<(), JobFault> {
        Ok(())
    }
}

// The numbers below n.
fn numbers(rt: &impl Abort, alloc: Global, n: u32) -> Vec<u32> {
    let mut numbers = Vec::new(alloc);
    for i in 0..n {
        numbers.push(i).expect(rt, "memory");
    }
    numbers
}

// Checks the cause and the text of the fault, and that it returns the values and jobs, in order.
fn hands_back(
    rt: &impl Abort,
    alloc: Global,
    fault: &JobsFault<u32, Idle>,
    cause: JobsCause,
    text: &str,
    sizes: (u32, u32),
) {
    same(rt, &fault.cause, &cause);
    let printed = fault.to_string(alloc).expect(rt, "memory");
    same(rt, &printed.as_str(), &text);
    are_values(rt, fault.values.as_slice(), sizes.0);
    are_jobs(rt, fault.jobs.as_slice(), sizes.1);
}

// The values are the numbers below n.
fn are_values(rt: &impl Abort, values: &[u32], n: u32) {
    same(rt, &values.len(), &(n as usize));
    let mut next = 0u32;
    for value in values {
        same(rt, value, &next);
        next = next.saturating_add(1);
    }
}

fn are_jobs(rt: &impl Abort, jobs: &[Idle], n: u32) {
    same(rt, &jobs.len(), &(n as usize));
    let mut next = 0u32;
    for job in jobs {
        same(rt, &job.0, &next);
        next = next.saturating_add(1);
    }
}

fn idle_jobs(rt: &impl Abort, alloc: Global, n: u32) -> Vec<Idle> {
    let mut jobs = Vec::new(alloc);
    for i in 0..n {
        jobs.push(Idle(i)).expect(rt, "memory");
    }
    jobs
}

// What a run with so many values and jobs returns.
fn ran_with<R: Threads + Wait + Abort + Copy + Send + 'static>(
    rt: &R,
    alloc: Global,
    plan: &Plan,
    sizes: (u32, u32),
) -> Result<JobsDone<u32, Idle>, JobsFault<u32, Idle>> {
    let values = numbers(rt, alloc, sizes.0);
    let jobs = idle_jobs(rt, alloc, sizes.1);
    run_jobs(rt, alloc, plan, values, jobs)
}

fn values_differ(given: usize) -> JobsCause {
    JobsCause::ValuesDiffer { given, edges: 3 }
}

fn jobs_differ(given: usize) -> JobsCause {
    JobsCause::JobsDiffer { given, sites: 3 }
}

#[test]
fn values_and_jobs_that_are_not_as_many_are_handed_back(rt: HostRuntime) {
    let alloc = rt.alloc();
    // Three sites with three edges.
    let plan = band_of(&rt, alloc, 3, 2);
    for (sizes, cause, text) in [
        (
            (2, 3),
            values_differ(2),
            "run refused: values given 2, wanted 3",
        ),
        (
            (4, 3),
            values_differ(4),
            "run refused: values given 4, wanted 3",
        ),
        (
            (0, 0),
            values_differ(0),
            "run refused: values given 0, wanted 3",
        ),
        (
            (3, 2),
            jobs_differ(2),
            "run refused: jobs given 2, wanted 3",
        ),
        (
            (3, 4),
            jobs_differ(4),
            "run refused: jobs given 4, wanted 3",
        ),
    ] {
        match ran_with(&rt, alloc, &plan, sizes) {
            Ok(_done) => panic!(rt; "it ran"),
            Err(fault) => hands_back(&rt, alloc, &fault, cause, text, sizes),
        }
    }
}
