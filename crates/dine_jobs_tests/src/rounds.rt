// Runs one after the other, and what is left of one by site and by edge.
use crate::asserts::{holds, same};
use crate::plans::band_of;
use crate::runs::ran_jobs;
use dine_run::{
    EdgeId, EdgeValue, Job, JobFault, JobsCause, JobsDone, Place, Plan, SiteDone, SiteId, Table,
    run_rounds,
};
use std::alloc::Global;
use std::process::Abort;
use std::sync::Wait;
use std::thread::Threads;

const SITES: u32 = 4;

const JOBS: u32 = 2;

// Adds one to each of its values, and counts its jobs. It writes a value by `replace`.
#[derive(Drop)]
struct Counter {
    jobs: u64,
}

impl Job<u64> for Counter {
    type Fault = JobFault;

    fn run(&mut self, table: &Table<'_, u64>) -> Result<(), JobFault> {
        for place in 0..table.places() {
            let mut value = table.open(Place(place))?;
            let was = value.replace(0);
            if *value != 0 {
                return Err(JobFault);
            }
            *value = was.wrapping_add(1);
        }
        self.jobs = self.jobs.wrapping_add(1);
        Ok(())
    }
}

// A value of 0 for each edge, and a counter for each site.
fn fresh(rt: &impl Abort, alloc: Global, plan: &Plan) -> (Vec<u64>, Vec<Counter>) {
    let mut values = Vec::new(alloc);
    for _ in 0..plan.edges() {
        values.push(0u64).expect(rt, "memory");
    }
    let mut jobs = Vec::new(alloc);
    for _ in 0..plan.sites() {
        jobs.push(Counter { jobs: 0 }).expect(rt, "memory");
    }
    (values, jobs)
}

// Adds 100 times the number of the round to each value, and 1,000 to each count.
fn step(round: u32, values: &mut [u64], jobs: &mut [Counter]) {
    for value in values.iter_mut() {
        *value = value.wrapping_add(100 * u64::from(round));
    }
    for job in jobs.iter_mut() {
        job.jobs = job.jobs.wrapping_add(1_000);
    }
}

// What this number of rounds leaves.
fn after_rounds<R: Threads + Wait + Abort + Copy + Send + 'static>(
    rt: &R,
    alloc: Global,
    plan: &Plan,
    rounds: u32,
) -> JobsDone<u64, Counter> {
    let (values, jobs) = fresh(rt, alloc, plan);
    let done = run_rounds(
        rt,
        alloc,
        plan,
        values,
        jobs,
        rounds,
        |round, values, jobs| {
            step(round, values, jobs);
        },
    );
    done.expect(rt, "a run")
}

fn have_values(rt: &impl Abort, values: &[EdgeValue<u64>], value: u64) {
    same(rt, &values.len(), &5);
    for it in values {
        same(rt, &it.value, &value);
    }
}

fn have_counts(rt: &impl Abort, sites: &[SiteDone<Counter, JobFault>], count: u64) {
    same(rt, &sites.len(), &4);
    for site in sites {
        let found = (site.job.jobs, site.calls().len());
        same(rt, &found, &(count, JOBS as usize));
    }
}

#[test]
fn rounds_carry_values_and_jobs_on(rt: HostRuntime) {
    let plan = band_of(&rt, rt.alloc(), SITES, JOBS);
    // After the rounds: what all jobs of both ends added in each, and 100 for the first step and 200 for the second.
    for (rounds, value, count) in [(0, 4, 2), (1, 4, 2), (3, 312, 2_006)] {
        let done = after_rounds(&rt, rt.alloc(), &plan, rounds);
        have_values(&rt, done.values.as_slice(), value);
        have_counts(&rt, done.sites.as_slice(), count);
    }
}

#[test]
fn rounds_with_too_few_values_are_refused(rt: HostRuntime) {
    let alloc = rt.alloc();
    let plan = band_of(&rt, alloc, SITES, JOBS);
    let (_, jobs) = fresh(&rt, alloc, &plan);
    let none = Vec::new(alloc);
    match run_rounds(&rt, alloc, &plan, none, jobs, 2, |_, _, _| ()) {
        Ok(_done) => panic!(rt; "it ran"),
        Err(fault) => {
            let cause = JobsCause::ValuesDiffer { given: 0, edges: 5 };
            same(&rt, &(fault.cause, fault.jobs.len()), &(cause, 4));
        }
    }
}

// The value of the edge, and how many jobs its site counted, with the number of the site.
fn has(rt: &impl Abort, done: &JobsDone<u64, Counter>, edge: (u32, u64), site: (u32, u64)) {
    let value = done.value(EdgeId(edge.0)).expect(rt, "an edge");
    same(rt, value, &edge.1);
    let left = done.site(SiteId(site.0)).expect(rt, "a site");
    same(rt, &(left.site, left.job.jobs), &(SiteId(site.0), site.1));
}

#[test]
fn what_is_left_goes_by_site_and_edge_and_into_another_run(rt: HostRuntime) {
    let alloc = rt.alloc();
    let plan = band_of(&rt, alloc, SITES, JOBS);
    let (values, jobs) = fresh(&rt, alloc, &plan);
    let done = ran_jobs(&rt, alloc, &plan, values, jobs);
    let last = plan.site_named("s3").expect(&rt, "a site");
    same(&rt, &last, &SiteId(3));
    has(&rt, &done, (4, 4), (3, 2));
    holds(&rt, done.site(SiteId(4)).is_none());
    holds(&rt, done.value(EdgeId(5)).is_none());
    let (values, jobs) = done.into_parts(alloc).expect(&rt, "memory");
    let done = ran_jobs(&rt, alloc, &plan, values, jobs);
    has(&rt, &done, (0, 8), (0, 4));
}
