// Each job is done once, with its own number, and its result is kept unchanged.
use crate::asserts::same;
use crate::plans::{band_of, resigning};
use crate::runs::{BOTH, nothing, ran};
use dine_run::{
    Call, Event, EventKind, Failure, Job, JobsDone, Plan, SiteDone, SiteId, Table, order,
};
use std::alloc::Global;
use std::process::Abort;
use std::sync::Wait;
use std::thread::Threads;

const SITES: u32 = 5;

const JOBS: u32 = 7;

// Notes the site and the number of each call, and fails at each third job.
#[derive(Drop)]
struct Witness {
    seen: Vec<(SiteId, u32)>,
}

// Why a job failed: its number, squared.
#[derive(Clone, Copy, Debug, PartialEq, Eq)]
struct Third(u32);

impl Job<()> for Witness {
    type Fault = Third;

    fn run(&mut self, table: &Table<'_, ()>) -> Result<(), Third> {
        let k = table.k();
        if self.seen.push((table.site(), k)).is_err() {
            return Err(Third(0));
        }
        if k % 3 == 0 {
            Err(Third(k.wrapping_mul(k)))
        } else {
            Ok(())
        }
    }
}

fn witnesses(rt: &impl Abort, alloc: Global, plan: &Plan) -> Vec<Witness> {
    let mut jobs = Vec::new(alloc);
    for _ in 0..plan.sites() {
        let seen = Vec::new(alloc);
        jobs.push(Witness { seen }).expect(rt, "memory");
    }
    jobs
}

// The job saw the meals 1 to `meals` of its site, once each and in this order.
fn has_seen(rt: &impl Abort, seen: &[(SiteId, u32)], n: u32, meals: u32) {
    same(rt, &seen.len(), &(meals as usize));
    let mut k = 1u32;
    for it in seen {
        same(rt, it, &(SiteId(n), k));
        k = k.saturating_add(1);
    }
}

// So did its site, and each third one failed.
fn has_calls(rt: &impl Abort, calls: &[Call], meals: u32) {
    same(rt, &calls.len(), &(meals as usize));
    let mut k = 1u32;
    for call in calls {
        same(rt, &(call.k, call.ok), &(k, k % 3 != 0));
        k = k.saturating_add(1);
    }
}

// Each third one failed, for its own reason, and no other.
fn has_failed(rt: &impl Abort, failures: &[Failure<Third>], meals: u32) {
    same(rt, &failures.len(), &((meals / 3) as usize));
    let mut k = 3u32;
    for failure in failures {
        let want = (k, Third(k.wrapping_mul(k)));
        same(rt, &(failure.k, failure.fault), &want);
        k = k.saturating_add(3);
    }
}

fn is_right(rt: &impl Abort, n: u32, site: &SiteDone<Witness, Third>, meals: u32) {
    same(rt, &site.site, &SiteId(n));
    has_seen(rt, site.job.seen.as_slice(), n, meals);
    has_calls(rt, site.calls(), meals);
    has_failed(rt, site.failures.as_slice(), meals);
}

// All sites did all their jobs, except site 0, which did a given number.
fn all_are_right(rt: &impl Abort, sites: &[SiteDone<Witness, Third>], first: u32) {
    let mut n = 0u32;
    for site in sites {
        is_right(rt, n, site, if n == 0 { first } else { JOBS });
        n = n.saturating_add(1);
    }
}

// How many meals begin in the events.
fn meals_in(events: &[Event]) -> u32 {
    let mut meals = 0u32;
    for event in events {
        if event.kind == EventKind::Begin {
            meals = meals.saturating_add(1);
        }
    }
    meals
}

// Checks what all sites did, and that an order has each meal.
fn are_right(
    rt: &impl Abort,
    alloc: Global,
    plan: &Plan,
    done: &JobsDone<(), Witness>,
    first: u32,
) {
    same(
        rt,
        &(done.sites.len(), done.values.len()),
        &(plan.sites() as usize, plan.edges() as usize),
    );
    same(
        rt,
        &(done.forks.len(), done.found_open),
        &(plan.edges() as usize, 0),
    );
    all_are_right(rt, done.sites.as_slice(), first);
    let events = order(alloc, plan, done.sites.as_slice()).expect(rt, "an order");
    let meals = meals_in(events.as_slice());
    same(rt, &meals, &first.wrapping_add((SITES - 1) * JOBS));
}

// A run over each kind of links.
fn both<R: Threads + Wait + Abort + Copy + Send + 'static>(
    rt: &R,
    alloc: Global,
    plan: &Plan,
    first: u32,
) {
    for links in BOTH {
        let values = nothing(rt, alloc, plan);
        let jobs = witnesses(rt, alloc, plan);
        let done = ran(rt, alloc, plan, links, values, jobs);
        are_right(rt, alloc, plan, &done, first);
    }
}

#[test]
fn each_job_is_done_once_with_its_number_and_its_result(rt: HostRuntime) {
    let plan = band_of(&rt, rt.alloc(), SITES, JOBS);
    both(&rt, rt.alloc(), &plan, JOBS);
}

#[test]
fn a_site_that_resigns_does_no_job_behind_one_that_failed(rt: HostRuntime) {
    let plan = resigning(&rt, rt.alloc(), SITES, JOBS);
    both(&rt, rt.alloc(), &plan, 3);
}
