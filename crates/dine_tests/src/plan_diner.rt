// The diner of a plan does its jobs.
use crate::asserts::same;
use dine::{PlanDiner, open_diners};
use dine_link::RingLane;
use dine_plan::read_plan;
use dine_site_thread::Call;
use dine_threads::{Gathered, SiteOut, run};
use std::alloc::Global;
use std::process::Abort;
use std::sync::Wait;
use std::thread::Threads;

// Two sites: of the three jobs of one the middle one fails, and the only job of the other takes many turns.
const JOBS: &str = "version = 1
[[site]]
name = \"a\"
jobs = [{ name = \"x\" }, { name = \"y\", fails = true }, { name = \"z\", turns = 1 }]
[[site]]
name = \"b\"
jobs = [{ name = \"x\", turns = 1000000 }]
";

// What the two sites leave after a run.
fn left<R: Threads + Wait + Copy + Send + Abort + 'static>(
    rt: &R,
    alloc: Global,
) -> Vec<SiteOut<PlanDiner>> {
    let plan = read_plan(alloc, JOBS).expect(rt, "a plan");
    let diners = open_diners(alloc, &plan).expect(rt, "memory");
    match run::<RingLane, PlanDiner>(rt, alloc, &plan, diners) {
        Ok(gathered) => {
            let Gathered { sites, .. } = gathered;
            sites
        }
        Err(_) => panic!(rt; "no run"),
    }
}

#[test]
fn a_diner_has_capacity_for_its_jobs(rt: HostRuntime) {
    let plan = read_plan(rt.alloc(), JOBS).expect(&rt, "a plan");
    assert!(&rt; 0 < plan.sites());
    let diner = PlanDiner::open(rt.alloc(), &plan, 0).expect(&rt, "memory");
    same(&rt, &diner.calls(), &[].as_slice());
    same(&rt, &diner.word(), &2463534242);
}

#[test]
fn middle_job_fails(rt: HostRuntime) {
    let sites = left(&rt, rt.alloc());
    let first = sites.first().expect(&rt, "a site");
    same(&rt, &first.failed, &1);
    let calls = [
        Call { k: 1, ok: true },
        Call { k: 2, ok: false },
        Call { k: 3, ok: true },
    ];
    same(&rt, &first.diner.calls(), &calls.as_slice());
}

// The words of xorshift, with the shifts and the first word of its author.
#[test]
fn each_turn_of_a_job_is_taken(rt: HostRuntime) {
    let sites = left(&rt, rt.alloc());
    let words = [723471715, 2318261108];
    same(&rt, &sites.len(), &words.len());
    for (site, word) in sites.iter().zip(words.iter()) {
        same(&rt, &site.diner.word(), word);
    }
}
