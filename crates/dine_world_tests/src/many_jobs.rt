//! Plans whose sites have more jobs than one of a text may have.
use crate::asserts::{holds, same};
use dine_plan::{Plan, PlanBuilder, PlanFault, SiteId, plan_text, read_plan};
use dine_token::{Act, MAX_JOBS};
use dine_world::World;
use std::alloc::Global;
use std::process::Abort;

const MANY: u32 = 2_000_000;

// Returns the builder of two neighbours with these numbers of jobs.
fn two_sites(rt: &impl Abort, alloc: Global, jobs: (u32, u32)) -> PlanBuilder {
    let mut plan = PlanBuilder::open(alloc);
    let a = plan.site("a", jobs.0).expect(rt, "memory");
    let b = plan.site("b", jobs.1).expect(rt, "memory");
    let _edge = plan.edge(a, b).expect(rt, "memory");
    plan
}

// Returns the name, the turns and the act of job `k` of the first site.
fn job_in_short(rt: &impl Abort, alloc: Global, plan: &Plan, k: u32) -> String {
    holds(rt, plan.sites() > 0);
    holds(rt, 1 <= k);
    holds(rt, k <= plan.jobs(0));
    let job = plan.job(0, k);
    format!(in alloc; "{} {} {:?}", job.name, job.turns, job.act).expect(rt, "memory")
}

// The jobs that are only counted come behind those that are stored, and of these one is changed.
#[test]
fn jobs_that_are_counted_are_plain(rt: HostRuntime) {
    let mut plan = two_sites(&rt, rt.alloc(), (MANY, 1));
    let a = SiteId(0);
    same(&rt, &plan.turns(a, 1_001, 7).is_ok(), &true);
    same(&rt, &plan.turns(a, 1_002, 7).is_ok(), &false);
    same(&rt, &plan.act(a, 1, Act::Set(3)).is_ok(), &true);
    let plan = plan.finish().expect(&rt, "a plan");
    holds(&rt, plan.sites() == 2);
    same(&rt, &plan.jobs(0), &MANY);
    for (k, want) in [
        (1, "1 0 Set(3)"),
        (2, "2 0 Add(0)"),
        (1_001, "1001 7 Add(0)"),
        (1_002, "1002 0 Add(0)"),
        (MANY, "2000000 0 Add(0)"),
    ] {
        let job = job_in_short(&rt, rt.alloc(), &plan, k);
        same(&rt, &job.as_str(), &want);
    }
}

// A world of so many jobs is opened, and goes on for a while. `rt try`, which is slow, would not see its end.
#[test]
fn two_million_jobs_have_a_world(rt: HostRuntime) {
    let plan = two_sites(&rt, rt.alloc(), (MANY, 1));
    let plan = plan.finish().expect(&rt, "a plan");
    let mut world = World::open(rt.alloc(), &plan).expect(&rt, "memory");
    same(&rt, &world.bound(), &(3 * 2_000_001 + 4 * 2_000_001 + 8));
    same(&rt, &world.replay(&[0; 1_000]), &1_000);
    let ate = world.ate(0).unwrap_or(0);
    holds(&rt, 300 < ate);
    holds(&rt, ate < MANY);
    let forks = world.into_forks();
    let fork = forks.get(0).expect(&rt, "a fork");
    holds(&rt, fork.ends().0 == 0);
    same(&rt, &fork.meals_of(0), &ate);
}

// A site of a text has at most 1,000 jobs, and one of a builder as many as a `u32` counts.
#[test]
fn texts_have_fewer_jobs(rt: HostRuntime) {
    for (jobs, read) in [
        (1_000, None),
        (1_001, Some(PlanFault::TooManyJobs(0))),
        (MAX_JOBS, Some(PlanFault::TooManyJobs(0))),
    ] {
        let plan = two_sites(&rt, rt.alloc(), (jobs, 1));
        let text = plan_text(rt.alloc(), &plan).expect(&rt, "memory");
        same(&rt, &read_plan(rt.alloc(), text.as_str()).err(), &read);
        same(&rt, &plan.finish().err(), &None);
    }
}

#[test]
fn the_last_of_all_jobs_is_plain(rt: HostRuntime) {
    let plan = two_sites(&rt, rt.alloc(), (u32::MAX, 1));
    let plan = plan.finish().expect(&rt, "a plan");
    holds(&rt, plan.sites() == 2);
    same(&rt, &plan.jobs(0), &4_294_967_295);
    let job = job_in_short(&rt, rt.alloc(), &plan, u32::MAX);
    same(&rt, &job.as_str(), &"4294967295 0 Add(0)");
}

// No call of a builder adds more jobs, but a draft may say so: the jobs of its list and those after them are then more
// than a `u32` counts.
#[test]
fn more_jobs_are_refused(rt: HostRuntime) {
    let plan = two_sites(&rt, rt.alloc(), (MAX_JOBS, 1));
    for (plain, fault) in [
        (4_294_966_294, None),
        (4_294_966_295, Some(PlanFault::TooManyJobs(0))),
        (u32::MAX, Some(PlanFault::TooManyJobs(0))),
    ] {
        let mut draft = plan.draft().expect(&rt, "memory");
        holds(&rt, draft.version == 2);
        holds(&rt, draft.most_jobs == MAX_JOBS);
        holds(&rt, draft.sites.len() == 2);
        draft.sites[0].plain = plain;
        same(&rt, &draft.finish(rt.alloc()).err(), &fault);
    }
}
