//! Worlds that are opened with outcomes of their own.
ghost use Rattle.std.specs.Prelude.{◌≡◌, true};
ghost use Rattle.dine_world.specs.Worlds.{AreOutcomesFor, lists_of};

use super::graph::Graph;
use super::{RESIGNING, entry_at, opened, plan_by, spend};
use crate::asserts::{holds, same};
use crate::plans::read;
use dine_plan::Plan;
use dine_test_plans::RESIGNING_PAIR;
use dine_token::Entry;
use dine_world::World;
use std::alloc::Global;
use std::process::Abort;

// Whether there is a list for each site, with a value for each of its jobs.
fn fits_the_jobs(plan: &Plan, fails: &[Vec<bool>]) -> bool
    ensures { result ≡ true → AreOutcomesFor plan.now (lists_of fails.now) }
{
    if fails.len() != plan.sites() as usize {
        return false;
    }
    for site in 0..plan.sites() {
        if fails[site as usize].len() != plan.jobs(site) as usize {
            return false;
        }
    }
    true
}

// The outcomes of all meals of the graph.
fn outcomes_of(rt: &impl Abort, alloc: Global, graph: Graph) -> Vec<Vec<bool>> {
    let mut fails = Vec::new(alloc);
    for site in 0..graph.sites() {
        let mut own = Vec::new(alloc);
        for job in 0..graph.due_of(site) {
            let failed = graph.fails(site, job.saturating_add(1));
            own.push(failed).expect(rt, "memory");
        }
        fails.push(own).expect(rt, "memory");
    }
    fails
}

/// The plan's world, with the outcomes of the graph, which has to have as many sites and jobs.
pub(super) fn opened_with(rt: &impl Abort, alloc: Global, plan: &Plan, graph: Graph) -> World {
    let fails = outcomes_of(rt, alloc, graph);
    let fails = fails.as_slice();
    holds(rt, fits_the_jobs(plan, fails));
    World::open_with(alloc, plan, fails).expect(rt, "memory")
}

#[test]
fn outcomes_are_given_in_place_of_the_plans(rt: HostRuntime) {
    let plan = read(&rt, rt.alloc(), RESIGNING_PAIR);
    let none = Graph {
        failing: &[0, 0],
        ..RESIGNING
    };
    let mut world = opened_with(&rt, rt.alloc(), &plan, none);
    same(&rt, &world.finish(), &24);
    same(&rt, &(world.ate(0), world.ate(1)), &(Some(3), Some(1)));
    let _forks = spend(&rt, &plan, world);
    let first = Graph {
        failing: &[1, 0],
        ..RESIGNING
    };
    let mut world = opened_with(&rt, rt.alloc(), &plan, first);
    let _events = world.finish();
    same(&rt, &(world.ate(0), world.ate(1)), &(Some(1), Some(1)));
    let _forks = spend(&rt, &plan, world);
}

// If these are the outcomes of the plan, the run is the same as without them.
#[test]
fn outcomes_of_the_plan_may_be_given(rt: HostRuntime) {
    let plan = plan_by(&rt, rt.alloc(), RESIGNING);
    let mut own = opened(&rt, rt.alloc(), &plan);
    let mut given = opened_with(&rt, rt.alloc(), &plan, RESIGNING);
    same(&rt, &(own.finish(), given.finish()), &(22, 22));
    let _forks = spend(&rt, &plan, own);
    let forks = spend(&rt, &plan, given);
    let fork = forks.get(0).expect(&rt, "a fork");
    same(&rt, &fork.len(), &4);
    same(&rt, &entry_at(&rt, fork, 3), &Entry::Meal { site: 1, k: 1 });
}
