// What the state has of the sites.
ghost use Rattle.std.specs.Prelude.{◌<◌};
ghost use Rattle.dine_graph.specs.Plan.{site_count};

use crate::events::ate;
use crate::readers::has_quit;
use crate::schedule::Past;
use crate::waits::waits_of;
use crate::why::name_of_why_not;
use dine_graph::Plan;
use dine_world::{EventKind, Phase, World};
use serde::Serialize;
use std::alloc::{AllocError, Global};

/// A site: how many meals it began, how many jobs it has in all, and how many it has still to begin.
#[derive(Drop, Serialize)]
pub(super) struct SiteState<'s> {
    name: &'s str,
    phase: &'static str,
    eaten: u32,
    jobs: u32,
    left: u32,
    failed: Vec<u32>,
    resigns: bool,
    quit: bool,
    waits: Vec<WaitState>,
    why_not: SiteReasons,
}

// An edge that keeps a hungry site from eating, the neighbour there, and why.
#[derive(Drop, Serialize)]
struct WaitState {
    edge: u32,
    from: u32,
    why: &'static str,
}

// For each event of a site without a place why it is not enabled, or `None`.
#[derive(Drop, Serialize)]
struct SiteReasons {
    end: Option<&'static str>,
    begin: Option<&'static str>,
    quit: Option<&'static str>,
    hungry: Option<&'static str>,
}

/// Returns the sites of the plan.
pub(super) fn sites_of<'s>(
    alloc: Global,
    plan: &'s Plan,
    world: &World,
    past: &Past,
) -> Result<Vec<SiteState<'s>>, AllocError> {
    let mut sites = Vec::new(alloc);
    for site in 0..plan.sites() {
        sites.push(site_of(alloc, plan, world, past, site)?)?;
    }
    Ok(sites)
}

// The site.
fn site_of<'s>(
    alloc: Global,
    plan: &'s Plan,
    world: &World,
    past: &Past,
    site: u32,
) -> Result<SiteState<'s>, AllocError>
    requires { site < site_count plan.now }
{
    let quit = has_quit(plan, world, site);
    let eaten = ate(world, site);
    let jobs = plan.jobs(site);
    Ok(SiteState {
        name: plan.name(site),
        phase: name_of_phase(world.phase(site)),
        eaten,
        jobs,
        left: if quit { 0 } else { jobs.saturating_sub(eaten) },
        failed: failed_of(alloc, past, site)?,
        resigns: plan.resigns(site),
        quit,
        waits: wait_states(alloc, plan, world, site)?,
        why_not: SiteReasons {
            end: name_of_why_not(plan, world, site, EventKind::End),
            begin: name_of_why_not(plan, world, site, EventKind::Begin),
            quit: name_of_why_not(plan, world, site, EventKind::Quit),
            hungry: name_of_why_not(plan, world, site, EventKind::Hungry),
        },
    })
}

// Those of the meals of the site that have ended and failed.
fn failed_of(alloc: Global, past: &Past, site: u32) -> Result<Vec<u32>, AllocError> {
    let mut failed = Vec::new(alloc);
    if let Some(meals) = past.failed.get(site as usize) {
        for meal in meals {
            failed.push(*meal)?;
        }
    }
    Ok(failed)
}

// What the site waits for, if it is hungry.
fn wait_states(
    alloc: Global,
    plan: &Plan,
    world: &World,
    site: u32,
) -> Result<Vec<WaitState>, AllocError>
    requires { site < site_count plan.now }
{
    let mut states = Vec::new(alloc);
    for wait in &waits_of(alloc, plan, world, site)? {
        states.push(WaitState {
            edge: wait.edge,
            from: wait.from,
            why: wait.why.name(),
        })?;
    }
    Ok(states)
}

// The name of what a site does. Each site of the plan does something.
fn name_of_phase(phase: Option<Phase>) -> &'static str {
    match phase {
        Some(Phase::Thinking) | None => "thinking",
        Some(Phase::Hungry) => "hungry",
        Some(Phase::Eating) => "eating",
    }
}
