// The tables of a run, and the text of a world.
ghost use Rattle.std.specs.Prelude.{◌≡◌, IfOk};
ghost use Rattle.dine_graph.specs.Plan.{edge_count, site_count};
ghost use Rattle.dine_threads.specs.Tables.{IsGatheredOf};

use crate::calls::Outcome;
use crate::pair::pair;
use dine::{PlanDiner, world_text, write_edges, write_sites};
use dine_link::{Bell, EmptyChecks, ThreadLog};
use dine_plan::Plan;
use dine_threads::{EdgeRow, Gathered, SiteOut, SiteRow, edge_table, site_table};
use dine_token::Fork;
use dine_world::World;
use std::alloc::{AllocError, Global};

// Returns the outcome of a call that fails only if an allocation fails.
fn outcome_of<T: Drop>(ended: Result<T, AllocError>) -> Outcome {
    match ended {
        Ok(_) => Outcome::Whole,
        Err(_) => Outcome::Memory,
    }
}

// Returns the plan of the pair, and checks that it has two sites and an edge, which the contract then has.
fn plan_of_pair(alloc: Global) -> Result<Plan, AllocError>
    ensures sites { IfOk result (λ plan. site_count plan ≡ 2) }
    ensures edges { IfOk result (λ plan. edge_count plan ≡ 1) }
{
    let plan = pair(alloc)?;
    if plan.sites() != 2 || plan.edges() != 1 {
        return Err(AllocError);
    }
    Ok(plan)
}

// Returns the record of a bell that made no check.
fn no_checks(alloc: Global) -> Result<EmptyChecks, AllocError> {
    match Bell::open(alloc, 0) {
        Ok((_ringers, bell)) => Ok(bell.into_empty_checks()),
        Err(_) => Err(AllocError),
    }
}

// Returns what a site of the pair left that ate once, as far as the tables read it.
fn out_of(alloc: Global, plan: &Plan, site: u32) -> Result<SiteOut<PlanDiner>, AllocError>
    requires { site_count plan.now ≡ 2 }
    ensures { IfOk result (λ out. out.site ≡ site) }
{
    if site >= plan.sites() {
        return Err(AllocError);
    }
    Ok(SiteOut {
        site,
        ate: 1,
        failed: 0,
        diner: PlanDiner::open(alloc, plan, site)?,
        tokens: Vec::new(alloc),
        journal: Vec::new(alloc),
        checks: no_checks(alloc)?,
        log: ThreadLog::start(),
        stray: None,
        fault: None,
    })
}

// Returns what is gathered of the pair, as far as the tables read it.
fn gathered_of_pair(alloc: Global, plan: &Plan) -> Result<Gathered<PlanDiner>, AllocError>
    requires sites { site_count plan.now ≡ 2 }
    requires edges { edge_count plan.now ≡ 1 }
    ensures { IfOk result (λ gathered. IsGatheredOf plan.now gathered.forks.items gathered.sites.items) }
{
    let (lo, hi) = plan.ends(0);
    let mut forks = Vec::with_capacity(alloc, 1)?;
    forks.push_reserved(Fork::open(alloc, 0, lo, hi, plan.jobs(lo), plan.jobs(hi), 0)?);
    let mut sites = Vec::with_capacity(alloc, 2)?;
    sites.push_reserved(out_of(alloc, plan, 0)?);
    sites.push_reserved(out_of(alloc, plan, 1)?);
    Ok(Gathered {
        forks,
        sites,
        links: Vec::new(alloc),
    })
}

/// Makes the rows of the edges of a gathered pair.
pub fn edges(alloc: Global) -> Result<Outcome, AllocError> {
    let plan = plan_of_pair(alloc)?;
    let gathered = gathered_of_pair(alloc, &plan)?;
    Ok(outcome_of(edge_table(alloc, &plan, &gathered)))
}

/// Makes the rows of the sites of a gathered pair.
pub fn sites(alloc: Global) -> Result<Outcome, AllocError> {
    let plan = plan_of_pair(alloc)?;
    let gathered = gathered_of_pair(alloc, &plan)?;
    Ok(outcome_of(site_table(alloc, &plan, &gathered)))
}

/// Writes the table of the edges of the pair.
pub fn edges_text(alloc: Global) -> Result<Outcome, AllocError> {
    let plan = plan_of_pair(alloc)?;
    let rows = [EdgeRow {
        edge: 0,
        lo: 0,
        hi: 1,
        lo_meals: 1,
        hi_meals: 1,
        value: 0,
    }];
    Ok(outcome_of(write_edges(alloc, &plan, &rows)))
}

/// Writes the table of the sites of the pair.
pub fn sites_text(alloc: Global) -> Result<Outcome, AllocError> {
    let plan = plan_of_pair(alloc)?;
    let row = |site| SiteRow {
        site,
        meals: 1,
        failed: 0,
    };
    let rows = [row(0), row(1)];
    Ok(outcome_of(write_sites(alloc, &plan, &rows)))
}

/// Writes the world of the pair after its last event.
pub fn world(alloc: Global) -> Result<Outcome, AllocError> {
    let plan = pair(alloc)?;
    let mut world = World::open(alloc, &plan)?;
    let events = world.finish();
    let outcome = outcome_of(world_text(alloc, &plan, &world, events));
    world.into_forks();
    Ok(outcome)
}
