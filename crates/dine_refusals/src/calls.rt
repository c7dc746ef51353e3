// Calls that allocate, and report it if an allocation fails.
use crate::pair::pair;
use dine_link::{Bell, Lane};
use dine_order::{OrderFault, order};
use dine_plan::{PlanBuilder, PlanFault, read_plan};
use dine_site_thread::SiteFault;
use dine_test_diners::outcomes_of;
use dine_test_plans::{HIGHER_JOURNAL, LOWER_JOURNAL, PAIR};
use dine_token::Fork;
use dine_world::site::{fresh_forks, fresh_tokens};
use dine_world::{SiteCore, World};
use std::alloc::{AllocError, Global};

/// What a call returned.
#[derive(Clone, Copy, Debug, PartialEq, Eq)]
pub enum Outcome {
    /// What it returns if no allocation fails.
    Whole,
    /// That an allocation failed.
    Memory,
    /// That the thread of this site could not be started.
    Thread(u32),
    /// That this is the lowest site that ended with a fault, and its fault.
    Broken(u32, SiteFault),
    /// That a task was handed back since an allocation failed, and all others were done.
    HandedBack,
    /// Anything else.
    Another,
}

/// Reads the pair.
pub fn plan(alloc: Global) -> Outcome {
    match read_plan(alloc, PAIR) {
        Ok(_) => Outcome::Whole,
        Err(PlanFault::Memory) => Outcome::Memory,
        Err(_) => Outcome::Another,
    }
}

/// Builds a plan of one site with two jobs.
pub fn builder(alloc: Global) -> Outcome {
    let mut plan = PlanBuilder::open(alloc);
    if plan.site("a", 2).is_err() {
        return Outcome::Memory;
    }
    match plan.finish() {
        Ok(plan) if plan.sites() == 1 && plan.edges() == 0 => Outcome::Whole,
        Err(PlanFault::Memory) => Outcome::Memory,
        _ => Outcome::Another,
    }
}

/// Opens a fork with six meals due.
pub fn fork(alloc: Global) -> Outcome {
    match Fork::open(alloc, 0, 0, 1, 3, 3, 0) {
        Ok(_) => Outcome::Whole,
        Err(_) => Outcome::Memory,
    }
}

/// Opens the core of the lower site of the pair. If an allocation fails before that call, the result is an error.
pub fn core(alloc: Global) -> Result<Outcome, AllocError> {
    let plan = pair(alloc)?;
    if plan.sites() == 0 {
        return Ok(Outcome::Another);
    }
    let forks = fresh_forks(alloc, &plan, 0)?;
    let tokens = fresh_tokens(alloc, &plan, 0)?;
    match SiteCore::open(alloc, &plan, 0, forks, tokens) {
        Ok(core) => {
            core.into_parts();
            Ok(Outcome::Whole)
        }
        Err(_) => Ok(Outcome::Memory),
    }
}

/// Opens the world of the pair.
pub fn world(alloc: Global) -> Result<Outcome, AllocError> {
    let plan = pair(alloc)?;
    match World::open(alloc, &plan) {
        Ok(world) => {
            world.into_forks();
            Ok(Outcome::Whole)
        }
        Err(_) => Ok(Outcome::Memory),
    }
}

/// Opens the world of the pair, with given outcomes of its meals.
pub fn world_with(alloc: Global) -> Result<Outcome, AllocError> {
    let plan = pair(alloc)?;
    let fails = outcomes_of(alloc, &plan, 0)?;
    match World::open_with(alloc, &plan, fails.as_slice()) {
        Ok(world) => {
            world.into_forks();
            Ok(Outcome::Whole)
        }
        Err(_) => Ok(Outcome::Memory),
    }
}

/// Makes a link of a lane.
pub fn link<L: Lane>(alloc: Global) -> Outcome {
    match L::pair(alloc, 0, 0) {
        Ok(_) => Outcome::Whole,
        Err(_) => Outcome::Memory,
    }
}

/// Opens a bell with three ringers.
pub fn bell(alloc: Global) -> Outcome {
    match Bell::open(alloc, 3) {
        Ok(_) => Outcome::Whole,
        Err(_) => Outcome::Memory,
    }
}

/// Returns an order of the journals of the pair.
pub fn one_order(alloc: Global) -> Result<Outcome, AllocError> {
    let plan = pair(alloc)?;
    let mut journals = Vec::new(alloc);
    for journal in [LOWER_JOURNAL.as_slice(), HIGHER_JOURNAL.as_slice()] {
        journals.push(journal.to_vec(alloc)?)?;
    }
    match order(alloc, &plan, journals.as_slice()) {
        Ok(_) => Ok(Outcome::Whole),
        Err(OrderFault::Memory) => Ok(Outcome::Memory),
        Err(_) => Ok(Outcome::Another),
    }
}
