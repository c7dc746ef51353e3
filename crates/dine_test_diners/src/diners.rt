//! The diner, one for each site of a plan, and the outcomes of its jobs.
ghost use Rattle.std.specs.Prelude.{◌≡◌, ◌≤◌, ◌∷◌, [], Some, true, length, slice_get, IfOk};
ghost use Rattle.dine_graph.specs.Plan.{job_count};
ghost use Rattle.dine_world.specs.Worlds.{AreOutcomesFor, lists_of};

use dine_plan::Plan;
use dine_site_thread::{CallLog, Diner, JobFault};
use dine_token::Meal;
use std::alloc::{AllocError, Global};

/// A diner that keeps its calls. The jobs fail of those meals whose number is a multiple of `fails_each`, or none if
/// that is 0. No contract says so.
#[derive(Drop)]
pub struct Taster {
    /// Its calls so far.
    pub log: CallLog,
    /// The number of meals from one job that fails to the next.
    pub fails_each: u32,
}

impl Taster {
    /// Returns a diner with no call yet, and capacity for this number of calls.
    ///
    /// # Errors
    ///
    /// `AllocError` if there is no memory for the calls.
    pub fn open(alloc: Global, calls: u32, fails_each: u32) -> Result<Taster, AllocError>
        ensures { IfOk result (λ diner. diner.log.room ≡ calls) }
    {
        let log = CallLog::open(alloc, calls)?;
        Ok(Taster { log, fails_each })
    }
}

impl Diner for Taster {
    ghost calls = { λ diner. diner.log.calls };

    ghost marks = { λ diner. [] };

    ghost fits = { λ marks k ok. true };

    ghost room_left = { λ diner. diner.log.room };

    fn room(&self) -> u32 {
        self.log.room()
    }

    fn eat(&mut self, k: u32, _meal: &Meal) -> Result<(), JobFault> {
        let fails = fails_at(k, self.fails_each);
        self.log.note(k, !fails);
        if fails { Err(JobFault) } else { Ok(()) }
    }
}

// Returns whether the job of meal `k` fails.
fn fails_at(k: u32, fails_each: u32) -> bool {
    fails_each > 0 && k % fails_each == 0
}

/// Returns a diner for each site of the plan, in order, with capacity for its jobs.
///
/// # Errors
///
/// `AllocError` if an allocation failed.
pub fn tasters(alloc: Global, plan: &Plan, fails_each: u32) -> Result<Vec<Taster>, AllocError>
    ensures { IfOk result (λ diners. (s : _) (diner : _)
        → slice_get diners.items s ≡ Some diner → job_count plan.now s ≤ diner.log.room) }
{
    let mut diners = Vec::new(alloc);
    for site in 0..plan.sites() {
        diners.push(Taster::open(alloc, plan.jobs(site), fails_each)?)?;
    }
    Ok(diners)
}

/// Returns for each site of the plan, in order, whether each of its jobs fails with such a diner.
///
/// # Errors
///
/// `AllocError` if an allocation failed.
pub fn outcomes_of(
    alloc: Global,
    plan: &Plan,
    fails_each: u32,
) -> Result<Vec<Vec<bool>>, AllocError>
    ensures { IfOk result (λ fails. AreOutcomesFor plan.now (lists_of fails.items)) }
{
    let mut fails = Vec::new(alloc);
    for site in 0..plan.sites() {
        fails.push(outcomes_at(alloc, plan.jobs(site), fails_each)?)?;
    }
    Ok(fails)
}

// Returns whether each of this number of jobs fails, in order.
fn outcomes_at(alloc: Global, jobs: u32, fails_each: u32) -> Result<Vec<bool>, AllocError>
    ensures { IfOk result (λ own. length own.items ≡ jobs) }
{
    let mut own = Vec::new(alloc);
    for job in 0..jobs {
        own.push(fails_at(job + 1, fails_each))?;
    }
    Ok(own)
}
