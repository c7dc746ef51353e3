// Runs of the pair, each site on a thread of its own.
use crate::calls::Outcome;
use crate::pair::pair;
use dine::{PlanDiner, open_diners};
use dine_jobs::{Job, JobsCause, Table, no_values, on_channels, on_rings};
use dine_link::Lane;
use dine_site_thread::JobFault;
use dine_threads::{Joined, RunCause, RunFault, run};
use std::alloc::{AllocError, Global};
use std::sync::Wait;
use std::thread::Threads;

/// Opens the diner of the lower site of the pair.
pub fn diner(alloc: Global) -> Result<Outcome, AllocError> {
    let plan = pair(alloc)?;
    if plan.sites() == 0 {
        return Ok(Outcome::Another);
    }
    match PlanDiner::open(alloc, &plan, 0) {
        Ok(_) => Ok(Outcome::Whole),
        Err(_) => Ok(Outcome::Memory),
    }
}

// Returns the outcome of a run in which this is the lowest site with a fault.
fn broken_at(site: u32, joined: &Joined<PlanDiner>) -> Outcome {
    match joined.sites.get(site as usize) {
        Some(out) => match out.fault {
            Some(fault) => Outcome::Broken(site, fault),
            None => Outcome::Another,
        },
        None => Outcome::Another,
    }
}

// Returns the outcome of a run that gathered nothing, or not all.
fn outcome_of(fault: &RunFault<PlanDiner>) -> Outcome {
    match fault {
        RunFault::Memory => Outcome::Memory,
        RunFault::Thread(site) => Outcome::Thread(*site),
        RunFault::Broken { site, joined } => broken_at(*site, joined),
        RunFault::DinersDiffer { .. } => Outcome::Another,
    }
}

/// Runs the pair over links of a lane. It may wait.
pub fn run_pair<L: Lane + 'static, R: Threads + Wait + Copy + Send + 'static>(
    rt: &R,
    alloc: Global,
) -> Result<Outcome, AllocError>
where
    L::Tx: 'static,
    L::ClosedTx: 'static,
    L::Rx: 'static,
{
    let plan = pair(alloc)?;
    let diners = open_diners(alloc, &plan)?;
    match run::<L, PlanDiner>(rt, alloc, &plan, diners) {
        Ok(_gathered) => Ok(Outcome::Whole),
        Err(fault) => Ok(outcome_of(&fault)),
    }
}

// A job that does nothing.
#[derive(Drop)]
struct Idle;

impl Job<()> for Idle {
    type Fault = JobFault;

    fn run(&mut self, _table: &Table<'_, ()>) -> Result<(), JobFault> {
        Ok(())
    }
}

/// Returns the outcome of a run of jobs that returned this cause.
pub fn outcome_of_jobs(cause: JobsCause) -> Outcome {
    match cause {
        JobsCause::Memory | JobsCause::Run(RunCause::Memory) => Outcome::Memory,
        JobsCause::Run(RunCause::Thread(site)) => Outcome::Thread(site),
        JobsCause::Run(RunCause::Broken(site, fault)) => Outcome::Broken(site, fault),
        _ => Outcome::Another,
    }
}

/// The kind of links of a run of jobs.
#[derive(Clone, Copy)]
pub enum Links {
    Rings,
    Channels,
}

/// Runs jobs that share nothing, over links of that kind. It may wait.
pub fn run_idle<R: Threads + Wait + Copy + Send + 'static>(
    rt: &R,
    alloc: Global,
    links: Links,
) -> Result<Outcome, AllocError> {
    let plan = pair(alloc)?;
    let values = no_values(alloc, &plan)?;
    let mut jobs = Vec::new(alloc);
    for _ in 0..plan.sites() {
        jobs.push(Idle)?;
    }
    let done = match links {
        Links::Rings => on_rings(rt, alloc, &plan, values, jobs),
        Links::Channels => on_channels(rt, alloc, &plan, values, jobs),
    };
    match done {
        Ok(_done) => Ok(Outcome::Whole),
        Err(fault) => Ok(outcome_of_jobs(fault.cause)),
    }
}
