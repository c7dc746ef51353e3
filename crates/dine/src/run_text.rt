//! The command `run`.
ghost use Rattle.std.specs.Prelude.{◌≡◌, ◌≢◌, ◌≤◌, IfErr, IfOk, Some, slice_get};
ghost use Rattle.dine_graph.specs.Plan.{IsPlan, job_count};
ghost use Rattle.dine.specs.PlanDiners.{IsDinerOf};
ghost use Rattle.dine.specs.Run.{HasDueRows, IsFaultOfRun, IsRunText, NamesSite, diners_of};

use crate::fault_lines::Fault;
use crate::plan_diner::PlanDiner;
use crate::tables::{write_edges, write_sites};
use dine_graph::Plan;
use dine_link::{ChannelLane, Lane, RingLane};
use dine_rules::laws;
use dine_threads::{Gathered, RunOptions, edge_table, run_with, site_table};
use dine_words::{Links, Table};
use std::alloc::{AllocError, Global};
use std::sync::Wait;
use std::thread::Threads;

/// The patience of the sites of a run. The table does not show how long a neighbour waits, so it is one of the fastest:
/// forks move seldom, and yet soon enough that all processors have a site to run.
pub const RUN_PATIENCE: u32 = 256;

/// Runs the plan, with a thread for each site and links of this kind, and returns the table of the run. It may wait.
///
/// # Errors
///
/// - `OutOfMemory` if an allocation failed.
/// - `RunFailed` if a thread could not be started, or a site ended with a fault. It names the lowest such site.
///
/// All threads that were started have ended then.
pub fn run_text<H: Threads + Wait + Copy + Send + 'static>(
    rt: &H,
    alloc: Global,
    plan: &Plan,
    table: Table,
    links: Links,
) -> Result<Vec<u8>, Fault>
    ensures text { IfOk result (λ text. IsRunText table plan.now text.items) }
    ensures fault { result ≢ Err Fault.OutOfMemory → IfErr result (NamesSite plan.now) }
    ensures cause { result ≢ Err Fault.OutOfMemory → IfErr result (IsFaultOfRun plan.now) }
{
    // The table and the fault do not depend on the lane, so no clause and no test distinguishes the two arms.
    match links {
        Links::Channel => run_over::<ChannelLane, H>(rt, alloc, plan, table),
        Links::Ring => run_over::<RingLane, H>(rt, alloc, plan, table),
    }
}

// Returns the table of a run over links of a lane.
fn run_over<L: Lane + 'static, H: Threads + Wait + Copy + Send + 'static>(
    rt: &H,
    alloc: Global,
    plan: &Plan,
    table: Table,
) -> Result<Vec<u8>, Fault>
where
    L::Tx: 'static,
    L::ClosedTx: 'static,
    L::Rx: 'static,
    ensures text { IfOk result (λ text. IsRunText table plan.now text.items) }
    ensures fault { result ≢ Err Fault.OutOfMemory → IfErr result (NamesSite plan.now) }
    ensures cause { result ≢ Err Fault.OutOfMemory → IfErr result (IsFaultOfRun plan.now) }
{
    laws::values_are_those_of_the_logs();
    let diners = open_diners(alloc, plan)?;
    let options = RunOptions::patience(RUN_PATIENCE);
    let gathered = run_with::<L, PlanDiner>(rt, alloc, plan, diners, options)?;
    Ok(table_text(alloc, plan, &gathered, table)?)
}

/// Returns a diner for each site of the plan, in order, with capacity for its jobs.
///
/// # Errors
///
/// `AllocError` if an allocation failed.
pub fn open_diners(alloc: Global, plan: &Plan) -> Result<Vec<PlanDiner>, AllocError>
    ensures plan { IsPlan plan.now }
    ensures diners { IfOk result (λ diners. diners.items ≡ diners_of plan.now) }
    ensures room { IfOk result (λ diners. (s : _) (diner : _)
        → slice_get diners.items s ≡ Some diner → job_count plan.now s ≤ diner.room) }
    ensures sites { IfOk result (λ diners. (s : _) (diner : _)
        → slice_get diners.items s ≡ Some diner → IsDinerOf diner plan.now s) }
{
    let mut diners = Vec::with_capacity(alloc, plan.sites() as usize)?;
    for site in 0..plan.sites() {
        diners.push_reserved(PlanDiner::open(alloc, plan, site)?);
    }
    Ok(diners)
}

// Returns the table of what a run gathered.
fn table_text(
    alloc: Global,
    plan: &Plan,
    gathered: &Gathered<PlanDiner>,
    table: Table,
) -> Result<Vec<u8>, AllocError>
    requires { HasDueRows plan.now gathered.now.forks.items gathered.now.sites.items }
    ensures { IfOk result (λ text. IsRunText table plan.now text.items) }
{
    match table {
        Table::Edges => {
            let rows = edge_table(alloc, plan, gathered)?;
            write_edges(alloc, plan, rows.as_slice())
        }
        Table::Sites => {
            let rows = site_table(alloc, plan, gathered)?;
            write_sites(alloc, plan, rows.as_slice())
        }
    }
}
