//! Makes one call, so that `tests/test_refused_memory.py` can let each allocation of it fail in turn. It prints one
//! line: what the call returned. The status is 5 if an allocation failed before the call was made, and 2 if no call has
//! the name.
//!
//! usage: dine_refusals CALL
//!
//! CALL is one of these:
//!
//! - `plan`, `builder`, `fork`, `core`, `world`, `world_with`, `channel`, `ring`, `bell`, `order`, `diner`,
//!   `edge_table`, `site_table`, `write_edges`, `write_sites` or `world_text`: a call that does not wait.
//! - `run_channels` or `run_rings`: a run of the pair over links of that kind.
//! - `run_jobs` or `run_jobs_channels`: a run of jobs of the pair, over rings or over channels.
//! - `run_open`: an open run of a pair, whose tasks are submitted before it begins.
//! - `site`: the lower site of the pair, over rings that are filled before it starts.
#![tactic(auto)]

mod calls;
mod open_runs;
mod pair;
mod runs;
mod site;
mod tables;

use calls::Outcome;
use dine_link::{ChannelLane, RingLane};
use std::alloc::{AllocError, Global};
use std::process::ExitCode;
use std::sync::Wait;
use std::thread::Threads;
use std::{env, io};

// Makes the call of this name, and returns its outcome. None if there is no such call.
fn outcome<R: Threads + Wait + Copy + Drop + Send + 'static>(
    rt: &R,
    alloc: Global,
    name: &str,
) -> Result<Option<Outcome>, AllocError> {
    let outcome = match name {
        "run_channels" => runs::run_pair::<ChannelLane, R>(rt, alloc)?,
        "run_rings" => runs::run_pair::<RingLane, R>(rt, alloc)?,
        "run_jobs" => runs::run_idle(rt, alloc, runs::Links::Rings)?,
        "run_jobs_channels" => runs::run_idle(rt, alloc, runs::Links::Channels)?,
        "run_open" => open_runs::run_open_pair(rt, alloc)?,
        _ => return outcome_at_once(alloc, name),
    };
    Ok(Some(outcome))
}

// The same for the calls without threads.
fn outcome_at_once(alloc: Global, name: &str) -> Result<Option<Outcome>, AllocError> {
    let outcome = match name {
        "plan" => calls::plan(alloc),
        "builder" => calls::builder(alloc),
        "fork" => calls::fork(alloc),
        "core" => calls::core(alloc)?,
        "world" => calls::world(alloc)?,
        "world_with" => calls::world_with(alloc)?,
        "channel" => calls::link::<ChannelLane>(alloc),
        "ring" => calls::link::<RingLane>(alloc),
        "bell" => calls::bell(alloc),
        "order" => calls::one_order(alloc)?,
        "diner" => runs::diner(alloc)?,
        _ => return outcome_of_tables(alloc, name),
    };
    Ok(Some(outcome))
}

// The same for the calls that make tables or texts.
fn outcome_of_tables(alloc: Global, name: &str) -> Result<Option<Outcome>, AllocError> {
    let outcome = match name {
        "edge_table" => tables::edges(alloc)?,
        "site_table" => tables::sites(alloc)?,
        "write_edges" => tables::edges_text(alloc)?,
        "write_sites" => tables::sites_text(alloc)?,
        "world_text" => tables::world(alloc)?,
        _ => return Ok(None),
    };
    Ok(Some(outcome))
}

// Makes the call and prints its outcome. Returns false if there is no such call.
fn print_outcome<R: Threads + Wait + Print + Copy + Drop + Send + 'static>(
    rt: &R,
    alloc: Global,
    name: &str,
) -> io::Result<bool> {
    let Some(outcome) = outcome(rt, alloc, name)? else {
        return Ok(false);
    };
    println!(rt; "{outcome:?}")?;
    Ok(true)
}

fn main(rt: HostRuntime) -> ExitCode {
    let mut arguments = match env::args(&rt) {
        Ok(arguments) => arguments,
        Err(_) => return ExitCode::from(5),
    };
    let _program = arguments.next();
    let done = match arguments.next() {
        Some(name) if name.as_str() == "site" => {
            site::print_left::<RingLane, HostRuntime>(&rt, rt.alloc()).map(|()| true)
        }
        Some(name) => print_outcome(&rt, rt.alloc(), name.as_str()),
        None => Ok(false),
    };
    match done {
        Ok(true) => ExitCode::SUCCESS,
        Ok(false) => ExitCode::from(2),
        Err(_) => ExitCode::from(5),
    }
}
