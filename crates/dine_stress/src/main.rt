//! Runs that are tried in large numbers. What each prints depends on its input alone, and not on the order in which its
//! threads go on.
//!
//! With the word `open-runs` each line of the input is an open run, for tests/test_open_runs.py. Without a word the
//! input is one run, for tools/schedules. The heads of the two modules have the form of the input.
#![tactic(auto)]

mod open_runs;
mod schedules;

use anyhow::Result;
use open_runs::run_lines;
use schedules::run_plan;
use std::env;
use std::io::Read;

fn main(rt: HostRuntime) -> Result<()> {
    let alloc = rt.alloc();
    let mut arguments = env::args(&rt)?;
    let _program = arguments.next();
    let mut text = String::new(alloc);
    rt.stdin().read_to_string(&mut text)?;
    match arguments.next() {
        Some(_) => run_lines(&rt, alloc, text.as_str()),
        None => run_plan(rt, alloc, text.as_str()),
    }
}
