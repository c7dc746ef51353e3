//! The program `dine`: the dining philosophers on a plan of sites and edges.
#![tactic(auto)]

use dine::{arguments_of, exit_of, run_cmd};
use std::env;
use std::process::ExitCode;

fn main(rt: HostRuntime) -> ExitCode {
    let mut input = rt.stdin();
    let mut output = rt.stdout();
    let mut faults = rt.stderr();
    let status = match arguments_of(rt.alloc(), env::args(&rt)) {
        Ok(arguments) => run_cmd(
            &rt,
            rt.alloc(),
            arguments.as_slice(),
            &mut input,
            &mut output,
            &mut faults,
        ),
        Err(fault) => fault.end(&mut faults),
    };
    exit_of(status)
}
