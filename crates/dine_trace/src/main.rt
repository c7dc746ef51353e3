//! Prints a schedule of a plan. The plan is the standard input, and LIST has the numbers of the events to do, in turn,
//! as for `dine replay --choices`.
//!
//! Step by step: before each step the enabled events with their numbers, which one was chosen, and after it what each
//! end of each edge is. After the last choice the first enabled event is done until there is none, and the last lines
//! are those that `dine replay` prints.
//!
//! With `--json` it prints the state after the choices, in one line; with `--events` all events of the choices; with
//! `--states` the state after each of the numbers of events in PLACES, one line each. With `--run` it runs the plan on
//! threads, and prints the LIST that leads through the events of that run. If LIST is `-`, it is the first line of the
//! input, and the plan follows it.
//!
//! usage: dine_trace [[--json | --events | --states PLACES] [LIST] | --run [--links channel|ring]] < PLAN
#![tactic(auto)]

mod ends;
mod fault_lines;
mod input;
mod runs;
mod states;
mod trace;
mod words;

use dine::arguments_of;
use dine_plan::Plan;
use dine_states::course_text;
use dine_words::{Status, exit_of, plan_of_bytes, read_input, write_line};
use fault_lines::Fault;
use input::split_list;
use runs::choices_of_run;
use states::{state_text, write_states};
use std::alloc::Global;
use std::io::{Read, Write};
use std::process::ExitCode;
use std::sync::Wait;
use std::thread::Threads;
use std::{env, io};
use trace::show_plan;
use words::{Asked, Choices, Form, asked_of};

// Reads the plan, and prints what the arguments ask for.
fn show<H: Threads + Wait + Copy + Send + 'static, R: Read, W: Write>(
    rt: &H,
    alloc: Global,
    given: io::Result<env::Args>,
    input: &mut R,
    output: &mut W,
) -> Result<(), Fault> {
    let asked = asked_of(alloc, arguments_of(alloc, given)?.as_slice())?;
    let bytes = read_input(alloc, input)?;
    match asked {
        Asked::Of(form, choices) => show_of(alloc, bytes.as_slice(), form, choices, output),
        Asked::Run(links) => {
            let plan = plan_of(alloc, bytes.as_slice())?;
            let choices = choices_of_run(rt, alloc, &plan, links)?;
            write_line(output, list_of(alloc, choices.as_slice())?.as_str())?;
            Ok(())
        }
    }
}

// Prints what is asked for. The input is the plan, or the choices and then the plan.
fn show_of<W: Write>(
    alloc: Global,
    bytes: &[u8],
    form: Form,
    choices: Choices,
    output: &mut W,
) -> Result<(), Fault> {
    match choices {
        Choices::Given(choices) => {
            let plan = plan_of(alloc, bytes)?;
            show_form(alloc, &plan, form, choices.as_slice(), output)
        }
        Choices::InInput => {
            let (choices, rest) = split_list(alloc, bytes)?;
            let plan = plan_of(alloc, rest)?;
            show_form(alloc, &plan, form, choices.as_slice(), output)
        }
    }
}

// The plan in the bytes.
fn plan_of(alloc: Global, bytes: &[u8]) -> Result<Plan, Fault> {
    match plan_of_bytes(alloc, bytes) {
        Ok(plan) => Ok(plan),
        Err(fault) => Err(Fault::from(fault)),
    }
}

// Prints what is asked for of the plan and the choices.
fn show_form<W: Write>(
    alloc: Global,
    plan: &Plan,
    form: Form,
    choices: &[u32],
    output: &mut W,
) -> Result<(), Fault> {
    let line = match form {
        Form::Steps => return show_plan(alloc, plan, choices, output),
        Form::States(places) => {
            return write_states(alloc, plan, places.as_slice(), choices, output);
        }
        Form::State => state_text(alloc, plan, choices)?,
        Form::Events => course_text(alloc, plan, choices)?,
    };
    write_line(output, line.as_str())?;
    Ok(())
}

// The choices as a LIST.
fn list_of(alloc: Global, choices: &[u32]) -> Result<String, Fault> {
    let mut list = String::new(alloc);
    for choice in choices {
        if !list.is_empty() {
            list.push(',')?;
        }
        write!(list, "{choice}")?;
    }
    Ok(list)
}

fn main(rt: HostRuntime) -> ExitCode {
    let mut input = rt.stdin();
    let mut output = rt.stdout();
    let mut faults = rt.stderr();
    let given = env::args(&rt);
    let status = match show(&rt, rt.alloc(), given, &mut input, &mut output) {
        Ok(()) => Status::Success,
        Err(fault) => fault.end(&mut faults),
    };
    exit_of(status)
}
