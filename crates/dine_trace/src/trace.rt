//! The steps of a schedule.

use crate::ends::push_edges;
use crate::fault_lines::Fault;
use dine_log_text::replay_text;
use dine_plan::Plan;
use dine_states::{Enabled, push_event};
use dine_words::write_out;
use dine_world::{Event, World};
use std::alloc::{AllocError, Global};
use std::io::Write;

/// Prints each step of the plan's schedule, and then what `dine replay` prints.
pub fn show_plan<W: Write>(
    alloc: Global,
    plan: &Plan,
    choices: &[u32],
    output: &mut W,
) -> Result<(), Fault> {
    let mut world = World::open(alloc, plan)?;
    let shown = show_steps(alloc, plan, &mut world, choices, output);
    let _ = world.into_forks();
    shown?;
    let text = replay_text(alloc, plan, choices)?;
    write_out(output, text.as_slice())?;
    Ok(())
}

// Prints the steps of the choices, and those after them.
fn show_steps<W: Write>(
    alloc: Global,
    plan: &Plan,
    world: &mut World,
    choices: &[u32],
    output: &mut W,
) -> Result<(), Fault> {
    let mut steps = 0;
    for choice in choices {
        steps = show_step(alloc, plan, world, "chosen", *choice, steps, output)?;
    }
    // No world has more events than its bound.
    for _ in 0..world.bound() {
        if world.count() == 0 {
            break;
        }
        steps = show_step(alloc, plan, world, "first", 0, steps, output)?;
    }
    Ok(())
}

// Prints the enabled events, does the one with this number if there is one, and prints what the ends of the edges are
// then. Returns the number of steps that were done; `before` is that number before this step.
fn show_step<W: Write>(
    alloc: Global,
    plan: &Plan,
    world: &mut World,
    why: &str,
    choice: u32,
    before: u64,
    output: &mut W,
) -> Result<u64, Fault> {
    let steps = before.saturating_add(1);
    let mut text = format!(in alloc; "step {steps}\n")?;
    push_enabled(&mut text, plan, world)?;
    let done = does(world, choice);
    write!(text, "{why} {choice}")?;
    if !done {
        text.push_str(", which is none of them\n")?;
        write_out(output, text.as_bytes())?;
        return Ok(before);
    }
    text.push('\n')?;
    push_edges(&mut text, plan, world)?;
    write_out(output, text.as_bytes())?;
    Ok(steps)
}

// Adds a line for each enabled event to the text: its number, and what it is in words.
fn push_enabled(text: &mut String, plan: &Plan, world: &World) -> Result<(), AllocError> {
    for n in 0..world.count() {
        if let Some(event) = Enabled::find(plan, world, n) {
            write!(text, "  {n} ")?;
            push_event(text, plan, event)?;
            text.push('\n')?;
        }
    }
    Ok(())
}

// Does the enabled event with this number, and returns whether there is one. If there is none, nothing changes.
fn does(world: &mut World, choice: u32) -> bool {
    match world.enabled(choice) {
        Some(event) => world.step(event).is_ok(),
        None => false,
    }
}
