//! The states of a schedule, as JSON.

use crate::fault_lines::Fault;
use dine_plan::Plan;
use dine_states::Schedule;
use dine_words::write_line;
use std::alloc::{AllocError, Global};
use std::io::Write;

/// Returns the state of the plan's world after the choices, in one line without its end. A choice with no event is
/// passed over.
pub fn state_text(alloc: Global, plan: &Plan, choices: &[u32]) -> Result<String, AllocError> {
    let mut schedule = Schedule::open(alloc, plan)?;
    for choice in choices {
        schedule.choose(plan, *choice)?;
    }
    schedule.whole_state_text(alloc, plan)
}

/// Writes a line for each of the places: the state of the plan's world after that number of the events of the choices.
/// For a place that is greater than their number it is the state after the last one. For a place that is less than the
/// one before, it is the state of that one.
pub fn write_states<W: Write>(
    alloc: Global,
    plan: &Plan,
    places: &[u32],
    choices: &[u32],
    output: &mut W,
) -> Result<(), Fault> {
    let mut schedule = Schedule::open(alloc, plan)?;
    let mut left = choices;
    for place in places {
        left = schedule.go_to(plan, *place as usize, left)?;
        write_line(output, schedule.state_text(alloc, plan)?.as_str())?;
    }
    Ok(())
}
