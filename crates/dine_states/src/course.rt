//! All events of a schedule, as JSON.

use crate::events::{Enabled, letter_for};
use dine_graph::Plan;
use dine_world::World;
use serde::Serialize;
use std::alloc::{AllocError, Global};

// The events that were done: for each its site, its edge, and a letter for what it is.
#[derive(Drop, Serialize)]
struct Course {
    events: usize,
    bound: u64,
    done: Vec<u32>,
    sites: Vec<u32>,
    edges: Vec<Option<u32>>,
    kinds: String,
}

/// Returns the events of the choices in the plan's world, in one line without its end. A choice with no event is passed
/// over.
///
/// # Errors
///
/// `AllocError` if an allocation fails.
pub fn course_text(alloc: Global, plan: &Plan, choices: &[u32]) -> Result<String, AllocError> {
    let mut world = World::open(alloc, plan)?;
    let course = course_of(alloc, plan, &mut world, choices);
    let _ = world.into_forks();
    serde_json::to_string(alloc, &course?).map_err(|_| AllocError)
}

// Does the choices, and returns the events.
fn course_of(
    alloc: Global,
    plan: &Plan,
    world: &mut World,
    choices: &[u32],
) -> Result<Course, AllocError> {
    let mut course = Course {
        events: 0,
        bound: world.bound(),
        done: Vec::new(alloc),
        sites: Vec::new(alloc),
        edges: Vec::new(alloc),
        kinds: String::new(alloc),
    };
    for choice in choices {
        if let Some(enabled) = Enabled::find(plan, world, *choice) {
            course.add(plan, enabled)?;
            let _ = world.replay([*choice].as_slice());
        }
    }
    course.events = course.done.len();
    Ok(course)
}

impl Course {
    // Adds an event after the others.
    fn add(&mut self, plan: &Plan, enabled: Enabled) -> Result<(), AllocError> {
        self.done.push(enabled.number)?;
        self.sites.push(enabled.event.site)?;
        self.edges.push(enabled.edge(plan))?;
        self.kinds.push(letter_for(enabled))
    }
}
