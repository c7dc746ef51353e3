//! The state of a world as JSON.

mod edges;
mod links;
mod sites;

use crate::events::{Enabled, name_of_kind, name_of_letter, place_of, push_event, rule_of};
use crate::precedence::order_of_precedence;
use crate::schedule::Schedule;
use dine_graph::Plan;
use dine_log_text::edges_text;
use dine_world::World;
use edges::{EdgeState, edges_of};
use links::{LinkState, links_of};
use serde::Serialize;
use sites::{SiteState, sites_of};
use std::alloc::{AllocError, Global};

/// The state of a world. The choices that were done are left out if they are `None`.
#[derive(Drop, Serialize)]
pub(crate) struct State<'s> {
    sites: Vec<SiteState<'s>>,
    edges: Vec<EdgeState>,
    links: Vec<LinkState>,
    enabled: Vec<EventState>,
    events: usize,
    bound: u64,
    #[serde(skip_serializing_if = "Option::is_none")]
    pub(crate) done: Option<Vec<u32>>,
    logs: Vec<String>,
    order: Option<Vec<u32>>,
    last: Option<EventState>,
}

// An enabled event, or the one that was done last.
#[derive(Drop, Serialize)]
struct EventState {
    number: u32,
    site: u32,
    kind: &'static str,
    place: Option<u32>,
    edge: Option<u32>,
    neighbour: Option<u32>,
    letter: Option<&'static str>,
    meal: Option<u32>,
    failed: bool,
    rule: &'static str,
    words: String,
}

/// Returns the state of the schedule, without the choices that were done.
///
/// # Errors
///
/// `AllocError` if an allocation fails.
pub(crate) fn state_of<'s>(
    alloc: Global,
    plan: &'s Plan,
    schedule: &Schedule,
) -> Result<State<'s>, AllocError> {
    let world = &schedule.world;
    let past = &schedule.past;
    let text = edges_text(alloc, plan, world)?;
    Ok(State {
        sites: sites_of(alloc, plan, world, past)?,
        edges: edges_of(alloc, plan, world)?,
        links: links_of(alloc, plan, world)?,
        enabled: enabled_of(alloc, plan, world)?,
        events: past.done.len(),
        bound: world.bound(),
        done: None,
        logs: lines_of(alloc, text.as_str())?,
        order: order_of_precedence(alloc, plan, world)?,
        last: match past.last {
            Some(last) => Some(event_of(alloc, plan, last)?),
            None => None,
        },
    })
}

// The lines of the text, each of which ends with a line feed.
fn lines_of(alloc: Global, text: &str) -> Result<Vec<String>, AllocError> {
    let mut lines = Vec::new(alloc);
    for line in text.split('\n') {
        if !line.is_empty() {
            lines.push(String::from_str(alloc, line)?)?;
        }
    }
    Ok(lines)
}

// The enabled events.
fn enabled_of(alloc: Global, plan: &Plan, world: &World) -> Result<Vec<EventState>, AllocError> {
    let mut enabled = Vec::new(alloc);
    for number in 0..world.count() {
        if let Some(event) = Enabled::find(plan, world, number) {
            enabled.push(event_of(alloc, plan, event)?)?;
        }
    }
    Ok(enabled)
}

// What is reported of an event.
fn event_of(alloc: Global, plan: &Plan, enabled: Enabled) -> Result<EventState, AllocError> {
    let mut words = String::new(alloc);
    push_event(&mut words, plan, enabled)?;
    Ok(EventState {
        number: enabled.number,
        site: enabled.event.site,
        kind: name_of_kind(enabled.event.kind),
        place: place_of(enabled.event.kind),
        edge: enabled.edge(plan),
        neighbour: enabled.neighbour(plan),
        letter: match enabled.letter {
            Some(letter) => Some(name_of_letter(letter)),
            None => None,
        },
        meal: enabled.meal,
        failed: enabled.failed,
        rule: rule_of(enabled),
        words,
    })
}
