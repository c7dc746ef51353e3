// What the state has of the edges.
ghost use Rattle.std.specs.Prelude.{◌<◌};
ghost use Rattle.dine_graph.specs.Plan.{edge_count};

use crate::ends::End;
use crate::precedence::preferred_end;
use crate::roles::role;
use crate::why::name_of_why_not;
use dine_graph::Plan;
use dine_world::{EventKind, Whereabouts, World};
use serde::Serialize;
use std::alloc::{AllocError, Global};

// Where the fork or the token of an edge is: at a site, or on its way to one.
#[derive(Drop, Serialize)]
#[serde(rename_all = "lowercase")]
enum Spot {
    At(u32),
    To(u32),
}

/// An edge: the pairs have the lower end first. It has a fork and a token, so neither spot is ever left out.
#[derive(Drop, Serialize)]
pub(super) struct EdgeState {
    ends: (u32, u32),
    fork: Option<Spot>,
    dirty: bool,
    token: Option<Spot>,
    roles: (&'static str, &'static str),
    said: (Option<SaidState>, Option<SaidState>),
    preferred: Option<u32>,
    value: Option<u64>,
    why_not: (PlaceReasons, PlaceReasons),
}

// Which of Done and Close an end has put and taken.
#[derive(Drop, Serialize)]
struct SaidState {
    done_put: bool,
    done_taken: bool,
    close_put: bool,
    close_taken: bool,
}

// For each event of a site at a place why it is not enabled, or `None`.
#[derive(Drop, Serialize)]
struct PlaceReasons {
    take: Option<&'static str>,
    give: Option<&'static str>,
    ask: Option<&'static str>,
    done: Option<&'static str>,
    close: Option<&'static str>,
}

/// Returns the edges of the plan.
pub(super) fn edges_of(
    alloc: Global,
    plan: &Plan,
    world: &World,
) -> Result<Vec<EdgeState>, AllocError> {
    let mut edges = Vec::new(alloc);
    for edge in 0..plan.edges() {
        edges.push(edge_of(plan, world, edge))?;
    }
    Ok(edges)
}

// The edge.
fn edge_of(plan: &Plan, world: &World, edge: u32) -> EdgeState
    requires { edge < edge_count plan.now }
{
    let (lower, higher) = plan.ends(edge);
    let (low, high) = (End::new(plan, edge, lower), End::new(plan, edge, higher));
    let fork = world.where_is_fork(edge);
    let token = world.where_is_token(edge);
    EdgeState {
        ends: (lower, higher),
        fork: spot_of(fork),
        dirty: world.is_fork_dirty(edge).unwrap_or(false),
        token: spot_of(token),
        roles: (role(fork, token, lower), role(fork, token, higher)),
        said: (said_of(world, low), said_of(world, high)),
        preferred: preferred_end(world, edge),
        value: value_of(plan, world, edge),
        why_not: (reasons_at(plan, world, low), reasons_at(plan, world, high)),
    }
}

// Why the events of a site at this end of an edge are not enabled.
fn reasons_at(plan: &Plan, world: &World, end: End) -> PlaceReasons {
    let End { site, place, .. } = end;
    PlaceReasons {
        take: name_of_why_not(plan, world, site, EventKind::Take(place)),
        give: name_of_why_not(plan, world, site, EventKind::Give(place)),
        ask: name_of_why_not(plan, world, site, EventKind::Ask(place)),
        done: name_of_why_not(plan, world, site, EventKind::Done(place)),
        close: name_of_why_not(plan, world, site, EventKind::Close(place)),
    }
}

// The value that the fork of the edge carries. None in a plan of version 1.
fn value_of(plan: &Plan, world: &World, edge: u32) -> Option<u64> {
    if plan.version() == 1 {
        return None;
    }
    Some(world.fork(edge)?.value())
}

// Where it is. None if it was not found.
fn spot_of(found: Option<Whereabouts>) -> Option<Spot> {
    match found? {
        Whereabouts::At(site) => Some(Spot::At(site)),
        Whereabouts::To(site) => Some(Spot::To(site)),
    }
}

// What was put and taken of Done and Close at the end of an edge.
fn said_of(world: &World, end: End) -> Option<SaidState> {
    let said = world.said(end.site, end.place)?;
    Some(SaidState {
        done_put: said.done_put,
        done_taken: said.done_taken,
        close_put: said.close_put,
        close_taken: said.close_taken,
    })
}
