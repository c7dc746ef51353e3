// What the state has of the links.

use crate::ends::End;
use crate::events::name_of_letter;
use dine_graph::Plan;
use dine_world::World;
use serde::Serialize;
use std::alloc::{AllocError, Global};

/// A link, with the kinds of the letters in it, in the order in which they are taken.
#[derive(Drop, Serialize)]
pub(super) struct LinkState {
    edge: u32,
    from: u32,
    to: u32,
    letters: Vec<&'static str>,
}

/// Returns the links of all edges; of each edge the link to the higher end first.
pub(super) fn links_of(
    alloc: Global,
    plan: &Plan,
    world: &World,
) -> Result<Vec<LinkState>, AllocError> {
    let mut links = Vec::new(alloc);
    for edge in 0..plan.edges() {
        let (lower, higher) = plan.ends(edge);
        links.push(link_to(alloc, world, End::new(plan, edge, higher))?)?;
        links.push(link_to(alloc, world, End::new(plan, edge, lower))?)?;
    }
    Ok(links)
}

// The link to the end.
fn link_to(alloc: Global, world: &World, end: End) -> Result<LinkState, AllocError> {
    let mut letters = Vec::new(alloc);
    for n in 0..world.letters_to(end.site, end.place).unwrap_or(0) {
        if let Some(kind) = world.letter_to(end.site, end.place, n) {
            letters.push(name_of_letter(kind))?;
        }
    }
    Ok(LinkState {
        edge: end.edge,
        from: end.neighbour,
        to: end.site,
        letters,
    })
}
