//! What each end of each edge of a world is.

use dine_plan::Plan;
use dine_states::{name_of, role};
use dine_world::{Whereabouts, World};
use std::alloc::AllocError;

/// Adds a line for each edge to the text: what each of its ends is, and to which end a fork or a token is on its way.
pub fn push_edges(text: &mut String, plan: &Plan, world: &World) -> Result<(), AllocError> {
    for edge in 0..plan.edges() {
        let (lower, higher) = plan.ends(edge);
        let fork = world.where_is_fork(edge);
        let token = world.where_is_token(edge);
        let (low, high) = (name_of(plan, lower), name_of(plan, higher));
        let (is_low, is_high) = (role(fork, token, lower), role(fork, token, higher));
        write!(text, "  edge {edge}: {low} {is_low}, {high} {is_high}")?;
        push_way(text, plan, ", fork to ", fork)?;
        push_way(text, plan, ", token to ", token)?;
        text.push('\n')?;
    }
    Ok(())
}

// Adds the words and the name of the site to which something is on its way, if it is on its way.
fn push_way(
    text: &mut String,
    plan: &Plan,
    words: &str,
    found: Option<Whereabouts>,
) -> Result<(), AllocError> {
    match found {
        Some(Whereabouts::To(site)) => {
            text.push_str(words)?;
            text.push_str(name_of(plan, site))
        }
        Some(Whereabouts::At(_)) | None => Ok(()),
    }
}
