//! The checks on the edges of a draft, and the pairs of sites that they join.
ghost use Rattle.std.specs.Prelude.{◌≡◌, ◌≤◌, map, length, position, Some, None, IfOk};
ghost use Rattle.std.specs.List.{list_any};
ghost use Rattle.dine_draft.specs.Draft.{ends_of_edge};
ghost use Rattle.dine_draft.specs.Refusals.{end_refusals, pair_refusals, first_some, first_twice};
ghost use Rattle.dine_draft.specs.Refusals.{has_unknown_end, is_loop, same_ends};

use crate::drafts::DraftEdge;
use crate::plan_fault::PlanFault;
use dine_graph::MAX_EDGES;
use std::alloc::{AllocError, Global};

/// Returns the first fault in the ends of edges between this number of sites.
#[tactic(auto, unfolding(crate::specs::Refusals::end_refusals))]
pub(crate) fn first_end_fault(sites: usize, edges: &[DraftEdge]) -> Option<PlanFault>
    requires { length edges.now ≤ u32.MAX }
    ensures { result ≡ first_some (end_refusals sites edges.now) }
{
    if let Some(edge) = first_unknown_end(sites, edges) {
        return Some(PlanFault::UnknownEnd(edge as u32));
    }
    if let Some(edge) = first_loop(sites, edges) {
        return Some(PlanFault::Loop(edge as u32));
    }
    None
}

fn first_unknown_end(sites: usize, edges: &[DraftEdge]) -> Option<usize>
    ensures { result ≡ position (has_unknown_end sites) edges.now }
{
    edges.iter().position(|edge| has_unknown_end(sites, edge))
}

// Whether an end of the edge is the number of no site.
#[tactic(auto, unfolding(crate::specs::Refusals::has_unknown_end))]
fn has_unknown_end(sites: usize, edge: &DraftEdge) -> bool
    ensures { result ≡ has_unknown_end sites edge.now }
{
    edge.a as usize >= sites || edge.b as usize >= sites
}

fn first_loop(sites: usize, edges: &[DraftEdge]) -> Option<usize>
    ensures { result ≡ position (is_loop sites) edges.now }
{
    edges.iter().position(|edge| is_loop(sites, edge))
}

// Whether both ends of the edge are one site.
#[tactic(auto, unfolding(crate::specs::Refusals::is_loop, crate::specs::Refusals::joined_by))]
fn is_loop(sites: usize, edge: &DraftEdge) -> bool
    ensures { result ≡ is_loop sites edge.now }
{
    let (lo, hi) = ends_of_edge(edge);
    lo == hi && !has_unknown_end(sites, edge)
}

// The ends of an edge, the lower one first.
#[tactic(auto, unfolding(crate::specs::Draft::ends_of_edge))]
fn ends_of_edge(edge: &DraftEdge) -> (u32, u32)
    ensures { result ≡ ends_of_edge edge.now }
{
    (edge.a.min(edge.b), edge.a.max(edge.b))
}

/// Returns the ends of the edges, in order.
pub(crate) fn ends_of(alloc: Global, edges: &[DraftEdge]) -> Result<Vec<(u32, u32)>, AllocError>
    ensures { IfOk result (λ v. v.items ≡ map ends_of_edge edges.now) }
{
    let mut ends = Vec::new(alloc);
    for edge in edges {
        ends.push(ends_of_edge(edge))?;
    }
    Ok(ends)
}

/// Returns the first fault in the pairs of sites that the edges join.
#[tactic(auto, unfolding(crate::specs::Refusals::pair_refusals))]
pub(crate) fn first_pair_fault(pairs: &[(u32, u32)]) -> Option<PlanFault>
    requires { length pairs.now ≤ u32.MAX }
    ensures { result ≡ first_some (pair_refusals (map Some pairs.now)) }
{
    if let Some(edge) = first_edge_twice(pairs) {
        return Some(PlanFault::EdgeTwice(edge as u32));
    }
    if pairs.len() > MAX_EDGES as usize {
        return Some(PlanFault::TooManyEdges);
    }
    None
}

// The least position of an edge that joins the two sites of an earlier one.
fn first_edge_twice(pairs: &[(u32, u32)]) -> Option<usize>
    ensures { result ≡ first_twice same_ends None (map Some pairs.now) }
{
    for (i, pair) in pairs.iter().enumerate() {
        if has_pair(&pairs[..i], *pair) {
            return Some(i);
        }
    }
    None
}

fn has_pair(pairs: &[(u32, u32)], pair: (u32, u32)) -> bool
    ensures { result ≡ list_any (λ other. same_ends (Some pair) (Some other)) pairs.now }
{
    pairs
        .iter()
        .any(|other| pair.0 == other.0 && pair.1 == other.1)
}
