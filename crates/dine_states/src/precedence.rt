//! Which end of each edge has precedence, and an order of the sites that shows that precedence has no cycle.
ghost use Rattle.std.specs.Prelude.{◌≡◌, ℕ, ◌<◌, IfOk, List, MatchOption, position};
ghost use Rattle.std.specs.List.{range_with_len};
ghost use Rattle.dine_graph.specs.Plan.{edge_count, other_of};
ghost use Rattle.dine_rules.specs.World.{WorldState};
ghost use Rattle.dine_rules.specs.Precedence.{IsAcyclic, preferred_end};
ghost use Rattle.dine_world.specs.Whereabouts.{at_edge};
ghost use Rattle.dine_world.specs.Worlds.{ForEachWorld, IsWorldOf};
ghost use Rattle.dine_states.specs.Orders.{IsOrder, all_by_precedence, is_behind, is_free};

use dine_graph::Plan;
use dine_rules::laws;
use dine_world::World;
use std::alloc::{AllocError, Global};

/// Returns the end of the edge that has precedence: that where a clean fork is, or to which it is on its way, and else
/// that where the dirty fork is not. None if there is no such edge.
pub fn preferred_end(world: &World, edge: u32) -> Option<u32>
    ensures { ForEachWorld world.now (λ plan state. result ≡ at_edge plan edge (preferred_end plan state edge)) }
{
    let fork = world.fork(edge)?;
    let (lower, higher) = fork.ends();
    let at = fork.at();
    if !fork.is_dirty() {
        Some(at)
    } else if at == lower {
        Some(higher)
    } else {
        Some(lower)
    }
}

/// Returns all sites in an order in which the preferred end of each edge is before its other end. None if there is no
/// such order, which is so of no world of the plan.
pub fn order_of_precedence(
    alloc: Global,
    plan: &Plan,
    world: &World,
) -> Result<Option<Vec<u32>>, AllocError>
    ensures { IfOk result (λ found. (state : WorldState) → IsWorldOf plan.now state world.now
        → MatchOption found ⊥ (λ order. (acyclic : IsAcyclic plan.now state) × (acyclic.order ≡ order.items))) }
{
    laws::precedence_is_acyclic();
    let ends = ends_by_precedence(alloc, plan, world)?;
    let found = order_by(alloc, plan.sites(), ends.as_slice())?;
    Ok(found)
}

// The preferred end of each edge, and its other end.
fn ends_by_precedence(
    alloc: Global,
    plan: &Plan,
    world: &World,
) -> Result<Vec<(u32, u32)>, AllocError>
    ensures { IfOk result (λ ends. (state : WorldState) → IsWorldOf plan.now state world.now
        → ends.items ≡ all_by_precedence plan.now state) }
{
    let mut ends = Vec::new(alloc);
    for edge in 0..plan.edges() {
        // A world of the plan has the fork of each edge.
        if let Some(preferred) = preferred_end(world, edge) {
            ends.push((preferred, other_end(plan, edge, preferred)))?;
        }
    }
    Ok(ends)
}

// The end of the edge that is not the site.
fn other_end(plan: &Plan, edge: u32, site: u32) -> u32
    requires { edge < edge_count plan.now }
    ensures { result ≡ other_of plan.now edge site }
{
    let (lower, higher) = plan.ends(edge);
    if lower == site { higher } else { lower }
}

// All numbers below `n` in an order in which the first of each pair is before the second. None if there is no such
// order.
fn order_by(alloc: Global, n: u32, pairs: &[(u32, u32)]) -> Result<Option<Vec<u32>>, AllocError>
    ensures { IfOk result (λ found. MatchOption found ((order : List ℕ) → IsOrder n pairs.now order → ⊥)
        (λ order. IsOrder n pairs.now order.items)) }
{
    let mut order: Vec<u32> = Vec::new(alloc);
    let mut left = numbers_below(alloc, n)?;
    while !left.is_empty() {
        match first_free(pairs, left.as_slice()) {
            Some(place) => order.push(left.remove(place))?,
            None => return Ok(None),
        }
    }
    Ok(Some(order))
}

// The numbers below `n`.
fn numbers_below(alloc: Global, n: u32) -> Result<Vec<u32>, AllocError>
    ensures { IfOk result (λ numbers. numbers.items ≡ range_with_len 0 n) }
{
    let mut numbers = Vec::new(alloc);
    for number in 0..n {
        numbers.push(number)?;
    }
    Ok(numbers)
}

// The place of the first number that is left and that no other of these has to be before. None if there is none.
fn first_free(pairs: &[(u32, u32)], left: &[u32]) -> Option<usize>
    ensures { result ≡ position (is_free pairs.now left.now) left.now }
{
    left.iter().position(|number| is_free(pairs, left, *number))
}

// Whether no number that is left has to be before this one.
fn is_free(pairs: &[(u32, u32)], left: &[u32], number: u32) -> bool
    ensures { result ≡ is_free pairs.now left.now number }
{
    for pair in pairs {
        if is_behind(left, number, *pair) {
            return false;
        }
    }
    true
}

// Whether the pair has a number that is left before this one.
fn is_behind(left: &[u32], number: u32, pair: (u32, u32)) -> bool
    ensures { result ≡ is_behind left.now number pair }
{
    pair.1 == number && left.contains(&pair.0)
}
