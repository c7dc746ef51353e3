//! The edges of each site, and the places of each edge among them.
ghost use Rattle.std.specs.Prelude.{◌≡◌, ◌==◌, ℕ, ◌<◌, ◌≤◌, true, Vec, vec_len, length};
ghost use Rattle.std.specs.Prelude.{slice_index_or, slice_get, Some, IfOk};
ghost use Rattle.std.specs.List.{list_any};
ghost use Rattle.std.specs.declared.alloc.Global.{Global as GlobalAlloc};
ghost use Rattle.dine_graph.specs.declared.limits.TheConstants.{MAX_EDGES, MAX_SITES};
ghost use Rattle.dine_graph.specs.Plan.{is_one_of, positions_at};

use std::alloc::{AllocError, Global};

/// Lists for each of the `sites` sites the edges that have it as an end, ascending.
pub(crate) fn lists_at(
    alloc: Global,
    sites: usize,
    ends: &[(u32, u32)],
) -> Result<Vec<Vec<u32>>, AllocError>
    requires few_sites { sites ≤ MAX_SITES }
    requires few_edges { length ends.now ≤ MAX_EDGES }
    ensures len { IfOk result (λ v. vec_len v ≡ sites) }
    ensures lists { IfOk result (λ v. (s : ℕ) (d : Vec ℕ GlobalAlloc) → s < sites
        → (slice_index_or v.items s d).items ≡ positions_at ends.now s) }
{
    let mut lists = Vec::new(alloc);
    for site in 0..sites {
        lists.push(list_at(alloc, ends, site as u32)?)?;
    }
    Ok(lists)
}

// The edges that have a site as an end, ascending.
fn list_at(alloc: Global, ends: &[(u32, u32)], site: u32) -> Result<Vec<u32>, AllocError>
    requires { length ends.now ≤ MAX_EDGES }
    ensures { IfOk result (λ v. v.items ≡ positions_at ends.now site) }
{
    let mut list = Vec::new(alloc);
    for (edge, pair) in ends.iter().enumerate() {
        if is_one_of(*pair, site) {
            list.push(edge as u32)?;
        }
    }
    Ok(list)
}

// Whether the site is one of the two ends.
fn is_one_of(ends: (u32, u32), site: u32) -> bool
    ensures { result ≡ is_one_of ends site }
{
    ends.0 == site || ends.1 == site
}

/// Finds the places of each edge in the lists of its two ends.
pub(crate) fn places_in(
    alloc: Global,
    ends: &[(u32, u32)],
    lists: &[Vec<u32>],
) -> Result<Vec<(u32, u32)>, AllocError>
    requires few_edges { length ends.now ≤ MAX_EDGES }
    requires low { (e : ℕ) → e < length ends.now → (slice_index_or ends.now e (0, 0)).0 < length lists.now }
    requires high { (e : ℕ) → e < length ends.now → (slice_index_or ends.now e (0, 0)).1 < length lists.now }
    requires lists { (s : ℕ) (d : Vec ℕ GlobalAlloc) → s < length lists.now
        → (slice_index_or lists.now s d).items ≡ positions_at ends.now s }
    ensures len { IfOk result (λ v. vec_len v ≡ length ends.now) }
    ensures at_low { IfOk result (λ v. (e : ℕ) → e < length ends.now
        → slice_get (positions_at ends.now (slice_index_or ends.now e (0, 0)).0)
        (slice_index_or v.items e (0, 0)).0 ≡ Some e) }
    ensures at_high { IfOk result (λ v. (e : ℕ) → e < length ends.now
        → slice_get (positions_at ends.now (slice_index_or ends.now e (0, 0)).1)
        (slice_index_or v.items e (0, 0)).1 ≡ Some e) }
{
    let mut places = Vec::new(alloc);
    for (edge, pair) in ends.iter().enumerate() {
        let at_low = place_in(&lists[pair.0 as usize], edge as u32);
        let at_high = place_in(&lists[pair.1 as usize], edge as u32);
        places.push((at_low, at_high))?;
    }
    Ok(places)
}

// The place of an edge in a list.
fn place_in(list: &[u32], edge: u32) -> u32
    requires few { length list.now ≤ MAX_EDGES }
    requires has { list_any (λ x. x == edge) list.now ≡ true }
    ensures { slice_get list.now result ≡ Some edge }
{
    for (place, other) in list.iter().enumerate() {
        if *other == edge {
            return place as u32;
        }
    }
    unreachable!()
}
