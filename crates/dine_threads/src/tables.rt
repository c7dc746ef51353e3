//! The tables of what was eaten: a row for each edge, and a row for each site.
ghost use Rattle.std.specs.Prelude.{◌≡◌, IfOk};
ghost use Rattle.dine_threads.specs.Tables.{IsGatheredOf, edge_rows, site_rows};

use crate::gathered::Gathered;
use dine_graph::Plan;
use dine_site_thread::Diner;
use std::alloc::{AllocError, Global};

/// How often the ends of an edge ate with its fork: the number of the edge, from 0 to 511, its ends, the lower site
/// first, how many meals of each the fork's log holds, and the value that the fork carries.
#[derive(Clone, Copy, Debug, PartialEq, Eq)]
pub struct EdgeRow {
    pub edge: u32,
    pub lo: u32,
    pub hi: u32,
    pub lo_meals: u32,
    pub hi_meals: u32,
    pub value: u64,
}

/// How often a site ate: its number, from 0 to 63, how many meals it began, and how many of their jobs failed.
#[derive(Clone, Copy, Debug, PartialEq, Eq)]
pub struct SiteRow {
    pub site: u32,
    pub meals: u32,
    pub failed: u32,
}

/// Returns a row for each edge of the plan, in order. What was gathered is of that plan: a fork for each edge, and what
/// each site left, in order.
///
/// All memory is allocated at once.
///
/// # Errors
///
/// `AllocError` if the allocation fails. Nothing is left behind.
pub fn edge_table<D: Diner>(
    alloc: Global,
    plan: &Plan,
    gathered: &Gathered<D>,
) -> Result<Vec<EdgeRow>, AllocError>
    requires { IsGatheredOf plan.now gathered.now.forks.items gathered.now.sites.items }
    ensures { IfOk result (λ rows. rows.items ≡ edge_rows plan.now gathered.now.forks.items) }
{
    let mut rows = Vec::with_capacity(alloc, plan.edges() as usize)?;
    for edge in 0..plan.edges() {
        let (lo, hi) = plan.ends(edge);
        let fork = &gathered.forks[edge as usize];
        rows.push_reserved(EdgeRow {
            edge,
            lo,
            hi,
            lo_meals: fork.meals_of(lo),
            hi_meals: fork.meals_of(hi),
            value: fork.value(),
        });
    }
    Ok(rows)
}

/// Returns a row for each site of the plan, in order. What was gathered is of that plan: a fork for each edge, and what
/// each site left, in order.
///
/// All memory is allocated at once.
///
/// # Errors
///
/// `AllocError` if the allocation fails. Nothing is left behind.
pub fn site_table<D: Diner>(
    alloc: Global,
    plan: &Plan,
    gathered: &Gathered<D>,
) -> Result<Vec<SiteRow>, AllocError>
    requires { IsGatheredOf plan.now gathered.now.forks.items gathered.now.sites.items }
    ensures { IfOk result (λ rows. rows.items ≡ site_rows gathered.now.sites.items) }
{
    let mut rows = Vec::with_capacity(alloc, plan.sites() as usize)?;
    for out in gathered.sites.as_slice() {
        rows.push_reserved(SiteRow {
            site: out.site,
            meals: out.ate,
            failed: out.failed,
        });
    }
    Ok(rows)
}
