//! A draft, and the plan of it.
ghost use Rattle.std.specs.Prelude.{◌≡◌, ◌≢◌, ◌≤◌, None, Some, length, map, OnOk, IfOk, IfErr};
ghost use Rattle.dine_token.specs.declared.limits.TheConstants.{MAX_JOBS};
ghost use Rattle.dine_draft.specs.Draft.{plan_of, seen_draft, value_of_edge};
ghost use Rattle.dine_draft.specs.Refusals.{first_of_draft};

use crate::acts::first_act_fault;
use crate::edges::{ends_of, first_end_fault, first_pair_fault};
use crate::plan_fault::PlanFault;
use crate::sites::first_site_fault;
use dine_graph::{Plan, Site};
use std::alloc::{AllocError, Global};

// The most sites, and the most edges, of a draft whose positions fit the `u32` of a fault. A plan has far fewer.
const MAX_ITEMS: usize = u32::MAX as usize;

/// An edge of a draft, by the numbers of its ends, in either order.
#[derive(Clone, Copy, Debug)]
pub struct DraftEdge {
    /// The number of one site.
    pub a: u32,
    /// The number of the other site.
    pub b: u32,
    /// The value before the first meal, at most 1,000,000 in a plan.
    pub value: u64,
}

/// What a plan is made of, before anything of it is checked. Sites and edges are numbered from 0.
#[derive(Debug, Drop)]
pub struct Draft {
    /// The version of the format, 1 or 2.
    pub version: u32,
    /// The greatest number of jobs that a site may have, at most 4,294,967,295: 1,000 in a text.
    pub most_jobs: u32,
    /// The sites with their jobs.
    pub sites: Vec<Site>,
    /// The edges.
    pub edges: Vec<DraftEdge>,
    /// The first site with a job that both adds and sets. Only a text has one.
    pub two_acts: Option<u32>,
    /// The first site whose policy is neither to go on nor to resign. Only a text has one.
    pub other_policy: Option<u32>,
}

impl Draft {
    /// Makes the plan of the draft.
    ///
    /// # Errors
    ///
    /// Returns the first cause from `BadName` on that holds, at the least position. Returns `Memory`, for no other
    /// cause, if an allocation fails or the draft has 2^32 sites or edges or more.
    pub fn finish(self, alloc: Global) -> Result<Plan, PlanFault>
        requires first { 1 ≤ self.version }
        requires last { self.version ≤ 2 }
        requires most_jobs { self.most_jobs ≤ MAX_JOBS }
        ensures unrefused { OnOk result (first_of_draft (seen_draft self) ≡ None) }
        ensures plan { IfOk result (λ p. p ≡ plan_of (seen_draft self)) }
        ensures refused { IfErr result (λ f. f ≢ PlanFault.Memory → first_of_draft (seen_draft self) ≡ Some f) }
    {
        if self.sites.len() > MAX_ITEMS || self.edges.len() > MAX_ITEMS {
            return Err(PlanFault::Memory);
        }
        let found = self.first_fault(alloc)?;
        if let Some(fault) = found {
            return Err(fault);
        }
        let ends = ends_of(alloc, self.edges.as_slice())?;
        let values = values_of(alloc, self.edges.as_slice())?;
        Ok(Plan::new(alloc, self.version, self.sites, ends, values)?)
    }

    // The first cause to refuse the draft.
    fn first_fault(&self, alloc: Global) -> Result<Option<PlanFault>, AllocError>
        requires sites { length self.now.sites.items ≤ u32.MAX }
        requires edges { length self.now.edges.items ≤ u32.MAX }
        ensures { IfOk result (λ o. o ≡ first_of_draft (seen_draft self.now)) }
    {
        let site_fault = first_site_fault(alloc, self.most_jobs, self.sites.as_slice())?;
        if site_fault.is_some() {
            return Ok(site_fault);
        }
        let end_fault = first_end_fault(self.sites.len(), self.edges.as_slice());
        if end_fault.is_some() {
            return Ok(end_fault);
        }
        let ends = ends_of(alloc, self.edges.as_slice())?;
        let pair_fault = first_pair_fault(ends.as_slice());
        if pair_fault.is_some() {
            return Ok(pair_fault);
        }
        Ok(first_act_fault(self))
    }
}

// The values of the edges, in order.
fn values_of(alloc: Global, edges: &[DraftEdge]) -> Result<Vec<u64>, AllocError>
    ensures { IfOk result (λ v. v.items ≡ map value_of_edge edges.now) }
{
    let mut values = Vec::new(alloc);
    for edge in edges {
        values.push(edge.value)?;
    }
    Ok(values)
}
