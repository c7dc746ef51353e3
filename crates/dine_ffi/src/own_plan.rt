//! A plan that several sites share.
ghost use Rattle.std.specs.Prelude.{◌≡◌, IfErr, IfOk, None, OnOk, length, pos};
ghost use Rattle.dine_graph.specs.Plan.{edge_count, hi_of, job_count, lo_of, name_of, site_count};
ghost use Rattle.dine_reader.specs.PlanOf.{IsPlanOf};
ghost use Rattle.dine_reader.specs.RefusalTests.{first_fault};
ghost use Rattle.dine_ffi.specs.Answers.{IsDoneOr, IsWithin, done};
ghost use Rattle.dine_ffi.specs.Refusals.{IsRefusedFor, RefusalIs};
ghost use Rattle.dine_ffi.specs.Written.{over_front};

use crate::copying::copy_bytes;
use crate::status::{DONE, MEMORY, NO_SUCH};
use dine_graph::Plan;
use dine_reader::{PlanFault, read_plan};
use std::alloc::{AllocError, Global};
use std::marker::Model;
use std::sync::Arc;

/// The two ends of an edge, the lower site first.
#[repr(C)]
#[derive(Clone, Copy)]
pub struct DineEnds {
    pub lower: u32,
    pub higher: u32,
}

/// A plan, with a count of those that share it.
#[derive(Drop)]
pub struct OwnPlan {
    plan: Arc<Plan>,
}

impl Model for OwnPlan {
    ghost use Rattle.dine_graph.specs.Plan.{SeenPlan};

    ghost Value = { SeenPlan };

    ghost use Rattle.dine_ffi.specs.private.OwnPlanFields.{seen_own_plan};

    ghost view = { seen_own_plan };
}

impl OwnPlan {
    /// Reads the plan whose text the bytes are.
    pub(crate) fn read(alloc: Global, bytes: &[u8]) -> Result<OwnPlan, PlanFault>
        ensures plan { IfOk result (IsPlanOf bytes.now) }
        ensures unrefused { OnOk result (first_fault bytes.now ≡ None) }
        ensures refused { IfErr result (IsRefusedFor bytes.now) }
    {
        let plan = match std::str::from_utf8(bytes) {
            Ok(text) => read_plan(alloc, text)?,
            Err(_) => return Err(PlanFault::NotToml),
        };
        match Arc::new(alloc, plan) {
            Ok(plan) => Ok(OwnPlan { plan }),
            Err(_) => Err(PlanFault::Memory),
        }
    }

    /// Keeps a plan.
    pub(crate) fn of(alloc: Global, plan: Plan) -> Result<OwnPlan, AllocError>
        ensures { IfOk result (λ own. own ≡ plan) }
    {
        match Arc::new(alloc, plan) {
            Ok(plan) => Ok(OwnPlan { plan }),
            Err(_) => Err(AllocError),
        }
    }

    /// Returns the plan.
    pub(crate) fn plan(&self) -> &Plan
        ensures { result.now ≡ self.now }
    {
        &self.plan
    }

    /// Returns the same plan once more.
    pub(crate) fn share(&self) -> Result<OwnPlan, AllocError>
        ensures { IfOk result (λ own. own ≡ self.now) }
    {
        Ok(OwnPlan {
            plan: Arc::try_clone(&self.plan)?,
        })
    }

    /// Returns the number of jobs of the site.
    pub(crate) fn jobs(&self, site: u32) -> i64
        ensures { IsWithin site (site_count self.now) result (result ≡ pos (job_count self.now site)) }
    {
        if self.plan.sites() <= site {
            return NO_SUCH;
        }
        i64::from(self.plan.jobs(site))
    }

    /// Writes the name of the site, and returns the number of its bytes. No more are written than `out` has.
    pub(crate) fn name(&self, site: u32, out: &mut [u8]) -> i64
        ensures name { IsWithin site (site_count self.now) result ((result ≡ pos (length (name_of self.now site)))
            × (out.new ≡ over_front (name_of self.now site) out.old)) }
        ensures unwritten { IsDoneOr result Unit (out.new ≡ out.old) }
    {
        if self.plan.sites() <= site {
            return NO_SUCH;
        }
        copy_bytes(self.plan.name(site).as_bytes(), out)
    }

    /// Writes the two ends of the edge.
    pub(crate) fn ends(&self, edge: u32, out: &mut DineEnds) -> i64
        ensures ends { IsWithin edge (edge_count self.now) result
            ((result ≡ done) × (out.new ≡ record { lower = lo_of self.now edge; higher = hi_of self.now edge })) }
        ensures unwritten { IsDoneOr result Unit (out.new ≡ out.old) }
    {
        if self.plan.edges() <= edge {
            return NO_SUCH;
        }
        let (lower, higher) = self.plan.ends(edge);
        *out = DineEnds { lower, higher };
        DONE
    }
}

/// Writes why the bytes are not the text of a plan, in the words of `dine check`. Returns the number of its bytes, or 0
/// if they are. No more are written than `out` has.
pub(crate) fn write_refusal(alloc: Global, bytes: &[u8], out: &mut [u8]) -> i64
    ensures { RefusalIs bytes.now out.old out.new result }
{
    let fault = match OwnPlan::read(alloc, bytes) {
        Ok(_) => return DONE,
        Err(PlanFault::Memory) => return MEMORY,
        Err(fault) => fault,
    };
    match fault.to_string(alloc) {
        Ok(words) => copy_bytes(words.as_bytes(), out),
        Err(_) => MEMORY,
    }
}
