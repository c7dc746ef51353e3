//! The calls of a plan.
ghost use Rattle.std.specs.Prelude.{◌≡◌, ◌≢◌, MatchOption, None, Some, length, pos};
ghost use Rattle.dine_graph.specs.Plan.{edge_count, hi_of, job_count, lo_of, name_of, site_count};
ghost use Rattle.dine_reader.specs.PlanOf.{IsPlanOf};
ghost use Rattle.dine_ffi.specs.Answers.{IsDoneOr, IsOkOr, IsWithin, closed, done, memory, open_already};
ghost use Rattle.dine_ffi.specs.Refusals.{IsRefusedFor, RefusalIs, plan_status};
ghost use Rattle.dine_ffi.specs.Contents.{HoldsPlan, OfHeld, OfPlan};
ghost use Rattle.dine_ffi.specs.Written.{over_front};
ghost use Rattle.dine_draft.specs.declared.plan_fault.PlanFault.{PlanFault as SeenFault};

use crate::contents::{Contents, Object};
use crate::handle::Handle;
use crate::on_held::on_held;
use crate::own_plan::{DineEnds, OwnPlan, write_refusal};
use crate::status::{CLOSED, DONE, MEMORY, OPEN_ALREADY, plan_status};
use std::alloc::Global;

/// Reads the plan whose text the bytes are. The handle, which is closed, holds it then.
#[unsafe(no_mangle)]
pub extern "C" fn dine_raw_plan_open(alloc: Global, text: &[u8], handle: &mut Handle) -> i64
    ensures plan { IsOkOr result (HoldsPlan (IsPlanOf text.now) handle.new.slot.held)
        (handle.new.slot.held ≡ handle.old.slot.held) }
    ensures open { handle.old.slot.held ≢ None → result ≡ open_already }
    ensures refused { handle.old.slot.held ≡ None → IsDoneOr result Unit
        ((fault : SeenFault) × IsRefusedFor text.now fault × (result ≡ plan_status fault)) }
{
    if handle.is_open() {
        return OPEN_ALREADY;
    }
    match OwnPlan::read(alloc, text) {
        Ok(plan) => open(alloc, Object::Plan(plan), handle),
        Err(fault) => plan_status(fault),
    }
}

/// Writes why the bytes are not the text of a plan, as `dine check` prints it: the number and the name of the first
/// cause, and the position that it names. Returns the number of its bytes, or 0 if they are the text of a plan. No more
/// are written than `out` has.
#[unsafe(no_mangle)]
pub extern "C" fn dine_raw_plan_refusal(alloc: Global, text: &[u8], out: &mut [u8]) -> i64
    ensures { RefusalIs text.now out.old out.new result }
{
    write_refusal(alloc, text, out)
}

// The handle, which is closed, holds this.
pub(crate) fn open(alloc: Global, object: Object, handle: &mut Handle) -> i64
    requires { handle.old.slot.held ≡ None }
    ensures handle { IsOkOr result (handle.new.slot.held ≡ Some (record { object = object }))
        (handle.new.slot.held ≡ handle.old.slot.held) }
    ensures memory { IsDoneOr result Unit (result ≡ memory) }
{
    match Box::new(alloc, Contents { object }) {
        Ok(contents) => {
            handle.put(contents);
            DONE
        }
        Err(_) => MEMORY,
    }
}

/// Closes a handle that holds anything, and frees its memory.
#[unsafe(no_mangle)]
pub extern "C" fn dine_raw_close(alloc: Global, handle: &mut Handle) -> i64
    ensures closed { handle.new.slot.held ≡ None }
    ensures answer { MatchOption handle.old.slot.held (result ≡ closed) (λ _. result ≡ done) }
{
    match handle.take(alloc) {
        Some(_) => DONE,
        None => CLOSED,
    }
}

/// Returns the version of the format of the plan's text, 1 or 2.
#[unsafe(no_mangle)]
pub extern "C" fn dine_raw_plan_version(alloc: Global, handle: &mut Handle) -> i64
    ensures same { handle.new.slot.held ≡ handle.old.slot.held }
    ensures answer { OfHeld handle.old.slot.held result
        (λ object. OfPlan object result (λ plan. result ≡ pos plan.version)) }
{
    on_held!(alloc, handle, Plan(plan) => i64::from(plan.plan().version()))
}

/// Returns the number of sites.
#[unsafe(no_mangle)]
pub extern "C" fn dine_raw_plan_sites(alloc: Global, handle: &mut Handle) -> i64
    ensures same { handle.new.slot.held ≡ handle.old.slot.held }
    ensures answer { OfHeld handle.old.slot.held result (λ object. OfPlan object result
        (λ plan. result ≡ pos (site_count plan))) }
{
    on_held!(alloc, handle, Plan(plan) => i64::from(plan.plan().sites()))
}

/// Returns the number of edges.
#[unsafe(no_mangle)]
pub extern "C" fn dine_raw_plan_edges(alloc: Global, handle: &mut Handle) -> i64
    ensures same { handle.new.slot.held ≡ handle.old.slot.held }
    ensures answer { OfHeld handle.old.slot.held result (λ object. OfPlan object result
        (λ plan. result ≡ pos (edge_count plan))) }
{
    on_held!(alloc, handle, Plan(plan) => i64::from(plan.plan().edges()))
}

/// Returns the number of jobs of the site.
#[unsafe(no_mangle)]
pub extern "C" fn dine_raw_plan_jobs(alloc: Global, handle: &mut Handle, site: u32) -> i64
    ensures same { handle.new.slot.held ≡ handle.old.slot.held }
    ensures answer { OfHeld handle.old.slot.held result (λ object. OfPlan object result
        (λ plan. IsWithin site (site_count plan) result (result ≡ pos (job_count plan site)))) }
{
    on_held!(alloc, handle, Plan(plan) => plan.jobs(site))
}

/// Writes the name of the site, and returns the number of its bytes. No more are written than `out` has.
#[unsafe(no_mangle)]
pub extern "C" fn dine_raw_plan_name(
    alloc: Global,
    handle: &mut Handle,
    site: u32,
    out: &mut [u8],
) -> i64
    ensures same { handle.new.slot.held ≡ handle.old.slot.held }
    ensures answer { OfHeld handle.old.slot.held result (λ object. OfPlan object result
        (λ plan. IsWithin site (site_count plan) result ((result ≡ pos (length (name_of plan site)))
        × (out.new ≡ over_front (name_of plan site) out.old)))) }
    ensures unwritten { IsDoneOr result Unit (out.new ≡ out.old) }
{
    on_held!(alloc, handle, Plan(plan) => plan.name(site, out))
}

/// Writes the two ends of the edge.
#[unsafe(no_mangle)]
pub extern "C" fn dine_raw_plan_ends(
    alloc: Global,
    handle: &mut Handle,
    edge: u32,
    out: &mut DineEnds,
) -> i64
    ensures same { handle.new.slot.held ≡ handle.old.slot.held }
    ensures answer { OfHeld handle.old.slot.held result (λ object. OfPlan object result
        (λ plan. IsWithin edge (edge_count plan) result ((result ≡ done)
        × (out.new ≡ record { lower = lo_of plan edge; higher = hi_of plan edge })))) }
    ensures unwritten { IsDoneOr result Unit (out.new ≡ out.old) }
{
    on_held!(alloc, handle, Plan(plan) => plan.ends(edge, out))
}
