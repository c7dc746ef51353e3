//! The calls of a builder of plans.
ghost use Rattle.std.specs.Prelude.{◌≡◌, ◌≢◌, None, nat_le, true};
ghost use Rattle.dine_token.specs.declared.limits.TheConstants.{MAX_NUMBER};
ghost use Rattle.dine_graph.specs.declared.limits.TheConstants.{MAX_TURNS};
ghost use Rattle.dine_builder.specs.Draft.{empty_draft, has_edge, has_job, has_site, with_act, with_failure};
ghost use Rattle.dine_builder.specs.Draft.{with_resigning, with_turns, with_value};
ghost use Rattle.dine_builder.specs.DraftPlan.{first_fault_of, plan_of_draft};
ghost use Rattle.dine_draft.specs.declared.plan_fault.PlanFault.TheVariants as fault;
ghost use Rattle.dine_ffi.specs.Answers.{IsDoneOr, IsOkOr, memory, open_already};
ghost use Rattle.dine_ffi.specs.Builders.{AddsEdgeOrRefuses, AddsSiteOrRefuses, ChangesOrRefuses, IsNoPlan, act_of};
ghost use Rattle.dine_ffi.specs.Contents.{BuilderCall, HoldsBuilder, HoldsPlan, OfBuilder, OfHeld, OnBuilder};

use crate::contents::{Contents, Object};
use crate::handle::Handle;
use crate::on_held::on_held;
use crate::own_builder::OwnBuilder;
use crate::own_plan::OwnPlan;
use crate::plan_calls::open;
use crate::status::{CLOSED, MEMORY, OPEN_ALREADY, OTHER_KIND, plan_status};
use std::alloc::Global;

/// Opens a builder of a plan, without sites and edges. The handle, which is closed, holds it then.
#[unsafe(no_mangle)]
pub extern "C" fn dine_raw_plan_builder_open(alloc: Global, handle: &mut Handle) -> i64
    ensures builder { IsOkOr result (HoldsBuilder (λ d. d ≡ empty_draft) handle.new.slot.held)
        (handle.new.slot.held ≡ handle.old.slot.held) }
    ensures open { handle.old.slot.held ≢ None → result ≡ open_already }
    ensures refused { handle.old.slot.held ≡ None → IsDoneOr result Unit (result ≡ memory) }
{
    if handle.is_open() {
        return OPEN_ALREADY;
    }
    open(alloc, Object::Builder(OwnBuilder::open(alloc)), handle)
}

/// Adds a site whose name the bytes are, with this number of jobs, and returns its number.
#[unsafe(no_mangle)]
pub extern "C" fn dine_raw_plan_builder_site(
    alloc: Global,
    handle: &mut Handle,
    name: &[u8],
    jobs: u32,
) -> i64
    ensures becomes { BuilderCall (AddsSiteOrRefuses name.now jobs) result handle.old.slot.held handle.new.slot.held }
{
    on_held!(alloc, handle, mut Builder(builder) => builder.site(alloc, name, jobs))
}

/// Adds an edge between two sites that are there, in either order, and returns its number.
#[unsafe(no_mangle)]
pub extern "C" fn dine_raw_plan_builder_edge(
    alloc: Global,
    handle: &mut Handle,
    a: u32,
    b: u32,
) -> i64
    ensures becomes { BuilderCall (AddsEdgeOrRefuses a b) result handle.old.slot.held handle.new.slot.held }
{
    on_held!(alloc, handle, mut Builder(builder) => builder.edge(a, b))
}

/// Sets the value of an edge before the first meal.
#[unsafe(no_mangle)]
pub extern "C" fn dine_raw_plan_builder_value(
    alloc: Global,
    handle: &mut Handle,
    edge: u32,
    value: u32,
) -> i64
    ensures becomes { BuilderCall (λ result old new. ChangesOrRefuses (nat_le value MAX_NUMBER)
        (fault.ValueTooLarge edge) (has_edge edge old) (with_value edge value old) result old new) result
        handle.old.slot.held handle.new.slot.held }
{
    on_held!(alloc, handle, mut Builder(builder) => builder.value(edge, value))
}

/// Makes a site drop the jobs that it has left after one failed.
#[unsafe(no_mangle)]
pub extern "C" fn dine_raw_plan_builder_resign(alloc: Global, handle: &mut Handle, site: u32) -> i64
    ensures becomes { BuilderCall (λ result old new. ChangesOrRefuses true fault.Memory (has_site site old)
        (with_resigning site old) result old new) result handle.old.slot.held handle.new.slot.held }
{
    on_held!(alloc, handle, mut Builder(builder) => builder.resign(site))
}

/// Sets the number of turns of job `k` of a site, from 1.
#[unsafe(no_mangle)]
pub extern "C" fn dine_raw_plan_builder_turns(
    alloc: Global,
    handle: &mut Handle,
    site: u32,
    k: u32,
    turns: u32,
) -> i64
    ensures becomes { BuilderCall (λ result old new. ChangesOrRefuses (nat_le turns MAX_TURNS)
        (fault.TurnsTooLarge site) (has_job site k old) (with_turns site k turns old) result old new) result
        handle.old.slot.held handle.new.slot.held }
{
    on_held!(alloc, handle, mut Builder(builder) => builder.turns(site, k, turns))
}

/// Makes job `k` of a site fail, from 1.
#[unsafe(no_mangle)]
pub extern "C" fn dine_raw_plan_builder_fails(
    alloc: Global,
    handle: &mut Handle,
    site: u32,
    k: u32,
) -> i64
    ensures becomes { BuilderCall (λ result old new. ChangesOrRefuses true fault.Memory (has_job site k old)
        (with_failure site k old) result old new) result handle.old.slot.held handle.new.slot.held }
{
    on_held!(alloc, handle, mut Builder(builder) => builder.fails(site, k))
}

/// Sets what the meal of job `k` of a site, from 1, does to the value of each edge of the site: it sets the value to
/// the amount, or adds the amount.
#[unsafe(no_mangle)]
pub extern "C" fn dine_raw_plan_builder_act(
    alloc: Global,
    handle: &mut Handle,
    site: u32,
    k: u32,
    sets: bool,
    amount: u32,
) -> i64
    ensures becomes { BuilderCall (λ result old new. ChangesOrRefuses (nat_le amount MAX_NUMBER)
        (fault.ActTooLarge site) (has_job site k old) (with_act site k (act_of sets amount) old) result old new) result
        handle.old.slot.held handle.new.slot.held }
{
    on_held!(alloc, handle, mut Builder(builder) => builder.act(site, k, sets, amount))
}

/// Makes the plan of what the handle `builder` holds, which stays as it is. The handle `plan`, which is closed, holds
/// the plan then.
#[unsafe(no_mangle)]
pub extern "C" fn dine_raw_plan_builder_finish(
    alloc: Global,
    builder: &mut Handle,
    plan: &mut Handle,
) -> i64
    ensures builder { builder.new.slot.held ≡ builder.old.slot.held }
    ensures plan { IsOkOr result
        (HoldsBuilder (λ d. (first_fault_of d ≡ None) × HoldsPlan (λ p. p ≡ plan_of_draft d) plan.new.slot.held)
        builder.old.slot.held) (plan.new.slot.held ≡ plan.old.slot.held) }
    ensures open { plan.old.slot.held ≢ None → result ≡ open_already }
    ensures refused { plan.old.slot.held ≡ None → IsDoneOr result Unit
        (OfHeld builder.old.slot.held result (λ object. OfBuilder object result (λ d. IsNoPlan d result))) }
{
    if plan.is_open() {
        return OPEN_ALREADY;
    }
    let Some(contents) = builder.take(alloc) else {
        return CLOSED;
    };
    let answer = open_built(alloc, &contents, plan);
    builder.put(contents);
    answer
}

fn open_built(alloc: Global, contents: &Contents, handle: &mut Handle) -> i64
    requires { handle.old.slot.held ≡ None }
    ensures plan { IsOkOr result
        (OnBuilder (λ d. (first_fault_of d ≡ None) × HoldsPlan (λ p. p ≡ plan_of_draft d) handle.new.slot.held)
        contents.now.object) (handle.new.slot.held ≡ handle.old.slot.held) }
    ensures refused { IsDoneOr result Unit (OfBuilder contents.now.object result (λ d. IsNoPlan d result)) }
{
    match &contents.object {
        Object::Builder(builder) => open_plan_of(alloc, builder, handle),
        Object::Plan(_) | Object::World(_) | Object::Site(_) => OTHER_KIND,
    }
}

fn open_plan_of(alloc: Global, builder: &OwnBuilder, handle: &mut Handle) -> i64
    requires { handle.old.slot.held ≡ None }
    ensures plan { IsOkOr result
        ((first_fault_of builder.now ≡ None) × HoldsPlan (λ p. p ≡ plan_of_draft builder.now) handle.new.slot.held)
        (handle.new.slot.held ≡ handle.old.slot.held) }
    ensures refused { IsDoneOr result Unit (IsNoPlan builder.now result) }
{
    let plan = match builder.finish() {
        Ok(plan) => plan,
        Err(fault) => return plan_status(fault),
    };
    match OwnPlan::of(alloc, plan) {
        Ok(plan) => open(alloc, Object::Plan(plan), handle),
        Err(_) => MEMORY,
    }
}
