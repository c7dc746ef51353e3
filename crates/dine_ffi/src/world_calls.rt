//! The calls of a world.
ghost use Rattle.std.specs.Prelude.{◌≡◌, ◌≢◌, ℕ, MatchOption, None, length, pos, slice_get};
ghost use Rattle.dine_rules.specs.Bound.{bound_of};
ghost use Rattle.dine_rules.specs.Schedules.{finish_within, from_here, replay};
ghost use Rattle.dine_rules.specs.World.{IsComplete, enabled_events, start};
ghost use Rattle.dine_world.specs.Worlds.{ForEachWorld, IsWorldOf, RunsTo, forks_seen};
ghost use Rattle.dine_ffi.specs.Answers.{IsDoneOr, IsOkOr, Reports, done, memory, no_such, number_of, open_already};
ghost use Rattle.dine_ffi.specs.Events.{kind_numbered, seen_event};
ghost use Rattle.dine_ffi.specs.Contents.{HoldsPlan, HoldsWorld, OfHeld, OfPlan, OfWorld, OnPlan, StepsWorldOrRefuses};
ghost use Rattle.dine_ffi.specs.Contents.{WorldCall};
ghost use Rattle.dine_ffi.specs.Written.{ArePeriods};

use crate::contents::{Contents, Object};
use crate::event::DineEvent;
use crate::handle::Handle;
use crate::on_held::on_held;
use crate::own_world::OwnWorld;
use crate::plan_calls::open;
use crate::status::{CLOSED, MEMORY, OPEN_ALREADY, OTHER_KIND};
use std::alloc::Global;

/// Opens the world of the plan that the handle `plan` holds. The handle `world`, which is closed, holds it then.
#[unsafe(no_mangle)]
pub extern "C" fn dine_raw_world_open(alloc: Global, plan: &mut Handle, world: &mut Handle) -> i64
    ensures plan { plan.new.slot.held ≡ plan.old.slot.held }
    ensures world { IsOkOr result
        (HoldsPlan (λ p. HoldsWorld (IsWorldOf p (start p)) world.new.slot.held) plan.old.slot.held)
        (world.new.slot.held ≡ world.old.slot.held) }
    ensures open { world.old.slot.held ≢ None → result ≡ open_already }
    ensures refused { world.old.slot.held ≡ None → IsDoneOr result Unit
        (OfHeld plan.old.slot.held result (λ object. OfPlan object result (λ _. result ≡ memory))) }
{
    if world.is_open() {
        return OPEN_ALREADY;
    }
    let Some(contents) = plan.take(alloc) else {
        return CLOSED;
    };
    let answer = open_world(alloc, &contents, world);
    plan.put(contents);
    answer
}

fn open_world(alloc: Global, contents: &Contents, handle: &mut Handle) -> i64
    requires { handle.old.slot.held ≡ None }
    ensures world { IsOkOr result
        (OnPlan (λ p. HoldsWorld (IsWorldOf p (start p)) handle.new.slot.held) contents.now.object)
        (handle.new.slot.held ≡ handle.old.slot.held) }
    ensures refused { IsDoneOr result Unit (OfPlan contents.now.object result (λ _. result ≡ memory)) }
{
    match &contents.object {
        Object::Plan(plan) => match OwnWorld::open(alloc, plan.plan()) {
            Ok(world) => open(alloc, Object::World(world), handle),
            Err(_) => MEMORY,
        },
        Object::World(_) | Object::Site(_) | Object::Builder(_) => OTHER_KIND,
    }
}

/// Returns the greatest number of events of the plan.
#[unsafe(no_mangle)]
pub extern "C" fn dine_raw_world_bound(alloc: Global, handle: &mut Handle) -> i64
    ensures same { handle.new.slot.held ≡ handle.old.slot.held }
    ensures answer { OfHeld handle.old.slot.held result (λ object. OfWorld object result
        (λ w. ForEachWorld w (λ plan world. Reports result (bound_of plan)))) }
{
    on_held!(alloc, handle, World(world) => world.bound())
}

/// Returns the number of enabled events.
#[unsafe(no_mangle)]
pub extern "C" fn dine_raw_world_count(alloc: Global, handle: &mut Handle) -> i64
    ensures same { handle.new.slot.held ≡ handle.old.slot.held }
    ensures answer { OfHeld handle.old.slot.held result (λ object. OfWorld object result
        (λ w. ForEachWorld w (λ plan world. result ≡ pos (length (enabled_events plan world))))) }
{
    on_held!(alloc, handle, World(world) => world.count())
}

/// Writes the n-th enabled event, from 0.
#[unsafe(no_mangle)]
pub extern "C" fn dine_raw_world_enabled(
    alloc: Global,
    handle: &mut Handle,
    n: u32,
    out: &mut DineEvent,
) -> i64
    ensures same { handle.new.slot.held ≡ handle.old.slot.held }
    ensures answer { OfHeld handle.old.slot.held result (λ object. OfWorld object result
        (λ w. ForEachWorld w (λ plan world. MatchOption (slice_get (enabled_events plan world) n)
        ((result ≡ no_such) × (out.new ≡ out.old)) (λ event. (result ≡ done)
        × (out.new ≡ seen_event event.site event.kind))))) }
    ensures unwritten { IsDoneOr result Unit (out.new ≡ out.old) }
{
    on_held!(alloc, handle, World(world) => world.enabled(n, out))
}

/// Does the event.
#[unsafe(no_mangle)]
pub extern "C" fn dine_raw_world_step(alloc: Global, handle: &mut Handle, event: &DineEvent) -> i64
    ensures becomes { WorldCall (λ result old new. MatchOption (kind_numbered event.now.kind event.now.place)
        ((result ≡ no_such) × (new ≡ old))
        (λ kind. StepsWorldOrRefuses (record { site = event.now.site; kind = kind }) result old new)) result
        handle.old.slot.held handle.new.slot.held }
{
    on_held!(alloc, handle, mut World(world) => world.step(*event))
}

/// Does the enabled event that each choice names by its number. Returns the number of events.
#[unsafe(no_mangle)]
pub extern "C" fn dine_raw_world_replay(alloc: Global, handle: &mut Handle, choices: &[u32]) -> i64
    ensures becomes { WorldCall (λ result old new. (events : ℕ) × Reports result events
        × ForEachWorld old (λ plan world. RunsTo plan (replay plan (from_here world) choices.now) events new)) result
        handle.old.slot.held handle.new.slot.held }
{
    on_held!(alloc, handle, mut World(world) => world.replay(choices))
}

/// Does the first enabled event until none is enabled. Returns the number of events.
#[unsafe(no_mangle)]
pub extern "C" fn dine_raw_world_finish(alloc: Global, handle: &mut Handle) -> i64
    ensures becomes { WorldCall (λ result old new. ForEachWorld new (λ plan world. IsComplete plan world)
        × ((events : ℕ) × Reports result events × ForEachWorld old
        (λ plan world. RunsTo plan (finish_within (bound_of plan) plan (from_here world)) events new))) result
        handle.old.slot.held handle.new.slot.held }
{
    on_held!(alloc, handle, mut World(world) => world.finish())
}

/// Returns 0 if the site thinks, 1 if it is hungry, 2 if it eats.
#[unsafe(no_mangle)]
pub extern "C" fn dine_raw_world_phase(alloc: Global, handle: &mut Handle, site: u32) -> i64
    ensures same { handle.new.slot.held ≡ handle.old.slot.held }
    ensures answer { OfHeld handle.old.slot.held result (λ object. OfWorld object result
        (λ w. ForEachWorld w (λ plan world. MatchOption (slice_get world site) (result ≡ no_such)
        (λ state. result ≡ pos (number_of state.phase))))) }
{
    on_held!(alloc, handle, World(world) => world.phase(site))
}

/// Returns the number of meals that the site began.
#[unsafe(no_mangle)]
pub extern "C" fn dine_raw_world_ate(alloc: Global, handle: &mut Handle, site: u32) -> i64
    ensures same { handle.new.slot.held ≡ handle.old.slot.held }
    ensures answer { OfHeld handle.old.slot.held result (λ object. OfWorld object result
        (λ w. ForEachWorld w (λ plan world. MatchOption (slice_get world site) (result ≡ no_such)
        (λ state. result ≡ pos state.ate)))) }
{
    on_held!(alloc, handle, World(world) => world.ate(site))
}

/// Writes the periods of the log of the edge's fork, three numbers for each, and returns how many periods there are.
#[unsafe(no_mangle)]
pub extern "C" fn dine_raw_world_fork(
    alloc: Global,
    handle: &mut Handle,
    edge: u32,
    out: &mut [u32],
) -> i64
    ensures same { handle.new.slot.held ≡ handle.old.slot.held }
    ensures answer { OfHeld handle.old.slot.held result (λ object. OfWorld object result
        (λ w. ForEachWorld w (λ plan world. MatchOption (slice_get (forks_seen plan world) edge)
        ((result ≡ no_such) × (out.new ≡ out.old)) (λ fork. ArePeriods fork out.old out.new result)))) }
    ensures unwritten { IsDoneOr result Unit (out.new ≡ out.old) }
{
    on_held!(alloc, handle, World(world) => world.periods(edge, out))
}

/// Returns the value of the edge's fork.
#[unsafe(no_mangle)]
pub extern "C" fn dine_raw_world_value(alloc: Global, handle: &mut Handle, edge: u32) -> i64
    ensures same { handle.new.slot.held ≡ handle.old.slot.held }
    ensures answer { OfHeld handle.old.slot.held result (λ object. OfWorld object result
        (λ w. ForEachWorld w (λ plan world. MatchOption (slice_get (forks_seen plan world) edge)
        (result ≡ no_such) (λ fork. Reports result fork.value)))) }
{
    on_held!(alloc, handle, World(world) => world.value(edge))
}
