//! The schedule of a run on threads.
ghost use Rattle.std.specs.Prelude.{◌≡◌, ◌≢◌, IfOk, Some, false, length, slice_get, true};
ghost use Rattle.dine_rules.specs.Schedules.{from_here, replay};
ghost use Rattle.dine_rules.specs.World.{Reaches, WorldState, enabled_events, is_enabled, start};
ghost use Rattle.dine_world.specs.Worlds.{IsWorldOf};
ghost use Rattle.dine_trace.specs.Runs.{AreOfRun};

use crate::fault_lines::Fault;
use dine::{PlanDiner, open_diners};
use dine_link::{ChannelLane, Lane, RingLane};
use dine_plan::Plan;
use dine_rules::laws;
use dine_run::{order_of, run};
use dine_words::Links;
use dine_world::{Event, World};
use std::alloc::{AllocError, Global};
use std::sync::Wait;
use std::thread::Threads;

/// Runs every site of the plan on a thread of its own, over links of this kind. Returns choices that lead a world of
/// the plan through the events of the run, to the forks that the run gathered. It may wait.
pub fn choices_of_run<H: Threads + Wait + Copy + Send + 'static>(
    rt: &H,
    alloc: Global,
    plan: &Plan,
    links: Links,
) -> Result<Vec<u32>, Fault>
    ensures { IfOk result (λ choices. AreOfRun plan.now choices.items) }
{
    match links {
        Links::Channel => choices_over::<ChannelLane, H>(rt, alloc, plan),
        Links::Ring => choices_over::<RingLane, H>(rt, alloc, plan),
    }
}

// The same over links of a lane.
fn choices_over<L: Lane + 'static, H: Threads + Wait + Copy + Send + 'static>(
    rt: &H,
    alloc: Global,
    plan: &Plan,
) -> Result<Vec<u32>, Fault>
where
    L::Tx: 'static,
    L::ClosedTx: 'static,
    L::Rx: 'static,
    ensures { IfOk result (λ choices. AreOfRun plan.now choices.items) }
{
    dine::laws::orders_of_plan_diners_are_of_the_plan();
    dine_run::laws::orders_give_the_gathered_forks();
    let diners = open_diners(alloc, plan)?;
    let gathered = run::<L, PlanDiner>(rt, alloc, plan, diners)?;
    let events = order_of(alloc, plan, &gathered)?;
    Ok(choices_of(alloc, plan, events.as_slice())?)
}

// Returns the choices that do these events, which a world of the plan accepts from its start.
fn choices_of(alloc: Global, plan: &Plan, events: &[Event]) -> Result<Vec<u32>, AllocError>
    requires { (world : WorldState) × Reaches plan.now events.now world }
    ensures { (world : WorldState) → Reaches plan.now events.now world → IfOk result (λ choices.
        replay plan.now (from_here (start plan.now)) choices.items
        ≡ record { world = world; events = length events.now }) }
{
    let mut world = World::open(alloc, plan)?;
    let choices = choices_in(alloc, plan, &mut world, events);
    let _ = world.into_forks();
    choices
}

// Does the events in the world, which is at its start, and returns the number that each has among those that are
// enabled then.
fn choices_in(
    alloc: Global,
    plan: &Plan,
    world: &mut World,
    events: &[Event],
) -> Result<Vec<u32>, AllocError>
    requires opened { IsWorldOf plan.now (start plan.now) world.old }
    requires accepted { (end : WorldState) × Reaches plan.now events.now end }
    ensures { (end : WorldState) → Reaches plan.now events.now end → IfOk result (λ choices.
        replay plan.now (from_here (start plan.now)) choices.items
        ≡ record { world = end; events = length events.now }) }
{
    let mut choices = Vec::new(alloc);
    for event in events {
        let choice = number_of(plan, world, *event);
        choices.push(choice)?;
        let _ = world.step(*event);
    }
    Ok(choices)
}

// Returns the number of an enabled event among those that are enabled.
fn number_of(plan: &Plan, world: &World, event: Event) -> u32
    requires { (state : WorldState) × IsWorldOf plan.now state world.now × (is_enabled plan.now state event ≡ true) }
    ensures { (state : WorldState) → IsWorldOf plan.now state world.now
        → slice_get (enabled_events plan.now state) result ≡ Some event }
{
    laws::enabled_events_are_all_listed();
    let _ = plan;
    for number in 0..world.count() {
        if is_same(&world.enabled(number), &Some(event)) {
            return number;
        }
    }
    unreachable!()
}

// Returns whether the two are equal.
fn is_same<T: Eq>(one: &T, other: &T) -> bool
    ensures same { result ≡ T.eq one.now other.now }
    ensures differs { result ≡ false → one.now ≢ other.now }
{
    one == other
}
