//! The fork that arrives.
ghost use Rattle.std.specs.Prelude.{◌≡◌, ℕ, ◌+◌, ◌*◌, ◌<◌, ◌≤◌, ◌^◌, [], IfErr, IfOk, MatchOption, true};
ghost use Rattle.std.specs.Prelude.{vec_capacity};
ghost use Rattle.dine_token.specs.declared.limits.TheConstants.{MAX_JOBS, MAX_NUMBER};
ghost use Rattle.dine_token.specs.Fork.{IsFork, MayEat, after_meal, location};
ghost use Rattle.dine_token.specs.Log.{moves_of};
ghost use Rattle.dine_token.specs.Values.{IsAct, value_after_act};
ghost use Rattle.dine_graph.specs.Plan.{IsPlan, edge_count, job_count, site_count};
ghost use Rattle.dine_rules.specs.Values.{after_meals};
ghost use Rattle.dine_rules.specs.Steps.{opened_fork};
ghost use Rattle.dine_wire.specs.Arrivals.{CarriesOn, DoesNotArrive, IsOfPlan, MayCarryOn, carried_on, meals_here};
ghost use Rattle.dine_wire.specs.Notes.{fork_note, moves_noted};

use crate::note::{ForkNote, moves_noted, other_end};
use crate::wire_fault::WireFault;
use dine_graph::Plan;
use dine_token::{Act, Fork, Held, Meal};
use std::alloc::{AllocError, Global};

/// Why a fork did not arrive, and the fork that was kept, as it was.
#[derive(Drop)]
pub struct NotArrived {
    pub kept: Fork,
    pub fault: WireFault,
}

/// Opens the fork of the edge as it is before the first event. The higher end of the edge keeps it at the start.
///
/// # Errors
///
/// `AllocError` if an allocation fails.
pub fn first_fork(alloc: Global, plan: &Plan, edge: u32) -> Result<Fork, AllocError>
    requires { edge < edge_count plan.now }
    ensures fork { IfOk result (λ fork. fork ≡ opened_fork plan.now edge) }
    ensures of_plan { IfOk result (IsOfPlan plan.now) }
{
    let (lower, higher) = plan.ends(edge);
    let lower_due = plan.jobs(lower);
    let higher_due = plan.jobs(higher);
    let value = plan.value(edge);
    Fork::open(alloc, edge, lower, higher, lower_due, higher_due, value)
}

/// Returns the fork that arrives with this note: the fork that was kept, after the meals that the note reports, with
/// the acts of the plan, and a Move to this end.
///
/// # Errors
///
/// `Unlawful` if the other end cannot have done that with the fork, or if the fork is not of this plan. `Memory` if an
/// allocation fails. The fork that was kept is returned as it was.
pub fn arrive(alloc: Global, plan: &Plan, kept: Fork, note: ForkNote) -> Result<Fork, NotArrived>
    ensures arrived { IfOk result
        (λ fork. (n : ℕ) × MayCarryOn kept n × (fork ≡ carried_on plan.now kept n) × (note ≡ fork_note fork)) }
    ensures kept { IfErr result (λ e. e.kept ≡ kept) }
    ensures refused { IfErr result (λ e. DoesNotArrive plan.now kept note e.fault) }
{
    let Some(meals) = meals_reported(plan, &kept, note) else {
        let fault = WireFault::Unlawful;
        return Err(NotArrived { kept, fault });
    };
    match Vec::with_capacity(alloc, 1) {
        Ok(hands) => Ok(carry_on(plan, kept, meals, hands)),
        Err(_) => {
            let fault = WireFault::Memory;
            Err(NotArrived { kept, fault })
        }
    }
}

// The number of meals that the end where the fork is ate with it since, if it can have done what the note reports.
#[tactic(auto, using(crate::proofs::Arriving::reported))]
fn meals_reported(plan: &Plan, fork: &Fork, note: ForkNote) -> Option<u32>
    ensures meals { MatchOption result ((n : ℕ) → CarriesOn plan.now fork.now note n → ⊥)
        (λ n. CarriesOn plan.now fork.now note n) }
    ensures fork { IsFork fork.now }
    ensures plan { IsPlan plan.now }
{
    if !is_of_plan(plan, fork) {
        return None;
    }
    let ate = meals_here(fork);
    if note.ate < ate {
        return None;
    }
    let meals = note.ate - ate;
    if !may_carry_on(fork, meals) || !is_moved_once(fork, note.moves) {
        return None;
    }
    if note.value != value_after(plan, fork, meals) {
        return None;
    }
    Some(meals)
}

fn meals_here(fork: &Fork) -> u32
    ensures { result ≡ meals_here fork.now }
{
    fork.meals_of(fork.at())
}

// Whether a note has this number of Moves after one more Move of the fork.
fn is_moved_once(fork: &Fork, moves: u32) -> bool
    ensures is { result ≡ true → moves ≡ moves_noted (moves_of fork.now.log + 1) }
    ensures is_not { moves ≡ moves_noted (moves_of fork.now.log + 1) → result ≡ true }
{
    moves == moves_noted(fork.moves() + 1)
}

fn is_of_plan(plan: &Plan, fork: &Fork) -> bool
    ensures is { result ≡ true → IsOfPlan plan.now fork.now }
    ensures is_not { IsOfPlan plan.now fork.now → result ≡ true }
    ensures fork { IsFork fork.now }
    ensures plan { IsPlan plan.now }
{
    let edge = fork.edge();
    let ends = fork.ends();
    if plan.edges() <= edge || ends != plan.ends(edge) {
        return false;
    }
    let (lower, higher) = ends;
    fork.due_of(lower) == plan.jobs(lower) && fork.due_of(higher) == plan.jobs(higher)
}

fn may_carry_on(fork: &Fork, meals: u32) -> bool
    ensures may { result ≡ true → MayCarryOn fork.now meals }
    ensures may_not { MayCarryOn fork.now meals → result ≡ true }
{
    let site = fork.at();
    let to = other_end(fork, site);
    (fork.is_dirty() || 0 < meals)
        && meals <= fork.due_of(site) - fork.meals_of(site)
        && fork.meals_of(to) < fork.due_of(to)
}

// The value of the fork after these meals of the end where it is.
fn value_after(plan: &Plan, fork: &Fork, meals: u32) -> u64
    requires plan { IsPlan plan.now }
    requires fork { IsFork fork.now }
    requires of_plan { IsOfPlan plan.now fork.now }
    requires may { MayCarryOn fork.now meals }
    ensures { result ≡ after_meals plan.now (location fork.now) (meals_here fork.now + 1) meals fork.now.value }
{
    let site = fork.at();
    value_of(plan, site, fork.meals_of(site), meals, fork.value())
}

// The value after the next meals of the site, which ate `ate` times before.
fn value_of(plan: &Plan, site: u32, ate: u32, meals: u32, value: u64) -> u64
    requires site { site < site_count plan.now }
    requires within { ate + meals ≤ job_count plan.now site }
    requires few { ate + meals ≤ MAX_JOBS }
    requires bounded { value + MAX_NUMBER * meals < 2 ^ 64 }
    ensures { result ≡ after_meals plan.now site (ate + 1) meals value }
{
    let mut value = value;
    for i in 0..meals {
        value = after_act(plan.job(site, ate + 1 + i).act, value);
    }
    value
}

fn after_act(act: Act, value: u64) -> u64
    requires { value_after_act act value < 2 ^ 64 }
    ensures { result ≡ value_after_act act value }
{
    match act {
        Act::Add(amount) => value + amount,
        Act::Set(amount) => amount,
    }
}

// The fork after these meals of the end where it is, and a Move to the other end. `hands` is empty, and has capacity
// for one fork.
fn carry_on(plan: &Plan, fork: Fork, meals: u32, hands: Vec<Held>) -> Fork
    requires plan { IsPlan plan.now }
    requires fork { IsFork fork }
    requires of_plan { IsOfPlan plan.now fork }
    requires may { MayCarryOn fork meals }
    requires empty { hands.items ≡ [] }
    requires capacity { 1 ≤ vec_capacity hands }
    ensures { result ≡ carried_on plan.now fork meals }
{
    let site = fork.at();
    let to = other_end(&fork, site);
    let ate = fork.meals_of(site);
    let mut fork = fork;
    let mut hands = hands;
    for i in 0..meals {
        let k = ate + 1 + i;
        let act = plan.job(site, k).act;
        (fork, hands) = eat(fork, site, k, act, hands);
    }
    hands.destroy_empty();
    Held::take(fork).give(to)
}

// The fork after this meal, and the empty list.
fn eat(fork: Fork, site: u32, k: u32, act: Act, hands: Vec<Held>) -> (Fork, Vec<Held>)
    requires may { MayEat site k fork }
    requires act { IsAct act }
    requires empty { hands.items ≡ [] }
    requires capacity { 1 ≤ vec_capacity hands }
    ensures fork { result.0 ≡ after_meal site k act fork }
    ensures empty { result.1.items ≡ [] }
    ensures capacity { 1 ≤ vec_capacity result.1 }
{
    let mut hands = hands;
    hands.push_reserved(Held::take(fork));
    let mut hands = Meal::begin(site, k, act, hands).end();
    let held = hands.take_last();
    (held.keep(), hands)
}
