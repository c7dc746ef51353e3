//! What a hungry site waits for.
ghost use Rattle.std.specs.Prelude.{◌≡◌, ◌<◌, All, IfOk, OnOk, false, map, true};
ghost use Rattle.dine_graph.specs.Plan.{site_count};
ghost use Rattle.dine_rules.specs.Holdings.{fork_at, token_at};
ghost use Rattle.dine_rules.specs.Letters.{forks_in};
ghost use Rattle.dine_rules.specs.Links.{queue_to};
ghost use Rattle.dine_rules.specs.Steps.{is_ready};
ghost use Rattle.dine_rules.specs.World.{WorldState, place_of, state_of};
ghost use Rattle.dine_world.specs.Worlds.{IsWorldOf};
ghost use Rattle.dine_states.specs.Ends.{IsEnd};
ghost use Rattle.dine_states.specs.Waits.{AddsWait, IsWait, keeps_by, places_waited};

use crate::ends::End;
use crate::readers::{holds_fork, holds_token, is_dirty, is_eating, is_fork_coming, is_hungry};
use dine_graph::Plan;
use dine_world::World;
use std::alloc::{AllocError, Global};

/// Why an edge keeps a hungry site from eating.
#[derive(Clone, Copy, Debug, PartialEq, Eq)]
pub enum Cause {
    /// The site has the token, and has not asked yet.
    NotAsked,
    /// Its request is on its way.
    RequestSent,
    /// The neighbour was asked, and may give the fork, which is dirty.
    MayGive,
    /// The neighbour was asked, and eats.
    Eats,
    /// The neighbour was asked, and keeps the fork clean until it has eaten.
    KeepsClean,
    /// The fork is on its way to the site.
    ForkSent,
    /// The site has the fork, dirty, and was asked for it: it gives it first.
    Owes,
}

/// An edge that keeps a hungry site from eating.
#[derive(Clone, Copy, Debug, PartialEq, Eq)]
pub struct Wait {
    /// The place of the edge at the site.
    pub place: u32,
    pub edge: u32,
    /// The neighbour at the edge.
    pub from: u32,
    pub why: Cause,
}

impl Cause {
    /// Returns the name that docs/STATES.md has.
    pub fn name(self) -> &'static str {
        match self {
            Cause::NotAsked => "not_asked",
            Cause::RequestSent => "request_sent",
            Cause::MayGive => "may_give",
            Cause::Eats => "eats",
            Cause::KeepsClean => "keeps_clean",
            Cause::ForkSent => "fork_sent",
            Cause::Owes => "owes",
        }
    }
}

/// Returns each edge that keeps the site from eating, in the order of its places, if the site is hungry; else nothing.
///
/// # Errors
///
/// `AllocError` if an allocation fails.
pub fn waits_of(
    alloc: Global,
    plan: &Plan,
    world: &World,
    site: u32,
) -> Result<Vec<Wait>, AllocError>
    requires { site < site_count plan.now }
    ensures places { IfOk result (λ waits. (state : WorldState) → IsWorldOf plan.now state world.now
        → map (λ wait. wait.place) waits.items ≡ places_waited plan.now site (state_of state site)) }
    ensures causes { IfOk result (λ waits. (state : WorldState) → IsWorldOf plan.now state world.now
        → All (IsWait plan.now state site) waits.items) }
{
    let mut waits = Vec::new(alloc);
    if !is_hungry(world, site) {
        return Ok(waits);
    }
    for place in 0..plan.edges_of(site).len() as u32 {
        if let Some(end) = End::at(plan, site, place) {
            add_wait(&mut waits, plan, world, end)?;
        }
    }
    Ok(waits)
}

// Adds the wait of a hungry site at this end, unless the end is ready.
fn add_wait(waits: &mut Vec<Wait>, plan: &Plan, world: &World, end: End) -> Result<(), AllocError>
    requires { IsEnd plan.now end }
    ensures { OnOk result ((state : WorldState) → IsWorldOf plan.now state world.now
        → AddsWait plan.now state end waits.old.items waits.new.items) }
{
    if is_ready(plan, world, end) {
        return Ok(());
    }
    waits.push(wait_at(plan, world, end))?;
    Ok(())
}

// Whether the site at the end holds the fork, and the fork is clean or was not asked for.
fn is_ready(plan: &Plan, world: &World, end: End) -> bool
    requires { IsEnd plan.now end }
    ensures { (state : WorldState) → IsWorldOf plan.now state world.now
        → result ≡ is_ready plan.now end.site (state_of state end.site) end.place }
{
    if !holds_fork(plan, world, end) {
        return false;
    }
    if !is_dirty(plan, world, end) {
        return true;
    }
    !holds_token(plan, world, end)
}

// The wait of a hungry site at this end, which is not ready.
fn wait_at(plan: &Plan, world: &World, end: End) -> Wait
    requires { IsEnd plan.now end }
    ensures place { result.place ≡ end.place }
    ensures is { (state : WorldState) → IsWorldOf plan.now state world.now
        → is_ready plan.now end.site (state_of state end.site) end.place ≡ false
        → IsWait plan.now state end.site result }
{
    Wait {
        place: end.place,
        edge: end.edge,
        from: end.neighbour,
        why: cause_at(plan, world, end),
    }
}

// Why this end, which is not ready, keeps its site from eating.
fn cause_at(plan: &Plan, world: &World, end: End) -> Cause
    requires { IsEnd plan.now end }
    ensures { (state : WorldState) → IsWorldOf plan.now state world.now
        → is_ready plan.now end.site (state_of state end.site) end.place ≡ false
        → keeps_by plan.now state end.site end.place end.neighbour (place_of plan.now end.neighbour end.edge) result
        ≡ true }
{
    if holds_fork(plan, world, end) {
        return Cause::Owes;
    }
    if is_fork_coming(plan, world, end) {
        return Cause::ForkSent;
    }
    if holds_token(plan, world, end) {
        return Cause::NotAsked;
    }
    cause_across(plan, world, end, End::new(plan, end.edge, end.neighbour))
}

// Why the other end keeps the fork, which neither is at this end nor on its way to it. The token is not at this end.
fn cause_across(plan: &Plan, world: &World, end: End, other: End) -> Cause
    requires end { IsEnd plan.now end }
    requires other { IsEnd plan.now other }
    requires edge { other.edge ≡ end.edge }
    requires site { other.site ≡ end.neighbour }
    ensures { (state : WorldState) → IsWorldOf plan.now state world.now
        → fork_at plan.now end.site (state_of state end.site) end.place ≡ 0
        → forks_in (queue_to plan.now state end.site end.place) ≡ 0
        → token_at plan.now end.site (state_of state end.site) end.place ≡ 0
        → keeps_by plan.now state end.site end.place other.site other.place result ≡ true }
{
    if !holds_token(plan, world, other) {
        return Cause::RequestSent;
    }
    if is_eating(world, other.site) {
        return Cause::Eats;
    }
    if is_dirty(plan, world, other) {
        return Cause::MayGive;
    }
    Cause::KeepsClean
}
