//! What holds of a site of a world and of one of its places.
ghost use Rattle.std.specs.Prelude.{◌≡◌, ◌<◌, ◌==◌, ◌&&◌, length};
ghost use Rattle.dine_token.specs.Log as log;
ghost use Rattle.dine_graph.specs.Plan.{job_count, site_count};
ghost use Rattle.dine_rules.specs.Holdings.{fork_at, hand_at, token_at};
ghost use Rattle.dine_rules.specs.Letters.{forks_in};
ghost use Rattle.dine_rules.specs.Links.{queue_to};
ghost use Rattle.dine_rules.specs.Local as local;
ghost use Rattle.dine_rules.specs.Local.{traffic_at};
ghost use Rattle.dine_rules.specs.World.{WorldState, is_enabled, state_of};
ghost use Rattle.dine_world.specs.Whereabouts.{said_in};
ghost use Rattle.dine_world.specs.Worlds.{ForEachWorld, IsWorldOf};
ghost use Rattle.dine_states.specs.Ends.{IsEnd, is_at, is_going_to};
ghost use Rattle.dine_states.specs.Reasons.{is_waiting};

use crate::ends::End;
use dine_graph::Plan;
use dine_world::{DoneAndClose, Event, EventKind, Phase, Whereabouts, World};

/// Returns whether the site is hungry.
pub(crate) fn is_hungry(world: &World, site: u32) -> bool
    ensures { ForEachWorld world.now (λ plan state. result ≡ local.is_hungry (state_of state site).phase) }
{
    match world.phase(site) {
        Some(phase) => is_phase_hungry(phase),
        None => false,
    }
}

// Whether a site of this phase is hungry.
fn is_phase_hungry(phase: Phase) -> bool
    ensures { result ≡ local.is_hungry phase }
{
    match phase {
        Phase::Thinking => false,
        Phase::Hungry => true,
        Phase::Eating => false,
    }
}

/// Returns whether the site eats.
pub(crate) fn is_eating(world: &World, site: u32) -> bool
    ensures { ForEachWorld world.now (λ plan state. result ≡ local.is_eating (state_of state site).phase) }
{
    match world.phase(site) {
        Some(phase) => is_phase_eating(phase),
        None => false,
    }
}

// Whether a site of this phase eats.
fn is_phase_eating(phase: Phase) -> bool
    ensures { result ≡ local.is_eating phase }
{
    match phase {
        Phase::Thinking => false,
        Phase::Hungry => false,
        Phase::Eating => true,
    }
}

/// Returns whether the site is hungry and waits at some place.
pub(crate) fn is_waiting(plan: &Plan, world: &World, site: u32) -> bool
    requires { site < site_count plan.now }
    ensures { (state : WorldState) → IsWorldOf plan.now state world.now
        → result ≡ is_waiting plan.now site (state_of state site) }
{
    if !is_hungry(world, site) {
        return false;
    }
    !may(world, site, EventKind::Begin)
}

// Whether the site may do that.
fn may(world: &World, site: u32, kind: EventKind) -> bool
    ensures { ForEachWorld world.now
        (λ plan state. result ≡ is_enabled plan state (record { site = site; kind = kind })) }
{
    world.is_enabled(Event { site, kind })
}

/// Returns whether the site has to quit.
pub(crate) fn must_quit(plan: &Plan, world: &World, site: u32) -> bool
    requires { site < site_count plan.now }
    ensures { (state : WorldState) → IsWorldOf plan.now state world.now
        → result ≡ (state_of state site).must_quit }
{
    may(world, site, EventKind::Quit)
}

/// Returns whether the site has quit. Any other site that has a job left, and that neither is hungry nor eats, may grow
/// hungry or has to quit.
pub(crate) fn has_quit(plan: &Plan, world: &World, site: u32) -> bool
    requires { site < site_count plan.now }
    ensures { (state : WorldState) → IsWorldOf plan.now state world.now
        → result ≡ (state_of state site).has_quit }
{
    if is_hungry(world, site) {
        return false;
    }
    if is_eating(world, site) {
        return false;
    }
    if has_eaten_all(plan, world, site) {
        return false;
    }
    if may(world, site, EventKind::Hungry) {
        return false;
    }
    !must_quit(plan, world, site)
}

// Whether the site has begun a meal for each of its jobs.
fn has_eaten_all(plan: &Plan, world: &World, site: u32) -> bool
    requires { site < site_count plan.now }
    ensures { (state : WorldState) → IsWorldOf plan.now state world.now
        → result ≡ ((state_of state site).ate == job_count plan.now site) }
{
    match world.ate(site) {
        Some(meals) => meals == plan.jobs(site),
        None => false,
    }
}

/// Returns whether the site has no job left.
pub(crate) fn has_no_job_left(plan: &Plan, world: &World, site: u32) -> bool
    requires { site < site_count plan.now }
    ensures { (state : WorldState) → IsWorldOf plan.now state world.now
        → result ≡ local.has_no_job_left plan.now site (state_of state site) }
{
    if has_eaten_all(plan, world, site) {
        return true;
    }
    has_quit(plan, world, site)
}

/// Returns whether no letter is in the link to the end.
pub(crate) fn has_no_letter(plan: &Plan, world: &World, end: End) -> bool
    requires { IsEnd plan.now end }
    ensures { (state : WorldState) → IsWorldOf plan.now state world.now
        → result ≡ (length (queue_to plan.now state end.site end.place) == 0) }
{
    match world.letters_to(end.site, end.place) {
        Some(letters) => letters == 0,
        None => false,
    }
}

/// Returns whether the site at the end holds the fork.
pub(crate) fn holds_fork(plan: &Plan, world: &World, end: End) -> bool
    requires { IsEnd plan.now end }
    ensures { (state : WorldState) → IsWorldOf plan.now state world.now
        → result ≡ (fork_at plan.now end.site (state_of state end.site) end.place == 1) }
{
    is_at(world.where_is_fork(end.edge), end.site)
}

/// Returns whether the site at the end holds the token.
pub(crate) fn holds_token(plan: &Plan, world: &World, end: End) -> bool
    requires { IsEnd plan.now end }
    ensures { (state : WorldState) → IsWorldOf plan.now state world.now
        → result ≡ (token_at plan.now end.site (state_of state end.site) end.place == 1) }
{
    is_at(world.where_is_token(end.edge), end.site)
}

/// Returns whether the fork is on its way to the site at the end.
pub(crate) fn is_fork_coming(plan: &Plan, world: &World, end: End) -> bool
    requires { IsEnd plan.now end }
    ensures { (state : WorldState) → IsWorldOf plan.now state world.now
        → result ≡ (forks_in (queue_to plan.now state end.site end.place) == 1) }
{
    is_going_to(world.where_is_fork(end.edge), end.site)
}

/// Returns whether the fork that the site at the end holds is dirty.
pub(crate) fn is_dirty(plan: &Plan, world: &World, end: End) -> bool
    requires { IsEnd plan.now end }
    ensures { (state : WorldState) → IsWorldOf plan.now state world.now
        → fork_at plan.now end.site (state_of state end.site) end.place ≡ 1
        → result ≡ log.is_dirty (hand_at end.site (state_of state end.site) end.place) }
{
    match world.is_fork_dirty(end.edge) {
        Some(dirty) => dirty,
        None => false,
    }
}

/// Returns whether the site at the end holds the fork, and the fork is dirty.
pub(crate) fn holds_dirty_fork(plan: &Plan, world: &World, end: End) -> bool
    requires { IsEnd plan.now end }
    ensures { (state : WorldState) → IsWorldOf plan.now state world.now
        → result ≡ (fork_at plan.now end.site (state_of state end.site) end.place == 1
        && log.is_dirty (hand_at end.site (state_of state end.site) end.place)) }
{
    if !holds_fork(plan, world, end) {
        return false;
    }
    is_dirty(plan, world, end)
}

/// Returns which of Done and Close the site at the end has put and taken.
pub(crate) fn said_at(plan: &Plan, world: &World, end: End) -> DoneAndClose
    requires { IsEnd plan.now end }
    ensures { (state : WorldState) → IsWorldOf plan.now state world.now
        → result ≡ said_in (traffic_at (state_of state end.site) end.place) }
{
    match world.said(end.site, end.place) {
        Some(said) => said,
        None => DoneAndClose {
            done_put: false,
            done_taken: false,
            close_put: false,
            close_taken: false,
        },
    }
}

/// Returns whether something that was found there is at the site.
pub(crate) fn is_at(found: Option<Whereabouts>, site: u32) -> bool
    ensures { result ≡ is_at found site }
{
    match found {
        Some(Whereabouts::At(holder)) => holder == site,
        Some(Whereabouts::To(_)) => false,
        None => false,
    }
}

// Whether something that was found there is on its way to the site.
fn is_going_to(found: Option<Whereabouts>, site: u32) -> bool
    ensures { result ≡ is_going_to found site }
{
    match found {
        Some(Whereabouts::At(_)) => false,
        Some(Whereabouts::To(end)) => end == site,
        None => false,
    }
}
