// The forks that a site gave away, as they were then.
ghost use Rattle.std.specs.Prelude.{◌≡◌, ◌≢◌, ◌⊎◌, ◌<◌, ℕ, IfOk, MatchOption, MatchResult, None, Some, false, length};
ghost use Rattle.std.specs.Prelude.{map, pos, slice_get, slice_set, true};
ghost use Rattle.dine_graph.specs.Plan.{edge_count, edges_of, job_count, resigns, site_count};
ghost use Rattle.dine_token.specs.Fork.{SeenFork};
ghost use Rattle.dine_wire.specs.Arrivals.{MayCarryOn, carried_on};
ghost use Rattle.dine_wire.specs.Notes.{fork_note};
ghost use Rattle.dine_rules.specs.declared.breach.Breach.{Breach as SeenBreach};
ghost use Rattle.dine_ffi.specs.Answers.{IsRefused, breach_status};
ghost use Rattle.dine_ffi.specs.Shelves.{AwaitsFork, IsForkBreach, IsNotTakenBack, first_kept, kept_at, put_away};

use crate::status::{NO_SUCH, breach_status, wire_status};
use dine_graph::Plan;
use dine_rules::{Breach, Letter};
use dine_site::SiteCore;
use dine_token::Fork;
use dine_wire::{ForkNote, WireFault, arrive, first_fork};
use std::alloc::{AllocError, Global};
use std::mem;

/// The forks that the site has not at the start, by place.
pub(crate) fn first_shelf(
    alloc: Global,
    plan: &Plan,
    site: u32,
) -> Result<Vec<Option<Fork>>, AllocError>
    requires { site < site_count plan.now }
    ensures { IfOk result (λ shelf. shelf.items ≡ map (first_kept plan.now site) (edges_of plan.now site)) }
{
    let mut shelf = Vec::new(alloc);
    for edge in plan.edges_of(site) {
        let fork = first_kept(alloc, plan, site, *edge)?;
        shelf.push(fork)?;
    }
    Ok(shelf)
}

// The fork that the site keeps of the edge at the start, if it is the higher end.
#[tactic(auto, using(crate::proofs::FirstKept::kept_low, crate::proofs::FirstKept::kept_high))]
fn first_kept(alloc: Global, plan: &Plan, site: u32, edge: u32) -> Result<Option<Fork>, AllocError>
    requires { edge < edge_count plan.now }
    ensures { IfOk result (λ kept. kept ≡ first_kept plan.now site edge) }
{
    let (lower, _) = plan.ends(edge);
    if lower == site {
        return Ok(None);
    }
    let fork = first_fork(alloc, plan, edge)?;
    Ok(Some(fork))
}

/// Keeps the fork of a letter that is put at place `i`.
pub(crate) fn put_away(shelf: &mut Vec<Option<Fork>>, i: u32, letter: Letter)
    requires { i < length shelf.old.items }
    ensures { shelf.new.items ≡ put_away i letter shelf.old.items }
{
    if let Letter::Fork(fork) = letter {
        shelf[i as usize] = Some(fork);
    }
}

/// Takes the fork of place `i` from the shelf, after what the note reports of it. If it cannot arrive, the shelf is as
/// it was.
pub(crate) fn take_back(
    alloc: Global,
    plan: &Plan,
    shelf: &mut Vec<Option<Fork>>,
    i: u32,
    note: ForkNote,
) -> Result<Fork, i64>
    ensures back { MatchResult result
        (λ fork. (kept : SeenFork) × (n : ℕ) × (slice_get shelf.old.items i ≡ Some (Some kept)) × MayCarryOn kept n
        × (fork ≡ carried_on plan.now kept n) × (note ≡ fork_note fork)
        × (shelf.new.items ≡ slice_set shelf.old.items i None))
        (λ status. (status ≡ pos 0 → ⊥) × (shelf.new.items ≡ shelf.old.items)) }
    ensures refused { MatchResult result (λ _. Unit {0}) IsRefused }
    ensures why { MatchResult result (λ _. Unit {0})
        (λ status. i < length shelf.old.items → IsNotTakenBack plan.now (kept_at i shelf.old.items) note status) }
{
    let i = i as usize;
    if shelf.len() <= i {
        return Err(NO_SUCH);
    }
    let Some(kept) = mem::replace(&mut shelf[i], None) else {
        return Err(wire_status(WireFault::Unlawful));
    };
    match arrive(alloc, plan, kept, note) {
        Ok(fork) => Ok(fork),
        Err(refused) => {
            let status = wire_status(refused.fault);
            shelf[i] = Some(refused.kept);
            Err(status)
        }
    }
}

/// Why a fork with this note may not arrive at place `i` now, as far as that can be known before it arrives.
pub(crate) fn refusal_of(plan: &Plan, core: &SiteCore, i: u32, note: ForkNote) -> Option<i64>
    ensures awaits { MatchOption result (AwaitsFork plan.now core.now i note) (λ status. status ≡ pos 0 → ⊥) }
    ensures refused { MatchOption result (Unit {0}) IsRefused }
    ensures breach { MatchOption result (Unit {0}) (λ status. i < length core.now.places
        → (b : SeenBreach) × IsForkBreach plan.now core.now i note b × (status ≡ breach_status b)) }
{
    if core.degree() <= i {
        return Some(NO_SUCH);
    }
    if core.has_taken_close(i) {
        return Some(breach_status(Breach::AfterClose));
    }
    if core.has_fork(i) || core.has_token(i) {
        return Some(breach_status(Breach::ForkOutOfTurn));
    }
    if core.said(i).done_taken && !has_all(plan, core.neighbour(i), note.ate) {
        return Some(breach_status(Breach::StrangeFork));
    }
    None
}

// Whether the site has eaten all its meals if it has eaten these, or need not eat them all.
fn has_all(plan: &Plan, site: u32, ate: u32) -> bool
    ensures has { result ≡ true → (resigns plan.now site ≡ true) ⊎ (job_count plan.now site ≡ ate) }
    ensures has_not { result ≡ false → site < site_count plan.now
        → (resigns plan.now site ≡ false) × (job_count plan.now site ≢ ate) }
{
    site < plan.sites() && (plan.resigns(site) || plan.jobs(site) == ate)
}
