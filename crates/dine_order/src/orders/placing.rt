//! How the events of the journals are placed, one after the other.
ghost use Rattle.std.specs.Prelude.{◌≡◌, ◌<◌, IfOk, IfSome, List, ◌∷◌, [], ◌++◌, length, map, replicate};
ghost use Rattle.dine_graph.specs.Plan.{edges_of, site_count};
ghost use Rattle.dine_rules.specs.Steps.{IsPlaceWithin, shape_of};
ghost use Rattle.dine_rules.specs.World.{start};
ghost use Rattle.dine_rules.specs.declared.events.Event.{Event};
ghost use Rattle.dine_rules.specs.declared.events.EventKind.{EventKind};
ghost use Rattle.dine_world.specs.Worlds.{IsWorldOf, SeenWorld};
ghost use Rattle.dine_rules.specs.Shown.{plan_shown};
ghost use Rattle.dine_order.specs.private.Searching.{FindsNext, IsFound, IsSearched, IsSearching, kind_at, receiver_of};

use dine_graph::Plan;
use dine_rules::{Shape, laws};
use dine_set::BitSet64;
use dine_world::{Event, EventKind, World};
use std::alloc::{AllocError, Global};
use std::convert::AsSlice;

// Places events until no site is ready, and counts the events of each site.
pub(super) fn place_all<J: AsSlice<EventKind>>(
    alloc: Global,
    plan: &Plan,
    journals: &[J],
    world: &mut World,
    counts: &mut [u64],
) -> Result<Vec<Event>, AllocError>
    requires world { let shown = plan_shown plan.now (map J.items journals.now) in
        IsWorldOf shown (start shown) world.old }
    requires journals { length journals.now ≡ site_count plan.now }
    requires counts { counts.old ≡ replicate (site_count plan.now) 0 }
    ensures { IfOk result (λ placed.
        IsSearched (plan_shown plan.now (map J.items journals.now)) (map J.items journals.now)
        placed.items counts.new world.new) }
{
    laws::events_are_bounded();
    let mut placed = Vec::new(alloc);
    let mut untried = BitSet64::full();
    while let Some(event) = place_next(journals, counts, world, &mut untried) {
        placed.push(event)?;
        note(plan, event, counts, &mut untried);
    }
    Ok(placed)
}

// Does the next event of the lowest ready site, and returns it, or None if no site is ready. Each site that was tried
// and is not ready leaves the set.
fn place_next<J: AsSlice<EventKind>>(
    journals: &[J],
    counts: &[u64],
    world: &mut World,
    untried: &mut BitSet64,
) -> Option<Event>
    ensures { FindsNext (map J.items journals.now) counts.now untried.old world.old result untried.new world.new }
{
    while let Some(site) = untried.first() {
        if let Some(kind) = next_kind(journals, counts, site) {
            let event = Event { site, kind };
            if world.step(event).is_ok() {
                return Some(event);
            }
        }
        untried.remove(site);
    }
    None
}

// Returns the next event of the site's journal, given the number of events of each site that were placed. It returns
// None if no event is left, or if there is no such site.
fn next_kind<J: AsSlice<EventKind>>(journals: &[J], counts: &[u64], site: u32) -> Option<EventKind>
    ensures { result ≡ kind_at (map J.items journals.now) counts.now site }
{
    let journal = journals.get(site as usize)?;
    let count = counts.get(site as usize)?;
    journal.as_slice().get(*count as usize).copied()
}

// Counts an event that was placed. The site that gets a letter by it may be ready now, and is put into the set.
#[tactic(auto, using(crate::proofs::shared::Shown::sites_shown))]
fn note(plan: &Plan, event: Event, counts: &mut [u64], untried: &mut BitSet64)
    requires { (lists : List (List EventKind)) × (placed : List Event) × (seen : SeenWorld)
        × IsFound (plan_shown plan.now lists) lists placed counts.old untried.old event seen }
    ensures { (lists : List (List EventKind)) (placed : List Event) (seen : SeenWorld)
        → IsFound (plan_shown plan.now lists) lists placed counts.old untried.old event seen
        → IsSearching (plan_shown plan.now lists) lists (placed ++ event ∷ []) counts.new untried.new seen }
{
    laws::orders_grow_by_each_event();
    laws::disabled_events_wait_for_a_letter();
    laws::events_are_bounded();
    laws::whole_runs_are_bounded();
    counts[event.site as usize] += 1;
    if let Some(site) = receiver(plan, event) {
        untried.insert(site);
    }
}

// Returns the site that gets a letter by the event, if one does.
fn receiver(plan: &Plan, event: Event) -> Option<u32>
    requires site { event.site < site_count plan.now }
    requires place { IsPlaceWithin (length (edges_of plan.now event.site)) (shape_of event.kind) }
    ensures site { result ≡ receiver_of plan.now event }
    ensures within { IfSome result (λ other. other < 64) }
{
    match event.kind.shape() {
        Shape::Puts(i) => {
            let edge = plan.edges_of(event.site)[i as usize];
            Some(plan.other(edge, event.site))
        }
        Shape::Takes(_) | Shape::Alone => None,
    }
}
