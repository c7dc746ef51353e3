//! The search for one order of the journals of all sites.
ghost use Rattle.std.specs.Prelude.{◌≡◌, ◌≢◌, IfErr, IfOk, Some, length, map, replicate};
ghost use Rattle.dine_graph.specs.Plan.{site_count};
ghost use Rattle.dine_rules.specs.Journals.{IsLowestFirst, IsWholeOrder};
ghost use Rattle.dine_rules.specs.Outcomes.{NoSiteResigns};
ghost use Rattle.dine_rules.specs.Shown.{plan_shown};
ghost use Rattle.dine_order.specs.Orders.{OrderFaultIs, order_fault_words};
ghost use Rattle.dine_order.specs.private.Searching.{FirstLeft};
ghost use Rattle.dine_order.specs.declared.orders.OrderFault.TheVariants.{CountDiffers, Memory};

mod outcomes;
mod placing;

use dine_graph::Plan;
use dine_rules::laws;
use dine_world::{Event, EventKind, World};
use std::alloc::{AllocError, Global};
use std::convert::AsSlice;
use std::error::Error;
use std::fmt;

/// Why `order` returned no order of the journals.
#[derive(Clone, Copy, Debug, PartialEq, Eq)]
pub enum OrderFault {
    /// The number of journals is not the number of sites.
    CountDiffers,
    /// No site's next event is enabled, and there is no order. `site` is the lowest site with events left, and `placed`
    /// is the number of its events that were placed.
    Stuck { site: u32, placed: u64 },
    /// All events were placed, but the world is not complete, and there is no order.
    NotClosed,
    /// An allocation failed.
    Memory,
}

/// `1 CountDiffers`, `2 Stuck at site 0, 3 placed`, `3 NotClosed` or `4 Memory`.
impl fmt::Display for OrderFault {
    ghost output = { λ fault. Some (order_fault_words fault) };

    fn fmt<W: fmt::Write>(&self, f: &mut fmt::Formatter<W>) -> fmt::Result {
        match *self {
            OrderFault::CountDiffers => f.write_str("1 CountDiffers"),
            OrderFault::Stuck { site, placed } => {
                write!(f, "2 Stuck at site {site}, {placed} placed")
            }
            OrderFault::NotClosed => f.write_str("3 NotClosed"),
            OrderFault::Memory => f.write_str("4 Memory"),
        }
    }
}

impl Error for OrderFault {}

impl From<AllocError> for OrderFault {
    ghost from_gives = { λ _ f. f ≡ Memory };

    fn from(_error: AllocError) -> OrderFault {
        OrderFault::Memory
    }
}

/// Returns one order of the journals: a list that has each site's journal as that site's events, in their order, and no
/// other events. A world of the plan accepts the list event by event, and is complete at its end. Each event is that of
/// the lowest site whose next event was enabled.
///
/// The world has the outcomes that the journals show: the last meal before each Quit failed, if the site has a job of
/// that number, and no other meal did. If no site resigns, it is a world of the plan itself.
///
/// Each event costs one step of a world, and at most one further attempt, whatever the number of sites.
///
/// # Errors
///
/// `CountDiffers` if the number of journals is not the number of sites. `Stuck` and `NotClosed` only if no such list
/// exists. `Memory` if an allocation fails.
pub fn order<J: AsSlice<EventKind>>(
    alloc: Global,
    plan: &Plan,
    journals: &[J],
) -> Result<Vec<Event>, OrderFault>
    ensures count { length journals.now ≢ site_count plan.now → result ≡ Err CountDiffers }
    ensures order { IfOk result (λ events.
        IsWholeOrder (plan_shown plan.now (map J.items journals.now)) (map J.items journals.now) events.items) }
    ensures own { NoSiteResigns plan.now
        → IfOk result (λ events. IsWholeOrder plan.now (map J.items journals.now) events.items) }
    ensures lowest { IfOk result (λ events.
        IsLowestFirst (plan_shown plan.now (map J.items journals.now)) (map J.items journals.now) events.items) }
    ensures fault { IfErr result
        (OrderFaultIs (plan_shown plan.now (map J.items journals.now)) (map J.items journals.now)) }
{
    laws::outcomes_matter_only_to_sites_that_resign();
    if journals.len() != plan.sites() as usize {
        return Err(OrderFault::CountDiffers);
    }
    let mut counts = vec![in alloc; 0u64; plan.sites() as usize]?;
    search(alloc, plan, journals, counts.as_mut_slice())
}

// Returns the order for one journal a site. No event is counted yet.
fn search<J: AsSlice<EventKind>>(
    alloc: Global,
    plan: &Plan,
    journals: &[J],
    counts: &mut [u64],
) -> Result<Vec<Event>, OrderFault>
    requires journals { length journals.now ≡ site_count plan.now }
    requires counts { counts.old ≡ replicate (site_count plan.now) 0 }
    ensures order { IfOk result (λ events.
        IsWholeOrder (plan_shown plan.now (map J.items journals.now)) (map J.items journals.now) events.items) }
    ensures lowest { IfOk result (λ events.
        IsLowestFirst (plan_shown plan.now (map J.items journals.now)) (map J.items journals.now) events.items) }
    ensures fault { IfErr result
        (OrderFaultIs (plan_shown plan.now (map J.items journals.now)) (map J.items journals.now)) }
{
    laws::orders_that_exist_are_found();
    laws::stuck_worlds_are_complete();
    laws::complete_worlds_are_stuck();
    let fails = outcomes::shown_by(alloc, plan, journals)?;
    let mut world = World::open_with(alloc, plan, fails.as_slice())?;
    let placed = placing::place_all(alloc, plan, journals, &mut world, counts);
    let is_closed = world.count() == 0;
    world.into_forks();
    let events = placed?;
    if let Some(site) = first_left(plan, journals, counts) {
        let placed = counts[site as usize];
        return Err(OrderFault::Stuck { site, placed });
    }
    if !is_closed {
        return Err(OrderFault::NotClosed);
    }
    Ok(events)
}

// Returns the lowest site with events left, given the number of events of each site that were placed.
fn first_left<J: AsSlice<EventKind>>(plan: &Plan, journals: &[J], counts: &[u64]) -> Option<u32>
    requires journals { length journals.now ≡ site_count plan.now }
    requires counts { length counts.now ≡ site_count plan.now }
    ensures { FirstLeft (site_count plan.now) (map J.items journals.now) counts.now result }
{
    for site in 0..plan.sites() {
        if (counts[site as usize] as usize) < journals[site as usize].as_slice().len() {
            return Some(site);
        }
    }
    None
}
