//! One order of what the sites of a run did.
ghost use Rattle.std.specs.Prelude.{IfOk, map};
ghost use Rattle.dine_rules.specs.EatingApart.{NeighboursEatApart};
ghost use Rattle.dine_rules.specs.Journals.{IsLowestFirst, IsWholeOrder};
ghost use Rattle.dine_rules.specs.Shown.{plan_shown};
ghost use Rattle.dine_threads.specs.Journals.{HaveOrder};

use dine_graph::Plan;
use dine_order::{OrderFault, order};
use dine_rules::{Event, laws};
use dine_site_thread::Diner;
use dine_threads::Gathered;
use std::alloc::{AllocError, Global};

/// Returns one order of what the sites of a run did: a list of events that has each site's journal as that site's
/// events, in their order, and no others. A one-thread world accepts it, and it is the list that [`order`] finds. At no
/// point of it are two neighbours in a meal.
///
/// It is for what [`run`](dine_threads::run) returned as Ok: then such a list exists. The order in which the events
/// happened in time is not known.
///
/// # Errors
///
/// Fails if an allocation fails. No clause says that it fails for no other cause.
pub fn order_of<D: Diner>(
    alloc: Global,
    plan: &Plan,
    gathered: &Gathered<D>,
) -> Result<Vec<Event>, AllocError>
    requires ordered { HaveOrder plan.now (map (λ out. out.journal.items) gathered.now.sites.items) }
    ensures order { IfOk result (λ events. let journals = map (λ out. out.journal.items) gathered.now.sites.items in
        IsWholeOrder (plan_shown plan.now journals) journals events.items) }
    ensures lowest { IfOk result (λ events. let journals = map (λ out. out.journal.items) gathered.now.sites.items in
        IsLowestFirst (plan_shown plan.now journals) journals events.items) }
    ensures apart { IfOk result (λ events. NeighboursEatApart plan.now events.items) }
{
    laws::neighbours_eat_apart_in_each_order();
    match order(alloc, plan, gathered.sites.as_slice()) {
        Ok(events) => Ok(events),
        Err(fault) => match fault {
            OrderFault::Memory => Err(AllocError),
            _ => unreachable!(),
        },
    }
}
