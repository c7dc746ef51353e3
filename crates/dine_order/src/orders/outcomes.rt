//! The outcomes of meals that journals show.
ghost use Rattle.std.specs.Prelude.{◌≡◌, IfOk, length, map};
ghost use Rattle.dine_graph.specs.Plan.{site_count};
ghost use Rattle.dine_world.specs.Worlds.{lists_of};
ghost use Rattle.dine_rules.specs.Shown.{shown_by, shown_in};
ghost use Rattle.dine_order.specs.private.Searching.{outcomes_after};

use dine_graph::Plan;
use dine_world::EventKind;
use std::alloc::{AllocError, Global};
use std::convert::AsSlice;

// Returns for each site which of its jobs failed: the last one before each Quit of its journal, and no other.
pub(super) fn shown_by<J: AsSlice<EventKind>>(
    alloc: Global,
    plan: &Plan,
    journals: &[J],
) -> Result<Vec<Vec<bool>>, AllocError>
    requires { length journals.now ≡ site_count plan.now }
    ensures { IfOk result (λ fails. lists_of fails.items ≡ shown_by plan.now (map J.items journals.now)) }
{
    let mut fails = Vec::with_capacity(alloc, plan.sites() as usize)?;
    for site in 0..plan.sites() {
        let journal = journals[site as usize].as_slice();
        fails.push_reserved(shown_in(alloc, plan.jobs(site), journal)?);
    }
    Ok(fails)
}

// Returns which of the `jobs` jobs of a site failed, by its journal.
fn shown_in(alloc: Global, jobs: u32, journal: &[EventKind]) -> Result<Vec<bool>, AllocError>
    ensures { IfOk result (λ fails. fails.items ≡ shown_in jobs journal.now) }
{
    let mut fails = vec![in alloc; false; jobs as usize]?;
    // The number of meals that have ended.
    let mut ended = 0;
    for kind in journal.iter() {
        match *kind {
            EventKind::End => ended += 1,
            EventKind::Quit => note(&mut fails, ended),
            _ => {}
        }
    }
    Ok(fails)
}

// Notes that the site quits after `ended` meals, so that the last one failed. It notes nothing if no meal ended, or if
// the site has no job of that number.
fn note(fails: &mut Vec<bool>, ended: usize)
    ensures { fails.new.items ≡ outcomes_after ended fails.old.items }
{
    if 1 <= ended && ended <= fails.len() {
        fails[ended - 1] = true;
    }
}
