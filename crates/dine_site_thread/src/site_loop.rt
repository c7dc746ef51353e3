//! One site on its thread, from its first step to its last.
ghost use Rattle.std.specs.Prelude.{◌≡◌, ◌≤◌, All, false, length, vec_len};
ghost use Rattle.dine_site_thread.specs.Ports.{IsFreshPort, seen_ports};
ghost use Rattle.dine_site_thread.specs.SiteRuns.{IsSiteRun};
ghost use Rattle.dine_site_thread.specs.Starts.{MayStart};

mod running;

use crate::diner::Diner;
use crate::manner::Manner;
use crate::port::Port;
use crate::site_end::SiteEnd;
use dine_link::{Bell, Lane, ThreadLog};
use dine_rules::{Clock, laws};
use dine_site::SiteCore;
use running::Running;
use std::alloc::Global;
use std::sync::Wait;

/// Runs a site in the eager manner: [`run_site_with`] with [`Manner::Eager`].
pub fn run_site<R: Wait, L: Lane, D: Diner>(
    rt: &R,
    alloc: Global,
    core: SiteCore,
    ports: Vec<Port<L>>,
    bell: Bell,
    diner: D,
) -> SiteEnd<L, D>
    requires fresh { MayStart D.Diner diner core }
    requires ports { vec_len ports ≡ length core.places }
    requires unused { All IsFreshPort (seen_ports L.Lane ports.items) }
    requires unrefused { bell.refused ≡ false }
    requires room { core.due ≤ D.room_left diner }
    ensures { IsSiteRun L.Lane D.Diner Manner.Eager core ports.items bell diner result }
{
    run_site_with(rt, alloc, Manner::Eager, core, ports, bell, diner)
}

/// Runs a site until it is finished, or until a fault, and returns what it leaves. It may wait.
///
/// The site does the events other than Take that the rules allow, in the fixed order, until there is none. Then it
/// waits for its bell, and takes one letter at the place that rang, or none if Close was taken there. After each letter
/// that it puts, it rings the neighbour's bell once. Between the begin and the end of a meal it calls [`Diner::eat`]
/// once. If that fails and the site resigns, it eats no more: it quits, if it has meals left. No other site quits.
///
/// A polite site also checks its bell before each meal. If a ring is left, it takes the letter and goes on with what
/// the rules then allow; the meal begins only when a check has found no ring left. So does a site that is on call, and
/// it grows hungry only when its diner is called ([`Diner::is_called`]): until then it waits for its bell, too.
///
/// The core has done no event, and the diner expects to eat at this site of its plan. There is a port for each place of
/// the core, in order, at which nothing was put, taken, rung or refused. No wait for the bell was refused. A ringer of
/// it whose number is that of a place rings for letters there. Any other is of somebody outside, and the site takes no
/// letter when it rings. The diner has capacity for a call for each meal of the site.
///
/// A letter that is not allowed is a fault, and so is a link or a bell that refuses. After the first fault the site
/// puts Close at each place where it has put none, in order, and ends. Later faults are not reported.
///
/// The journal has each event that the site did, in order, except a letter that was not allowed and the Closes after a
/// fault. Capacity for it is allocated before each event; if that fails, the event is not done and the fault is
/// `Memory`. The bell is returned, so that neighbours that are not done can still ring it.
pub fn run_site_with<R: Wait, L: Lane, D: Diner>(
    rt: &R,
    alloc: Global,
    manner: Manner,
    core: SiteCore,
    ports: Vec<Port<L>>,
    bell: Bell,
    diner: D,
) -> SiteEnd<L, D>
    requires fresh { MayStart D.Diner diner core }
    requires ports { vec_len ports ≡ length core.places }
    requires unused { All IsFreshPort (seen_ports L.Lane ports.items) }
    requires unrefused { bell.refused ≡ false }
    requires room { core.due ≤ D.room_left diner }
    ensures { IsSiteRun L.Lane D.Diner manner core ports.items bell diner result }
{
    laws::streams_are_kept();
    let mut site = Running::new(
        manner,
        core,
        ports,
        bell,
        diner,
        Vec::new(alloc),
        Clock::start(),
        ThreadLog::start(),
    );
    match site.work(rt) {
        Ok(()) => site.end(None, None),
        Err(stop) => {
            site.break_off(rt);
            site.end(stop.stray, Some(stop.fault))
        }
    }
}
