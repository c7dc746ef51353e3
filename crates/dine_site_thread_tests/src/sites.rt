// What tests of sites share: one site on one thread, with its links and its bell, and what it leaves.
ghost use Rattle.std.specs.Prelude.{◌≡◌, ◌≤◌, false, All, vec_len};
ghost use Rattle.dine_site.specs.Standing.{IsFreshFor};
ghost use Rattle.dine_link.specs.Links.{IsUnused};
ghost use Rattle.dine_site_thread.specs.Ports.{IsFreshPort, seen_ports};

mod diners;
mod ends;
mod left;
mod manners;
mod one_site;
mod refusals;
mod star;
mod unlawful;

use crate::asserts::same;
use dine_link::{Bell, ChannelLane, Lane, RingLane, Ringer, TxEnd};
use dine_plan::{Plan, read_plan};
use dine_rules::{Breach, LetterKind};
use dine_site_thread::{Call, CallLog, Port, SiteFault, run_site};
use dine_test_diners::Taster;
use dine_test_plans::PAIR;
use dine_token::Entry;
use dine_world::site::{fresh_forks, fresh_tokens};
use dine_world::{EventKind, SiteCore};
use ends::{Ends, Letters, Put, ends_of, fill, finds, finds_fork, link_from, one_ringer, ring_for};
use left::{Left, is_left};
use std::alloc::Global;
use std::process::Abort;
use std::sync::Wait;

// The lower site of the pair ate and put Done, and has its fork.
const LOWER_ATE: Left = Left {
    site: 0,
    meals: (1, 0),
    calls: &[Call { k: 1, ok: true }],
    forks: &[0],
    log: &[Entry::Meal { site: 0, k: 1 }],
    tokens: &[],
    ports: (0, 1),
    journal: &[
        EventKind::Hungry,
        EventKind::Begin,
        EventKind::End,
        EventKind::Done(0),
    ],
    stray: None,
    fault: None,
};

// Then it was asked for the fork, and gave it.
const LOWER_GAVE: Left = Left {
    forks: &[],
    tokens: &[0],
    journal: &[
        EventKind::Hungry,
        EventKind::Begin,
        EventKind::End,
        EventKind::Done(0),
        EventKind::Take(0),
        EventKind::Give(0),
    ],
    ..LOWER_ATE
};

// The higher site of the pair asked for the fork, which has not arrived.
const HIGHER_ASKED: Left = Left {
    site: 1,
    meals: (0, 0),
    calls: &[],
    forks: &[],
    log: &[],
    tokens: &[],
    ports: (0, 1),
    journal: &[EventKind::Hungry, EventKind::Ask(0)],
    stray: None,
    fault: None,
};

// Runs the site with the number of `left` to its end, with these ports and this bell, and checks what it leaves.
fn runs_in<L: Lane, R: Wait + Abort>(
    rt: &R,
    alloc: Global,
    plan: &Plan,
    ports: Vec<Port<L>>,
    bell: Bell,
    fails_each: u32,
    left: &Left,
)
    requires degree { bell.degree ≡ vec_len ports }
    requires unrefused { bell.refused ≡ false }
    requires unused { All IsFreshPort (seen_ports L.Lane ports.items) }
{
    let core = core_of(rt, alloc, plan, left.site, 2);
    assert!(rt; core.degree() as usize == ports.len());
    let diner = Taster::open(alloc, 2, fails_each).expect(rt, "memory");
    let end = run_site::<R, L, Taster>(rt, alloc, core, ports, bell, diner);
    is_left(rt, end, left)
}

// Returns the core of a site with at most so many jobs.
fn core_of(rt: &impl Abort, alloc: Global, plan: &Plan, site: u32, most: u32) -> SiteCore
    ensures fresh { IsFreshFor plan.now result }
    ensures due { result.due ≤ most }
{
    assert!(rt; site < plan.sites());
    assert!(rt; plan.jobs(site) <= most);
    let forks = fresh_forks(alloc, plan, site).expect(rt, "memory");
    let tokens = fresh_tokens(alloc, plan, site).expect(rt, "memory");
    SiteCore::open(alloc, plan, site, forks, tokens).expect(rt, "memory")
}

// Returns the ringers of a site of this degree, and its bell.
fn bell_of(rt: &impl Abort, alloc: Global, degree: u32) -> (Vec<Ringer>, Bell)
    ensures degree { result.1.degree ≡ degree }
    ensures unrefused { result.1.refused ≡ false }
{
    let Ok(opened) = Bell::open(alloc, degree) else {
        panic!(rt; "no memory for a bell");
    };
    opened
}

// Returns the port of a site with one edge, in a list.
fn one_port<L: Lane>(
    rt: &impl Abort,
    alloc: Global,
    tx: L::Tx,
    rx: L::Rx,
    ringer: Ringer,
) -> Vec<Port<L>>
    requires nothing_put { IsUnused (L.seen_tx tx) }
    requires nothing_taken { IsUnused (L.seen_rx rx) }
    requires silent { (ringer.rings ≡ 0) × (ringer.refused ≡ false) }
    ensures count { vec_len result ≡ 1 }
    ensures unused { All IsFreshPort (seen_ports L.Lane result.items) }
{
    let mut ports = Vec::with_capacity(alloc, 1).expect(rt, "memory");
    ports.push_reserved(Port::<L> {
        tx: TxEnd::Live(tx),
        rx,
        ringer,
    });
    ports
}

// Runs a site of a plan of two to its end, with these ends, and checks what it leaves.
fn runs<L: Lane, R: Wait + Abort>(rt: &R, alloc: Global, text: &str, ends: Ends<L>, left: &Left)
    requires nothing_put { IsUnused (L.seen_tx ends.tx) }
    requires nothing_taken { IsUnused (L.seen_rx ends.rx) }
    requires silent { (ends.ringer.rings ≡ 0) × (ends.ringer.refused ≡ false) }
    requires degree { ends.bell.degree ≡ 1 }
    requires unrefused { ends.bell.refused ≡ false }
{
    let plan = read_plan(alloc, text).expect(rt, "a plan");
    let Ends {
        tx,
        rx,
        ringer,
        bell,
    } = ends;
    let ports = one_port::<L>(rt, alloc, tx, rx, ringer);
    runs_in::<L, R>(rt, alloc, &plan, ports, bell, 0, left)
}

// Runs a site of the pair to its end, over links on which its neighbour has put these letters, each with its ring, and
// checks what the site leaves. Returns the link with all that the site put, and the bell of its neighbour.
fn meets<L: Lane, R: Wait + Abort>(
    rt: &R,
    alloc: Global,
    letters: Letters,
    left: &Left,
) -> (L::Rx, Bell)
    ensures untaken { IsUnused (L.seen_rx result.0) }
    ensures bell { (result.1.degree ≡ 1) × (result.1.refused ≡ false) }
{
    let (near, far) = ends_of::<L>(rt, alloc, left.site);
    let Ends {
        tx,
        rx,
        ringer,
        bell,
    } = far;
    let _tx = fill::<L, R>(rt, alloc, tx, letters);
    let _ringer = ring_for::<R>(rt, ringer, letters);
    runs::<L, R>(rt, alloc, PAIR, near, left);
    (rx, bell)
}
