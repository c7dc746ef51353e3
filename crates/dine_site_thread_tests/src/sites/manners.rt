// A site that has a letter of its neighbour before its first meal, in each manner.
ghost use Rattle.std.specs.Prelude.{◌≡◌, false, All, vec_len};
ghost use Rattle.dine_link.specs.Links.{IsUnused};
ghost use Rattle.dine_site_thread.specs.Ports.{IsFreshPort, seen_ports};

use super::ends::finds_three;
use super::*;
use dine_site_thread::{Manner, run_site_with};
use dine_test_diners::Taster;
use std::alloc::AllocError;

// The greatest number of jobs of a site here.
const MOST: u32 = 130;

// Two sites with an edge: the lower one has one job, and the higher one has two.
const ONE_AND_TWO: &str = "version = 1\n\
    [[site]]\nname = \"a\"\njobs = [{ name = \"x\" }]\n\
    [[site]]\nname = \"b\"\njobs = [{ name = \"y\" }, { name = \"z\" }]\n\
    [[edge]]\nends = [\"a\", \"b\"]\n";

// The polite one hears the ring for the request before its first meal, and puts the letter off, since it holds the fork
// clean. It takes it before the second meal, and gives the fork.
const POLITE: [EventKind; 9] = [
    EventKind::Hungry,
    EventKind::Ask(0),
    EventKind::Take(0),
    EventKind::Begin,
    EventKind::End,
    EventKind::Hungry,
    EventKind::Take(0),
    EventKind::Give(0),
    EventKind::Ask(0),
];

// The eager one takes the request after both meals.
const EAGER: [EventKind; 11] = [
    EventKind::Hungry,
    EventKind::Ask(0),
    EventKind::Take(0),
    EventKind::Begin,
    EventKind::End,
    EventKind::Hungry,
    EventKind::Begin,
    EventKind::End,
    EventKind::Done(0),
    EventKind::Take(0),
    EventKind::Give(0),
];

// Runs the site of that number in the plan to its end, in that manner. No job fails. It leaves this.
fn runs_by<L: Lane, R: Wait + Abort>(
    rt: &R,
    alloc: Global,
    manner: Manner,
    plan: &Plan,
    ports: Vec<Port<L>>,
    bell: Bell,
    left: &Left,
)
    requires degree { bell.degree ≡ vec_len ports }
    requires unrefused { bell.refused ≡ false }
    requires unused { All IsFreshPort (seen_ports L.Lane ports.items) }
{
    let core = core_of(rt, alloc, plan, left.site, MOST);
    assert!(rt; core.degree() as usize == ports.len());
    let diner = Taster::open(alloc, MOST, 0).expect(rt, "memory");
    let end = run_site_with::<R, L, Taster>(rt, alloc, manner, core, ports, bell, diner);
    is_left(rt, end, left)
}

// The higher site of such a plan, which has so many jobs, was sent the fork, and then a request for it, before it
// starts. Then nobody rings any more. It leaves this.
fn is_asked<L: Lane, R: Wait + Abort>(
    rt: &R,
    alloc: Global,
    manner: Manner,
    text: &str,
    jobs: u32,
    left: &Left,
) -> L::Rx
    ensures untaken { IsUnused (L.seen_rx result) }
{
    let plan = read_plan(alloc, text).expect(rt, "a plan");
    let letters = Letters {
        first: Some(Put::SentUp(jobs)),
        second: Some(Put::Request(0)),
        closes: false,
    };
    let (near, far) = ends_of::<L>(rt, alloc, 1);
    let Ends {
        tx: far_tx,
        rx: far_rx,
        ringer: far_ringer,
        bell: _far_bell,
    } = far;
    let _far_tx = fill::<L, R>(rt, alloc, far_tx, letters);
    drop(ring_for::<R>(rt, far_ringer, letters));
    let Ends {
        tx,
        rx,
        ringer,
        bell,
    } = near;
    let ports = one_port::<L>(rt, alloc, tx, rx, ringer);
    runs_by::<L, R>(rt, alloc, manner, &plan, ports, bell, left);
    far_rx
}

// The site ate so, put these letters, and then was told of nothing more.
fn leaves<L: Lane, R: Wait + Abort>(
    rt: &R,
    alloc: Global,
    manner: Manner,
    left: &Left,
    put: [LetterKind; 3],
) {
    let rx = is_asked::<L, R>(rt, alloc, manner, ONE_AND_TWO, 2, left);
    finds_three::<L, R>(rt, rx, put)
}

// Two sites with an edge, of which the higher one has this number of jobs.
fn one_and_many(alloc: Global, jobs: u32) -> Result<String, AllocError> {
    let mut text = String::new(alloc);
    text.push_str("version = 1\n[[site]]\nname = \"a\"\njobs = [{ name = \"x\" }]\n")?;
    text.push_str("[[site]]\nname = \"b\"\njobs = [")?;
    for _ in 0..jobs {
        text.push_str("{ name = \"y\" },")?;
    }
    text.push_str("]\n[[edge]]\nends = [\"a\", \"b\"]\n")?;
    Ok(text)
}

// The calls and the journal of a site that was asked before its first meal, looks for requests only after this number
// of meals, and has jobs left then.
fn eats_many(alloc: Global, meals: u32) -> Result<(Vec<Call>, Vec<EventKind>), AllocError> {
    let mut calls = Vec::new(alloc);
    let mut journal = Vec::new(alloc);
    journal.extend_from_slice(&[EventKind::Hungry, EventKind::Ask(0), EventKind::Take(0)])?;
    for k in 0..meals {
        calls.push(Call { k: k + 1, ok: true })?;
        journal.extend_from_slice(&[EventKind::Begin, EventKind::End, EventKind::Hungry])?;
    }
    journal.extend_from_slice(&[EventKind::Take(0), EventKind::Give(0), EventKind::Ask(0)])?;
    Ok((calls, journal))
}

// The first check of a greedy site comes after 128 meals.
#[test]
fn a_greedy_site_gives_the_fork_after_many_meals(rt: HostRuntime) {
    let alloc = rt.alloc();
    let text = one_and_many(alloc, MOST).expect(&rt, "memory");
    let (calls, journal) = eats_many(alloc, 128).expect(&rt, "memory");
    let left = Left {
        site: 1,
        meals: (128, 0),
        calls: calls.as_slice(),
        forks: &[],
        log: &[],
        tokens: &[],
        ports: (0, 1),
        journal: journal.as_slice(),
        stray: None,
        fault: Some(SiteFault::LostBell { degree: 1 }),
    };
    let put = [LetterKind::Request, LetterKind::Fork, LetterKind::Request];
    let (manner, text) = (Manner::Greedy, text.as_str());
    let rx = is_asked::<RingLane, HostRuntime>(&rt, alloc, manner, text, MOST, &left);
    finds_three::<RingLane, HostRuntime>(&rt, rx, put)
}

#[test]
fn a_polite_site_gives_the_fork_after_one_meal(rt: HostRuntime) {
    let left = Left {
        site: 1,
        meals: (1, 0),
        calls: &[Call { k: 1, ok: true }],
        forks: &[],
        log: &[],
        tokens: &[],
        ports: (0, 1),
        journal: POLITE.as_slice(),
        stray: None,
        fault: Some(SiteFault::LostBell { degree: 1 }),
    };
    let put = [LetterKind::Request, LetterKind::Fork, LetterKind::Request];
    leaves::<ChannelLane, HostRuntime>(&rt, rt.alloc(), Manner::Patient(1), &left, put);
    leaves::<RingLane, HostRuntime>(&rt, rt.alloc(), Manner::Patient(1), &left, put)
}

// A site that checks its bell before each meal does as a polite one, and one that checks before every second meal gives
// the fork after both.
#[test]
fn a_patient_site_gives_the_fork_after_so_many_meals(rt: HostRuntime) {
    let left = Left {
        site: 1,
        meals: (1, 0),
        calls: &[Call { k: 1, ok: true }],
        forks: &[],
        log: &[],
        tokens: &[],
        ports: (0, 1),
        journal: POLITE.as_slice(),
        stray: None,
        fault: Some(SiteFault::LostBell { degree: 1 }),
    };
    let put = [LetterKind::Request, LetterKind::Fork, LetterKind::Request];
    leaves::<ChannelLane, HostRuntime>(&rt, rt.alloc(), Manner::Patient(1), &left, put);
    let left = Left {
        site: 1,
        meals: (2, 0),
        calls: &[Call { k: 1, ok: true }, Call { k: 2, ok: true }],
        forks: &[],
        log: &[],
        tokens: &[0],
        ports: (0, 1),
        journal: EAGER.as_slice(),
        stray: None,
        fault: Some(SiteFault::LostBell { degree: 1 }),
    };
    let put = [LetterKind::Request, LetterKind::Done, LetterKind::Fork];
    leaves::<ChannelLane, HostRuntime>(&rt, rt.alloc(), Manner::Patient(2), &left, put);
    leaves::<RingLane, HostRuntime>(&rt, rt.alloc(), Manner::Patient(2), &left, put)
}

#[test]
fn an_eager_site_gives_the_fork_after_all_its_meals(rt: HostRuntime) {
    let left = Left {
        site: 1,
        meals: (2, 0),
        calls: &[Call { k: 1, ok: true }, Call { k: 2, ok: true }],
        forks: &[],
        log: &[],
        tokens: &[0],
        ports: (0, 1),
        journal: EAGER.as_slice(),
        stray: None,
        fault: Some(SiteFault::LostBell { degree: 1 }),
    };
    let put = [LetterKind::Request, LetterKind::Done, LetterKind::Fork];
    leaves::<ChannelLane, HostRuntime>(&rt, rt.alloc(), Manner::Eager, &left, put);
    leaves::<RingLane, HostRuntime>(&rt, rt.alloc(), Manner::Eager, &left, put)
}
