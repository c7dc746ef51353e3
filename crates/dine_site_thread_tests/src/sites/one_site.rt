// One site, alone and over links that were filled before it starts. Only a dead end refuses it anything.
ghost use Rattle.std.specs.Prelude.{◌≡◌, false};
ghost use Rattle.dine_link.specs.Links.{IsUnused};

use super::diners::Marked;
use super::*;
use dine_rules::Letter;
use dine_site_thread::JobFault;
use dine_test_plans::{ALONE, HIGHER_JOURNAL};

// The journal of a site without edges that has two jobs.
const TWO_MEALS: [EventKind; 6] = [
    EventKind::Hungry,
    EventKind::Begin,
    EventKind::End,
    EventKind::Hungry,
    EventKind::Begin,
    EventKind::End,
];

// Runs the site without edges, which eats both meals. With `fails_each` 2 the second job fails.
fn eats_alone<R: Wait + Abort>(rt: &R, alloc: Global, fails_each: u32, failed: u32) {
    let plan = read_plan(alloc, ALONE).expect(rt, "a plan");
    let (_ringers, bell) = bell_of(rt, alloc, 0);
    let ok = fails_each != 2;
    let left = Left {
        site: 0,
        meals: (2, failed),
        calls: &[Call { k: 1, ok: true }, Call { k: 2, ok }],
        forks: &[],
        log: &[],
        tokens: &[],
        ports: (0, 0),
        journal: TWO_MEALS.as_slice(),
        stray: None,
        fault: None,
    };
    runs_in::<ChannelLane, R>(rt, alloc, &plan, Vec::new(alloc), bell, fails_each, &left)
}

#[test]
fn site_alone_eats_all_its_meals(rt: HostRuntime) {
    eats_alone(&rt, rt.alloc(), 0, 0)
}

#[test]
fn failed_job_is_counted_and_the_site_goes_on(rt: HostRuntime) {
    eats_alone(&rt, rt.alloc(), 2, 1)
}

// The lower site of the pair eats, says Done, gives its fork, finds the early Close of the higher one, and closes. The
// higher one has the link with all that it put, and the bell that it rang.
fn early_closed<L: Lane, R: Wait + Abort>(rt: &R, alloc: Global) -> (L::Rx, Bell)
    ensures untaken { IsUnused (L.seen_rx result.0) }
    ensures bell { (result.1.degree ≡ 1) × (result.1.refused ≡ false) }
{
    let letters = Letters {
        first: Some(Put::Request(0)),
        second: None,
        closes: true,
    };
    let left = Left {
        stray: Some((0, LetterKind::Close)),
        fault: Some(SiteFault::Breach(0, Breach::ClosedEarly)),
        ..LOWER_GAVE
    };
    meets::<L, R>(rt, alloc, letters, &left)
}

// Its neighbour's bell rings for each letter.
fn rings_thrice<L: Lane, R: Wait + Abort>(rt: &R, alloc: Global) {
    let (_rx, mut bell) = early_closed::<L, R>(rt, alloc);
    for _ in 0..3 {
        same(rt, &bell.wait(rt), &Ok(0));
    }
}

#[test]
fn early_close_is_a_breach(rt: HostRuntime) {
    rings_thrice::<ChannelLane, HostRuntime>(&rt, rt.alloc());
    rings_thrice::<RingLane, HostRuntime>(&rt, rt.alloc())
}

// What it put is Done, the fork with its log, and Close.
fn puts_done_fork_close<L: Lane, R: Wait + Abort>(rt: &R, alloc: Global) {
    let (rx, _bell) = early_closed::<L, R>(rt, alloc);
    let log = [Entry::Meal { site: 0, k: 1 }, Entry::Move { to: 1 }];
    finds_fork::<L, R>(rt, rx, log.as_slice())
}

#[test]
fn site_of_an_early_close_puts_done_fork_close(rt: HostRuntime) {
    puts_done_fork_close::<ChannelLane, HostRuntime>(&rt, rt.alloc());
    puts_done_fork_close::<RingLane, HostRuntime>(&rt, rt.alloc())
}

// The higher site runs over the link that the lower one left after the early Close. It does all, with the fork and the
// log that arrived.
fn higher_eats<L: Lane, R: Wait + Abort>(rt: &R, alloc: Global) {
    let (rx, bell) = early_closed::<L, R>(rt, alloc);
    let (tx, far_rx) = link_from::<L>(rt, alloc, 0, 1);
    let (ringer, _far_bell) = one_ringer(rt, alloc);
    let ends = Ends::<L> {
        tx,
        rx,
        ringer,
        bell,
    };
    let left = Left {
        site: 1,
        meals: (1, 0),
        calls: &[Call { k: 1, ok: true }],
        forks: &[0],
        log: &[
            Entry::Meal { site: 0, k: 1 },
            Entry::Move { to: 1 },
            Entry::Meal { site: 1, k: 1 },
        ],
        tokens: &[],
        ports: (0, 1),
        journal: HIGHER_JOURNAL.as_slice(),
        stray: None,
        fault: None,
    };
    runs::<L, R>(rt, alloc, PAIR, ends, &left);
    finds::<L, R>(rt, far_rx, LetterKind::Request, Some(LetterKind::Done))
}

#[test]
fn higher_site_eats_with_the_fork_that_it_was_given(rt: HostRuntime) {
    higher_eats::<ChannelLane, HostRuntime>(&rt, rt.alloc());
    higher_eats::<RingLane, HostRuntime>(&rt, rt.alloc())
}

// A channel reports that its other end is gone, and a ring does not.
#[test]
fn refused_put_is_a_fault(rt: HostRuntime) {
    let (near, far) = ends_of::<ChannelLane>(&rt, rt.alloc(), 0);
    let Ends {
        tx: _tx,
        rx,
        ringer: _ringer,
        bell: _bell,
    } = far;
    drop(rx);
    let left = Left {
        ports: (1, 0),
        stray: Some((0, LetterKind::Done)),
        fault: Some(SiteFault::Lost(0)),
        ..LOWER_ATE
    };
    runs::<ChannelLane, HostRuntime>(&rt, rt.alloc(), PAIR, near, &left)
}

#[test]
fn bell_that_nobody_rings_is_a_fault(rt: HostRuntime) {
    let (near, far) = ends_of::<ChannelLane>(&rt, rt.alloc(), 1);
    let Ends {
        tx: _tx,
        rx,
        ringer,
        bell: _bell,
    } = far;
    drop(ringer);
    let left = Left {
        fault: Some(SiteFault::LostBell { degree: 1 }),
        ..HIGHER_ASKED
    };
    runs::<ChannelLane, HostRuntime>(&rt, rt.alloc(), PAIR, near, &left);
    finds::<ChannelLane, HostRuntime>(&rt, rx, LetterKind::Request, None)
}

#[test]
fn results_of_a_marked_diner_fit_its_marks(rt: HostRuntime) {
    let alloc = rt.alloc();
    let plan = read_plan(alloc, ALONE).expect(&rt, "a plan");
    let (_ringers, bell) = bell_of(&rt, alloc, 0);
    let log = CallLog::open(alloc, 2).expect(&rt, "memory");
    let diner = Marked {
        log,
        goes_well: false,
    };
    let core = core_of(&rt, alloc, &plan, 0, 2);
    assert!(rt; core.degree() == 0);
    let end = run_site::<HostRuntime, ChannelLane, Marked>(
        &rt,
        alloc,
        core,
        Vec::new(alloc),
        bell,
        diner,
    );
    same(&rt, &(end.ate, end.failed), &(2, 2));
    assert!(rt; !end.diner.goes_well && end.fault.is_none());
}

#[test]
fn job_that_failed_has_its_text(rt: HostRuntime) {
    let fault = JobFault;
    let text = format!(in rt.alloc(); "{fault}").expect(&rt, "memory");
    same(&rt, &text.as_str(), &"the job failed");
}
