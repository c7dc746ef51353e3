// Whole runs on graphs of many kinds.
use crate::asserts::same;
use crate::graphs::*;
use crate::links::{BOTH, Links};
use dine_link::{ChannelLane, LinkEnd, RingLane};
use dine_plan::{Plan, read_plan};
use dine_run::{Gathered, SiteOut, order, run};
use dine_test_diners::{Taster, outcomes_of, tasters};
use dine_test_plans::{RESIGNING_PAIR, RING};
use dine_token::Fork;
use dine_world::{Event, EventKind, World};
use std::alloc::Global;
use std::process::Abort;
use std::sync::Wait;
use std::thread::Threads;

// Runs the plan of the graph over links of a kind, and checks all that is left.
fn runs_over<R: Threads + Wait + Abort + Copy + Send + 'static>(
    rt: &R,
    alloc: Global,
    links: Links,
    graph: &Graph,
    plan: &Plan,
    fails_each: u32,
) {
    let gathered = left_of(rt, alloc, links, plan, fails_each);
    holds(rt, alloc, graph, plan, fails_each, gathered)
}

// Returns what is gathered of a run of the plan over links of a kind, if the jobs fail whose numbers are multiples of
// `fails_each`.
fn left_of<R: Threads + Wait + Abort + Copy + Send + 'static>(
    rt: &R,
    alloc: Global,
    links: Links,
    plan: &Plan,
    fails_each: u32,
) -> Gathered<Taster> {
    let diners = tasters(alloc, plan, fails_each).expect(rt, "memory");
    let ended = match links {
        Links::Channels => run::<ChannelLane, Taster>(rt, alloc, plan, diners),
        Links::Rings => run::<RingLane, Taster>(rt, alloc, plan, diners),
    };
    match ended {
        Ok(gathered) => gathered,
        Err(_) => panic!(rt; "no run"),
    }
}

// Checks what was gathered.
fn holds(
    rt: &impl Abort,
    alloc: Global,
    graph: &Graph,
    plan: &Plan,
    fails_each: u32,
    gathered: Gathered<Taster>,
) {
    let Gathered {
        forks,
        sites,
        links,
    } = gathered;
    holds_sites(rt, graph, fails_each, sites.as_slice());
    holds_forks(rt, graph, fails_each, forks.as_slice());
    holds_links(rt, graph, forks.as_slice(), links.as_slice());
    let events = ordered(rt, alloc, plan, sites);
    let world = stepped(rt, alloc, plan, fails_each, events.as_slice());
    have_same_logs(rt, forks.as_slice(), world.as_slice())
}

// Returns the order of what the sites did.
fn ordered(rt: &impl Abort, alloc: Global, plan: &Plan, sites: Vec<SiteOut<Taster>>) -> Vec<Event> {
    let journals = journals_of(rt, alloc, sites);
    order(alloc, plan, journals.as_slice()).expect(rt, "an order")
}

// Returns a world of the plan in which the jobs fail that fail with such diners.
fn world_where(rt: &impl Abort, alloc: Global, plan: &Plan, fails_each: u32) -> World {
    let fails = outcomes_of(alloc, plan, fails_each).expect(rt, "memory");
    World::open_with(alloc, plan, fails.as_slice()).expect(rt, "memory")
}

// Returns the journals of the sites, in order.
fn journals_of(rt: &impl Abort, alloc: Global, sites: Vec<SiteOut<Taster>>) -> Vec<Vec<EventKind>> {
    let mut journals = Vec::new(alloc);
    for out in sites {
        let SiteOut { journal, .. } = out;
        journals.push(journal).expect(rt, "memory");
    }
    journals
}

// Steps a world in which the same jobs fail through the events, and returns its forks.
fn stepped(
    rt: &impl Abort,
    alloc: Global,
    plan: &Plan,
    fails_each: u32,
    events: &[Event],
) -> Vec<Fork> {
    let mut world = world_where(rt, alloc, plan, fails_each);
    for event in events {
        same(rt, &world.step(*event), &Ok(()));
    }
    same(rt, &world.count(), &0);
    world.into_forks()
}

// Checks that each two forks have the same log.
fn have_same_logs(rt: &impl Abort, ones: &[Fork], others: &[Fork]) {
    same(rt, &ones.len(), &others.len());
    for (one, other) in ones.iter().zip(others) {
        same_log(rt, one, other);
    }
}

// Checks that the two forks have the same log.
fn same_log(rt: &impl Abort, one: &Fork, other: &Fork) {
    same(rt, &one.periods(), &other.periods());
    for i in 0..one.periods() {
        assert!(rt; i < one.periods() && i < other.periods());
        same(rt, &one.period(i), &other.period(i));
    }
}

// Checks that each two forks have the same entries.
fn have_same_entries(rt: &impl Abort, ones: &[Fork], others: &[Fork]) {
    same(rt, &ones.len(), &others.len());
    for (one, other) in ones.iter().zip(others) {
        same(rt, &one.len(), &other.len());
        for i in 0..one.len() {
            assert!(rt; i < one.len() && i < other.len());
            same(rt, &one.entry(i), &other.entry(i));
        }
    }
}

// Runs the plan of a graph once over links of a kind.
fn runs_once<R: Threads + Wait + Abort + Copy + Send + 'static>(
    rt: &R,
    alloc: Global,
    links: Links,
    shape: Shape,
    fails_each: u32,
) {
    let graph = graph_of(rt, alloc, shape);
    let plan = plan_of(rt, alloc, &graph);
    runs_over(rt, alloc, links, &graph, &plan, fails_each)
}

// Checks the number of forks, and that each has two meals of both its ends.
fn have_two_meals(rt: &impl Abort, forks: &[Fork], count: usize) {
    same(rt, &forks.len(), &count);
    for fork in forks {
        let (lower, higher) = fork.ends();
        let meals = (fork.meals_of(lower), fork.meals_of(higher));
        same(rt, &meals, &(2, 2));
    }
}

// Checks the number of links, and that on each all that was put was taken, and Close was put.
fn are_shut(rt: &impl Abort, links: &[LinkEnd], count: usize) {
    same(rt, &links.len(), &count);
    for link in links {
        same(rt, &(link.put(), link.shut()), &(link.taken(), true));
    }
}

// Checks the number of sites, and that each ate twice, without a fault.
fn ate_twice(rt: &impl Abort, sites: &[SiteOut<Taster>], count: usize) {
    same(rt, &sites.len(), &count);
    for site in sites {
        same(rt, &(site.ate, site.failed, site.fault), &(2, 0, None));
    }
}

// Runs five sites in a ring over links of a kind. Each eats twice, and a world comes to the same forks, entry by entry.
fn five_eat<R: Threads + Wait + Abort + Copy + Send + 'static>(
    rt: &R,
    alloc: Global,
    links: Links,
) {
    let plan = read_plan(alloc, RING).expect(rt, "a plan");
    let Gathered {
        forks,
        sites,
        links,
    } = left_of(rt, alloc, links, &plan, 0);
    have_two_meals(rt, forks.as_slice(), 5);
    are_shut(rt, links.as_slice(), 10);
    ate_twice(rt, sites.as_slice(), 5);
    let events = ordered(rt, alloc, &plan, sites);
    let world = stepped(rt, alloc, &plan, 0, events.as_slice());
    have_same_entries(rt, forks.as_slice(), world.as_slice())
}

#[test]
fn ring_of_five_eats_and_a_world_comes_to_the_same_forks(rt: HostRuntime) {
    for links in BOTH {
        five_eat(&rt, rt.alloc(), links);
    }
}

// Returns how often each of two sites quits in the order.
fn quits_in(events: &[Event]) -> (u32, u32) {
    let mut quits = (0u32, 0u32);
    for event in events {
        if event.kind == EventKind::Quit && event.site == 0 {
            quits.0 = quits.0.wrapping_add(1);
        } else if event.kind == EventKind::Quit {
            quits.1 = quits.1.wrapping_add(1);
        }
    }
    quits
}

// Runs a pair whose lower site resigns, and whose second job of three fails. Its part of the order has one Quit, and a
// world in which only this meal fails comes to the same forks, entry by entry.
fn lower_quits<R: Threads + Wait + Abort + Copy + Send + 'static>(
    rt: &R,
    alloc: Global,
    links: Links,
) {
    let plan = read_plan(alloc, RESIGNING_PAIR).expect(rt, "a plan");
    let Gathered { forks, sites, .. } = left_of(rt, alloc, links, &plan, 2);
    let events = ordered(rt, alloc, &plan, sites);
    same(rt, &quits_in(events.as_slice()), &(1, 0));
    second_fails(rt, alloc, &plan);
    let world = stepped(rt, alloc, &plan, 2, events.as_slice());
    have_same_entries(rt, forks.as_slice(), world.as_slice())
}

// Checks that only the second job of the lower site fails, if each second job of a site does.
fn second_fails(rt: &impl Abort, alloc: Global, plan: &Plan) {
    let fails = outcomes_of(alloc, plan, 2).expect(rt, "memory");
    let lists: [&[bool]; 2] = [&[false, true, false], &[false]];
    same(rt, &fails.len(), &lists.len());
    for (own, wanted) in fails.iter().zip(lists) {
        same(rt, &own.as_slice(), &wanted);
    }
}

#[test]
fn site_that_resigns_quits_once_in_the_order(rt: HostRuntime) {
    for links in BOTH {
        lower_quits(&rt, rt.alloc(), links);
    }
}

#[test]
fn rings_eat_all_their_meals(rt: HostRuntime) {
    for sites in [5, 64] {
        let ring = Shape::Ring { sites, jobs: 1000 };
        runs_once(&rt, rt.alloc(), Links::Channels, ring, 0);
    }
}

#[test]
fn stars_eat_all_their_meals(rt: HostRuntime) {
    let star = Shape::Star {
        sites: 64,
        jobs: 1000,
    };
    runs_once(&rt, rt.alloc(), Links::Channels, star, 0)
}

#[test]
fn sites_that_are_all_neighbours_eat_all_their_meals(rt: HostRuntime) {
    let complete = Shape::Complete { jobs: 1000 };
    runs_once(&rt, rt.alloc(), Links::Channels, complete, 0)
}

#[test]
fn grids_eat_all_their_meals(rt: HostRuntime) {
    let grid = Shape::Grid { jobs: 1000 };
    runs_once(&rt, rt.alloc(), Links::Channels, grid, 7)
}

#[test]
fn random_graphs_eat_their_meals(rt: HostRuntime) {
    for seed in 0..30u32 {
        runs_once(
            &rt,
            rt.alloc(),
            Links::Channels,
            Shape::Random { seed },
            seed % 4,
        );
    }
}

// Runs the same graphs with fewer jobs over rings.
#[test]
fn meals_are_eaten_over_rings(rt: HostRuntime) {
    for shape in [
        Shape::Ring {
            sites: 5,
            jobs: 1000,
        },
        Shape::Ring {
            sites: 64,
            jobs: 100,
        },
        Shape::Star {
            sites: 64,
            jobs: 100,
        },
        Shape::Complete { jobs: 100 },
        Shape::Grid { jobs: 100 },
    ] {
        runs_once(&rt, rt.alloc(), Links::Rings, shape, 7);
    }
    for seed in 0..30u32 {
        runs_once(
            &rt,
            rt.alloc(),
            Links::Rings,
            Shape::Random { seed },
            seed % 4,
        );
    }
}

// The first site resigns, and its second job of three fails.
#[test]
fn site_that_resigns_eats_no_more(rt: HostRuntime) {
    for links in BOTH {
        runs_once(&rt, rt.alloc(), links, Shape::ResigningPair, 2);
    }
}

#[test]
fn many_small_runs_end(rt: HostRuntime) {
    let graph = graph_of(&rt, rt.alloc(), Shape::Ring { sites: 5, jobs: 2 });
    let plan = plan_of(&rt, rt.alloc(), &graph);
    for round in 0..200u32 {
        for links in BOTH {
            runs_over(&rt, rt.alloc(), links, &graph, &plan, round % 3);
        }
    }
}
