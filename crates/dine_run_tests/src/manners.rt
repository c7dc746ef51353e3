// Polite, patient and greedy runs: each check of a run holds for them too.
use crate::asserts::same;
use crate::graphs::*;
use crate::links::{BOTH, Links};
use dine_link::{ChannelLane, RingLane};
use dine_plan::read_plan;
use dine_run::{RunFault, RunOptions, order_of, run_with};
use dine_test_diners::{Taster, tasters};
use dine_test_plans::PAIR;
use dine_world::EventKind;
use std::alloc::Global;
use std::process::Abort;
use std::sync::Wait;
use std::thread::Threads;

// Runs the plan of the graph over links of a kind, and checks all that is left. The order of what the sites did has as
// many meals as they ate.
fn runs_well<R: Threads + Wait + Abort + Copy + Send + 'static>(
    rt: &R,
    alloc: Global,
    links: Links,
    options: RunOptions,
    shape: Shape,
    fails_each: u32,
) {
    let graph = graph_of(rt, alloc, shape);
    let plan = plan_of(rt, alloc, &graph);
    let diners = tasters(alloc, &plan, fails_each).expect(rt, "memory");
    let ended = match links {
        Links::Channels => run_with::<ChannelLane, Taster>(rt, alloc, &plan, diners, options),
        Links::Rings => run_with::<RingLane, Taster>(rt, alloc, &plan, diners, options),
    };
    let Ok(gathered) = ended else {
        panic!(rt; "no run");
    };
    let events = order_of(alloc, &plan, &gathered).expect(rt, "an order");
    let mut meals = 0usize;
    for site in gathered.sites.iter() {
        meals = meals.wrapping_add(site.ate as usize);
    }
    let begun = events
        .iter()
        .filter(|event| event.kind == EventKind::Begin)
        .count();
    same(rt, &begun, &meals);
    holds_sites(rt, &graph, fails_each, gathered.sites.as_slice());
    holds_forks(rt, &graph, fails_each, gathered.forks.as_slice());
    holds_links(
        rt,
        &graph,
        gathered.forks.as_slice(),
        gathered.links.as_slice(),
    )
}

// Runs a pair, a ring and a star over both kinds of links.
fn eat_all_their_meals<R: Threads + Wait + Abort + Copy + Send + 'static>(
    rt: &R,
    alloc: Global,
    options: RunOptions,
) {
    let shapes = [
        Shape::Star { sites: 2, jobs: 50 },
        Shape::Ring { sites: 5, jobs: 50 },
        Shape::Star { sites: 9, jobs: 50 },
    ];
    for shape in shapes {
        for links in BOTH {
            runs_well(rt, alloc, links, options, shape, 7);
        }
    }
}

#[test]
fn polite_runs_eat_all_their_meals(rt: HostRuntime) {
    eat_all_their_meals(&rt, rt.alloc(), RunOptions::polite())
}

#[test]
fn patient_runs_eat_all_their_meals(rt: HostRuntime) {
    eat_all_their_meals(&rt, rt.alloc(), RunOptions::patience(3))
}

#[test]
fn greedy_runs_eat_all_their_meals(rt: HostRuntime) {
    eat_all_their_meals(&rt, rt.alloc(), RunOptions::greedy())
}

// The first site's second job of three fails, and it resigns.
#[test]
fn polite_site_that_resigns_eats_no_more(rt: HostRuntime) {
    for links in BOTH {
        runs_well(
            &rt,
            rt.alloc(),
            links,
            RunOptions::polite(),
            Shape::ResigningPair,
            2,
        );
    }
}

// Runs ten random graphs over both kinds of links.
fn random_graphs_eat<R: Threads + Wait + Abort + Copy + Send + 'static>(
    rt: &R,
    alloc: Global,
    options: RunOptions,
) {
    for seed in 0..10u32 {
        for links in BOTH {
            runs_well(rt, alloc, links, options, Shape::Random { seed }, seed % 4);
        }
    }
}

#[test]
fn random_graphs_eat_their_meals_politely(rt: HostRuntime) {
    random_graphs_eat(&rt, rt.alloc(), RunOptions::polite())
}

#[test]
fn random_graphs_eat_their_meals_patiently(rt: HostRuntime) {
    random_graphs_eat(&rt, rt.alloc(), RunOptions::patience(3))
}

#[test]
fn random_graphs_eat_their_meals_greedily(rt: HostRuntime) {
    random_graphs_eat(&rt, rt.alloc(), RunOptions::greedy())
}

// Runs the pair politely on one thread. The fault names the second site.
fn falls_short_politely<R: Threads + Wait + Abort + Copy + Send + 'static>(
    rt: &R,
    alloc: Global,
    links: Links,
) {
    let plan = read_plan(alloc, PAIR).expect(rt, "a plan");
    let diners = tasters(alloc, &plan, 0).expect(rt, "memory");
    let options = RunOptions::polite().within(1);
    let ended = match links {
        Links::Channels => run_with::<ChannelLane, Taster>(rt, alloc, &plan, diners, options),
        Links::Rings => run_with::<RingLane, Taster>(rt, alloc, &plan, diners, options),
    };
    assert!(rt; matches!(ended, Err(RunFault::Thread(1))));
}

#[test]
fn polite_run_within_one_thread_has_none_for_the_second_site(rt: HostRuntime) {
    for links in BOTH {
        falls_short_politely(&rt, rt.alloc(), links);
    }
}
