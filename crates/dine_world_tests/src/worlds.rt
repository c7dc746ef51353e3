//! Worlds, and what their sites do in them.
mod graph;
mod outcomes;
mod readers;

use crate::asserts::{holds, same};
use crate::forks::{has_log, has_periods};
use crate::plans::read;
use dine_plan::Plan;
use dine_rules::{Event, EventKind, Phase};
use dine_test_plans::{ONE_SIDED_PAIR, PAIR};
use dine_token::{Act, Entry, Fork};
use dine_world::{NotEnabled, World};
use graph::{Graph, graph_of};
use std::alloc::Global;
use std::fmt::Write;
use std::process::Abort;

// What meal `k` of a site does: one in three sets the value of each edge, and the others add to it.
fn act_of(site: u32, k: u32) -> Act {
    let amount = u64::from(site)
        .saturating_mul(10)
        .saturating_add(u64::from(k));
    if site.wrapping_add(k) % 3 == 0 {
        Act::Set(amount)
    } else {
        Act::Add(amount)
    }
}

// The value of an edge before the first meal.
fn first_value(edge: u32) -> u64 {
    u64::from(edge).saturating_mul(100)
}

// Adds a job of a site, with its act, and whether it fails.
fn push_job(rt: &impl Abort, text: &mut String, graph: Graph, site: u32, job: u32) {
    let k = job.saturating_add(1);
    let fails = graph.fails(site, k);
    let (act, amount) = match act_of(site, k) {
        Act::Add(amount) => ("add", amount),
        Act::Set(amount) => ("set", amount),
    };
    write!(
        text,
        "{{ name = \"j{job}\", fails = {fails}, {act} = {amount} }}, "
    )
    .expect(rt, "memory");
}

fn push_site(rt: &impl Abort, text: &mut String, graph: Graph, site: u32) {
    let policy = if graph.resigns(site) { "resign" } else { "go" };
    write!(
        text,
        "[[site]]\nname = \"s{site}\"\non_fault = \"{policy}\"\njobs = ["
    )
    .expect(rt, "memory");
    for job in 0..graph.due_of(site) {
        push_job(rt, text, graph, site, job);
    }
    text.push_str("]\n").expect(rt, "memory");
}

fn push_edge(rt: &impl Abort, text: &mut String, edge: u32, ends: (u32, u32)) {
    let (one, other) = ends;
    let value = first_value(edge);
    write!(
        text,
        "[[edge]]\nends = [\"s{one}\", \"s{other}\"]\nvalue = {value}\n"
    )
    .expect(rt, "memory");
}

// The text of a plan of version 2.
fn text_of(rt: &impl Abort, alloc: Global, graph: Graph) -> String {
    let mut text = String::from_str(alloc, "version = 2\n").expect(rt, "memory");
    for site in 0..graph.sites() {
        push_site(rt, &mut text, graph, site);
    }
    let mut edge = 0u32;
    for ends in graph.edges {
        push_edge(rt, &mut text, edge, *ends);
        edge = edge.saturating_add(1);
    }
    text
}

fn plan_by(rt: &impl Abort, alloc: Global, graph: Graph) -> Plan {
    let text = text_of(rt, alloc, graph);
    read(rt, alloc, text.as_str())
}

// The plan of a site for each number of jobs, none of which fails, and of these edges.
fn plan_with(rt: &impl Abort, alloc: Global, jobs: &[u32], edges: &[(u32, u32)]) -> Plan {
    plan_by(rt, alloc, graph_of(jobs, edges))
}

// Returns the plan of a number of sites, each with a number of jobs, and of these edges.
fn plan_of(rt: &impl Abort, alloc: Global, sites: usize, jobs: u32, edges: &[(u32, u32)]) -> Plan {
    let jobs = vec![in alloc; jobs; sites].expect(rt, "memory");
    plan_with(rt, alloc, jobs.as_slice(), edges)
}

// Two sites with an edge, and a job each.
fn pair(rt: &impl Abort, alloc: Global) -> Plan {
    read(rt, alloc, PAIR)
}

fn opened(rt: &impl Abort, alloc: Global, plan: &Plan) -> World {
    World::open(alloc, plan).expect(rt, "memory")
}

fn entry_at(rt: &impl Abort, fork: &Fork, i: u64) -> Entry {
    holds(rt, i < fork.len());
    fork.entry(i)
}

// Checks that the event is refused, and that as many events are enabled as before.
fn refuse(rt: &impl Abort, world: &mut World, site: u32, kind: EventKind) {
    let before = world.count();
    same(rt, &world.step(Event { site, kind }), &Err(NotEnabled));
    same(rt, &world.count(), &before);
}

// Each site ate all its jobs and thinks, and nothing is enabled.
fn is_complete(rt: &impl Abort, plan: &Plan, world: &World) {
    same(rt, &world.count(), &0);
    same(rt, &world.enabled(0), &None);
    for site in 0..plan.sites() {
        same(rt, &world.ate(site), &Some(plan.jobs(site)));
        same(rt, &world.phase(site), &Some(Phase::Thinking));
    }
}

// Checks that the forks are those of all edges, in order.
fn spend(rt: &impl Abort, plan: &Plan, world: World) -> Vec<Fork> {
    let forks = world.into_forks();
    same(rt, &forks.len(), &(plan.edges() as usize));
    for edge in 0..plan.edges() {
        let fork = forks.get(edge as usize).expect(rt, "a fork");
        same(rt, &fork.edge(), &edge);
        same(rt, &fork.ends(), &plan.ends(edge));
    }
    forks
}

// Each fork has all meals of both its ends.
fn has_all_meals(rt: &impl Abort, plan: &Plan, forks: &[Fork]) {
    for fork in forks {
        let (lower, higher) = fork.ends();
        holds(rt, lower < plan.sites());
        holds(rt, higher < plan.sites());
        same(rt, &fork.meals_of(lower), &plan.jobs(lower));
        same(rt, &fork.meals_of(higher), &plan.jobs(higher));
    }
}

// No two neighbours eat, and each edge has its fork.
fn is_safe(rt: &impl Abort, plan: &Plan, world: &World) {
    let eating = Some(Phase::Eating);
    for edge in 0..plan.edges() {
        let (lower, higher) = plan.ends(edge);
        holds(
            rt,
            world.phase(lower) != eating || world.phase(higher) != eating,
        );
        let fork = world.fork(edge).expect(rt, "a fork");
        same(rt, &fork.edge(), &edge);
    }
    holds(rt, world.fork(plan.edges()).is_none());
}

// Checks that `count` is the number of enabled events.
fn count_is_exact(rt: &impl Abort, world: &World) -> u32 {
    let count = world.count();
    for n in 0..count {
        holds(rt, world.enabled(n).is_some());
    }
    same(rt, &world.enabled(count), &None);
    count
}

// Does events by a fixed generator of choices, at most a given number, and returns the number of events done.
fn wander(rt: &impl Abort, plan: &Plan, world: &mut World, seed: u32, limit: u64) -> u64 {
    let mut draw = seed;
    for events in 0..limit {
        is_safe(rt, plan, world);
        let count = count_is_exact(rt, world);
        if count == 0 {
            return events;
        }
        draw = draw.wrapping_mul(1_664_525).wrapping_add(1_013_904_223);
        let event = world.enabled((draw >> 16) % count).expect(rt, "an event");
        same(rt, &world.step(event), &Ok(()));
    }
    limit
}

// Some runs of the plan's world to the end.
fn wander_to_the_end(rt: &impl Abort, alloc: Global, plan: &Plan) {
    for seed in 0..8u32 {
        let mut world = opened(rt, alloc, plan);
        let bound = world.bound();
        let events = wander(rt, plan, &mut world, seed, bound);
        holds(rt, events <= bound);
        is_safe(rt, plan, &world);
        is_complete(rt, plan, &world);
        let forks = spend(rt, plan, world);
        has_all_meals(rt, plan, forks.as_slice());
    }
}

// What happens in a world, or what it reports then. A test is a list of these, which one function goes through.
#[derive(Clone, Copy)]
enum Step<'a> {
    // This number of events is enabled.
    Count(u32),
    // This is the n-th of them, from 0.
    Enabled(u32, Option<Event>),
    // The event is refused.
    Refused(u32, EventKind),
    // The n-th enabled event is this one of this site, which is done.
    Does(u32, u32, EventKind),
    // This number of these choices has an event.
    Replays(&'a [u32], u64),
    // The rest of the run has this number of events.
    Finishes(u64),
    // No world of the plan has more events.
    Bound(u64),
    // The site is in this phase, and ate this number of meals.
    Site(u32, Option<Phase>, Option<u32>),
    // Whether there is a fork of the edge.
    HasFork(u32, bool),
    // The fork of the first edge has this log.
    Log(&'a [Entry]),
    // Nothing is left to do.
    Complete,
}

// A step by which something happens.
fn happens(rt: &impl Abort, plan: &Plan, world: &mut World, step: Step) {
    match step {
        Step::Refused(site, kind) => refuse(rt, world, site, kind),
        Step::Does(choice, site, kind) => {
            let event = Event { site, kind };
            same(rt, &world.enabled(choice), &Some(event));
            same(rt, &world.step(event), &Ok(()));
            is_safe(rt, plan, world);
        }
        Step::Replays(choices, events) => same(rt, &world.replay(choices), &events),
        Step::Finishes(events) => same(rt, &world.finish(), &events),
        _ => {}
    }
}

// Does a step that checks the world.
fn checks(rt: &impl Abort, plan: &Plan, world: &World, step: Step) {
    match step {
        Step::Count(count) => same(rt, &world.count(), &count),
        Step::Enabled(n, event) => same(rt, &world.enabled(n), &event),
        Step::Bound(bound) => same(rt, &world.bound(), &bound),
        Step::Site(site, phase, ate) => {
            same(rt, &(world.phase(site), world.ate(site)), &(phase, ate));
        }
        Step::HasFork(edge, is_there) => same(rt, &world.fork(edge).is_some(), &is_there),
        Step::Log(log) => has_log(rt, world.fork(0).expect(rt, "a fork"), log),
        Step::Complete => is_complete(rt, plan, world),
        _ => {}
    }
}

// Does these steps in a world of the plan, and returns its forks.
fn goes(rt: &impl Abort, alloc: Global, plan: &Plan, steps: &[Step]) -> Vec<Fork> {
    let mut world = opened(rt, alloc, plan);
    for step in steps {
        happens(rt, plan, &mut world, *step);
        checks(rt, plan, &world, *step);
    }
    spend(rt, plan, world)
}

// The same, and checks that they have all meals of both their ends.
fn goes_whole(rt: &impl Abort, alloc: Global, plan: &Plan, steps: &[Step]) {
    let forks = goes(rt, alloc, plan, steps);
    has_all_meals(rt, plan, forks.as_slice());
}

const LOWER_MAY_HUNGER: Step = Step::Enabled(
    0,
    Some(Event {
        site: 0,
        kind: EventKind::Hungry,
    }),
);

const HIGHER_MAY_HUNGER: Step = Step::Enabled(
    1,
    Some(Event {
        site: 1,
        kind: EventKind::Hungry,
    }),
);

// Either site may grow hungry, and there is no other event. There is a second site, which thinks and ate nothing, and a
// first edge. There is no third site and no second edge.
#[test]
fn pair_opens_with_two_events(rt: HostRuntime) {
    let steps = [
        Step::Count(2),
        LOWER_MAY_HUNGER,
        HIGHER_MAY_HUNGER,
        Step::Enabled(2, None),
        Step::Refused(1, EventKind::Take(0)),
        Step::Refused(1, EventKind::Take(1)),
        Step::Refused(0, EventKind::Begin),
        Step::Refused(2, EventKind::Hungry),
        Step::Count(2),
        LOWER_MAY_HUNGER,
        HIGHER_MAY_HUNGER,
        Step::Enabled(2, None),
        Step::Site(1, Some(Phase::Thinking), Some(0)),
        Step::Site(2, None, None),
        Step::HasFork(0, true),
        Step::HasFork(1, false),
    ];
    let plan = pair(&rt, rt.alloc());
    let _forks = goes(&rt, rt.alloc(), &plan, &steps);
    let refusal = NotEnabled;
    let words = format!(in rt.alloc(); "{refusal}").expect(&rt, "memory");
    same(&rt, &words.as_str(), &"the event is not enabled");
}

#[test]
fn pair_finishes(rt: HostRuntime) {
    let steps = [
        Step::Finishes(18),
        Step::Complete,
        Step::Finishes(0),
        Step::Site(0, Some(Phase::Thinking), Some(1)),
        Step::Site(1, Some(Phase::Thinking), Some(1)),
        Step::Bound(22),
        Step::Log(&[
            Entry::Meal { site: 0, k: 1 },
            Entry::Move { to: 1 },
            Entry::Meal { site: 1, k: 1 },
        ]),
    ];
    goes_whole(&rt, rt.alloc(), &pair(&rt, rt.alloc()), &steps);
}

// After these steps of the pair the higher site ate first, with the fork that the lower gave it.
fn higher_eats_first(rt: &impl Abort, alloc: Global, steps: &[Step]) {
    let forks = goes(rt, alloc, &pair(rt, alloc), steps);
    let fork = forks.get(0).expect(rt, "a fork");
    let log = [
        Entry::Move { to: 1 },
        Entry::Meal { site: 1, k: 1 },
        Entry::Move { to: 0 },
        Entry::Meal { site: 0, k: 1 },
    ];
    has_log(rt, fork, &log);
}

#[test]
fn higher_site_asks_first(rt: HostRuntime) {
    let steps = [
        Step::Does(1, 1, EventKind::Hungry),
        Step::Does(1, 1, EventKind::Ask(0)),
        Step::Does(0, 0, EventKind::Take(0)),
        Step::Does(0, 0, EventKind::Give(0)),
        Step::Does(0, 0, EventKind::Hungry),
        Step::Does(0, 0, EventKind::Ask(0)),
        Step::Does(0, 1, EventKind::Take(0)),
        Step::Does(0, 1, EventKind::Take(0)),
        Step::Does(0, 1, EventKind::Begin),
        Step::Does(0, 1, EventKind::End),
        Step::Does(0, 1, EventKind::Give(0)),
        Step::Does(0, 0, EventKind::Take(0)),
        Step::Does(0, 0, EventKind::Begin),
        Step::Does(0, 0, EventKind::End),
        Step::Does(0, 0, EventKind::Done(0)),
        Step::Does(0, 1, EventKind::Take(0)),
        Step::Does(0, 1, EventKind::Done(0)),
        Step::Does(0, 0, EventKind::Take(0)),
        Step::Does(0, 0, EventKind::Close(0)),
        Step::Does(0, 1, EventKind::Take(0)),
        Step::Does(0, 1, EventKind::Close(0)),
        Step::Does(0, 0, EventKind::Take(0)),
        Step::Complete,
    ];
    higher_eats_first(&rt, rt.alloc(), &steps);
}

#[test]
fn choices_are_replayed(rt: HostRuntime) {
    let steps = [
        Step::Replays(&[], 0),
        Step::Replays(&[1, 1, 0, 0], 4),
        Step::Finishes(18),
        Step::Complete,
    ];
    higher_eats_first(&rt, rt.alloc(), &steps);
}

#[test]
fn choices_of_no_event_are_passed_over(rt: HostRuntime) {
    let steps = [
        Step::Replays(&[9, 2], 0),
        Step::Replays(&[1, 1], 2),
        Step::Count(2),
        Step::Enabled(2, None),
        Step::Replays(&[2], 0),
        Step::Count(2),
        Step::Replays(&[2, 0, 0], 2),
        Step::Finishes(18),
        Step::Complete,
    ];
    higher_eats_first(&rt, rt.alloc(), &steps);
}

// After the choices and all that is left, the fork of two sites has these periods, each as its site, its first meal and
// how many.
fn ends_with_periods(
    rt: &impl Abort,
    alloc: Global,
    text: &str,
    choices: &[u32],
    periods: &[(u32, u32, u32)],
) {
    let plan = read(rt, alloc, text);
    let mut world = opened(rt, alloc, &plan);
    let _ = world.replay(choices);
    let _ = world.finish();
    let fork = world.fork(0).expect(rt, "a fork");
    has_periods(rt, fork, periods);
    let _forks = spend(rt, &plan, world);
}

#[test]
fn forks_of_pairs_have_these_periods(rt: HostRuntime) {
    let runs: [(&str, &[u32], &[(u32, u32, u32)]); 3] = [
        (PAIR, &[], &[(0, 1, 1), (1, 1, 1)]),
        (PAIR, &[1, 1, 0, 0], &[(0, 1, 0), (1, 1, 1), (0, 1, 1)]),
        (ONE_SIDED_PAIR, &[], &[(0, 1, 3)]),
    ];
    for (text, choices, periods) in runs {
        ends_with_periods(&rt, rt.alloc(), text, choices, periods);
    }
}

#[test]
fn site_alone_eats_all_its_jobs(rt: HostRuntime) {
    let steps = [
        Step::Count(1),
        Step::Bound(6),
        Step::Finishes(6),
        Step::Site(0, Some(Phase::Thinking), Some(2)),
        Step::HasFork(0, false),
        Step::Complete,
    ];
    let plan = plan_of(&rt, rt.alloc(), 1, 2, &[]);
    same(&rt, &goes(&rt, rt.alloc(), &plan, &steps).len(), &0);
}

// The second of the lower site's three jobs fails.
const RESIGNING: Graph = Graph {
    jobs: &[3, 1],
    edges: &[(0, 1)],
    failing: &[2, 0],
    resigning: &[true, false],
};

// After the meal that failed the lower site may quit, and can do nothing else of its own.
#[test]
fn site_that_resigns_drops_its_jobs_left(rt: HostRuntime) {
    let (site, kind) = (0, EventKind::Quit);
    let steps = [
        Step::Bound(36),
        Step::Replays(&[0, 0, 0], 3),
        Step::Refused(site, kind),
        Step::Replays(&[0, 0, 0], 3),
        Step::Enabled(0, Some(Event { site, kind })),
        Step::Refused(0, EventKind::Hungry),
        Step::Refused(0, EventKind::Done(0)),
        Step::Finishes(16),
        Step::Site(0, Some(Phase::Thinking), Some(2)),
        Step::Site(1, Some(Phase::Thinking), Some(1)),
        Step::Log(&[
            Entry::Meal { site: 0, k: 1 },
            Entry::Meal { site: 0, k: 2 },
            Entry::Move { to: 1 },
            Entry::Meal { site: 1, k: 1 },
        ]),
    ];
    let plan = plan_by(&rt, rt.alloc(), RESIGNING);
    let _forks = goes(&rt, rt.alloc(), &plan, &steps);
}

#[test]
fn row_of_three_finishes(rt: HostRuntime) {
    let steps = [Step::Bound(41), Step::Finishes(33), Step::Complete];
    let plan = plan_of(&rt, rt.alloc(), 3, 1, &[(0, 1), (1, 2)]);
    goes_whole(&rt, rt.alloc(), &plan, &steps);
}

#[test]
fn sites_without_jobs_only_say_so(rt: HostRuntime) {
    let steps = [Step::Bound(8), Step::Finishes(8), Step::Complete];
    let plan = plan_of(&rt, rt.alloc(), 2, 0, &[(0, 1)]);
    goes_whole(&rt, rt.alloc(), &plan, &steps);
}

// Whatever event is the last, the forks of sites, of meals and of links are returned.
#[test]
fn forks_come_out_at_any_moment(rt: HostRuntime) {
    let plan = plan_of(&rt, rt.alloc(), 3, 1, [(0, 1), (1, 2), (0, 2)].as_slice());
    for limit in 0..40u64 {
        for seed in 0..4u32 {
            let mut world = opened(&rt, rt.alloc(), &plan);
            let events = wander(&rt, &plan, &mut world, seed, limit);
            holds(&rt, events <= limit);
            let _forks = spend(&rt, &plan, world);
        }
    }
}

#[test]
fn all_eat_whatever_is_chosen(rt: HostRuntime) {
    let alloc = rt.alloc();
    let rows = plan_of(&rt, alloc, 4, 3, [(0, 1), (1, 2), (2, 3)].as_slice());
    wander_to_the_end(&rt, alloc, &pair(&rt, alloc));
    wander_to_the_end(&rt, alloc, &rows);
}

#[test]
fn all_in_a_ring_eat_whatever_is_chosen(rt: HostRuntime) {
    let alloc = rt.alloc();
    let three = plan_of(&rt, alloc, 3, 2, [(0, 1), (1, 2), (2, 0)].as_slice());
    let five = plan_of(
        &rt,
        alloc,
        5,
        2,
        [(0, 1), (1, 2), (2, 3), (3, 4), (4, 0)].as_slice(),
    );
    wander_to_the_end(&rt, alloc, &three);
    wander_to_the_end(&rt, alloc, &five);
}

#[test]
fn all_in_a_star_eat_whatever_is_chosen(rt: HostRuntime) {
    let alloc = rt.alloc();
    let star = plan_of(
        &rt,
        alloc,
        6,
        2,
        [(0, 1), (0, 2), (0, 3), (0, 4), (0, 5)].as_slice(),
    );
    wander_to_the_end(&rt, alloc, &star);
}
