// Graphs, the plans of them, and what is left of a run on one: it is held against the graph, and each fork's log
// against the rules, entry by entry.
use crate::asserts::same;
use dine_link::LinkEnd;
use dine_plan::{Plan, read_plan};
use dine_run::{Call, SiteOut};
use dine_test_diners::Taster;
use dine_token::{Entry, Fork};
use dine_world::EventKind;
use std::alloc::{AllocError, Global};
use std::process::Abort;

// How many jobs each site has, the two ends of each edge, the lower one first, and which sites resign. A site past the
// end of that list goes on.
#[derive(Drop)]
pub struct Graph {
    pub jobs: Vec<u32>,
    pub edges: Vec<(u32, u32)>,
    pub resigning: Vec<bool>,
}

impl Graph {
    pub fn resigns(&self, site: u32) -> bool {
        self.resigning.get(site as usize).copied().unwrap_or(false)
    }

    // Returns the number of meals of the site if the jobs fail whose numbers are multiples of this, or none if it is 0.
    pub fn meals(&self, site: u32, fails_each: u32) -> Option<u32> {
        let jobs = self.jobs.get(site as usize).copied()?;
        if self.resigns(site) && fails_each > 0 && fails_each < jobs {
            Some(fails_each)
        } else {
            Some(jobs)
        }
    }
}

// The graphs of the runs. All sites have the same number of jobs, unless something else is given.
#[derive(Clone, Copy)]
pub enum Shape {
    // Sites without edges.
    Apart { sites: u32, jobs: u32 },
    // Each site has an edge with the next, and the last with the first.
    Ring { sites: u32, jobs: u32 },
    // The first site has an edge with each other one.
    Star { sites: u32, jobs: u32 },
    // Each of 16 sites has an edge with each other one.
    Complete { jobs: u32 },
    // Eight rows of eight sites, each of which has an edge with those beside, above and below it.
    Grid { jobs: u32 },
    // 2 to 12 sites with 0 to 8 jobs each, about half of which resign, and about a third of all edges.
    Random { seed: u32 },
    // Two sites with three jobs and one, of which the first resigns.
    ResigningPair,
}

pub fn graph_of(rt: &impl Abort, alloc: Global, shape: Shape) -> Graph {
    match shape {
        Shape::Apart { sites, jobs } => apart(rt, alloc, sites, jobs),
        Shape::Ring { sites, jobs } => ring(rt, alloc, sites, jobs),
        Shape::Star { sites, jobs } => star(rt, alloc, sites, jobs),
        Shape::Complete { jobs } => complete(rt, alloc, jobs),
        Shape::Grid { jobs } => grid(rt, alloc, jobs),
        Shape::Random { seed } => random(rt, alloc, seed),
        Shape::ResigningPair => resigning_pair(rt, alloc),
    }
}

impl Graph {
    fn join(&mut self, rt: &impl Abort, lower: u32, higher: u32) {
        self.edges.push((lower, higher)).expect(rt, "memory");
    }

    fn seat(&mut self, rt: &impl Abort, jobs: u32) {
        self.jobs.push(jobs).expect(rt, "memory");
    }

    fn say_resigns(&mut self, rt: &impl Abort, resigns: bool) {
        self.resigning.push(resigns).expect(rt, "memory");
    }
}

fn apart(rt: &impl Abort, alloc: Global, sites: u32, jobs: u32) -> Graph {
    let mut graph = Graph {
        jobs: Vec::new(alloc),
        edges: Vec::new(alloc),
        resigning: Vec::new(alloc),
    };
    for _ in 0..sites {
        graph.seat(rt, jobs);
    }
    graph
}

fn ring(rt: &impl Abort, alloc: Global, sites: u32, jobs: u32) -> Graph {
    let mut graph = apart(rt, alloc, sites, jobs);
    let mut last = 0;
    for site in 1..sites {
        graph.join(rt, last, site);
        last = site;
    }
    graph.join(rt, 0, last);
    graph
}

fn star(rt: &impl Abort, alloc: Global, sites: u32, jobs: u32) -> Graph {
    let mut graph = apart(rt, alloc, sites, jobs);
    for leaf in 1..sites {
        graph.join(rt, 0, leaf);
    }
    graph
}

fn complete(rt: &impl Abort, alloc: Global, jobs: u32) -> Graph {
    let mut graph = apart(rt, alloc, 16, jobs);
    for pair in 0..256u32 {
        let (lower, higher) = (pair % 16, pair / 16);
        if lower < higher {
            graph.join(rt, lower, higher);
        }
    }
    graph
}

fn grid(rt: &impl Abort, alloc: Global, jobs: u32) -> Graph {
    let mut graph = apart(rt, alloc, 64, jobs);
    for site in 0..64u32 {
        if site % 8 < 7 {
            graph.join(rt, site, site + 1);
        }
        if site < 56 {
            graph.join(rt, site, site + 8);
        }
    }
    graph
}

fn resigning_pair(rt: &impl Abort, alloc: Global) -> Graph {
    let mut graph = apart(rt, alloc, 0, 0);
    graph.seat(rt, 3);
    graph.seat(rt, 1);
    graph.join(rt, 0, 1);
    graph.say_resigns(rt, true);
    graph
}

// Numbers below 65,536 that look random, and are the same from the same start.
#[derive(Drop)]
pub struct Dice {
    pub state: u32,
}

impl Dice {
    fn roll(&mut self) -> u32 {
        self.state = self
            .state
            .wrapping_mul(1_664_525)
            .wrapping_add(1_013_904_223);
        self.state >> 16
    }
}

fn random(rt: &impl Abort, alloc: Global, seed: u32) -> Graph {
    let mut dice = Dice { state: seed };
    let sites = 2 + dice.roll() % 11;
    let mut graph = apart(rt, alloc, 0, 0);
    for _ in 0..sites {
        graph.seat(rt, dice.roll() % 9);
        graph.say_resigns(rt, dice.roll() % 2 == 0);
    }
    for pair in 0..144u32 {
        let (lower, higher) = (pair % 12, pair / 12);
        if lower < higher && higher < sites && dice.roll() % 3 == 0 {
            graph.join(rt, lower, higher);
        }
    }
    graph
}

// Returns the text of a number of jobs, as a plan has them.
fn push_jobs(text: &mut String, jobs: u32) -> Result<(), AllocError> {
    text.push_str("jobs = [")?;
    for _ in 0..jobs {
        text.push_str("{ name = \"x\" },")?;
    }
    text.push_str("]\n")
}

fn push_site(text: &mut String, site: u32, jobs: u32, resigns: bool) -> Result<(), AllocError> {
    let policy = if resigns { "resign" } else { "go" };
    write!(
        text,
        "[[site]]\nname = \"s{site}\"\non_fault = \"{policy}\"\n"
    )?;
    push_jobs(text, jobs)
}

fn push_edge(text: &mut String, lower: u32, higher: u32) -> Result<(), AllocError> {
    write!(text, "[[edge]]\nends = [\"s{lower}\", \"s{higher}\"]\n")
}

fn plan_text(rt: &impl Abort, alloc: Global, graph: &Graph) -> String {
    let mut text = String::from_str(alloc, "version = 2\n").expect(rt, "memory");
    for (site, jobs) in (0..64u32).zip(graph.jobs.as_slice()) {
        push_site(&mut text, site, *jobs, graph.resigns(site)).expect(rt, "memory");
    }
    for (lower, higher) in graph.edges.as_slice() {
        push_edge(&mut text, *lower, *higher).expect(rt, "memory");
    }
    text
}

// The plan of the graph.
pub fn plan_of(rt: &impl Abort, alloc: Global, graph: &Graph) -> Plan {
    let text = plan_text(rt, alloc, graph);
    read_plan(alloc, text.as_str()).expect(rt, "a plan")
}

// An end of a fork, and how many meals it had with it.
#[derive(Clone, Copy)]
struct Ate {
    site: u32,
    meals: u32,
}

// The two ends of a fork by its log: the end that has it and the other one, and whether it was used since it was last
// sent.
#[derive(Clone, Copy)]
struct Way {
    here: Ate,
    there: Ate,
    is_used: bool,
    moves: u64,
}

// Checks the log: the fork goes to and fro, from the lower end first. Only the end that has it eats with it, and the
// meals of an end are numbered from 1. After the first Move it is used before it is sent again.
fn way_of(rt: &impl Abort, fork: &Fork, lower: u32, higher: u32) -> Way {
    let mut way = Way {
        here: Ate {
            site: lower,
            meals: 0,
        },
        there: Ate {
            site: higher,
            meals: 0,
        },
        is_used: true,
        moves: 0,
    };
    for i in 0..fork.len() {
        match fork.entry(i) {
            Entry::Move { to } => {
                assert!(rt; way.is_used);
                same(rt, &to, &way.there.site);
                way = Way {
                    here: way.there,
                    there: way.here,
                    is_used: false,
                    moves: way.moves.wrapping_add(1),
                };
            }
            Entry::Meal { site, k } => {
                let next = (way.here.site, way.here.meals.checked_add(1));
                same(rt, &(site, Some(k)), &next);
                way.here.meals = k;
                way.is_used = true;
            }
        }
    }
    way
}

// The two ends of an edge, the lower one first.
fn ends_at(rt: &impl Abort, graph: &Graph, edge: u32) -> (u32, u32) {
    match graph.edges.get(edge as usize) {
        Some(ends) => *ends,
        None => panic!(rt; "no edge {edge}"),
    }
}

// By the fork's log each end had all its meals, and the fork says no more than its log.
fn holds_fork(rt: &impl Abort, graph: &Graph, fails_each: u32, edge: u32, fork: &Fork) {
    let (lower, higher) = ends_at(rt, graph, edge);
    same(rt, &(fork.edge(), fork.ends()), &(edge, (lower, higher)));
    let way = way_of(rt, fork, lower, higher);
    for end in [way.here, way.there] {
        let ate = (edge, end.site, Some(end.meals));
        same(
            rt,
            &(edge, end.site, graph.meals(end.site, fails_each)),
            &ate,
        );
    }
    let at_end = (way.here.site, way.is_used, way.moves);
    same(rt, &(fork.at(), fork.is_dirty(), fork.moves()), &at_end);
}

// One fork an edge, in order.
pub fn holds_forks(rt: &impl Abort, graph: &Graph, fails_each: u32, forks: &[Fork]) {
    same(rt, &forks.len(), &graph.edges.len());
    for (edge, fork) in (0..512u32).zip(forks) {
        holds_fork(rt, graph, fails_each, edge, fork);
    }
}

// All that was put was taken, and Close is the last of it. Each time that the fork was sent it was asked for before: so
// both links of its edge had a letter each time, and then Done and Close.
fn holds_link(rt: &impl Abort, link: &LinkEnd, edge: u32, from: u32, fork: &Fork) {
    same(rt, &(link.edge(), link.from()), &(edge, from));
    same(rt, &(link.put(), link.shut()), &(link.taken(), true));
    let letters = fork.moves().saturating_add(2);
    same(rt, &(edge, from, link.put()), &(edge, from, letters));
}

// The two links of each edge in order, that from the lower end first.
pub fn holds_links(rt: &impl Abort, graph: &Graph, forks: &[Fork], links: &[LinkEnd]) {
    let edges = (graph.edges.len(), 0);
    same(rt, &(links.len() / 2, links.len() % 2), &edges);
    for (number, link) in (0..1024u32).zip(links) {
        let edge = number / 2;
        let (lower, higher) = ends_at(rt, graph, edge);
        let from = if number % 2 == 0 { lower } else { higher };
        match forks.get(edge as usize) {
            Some(fork) => holds_link(rt, link, edge, from, fork),
            None => panic!(rt; "no fork {edge}"),
        }
    }
}

// Checks that the diner was called for each meal in order, and that the right jobs failed.
fn holds_calls(rt: &impl Abort, diner: &Taster, meals: u32) {
    let calls = diner.log.calls();
    same(rt, &calls.len(), &(meals as usize));
    for (k, call) in (1..1001u32).zip(calls) {
        let ok = diner.fails_each == 0 || k % diner.fails_each != 0;
        same(rt, call, &Call { k, ok });
    }
}

// Checks that the journal has one Quit if the site dropped jobs, and else none.
fn holds_journal(rt: &impl Abort, journal: &[EventKind], has_quit: bool) {
    let quits = journal.iter().filter(|kind| **kind == EventKind::Quit);
    same(rt, &quits.count(), &usize::from(has_quit));
}

// Checks that the site did all its jobs, or those up to the first that failed.
fn holds_site(
    rt: &impl Abort,
    graph: &Graph,
    fails_each: u32,
    number: u32,
    site: &SiteOut<Taster>,
) {
    let Some(meals) = graph.meals(number, fails_each) else {
        panic!(rt; "no site {number}");
    };
    let failed = meals.checked_div(fails_each).unwrap_or(0);
    same(
        rt,
        &(site.site, site.ate, site.failed),
        &(number, meals, failed),
    );
    assert!(rt; site.stray.is_none() && site.fault.is_none());
    holds_calls(rt, &site.diner, meals);
    let jobs = graph.jobs.get(number as usize).copied();
    holds_journal(rt, site.journal.as_slice(), jobs != Some(meals));
}

// Checks each site in order, and that they have one token for each edge.
pub fn holds_sites(rt: &impl Abort, graph: &Graph, fails_each: u32, sites: &[SiteOut<Taster>]) {
    same(rt, &sites.len(), &graph.jobs.len());
    let mut tokens = 0usize;
    for (number, site) in (0..64u32).zip(sites) {
        holds_site(rt, graph, fails_each, number, site);
        tokens = tokens.wrapping_add(site.tokens.len());
    }
    same(rt, &tokens, &graph.edges.len());
}
