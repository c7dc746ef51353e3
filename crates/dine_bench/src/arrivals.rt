//! Tasks that arrive while a run goes on: how long all of them take, how long each waits from its submission to its
//! begin, and how long the ends of epochs take. The sites and the edges are those of a plan.

use crate::epochs::{EpochEnds, EpochTimes};
use crate::waits::turned;
use anyhow::{Context, Result, bail};
use dine_plan::Plan;
use dine_run::{
    DEFAULT_PATIENCE, Executor, OpenDone, Place, PlanBuilder, SiteId, SubmitError, Table, Task,
    Ticket, run_open_with,
};
use std::alloc::Global;
use std::collections::VecDeque;
use std::env::Args;
use std::rt::Clock;
use std::sync::{Arc, Wait};
use std::thread;
use std::thread::Threads;
use std::time::{Duration, Instant};

// How many microseconds a submitter waits whose task was handed back.
const A_WHILE: u64 = 50;

// How tasks arrive in a run.
#[derive(Clone, Copy)]
struct Arrivals {
    // How many threads submit tasks, and how many tasks each of them submits.
    submitters: u32,
    tasks: u32,
    turns: u32,
    // The nanoseconds between two tasks of a submitter, in the mean. With 0 it submits as fast as it can.
    gap: u32,
    // How many tickets a submitter may have: it waits for the first of them before it submits a further task. With 0 it
    // asks for no ticket.
    window: u32,
    // How many tasks may wait for a site. With 0 it is any number.
    bound: u32,
    // How many sites get tasks: those of the lowest numbers.
    sites: u32,
    // How many meals a site may eat in an epoch.
    jobs: u32,
    // Whether the wait of each task is noted.
    noted: bool,
}

// What was found of a run: the nanoseconds from the first task to the end of the last one, those that each task waited,
// if they are noted, the number of epochs, and how long their ends took.
#[derive(Drop)]
struct Arrived {
    nanos: u64,
    waits: Vec<u64>,
    epochs: u64,
    ends: EpochEnds,
}

// What the tasks leave in the value of an edge: a word, so that their turns are done, and how long they waited. All
// edges have the times of the epoch.
#[derive(Drop)]
struct Left {
    word: u32,
    waits: Vec<u64>,
    times: Arc<EpochTimes, Global>,
}

impl Left {
    fn add(&mut self, turns: u32, wait: Option<Duration>) {
        self.word = turned(self.word, turns);
        if let Some(wait) = wait {
            // A wait that is lost here is missed in the number of all.
            let _ = self.waits.push(nanos_of(wait));
        }
    }
}

// A task that turns a word. It has the time of its submission if its wait is noted.
#[derive(Drop)]
struct Turning<R: Drop> {
    clock: R,
    turns: u32,
    since: Option<Instant>,
}

impl<R: Clock + Drop + Send> Task<Left, ()> for Turning<R> {
    fn run(self, table: &Table<'_, Left>) {
        let wait = match self.since {
            Some(since) => since.elapsed(&self.clock).ok(),
            None => None,
        };
        if let Ok(mut left) = table.open(Place(0)) {
            left.times.note(&self.clock, table.k());
            left.add(self.turns, wait);
        }
    }
}

/// Measures a run of the kind that the arguments ask for, and writes what was found, in nanoseconds.
pub fn measure_arrivals<R: Threads + Wait + Clock + Print + Eprint + Copy + Drop + Send + 'static>(
    rt: R,
    alloc: Global,
    plan: &Plan,
    mut arguments: Args,
) -> Result<()> {
    let arrivals = arrivals_of(&mut arguments, plan.sites())?;
    let plan = plan_of_tasks(alloc, plan, arrivals.jobs)?;
    let mut found = run_arrivals(&rt, alloc, &plan, arrivals)?;
    found.waits.sort()?;
    println!(rt; "open tasks={}", tasks_of(arrivals))?;
    eprintln!(rt; "nanos={} epochs={}", found.nanos, found.epochs)?;
    let (count, above) = (found.waits.len(), found.waits.len() / 100);
    if let (Some(p50), Some(p99), Some(longest)) = (
        found.waits.get(count / 2),
        found.waits.get(count.saturating_sub(above + 1)),
        found.waits.last(),
    ) {
        eprintln!(rt; "p50={p50} p99={p99} longest={longest}")?;
    }
    found.ends.write(&rt)
}

// Returns how tasks arrive, by the arguments and the number of sites.
fn arrivals_of(arguments: &mut Args, sites: u32) -> Result<Arrivals> {
    let (submitters, tasks) = (number_of(arguments)?, number_of(arguments)?);
    let (turns, gap) = (number_of(arguments)?, number_of(arguments)?);
    let (window, bound) = (number_of(arguments)?, number_of(arguments)?);
    let (targets, jobs) = (number_of(arguments)?, number_of(arguments)?);
    if jobs == 0 || targets > sites {
        bail!("a site has one job at least, and no more sites get tasks than there are");
    }
    let noted = match arguments.next() {
        Some(word) => {
            if word.as_str() != "--waits" {
                bail!("unknown argument");
            }
            true
        }
        None => false,
    };
    Ok(Arrivals {
        submitters,
        tasks,
        turns,
        gap,
        window,
        bound,
        sites: if targets == 0 { sites } else { targets },
        jobs,
        noted,
    })
}

fn number_of(arguments: &mut Args) -> Result<u32> {
    Ok(arguments.next().context("too few arguments")?.parse()?)
}

// Returns how many tasks are submitted in a run.
fn tasks_of(arrivals: Arrivals) -> u64 {
    u64::from(arrivals.submitters).saturating_mul(u64::from(arrivals.tasks))
}

// Returns a plan with the same sites and edges. Each site resigns, and may eat this number of meals in an epoch.
fn plan_of_tasks(alloc: Global, plan: &Plan, jobs: u32) -> Result<Plan> {
    let mut builder = PlanBuilder::open(alloc);
    for site in plan.site_ids() {
        let name = plan.name_of(site).context("no such site")?;
        let site = builder.site(name, jobs)?;
        builder.resign(site)?;
    }
    for edge in plan.edge_ids() {
        let (lower, higher) = plan.ends_of(edge).context("no such edge")?;
        builder.edge(lower, higher)?;
    }
    Ok(builder.finish()?)
}

// Does the run.
fn run_arrivals<R: Threads + Wait + Clock + Copy + Drop + Send + 'static>(
    rt: &R,
    alloc: Global,
    plan: &Plan,
    arrivals: Arrivals,
) -> Result<Arrived> {
    let times = Arc::new(alloc, EpochTimes::open(rt, arrivals.jobs)?)?;
    let values = values_of(alloc, plan, arrivals, &times)?;
    let bound = if arrivals.bound == 0 {
        u32::MAX
    } else {
        arrivals.bound
    };
    let executor: Executor<Turning<R>, ()> = Executor::bounded(alloc, plan, bound)?;
    let theirs = executor.share()?;
    let (sites, own) = (plan.sites(), *rt);
    let leader = thread::spawn(rt, move || {
        let taken = lead(&own, alloc, &theirs, sites, arrivals);
        theirs.close(&own);
        taken
    })?;
    let mut ends = EpochEnds::none(alloc);
    let ran = run_open_with(
        rt,
        alloc,
        plan,
        values,
        &executor,
        DEFAULT_PATIENCE,
        |_| ends.add(&times),
    );
    let Ok(done) = ran else {
        bail!("the run did not end in order");
    };
    let nanos = leader.join(rt)?;
    let waits = waits_of(alloc, &done, sites, arrivals)?;
    Ok(Arrived {
        nanos,
        waits,
        epochs: done.epochs,
        ends,
    })
}

// Returns what is in each edge at first. It has room for more waits than are noted in an edge in most runs, so that
// nothing is allocated for them while the run goes on.
fn values_of(
    alloc: Global,
    plan: &Plan,
    arrivals: Arrivals,
    times: &Arc<EpochTimes, Global>,
) -> Result<Vec<Left>> {
    let mut values = Vec::new(alloc);
    let most = tasks_of(arrivals).saturating_mul(5) / 2;
    let each = match most.checked_div(u64::from(arrivals.sites)) {
        Some(each) if arrivals.noted => usize::try_from(each)?,
        _ => 0,
    };
    for _ in 0..plan.edges() {
        values.push(Left {
            word: 1,
            waits: Vec::with_capacity(alloc, each)?,
            times: Arc::try_clone(times)?,
        })?;
    }
    Ok(values)
}

// Returns the waits of all tasks, if they were noted. Each site has done two visits more than its tasks.
fn waits_of(
    alloc: Global,
    done: &OpenDone<Left>,
    sites: u32,
    arrivals: Arrivals,
) -> Result<Vec<u64>> {
    let mut tasks = 0u64;
    for count in done.tasks.iter() {
        tasks = tasks.saturating_add(*count);
    }
    if tasks != tasks_of(arrivals).saturating_add(2 * u64::from(sites)) {
        bail!("a task was lost, or done twice");
    }
    let mut waits = Vec::new(alloc);
    for left in done.values.iter() {
        for wait in left.value.waits.iter() {
            waits.push(*wait)?;
        }
    }
    if arrivals.noted && waits.len() as u64 != tasks_of(arrivals) {
        bail!("a wait was lost");
    }
    Ok(waits)
}

// Has all tasks submitted, and returns how long they took. A site does its tasks in the order of their submission, so
// all are done once each site has done one more. One at each site before all shows that the sites are there.
fn lead<R: Threads + Wait + Clock + Copy + Drop + Send + 'static>(
    rt: &R,
    alloc: Global,
    executor: &Executor<Turning<R>, ()>,
    sites: u32,
    arrivals: Arrivals,
) -> Result<u64> {
    visit_all(rt, alloc, executor, sites)?;
    let start = Instant::now(rt)?;
    let mut submitters = Vec::new(alloc);
    for n in 0..arrivals.submitters {
        let theirs = executor.share()?;
        let own = *rt;
        submitters.push(thread::spawn(rt, move || {
            bring(&own, alloc, &theirs, arrivals, u64::from(n))
        })?)?;
    }
    for submitter in submitters {
        submitter.join(rt)?;
    }
    visit_all(rt, alloc, executor, sites)?;
    Ok(nanos_of(start.elapsed(rt)?))
}

// Has each site do a task without turns, and waits for all of these.
fn visit_all<R: Wait + Clock + Copy + Drop>(
    rt: &R,
    alloc: Global,
    executor: &Executor<Turning<R>, ()>,
    sites: u32,
) -> Result<()> {
    let mut tickets = Vec::new(alloc);
    for site in 0..sites {
        let task = Turning {
            clock: *rt,
            turns: 0,
            since: None,
        };
        if let Some(ticket) = put(rt, alloc, executor, SiteId(site), task, true)? {
            tickets.push(ticket)?;
        }
    }
    for ticket in tickets {
        ended(rt, ticket)?;
    }
    Ok(())
}

// Submits the tasks of one submitter, to sites that look random.
fn bring<R: Wait + Clock + Copy + Drop>(
    rt: &R,
    alloc: Global,
    executor: &Executor<Turning<R>, ()>,
    arrivals: Arrivals,
    seed: u64,
) -> Result<()> {
    let mut random = seed;
    let mut due = Instant::now(rt)?;
    let mut tickets = VecDeque::new(alloc);
    for _ in 0..arrivals.tasks {
        random = next(random);
        if tickets.len() >= arrivals.window as usize
            && let Some(first) = tickets.pop_front()
        {
            ended(rt, first)?;
        }
        if arrivals.gap > 0 {
            sleep_until(rt, due)?;
            due = after_gap(due, arrivals.gap, random);
        }
        let part = ((random >> 33) as u32).checked_rem(arrivals.sites);
        let (site, task) = (SiteId(part.unwrap_or(0)), task_of(rt, arrivals)?);
        if let Some(ticket) = put(rt, alloc, executor, site, task, arrivals.window > 0)? {
            tickets.push_back(ticket)?;
        }
    }
    for ticket in tickets {
        ended(rt, ticket)?;
    }
    Ok(())
}

// Returns a task that is submitted now.
fn task_of<R: Clock + Copy + Drop>(rt: &R, arrivals: Arrivals) -> Result<Turning<R>> {
    let since = if arrivals.noted {
        Some(Instant::now(rt)?)
    } else {
        None
    };
    Ok(Turning {
        clock: *rt,
        turns: arrivals.turns,
        since,
    })
}

// Submits a task, and returns its ticket if one is asked for. While the queue of the site is full, it waits a little
// and tries again.
fn put<R: Wait + Clock + Copy + Drop>(
    rt: &R,
    alloc: Global,
    executor: &Executor<Turning<R>, ()>,
    site: SiteId,
    task: Turning<R>,
    has_ticket: bool,
) -> Result<Option<Ticket<()>>> {
    let mut task = task;
    for _ in rt.forever() {
        let refused = if has_ticket {
            match executor.submit(rt, alloc, site, task) {
                Ok(ticket) => return Ok(Some(ticket)),
                Err(refused) => refused,
            }
        } else {
            match executor.execute(rt, site, task) {
                Ok(()) => return Ok(None),
                Err(refused) => refused,
            }
        };
        match refused {
            SubmitError::Full(back) => task = back,
            _ => bail!("a task was refused"),
        }
        thread::sleep(rt, Duration::from_micros(A_WHILE));
    }
    unreachable!()
}

fn ended<R: Wait>(rt: &R, ticket: Ticket<()>) -> Result<()> {
    ticket.wait(rt).ok().context("a task was lost")
}

fn nanos_of(time: Duration) -> u64 {
    u64::try_from(time.as_nanos()).unwrap_or(u64::MAX)
}

// Returns the next of a row of numbers that look random.
fn next(seed: u64) -> u64 {
    seed.wrapping_mul(6_364_136_223_846_793_005)
        .wrapping_add(1_442_695_040_888_963_407)
}

fn sleep_until<R: Clock>(rt: &R, due: Instant) -> Result<()> {
    let left = due.duration_since(Instant::now(rt)?);
    if !left.is_zero() {
        thread::sleep(rt, left);
    }
    Ok(())
}

// Returns a time that is later than this one by the gap, by at least a half of it, and at most one and a half.
fn after_gap(due: Instant, gap: u32, random: u64) -> Instant {
    let gap = u64::from(gap);
    let part = (random >> 20) % 1024;
    let pause = (gap / 2).saturating_add(gap.saturating_mul(part) / 1024);
    due.checked_add(Duration::from_nanos(pause)).unwrap_or(due)
}
