//! Runs a plan, for tools/schedules. What it prints depends on the input alone, and not on the schedule.
//!
//! The input is a line and a plan. The line has the kind of links, and the manner of the sites: 'eager', 'greedy',
//! 'patience N', or 'on-call N CAPACITY SITES SITES'. The first three print the table that `dine run` prints. If the
//! sites are on call, the run is open, over rings: two clerks each bring a task to each of their sites, with ','
//! between them, while the run goes on. When both have done so, a third thread closes the executor.
use anyhow::{Context, Result, bail};
use dine::{PlanDiner, open_diners};
use dine_plan::read_plan;
use dine_run::{
    ChannelLane, Executor, Fork, Place, Plan, RingLane, RunOptions, SiteId, Table, Task,
    run_open_with, run_with,
};
use std::alloc::Global;
use std::sync::Wait;
use std::thread::Threads;
use std::{str, thread};

// How many tasks of each clerk the two sites of an edge have done: of clerk 0 at the lower site and at the higher one,
// and then of clerk 1.
type Counts = [u64; 4];

// A task that a clerk brings.
#[derive(Drop)]
struct Errand {
    clerk: usize,
}

// Counts one more at each edge of the site. Returns which task of its clerk at this site it is, from 1, or 0 if the
// edges differ or one of them is open.
impl Task<Counts, u64> for Errand {
    fn run(self, table: &Table<'_, Counts>) -> u64 {
        let mut found = 0;
        for place in 0..table.places() {
            let Ok(mut counts) = table.open(Place(place)) else {
                return 0;
            };
            let mine = self
                .clerk
                .saturating_mul(2)
                .saturating_add(usize::from(!table.is_lower(Place(place))));
            let Some(count) = counts.get_mut(mine) else {
                return 0;
            };
            *count = count.saturating_add(1);
            if place > 0 && *count != found {
                return 0;
            }
            found = *count;
        }
        found
    }
}

// Brings a task to each of these sites, and returns the answers to two of three tasks: the clerk waits for the first
// one before it brings the next, wants no answer of the second, and waits for the third when it has brought all. An
// answer that does not come is 0.
fn bring<R: Wait>(
    rt: &R,
    alloc: Global,
    executor: &Executor<Errand, u64>,
    clerk: usize,
    sites: &[u32],
) -> Result<Vec<u64>> {
    let (mut answers, mut tickets) = (Vec::new(alloc), Vec::new(alloc));
    for (n, site) in sites.iter().enumerate() {
        let (site, task) = (SiteId(*site), Errand { clerk });
        if n % 3 == 1 {
            if executor.execute(rt, site, task).is_err() {
                bail!("a task is refused");
            }
            continue;
        }
        let Ok(ticket) = executor.submit(rt, alloc, site, task) else {
            bail!("a task is refused");
        };
        if n % 3 == 0 {
            answers.push(ticket.wait(rt).unwrap_or(0))?;
        } else {
            tickets.push(ticket)?;
        }
    }
    for ticket in tickets {
        answers.push(ticket.wait(rt).unwrap_or(0))?;
    }
    Ok(answers)
}

// Brings the tasks of both clerks, by a thread for each, closes the executor, and returns the answers of both.
fn bring_all<R: Threads + Wait + Copy + Send + 'static>(
    rt: R,
    alloc: Global,
    executor: &Executor<Errand, u64>,
    sites: [Vec<u32>; 2],
) -> Result<Vec<u64>> {
    let mut clerks = Vec::new(alloc);
    for (clerk, sites) in sites.into_iter().enumerate() {
        let theirs = executor.share()?;
        clerks.push(thread::spawn(&rt, move || {
            bring(&rt, alloc, &theirs, clerk, sites.as_slice())
        })?)?;
    }
    let mut answers = Vec::new(alloc);
    for clerk in clerks {
        answers.push(clerk.join(&rt))?;
    }
    executor.close(&rt);
    let mut all = Vec::new(alloc);
    for answer in answers {
        for number in answer? {
            all.push(number)?;
        }
    }
    Ok(all)
}

// Returns whether some site has at least as many of these tasks as it has jobs in an epoch.
fn has_many(plan: &Plan, tasks: &[Vec<u32>; 2]) -> bool {
    for site in 0..plan.sites() {
        let mut count = 0u32;
        for it in tasks.iter().flatten() {
            count = count.saturating_add(u32::from(*it == site));
        }
        if count >= plan.jobs(site) {
            return true;
        }
    }
    false
}

// Returns the sum, or the largest number that there is if it is larger.
fn sum_of(numbers: &[u64]) -> u64 {
    let mut sum = 0u64;
    for it in numbers {
        sum = sum.saturating_add(*it);
    }
    sum
}

// Runs the plan with sites on call, and prints how many tasks were done, the sum of the counts at the edges, whether
// there was one epoch, how often a task found an edge open, and the answers. If a meal may have several tasks, and a
// site has many, it depends on the schedule how many epochs there are; then it prints false.
fn run_on_call<R: Threads + Wait + Print + Copy + Drop + Send + 'static>(
    rt: R,
    alloc: Global,
    plan: &Plan,
    patience: u32,
    capacity: u32,
    sites: [Vec<u32>; 2],
) -> Result<()> {
    let executor = Executor::bounded(alloc, plan, capacity)?;
    let theirs = executor.share()?;
    let is_sure = patience == 1 || !has_many(plan, &sites);
    let closer = thread::spawn(&rt, move || bring_all(rt, alloc, &theirs, sites))?;
    let counts = Vec::from_elem(alloc, [0u64; 4], plan.edges() as usize)?;
    let done = run_open_with(&rt, alloc, plan, counts, &executor, patience, |_| {});
    let answers = closer.join(&rt)?;
    let done = done?;
    let tasks = sum_of(done.tasks.as_slice());
    let mut sum = 0u64;
    for it in done.values.iter() {
        sum = sum.saturating_add(sum_of(&it.value));
    }
    println!(rt; "tasks {tasks}, counted {sum}")?;
    println!(rt;
        "in one epoch: {}, found open {}",
        is_sure && done.epochs == 1,
        done.found_open
    )?;
    for answer in answers {
        println!(rt; "answer {answer}")?;
    }
    Ok(())
}

// Runs the plan with the jobs that it has, and prints its edges.
fn run_jobs<R: Threads + Wait + Print + Copy + Send + 'static>(
    rt: &R,
    alloc: Global,
    plan: &Plan,
    over_rings: bool,
    options: RunOptions,
) -> Result<()> {
    let diners = open_diners(alloc, plan)?;
    let ran = if over_rings {
        run_with::<RingLane, PlanDiner>(rt, alloc, plan, diners, options)
    } else {
        run_with::<ChannelLane, PlanDiner>(rt, alloc, plan, diners, options)
    };
    let Ok(gathered) = ran else {
        bail!("the run failed");
    };
    let values = if has_values(plan) { ",value" } else { "" };
    println!(rt; "edge,lo,hi,lo_meals,hi_meals{values}")?;
    for fork in gathered.forks.iter() {
        print_edge(rt, plan, fork)?;
    }
    Ok(())
}

// Returns whether the table of this plan has a column of values.
fn has_values(plan: &Plan) -> bool {
    plan.version() == 2
}

// Prints the meals of both ends of an edge, and the value in its fork.
fn print_edge<R: Print>(rt: &R, plan: &Plan, fork: &Fork) -> Result<()> {
    let (lower, higher) = fork.ends();
    if lower >= plan.sites() || higher >= plan.sites() {
        bail!("the fork is of another plan");
    }
    let (edge, ate) = (fork.edge(), (fork.meals_of(lower), fork.meals_of(higher)));
    print!(rt;
        "{edge},{},{},{},{}",
        plan.name(lower),
        plan.name(higher),
        ate.0,
        ate.1
    )?;
    if has_values(plan) {
        print!(rt; ",{}", fork.value())?;
    }
    println!(rt)?;
    Ok(())
}

// Returns the number that is the next word.
fn number<'a>(words: &mut str::Split<'a, char>) -> Result<u32> {
    Ok(words.next().context("a word is missing")?.parse()?)
}

// Returns the sites of a clerk.
fn sites_of<'a>(alloc: Global, words: &mut str::Split<'a, char>) -> Result<Vec<u32>> {
    let mut sites = Vec::new(alloc);
    for site in words.next().context("a word is missing")?.split(',') {
        sites.push(site.parse()?)?;
    }
    Ok(sites)
}

// Does the run of the input.
pub fn run_plan<R: Threads + Wait + Print + Copy + Drop + Send + 'static>(
    rt: R,
    alloc: Global,
    text: &str,
) -> Result<()> {
    let (head, plan) = text.split_once('\n').context("no plan")?;
    let plan = read_plan(alloc, plan)?;
    let mut words = head.split(' ');
    let over_rings = words.next() == Some("ring");
    let options = match words.next() {
        Some("eager") => RunOptions::eager(),
        Some("greedy") => RunOptions::greedy(),
        Some("patience") => RunOptions::patience(number(&mut words)?),
        _ => {
            let (patience, capacity) = (number(&mut words)?, number(&mut words)?);
            let sites = [sites_of(alloc, &mut words)?, sites_of(alloc, &mut words)?];
            return run_on_call(rt, alloc, &plan, patience, capacity, sites);
        }
    };
    run_jobs(&rt, alloc, &plan, over_rings, options)
}
