//! Does open runs for tests/test_open_runs.py, and prints a line for each: what was wrong in it, and how many tasks
//! were done, in how many epochs, and handed back.
//!
//! Each line of the input is a run: a seed, the number of threads that submit tasks, how many tasks each submits, the
//! patience, how many tasks may wait for a site, behind how many of its tasks the first thread stops the executor, or 0
//! if the last thread that has submitted all closes it, how many tasks each site may do in an epoch, and the edges, as
//! in '7 3 20 64 5 0 1,2,3 0-1,1-2'.
use anyhow::{Context, Result, bail};
use dine_run::{
    EpochDone, Executor, JobFault, OpenDone, Place, Plan, PlanBuilder, SiteId, SubmitError, Table,
    Task, Ticket, TicketError, Worker, order, run_open_with,
};
use std::alloc::Global;
use std::collections::VecDeque;
use std::rt::Clock;
use std::sync::atomic::{AtomicU32, Ordering};
use std::sync::{Arc, Wait};
use std::thread;
use std::thread::{JoinHandle, Threads};
use std::time::Duration;

// What can be wrong in a run: it did not end in order; a value is not the number of tasks at its two ends; a task was
// lost or done twice; a ticket had not what its task returned, or another number of answers than one; the tasks of a
// site were not done in the order of their submission; or an epoch is no run of the plan.
const ENDED_BADLY: u32 = 1;

const VALUES: u32 = 2;

const TASKS: u32 = 4;

const TICKETS: u32 = 8;

const ORDER: u32 = 16;

const EPOCHS: u32 = 32;

// How often a thread that asks for something again and again does so at once, and how many microseconds it sleeps from
// then on.
const EAGER: u32 = 50;

const PAUSE: u64 = 100;

// What a task returns: its number, and how many tasks its site had done before, if it has an edge.
type Answer = (u64, u64);

// What is in an edge: how many tasks its two ends did, how many further ones these submitted, and how many tasks those
// sites of which it is the first edge did, the lower end and the higher one.
#[derive(Drop)]
struct Shared<R: Drop> {
    done: u64,
    submitted: u64,
    lower: SiteId,
    before: (u64, u64),
    executor: Executor<Work<R>, Answer>,
}

// A task, which submits another one while it may have descendants. A descendant has no number, and no ticket.
#[derive(Drop)]
struct Work<R: Drop> {
    rt: R,
    number: u64,
    seed: u64,
    descendants: u32,
    sites: u32,
}

impl<R: Wait + Copy + Drop> Work<R> {
    // Submits the descendant, if there is to be one. It may be refused since the executor is closed or full.
    fn submit(&self, executor: &Executor<Work<R>, Answer>) -> bool {
        if self.descendants == 0 {
            return false;
        }
        let seed = next(self.seed);
        let child = Work {
            rt: self.rt,
            number: 0,
            seed,
            descendants: self.descendants - 1,
            sites: self.sites,
        };
        let site = site_of(seed, self.sites);
        executor.execute(&self.rt, site, child).is_ok()
    }
}

impl<R: Wait + Copy + Drop + Send> Task<Shared<R>, Answer> for Work<R> {
    fn run(self, table: &Table<'_, Shared<R>>) -> Answer {
        let mut before = 0;
        for place in 0..table.places() {
            let Ok(mut shared) = table.open(Place(place)) else {
                continue;
            };
            let done = shared.done;
            if self.seed % 8 == 0 {
                thread::yield_now();
            }
            if place == 0 {
                before = counted(&mut shared, table.site());
                let is_taken = self.submit(&shared.executor);
                shared.submitted = shared.submitted.saturating_add(u64::from(is_taken));
            }
            shared.done = done.saturating_add(1);
        }
        (self.number, before)
    }
}

// Counts a task of a site whose first edge this is. Returns how many there were before.
fn counted<R: Drop>(shared: &mut Shared<R>, site: SiteId) -> u64 {
    let (lower, higher) = shared.before;
    if site == shared.lower {
        shared.before = (lower.saturating_add(1), higher);
        lower
    } else {
        shared.before = (lower, higher.saturating_add(1));
        higher
    }
}

// Returns the next of a row of numbers that look random.
fn next(seed: u64) -> u64 {
    seed.wrapping_mul(6_364_136_223_846_793_005)
        .wrapping_add(1_442_695_040_888_963_407)
}

// Returns a number below another one, by a seed.
fn chosen(seed: u64, below: u32) -> u32 {
    ((seed >> 33) as u32).checked_rem(below).unwrap_or(0)
}

fn site_of(seed: u64, sites: u32) -> SiteId {
    SiteId(chosen(seed, sites))
}

// What a line of the input asks for, without the plan.
#[derive(Clone, Copy)]
struct Asked {
    seed: u64,
    submitters: u32,
    tasks: u32,
    patience: u32,
    bound: u32,
    stop: u32,
}

// What a submitter did: the number of tasks that were taken, the numbers of those that were never done by their
// tickets, what it got back when it stopped the executor, and what was wrong.
#[derive(Drop)]
struct Brought {
    taken: u64,
    gone: Vec<u64>,
    back: Vec<u64>,
    wrong: u32,
}

impl Brought {
    fn nothing(alloc: Global) -> Brought {
        Brought {
            taken: 0,
            gone: Vec::new(alloc),
            back: Vec::new(alloc),
            wrong: 0,
        }
    }

    // Adds what another submitter did.
    fn add(&mut self, other: Brought) -> Result<()> {
        self.taken = self.taken.saturating_add(other.taken);
        self.wrong |= other.wrong;
        for number in other.gone {
            self.gone.push(number)?;
        }
        for number in other.back {
            self.back.push(number)?;
        }
        Ok(())
    }
}

// A ticket, with the number and the site of its task.
#[derive(Drop)]
struct Held {
    ticket: Ticket<Answer>,
    number: u64,
    site: SiteId,
}

// One of the threads that submit tasks.
#[derive(Drop)]
struct Submitter<R: Drop> {
    rt: R,
    alloc: Global,
    executor: Executor<Work<R>, Answer>,
    // Of how many sites each has an edge at least, so that its tasks are counted.
    plan_sites: u32,
    asked: Asked,
    n: u32,
    busy: Arc<AtomicU32, Global>,
    held: VecDeque<Held>,
    // By site, one more than the tasks that it had done before the last task of this submitter; 0 at first.
    last: Vec<u64>,
    brought: Brought,
}

impl<R: Wait + Clock + Copy + Drop + Send> Submitter<R> {
    // Submits the tasks, and takes what comes of them.
    fn bring(mut self) -> Result<Brought> {
        let mut seed = next(self.asked.seed ^ u64::from(self.n));
        let window = chosen(seed, 6) as usize;
        for k in 1..=self.asked.tasks {
            seed = next(seed);
            if !self.put(seed, k)? {
                break;
            }
            if self.n == 0 && k == self.asked.stop {
                for (_, work) in self.executor.stop(&self.rt, self.alloc)? {
                    self.brought.back.push(work.number)?;
                }
            }
            if self.held.len() > window {
                self.take(seed)?;
            }
        }
        if self.busy.fetch_sub(1, Ordering::SeqCst) == 1 {
            self.executor.close(&self.rt);
        }
        for _ in 0..self.held.len() {
            seed = next(seed);
            self.take(seed)?;
        }
        Ok(self.brought)
    }

    // Submits a task, and keeps its ticket. While the queue is full it tries again. Returns false if the executor is
    // closed.
    fn put(&mut self, seed: u64, k: u32) -> Result<bool> {
        let (number, site) = (
            u64::from(self.n) << 32 | u64::from(k),
            site_of(seed, self.plan_sites),
        );
        let mut work = Work {
            rt: self.rt,
            number,
            seed,
            descendants: chosen(next(seed), 3),
            sites: self.plan_sites,
        };
        for _ in self.rt.forever() {
            match self.executor.submit(&self.rt, self.alloc, site, work) {
                Ok(ticket) => {
                    self.brought.taken = self.brought.taken.saturating_add(1);
                    let held = Held {
                        ticket,
                        number,
                        site,
                    };
                    self.held.push_back(held)?;
                    return Ok(true);
                }
                Err(SubmitError::Full(back)) => work = back,
                Err(SubmitError::Closed(_)) => return Ok(false),
                Err(_) => bail!("a task was refused"),
            }
            thread::sleep(&self.rt, Duration::from_micros(PAUSE));
        }
        unreachable!()
    }

    // Takes what comes of the first ticket.
    fn take(&mut self, seed: u64) -> Result<()> {
        let Some(held) = self.held.pop_front() else {
            return Ok(());
        };
        match answer_of(&self.rt, held.ticket, chosen(seed, 3)) {
            (Ok((number, before)), is_once) => {
                if number != held.number || !is_once {
                    self.brought.wrong |= TICKETS;
                }
                self.follow(held.site, before);
            }
            (Err(_), _) => self.brought.gone.push(held.number)?,
        }
        Ok(())
    }

    // A site does the tasks of a submitter in their order.
    fn follow(&mut self, site: SiteId, before: u64) {
        if let Some(last) = self.last.get_mut(site.0 as usize) {
            if before < *last {
                self.brought.wrong |= ORDER;
            }
            *last = before.saturating_add(1);
        }
    }
}

// Waits for what comes of a ticket, in one of three ways. Returns also whether there was no second answer.
fn answer_of<R: Wait + Clock>(
    rt: &R,
    ticket: Ticket<Answer>,
    way: u32,
) -> (Result<Answer, TicketError>, bool) {
    if way == 0 {
        return (ticket.wait(rt), true);
    }
    let first = polled(rt, &ticket, way);
    let second = polled(rt, &ticket, 3u32.saturating_sub(way));
    (first, second == Err(TicketError::Gone))
}

// Asks until it is known what comes of a ticket: at first at once, and then with pauses.
fn polled<R: Wait + Clock>(
    rt: &R,
    ticket: &Ticket<Answer>,
    way: u32,
) -> Result<Answer, TicketError> {
    for _ in 0..EAGER {
        let found = asked_once(rt, ticket, way);
        if found != Err(TicketError::Pending) {
            return found;
        }
        thread::yield_now();
    }
    for _ in rt.forever() {
        let found = asked_once(rt, ticket, way);
        if found != Err(TicketError::Pending) {
            return found;
        }
        thread::sleep(rt, Duration::from_micros(PAUSE));
    }
    unreachable!()
}

fn asked_once<R: Wait + Clock>(
    rt: &R,
    ticket: &Ticket<Answer>,
    way: u32,
) -> Result<Answer, TicketError> {
    if way == 1 {
        ticket.try_wait(rt)
    } else {
        ticket.wait_timeout(rt, Duration::from_micros(PAUSE))
    }
}

// What the epochs of a run left: how many there were, how many tasks were done, and whether each was a run of the plan.
#[derive(Drop)]
struct Epochs {
    alloc: Global,
    plan: Arc<Plan, Global>,
    count: u64,
    tasks: u64,
    are_right: bool,
}

impl Epochs {
    fn add<R: Wait + Drop + Send>(
        &mut self,
        epoch: &EpochDone<Worker<Work<R>, Answer, R>, JobFault>,
    ) {
        self.count = self.count.saturating_add(1);
        self.are_right &= order(self.alloc, &self.plan, epoch.sites.as_slice()).is_ok();
        for (n, site) in (0..64u32).zip(epoch.sites.iter()) {
            // In a call that went well it did one task at least.
            let (mut well, mut failed) = (0u32, 0u32);
            for call in site.calls() {
                well = well.saturating_add(u32::from(call.ok));
                failed = failed.saturating_add(u32::from(!call.ok));
            }
            let tasks = site.job.tasks();
            self.tasks = self.tasks.saturating_add(tasks);
            let jobs = if n < self.plan.sites() {
                self.plan.jobs(n)
            } else {
                0
            };
            self.are_right &= well <= jobs
                && failed == u32::from(well < jobs)
                && u64::from(well) <= tasks;
        }
    }
}

// Starts the submitters.
fn start<R: Threads + Wait + Clock + Copy + Drop + Send + 'static>(
    rt: &R,
    alloc: Global,
    plan: &Plan,
    executor: &Executor<Work<R>, Answer>,
    asked: Asked,
) -> Result<Vec<JoinHandle<Result<Brought>>>> {
    let busy = Arc::new(alloc, AtomicU32::new(asked.submitters))?;
    let mut started = Vec::new(alloc);
    for n in 0..asked.submitters {
        let submitter = Submitter {
            rt: *rt,
            alloc,
            executor: executor.share()?,
            plan_sites: plan.sites(),
            asked,
            n,
            busy: Arc::try_clone(&busy)?,
            held: VecDeque::new(alloc),
            last: last_of(alloc, plan)?,
            brought: Brought::nothing(alloc),
        };
        started.push(thread::spawn(rt, move || submitter.bring())?)?;
    }
    Ok(started)
}

// Returns a zero for each site up to the first one without an edge, whose tasks are not counted.
fn last_of(alloc: Global, plan: &Plan) -> Result<Vec<u64>> {
    let mut last = Vec::new(alloc);
    for site in plan.site_ids() {
        let mut is_lonely = true;
        for edge in plan.edge_ids() {
            let (lower, higher) = plan.ends_of(edge).context("no such edge")?;
            is_lonely &= lower != site && higher != site;
        }
        if is_lonely {
            break;
        }
        last.push(0)?;
    }
    Ok(last)
}

// Returns what is in each edge at first.
fn values_of<R: Drop>(
    alloc: Global,
    plan: &Plan,
    executor: &Executor<Work<R>, Answer>,
) -> Result<Vec<Shared<R>>> {
    let mut values = Vec::new(alloc);
    for edge in plan.edge_ids() {
        let (lower, _) = plan.ends_of(edge).context("no such edge")?;
        values.push(Shared {
            done: 0,
            submitted: 0,
            lower,
            before: (0, 0),
            executor: executor.share()?,
        })?;
    }
    Ok(values)
}

// What a run left, for its line.
#[derive(Clone, Copy)]
struct Counts {
    wrong: u32,
    tasks: u64,
    epochs: u64,
    back: u64,
}

fn ran_open<R: Threads + Wait + Clock + Copy + Drop + Send + 'static>(
    rt: &R,
    alloc: Global,
    plan: &Plan,
    values: Vec<Shared<R>>,
    executor: &Executor<Work<R>, Answer>,
    patience: u32,
    epochs: &mut Epochs,
) -> Option<OpenDone<Shared<R>>> {
    let ran = run_open_with(
        rt,
        alloc,
        plan,
        values,
        executor,
        patience,
        |epoch| epochs.add(&epoch),
    );
    match ran {
        Ok(done) => Some(done),
        Err(_) => None,
    }
}

// Does a run.
fn run_once<R: Threads + Wait + Clock + Copy + Drop + Send + 'static>(
    rt: &R,
    alloc: Global,
    plan: Arc<Plan, Global>,
    asked: Asked,
) -> Result<Counts> {
    let executor: Executor<Work<R>, Answer> = Executor::bounded(alloc, &plan, asked.bound)?;
    let values = values_of(alloc, &plan, &executor)?;
    let started = start(rt, alloc, &plan, &executor, asked)?;
    let mut epochs = Epochs {
        alloc,
        plan: Arc::try_clone(&plan)?,
        count: 0,
        tasks: 0,
        are_right: true,
    };
    let ran = ran_open(
        rt,
        alloc,
        &plan,
        values,
        &executor,
        asked.patience,
        &mut epochs,
    );
    if ran.is_none() {
        // So that no ticket is waited for.
        let _ = executor.stop(rt, alloc)?;
    }
    let all = joined(rt, alloc, started)?;
    match ran {
        Some(done) => judged(&plan, &done, &epochs, all),
        None => Ok(Counts {
            wrong: ENDED_BADLY,
            tasks: 0,
            epochs: 0,
            back: 0,
        }),
    }
}

// Waits for the submitters, and returns what all of them did.
fn joined<R: Threads + Wait>(
    rt: &R,
    alloc: Global,
    started: Vec<JoinHandle<Result<Brought>>>,
) -> Result<Brought> {
    let mut all = Brought::nothing(alloc);
    for thread in started {
        all.add(thread.join(rt)?)?;
    }
    Ok(all)
}

// Returns what was wrong, and the counts of the run.
fn judged<R: Drop>(
    plan: &Plan,
    done: &OpenDone<Shared<R>>,
    epochs: &Epochs,
    mut all: Brought,
) -> Result<Counts> {
    let (are_sums, submitted) = values_judged(plan, done)?;
    let mut tasks = 0u64;
    for count in done.tasks.iter() {
        tasks = tasks.saturating_add(*count);
    }
    let back = all.back.len() as u64;
    // The tickets that have nothing are those of the tasks that were handed back. A descendant has none.
    all.back.retain(|number| *number > 0);
    all.back.sort()?;
    all.gone.sort()?;
    let mut wrong = all.wrong;
    if !are_sums || done.found_open > 0 {
        wrong |= VALUES;
    }
    if all.taken.saturating_add(submitted) != tasks.saturating_add(back) {
        wrong |= TASKS;
    }
    if all.back.as_slice() != all.gone.as_slice() {
        wrong |= TICKETS;
    }
    if !epochs.are_right || epochs.count != done.epochs || epochs.tasks != tasks {
        wrong |= EPOCHS;
    }
    Ok(Counts {
        wrong,
        tasks,
        epochs: done.epochs,
        back,
    })
}

// Returns whether each value is the number of tasks at its two ends, and how many tasks were submitted by tasks.
fn values_judged<R: Drop>(plan: &Plan, done: &OpenDone<Shared<R>>) -> Result<(bool, u64)> {
    let (mut are_sums, mut submitted) = (true, 0u64);
    for value in done.values.iter() {
        let (lower, higher) = plan.ends_of(value.edge()).context("no such edge")?;
        let ends = tasks_at(done, lower).saturating_add(tasks_at(done, higher));
        are_sums &= value.value.done == ends;
        submitted = submitted.saturating_add(value.value.submitted);
    }
    Ok((are_sums, submitted))
}

fn tasks_at<T: Drop>(done: &OpenDone<T>, site: SiteId) -> u64 {
    match done.tasks.get(site.0 as usize) {
        Some(count) => *count,
        None => 0,
    }
}

// Returns the plan of the last two words of a line.
fn plan_of(alloc: Global, jobs: &str, edges: &str) -> Result<Plan> {
    let mut builder = PlanBuilder::open(alloc);
    for (n, count) in jobs.split(',').enumerate() {
        let name = format!(in alloc; "s{n}")?;
        let site = builder.site(name.as_str(), count.parse()?)?;
        builder.resign(site)?;
    }
    for edge in edges.split(',') {
        if let Some((one, other)) = edge.split_once('-') {
            builder.edge(SiteId(one.parse()?), SiteId(other.parse()?))?;
        }
    }
    Ok(builder.finish()?)
}

// Does the run of a line.
fn run_line<R: Threads + Wait + Clock + Copy + Drop + Send + 'static>(
    rt: &R,
    alloc: Global,
    line: &str,
) -> Result<Counts> {
    let mut words = line.split(' ');
    let seed: u64 = words.next().context("no seed")?.parse()?;
    let mut numbers = [0u32; 5];
    for number in numbers.iter_mut() {
        *number = words.next().context("too few numbers")?.parse()?;
    }
    let [submitters, tasks, patience, bound, stop] = numbers;
    let jobs = words.next().context("no jobs")?;
    let plan = plan_of(alloc, jobs, words.next().context("no edges")?)?;
    let asked = Asked {
        seed,
        submitters,
        tasks,
        patience,
        bound,
        stop,
    };
    run_once(rt, alloc, Arc::new(alloc, plan)?, asked)
}

// Does the run of each line of the input.
pub fn run_lines<R: Threads + Wait + Clock + Print + Copy + Drop + Send + 'static>(
    rt: &R,
    alloc: Global,
    text: &str,
) -> Result<()> {
    for line in text.lines() {
        let it = run_line(rt, alloc, line)?;
        println!(rt; "{} {} {} {}", it.wrong, it.tasks, it.epochs, it.back)?;
    }
    Ok(())
}
