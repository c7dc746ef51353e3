//! A bank that is open: four clerks bring transfers to the tellers at random times, and then close it. The tellers are
//! in a ring of eight, or in a grid of four by four, and each two neighbours share an account.
#![tactic(auto)]

use anyhow::{Context, Error, Result, bail};
use dine_run::{Executor, Plan, PlanBuilder, SiteId, Table, Task, run_open};
use std::alloc::Global;
use std::rt::Clock;
use std::sync::atomic::{AtomicU32, Ordering};
use std::sync::{Arc, Wait};
use std::thread::Threads;
use std::time::{Duration, Instant};
use std::{env, thread};

// How many clerks there are, and how many transfers each brings if no argument says another number.
const CLERKS: u32 = 4;

const TRANSFERS: u32 = 5_000;

const START: u64 = 1_000;

// A transfer between the accounts of two edges of a teller.
#[derive(Drop)]
struct Transfer {
    from: u32,
    to: u32,
    amount: u64,
}

impl Task<u64, ()> for Transfer {
    fn run(self, table: &Table<'_, u64>) {
        let _ = moved(table, self.from, self.to, self.amount);
    }
}

// Moves an amount, if there is as much. The places are taken modulo the number of places.
fn moved(table: &Table<'_, u64>, from: u32, to: u32, amount: u64) -> Result<()> {
    let places = table.places();
    let from = from.checked_rem(places).context("no account")?;
    let to = to.checked_rem(places).context("no account")?;
    if from == to {
        return Ok(());
    }
    let mut source = table.open(dine_run::Place(from))?;
    let mut target = table.open(dine_run::Place(to))?;
    let less = source.checked_sub(amount).context("too little there")?;
    *target = target.checked_add(amount).context("too much there")?;
    *source = less;
    Ok(())
}

// The next of a row of numbers that look random.
fn next(seed: u64) -> u64 {
    seed.wrapping_mul(6_364_136_223_846_793_005)
        .wrapping_add(1_442_695_040_888_963_407)
}

// Brings transfers to the tellers, and pauses between them.
fn bring<R: Wait + Threads + Clock>(
    rt: &R,
    executor: &Executor<Transfer, ()>,
    sites: u32,
    clerk: u32,
    transfers: u32,
    pause: bool,
) -> u32 {
    let mut seed = u64::from(clerk) + 1;
    let mut taken = 0u32;
    for n in 0..transfers {
        seed = next(seed);
        let random = (seed >> 33) as u32;
        let task = Transfer {
            from: random % 7,
            to: random / 7 % 7,
            amount: u64::from(random % 100),
        };
        if executor
            .execute(rt, SiteId(random.checked_rem(sites).unwrap_or(0)), task)
            .is_ok()
        {
            taken = taken.saturating_add(1);
        }
        if pause && n % 16 == 0 {
            thread::sleep(rt, Duration::from_micros(u64::from(random % 500)));
        }
    }
    taken
}

fn ring(alloc: Global, sites: u32) -> Result<Plan> {
    let mut plan = PlanBuilder::open(alloc);
    for n in 0..sites {
        let name = format!(in alloc; "t{n}")?;
        plan.open_site(name.as_str())?;
    }
    for n in 0..sites {
        let next = n.saturating_add(1).checked_rem(sites).unwrap_or(0);
        plan.edge(SiteId(n), SiteId(next))?;
    }
    Ok(plan.finish()?)
}

fn grid(alloc: Global) -> Result<Plan> {
    let mut plan = PlanBuilder::open(alloc);
    for n in 0..16u32 {
        let name = format!(in alloc; "t{n}")?;
        plan.open_site(name.as_str())?;
    }
    for n in 0..16u32 {
        if n % 4 < 3 {
            plan.edge(SiteId(n), SiteId(n + 1))?;
        }
        if n < 12 {
            plan.edge(SiteId(n), SiteId(n + 4))?;
        }
    }
    Ok(plan.finish()?)
}

fn open_bank<R: Threads + Wait + Clock + Print + Eprint + Copy + Drop + Send + 'static>(
    rt: R,
    alloc: Global,
    plan: &Plan,
    name: &str,
    transfers: u32,
    pause: bool,
) -> Result<()> {
    let executor = Executor::open(alloc, plan)?;
    let mut clerks = Vec::new(alloc);
    let start = Instant::now(&rt)?;
    let sites = plan.sites();
    let busy = Arc::new(alloc, AtomicU32::new(CLERKS))?;
    for clerk in 0..CLERKS {
        let theirs = executor.share()?;
        let busy = Arc::try_clone(&busy)?;
        clerks.push(thread::spawn(&rt, move || {
            let taken = bring(&rt, &theirs, sites, clerk, transfers, pause);
            if busy.fetch_sub(1, Ordering::SeqCst) == 1 {
                theirs.close(&rt);
            }
            taken
        })?)?;
    }
    let accounts = Vec::from_elem(alloc, START, plan.edges() as usize)?;
    let done = run_open(&rt, alloc, plan, accounts, &executor)?;
    let mut taken = 0u32;
    for clerk in clerks {
        taken = taken.saturating_add(clerk.join(&rt));
    }
    let took = start.elapsed(&rt)?;
    let mut total = 0u64;
    for account in done.values.iter() {
        total = total.saturating_add(account.value);
    }
    let mut served = 0u64;
    for tasks in done.tasks.iter() {
        served = served.saturating_add(*tasks);
    }
    let micros = took.as_micros();
    eprintln!(rt; "{name}: {micros} us, {} epochs", done.epochs)?;
    println!(rt;
        "{name}: taken {taken}, served {served}, total {total}, found open {}",
        done.found_open
    )?;
    if total != START * u64::from(plan.edges()) {
        bail!("money was lost or made");
    }
    Ok(())
}

// Runs both banks. The first argument is the number of transfers of each clerk; with a second one no clerk pauses.
fn main(rt: HostRuntime) -> Result<()> {
    let alloc = rt.alloc();
    let mut arguments = env::args(&rt)?;
    let _program = arguments.next();
    let transfers = match arguments.next() {
        Some(text) => text.parse::<u32>()?,
        None => TRANSFERS,
    };
    let pause = arguments.next().is_none();
    open_bank(rt, alloc, &ring(alloc, 8)?, "ring of 8", transfers, pause)?;
    open_bank(rt, alloc, &grid(alloc)?, "grid of 4 by 4", transfers, pause)?;
    Ok(())
}
