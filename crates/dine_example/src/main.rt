//! A bank on `dine_run`, to start a program of your own from. Twenty tellers are in a ring, and each two neighbours
//! share an account. A teller moves money from one of its accounts to the other, at the same time as the other tellers.
//!
//! 1. **Make a plan.** Two sites that share something need an edge, and the value of the edge is what they share: here
//!    the balance of an account. The number of jobs of each site is fixed before the run.
//! 2. **Write a job.** `run` is called once for each job of the site, while the site holds the forks of all its edges.
//!    So `open_with` lends it the account that it shares with a neighbour. In all tests no other job had it open
//!    meanwhile. There is no order of locks to keep, and no value can be reached outside a job.
//! 3. **Say why a job failed** by an error of your own. A site that resigns drops its other jobs then.
//! 4. **Call `run_jobs`** with the values by edge and the jobs by site. It returns both, with each failure.
#![tactic(auto)]

use anyhow::{Result, bail};
use dine_run::{Job, OpenFault, Plan, PlanBuilder, SiteId, Table, run_jobs};
use std::alloc::{AllocError, Global};
use std::time::Instant;
use thiserror::Error;

const TELLERS: u32 = 20;

const JOBS: u32 = 100;

const START: u64 = 500;

/// Why a transfer was refused.
#[derive(Debug, Drop, Error)]
enum Refused {
    #[error("there are {there} in the account, and {wanted} were to go")]
    Short { there: u64, wanted: u64 },
    #[error("the account has no room for {0} more")]
    Full(u64),
    #[error(transparent)]
    Shut(#[from] OpenFault),
}

#[derive(Drop)]
struct Teller {
    before: SiteId,
    after: SiteId,
    seed: u64,
}

impl Job<u64> for Teller {
    type Fault = Refused;

    fn run(&mut self, table: &Table<'_, u64>) -> Result<(), Refused> {
        self.seed = next(self.seed);
        let amount = (self.seed >> 33) % 100;
        let mut from = table.open_with(self.before)?;
        let mut to = table.open_with(self.after)?;
        let Some(less) = from.checked_sub(amount) else {
            let there = *from;
            return Err(Refused::Short {
                there,
                wanted: amount,
            });
        };
        *to = to.checked_add(amount).ok_or(Refused::Full(amount))?;
        *from = less;
        Ok(())
    }
}

// Returns the next of a sequence of numbers that look random.
fn next(seed: u64) -> u64 {
    seed.wrapping_mul(6364136223846793005)
        .wrapping_add(1442695040888963407)
}

// Returns a plan of tellers in a ring. Each third one resigns, so it drops its other transfers once one is refused.
fn ring(alloc: Global) -> Result<Plan> {
    let mut plan = PlanBuilder::open(alloc);
    for n in 0..TELLERS {
        let name = format!(in alloc; "t{n}")?;
        let site = plan.site(name.as_str(), JOBS)?;
        if n % 3 == 0 {
            plan.resign(site)?;
        }
    }
    for n in 0..TELLERS {
        plan.edge(SiteId(n), SiteId((n + 1) % TELLERS))?;
    }
    Ok(plan.finish()?)
}

// Returns a teller for each site.
fn hire(alloc: Global) -> Result<Vec<Teller>, AllocError> {
    let mut tellers = Vec::new(alloc);
    for n in 0..TELLERS {
        tellers.push(Teller {
            before: SiteId((n + TELLERS - 1) % TELLERS),
            after: SiteId((n + 1) % TELLERS),
            seed: n as u64,
        })?;
    }
    Ok(tellers)
}

fn main(rt: HostRuntime) -> Result<()> {
    let alloc = rt.alloc();
    let plan = ring(alloc)?;
    let accounts = Vec::from_elem(alloc, START, TELLERS as usize)?;
    let tellers = hire(alloc)?;
    let start = Instant::now(&rt)?;
    let done = run_jobs(&rt, alloc, &plan, accounts, tellers)?;
    let took = start.elapsed(&rt)?;
    eprintln!(rt; "the run took {} microseconds", took.as_micros())?;
    let mut resigned = 0usize;
    for site in done.sites.iter() {
        let (did, refused) = (site.calls().len(), site.failures.len());
        if did < JOBS as usize {
            resigned = resigned.saturating_add(1);
        }
        let n = site.site.0;
        eprintln!(rt; "teller {n} tried {did} transfers, of which {refused} were refused")?;
        if let Some(failure) = site.failures.first() {
            eprintln!(rt; "  the first is number {}: {}", failure.k, failure.fault)?;
        }
    }
    let (mut total, mut moved) = (0u64, 0usize);
    for account in done.values {
        total = total.saturating_add(account.value);
        if account.value != START {
            moved = moved.saturating_add(1);
        }
    }
    println!(rt; "total {total}")?;
    if total != START * TELLERS as u64 {
        bail!("money was lost or made");
    }
    if moved == 0 {
        bail!("no account changed");
    }
    if resigned == 0 {
        bail!("no teller dropped its transfers after one was refused");
    }
    Ok(())
}
