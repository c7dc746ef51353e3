//! A caller of `dine_run` with a diner of its own: units go round a ring of accounts, and it is proved that none is
//! lost or made.
//!
//! 1. **Write a plan.** A text names the sites, the jobs of each and the edges, and `read_plan` reads it. Sites that
//!    share something need an edge. Here a site takes from its own account and pays into that of the next site. So each
//!    account is used by two sites, and these have an edge.
//! 2. **Write a diner**, as `teller.rt` does: a struct with a `CallLog` and what you keep beside it. Its method `eat`
//!    does the job of meal `k` and notes the call. `run` requires capacity for all jobs of the site, and promises one
//!    call for each, in order. How your own fields follow from the calls you say in a ghost field, such as `one_each`.
//! 3. **Call `run`** with the plan and a diner for each site, as `settle` does. Each site runs on a thread of its own.
//! 4. **Use the result.** `Gathered` has the diners by site, the forks with the log of all meals, and the links.
//!    So `settle` can promise each balance and the total, whatever the schedule was.
//! 5. **Ask for one order** of what the threads did. Each site left its journal, and `order_of` puts all journals into
//!    one list, which a world of one thread accepts. `run` promises that there is one, so `order_of` fails only without
//!    memory. The order goes to standard error, since it differs from run to run.
#![tactic(auto)]

mod teller;

ghost use Rattle.std.specs.Prelude.{◌≡◌, ◌<◌, ◌≤◌, ℕ, IsTrue, Some, IfOk, length, map, slice_get};
ghost use Rattle.dine_graph.specs.Plan.{job_count, site_count};
ghost use Rattle.dine_rules.specs.EatingApart.{NeighboursEatApart};
ghost use Rattle.dine_rules.specs.Journals.{IsWholeOrder};
ghost use Rattle.dine_run.specs.Shown.{plan_shown};
ghost use Rattle.dine_tellers.specs.Balances.{IsBooks};
ghost use Rattle.dine_tellers.specs.Tellers.{AreFresh, CanPay, HaveSent};

use anyhow::{Result, bail};
use dine_graph::MAX_TEXT_JOBS;
use dine_link::ChannelLane;
use dine_plan::{Plan, read_plan};
use dine_run::{Gathered, SiteOut, order_of, run};
use dine_site::{Event, EventKind};
use std::alloc::{AllocError, Global};
use std::sync::Wait;
use std::thread::Threads;
use teller::Teller;

const RING: &str = "version = 1\n\
    [[site]]\nname = \"ann\"\njobs = [{ name = \"x\" }, { name = \"y\" }, { name = \"z\" }]\n\
    [[site]]\nname = \"bob\"\njobs = [{ name = \"x\" }]\n\
    [[site]]\nname = \"cyd\"\njobs = [{ name = \"x\" }, { name = \"y\" }]\n\
    [[site]]\nname = \"dan\"\njobs = [{ name = \"x\" }, { name = \"y\" }]\n\
    [[edge]]\nends = [\"ann\", \"bob\"]\n[[edge]]\nends = [\"bob\", \"cyd\"]\n\
    [[edge]]\nends = [\"cyd\", \"dan\"]\n[[edge]]\nends = [\"dan\", \"ann\"]\n";

// What each account has at the start, as many units as a site of a text can send.
const START: u32 = MAX_TEXT_JOBS;

// What each account has at the end, by site, and all of them together.
#[derive(Drop)]
struct Books {
    balances: Vec<u32>,
    total: u32,
}

// Returns a teller for each site, with capacity for its jobs.
fn open_tellers(alloc: Global, plan: &Plan) -> Result<Vec<Teller>, AllocError>
    ensures { IfOk result (λ tellers. AreFresh plan.now tellers.items) }
{
    let mut tellers = Vec::new(alloc);
    for site in 0..plan.sites() {
        tellers.push(Teller::open(alloc, plan.jobs(site))?)?;
    }
    Ok(tellers)
}

// Whether each account has what its site sends.
fn can_pay(plan: &Plan) -> bool
    ensures { IsTrue result → CanPay plan.now }
{
    for site in 0..plan.sites() {
        if plan.jobs(site) > START {
            return false;
        }
    }
    true
}

// Returns the balances: each account has what the site before it sent, and lacks what its own site sent.
fn books_of(alloc: Global, plan: &Plan, outs: &[SiteOut<Teller>]) -> Result<Books, AllocError>
    requires count { length outs.now ≡ site_count plan.now }
    requires sent { HaveSent plan.now outs.now }
    requires can_pay { CanPay plan.now }
    ensures { IfOk result (IsBooks plan.now) }
{
    let mut balances = Vec::new(alloc);
    let mut total = 0;
    let mut came = outs[plan.sites() as usize - 1].diner.sent;
    for site in 0..plan.sites() {
        let sent = outs[site as usize].diner.sent;
        let balance = START + came - sent;
        balances.push(balance)?;
        total += balance;
        came = sent;
    }
    Ok(Books { balances, total })
}

// Runs the plan, and returns the balances, what the run gathered, and one order of what its sites did.
fn settle<R: Threads + Wait + Copy + Send + 'static>(
    rt: &R,
    alloc: Global,
    plan: &Plan,
) -> Result<(Books, Gathered<Teller>, Vec<Event>)>
    ensures books { IfOk result (λ settled. IsBooks plan.now settled.0) }
    ensures sent { IfOk result (λ settled. HaveSent plan.now settled.1.sites.items) }
    ensures order { IfOk result (λ settled. let journals = map (λ out. out.journal.items) settled.1.sites.items in
        IsWholeOrder (plan_shown plan.now journals) journals settled.2.items) }
    ensures apart { IfOk result (λ settled. NeighboursEatApart plan.now settled.2.items) }
{
    if !can_pay(plan) {
        bail!("a site sends more than its account has");
    }
    let tellers = open_tellers(alloc, plan)?;
    let Ok(gathered) = run::<ChannelLane, Teller>(rt, alloc, plan, tellers) else {
        bail!("memory or a thread was refused");
    };
    let books = books_of(alloc, plan, gathered.sites.as_slice())?;
    let events = order_of(alloc, plan, &gathered)?;
    Ok((books, gathered, events))
}

// Prints what each account has, and the total.
fn print_books(rt: &impl Print, plan: &Plan, books: &Books) -> Result<()>
    requires { IsBooks plan.now books.now }
{
    for site in 0..plan.sites() {
        println!(rt; "{} {}", plan.name(site), books.balances[site as usize])?;
    }
    println!(rt; "total {}", books.total)?;
    Ok(())
}

// Prints what the sites did, and the number of meals.
fn print_order<R: Print + Eprint>(rt: &R, plan: &Plan, events: &[Event]) -> Result<()> {
    let mut meals = 0u32;
    for event in events {
        if event.site < plan.sites() {
            eprintln!(rt; "{} {:?}", plan.name(event.site), event.kind)?;
        }
        if event.kind == EventKind::Begin {
            meals = meals.saturating_add(1);
        }
    }
    println!(rt; "{meals} meals in one order")?;
    Ok(())
}

fn main(rt: HostRuntime) -> Result<()> {
    let plan = read_plan(rt.alloc(), RING)?;
    let (books, _gathered, events) = settle(&rt, rt.alloc(), &plan)?;
    print_books(&rt, &plan, &books)?;
    print_order(&rt, &plan, events.as_slice())
}
