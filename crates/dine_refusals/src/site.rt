// One site, whose links and bell are filled before it starts.
ghost use Rattle.std.specs.Prelude.{◌≡◌, ◌<◌, ◌≤◌, ◌+◌, ◌^◌, false, All, IfOk, length, vec_len};
ghost use Rattle.dine_link.specs.Links.{IsUnused};
ghost use Rattle.dine_site_thread.specs.Ports.{IsFreshPort, seen_ports};

use crate::pair::pair;
use dine_link::{Bell, Lane, Ringer, TxEnd};
use dine_plan::Plan;
use dine_rules::{Letter, LetterKind};
use dine_site_thread::{Port, SiteEnd, SiteFault, run_site};
use dine_test_diners::Taster;
use dine_token::Token;
use dine_world::SiteCore;
use dine_world::site::{fresh_forks, fresh_tokens};
use std::alloc::{AllocError, Global};
use std::io;
use std::sync::Wait;

// What a site left, and the link with all that the site put.
type Left<L> = (SiteEnd<L, Taster>, <L as Lane>::Rx);

// Returns the port of a site with one edge, in a list.
fn one_port<L: Lane>(
    alloc: Global,
    tx: L::Tx,
    rx: L::Rx,
    ringer: Ringer,
) -> Result<Vec<Port<L>>, AllocError>
    requires nothing_put { IsUnused (L.seen_tx tx) }
    requires nothing_taken { IsUnused (L.seen_rx rx) }
    requires silent { (ringer.rings ≡ 0) × (ringer.refused ≡ false) }
    ensures count { IfOk result (λ ports. vec_len ports ≡ 1) }
    ensures unused { IfOk result (λ ports. All IsFreshPort (seen_ports L.Lane ports.items)) }
{
    let mut ports = Vec::with_capacity(alloc, 1)?;
    ports.push_reserved(Port::<L> {
        tx: TxEnd::Live(tx),
        rx,
        ringer,
    });
    Ok(ports)
}

// Returns a ringer that never rang, and its bell.
fn one_ringer(alloc: Global) -> Result<(Ringer, Bell), AllocError>
    ensures silent { IfOk result (λ opened. (opened.0.rings ≡ 0) × (opened.0.refused ≡ false)) }
    ensures degree { IfOk result (λ opened. opened.1.degree ≡ 1) }
    ensures unrefused { IfOk result (λ opened. opened.1.refused ≡ false) }
{
    let Ok((mut ringers, bell)) = Bell::open(alloc, 1) else {
        return Err(AllocError);
    };
    ringers.pop().map(|ringer| (ringer, bell)).ok_or(AllocError)
}

// Runs the lower site of the plan, with these ports.
fn run_lower<L: Lane, R: Wait>(
    rt: &R,
    alloc: Global,
    plan: &Plan,
    ports: Vec<Port<L>>,
    bell: Bell,
) -> Result<SiteEnd<L, Taster>, AllocError>
    requires bell { bell.degree ≡ vec_len ports }
    requires unrefused { bell.refused ≡ false }
    requires unused { All IsFreshPort (seen_ports L.Lane ports.items) }
{
    if plan.sites() == 0 {
        return Err(AllocError);
    }
    let diner = Taster::open(alloc, plan.jobs(0), 0)?;
    let forks = fresh_forks(alloc, plan, 0)?;
    let tokens = fresh_tokens(alloc, plan, 0)?;
    let core = SiteCore::open(alloc, plan, 0, forks, tokens)?;
    if core.degree() as usize != ports.len() {
        core.into_parts();
        return Err(AllocError);
    }
    Ok(run_site(rt, alloc, core, ports, bell, diner))
}

// Puts a Request, Done and Close, as the higher site does.
fn put_all<L: Lane, R: Wait>(rt: &R, mut tx: L::Tx)
    requires { IsUnused (L.seen_tx tx) }
{
    let _ = L::put(rt, &mut tx, Letter::Request(Token::open(0)));
    let _ = L::put(rt, &mut tx, Letter::Done);
    let _ = L::close(rt, tx);
}

// Rings three times, and returns the ringer.
fn rung<R: Wait>(rt: &R, mut ringer: Ringer) -> Ringer {
    for _ in 0..3 {
        let _ = ringer.ring(rt);
    }
    ringer
}

// Runs the lower site of the pair if the higher one has put all its letters, and returns what is left.
fn lower_of_pair<L: Lane, R: Wait>(rt: &R, alloc: Global) -> Result<Left<L>, AllocError>
    ensures { IfOk result (λ left. IsUnused (L.seen_rx left.1)) }
{
    let plan = pair(alloc)?;
    let (ringer, bell) = one_ringer(alloc)?;
    let (far_ringer, _far_bell) = one_ringer(alloc)?;
    let (Ok((tx, far_rx)), Ok((far_tx, rx))) = (L::pair(alloc, 0, 0), L::pair(alloc, 0, 1)) else {
        return Err(AllocError);
    };
    let ports = one_port::<L>(alloc, tx, rx, far_ringer)?;
    put_all::<L, R>(rt, far_tx);
    let _ringer = rung(rt, ringer);
    Ok((run_lower(rt, alloc, &plan, ports, bell)?, far_rx))
}

// Returns the name of a fault, as far as it matters here.
fn name_of(fault: Option<SiteFault>) -> &'static str {
    match fault {
        None => "none",
        Some(SiteFault::Memory) => "Memory",
        Some(_) => "another",
    }
}

// Takes the next letter and returns its kind. None if Close was taken before.
fn next_kind<L: Lane, R: Wait>(rt: &R, letters: &mut L::Rx) -> Option<LetterKind>
    requires { length (L.seen_rx letters.old).letters < 2 ^ 61 }
    ensures { length (L.seen_rx letters.new).letters ≤ length (L.seen_rx letters.old).letters + 1 }
{
    if L::is_closed(letters) {
        return None;
    }
    match L::take(rt, letters) {
        Ok(letter) => Some(letter.kind()),
        Err(_) => None,
    }
}

// What is printed of the end of a site: its fault, whether it returned a stray letter, its meals, and the numbers of
// its forks, its tokens and the events of its journal.
#[derive(Drop)]
struct Ended {
    fault: &'static str,
    stray: bool,
    ate: u32,
    forks: usize,
    tokens: usize,
    journal: usize,
}

fn ended_of<L: Lane>(end: SiteEnd<L, Taster>) -> Ended {
    Ended {
        fault: name_of(end.fault),
        stray: end.stray.is_some(),
        ate: end.ate,
        forks: end.forks.len(),
        tokens: end.tokens.len(),
        journal: end.journal.len(),
    }
}

fn print_ended<R: Print>(rt: &R, ended: &Ended) -> io::Result<()> {
    print!(rt; "{} stray={} ate={} ", ended.fault, ended.stray, ended.ate)?;
    print!(rt;
        "forks={} tokens={} journal={}",
        ended.forks, ended.tokens, ended.journal
    )?;
    Ok(())
}

// Prints the kinds of the letters, four at most, and ends the line.
fn print_kinds<L: Lane, R: Wait + Print>(rt: &R, mut letters: L::Rx) -> io::Result<()>
    requires { IsUnused (L.seen_rx letters) }
{
    for taken in 0..4u32 {
        let Some(kind) = next_kind::<L, R>(rt, &mut letters) else {
            break;
        };
        print!(rt; " {kind:?}")?;
    }
    println!(rt; "")?;
    Ok(())
}

/// Runs the lower site of the pair, and prints how it ended: its fault, whether it returned a stray letter, its meals,
/// the numbers of its forks, its tokens and the events of its journal, and the kinds of the letters that it put.
pub fn print_left<L: Lane, R: Wait + Print>(rt: &R, alloc: Global) -> io::Result<()> {
    let (end, letters) = lower_of_pair::<L, R>(rt, alloc)?;
    print_ended(rt, &ended_of(end))?;
    print_kinds::<L, R>(rt, letters)
}
