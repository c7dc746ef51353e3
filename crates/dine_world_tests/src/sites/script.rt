// Scripts: what some sites do one after another, and the letters that go between them. A test is a list of steps, which
// one function goes through, so that each call is proved once and not once more in each test.
use super::{
    Report, ask_at, break_off, close, core_of, eat, eat_with, foreign, give_at, grow_hungry,
    is_broken_off, is_fork_with, may_do, next_is, quit, refuse, report_of, say_done_at, spend,
    take_at, value_of, waits,
};
use crate::asserts::{holds, same};
use crate::forks::opened;
use dine_plan::Plan;
use dine_token::{Entry, Token};
use dine_world::{Breach, EventKind, Letter, LetterKind, Parts, SiteCore};
use std::alloc::Global;
use std::process::Abort;

// The first three sites of a script.
pub const A: usize = 0;

pub const B: usize = 1;

pub const C: usize = 2;

// A step of the site with this number in the script. The letters are on a stack: a put pushes one, and a take pops one.
#[derive(Clone, Copy)]
pub enum Step {
    Hungry(usize),
    // It eats a meal that goes well, or one that fails, and has nothing else to do before it ends.
    Eat(usize),
    Fail(usize),
    // It eats with a fork that has this value then.
    EatWith(usize, u64),
    Quit(usize),
    // It breaks off at its first place, which puts Close, or has done so before.
    BreakOff(usize),
    BrokenOff(usize),
    // It does this at a place, which puts a letter.
    Ask(usize, u32),
    Give(usize, u32),
    SayDone(usize, u32),
    // It closes its first place.
    Close(usize),
    // It takes the topmost letter at a place.
    Take(usize, u32),
    // It refuses the topmost letter at its first place, for this cause, and the letter is back on top.
    Refuse(usize, Breach),
    // This is what it does next of itself.
    Next(usize, Option<EventKind>),
    // Whether it may grow hungry, quit, and say Done at its first place.
    May(usize, (bool, bool, bool)),
    // It waits for this: as `waits` says.
    Waits(usize, (Option<u32>, u32, u32)),
    // Whether Close went both ways at each of its places.
    Closed(usize, bool),
    // It ate this number of meals.
    Ate(usize, u32),
    // It has this number of places.
    Degree(usize, u32),
    // This is what it reports of itself and its first place.
    Reports(usize, Report),
    // It has nothing left to do.
    Finished(usize),
    // The topmost letter is of this kind.
    Lies(LetterKind),
    // The topmost letter is a fork of this log.
    LiesForkOf(&'static [Entry]),
    // The topmost letter is a fork of this value, and is gone then.
    LiesWith(u64),
    // The topmost letter is gone.
    Lose,
    // A letter that no site of the script wrote: the Request of an edge, and Done and Close.
    Request(u32),
    Done,
    CloseLetter,
    // A fork as it is opened, between site 0 and this higher end.
    Fork {
        edge: u32,
        higher: u32,
        due: (u32, u32),
    },
    // A fork of the first edge from site 0 to site 1, as `foreign` says.
    Foreign(u64),
}

fn core_at<'a>(rt: &impl Abort, cores: &'a mut Vec<SiteCore>, n: usize) -> &'a mut SiteCore {
    cores.get_mut(n).expect(rt, "a site")
}

fn top(rt: &impl Abort, pile: &mut Vec<Letter>) -> Letter {
    pile.pop().expect(rt, "a letter")
}

// Returns the letter that this step pushes, if it pushes one.
fn letter_put(
    rt: &impl Abort,
    alloc: Global,
    cores: &mut Vec<SiteCore>,
    step: Step,
) -> Option<Letter> {
    match step {
        Step::Ask(n, i) => Some(ask_at(rt, core_at(rt, cores, n), i)),
        Step::Give(n, i) => Some(give_at(rt, core_at(rt, cores, n), i)),
        Step::SayDone(n, i) => Some(say_done_at(rt, core_at(rt, cores, n), i)),
        Step::Close(n) => Some(close(rt, core_at(rt, cores, n))),
        Step::BreakOff(n) => break_off(rt, core_at(rt, cores, n)),
        Step::Request(edge) => Some(Letter::Request(Token::open(edge))),
        Step::Done => Some(Letter::Done),
        Step::CloseLetter => Some(Letter::Close),
        Step::Fork { edge, higher, due } => {
            let fork = opened(rt, alloc, edge, (0, higher), due, 0);
            Some(Letter::Fork(fork))
        }
        Step::Foreign(value) => Some(foreign(rt, alloc, value)),
        _ => None,
    }
}

// Does a step that pushes a letter.
fn puts(
    rt: &impl Abort,
    alloc: Global,
    cores: &mut Vec<SiteCore>,
    pile: &mut Vec<Letter>,
    step: Step,
) {
    if let Some(letter) = letter_put(rt, alloc, cores, step) {
        pile.push(letter).expect(rt, "memory");
    }
}

// A step by which a site goes on, and no letter moves.
fn goes_on(rt: &impl Abort, cores: &mut Vec<SiteCore>, step: Step) {
    match step {
        Step::Hungry(n) => grow_hungry(rt, core_at(rt, cores, n)),
        Step::Eat(n) => eat(rt, core_at(rt, cores, n), false),
        Step::Fail(n) => eat(rt, core_at(rt, cores, n), true),
        Step::EatWith(n, value) => eat_with(rt, core_at(rt, cores, n), value),
        Step::Quit(n) => quit(rt, core_at(rt, cores, n)),
        Step::BrokenOff(n) => is_broken_off(rt, core_at(rt, cores, n)),
        _ => {}
    }
}

fn seen_at<'a>(rt: &impl Abort, cores: &'a [SiteCore], n: usize) -> &'a SiteCore {
    cores.get(n).expect(rt, "a site")
}

// Does a step that checks a site.
fn looks(rt: &impl Abort, cores: &[SiteCore], step: Step) {
    match step {
        Step::May(n, may) => may_do(rt, seen_at(rt, cores, n), may),
        Step::Next(n, kind) => next_is(rt, seen_at(rt, cores, n), kind),
        Step::Waits(n, wanted) => waits(rt, seen_at(rt, cores, n), wanted),
        Step::Closed(n, is_closed) => same(rt, &seen_at(rt, cores, n).is_closed(), &is_closed),
        Step::Ate(n, k) => same(rt, &seen_at(rt, cores, n).ate(), &k),
        Step::Degree(n, places) => same(rt, &seen_at(rt, cores, n).degree(), &places),
        Step::Reports(n, report) => same(rt, &report_of(rt, seen_at(rt, cores, n), 0), &report),
        Step::Finished(n) => holds(rt, seen_at(rt, cores, n).is_finished()),
        _ => {}
    }
}

// Does a step that pops a letter, or pushes it again.
fn lands(rt: &impl Abort, cores: &mut Vec<SiteCore>, pile: &mut Vec<Letter>, step: Step) {
    match step {
        Step::Take(n, i) => {
            let letter = top(rt, pile);
            take_at(rt, core_at(rt, cores, n), i, letter);
        }
        Step::Refuse(n, cause) => {
            let letter = top(rt, pile);
            let back = refuse(rt, core_at(rt, cores, n), letter, cause);
            pile.push(back).expect(rt, "memory");
        }
        Step::Lies(kind) => {
            let letter = top(rt, pile);
            same(rt, &letter.kind(), &kind);
            pile.push(letter).expect(rt, "memory");
        }
        Step::LiesForkOf(log) => {
            let letter = top(rt, pile);
            is_fork_with(rt, &letter, log);
            pile.push(letter).expect(rt, "memory");
        }
        Step::LiesWith(value) => same(rt, &value_of(rt, &top(rt, pile)), &value),
        Step::Lose => {
            let _letter = top(rt, pile);
        }
        _ => {}
    }
}

// Another site joins the script.
pub fn seat(rt: &impl Abort, cores: &mut Vec<SiteCore>, core: SiteCore) {
    holds(rt, cores.len() < cores.capacity());
    cores.push_reserved(core);
}

// Returns the cores of these sites of a plan before the first step, with capacity for four.
pub fn seated(rt: &impl Abort, alloc: Global, plan: &Plan, sites: &[u32]) -> Vec<SiteCore> {
    let mut cores = Vec::with_capacity(alloc, 4).expect(rt, "memory");
    for site in sites {
        seat(rt, &mut cores, core_of(rt, alloc, plan, *site));
    }
    cores
}

// Does the steps, one after another.
pub fn play(rt: &impl Abort, alloc: Global, cores: &mut Vec<SiteCore>, steps: &[Step]) {
    let mut pile = Vec::new(alloc);
    for step in steps {
        goes_on(rt, cores, *step);
        looks(rt, cores.as_slice(), *step);
        lands(rt, cores, &mut pile, *step);
        puts(rt, alloc, cores, &mut pile, *step);
    }
}

// What is left of the sites, in their order.
pub fn leave(rt: &impl Abort, alloc: Global, mut cores: Vec<SiteCore>) -> Vec<Parts> {
    let mut left = Vec::new(alloc);
    for _ in 0..cores.len() {
        let core = cores.pop().expect(rt, "a site");
        left.push(spend(rt, core)).expect(rt, "memory");
    }
    holds(rt, cores.is_empty());
    cores.destroy_empty();
    left.as_mut_slice().reverse();
    left
}

// These sites of the plan do these steps, and this is left of them.
pub fn plays(
    rt: &impl Abort,
    alloc: Global,
    plan: &Plan,
    sites: &[u32],
    steps: &[Step],
) -> Vec<Parts> {
    let mut cores = seated(rt, alloc, plan, sites);
    play(rt, alloc, &mut cores, steps);
    leave(rt, alloc, cores)
}
