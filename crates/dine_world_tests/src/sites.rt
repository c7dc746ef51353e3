// The core of one site: what it may do, what it takes and what it reports.

mod breaches;
mod script;

use crate::asserts::{holds, same};
use crate::forks::{Step as Way, fork_after, has_log};
use crate::plans::read;
use dine_plan::Plan;
use dine_test_plans::{FAILING_PAIR, PAIR, RESIGNING_PAIR};
use dine_token::{Act, Entry, Fork, Token};
use dine_world::site::{fresh_forks, fresh_tokens};
use dine_world::{Breach, EventKind, Letter, LetterKind, Packed, Parts, Phase, SiteCore};
use script::{A, B, C, Step, leave, play, plays, seat, seated};
use std::alloc::{AllocError, Global};
use std::process::Abort;

// Two sites with an edge, and a number of jobs each.
fn pair_text(lower: &str, higher: &str, alloc: Global) -> Result<String, AllocError> {
    format!(in alloc;
        "version = 1\n[[site]]\nname = \"a\"\njobs = [{lower}]\n[[site]]\nname = \"b\"\njobs = [{higher}]\n\
        [[edge]]\nends = [\"a\", \"b\"]\n"
    )
}

const JOB: &str = "{ name = \"x\" }";

const TWO_JOBS: &str = "{ name = \"x\" }, { name = \"y\" }";

const THREE_JOBS: &str = "{ name = \"x\" }, { name = \"y\" }, { name = \"z\" }";

fn plan_of(rt: &impl Abort, alloc: Global, lower: &str, higher: &str) -> Plan {
    let text = pair_text(lower, higher, alloc).expect(rt, "memory");
    read(rt, alloc, text.as_str())
}

// Two sites with an edge, and a job each.
fn pair(rt: &impl Abort, alloc: Global) -> Plan {
    read(rt, alloc, PAIR)
}

// Three sites in a row, and a job at the last.
const ROW: &str = "version = 1\n\
    [[site]]\nname = \"a\"\n[[site]]\nname = \"b\"\n[[site]]\nname = \"c\"\njobs = [{ name = \"x\" }]\n\
    [[edge]]\nends = [\"a\", \"b\"]\n[[edge]]\nends = [\"b\", \"c\"]\n";

// The same with a job at the middle too.
const BUSY_ROW: &str = "version = 1\n\
    [[site]]\nname = \"a\"\n[[site]]\nname = \"b\"\njobs = [{ name = \"x\" }]\n\
    [[site]]\nname = \"c\"\njobs = [{ name = \"y\" }]\n\
    [[edge]]\nends = [\"a\", \"b\"]\n[[edge]]\nends = [\"b\", \"c\"]\n";

// The core of a site, with the forks and tokens that it has at the start.
fn core_of(rt: &impl Abort, alloc: Global, plan: &Plan, site: u32) -> SiteCore {
    holds(rt, site < plan.sites());
    let forks = fresh_forks(alloc, plan, site).expect(rt, "memory");
    let tokens = fresh_tokens(alloc, plan, site).expect(rt, "memory");
    SiteCore::open(alloc, plan, site, forks, tokens).expect(rt, "memory")
}

fn forks_of(rt: &impl Abort, alloc: Global, plan: &Plan, site: u32) -> Vec<Fork> {
    holds(rt, site < plan.sites());
    fresh_forks(alloc, plan, site).expect(rt, "memory")
}

fn tokens_of(rt: &impl Abort, alloc: Global, plan: &Plan, site: u32) -> Vec<Token> {
    holds(rt, site < plan.sites());
    fresh_tokens(alloc, plan, site).expect(rt, "memory")
}

// What the site does next of itself.
fn next_is(rt: &impl Abort, core: &SiteCore, kind: Option<EventKind>) {
    same(rt, &core.next_event(), &kind);
}

fn grow_hungry(rt: &impl Abort, core: &mut SiteCore) {
    holds(rt, core.may_hungry());
    core.hungry();
}

fn ask_at(rt: &impl Abort, core: &mut SiteCore, i: u32) -> Letter {
    holds(rt, i < core.degree());
    holds(rt, core.may_ask(i));
    core.ask(i)
}

fn give_at(rt: &impl Abort, core: &mut SiteCore, i: u32) -> Letter {
    holds(rt, i < core.degree());
    holds(rt, core.may_give(i));
    core.give(i)
}

// A meal that goes well or fails. There is nothing else to do before it ends.
fn eat(rt: &impl Abort, core: &mut SiteCore, failed: bool) {
    holds(rt, core.may_begin());
    holds(rt, !core.may_end());
    let meal = core.begin();
    next_is(rt, core, Some(EventKind::End));
    core.end(meal, failed);
}

fn quit(rt: &impl Abort, core: &mut SiteCore) {
    holds(rt, core.may_quit());
    core.quit();
}

// Whether the site may grow hungry, quit, and say Done at its first place.
fn may_do(rt: &impl Abort, core: &SiteCore, may: (bool, bool, bool)) {
    holds(rt, 0 < core.degree());
    same(
        rt,
        &(core.may_hungry(), core.may_quit(), core.may_done(0)),
        &may,
    );
}

// The letter that a site puts by breaking off at its first place.
fn break_off(rt: &impl Abort, core: &mut SiteCore) -> Option<Letter> {
    holds(rt, 0 < core.degree());
    holds(rt, core.phase() != Phase::Eating);
    core.break_off(0)
}

// The site broke off there before: it puts nothing more, and stays as it is.
fn is_broken_off(rt: &impl Abort, core: &mut SiteCore) {
    let before = report_of(rt, core, 0);
    holds(rt, break_off(rt, core).is_none());
    same(rt, &report_of(rt, core, 0), &before);
}

fn say_done_at(rt: &impl Abort, core: &mut SiteCore, i: u32) -> Letter {
    holds(rt, i < core.degree());
    holds(rt, core.may_done(i));
    core.done(i)
}

fn close(rt: &impl Abort, core: &mut SiteCore) -> Letter {
    holds(rt, 0 < core.degree());
    holds(rt, core.may_close(0));
    core.close(0)
}

fn take_at(rt: &impl Abort, core: &mut SiteCore, i: u32, letter: Letter) {
    holds(rt, i < core.degree());
    holds(rt, core.take(i, letter).is_ok());
}

// What a core reports of itself and of one of its places.
#[derive(Clone, Copy, Debug, PartialEq, Eq)]
struct Report {
    site: u32,
    phase: Phase,
    ate: u32,
    has_fork: bool,
    has_token: bool,
    has_taken_close: bool,
    is_closed: bool,
    is_finished: bool,
}

fn report_of(rt: &impl Abort, core: &SiteCore, i: u32) -> Report {
    holds(rt, i < core.degree());
    Report {
        site: core.site(),
        phase: core.phase(),
        ate: core.ate(),
        has_fork: core.has_fork(i),
        has_token: core.has_token(i),
        has_taken_close: core.has_taken_close(i),
        is_closed: core.is_closed(),
        is_finished: core.is_finished(),
    }
}

// Returns the kind of a letter, its edge if it has one, and the length of the log of its fork.
fn letter_in_short(letter: &Letter) -> (LetterKind, Option<u32>, u64) {
    match letter {
        Letter::Fork(fork) => (LetterKind::Fork, Some(fork.edge()), fork.len()),
        Letter::Request(token) => (LetterKind::Request, Some(token.edge()), 0),
        Letter::Done | Letter::Close => (letter.kind(), None, 0),
    }
}

// Checks that the letter is refused and returned, and that the core reports the same as before.
fn refuse(rt: &impl Abort, core: &mut SiteCore, letter: Letter, cause: Breach) -> Letter {
    let before = report_of(rt, core, 0);
    let put = letter_in_short(&letter);
    holds(rt, 0 < core.degree());
    let Err((back, breach)) = core.take(0, letter) else {
        holds(rt, false);
        return Letter::Close;
    };
    same(rt, &breach, &cause);
    same(rt, &letter_in_short(&back), &put);
    same(rt, &report_of(rt, core, 0), &before);
    back
}

fn spend(rt: &impl Abort, core: SiteCore) -> Parts {
    holds(rt, core.phase() != Phase::Eating);
    core.into_parts()
}

// Checks what a site of a script left: the numbers of its forks and tokens.
fn are_left(rt: &impl Abort, left: &Vec<Parts>, n: usize, forks: usize, tokens: usize) {
    let parts = left.get(n).expect(rt, "a site");
    same(
        rt,
        &(parts.forks.len(), parts.tokens.len()),
        &(forks, tokens),
    );
}

// The first fork that a site of a script left.
fn fork_left<'a>(rt: &impl Abort, left: &'a [Parts], n: usize) -> &'a Fork {
    let parts = left.get(n).expect(rt, "a site");
    parts.forks.first().expect(rt, "a fork")
}

#[test]
fn two_sites_eat_one_after_the_other(rt: HostRuntime) {
    let plan = pair(&rt, rt.alloc());
    let steps = [
        Step::Hungry(A),
        Step::Eat(A),
        Step::Hungry(B),
        Step::Ask(B, 0),
        Step::Take(A, 0),
        Step::Give(A, 0),
        Step::Take(B, 0),
        Step::SayDone(A, 0),
        Step::Take(B, 0),
        Step::Eat(B),
        Step::SayDone(B, 0),
        Step::Take(A, 0),
        Step::Close(A),
        Step::Take(B, 0),
        Step::Close(B),
        Step::Take(A, 0),
        Step::Finished(A),
        Step::Finished(B),
        Step::Closed(A, true),
        Step::Closed(B, true),
        Step::Ate(A, 1),
        Step::Ate(B, 1),
    ];
    let left = plays(&rt, rt.alloc(), &plan, &[0, 1], &steps);
    are_left(&rt, &left, A, 0, 1);
    are_left(&rt, &left, B, 1, 0);
    let log = [
        Entry::Meal { site: 0, k: 1 },
        Entry::Move { to: 1 },
        Entry::Meal { site: 1, k: 1 },
    ];
    has_log(&rt, fork_left(&rt, left.as_slice(), B), &log);
}

// The one site of the script is the middle one.
#[test]
fn events_come_in_the_fixed_order(rt: HostRuntime) {
    let plan = read(&rt, rt.alloc(), ROW);
    let steps = [
        Step::Next(A, Some(EventKind::Done(0))),
        Step::Request(1),
        Step::Take(A, 1),
        Step::Next(A, Some(EventKind::Give(1))),
        Step::SayDone(A, 0),
        Step::Done,
        Step::Take(A, 0),
        Step::Next(A, Some(EventKind::Give(1))),
        Step::Give(A, 1),
        Step::Next(A, Some(EventKind::Done(1))),
        Step::SayDone(A, 1),
        Step::Next(A, Some(EventKind::Close(0))),
        Step::Close(A),
        Step::Next(A, None),
    ];
    let left = plays(&rt, rt.alloc(), &plan, &[1], &steps);
    are_left(&rt, &left, A, 0, 2);
}

#[test]
fn events_follow_the_phase(rt: HostRuntime) {
    let plan = pair(&rt, rt.alloc());
    let steps = [
        Step::Next(A, Some(EventKind::Hungry)),
        Step::Hungry(A),
        Step::Next(A, Some(EventKind::Begin)),
        Step::Hungry(B),
        Step::Next(B, Some(EventKind::Ask(0))),
        Step::Ask(B, 0),
        Step::Take(A, 0),
        Step::Next(B, None),
        Step::Next(A, Some(EventKind::Give(0))),
        Step::Give(A, 0),
        Step::Take(B, 0),
        Step::Next(A, Some(EventKind::Ask(0))),
        Step::Next(B, Some(EventKind::Begin)),
        Step::Eat(B),
        Step::Next(B, Some(EventKind::Done(0))),
    ];
    let left = plays(&rt, rt.alloc(), &plan, &[0, 1], &steps);
    are_left(&rt, &left, A, 0, 1);
    are_left(&rt, &left, B, 1, 0);
}

// The lower of two sites has three jobs, and its policy is this.
fn policy_plan(rt: &impl Abort, alloc: Global, policy: &str) -> Plan {
    let text = format!(in alloc;
        "version = 2\n[[site]]\nname = \"a\"\non_fault = \"{policy}\"\njobs = [{THREE_JOBS}]\n\
        [[site]]\nname = \"b\"\njobs = [{JOB}]\n[[edge]]\nends = [\"a\", \"b\"]\n"
    )
    .expect(rt, "memory");
    read(rt, alloc, text.as_str())
}

// Only a meal that failed has a site quit, and then it grows hungry no more.
#[test]
fn site_that_resigns_quits_after_a_meal_that_failed(rt: HostRuntime) {
    let plan = policy_plan(&rt, rt.alloc(), "resign");
    let steps = [
        Step::May(A, (true, false, false)),
        Step::Hungry(A),
        Step::Eat(A),
        Step::May(A, (true, false, false)),
        Step::Hungry(A),
        Step::Fail(A),
        Step::May(A, (false, true, false)),
        Step::Next(A, Some(EventKind::Quit)),
        Step::Quit(A),
        Step::May(A, (false, false, true)),
        Step::Next(A, Some(EventKind::Done(0))),
    ];
    plays(&rt, rt.alloc(), &plan, &[0], &steps);
}

// Neither the last meal, nor that of a site that goes on, has the site quit.
#[test]
fn no_site_quits_without_cause(rt: HostRuntime) {
    for (policy, meal) in [("resign", Step::Eat(A)), ("go", Step::Fail(A))] {
        let plan = policy_plan(&rt, rt.alloc(), policy);
        let steps = [
            Step::Hungry(A),
            meal,
            Step::Hungry(A),
            meal,
            Step::Hungry(A),
            Step::Fail(A),
            Step::May(A, (false, false, true)),
            Step::Next(A, Some(EventKind::Done(0))),
        ];
        plays(&rt, rt.alloc(), &plan, &[0], &steps);
    }
}

// If the sender resigns, it may put Done although the fork lacks some of its meals.
#[test]
fn done_comes_before_all_meals_of_a_site_that_resigns(rt: HostRuntime) {
    let refused = Step::Refuse(B, Breach::DoneOutOfTurn);
    for (text, last) in [(RESIGNING_PAIR, Step::Take(B, 0)), (FAILING_PAIR, refused)] {
        let plan = read(&rt, rt.alloc(), text);
        let steps = [
            Step::Hungry(B),
            Step::Ask(B, 0),
            Step::Hungry(A),
            Step::Eat(A),
            Step::Take(A, 0),
            Step::Give(A, 0),
            Step::LiesForkOf(&[Entry::Meal { site: 0, k: 1 }, Entry::Move { to: 1 }]),
            Step::Take(B, 0),
            Step::Done,
            last,
        ];
        plays(&rt, rt.alloc(), &plan, &[0, 1], &steps);
    }
}

// Checks the first place with a dirty fork, the number of such places, and the number of missing forks.
fn waits(rt: &impl Abort, core: &SiteCore, wanted: (Option<u32>, u32, u32)) {
    let dirty = core.dirty_places();
    let found = (dirty.first(), dirty.len(), core.missing_forks());
    same(rt, &found, &wanted);
}

#[test]
fn what_a_site_waits_for_follows_its_forks(rt: HostRuntime) {
    let plan = read(&rt, rt.alloc(), BUSY_ROW);
    let steps = [
        Step::Waits(A, (Some(0), 1, 0)),
        Step::Waits(C, (None, 0, 1)),
        Step::Waits(B, (Some(1), 1, 1)),
        Step::Hungry(C),
        Step::Ask(C, 0),
        Step::Take(B, 1),
        Step::Waits(B, (Some(1), 1, 1)),
        Step::Give(B, 1),
        Step::Waits(B, (None, 0, 2)),
        Step::Take(C, 0),
        Step::Waits(C, (None, 0, 0)),
        Step::Eat(C),
        Step::Hungry(B),
        Step::Ask(B, 0),
        Step::Take(A, 0),
        Step::Give(A, 0),
        Step::Take(B, 0),
        Step::Waits(B, (None, 0, 1)),
        Step::Ask(B, 1),
        Step::Take(C, 0),
        Step::Give(C, 0),
        Step::Take(B, 1),
        Step::Waits(B, (None, 0, 0)),
        Step::Eat(B),
        Step::Waits(B, (Some(0), 2, 0)),
    ];
    plays(&rt, rt.alloc(), &plan, &[0, 1, 2], &steps);
}

#[test]
fn second_break_off_gives_nothing(rt: HostRuntime) {
    let plan = pair(&rt, rt.alloc());
    let steps = [
        Step::BreakOff(A),
        Step::Lies(LetterKind::Close),
        Step::BrokenOff(A),
    ];
    let left = plays(&rt, rt.alloc(), &plan, &[0], &steps);
    are_left(&rt, &left, A, 1, 0);
}

#[test]
fn fresh_forks_are_those_of_the_lower_end(rt: HostRuntime) {
    let plan = read(&rt, rt.alloc(), ROW);
    let forks = forks_of(&rt, rt.alloc(), &plan, 1);
    same(&rt, &forks.len(), &1);
    let fork = forks.first().expect(&rt, "a fork");
    same(&rt, &(fork.edge(), fork.len()), &(1, 0));
    holds(&rt, fork.ends() == (1, 2));
    same(&rt, &(fork.due_of(1), fork.due_of(2)), &(0, 1));
    same(&rt, &forks_of(&rt, rt.alloc(), &plan, 2).len(), &0);
}

#[test]
fn fresh_tokens_are_those_of_the_higher_end(rt: HostRuntime) {
    let plan = read(&rt, rt.alloc(), ROW);
    let tokens = tokens_of(&rt, rt.alloc(), &plan, 1);
    same(&rt, &tokens.len(), &1);
    let edge = tokens.first().map(|token| token.edge());
    same(&rt, &edge, &Some(0));
    same(&rt, &tokens_of(&rt, rt.alloc(), &plan, 0).len(), &0);
}

// The packed core of a site.
fn packed_site(rt: &impl Abort, alloc: Global, plan: &Plan, site: u32) -> Packed {
    holds(rt, site < plan.sites());
    let forks = fresh_forks(alloc, plan, site).expect(rt, "memory");
    let tokens = fresh_tokens(alloc, plan, site).expect(rt, "memory");
    SiteCore::open(alloc, plan, site, forks, tokens)
        .expect(rt, "memory")
        .pack()
}

// A core that was packed and is unpacked again.
fn repacked(rt: &impl Abort, alloc: Global, plan: &Plan, site: u32) -> SiteCore {
    packed_site(rt, alloc, plan, site).unpack()
}

#[test]
fn packed_core_comes_back_as_it_was(rt: HostRuntime) {
    let plan = plan_of(&rt, rt.alloc(), JOB, TWO_JOBS);
    let mut cores = seated(&rt, rt.alloc(), &plan, &[]);
    seat(&rt, &mut cores, repacked(&rt, rt.alloc(), &plan, 0));
    let steps = [
        Step::Degree(A, 1),
        Step::Reports(
            A,
            Report {
                site: 0,
                phase: Phase::Thinking,
                ate: 0,
                has_fork: true,
                has_token: false,
                has_taken_close: false,
                is_closed: false,
                is_finished: false,
            },
        ),
        Step::Hungry(A),
        Step::Eat(A),
        Step::Ate(A, 1),
    ];
    play(&rt, rt.alloc(), &mut cores, &steps);
    are_left(&rt, &leave(&rt, rt.alloc(), cores), A, 1, 0);
}

// Two sites with an edge of value 5 and a job each: that of `a` adds 10, and that of `b` does this.
fn valued(rt: &impl Abort, alloc: Global, act: &str) -> Plan {
    let text = format!(in alloc;
        "version = 2\n[[site]]\nname = \"a\"\njobs = [{{ name = \"x\", add = 10 }}]\n\
        [[site]]\nname = \"b\"\njobs = [{{ name = \"y\", {act} }}]\n\
        [[edge]]\nends = [\"a\", \"b\"]\nvalue = 5\n"
    )
    .expect(rt, "memory");
    read(rt, alloc, text.as_str())
}

// A fork of the edge that was opened with the value, with which `a` has eaten once without adding, and which went to
// `b`.
fn foreign(rt: &impl Abort, alloc: Global, value: u64) -> Letter {
    let steps = [
        Way::Open(0, (0, 1), (1, 1), value),
        Way::Eat((0, 1), Act::Add(0), &[value]),
        Way::Give(1),
    ];
    Letter::Fork(fork_after(rt, alloc, &steps))
}

// A meal with a fork that has this value then.
fn eat_with(rt: &impl Abort, core: &mut SiteCore, value: u64) {
    holds(rt, core.may_begin());
    let meal = core.begin();
    holds(rt, 0 < meal.len());
    same(rt, &meal.fork(0).value(), &value);
    core.end(meal, false);
}

// The fork in the letter has exactly this log.
fn is_fork_with(rt: &impl Abort, letter: &Letter, log: &[Entry]) {
    match letter {
        Letter::Fork(fork) => has_log(rt, fork, log),
        _ => panic!(rt; "no fork"),
    }
}

fn value_of(rt: &impl Abort, letter: &Letter) -> u64 {
    match letter {
        Letter::Fork(fork) => fork.value(),
        _ => panic!(rt; "no fork"),
    }
}

// A core takes a fork whatever its value, and its meal changes that value.
#[test]
fn meal_changes_the_value_that_came(rt: HostRuntime) {
    for (act, value) in [("set = 7", 7), ("add = 3", 903)] {
        let plan = valued(&rt, rt.alloc(), act);
        let steps = [
            Step::Hungry(A),
            Step::Ask(A, 0),
            Step::Lose,
            Step::Foreign(900),
            Step::Take(A, 0),
            Step::EatWith(A, value),
        ];
        let left = plays(&rt, rt.alloc(), &plan, &[1], &steps);
        let fork = fork_left(&rt, left.as_slice(), A);
        same(&rt, &fork.value(), &value);
    }
}

// The first meal of the lower site adds to the value of the plan, and what is given has that value.
#[test]
fn fork_that_is_given_has_the_value_in_hand(rt: HostRuntime) {
    let plan = valued(&rt, rt.alloc(), "set = 7");
    let steps = [
        Step::Hungry(A),
        Step::EatWith(A, 15),
        Step::Request(0),
        Step::Take(A, 0),
        Step::Give(A, 0),
        Step::LiesWith(15),
    ];
    plays(&rt, rt.alloc(), &plan, &[0], &steps);
}
