// Forks with the logs of some ways that they may go, meals and tokens. A way is a script: a list of steps that one
// function does with the forks at hand.
ghost use Rattle.std.specs.Prelude.{◌≡◌, true, All};
ghost use Rattle.dine_token.specs.Fork.{IsEnd, MayEat};
ghost use Rattle.dine_token.specs.Values.{IsAct};

use crate::asserts::{holds, same};
use dine_token::{Act, Entry, Fork, Held, MAX_JOBS, MAX_NUMBER, Meal, Period, Token};
use std::alloc::Global;
use std::process::Abort;

// What a fork has: where it is, whether it is dirty, the numbers of meals of its lower and its higher end, its value,
// its log, and the periods of its log, each with its site, its first meal and the number of its meals.
#[derive(Clone, Copy)]
pub(crate) struct Report<'a> {
    at: u32,
    is_dirty: bool,
    meals: (u32, u32),
    value: u64,
    log: &'a [Entry],
    periods: &'a [(u32, u32, u32)],
}

#[derive(Clone, Copy)]
pub(crate) enum Step<'a> {
    // A fork of this edge is opened and added as the last: its ends, the meals due to them, and its value.
    Open(u32, (u32, u32), (u32, u32), u64),
    // The site eats its meal of this number with all forks, which have these values then.
    Eat((u32, u32), Act, &'a [u64]),
    // The last fork is sent to this end and taken there.
    Give(u32),
    // The last is laid down.
    Keep,
    // The last fork has this.
    Reports(Report<'a>),
}

// A fork as it is opened, with what it was opened with.
pub(crate) fn opened(
    rt: &impl Abort,
    alloc: Global,
    edge: u32,
    ends: (u32, u32),
    due: (u32, u32),
    value: u64,
) -> Fork {
    holds(rt, ends.0 < ends.1);
    holds(rt, due.0 <= MAX_JOBS);
    holds(rt, due.1 <= MAX_JOBS);
    holds(rt, value <= MAX_NUMBER);
    let fork = Fork::open(alloc, edge, ends.0, ends.1, due.0, due.1, value).expect(rt, "memory");
    same(rt, &fork.edge(), &edge);
    same(rt, &fork.ends(), &ends);
    same(rt, &(fork.due_of(ends.0), fork.due_of(ends.1)), &due);
    same(rt, &fork.value(), &value);
    fork
}

fn is_end(fork: &Fork, site: u32) -> bool
    ensures { result ≡ true → IsEnd fork.now site }
{
    let (lower, higher) = fork.ends();
    site == lower || site == higher
}

// Whether the site may eat this meal with the fork.
fn may_eat(fork: &Fork, site: u32, k: u32) -> bool
    ensures { result ≡ true → MayEat site k fork.now }
{
    is_end(fork, site)
        && fork.at() == site
        && k <= fork.due_of(site)
        && fork.meals_of(site) < k
        && fork.meals_of(site) + 1 == k
}

fn all_may_eat(hands: &[Held], site: u32, k: u32) -> bool
    ensures { result ≡ true → All (MayEat site k) hands.now }
{
    for i in 0..hands.len() {
        if !may_eat(hands[i].fork(), site, k) {
            return false;
        }
    }
    true
}

fn is_act(act: Act) -> bool
    ensures { result ≡ true → IsAct act }
{
    match act {
        Act::Add(amount) => amount <= MAX_NUMBER,
        Act::Set(amount) => amount <= MAX_NUMBER,
    }
}

// How many meals of the site the fork has.
fn meals_of(rt: &impl Abort, fork: &Fork, site: u32) -> u32 {
    holds(rt, is_end(fork, site));
    fork.meals_of(site)
}

// Checks the meal, the number of its forks, and the meals so far and the value of each.
fn is_meal(rt: &impl Abort, meal: &Meal, site: u32, k: u32, values: &[u64]) {
    same(rt, &(meal.site(), meal.k()), &(site, k));
    holds(rt, meal.len() as usize == values.len());
    for i in 0..meal.len() {
        let fork = meal.fork(i);
        same(rt, &meals_of(rt, fork, site), &k);
        same(rt, &Some(fork.value()), &values.get(i as usize).copied());
    }
}

fn begin(rt: &impl Abort, hands: Vec<Held>, site: u32, k: u32, act: Act) -> Meal {
    holds(rt, hands.len() <= 10);
    holds(rt, all_may_eat(hands.as_slice(), site, k));
    holds(rt, is_act(act));
    Meal::begin(site, k, act, hands)
}

fn eat(
    rt: &impl Abort,
    hands: Vec<Held>,
    site: u32,
    k: u32,
    act: Act,
    values: &[u64],
) -> Vec<Held> {
    let meal = begin(rt, hands, site, k, act);
    is_meal(rt, &meal, site, k, values);
    meal.end()
}

// The fork after it was sent to the other end.
fn give(rt: &impl Abort, held: Held, to: u32) -> Fork {
    let fork = held.fork();
    let (lower, higher) = fork.ends();
    holds(rt, to == (if fork.at() == lower { higher } else { lower }));
    holds(rt, fork.is_dirty());
    holds(rt, fork.meals_of(to) < fork.due_of(to));
    held.give(to)
}

fn last(rt: &impl Abort, hands: &mut Vec<Held>) -> Held {
    hands.pop().expect(rt, "a fork")
}

// Adds the fork.
fn comes(rt: &impl Abort, hands: &mut Vec<Held>, fork: Fork) {
    holds(rt, hands.len() < hands.capacity());
    hands.push_reserved(Held::take(fork));
}

// The fork has exactly this log.
pub(crate) fn has_log(rt: &impl Abort, fork: &Fork, log: &[Entry]) {
    holds(rt, fork.len() as usize == log.len());
    for i in 0..fork.len() {
        let entry = log.get(i as usize).copied();
        same(rt, &Some(fork.entry(i)), &entry);
    }
}

// The fork has exactly these periods, and a Move between any two.
pub(crate) fn has_periods(rt: &impl Abort, fork: &Fork, periods: &[(u32, u32, u32)]) {
    holds(rt, fork.periods() as usize == periods.len());
    same(rt, &fork.moves().saturating_add(1), &fork.periods());
    for i in 0..fork.periods() {
        let Period { site, first, count } = fork.period(i);
        let period = periods.get(i as usize).copied();
        same(rt, &Some((site, first, count)), &period);
    }
}

fn reports(rt: &impl Abort, fork: &Fork, report: Report) {
    same(
        rt,
        &(fork.at(), fork.is_dirty(), fork.value()),
        &(report.at, report.is_dirty, report.value),
    );
    let (lower, higher) = fork.ends();
    let meals = (meals_of(rt, fork, lower), meals_of(rt, fork, higher));
    same(rt, &meals, &report.meals);
    has_log(rt, fork, report.log);
    has_periods(rt, fork, report.periods);
}

// A step of the last fork.
fn goes_on(rt: &impl Abort, alloc: Global, hands: &mut Vec<Held>, step: Step) {
    match step {
        Step::Open(edge, ends, due, value) => {
            comes(rt, hands, opened(rt, alloc, edge, ends, due, value));
        }
        Step::Give(to) => {
            let fork = give(rt, last(rt, hands), to);
            comes(rt, hands, fork);
        }
        Step::Keep => {
            let _ = last(rt, hands).keep();
        }
        Step::Reports(report) => {
            let held = last(rt, hands);
            reports(rt, held.fork(), report);
            comes(rt, hands, held.keep());
        }
        Step::Eat(_, _, _) => {}
    }
}

// Does these steps, and returns the forks.
fn after(rt: &impl Abort, alloc: Global, steps: &[Step]) -> Vec<Held> {
    let mut hands = Vec::with_capacity(alloc, 2).expect(rt, "memory");
    for step in steps {
        if let Step::Eat((site, k), act, values) = *step {
            hands = eat(rt, hands, site, k, act, values);
        } else {
            goes_on(rt, alloc, &mut hands, *step);
        }
    }
    hands
}

// Puts all forks down.
fn lay_down(rt: &impl Abort, mut hands: Vec<Held>) {
    for _ in 0..hands.len() {
        let _ = last(rt, &mut hands).keep();
    }
    holds(rt, hands.is_empty());
    hands.destroy_empty();
}

fn play(rt: &impl Abort, alloc: Global, steps: &[Step]) {
    lay_down(rt, after(rt, alloc, steps));
}

// Does these steps, and returns the last fork.
pub(crate) fn fork_after(rt: &impl Abort, alloc: Global, steps: &[Step]) -> Fork {
    let mut hands = after(rt, alloc, steps);
    let fork = last(rt, &mut hands).keep();
    lay_down(rt, hands);
    fork
}

// Two sites with one job each share a fork: the lower eats, sends it, and the higher eats.
#[test]
fn fork_goes_from_one_end_to_the_other(rt: HostRuntime) {
    let opened = Report {
        at: 2,
        is_dirty: true,
        meals: (0, 0),
        value: 0,
        log: &[],
        periods: &[(2, 1, 0)],
    };
    let eaten = Report {
        meals: (1, 0),
        log: &[Entry::Meal { site: 2, k: 1 }],
        periods: &[(2, 1, 1)],
        ..opened
    };
    let given = Report {
        at: 5,
        is_dirty: false,
        log: &[Entry::Meal { site: 2, k: 1 }, Entry::Move { to: 5 }],
        periods: &[(2, 1, 1), (5, 1, 0)],
        ..eaten
    };
    let whole = Report {
        is_dirty: true,
        meals: (1, 1),
        log: &[
            Entry::Meal { site: 2, k: 1 },
            Entry::Move { to: 5 },
            Entry::Meal { site: 5, k: 1 },
        ],
        periods: &[(2, 1, 1), (5, 1, 1)],
        ..given
    };
    let steps = [
        Step::Open(7, (2, 5), (1, 1), 0),
        Step::Reports(opened),
        Step::Eat((2, 1), Act::Add(0), &[0]),
        Step::Reports(eaten),
        Step::Give(5),
        Step::Reports(given),
        Step::Eat((5, 1), Act::Add(0), &[0]),
        Step::Reports(whole),
    ];
    play(&rt, rt.alloc(), &steps);
}

// The lower end sends the fork before it eats, so its first period is without a meal.
#[test]
fn fork_that_goes_first_has_an_empty_period(rt: HostRuntime) {
    let opened = Report {
        at: 0,
        is_dirty: true,
        meals: (0, 0),
        value: 0,
        log: &[],
        periods: &[(0, 1, 0)],
    };
    let whole = Report {
        at: 1,
        meals: (0, 1),
        log: &[Entry::Move { to: 1 }, Entry::Meal { site: 1, k: 1 }],
        periods: &[(0, 1, 0), (1, 1, 1)],
        ..opened
    };
    let steps = [
        Step::Open(0, (0, 1), (1, 1), 0),
        Step::Reports(opened),
        Step::Give(1),
        Step::Eat((1, 1), Act::Add(0), &[0]),
        Step::Reports(whole),
    ];
    play(&rt, rt.alloc(), &steps);
}

#[test]
fn meal_without_forks_has_its_number(rt: HostRuntime) {
    let steps = [Step::Eat((3, 4), Act::Add(0), &[])];
    play(&rt, rt.alloc(), &steps);
}

#[test]
fn token_names_its_edge(rt: HostRuntime) {
    same(&rt, &Token::open(511).edge(), &511);
}

// A fork carries a value: each meal does its act to the value of each fork at hand, and a Move does not change it.
#[test]
fn value_is_changed_by_each_meal(rt: HostRuntime) {
    let given = Report {
        at: 1,
        is_dirty: false,
        meals: (2, 0),
        value: 7,
        log: &[
            Entry::Meal { site: 0, k: 1 },
            Entry::Meal { site: 0, k: 2 },
            Entry::Move { to: 1 },
        ],
        periods: &[(0, 1, 2), (1, 1, 0)],
    };
    let steps = [
        Step::Open(0, (0, 1), (2, 1), 5),
        Step::Open(1, (0, 2), (2, 0), 1_000_000),
        Step::Eat((0, 1), Act::Add(10), &[15, 1_000_010]),
        Step::Eat((0, 2), Act::Set(7), &[7, 7]),
        Step::Keep,
        Step::Give(1),
        Step::Reports(given),
        Step::Eat((1, 1), Act::Add(3), &[10]),
    ];
    play(&rt, rt.alloc(), &steps);
}
