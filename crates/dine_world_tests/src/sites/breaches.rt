// What a core refuses, and a letter just within each rule that it takes.
use super::script::{A, B, C, Step, leave, play, plays, seat, seated};
use super::{JOB, ROW, TWO_JOBS, are_left, core_of, pair, plan_of};
use crate::asserts::same;
use crate::plans::read;
use dine_test_plans::{ONE_SIDED_PAIR, PAIR};
use dine_world::{Breach, LetterKind, Parts};
use std::alloc::Global;
use std::process::Abort;

// The higher site eats with the fork of the lower, which asks for it and gets it back.
const LEND: [Step; 12] = [
    Step::Hungry(B),
    Step::Ask(B, 0),
    Step::Take(A, 0),
    Step::Give(A, 0),
    Step::Take(B, 0),
    Step::Eat(B),
    Step::Hungry(A),
    Step::Ask(A, 0),
    Step::Take(B, 0),
    Step::Give(B, 0),
    Step::Take(A, 0),
    Step::Eat(A),
];

// What these sites leave after these steps, in the plan of a text.
fn text_plays(
    rt: &impl Abort,
    alloc: Global,
    text: &str,
    sites: &[u32],
    steps: &[Step],
) -> Vec<Parts> {
    let plan = read(rt, alloc, text);
    plays(rt, alloc, &plan, sites, steps)
}

#[test]
fn second_request_is_refused(rt: HostRuntime) {
    let steps = [
        Step::Request(0),
        Step::Take(A, 0),
        Step::Request(0),
        Step::Refuse(A, Breach::RequestOutOfTurn),
        Step::Give(A, 0),
        Step::Lies(LetterKind::Fork),
        Step::Request(0),
        Step::Refuse(A, Breach::RequestOutOfTurn),
        Step::Done,
        Step::Take(A, 0),
    ];
    text_plays(&rt, rt.alloc(), PAIR, &[0], &steps);
}

#[test]
fn request_of_another_edge_is_refused(rt: HostRuntime) {
    let steps = [
        Step::Request(7),
        Step::Refuse(A, Breach::RequestOutOfTurn),
        Step::Request(0),
        Step::Take(A, 0),
    ];
    text_plays(&rt, rt.alloc(), PAIR, &[0], &steps);
}

#[test]
fn request_where_the_fork_is_away_is_refused(rt: HostRuntime) {
    let steps = [
        Step::Request(0),
        Step::Refuse(B, Breach::RequestOutOfTurn),
        Step::Hungry(B),
        Step::Ask(B, 0),
        Step::Request(0),
        Step::Refuse(B, Breach::RequestOutOfTurn),
        Step::Request(0),
        Step::Take(A, 0),
        Step::Give(A, 0),
        Step::Take(B, 0),
    ];
    text_plays(&rt, rt.alloc(), PAIR, &[0, 1], &steps);
}

#[test]
fn request_past_the_last_meal_is_refused(rt: HostRuntime) {
    let plan = plan_of(&rt, rt.alloc(), TWO_JOBS, TWO_JOBS);
    let mut cores = seated(&rt, rt.alloc(), &plan, &[0, 1]);
    play(&rt, rt.alloc(), &mut cores, &LEND);
    play(&rt, rt.alloc(), &mut cores, &LEND[..11]);
    let steps = [
        Step::Request(0),
        Step::Refuse(A, Breach::RequestOutOfTurn),
        Step::SayDone(B, 0),
        Step::Take(A, 0),
        Step::Request(0),
        Step::Refuse(A, Breach::RequestOutOfTurn),
    ];
    play(&rt, rt.alloc(), &mut cores, &steps);
    leave(&rt, rt.alloc(), cores);
}

#[test]
fn lower_site_refuses_a_fork_and_an_early_done(rt: HostRuntime) {
    let steps = [
        Step::Fork {
            edge: 0,
            higher: 1,
            due: (1, 1),
        },
        Step::Refuse(A, Breach::ForkOutOfTurn),
        Step::Done,
        Step::Refuse(A, Breach::DoneOutOfTurn),
        Step::Request(0),
        Step::Take(A, 0),
    ];
    text_plays(&rt, rt.alloc(), PAIR, &[0], &steps);
}

#[test]
fn fork_that_was_not_asked_for_is_refused(rt: HostRuntime) {
    let steps = [
        Step::Request(0),
        Step::Take(A, 0),
        Step::Give(A, 0),
        Step::Refuse(B, Breach::ForkOutOfTurn),
        Step::Hungry(B),
        Step::Refuse(B, Breach::ForkOutOfTurn),
        Step::Ask(B, 0),
        Step::Lose,
        Step::Take(B, 0),
    ];
    text_plays(&rt, rt.alloc(), PAIR, &[0, 1], &steps);
}

// Another edge, other ends, and a fork that was never sent.
#[test]
fn fork_of_another_edge_is_refused(rt: HostRuntime) {
    let steps = [
        Step::Hungry(B),
        Step::Ask(B, 0),
        Step::Fork {
            edge: 7,
            higher: 1,
            due: (1, 1),
        },
        Step::Refuse(B, Breach::StrangeFork),
        Step::Fork {
            edge: 0,
            higher: 2,
            due: (1, 1),
        },
        Step::Refuse(B, Breach::StrangeFork),
        Step::Fork {
            edge: 0,
            higher: 1,
            due: (1, 1),
        },
        Step::Refuse(B, Breach::StrangeFork),
        Step::Request(0),
        Step::Take(A, 0),
        Step::Give(A, 0),
        Step::Take(B, 0),
    ];
    text_plays(&rt, rt.alloc(), PAIR, &[0, 1], &steps);
}

// The third site of the script is the lower one of another plan.
#[test]
fn fork_with_another_due_number_is_refused(rt: HostRuntime) {
    let plan = pair(&rt, rt.alloc());
    let longer = plan_of(&rt, rt.alloc(), TWO_JOBS, JOB);
    let mut cores = seated(&rt, rt.alloc(), &plan, &[0, 1]);
    seat(&rt, &mut cores, core_of(&rt, rt.alloc(), &longer, 0));
    let steps = [
        Step::Hungry(B),
        Step::Ask(B, 0),
        Step::Request(0),
        Step::Take(C, 0),
        Step::Give(C, 0),
        Step::Refuse(B, Breach::StrangeFork),
        Step::Request(0),
        Step::Take(A, 0),
        Step::Give(A, 0),
        Step::Take(B, 0),
    ];
    play(&rt, rt.alloc(), &mut cores, &steps);
    leave(&rt, rt.alloc(), cores);
}

// A site that ate nothing gets a fork with a meal of its own, which the site that ate it takes.
#[test]
fn fork_with_another_number_of_meals_is_refused(rt: HostRuntime) {
    let plan = plan_of(&rt, rt.alloc(), TWO_JOBS, TWO_JOBS);
    let mut cores = seated(&rt, rt.alloc(), &plan, &[0, 1, 1]);
    play(&rt, rt.alloc(), &mut cores, &LEND);
    let steps = [
        Step::Hungry(C),
        Step::Ask(C, 0),
        Step::Hungry(B),
        Step::Ask(B, 0),
        Step::Take(A, 0),
        Step::Give(A, 0),
        Step::Refuse(C, Breach::StrangeFork),
        Step::Take(B, 0),
    ];
    play(&rt, rt.alloc(), &mut cores, &steps);
    leave(&rt, rt.alloc(), cores);
}

// The fork was sent to the lower site, which takes it, and the higher refuses it.
#[test]
fn fork_sent_to_the_other_end_is_refused(rt: HostRuntime) {
    let plan = pair(&rt, rt.alloc());
    let mut cores = seated(&rt, rt.alloc(), &plan, &[0, 1, 1]);
    let asks = [Step::Hungry(C), Step::Ask(C, 0)];
    play(&rt, rt.alloc(), &mut cores, &asks);
    play(&rt, rt.alloc(), &mut cores, &LEND[..9]);
    let steps = [
        Step::Give(B, 0),
        Step::Refuse(C, Breach::StrangeFork),
        Step::Take(A, 0),
    ];
    play(&rt, rt.alloc(), &mut cores, &steps);
    leave(&rt, rt.alloc(), cores);
}

// After Done the fork has to have all meals of its sender. The third site is the lower one, which sends it too soon.
#[test]
fn fork_after_done_with_a_meal_missing_is_refused(rt: HostRuntime) {
    let steps = [
        Step::Hungry(B),
        Step::Ask(B, 0),
        Step::Done,
        Step::Take(B, 0),
        Step::Request(0),
        Step::Take(C, 0),
        Step::Give(C, 0),
        Step::Refuse(B, Breach::StrangeFork),
        Step::Hungry(A),
        Step::Eat(A),
        Step::Request(0),
        Step::Take(A, 0),
        Step::Give(A, 0),
        Step::Take(B, 0),
    ];
    text_plays(&rt, rt.alloc(), PAIR, &[0, 1, 0], &steps);
}

#[test]
fn done_before_the_last_meal_is_refused(rt: HostRuntime) {
    let plan = plan_of(&rt, rt.alloc(), JOB, TWO_JOBS);
    let mut cores = seated(&rt, rt.alloc(), &plan, &[0, 1]);
    play(&rt, rt.alloc(), &mut cores, &LEND[..11]);
    let steps = [
        Step::Done,
        Step::Refuse(A, Breach::DoneOutOfTurn),
        Step::Hungry(B),
        Step::Ask(B, 0),
        Step::Take(A, 0),
    ];
    play(&rt, rt.alloc(), &mut cores, &steps);
    leave(&rt, rt.alloc(), cores);
}

// No meal is due to the higher site, so its Done arrives at once, and only once.
#[test]
fn second_done_is_refused(rt: HostRuntime) {
    let steps = [
        Step::Done,
        Step::Take(A, 0),
        Step::Done,
        Step::Refuse(A, Breach::DoneOutOfTurn),
        Step::SayDone(A, 0),
        Step::CloseLetter,
        Step::Take(A, 0),
    ];
    let plan = plan_of(&rt, rt.alloc(), "", "");
    plays(&rt, rt.alloc(), &plan, &[0], &steps);
}

#[test]
fn close_before_done_was_put_is_early(rt: HostRuntime) {
    let steps = [
        Step::Done,
        Step::Take(B, 0),
        Step::CloseLetter,
        Step::Refuse(B, Breach::ClosedEarly),
        Step::Hungry(A),
        Step::Eat(A),
        Step::Hungry(B),
        Step::Ask(B, 0),
        Step::Take(A, 0),
        Step::Give(A, 0),
        Step::Take(B, 0),
        Step::Eat(B),
        Step::Refuse(B, Breach::ClosedEarly),
        Step::SayDone(B, 0),
        Step::Lose,
        Step::Take(B, 0),
    ];
    text_plays(&rt, rt.alloc(), PAIR, &[0, 1], &steps);
}

// The second step is that of the higher site, whose number in the script is 0.
#[test]
fn close_before_done_was_taken_is_early(rt: HostRuntime) {
    let steps = [
        Step::CloseLetter,
        Step::Refuse(A, Breach::ClosedEarly),
        Step::SayDone(A, 0),
        Step::CloseLetter,
        Step::Refuse(A, Breach::ClosedEarly),
        Step::Done,
        Step::Take(A, 0),
        Step::Take(A, 0),
    ];
    let plan = plan_of(&rt, rt.alloc(), JOB, "");
    plays(&rt, rt.alloc(), &plan, &[1], &steps);
}

// The one site of the script is the higher one.
#[test]
fn nothing_comes_after_close(rt: HostRuntime) {
    let steps = [
        Step::SayDone(A, 0),
        Step::Lies(LetterKind::Done),
        Step::Done,
        Step::Take(A, 0),
        Step::Close(A),
        Step::Lies(LetterKind::Close),
        Step::CloseLetter,
        Step::Take(A, 0),
        Step::CloseLetter,
        Step::Refuse(A, Breach::AfterClose),
        Step::Done,
        Step::Refuse(A, Breach::AfterClose),
        Step::Request(0),
        Step::Refuse(A, Breach::AfterClose),
        Step::Fork {
            edge: 0,
            higher: 1,
            due: (3, 0),
        },
        Step::Refuse(A, Breach::AfterClose),
        Step::Finished(A),
        Step::Closed(A, true),
    ];
    let left = text_plays(&rt, rt.alloc(), ONE_SIDED_PAIR, &[1], &steps);
    are_left(&rt, &left, A, 0, 1);
}

// Close at one place leaves the other as it was.
#[test]
fn letters_come_at_a_place_that_is_not_closed(rt: HostRuntime) {
    let plan = read(&rt, rt.alloc(), ROW);
    let steps = [
        Step::SayDone(A, 0),
        Step::Done,
        Step::Take(A, 0),
        Step::CloseLetter,
        Step::Take(A, 0),
        Step::CloseLetter,
        Step::Refuse(A, Breach::AfterClose),
        Step::Request(1),
        Step::Take(A, 1),
        Step::Closed(A, false),
    ];
    let left = plays(&rt, rt.alloc(), &plan, &[1], &steps);
    are_left(&rt, &left, A, 1, 2);
}

#[test]
fn breaches_have_the_numbers_one_to_six(rt: HostRuntime) {
    let breaches = [
        (Breach::AfterClose, 1),
        (Breach::RequestOutOfTurn, 2),
        (Breach::ForkOutOfTurn, 3),
        (Breach::StrangeFork, 4),
        (Breach::DoneOutOfTurn, 5),
        (Breach::ClosedEarly, 6),
    ];
    for (breach, number) in breaches {
        same(&rt, &breach.number(), &number);
    }
}
