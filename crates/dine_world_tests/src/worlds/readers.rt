//! Where forks and tokens are, the letters in the links, and who put Done, as a world reports it.

use super::{opened, pair, spend};
use crate::asserts::same;
use dine_rules::LetterKind;
use dine_world::{DoneAndClose, Whereabouts, World};
use std::process::Abort;

// There is no such site or place.
fn reports_nothing(rt: &impl Abort, world: &World, site: u32, place: u32) {
    same(rt, &world.letters_to(site, place), &None);
    same(rt, &world.letter_to(site, place, 0), &None);
    same(rt, &world.said(site, place), &None);
}

// The letters in the link to the site at the place are these.
fn has_letters(rt: &impl Abort, world: &World, site: u32, place: u32, kinds: &[LetterKind]) {
    let count = world.letters_to(site, place).expect(rt, "a place");
    same(rt, &(count as usize), &kinds.len());
    for n in 0..=count {
        let kind = kinds.get(n as usize).copied();
        same(rt, &world.letter_to(site, place, n), &kind);
    }
}

// Checks what each end of the pair has put, if both have put the same.
fn have_said(rt: &impl Abort, world: &World, said: DoneAndClose) {
    let found = (world.said(0, 0), world.said(1, 0));
    same(rt, &found, &(Some(said), Some(said)));
}

fn all_or_none(is_said: bool) -> DoneAndClose {
    DoneAndClose {
        done_put: is_said,
        done_taken: is_said,
        close_put: is_said,
        close_taken: is_said,
    }
}

// A moment of the pair: the choices that lead to it from the moment before, where the fork and the token are, whether
// the fork is dirty, and the letters to the lower end and to the higher end.
struct Moment<'a> {
    choices: &'a [u32],
    fork: Whereabouts,
    token: Whereabouts,
    is_dirty: bool,
    to_lower: &'a [LetterKind],
    to_higher: &'a [LetterKind],
}

fn is_at(rt: &impl Abort, world: &World, moment: &Moment) {
    let found = (world.where_is_fork(0), world.where_is_token(0));
    same(rt, &found, &(Some(moment.fork), Some(moment.token)));
    same(rt, &world.is_fork_dirty(0), &Some(moment.is_dirty));
    has_letters(rt, world, 0, 0, moment.to_lower);
    has_letters(rt, world, 1, 0, moment.to_higher);
}

// As it is at the start, and after the last event.
const AT_START: Moment = Moment {
    choices: &[],
    fork: Whereabouts::At(0),
    token: Whereabouts::At(1),
    is_dirty: true,
    to_lower: &[],
    to_higher: &[],
};

const MOMENTS: [Moment; 4] = [
    AT_START,
    // The higher end grew hungry and asked.
    Moment {
        choices: &[1, 1],
        fork: Whereabouts::At(0),
        token: Whereabouts::To(0),
        is_dirty: true,
        to_lower: &[LetterKind::Request],
        to_higher: &[],
    },
    // The lower end took the request, gave the fork, grew hungry and asked for it again.
    Moment {
        choices: &[0, 0, 0, 0],
        fork: Whereabouts::To(1),
        token: Whereabouts::To(1),
        is_dirty: false,
        to_lower: &[],
        to_higher: &[LetterKind::Fork, LetterKind::Request],
    },
    // The higher end took the fork.
    Moment {
        choices: &[0],
        fork: Whereabouts::At(1),
        token: Whereabouts::To(1),
        is_dirty: false,
        to_lower: &[],
        to_higher: &[LetterKind::Request],
    },
];

// Checks that there is only one edge, and only one place at each of the two sites.
fn has_one_edge(rt: &impl Abort, world: &World) {
    let found = (world.where_is_fork(1), world.where_is_token(1));
    same(rt, &found, &(None, None));
    same(rt, &world.is_fork_dirty(1), &None);
    reports_nothing(rt, world, 0, 1);
    reports_nothing(rt, world, 2, 0);
}

#[test]
fn readers_follow_a_pair(rt: HostRuntime) {
    let plan = pair(&rt, rt.alloc());
    let mut world = opened(&rt, rt.alloc(), &plan);
    have_said(&rt, &world, all_or_none(false));
    for moment in &MOMENTS {
        let _ = world.replay(moment.choices);
        is_at(&rt, &world, moment);
    }
    let _ = world.finish();
    is_at(&rt, &world, &AT_START);
    have_said(&rt, &world, all_or_none(true));
    has_one_edge(&rt, &world);
    let _forks = spend(&rt, &plan, world);
}
