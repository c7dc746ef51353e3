// The two calls of a bell that report a ring if one is left, and never sleep.
use crate::asserts::same;
use dine_link::testing::finds_asleep;
use dine_link::{Bell, Lost, Ringer, ThreadLog};
use dine_rules::Clock;
use std::alloc::Global;
use std::process::Abort;
use std::sync::Wait;

#[derive(Clone, Copy)]
enum Call {
    TryWait,
    Check,
}

fn ask<R: Wait>(rt: &R, bell: &mut Bell, by: Call) -> Option<u32> {
    match by {
        Call::TryWait => bell.try_wait(rt),
        Call::Check => bell.check(rt, &Clock::start(), &mut ThreadLog::start()),
    }
}

// The ringers at these places ring, one after another.
fn ring_each<R: Abort + Wait>(rt: &R, ringers: &mut Vec<Ringer>, places: &[usize]) {
    for place in places {
        let ringer = ringers.get_mut(*place).expect(rt, "a ringer");
        same(rt, &ringer.ring(rt), &Ok(()));
    }
}

// Checks that each ring is reported once, by the call or by a wait. If no ring is left the call returns, though nobody
// rings meanwhile.
fn reports_each_ring_once<R: Abort + Wait>(rt: &R, alloc: Global, by: Call) {
    let (mut ringers, mut bell) = Bell::open(alloc, 2).expect(rt, "memory for the bell");
    same(rt, &ask(rt, &mut bell, by), &None);
    ring_each(rt, &mut ringers, &[1, 0]);
    for wanted in [Some(1), Some(0), None, None] {
        same(rt, &ask(rt, &mut bell, by), &wanted);
    }
    let ringer = ringers.get_mut(0).expect(rt, "a ringer");
    assert!(rt; !finds_asleep(rt, ringer));
    ring_each(rt, &mut ringers, &[1, 0]);
    same(rt, &ask(rt, &mut bell, by), &Some(1));
    same(rt, &bell.wait(rt), &Ok(0));
    ringers.clear();
    same(rt, &ask(rt, &mut bell, by), &None);
    same(rt, &bell.wait(rt), &Err(Lost));
}

// Checks a bell with this number of ringers: before the first ring, after each ringer rang, and when no ring is left.
fn reports_each_ringer<R: Abort + Wait>(rt: &R, alloc: Global, degree: u32, by: Call) {
    let (mut ringers, mut bell) = Bell::open(alloc, degree).expect(rt, "memory for the bell");
    same(rt, &ask(rt, &mut bell, by), &None);
    for place in 0..degree as usize {
        ring_each(rt, &mut ringers, &[place]);
    }
    for number in 0..degree {
        same(rt, &ask(rt, &mut bell, by), &Some(number));
    }
    same(rt, &ask(rt, &mut bell, by), &None);
}

// Bells with one, with three and with 64 ringers.
#[test]
fn bells_of_each_degree_report_each_ringer(rt: HostRuntime) {
    for degree in [1, 3, 64] {
        reports_each_ringer(&rt, rt.alloc(), degree, Call::TryWait);
        reports_each_ringer(&rt, rt.alloc(), degree, Call::Check);
    }
}

#[test]
fn try_wait_reports_each_ring_once_and_never_sleeps(rt: HostRuntime) {
    reports_each_ring_once(&rt, rt.alloc(), Call::TryWait);
}

#[test]
fn check_reports_each_ring_once_and_never_sleeps(rt: HostRuntime) {
    reports_each_ring_once(&rt, rt.alloc(), Call::Check);
}
