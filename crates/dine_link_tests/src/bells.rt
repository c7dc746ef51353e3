// Rings of one thread and of several.
use crate::asserts::same;
use dine_link::testing::finds_asleep;
use dine_link::{Bell, Lost, Ringer, ThreadLog, Wants};
use dine_rules::LetterKind;
use dine_set::BitSet64;
use std::alloc::Global;
use std::process::Abort;
use std::sync::atomic::{AtomicU64, Ordering};
use std::sync::{Arc, Wait};
use std::thread;
use std::thread::{JoinHandle, Parker, Threads};
use std::time::Duration;

// How often a test checks again, each time after a pause of a millisecond. Then it fails, so that it never hangs.
const LOOKS: u32 = 20000;

// The numbers that a bell returned.
#[derive(Drop)]
struct Heard {
    // How many numbers, or refusals.
    count: AtomicU64,
    // Each number as a digit that is one greater, in order, and 9 if the wait was refused.
    order: AtomicU64,
    // How often it returned each number.
    each: [AtomicU64; 4],
}

// A bell that is waited on by a thread of its own.
#[derive(Drop)]
struct Apart {
    child: JoinHandle<()>,
    heard: Arc<Heard, Global>,
}

// A bell of that degree, and its ringers.
fn opened(rt: &impl Abort, alloc: Global, degree: u32) -> (Vec<Ringer>, Bell) {
    Bell::open(alloc, degree).expect(rt, "memory for the bell")
}

// The ringer at that place rings, which is taken or not.
fn ring_is<R: Abort + Wait>(
    rt: &R,
    ringers: &mut Vec<Ringer>,
    place: usize,
    wanted: Result<(), Lost>,
) {
    let ringer = ringers.get_mut(place).expect(rt, "a ringer");
    same(rt, &ringer.ring(rt), &wanted);
}

// The ringers at those places ring, one after another.
fn ring_each<R: Abort + Wait>(rt: &R, ringers: &mut Vec<Ringer>, places: &[usize]) {
    for place in places {
        ring_is(rt, ringers, *place, Ok(()));
    }
}

// Checks what the bell returns, one wait after another.
fn returns<R: Abort + Wait>(rt: &R, bell: &mut Bell, wanted: &[Result<u32, Lost>]) {
    for one in wanted {
        same(rt, &bell.wait(rt), one);
    }
}

// Rings the ringers of a bell of this degree at these places, and drops them if `leave`. Checks what the bell returns.
fn rung<R: Abort + Wait>(
    rt: &R,
    alloc: Global,
    degree: u32,
    places: &[usize],
    leave: bool,
    wanted: &[Result<u32, Lost>],
) {
    let (mut ringers, mut bell) = opened(rt, alloc, degree);
    same(rt, &ringers.len(), &(degree as usize));
    ring_each(rt, &mut ringers, places);
    if leave {
        ringers.clear();
    }
    returns(rt, &mut bell, wanted);
}

#[test]
fn each_ringer_rings_its_own_number(rt: HostRuntime) {
    let wanted = [Ok(2), Ok(0), Ok(1), Ok(2)];
    rung(&rt, rt.alloc(), 3, &[2, 0, 1, 2], false, &wanted);
}

// One ring more would wait for ever.
#[test]
fn four_rings_of_each_ringer_wait_for_nobody(rt: HostRuntime) {
    let places = [1, 0, 1, 0, 1, 0, 1, 0];
    let wanted = [Ok(1), Ok(0), Ok(1), Ok(0), Ok(1), Ok(0), Ok(1), Ok(0)];
    rung(&rt, rt.alloc(), 2, &places, false, &wanted);
}

#[test]
fn without_ringers_nobody_rings(rt: HostRuntime) {
    rung(&rt, rt.alloc(), 0, &[], false, &[Err(Lost)]);
}

#[test]
fn rings_outlive_their_ringers(rt: HostRuntime) {
    let wanted = [Ok(1), Err(Lost), Err(Lost)];
    rung(&rt, rt.alloc(), 2, &[1], true, &wanted);
}

#[test]
fn without_the_bell_no_ring_is_taken(rt: HostRuntime) {
    let (mut ringers, bell) = opened(&rt, rt.alloc(), 1);
    drop(bell);
    ring_is(&rt, &mut ringers, 0, Err(Lost));
    ring_is(&rt, &mut ringers, 0, Err(Lost));
}

// Rings a number of times. Unless all rings are plain, every third is wanted, and the last is for Done.
fn ring_often<R: Wait>(rt: &R, ringer: &mut Ringer, times: u32, is_plain: bool) {
    for i in 1..=times {
        let _ = if is_plain {
            ringer.ring(rt)
        } else if i == times || i % 3 == 0 {
            ringer.ring_for(rt, LetterKind::Done, 0, &mut ThreadLog::start())
        } else {
            ringer.ring_for(rt, LetterKind::Request, 0, &mut ThreadLog::start())
        };
    }
}

// Each ringer rings so often in a thread of its own.
fn ring_apart<R>(
    rt: R,
    alloc: Global,
    ringers: Vec<Ringer>,
    times: u32,
    is_plain: bool,
) -> Vec<JoinHandle<()>>
where
    R: Abort + Threads + Wait + Copy + Send + 'static,
{
    let mut threads = Vec::new(alloc);
    for mut ringer in ringers {
        let started = thread::spawn(&rt, move || ring_often(&rt, &mut ringer, times, is_plain));
        let Ok(child) = started else {
            panic!(rt; "no thread");
        };
        assert!(rt; threads.push(child).is_ok());
    }
    threads
}

// Waits until the threads have ended.
fn join_all<R: Threads + Wait>(rt: &R, threads: Vec<JoinHandle<()>>) {
    for child in threads {
        child.join(rt);
    }
}

// Returns how often the bell returns each of three numbers, in a number of waits.
fn counted<R: Abort + Wait>(rt: &R, bell: &mut Bell, waits: u32) -> [u32; 3] {
    let mut counts = [0u32; 3];
    for _ in 0..waits {
        let number = bell.wait(rt).expect(rt, "a ring");
        assert!(rt; number < 3);
        counts[number as usize] = counts[number as usize].wrapping_add(1);
    }
    counts
}

#[test]
fn threads_ring_one_bell(rt: HostRuntime) {
    let (ringers, mut bell) = opened(&rt, rt.alloc(), 3);
    let threads = ring_apart(rt, rt.alloc(), ringers, 100, true);
    same(&rt, &counted(&rt, &mut bell, 300), &[100, 100, 100]);
    join_all(&rt, threads);
}

// Each of two bells returns the rings of its own ringers.
#[test]
fn ringers_ring_their_own_bell(rt: HostRuntime) {
    let (mut ringers, mut bell) = opened(&rt, rt.alloc(), 2);
    let (mut others, mut other) = opened(&rt, rt.alloc(), 2);
    ring_each(&rt, &mut ringers, &[0]);
    ring_each(&rt, &mut others, &[1]);
    drop(ringers);
    returns(&rt, &mut other, &[Ok(1)]);
    returns(&rt, &mut bell, &[Ok(0), Err(Lost)]);
}

// A Request of ringer 1, the second of two Forks, Done and Close.
fn few() -> Wants {
    let mut requests = BitSet64::empty();
    requests.insert(1);
    Wants::of(requests, 2)
}

// Nothing was heard yet.
fn nothing() -> Heard {
    Heard {
        count: AtomicU64::new(0),
        order: AtomicU64::new(0),
        each: [
            AtomicU64::new(0),
            AtomicU64::new(0),
            AtomicU64::new(0),
            AtomicU64::new(0),
        ],
    }
}

// Notes what the bell returned.
fn note(heard: &Heard, number: Result<u32, Lost>) {
    let digit = match number {
        Ok(number) => {
            if let Some(count) = heard.each.get(number as usize) {
                count.fetch_add(1, Ordering::SeqCst);
            }
            u64::from(number) + 1
        }
        Err(Lost) => 9,
    };
    let before = heard.order.load(Ordering::SeqCst);
    heard.order.store(
        before.wrapping_mul(10).wrapping_add(digit),
        Ordering::SeqCst,
    );
    heard.count.fetch_add(1, Ordering::SeqCst);
}

// What a bell waits for: few rings, or each.
#[derive(Clone, Copy, PartialEq, Eq)]
enum Waits {
    Few,
    Each,
}

// Waits on the bell for a number of rings.
fn wait_often<R: Wait>(
    rt: &R,
    mut bell: Bell,
    heard: Arc<Heard, Global>,
    waits: Waits,
    count: u32,
) {
    for _ in 0..count {
        let number = match waits {
            Waits::Few => bell.wait_for(rt, few(), &mut ThreadLog::start()),
            Waits::Each => bell.wait(rt),
        };
        note(&heard, number);
    }
}

// The same in a thread of its own.
fn set_apart<R>(rt: R, alloc: Global, bell: Bell, waits: Waits, count: u32) -> Apart
where
    R: Abort + Threads + Wait + Copy + Send + 'static,
{
    let heard = Arc::new(alloc, nothing()).expect(&rt, "memory");
    let theirs = Arc::try_clone(&heard).expect(&rt, "a second hand");
    let Ok(child) = thread::spawn(&rt, move || wait_often(&rt, bell, theirs, waits, count)) else {
        panic!(rt; "no thread");
    };
    Apart { child, heard }
}

fn pause<R: Wait>(rt: &R) {
    Parker::new().park_timeout(rt, Duration::from_millis(1));
}

impl Apart {
    // Returns whether the bell has returned this number of rings in time.
    fn has_returned<R: Wait>(&self, rt: &R, count: u64) -> bool {
        for _ in 0..LOOKS {
            if self.heard.count.load(Ordering::SeqCst) == count {
                return true;
            }
            pause(rt);
        }
        false
    }

    // Returns all that the bell returned, a number of rings in order.
    fn end<R: Threads + Wait>(self, rt: &R, count: u64) -> Option<u64> {
        if !self.has_returned(rt, count) {
            return None;
        }
        self.child.join(rt);
        Some(self.heard.order.load(Ordering::SeqCst))
    }
}

// Whether the ringers' bell sleeps now.
fn sleeps<R: Wait>(rt: &R, ringers: &[Ringer]) -> bool {
    match ringers.first() {
        Some(ringer) => finds_asleep(rt, ringer),
        None => false,
    }
}

// Returns whether it sleeps in time.
fn falls_asleep<R: Wait>(rt: &R, ringers: &[Ringer]) -> bool {
    for _ in 0..LOOKS {
        if sleeps(rt, ringers) {
            return true;
        }
        pause(rt);
    }
    false
}

// The ringer at that place rings for a letter of that kind.
fn ring_for<R: Abort + Wait>(rt: &R, ringers: &mut Vec<Ringer>, place: usize, kind: LetterKind) {
    let ringer = ringers.get_mut(place).expect(rt, "a ringer");
    let mut log = ThreadLog::start();
    same(rt, &ringer.ring_for(rt, kind, 0, &mut log), &Ok(()));
}

// What ringers do, and what is checked, while a thread of its own waits on their bell.
#[derive(Clone, Copy)]
enum Step {
    // The ringer at that place rings, or rings for a letter of that kind.
    Ring(usize),
    RingFor(usize, LetterKind),
    // The bell sleeps in time, or now.
    FallsAsleep,
    Sleeps,
    // It has returned this number of rings in time.
    Returned(u64),
    // All ringers are gone.
    Leave,
}

fn goes_on<R: Abort + Wait>(rt: &R, apart: &Apart, ringers: &mut Vec<Ringer>, step: Step) {
    match step {
        Step::Ring(place) => ring_is(rt, ringers, place, Ok(())),
        Step::RingFor(place, kind) => ring_for(rt, ringers, place, kind),
        Step::FallsAsleep => assert!(rt; falls_asleep(rt, ringers.as_slice())),
        Step::Sleeps => assert!(rt; sleeps(rt, ringers.as_slice())),
        Step::Returned(count) => assert!(rt; apart.has_returned(rt, count)),
        Step::Leave => ringers.clear(),
    }
}

// Waits on a bell of this degree for a number of rings, while its ringers do the steps in order. It wants few letters.
fn hears<R>(rt: R, alloc: Global, degree: u32, steps: &[Step], count: u32, order: u64)
where
    R: Abort + Threads + Wait + Copy + Send + 'static,
{
    hears_by(rt, alloc, (degree, Waits::Few), steps, count, order)
}

// The same of a bell that waits for this.
fn hears_by<R>(rt: R, alloc: Global, bell: (u32, Waits), steps: &[Step], count: u32, order: u64)
where
    R: Abort + Threads + Wait + Copy + Send + 'static,
{
    let (degree, waits) = bell;
    let (mut ringers, bell) = opened(&rt, alloc, degree);
    let apart = set_apart(rt, alloc, bell, waits, count);
    for step in steps {
        goes_on(&rt, &apart, &mut ringers, *step);
    }
    same(&rt, &apart.end(&rt, u64::from(count)), &Some(order));
}

// A plain wait sleeps over no letter, of whatever kind.
#[test]
fn a_plain_wait_is_woken_by_each_ring(rt: HostRuntime) {
    let steps = [
        Step::FallsAsleep,
        Step::RingFor(0, LetterKind::Request),
        Step::Returned(1),
        Step::FallsAsleep,
        Step::RingFor(1, LetterKind::Fork),
        Step::Returned(2),
        Step::FallsAsleep,
        Step::RingFor(0, LetterKind::Done),
        Step::Returned(3),
        Step::FallsAsleep,
        Step::RingFor(1, LetterKind::Close),
        Step::Returned(4),
        Step::FallsAsleep,
        Step::Ring(0),
    ];
    hears_by(rt, rt.alloc(), (2, Waits::Each), &steps, 5, 12121);
}

#[test]
fn an_unwanted_ring_stays_until_a_wanted_one(rt: HostRuntime) {
    let steps = [
        Step::FallsAsleep,
        Step::RingFor(0, LetterKind::Request),
        Step::Sleeps,
        Step::RingFor(1, LetterKind::Request),
    ];
    hears(rt, rt.alloc(), 2, &steps, 2, 12);
}

#[test]
fn the_last_fork_wakes(rt: HostRuntime) {
    let steps = [
        Step::FallsAsleep,
        Step::RingFor(1, LetterKind::Fork),
        Step::Sleeps,
        Step::RingFor(0, LetterKind::Fork),
    ];
    hears(rt, rt.alloc(), 2, &steps, 2, 21);
}

#[test]
fn done_close_and_plain_rings_wake(rt: HostRuntime) {
    let steps = [
        Step::FallsAsleep,
        Step::RingFor(0, LetterKind::Done),
        Step::Returned(1),
        Step::FallsAsleep,
        Step::RingFor(1, LetterKind::Close),
        Step::Returned(2),
        Step::FallsAsleep,
        Step::Ring(0),
    ];
    hears(rt, rt.alloc(), 2, &steps, 3, 121);
}

#[test]
fn rings_are_returned_once_the_ringers_are_gone(rt: HostRuntime) {
    let steps = [
        Step::FallsAsleep,
        Step::RingFor(0, LetterKind::Request),
        Step::Sleeps,
        Step::Leave,
    ];
    hears(rt, rt.alloc(), 2, &steps, 3, 199);
}

// Three unwanted rings are in the bell, and the fourth takes the last place.
#[test]
fn a_bell_wakes_before_it_is_full(rt: HostRuntime) {
    let unwanted = Step::RingFor(0, LetterKind::Request);
    let steps = [
        Step::FallsAsleep,
        unwanted,
        unwanted,
        unwanted,
        Step::Sleeps,
        unwanted,
    ];
    hears(rt, rt.alloc(), 1, &steps, 4, 1111);
}

// They ring faster than the bell is read, so that it is full now and then.
#[test]
fn four_threads_ring_often(rt: HostRuntime) {
    let (ringers, bell) = opened(&rt, rt.alloc(), 4);
    let apart = set_apart(rt, rt.alloc(), bell, Waits::Few, 40000);
    let threads = ring_apart(rt, rt.alloc(), ringers, 10000, false);
    assert!(rt; apart.has_returned(&rt, 40000));
    for count in &apart.heard.each {
        same(&rt, &count.load(Ordering::SeqCst), &10000);
    }
    apart.child.join(&rt);
    join_all(&rt, threads);
}
