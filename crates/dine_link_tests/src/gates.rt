// Threads at a gate.
use crate::asserts::same;
use dine_link::{Gate, Signal};
use std::alloc::Global;
use std::process::Abort;
use std::sync::atomic::{AtomicU64, Ordering};
use std::sync::{Arc, Wait};
use std::thread;
use std::thread::{JoinHandle, Parker, Threads};
use std::time::Duration;

// How often a test checks again, each time after a pause of a millisecond. Then it fails, so that it never hangs.
const LOOKS: u32 = 20000;

// A gate that has its signal lets threads pass or not, again and again.
fn lets_pass<R: Wait + Abort>(rt: &R, signal: Signal, is_open: bool) {
    let gate = Gate::new();
    gate.send(rt, signal);
    for _ in 0..2 {
        same(rt, &gate.pass(rt), &is_open);
    }
}

#[test]
fn open_gate_lets_pass(rt: HostRuntime) {
    lets_pass(&rt, Signal::Open, true)
}

#[test]
fn gate_that_is_called_off_lets_nobody_pass(rt: HostRuntime) {
    lets_pass(&rt, Signal::CalledOff, false)
}

// A gate, and the numbers of threads that arrived at it and left it.
#[derive(Drop)]
struct Threshold {
    gate: Gate,
    came: AtomicU64,
    left: AtomicU64,
}

// Counts itself before the gate, and after it. Returns what the gate returned.
fn go_through<R: Wait>(rt: &R, at: &Threshold) -> bool {
    at.came.fetch_add(1, Ordering::SeqCst);
    let is_open = at.gate.pass(rt);
    at.left.fetch_add(1, Ordering::SeqCst);
    is_open
}

fn pause<R: Wait>(rt: &R, millis: u64) {
    Parker::new().park_timeout(rt, Duration::from_millis(millis));
}

// Checks that a number of threads is counted in time.
fn are_counted<R: Wait + Abort>(rt: &R, count: &AtomicU64, threads: u64) {
    for _ in 0..LOOKS {
        if count.load(Ordering::SeqCst) == threads {
            break;
        }
        pause(rt, 1);
    }
    same(rt, &count.load(Ordering::SeqCst), &threads);
}

// Three threads that go through the gate.
fn three_go<R>(rt: R, alloc: Global, at: &Arc<Threshold, Global>) -> Vec<JoinHandle<bool>>
where
    R: Threads + Wait + Abort + Copy + Send + 'static,
{
    let mut threads = Vec::new(alloc);
    for _ in 0..3 {
        let theirs = Arc::try_clone(at).expect(&rt, "a second hand");
        let Ok(child) = thread::spawn(&rt, move || go_through(&rt, &theirs)) else {
            panic!(rt; "no thread");
        };
        assert!(rt; threads.push(child).is_ok());
    }
    threads
}

// Three threads wait at a shut gate until it gets its signal, and each gets the same result.
fn three_get<R>(rt: R, alloc: Global, signal: Signal, is_open: bool)
where
    R: Threads + Wait + Abort + Copy + Send + 'static,
{
    let (came, left) = (AtomicU64::new(0), AtomicU64::new(0));
    let gate = Gate::new();
    let at = Arc::new(alloc, Threshold { gate, came, left }).expect(&rt, "memory");
    let threads = three_go(rt, alloc, &at);
    are_counted(&rt, &at.came, 3);
    // In this time they could have left the gate.
    pause(&rt, 20);
    same(&rt, &at.left.load(Ordering::SeqCst), &0);
    at.gate.send(&rt, signal);
    are_counted(&rt, &at.left, 3);
    for child in threads {
        same(&rt, &child.join(&rt), &is_open);
    }
}

#[test]
fn threads_wait_until_the_gate_is_opened(rt: HostRuntime) {
    three_get(rt, rt.alloc(), Signal::Open, true)
}

#[test]
fn threads_wait_until_the_run_is_called_off(rt: HostRuntime) {
    three_get(rt, rt.alloc(), Signal::CalledOff, false)
}
