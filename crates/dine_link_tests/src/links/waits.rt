// A thread that puts into a full link waits. A test checks a limited number of times what another thread does, so that
// it fails and does not hang.
ghost use Rattle.std.specs.Prelude.{◌≡◌, []};

use super::steps::puts;
use crate::asserts::same;
use dine_link::{ChannelLane, Lane, RingLane};
use dine_rules::Letter;
use dine_token::Token;
use std::alloc::Global;
use std::process::Abort;
use std::sync::atomic::{AtomicU64, Ordering};
use std::sync::{Arc, Wait};
use std::test::Fail;
use std::thread;
use std::thread::{Parker, Threads};
use std::time::Duration;

// How often a test checks again, each time after a pause of a millisecond.
const LOOKS: u32 = 20000;

// Puts five letters, and counts each that was put.
fn put_five<L: Lane, R: Wait + Abort>(rt: &R, mut tx: L::Tx, count: &AtomicU64) -> L::Tx
    requires { (L.seen_tx tx).letters ≡ [] }
{
    for edge in 0..5 {
        puts::<L, R>(rt, &mut tx, Letter::Request(Token::open(edge)));
        count.fetch_add(1, Ordering::SeqCst);
    }
    tx
}

fn pause<R: Wait>(rt: &R) {
    Parker::new().park_timeout(rt, Duration::from_millis(1));
}

// Checks that a number is counted in time.
fn comes_to<R: Wait + Abort>(rt: &R, count: &AtomicU64, wanted: u64) {
    for _ in 0..LOOKS {
        if count.load(Ordering::SeqCst) >= wanted {
            break;
        }
        pause(rt);
    }
    same(rt, &count.load(Ordering::SeqCst), &wanted);
}

// Over a link of a lane the fifth letter waits until one is taken.
fn fifth_waits<L, R>(rt: R, alloc: Global) -> Result<(), Fail>
where
    R: Threads + Wait + Abort + Copy + Send + 'static,
    L: Lane + 'static,
    L::Tx: 'static,
    L::Rx: 'static,
{
    let (tx, mut rx) = L::pair(alloc, 0, 0)?;
    let count = Arc::new(alloc, AtomicU64::new(0))?;
    let theirs = Arc::try_clone(&count)?;
    let child = thread::spawn(
        &rt,
        move || -> L::Tx
            requires { (L.seen_tx tx).letters ≡ [] }
        { put_five::<L, R>(&rt, tx, &theirs) },
    )?;
    comes_to(&rt, &count, 4);
    for _ in 0..20 {
        pause(&rt);
    }
    same(&rt, &count.load(Ordering::SeqCst), &4);
    assert!(rt; L::take(&rt, &mut rx).is_ok());
    comes_to(&rt, &count, 5);
    child.join(&rt);
    Ok(())
}

#[test]
fn fifth_letter_waits_until_one_is_taken(rt: HostRuntime) -> Result<(), Fail> {
    fifth_waits::<ChannelLane, HostRuntime>(rt, rt.alloc())?;
    fifth_waits::<RingLane, HostRuntime>(rt, rt.alloc())?;
    Ok(())
}
