// A link between two threads that each pause now and then. The other end lives, so no step may be refused.
ghost use Rattle.std.specs.Prelude.{◌≡◌, []};

use dine_link::{ChannelLane, Lane, RingLane};
use dine_rules::Letter;
use dine_token::Token;
use std::alloc::Global;
use std::process::Abort;
use std::sync::Wait;
use std::test::Fail;
use std::thread;
use std::thread::{Parker, Threads};
use std::time::Duration;

// How many letters go over the link.
const LETTERS: u32 = 10000;

// After how many letters an end pauses. The two differ, so that now the one waits and now the other.
const PUTS_A_PAUSE: u32 = 90;

const TAKES_A_PAUSE: u32 = 110;

// Long enough for a waiting end to fall asleep.
fn pause<R: Wait>(rt: &R) {
    Parker::new().park_timeout(rt, Duration::from_millis(1));
}

// Puts the letters. Returns the end if all were put.
fn put_slowly<L: Lane, R: Wait>(rt: &R, mut tx: L::Tx) -> Option<L::Tx>
    requires { (L.seen_tx tx).letters ≡ [] }
{
    for edge in 0..LETTERS {
        if edge % PUTS_A_PAUSE == 0 {
            pause(rt);
        }
        L::put(rt, &mut tx, Letter::Request(Token::open(edge))).ok()?;
    }
    Some(tx)
}

// Takes the letters. Returns how many arrived in order before one did not, or before a take was refused.
fn take_slowly<L: Lane, R: Wait>(rt: &R, rx: &mut L::Rx) -> u32
    requires { (L.seen_rx rx.old).letters ≡ [] }
{
    for edge in 0..LETTERS {
        if edge % TAKES_A_PAUSE == 0 {
            pause(rt);
        }
        if L::is_closed(rx) {
            return edge;
        }
        let Ok(letter) = L::take(rt, rx) else {
            return edge;
        };
        let Letter::Request(token) = letter else {
            return edge;
        };
        if token.edge() != edge {
            return edge;
        }
    }
    LETTERS
}

// All letters go over a link of a lane, and no step reports that the other end is gone.
fn go_slowly<L, R>(rt: R, alloc: Global) -> Result<(), Fail>
where
    R: Threads + Wait + Abort + Copy + Send + 'static,
    L: Lane + 'static,
    L::Tx: 'static,
    L::Rx: 'static,
{
    let (tx, mut rx) = L::pair(alloc, 0, 0)?;
    let child = thread::spawn(
        &rt,
        move || -> Option<L::Tx>
            requires { (L.seen_tx tx).letters ≡ [] }
        { put_slowly::<L, R>(&rt, tx) },
    )?;
    assert_eq!(rt; take_slowly::<L, R>(&rt, &mut rx), LETTERS);
    assert!(rt; child.join(&rt).is_some());
    Ok(())
}

#[test]
fn no_step_is_refused_while_the_other_end_lives(rt: HostRuntime) -> Result<(), Fail> {
    go_slowly::<ChannelLane, HostRuntime>(rt, rt.alloc())?;
    go_slowly::<RingLane, HostRuntime>(rt, rt.alloc())?;
    Ok(())
}
