//! How a step that cannot be done yet waits before it is tried again.
//!
//! The other end is mostly just about to act, and to wake a sleeping thread costs microseconds. So a step first gives
//! the processor up a few times. Over a ring it then sleeps for a short time at a time, since nobody wakes it. Over a
//! channel it then sleeps until it is woken.
ghost use Rattle.std.specs.Prelude.{◌≡◌, MatchOption, MatchResult};
ghost use Rattle.crossbeam_channel.specs.Claims.{view, IsSeatAt};
ghost use Rattle.crossbeam_channel.specs.Ends.{sends_on, receives_on, ruled_capacity};
ghost use Rattle.crossbeam_channel.specs.Fifo.{Pushes, Pops, Learns};

use crossbeam_channel::protocol::{Lesson, Outcome, Protocol};
use crossbeam_channel::{Pass, RuledReceiver, RuledSender, TrySendError};
use std::sync::Wait;
use std::thread;
use std::thread::Parker;
use std::time::Duration;

// The number of pauses of one wait at a ring that only give the processor up.
const YIELDS: u32 = 64;

// The time that each later pause sleeps, in microseconds.
const NAP: u64 = 50;

// The pauses of one wait.
#[derive(Drop)]
pub struct Backoff {
    yields_left: u32,
}

impl Backoff {
    // Returns the pauses of a wait that begins.
    pub fn new() -> Backoff {
        Backoff {
            yields_left: YIELDS,
        }
    }

    // Makes the next pause.
    pub fn pause<R: Wait>(&mut self, rt: &R) {
        if self.yields_left == 0 {
            Parker::new().park_timeout(rt, Duration::from_micros(NAP));
            return;
        }
        self.yields_left -= 1;
        thread::yield_now();
    }
}

// The number of times that a wait at a channel tries before it sleeps.
const TRIES: u32 = 10;

// Sends the message, or hands it back if the other end is gone.
pub fn send<T: Drop, V, P: Protocol<T, V>, M: Outcome<T, V> + Lesson<T, V>, R: Wait>(
    rt: &R,
    sender: &RuledSender<T, V, P>,
    pass: &mut Pass<T, V>,
    message: T,
) -> Result<(), T>
    requires channel { IsSeatAt (sends_on sender.now) pass.old }
    requires rule { Pushes P.holds (ruled_capacity (sends_on sender.now)) pass.old.id (view pass.old) message
        (M.then (view pass.old) message)
        × Learns P.holds pass.old.id (view pass.old) (M.fact (view pass.old)) }
    ensures channel { IsSeatAt (sends_on sender.now) pass.new × (pass.new.id ≡ pass.old.id) }
    ensures rule { MatchResult result
        (λ _. M.then (view pass.old) message (view pass.new))
        (λ back. (back ≡ message) × (view pass.new ≡ view pass.old)) }
{
    let mut message = message;
    for _ in 0..TRIES {
        match sender.try_send_as::<M, R>(rt, pass, message) {
            Ok(()) => return Ok(()),
            Err(TrySendError::Full(back)) => message = back,
            Err(refused) => return Err(refused.into_inner()),
        }
        thread::yield_now();
    }
    match sender.send_as::<M, R>(rt, pass, message) {
        Ok(()) => Ok(()),
        Err(refused) => Err(refused.into_inner()),
    }
}

// Receives a message, or returns None if the other end is gone.
pub fn receive<T: Drop, V, P: Protocol<T, V>, M: Outcome<T, V> + Lesson<T, V>, R: Wait>(
    rt: &R,
    receiver: &RuledReceiver<T, V, P>,
    pass: &mut Pass<T, V>,
) -> Option<T>
    requires channel { IsSeatAt (receives_on receiver.now) pass.old }
    requires rule { Pops P.holds pass.old.id (view pass.old) (M.then (view pass.old))
        × Learns P.holds pass.old.id (view pass.old) (M.fact (view pass.old)) }
    ensures channel { IsSeatAt (receives_on receiver.now) pass.new × (pass.new.id ≡ pass.old.id) }
    ensures rule { MatchOption result
        (view pass.new ≡ view pass.old)
        (λ message. M.then (view pass.old) message (view pass.new)) }
{
    for _ in 0..TRIES {
        if let Ok(message) = receiver.try_recv_as::<M, R>(rt, pass) {
            return Some(message);
        }
        thread::yield_now();
    }
    receiver.recv_as::<M, R>(rt, pass).ok()
}
