//! Tickets, by which whoever submitted a task waits for what it returns.
ghost use Rattle.std.specs.Prelude.{◌≡◌, IfErr, Some};
ghost use Rattle.dine_jobs.specs.Queues.{ticket_error_words};

use crossbeam_channel::{Receiver, RecvTimeoutError, Sender, TryRecvError, bounded};
use std::alloc::{AllocError, Global};
use std::error::Error;
use std::fmt;
use std::rt::Clock;
use std::sync::Wait;
use std::time::Duration;

/// What becomes of a task that was submitted, for whoever submitted it.
#[derive(Drop)]
pub struct Ticket<O: Drop> {
    from: Receiver<O, Global>,
}

/// Why a ticket has no output.
#[derive(Clone, Copy, Debug, PartialEq, Eq)]
pub enum TicketError {
    /// The task has not ended yet.
    Pending,
    /// The task will not be done: the executor was stopped, or its run ended with a fault. Or its output was taken.
    Gone,
}

/// `the task has not ended` or `the task will not be done`.
impl fmt::Display for TicketError {
    ghost output = { λ error. Some (ticket_error_words error) };

    fn fmt<W: fmt::Write>(&self, f: &mut fmt::Formatter<W>) -> fmt::Result {
        match self {
            TicketError::Pending => f.write_str("the task has not ended"),
            TicketError::Gone => f.write_str("the task will not be done"),
        }
    }
}

impl Error for TicketError {}

// Opens a ticket, with the end that what the task returns is to be sent to.
pub fn open_ticket<O: Drop>(alloc: Global) -> Result<(Sender<O, Global>, Ticket<O>), AllocError> {
    let (to, from) = bounded(alloc, 1)?;
    Ok((to, Ticket { from }))
}

impl<O: Drop> Ticket<O> {
    /// Waits until the task has ended, and returns what it returned.
    ///
    /// # Errors
    ///
    /// `Gone` if the task will not be done.
    pub fn wait<R: Wait>(self, rt: &R) -> Result<O, TicketError>
        ensures gone { IfErr result (λ error. error ≡ TicketError.Gone) }
    {
        match self.from.recv(rt) {
            Ok(output) => Ok(output),
            Err(_) => Err(TicketError::Gone),
        }
    }

    /// Returns what the task returned, if it has ended. It does not wait.
    ///
    /// # Errors
    ///
    /// `Pending` if it has not ended, and `Gone` if it will not be done or its output was taken.
    pub fn try_wait<R: Wait>(&self, rt: &R) -> Result<O, TicketError> {
        match self.from.try_recv(rt) {
            Ok(output) => Ok(output),
            Err(TryRecvError::Empty) => Err(TicketError::Pending),
            Err(TryRecvError::Disconnected) => Err(TicketError::Gone),
        }
    }

    /// Waits until the task has ended, for this time at most, and returns what it returned.
    ///
    /// # Errors
    ///
    /// `Pending` if it has not ended by then, and `Gone` if it will not be done or its output was taken.
    pub fn wait_timeout<R: Wait + Clock>(&self, rt: &R, time: Duration) -> Result<O, TicketError> {
        match self.from.recv_timeout(rt, time) {
            Ok(output) => Ok(output),
            Err(RecvTimeoutError::Timeout) => Err(TicketError::Pending),
            Err(RecvTimeoutError::Disconnected) => Err(TicketError::Gone),
        }
    }
}
