//! The record of calls that a diner keeps.
ghost use Rattle.std.specs.Prelude.{◌≡◌, ◌+◌, ◌<◌, ◌++◌, ◌∷◌, [], IfOk};
ghost use Rattle.dine_site_thread.specs.declared.diner.Call.{Call};
ghost use Rattle.dine_site_thread.specs.CallLogs.{no_calls};

use crate::diner::Call;
use std::alloc::{AllocError, Global};
use std::marker::Model;

/// The calls of a diner, in order, and for how many more calls the log has capacity. The capacity is allocated once,
/// when the log is opened. A diner of your own can keep one, and take its calls and its room from it.
#[derive(Drop)]
pub struct CallLog {
    calls: Vec<Call>,
    room: u32,
}

impl Model for CallLog {
    ghost use Rattle.dine_site_thread.specs.CallLogs.{SeenCallLog};

    ghost Value = { SeenCallLog };

    ghost use Rattle.dine_site_thread.specs.private.CallLogFields.{seen_log, HasRoom};

    ghost view = { seen_log };

    ghost invariant = { HasRoom };
}

impl CallLog {
    /// Opens a log without calls, with capacity for one call for each job.
    ///
    /// # Errors
    ///
    /// `AllocError` if an allocation fails.
    pub fn open(alloc: Global, jobs: u32) -> Result<CallLog, AllocError>
        ensures { IfOk result (λ log. log ≡ no_calls jobs) }
    {
        let calls = Vec::with_capacity(alloc, jobs as usize)?;
        Ok(CallLog { calls, room: jobs })
    }

    /// Returns for how many more calls the log has capacity.
    pub fn room(&self) -> u32
        ensures { result ≡ self.now.room }
    {
        self.room
    }

    /// Notes a call: the number of the meal, and whether its job went well.
    pub fn note(&mut self, k: u32, ok: bool)
        requires { 0 < self.old.room }
        ensures calls { self.new.calls ≡ self.old.calls ++ record { k = k; ok = ok } ∷ [] }
        ensures room { self.new.room + 1 ≡ self.old.room }
    {
        self.calls.push_reserved(Call { k, ok });
        self.room -= 1;
    }

    /// Returns all calls so far, in order.
    pub fn calls(&self) -> &[Call]
        ensures { result.now ≡ self.now.calls }
    {
        self.calls.as_slice()
    }
}
