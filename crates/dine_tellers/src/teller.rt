//! A diner: at each meal it sends one unit from its own account to the account of the next site.
ghost use Rattle.std.specs.Prelude.{◌≡◌, ◌+◌, ◌≤◌, [], length, IfOk};
ghost use Rattle.dine_token.specs.declared.limits.TheConstants.{MAX_JOBS};
ghost use Rattle.dine_run.specs.CallLogs.{no_calls};

use dine_run::{CallLog, Diner, JobFault};
use dine_token::Meal;
use std::alloc::{AllocError, Global};

/// A teller and the number of units that it sent, one at each call.
#[derive(Drop)]
pub struct Teller {
    pub log: CallLog,
    pub sent: u32,
    ghost one_each: { sent ≡ length log.calls },
    ghost few: { sent + log.room ≤ MAX_JOBS },
}

impl Teller {
    /// Returns a teller that sent nothing, with capacity for a number of jobs.
    pub fn open(alloc: Global, jobs: u32) -> Result<Teller, AllocError>
        requires { jobs ≤ MAX_JOBS }
        ensures { IfOk result (λ teller. teller.log ≡ no_calls jobs) }
    {
        let log = CallLog::open(alloc, jobs)?;
        Ok(Teller { log, sent: 0 })
    }
}

impl Diner for Teller {
    ghost calls = { λ teller. teller.log.calls };

    ghost marks = { λ teller. [] };

    // Each of its jobs goes well.
    ghost fits = { λ marks k ok. ok };

    ghost room_left = { λ teller. teller.log.room };

    fn room(&self) -> u32 {
        self.log.room()
    }

    fn eat(&mut self, k: u32, _meal: &Meal) -> Result<(), JobFault> {
        self.log.note(k, true);
        self.sent += 1;
        Ok(())
    }
}
