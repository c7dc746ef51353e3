//! Jobs that can be cancelled.
ghost use Rattle.std.specs.Prelude.{◌≡◌, ◌⊎◌, false};
ghost use Rattle.dine_watch.specs.Stops.{stopped_words};

use dine_jobs::{Job, Table};
use std::alloc::{AllocError, Global};
use std::error::Error;
use std::fmt;
use std::sync::atomic::{AtomicBool, Ordering};
use std::sync::{Arc, Wait};

/// A flag that any thread may set, and that jobs look at. It is never cleared. That a share sees what another one set
/// is tested: of an atomic no contract says what is in it.
#[derive(Drop)]
pub struct Cancel {
    flag: Arc<AtomicBool, Global>,
}

impl Cancel {
    /// Makes a flag that is not set.
    ///
    /// # Errors
    ///
    /// Fails if an allocation fails.
    pub fn open(alloc: Global) -> Result<Cancel, AllocError> {
        let flag = Arc::new(alloc, AtomicBool::new(false))?;
        Ok(Cancel { flag })
    }

    /// Returns another share of the same flag.
    ///
    /// # Errors
    ///
    /// Fails if there are too many shares.
    pub fn share(&self) -> Result<Cancel, AllocError> {
        let flag = Arc::try_clone(&self.flag)?;
        Ok(Cancel { flag })
    }

    /// Sets the flag.
    pub fn set(&self) {
        self.flag.store(true, Ordering::SeqCst);
    }

    /// Returns whether the flag is set.
    pub fn is_set(&self) -> bool {
        self.flag.load(Ordering::SeqCst)
    }
}

/// Why a job that can be cancelled failed.
#[derive(Debug, Drop, PartialEq, Eq)]
pub enum Stopped<F: Drop> {
    /// The flag was set before the job began. The job was not run.
    Cancelled,
    /// The job was run, and failed for this reason.
    Failed(F),
}

/// A job that is not begun any more once a flag is set: it fails at once with `Stopped::Cancelled`. If its site
/// resigns, the site then drops the jobs that it has left, and if all sites do, the run ends as soon as the jobs that
/// had begun have ended. A job that takes long looks at a share of the flag of its own.
#[derive(Drop)]
pub struct Cancellable<J: Drop> {
    /// The job.
    pub job: J,
    cancel: Cancel,
}

impl<J: Drop> Cancellable<J> {
    /// Makes a job that this flag cancels.
    pub fn new(job: J, cancel: Cancel) -> Cancellable<J>
        ensures { result.job ≡ job }
    {
        Cancellable { job, cancel }
    }
}

impl<T: Drop, J: Job<T>> Job<T> for Cancellable<J> {
    type Fault = Stopped<J::Fault>;

    // What the job inside may do, or, in a call that fails, nothing.
    ghost after = { λ old k ok new. J.after old.job k ok new.job ⊎ ((ok ≡ false) × (new.job ≡ old.job)) };

    // Where the job inside expects to run.
    ghost expects = { λ cancellable plan site. J.expects cancellable.job plan site };

    fn is_called<R: Wait>(&self, rt: &R) -> bool {
        self.job.is_called(rt)
    }

    fn run(&mut self, table: &Table<'_, T>) -> Result<(), Stopped<J::Fault>> {
        if self.cancel.is_set() {
            return Err(Stopped::Cancelled);
        }
        match self.job.run(table) {
            Ok(()) => Ok(()),
            Err(fault) => Err(Stopped::Failed(fault)),
        }
    }
}

/// `cancelled`, or the words of the fault.
impl<F: fmt::Display + Drop> fmt::Display for Stopped<F> {
    ghost output = { λ stopped. stopped_words F.output stopped };

    fn fmt<W: fmt::Write>(&self, f: &mut fmt::Formatter<W>) -> fmt::Result {
        match self {
            Stopped::Cancelled => f.write_str("cancelled"),
            Stopped::Failed(fault) => fault.fmt(f),
        }
    }
}

impl<F: fmt::Display + fmt::Debug + Drop> Error for Stopped<F> {}
