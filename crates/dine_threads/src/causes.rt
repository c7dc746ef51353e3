//! Why a run gathers nothing, or not all, and the words for it.
ghost use Rattle.std.specs.Prelude.{◌≡◌, Some};
ghost use Rattle.dine_threads.specs.Causes.{cause_of, cause_words};

use crate::gathered::RunFault;
use dine_site_thread::{Diner, SiteFault};
use std::error::Error;
use std::fmt;

/// Why a run gathers nothing, or not all, without what it hands back.
#[derive(Clone, Copy, Debug, PartialEq, Eq)]
pub enum RunCause {
    /// There were not as many diners as sites.
    DinersDiffer,
    /// An allocation failed before any thread started.
    Memory,
    /// The thread of this site could not be started.
    Thread(u32),
    /// This is the lowest site that ended with a fault, and its fault.
    Broken(u32, SiteFault),
}

impl<D: Diner> From<&RunFault<D>> for RunCause {
    ghost from_gives = { λ fault cause. cause ≡ cause_of fault.now };

    fn from(fault: &RunFault<D>) -> RunCause {
        match fault {
            RunFault::DinersDiffer { .. } => RunCause::DinersDiffer,
            RunFault::Memory => RunCause::Memory,
            RunFault::Thread(site) => RunCause::Thread(*site),
            RunFault::Broken { site, joined } => {
                // A site without a fault counts as not started; `run` never reports one as broken.
                let found = joined.sites.get(*site as usize).and_then(|out| out.fault);
                let fault = found.unwrap_or(SiteFault::NotStarted);
                RunCause::Broken(*site, fault)
            }
        }
    }
}

/// `run refused: diners differ`, `out of memory`, `run refused: thread of site 0`, or `run broken at site 0: ` and the
/// fault.
impl fmt::Display for RunCause {
    ghost output = { λ cause. Some (cause_words cause) };

    fn fmt<W: fmt::Write>(&self, f: &mut fmt::Formatter<W>) -> fmt::Result {
        match *self {
            RunCause::DinersDiffer => f.write_str("run refused: diners differ"),
            RunCause::Memory => f.write_str("out of memory"),
            RunCause::Thread(site) => write!(f, "run refused: thread of site {site}"),
            RunCause::Broken(site, fault) => write!(f, "run broken at site {site}: {fault}"),
        }
    }
}

impl Error for RunCause {}

/// The words for the cause.
impl<D: Diner> fmt::Display for RunFault<D> {
    ghost output = { λ fault. Some (cause_words (cause_of fault)) };

    fn fmt<W: fmt::Write>(&self, f: &mut fmt::Formatter<W>) -> fmt::Result {
        let cause = RunCause::from(self);
        write!(f, "{cause}")
    }
}

/// The cause alone, since a diner need not be printed.
impl<D: Diner> fmt::Debug for RunFault<D> {
    fn fmt<W: fmt::Write>(&self, f: &mut fmt::Formatter<W>) -> fmt::Result {
        fmt::Debug::fmt(&RunCause::from(self), f)
    }
}

impl<D: Diner> Error for RunFault<D> {}
