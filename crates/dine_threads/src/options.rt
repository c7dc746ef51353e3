//! How a run is done.
ghost use Rattle.std.specs.Prelude.{◌≡◌};
ghost use Rattle.dine_graph.specs.declared.limits.TheConstants.{MAX_SITES};

use dine_graph::MAX_SITES;
use dine_site_thread::Manner;

/// The patience of a run whose options nobody has chosen. With it short jobs take about the time that they take under
/// fair locks, and a neighbour that has rung waits for at most this number of meals.
pub const DEFAULT_PATIENCE: u32 = 64;

/// How a run is done: with at most how many threads, and in which manner its sites do their events.
#[derive(Clone, Copy, Debug, PartialEq, Eq)]
pub struct RunOptions {
    pub threads: u32,
    pub manner: Manner,
}

impl RunOptions {
    /// Returns the options of an eager run with a thread for each site, as [`crate::run`] does it.
    pub fn eager() -> RunOptions
        ensures { result ≡ record { threads = MAX_SITES; manner = Manner.Eager } }
    {
        RunOptions::of(Manner::Eager)
    }

    /// Returns the options of a run without a bound on what a neighbour waits for, with a thread for each site: each
    /// site eats as long as it can, and leaves letters in their links until they matter.
    pub fn greedy() -> RunOptions
        ensures { result ≡ record { threads = MAX_SITES; manner = Manner.Greedy } }
    {
        RunOptions::of(Manner::Greedy)
    }

    /// Returns the options of a run with a thread for each site in which a neighbour that has rung for its request
    /// waits for at most `meals` meals of the site that it asked; 0 counts as 1.
    pub fn patience(meals: u32) -> RunOptions
        ensures { result ≡ record { threads = MAX_SITES; manner = Manner.Patient meals } }
    {
        RunOptions::of(Manner::Patient(meals))
    }

    /// Returns the options of a polite run: `RunOptions::patience(1)`.
    pub fn polite() -> RunOptions
        ensures { result ≡ record { threads = MAX_SITES; manner = Manner.Patient 1 } }
    {
        RunOptions::patience(1)
    }

    fn of(manner: Manner) -> RunOptions
        ensures { result ≡ record { threads = MAX_SITES; manner = manner } }
    {
        RunOptions {
            threads: MAX_SITES,
            manner,
        }
    }

    /// Returns the options of a run whose sites are on call, with a thread for each site: each thinks until its diner
    /// is called to a job, and is as patient as those of `RunOptions::patience(meals)`.
    pub fn on_call(meals: u32) -> RunOptions
        ensures { result ≡ record { threads = MAX_SITES; manner = Manner.OnCall meals } }
    {
        RunOptions::of(Manner::OnCall(meals))
    }

    /// Returns the same options, with at most `threads` threads.
    pub fn within(self, threads: u32) -> RunOptions
        ensures { result ≡ record { threads = threads; manner = self.manner } }
    {
        RunOptions {
            threads,
            manner: self.manner,
        }
    }
}

/// The options that suit most programs: `RunOptions::patience(64)`.
impl Default for RunOptions {
    fn default() -> RunOptions
        ensures { result ≡ record { threads = MAX_SITES; manner = Manner.Patient 64 } }
    {
        RunOptions::patience(DEFAULT_PATIENCE)
    }
}
