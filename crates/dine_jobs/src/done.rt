//! What is left of a run of jobs, and why there may be nothing left.
ghost use Rattle.std.specs.Prelude.{◌≡◌, ◌≤◌, ◌↔◌, IfOk, IfSome, IsNone, Some, map, slice_get, vec_capacity, vec_len};
ghost use Rattle.dine_jobs.specs.JobFaults.{counts_words, jobs_cause_words};

use crate::edge_value::EdgeValue;
use crate::job::{Failure, Job};
use dine_graph::{EdgeId, SiteId};
use dine_link::EmptyChecks;
use dine_rules::EventKind;
use dine_site_thread::{Call, CallLog};
use dine_threads::RunCause;
use dine_token::Fork;
use std::alloc::{AllocError, Global};
use std::convert::AsSlice;
use std::error::Error;
use std::fmt;

/// What is left of a site: its number, its job, the record of its calls, why each job failed that did, its journal,
/// which has each event that it did, in order, and the checks of its bell that found no ring left, which only proofs
/// read. `order` puts the journals of all sites into one list.
#[derive(Drop)]
pub struct SiteDone<J: Drop, F: Drop> {
    pub site: SiteId,
    pub job: J,
    pub log: CallLog,
    pub failures: Vec<Failure<F>>,
    pub journal: Vec<EventKind>,
    pub checks: EmptyChecks,
}

impl<J: Drop, F: Drop> SiteDone<J, F> {
    /// Returns all calls of the job, in order: the number of the meal, and whether it went well.
    pub fn calls(&self) -> &[Call]
        ensures { result.now ≡ self.now.log.calls }
    {
        self.log.calls()
    }

    // Returns the job alone.
    pub(crate) fn into_job(self) -> J
        ensures { result ≡ self.job }
    {
        let SiteDone { job, .. } = self;
        job
    }
}

/// The journal, for calls that read journals where they are.
impl<J: Drop, F: Drop> AsSlice<EventKind> for SiteDone<J, F> {
    ghost items = { λ left. left.journal.items };

    fn as_slice(&self) -> &[EventKind] {
        self.journal.as_slice()
    }
}

/// What is left of a run of jobs.
#[derive(Drop)]
pub struct JobsDone<T: Drop, J: Job<T>> {
    /// The values, by edge, each with the number of its edge.
    pub values: Vec<EdgeValue<T>>,
    /// What each site left, by site.
    pub sites: Vec<SiteDone<J, J::Fault>>,
    /// The forks, by edge, each with its log.
    pub forks: Vec<Fork>,
    /// How often a job asked for a value that was open already. In all tests it was 0, except if a job asked for a
    /// value that it had open itself.
    pub found_open: u64,
}

impl<T: Drop, J: Job<T>> JobsDone<T, J> {
    /// Returns what a site left. It is None exactly if there is no such site.
    pub fn site(&self, site: SiteId) -> Option<&SiteDone<J, J::Fault>>
        ensures left { IfSome result (λ left. slice_get self.now.sites.items site.0 ≡ Some left.now) }
        ensures none { vec_len self.now.sites ≤ site.0 ↔ IsNone result }
    {
        self.sites.get(site.0 as usize)
    }

    /// Returns the value of an edge. It is None exactly if there is no such edge.
    pub fn value(&self, edge: EdgeId) -> Option<&T>
        ensures value { IfSome result (λ value. (it : _)
            × (slice_get self.now.values.items edge.0 ≡ Some it) × (it.value ≡ value.now)) }
        ensures none { vec_len self.now.values ≤ edge.0 ↔ IsNone result }
    {
        match self.value_at(edge) {
            Some(it) => Some(&it.value),
            None => None,
        }
    }

    // Returns the value of an edge with its number. Split for the checker: see CONTRIBUTING, cost of proofs.
    fn value_at(&self, edge: EdgeId) -> Option<&EdgeValue<T>>
        ensures value { IfSome result (λ it. slice_get self.now.values.items edge.0 ≡ Some it.now) }
        ensures none { vec_len self.now.values ≤ edge.0 ↔ IsNone result }
    {
        self.values.get(edge.0 as usize)
    }

    /// Returns the values by edge and the jobs by site, as a further run takes them.
    ///
    /// # Errors
    ///
    /// Fails if an allocation fails. What was left is then dropped.
    pub fn into_parts(self, alloc: Global) -> Result<(Vec<T>, Vec<J>), AllocError>
        ensures values { IfOk result (λ parts. parts.0.items ≡ map (λ it. it.value) self.values.items) }
        ensures jobs { IfOk result (λ parts. parts.1.items ≡ map (λ left. left.job) self.sites.items) }
    {
        let plain = Vec::with_capacity(alloc, self.values.len())?;
        let jobs = Vec::with_capacity(alloc, self.sites.len())?;
        Ok(self.into_lists(plain, jobs))
    }

    // Moves the values by edge and the jobs by site into lists that have capacity for them.
    pub(crate) fn into_lists(self, plain: Vec<T>, jobs: Vec<J>) -> (Vec<T>, Vec<J>)
        requires empty { (vec_len plain ≡ 0) × (vec_len jobs ≡ 0) }
        requires room { (vec_len self.values ≤ vec_capacity plain) × (vec_len self.sites ≤ vec_capacity jobs) }
        ensures values { result.0.items ≡ map (λ it. it.value) self.values.items }
        ensures jobs { result.1.items ≡ map (λ left. left.job) self.sites.items }
    {
        let JobsDone { values, sites, .. } = self;
        (EdgeValue::bare(values, plain), jobs_left(sites, jobs))
    }
}

// Moves the job of each site into a list that has capacity for them.
fn jobs_left<J: Drop, F: Drop>(sites: Vec<SiteDone<J, F>>, mut jobs: Vec<J>) -> Vec<J>
    requires empty { vec_len jobs ≡ 0 }
    requires room { vec_len sites ≤ vec_capacity jobs }
    ensures { result.items ≡ map (λ left. left.job) sites.items }
{
    for left in sites {
        jobs.push_reserved(left.into_job());
    }
    jobs
}

/// Why there is nothing left of a run of jobs.
#[derive(Clone, Copy, Debug, PartialEq, Eq)]
pub enum JobsCause {
    /// There are not as many values as edges. Nothing was started.
    ValuesDiffer { given: usize, edges: u32 },
    /// There are not as many jobs as sites. Nothing was started.
    JobsDiffer { given: usize, sites: u32 },
    /// An allocation failed before any thread started.
    Memory,
    /// The run failed. The cause is not that a bell refused, which is `Bell`.
    Run(RunCause),
    /// A bell refused at this site: a bell of a neighbour refused a ring, or its own bell a wait. It is the lowest site
    /// that ended with a fault. The cause of the run has this as `LostBell`.
    Bell(u32),
    /// The values did not come back, each for its edge: a thread kept them. No run does that, though no clause says so.
    Kept,
    /// An open run had not the executor to itself: another run took tasks of it, or it was opened for a plan with fewer
    /// sites.
    Executor,
}

/// Why there is nothing left of a run of jobs, and what is returned with it.
#[derive(Drop)]
pub struct JobsFault<T: Drop, J: Drop> {
    pub cause: JobsCause,
    /// The values by edge, as the jobs left them. None if the cause is `Kept`.
    pub values: Vec<T>,
    /// The jobs as they were given if the cause is `ValuesDiffer` or `JobsDiffer`, and those of all sites, by site, if
    /// it is `Bell`, or `Run` with a site that ended with a fault. Otherwise they may have been dropped.
    pub jobs: Vec<J>,
}

// How many were given, and how many were wanted. Split for the checker: see CONTRIBUTING, cost of proofs.
#[derive(Clone, Copy)]
struct Counts {
    given: usize,
    wanted: u32,
}

impl fmt::Display for Counts {
    ghost output = { λ counts. Some (counts_words counts.given counts.wanted) };

    fn fmt<W: fmt::Write>(&self, f: &mut fmt::Formatter<W>) -> fmt::Result {
        let Counts { given, wanted } = *self;
        write!(f, "given {given}, wanted {wanted}")
    }
}

/// `run refused: values given 2, wanted 3`, `run refused: jobs given 2, wanted 3`, `out of memory`, the words for the
/// run's cause, `run broken at site 0: Lost on a bell`, or `a thread kept the values`.
impl fmt::Display for JobsCause {
    ghost output = { λ cause. Some (jobs_cause_words cause) };

    fn fmt<W: fmt::Write>(&self, f: &mut fmt::Formatter<W>) -> fmt::Result {
        match *self {
            JobsCause::ValuesDiffer { given, edges } => {
                let counts = Counts {
                    given,
                    wanted: edges,
                };
                write!(f, "run refused: values {counts}")
            }
            JobsCause::JobsDiffer { given, sites } => {
                let counts = Counts {
                    given,
                    wanted: sites,
                };
                write!(f, "run refused: jobs {counts}")
            }
            JobsCause::Memory => f.write_str("out of memory"),
            JobsCause::Run(cause) => write!(f, "{cause}"),
            JobsCause::Bell(site) => write!(f, "run broken at site {site}: Lost on a bell"),
            JobsCause::Kept => f.write_str("a thread kept the values"),
            JobsCause::Executor => f.write_str("the executor is not of this run alone"),
        }
    }
}

impl Error for JobsCause {}

/// The words for the cause.
impl<T: Drop, J: Drop> fmt::Display for JobsFault<T, J> {
    ghost output = { λ fault. Some (jobs_cause_words fault.cause) };

    fn fmt<W: fmt::Write>(&self, f: &mut fmt::Formatter<W>) -> fmt::Result {
        write!(f, "{}", self.cause)
    }
}

/// The cause alone, since a value need not be printed.
impl<T: Drop, J: Drop> fmt::Debug for JobsFault<T, J> {
    fn fmt<W: fmt::Write>(&self, f: &mut fmt::Formatter<W>) -> fmt::Result {
        fmt::Debug::fmt(&self.cause, f)
    }
}

impl<T: Drop, J: Drop> Error for JobsFault<T, J> {}
