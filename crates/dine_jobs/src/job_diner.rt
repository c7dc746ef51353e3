//! The diner that does the jobs of a site.
ghost use Rattle.std.specs.Prelude.{◌≡◌, ◌+◌, ◌≤◌, IfOk, Some, false, true};
ghost use Rattle.std.specs.Prelude.{replicate, slice_get, vec_capacity, vec_len};
ghost use Rattle.std.specs.Arc.{arc_value};
ghost use Rattle.dine_graph.specs.Plan.{edge_count, job_count, site_count};
ghost use Rattle.dine_site_thread.specs.CallLogs.{no_calls};
ghost use Rattle.dine_jobs.specs.JobRuns.{HasRun, failed_numbers, numbers_of};

use crate::done::SiteDone;
use crate::given::Given;
use crate::job::{Failure, Job};
use crate::table::Table;
use crate::values::Values;
use dine_graph::{Plan, SiteId};
use dine_link::EmptyChecks;
use dine_rules::EventKind;
use dine_site_thread::{CallLog, Diner, JobFault};
use dine_token::Meal;
use std::alloc::{AllocError, Global};
use std::marker::PhantomData;
use std::sync::{Arc, Wait};

/// Does the jobs of a site by a [`Job`], with the values that it shares. It keeps each call, and why each job failed
/// that did.
#[derive(Drop)]
pub struct JobDiner<T: Drop, J: Job<T>, K: Given<J>> {
    job: J,
    log: CallLog,
    failures: Vec<Failure<J::Fault>>,
    site: u32,
    values: Arc<Values<T>, Global>,
    given: PhantomData<K>,
    ghost room: { vec_len failures + log.room ≤ vec_capacity failures },
    ghost sized: { vec_len (arc_value values).cells ≡ edge_count K.plan },
    ghost failed: { numbers_of failures.items ≡ failed_numbers log.calls },
    ghost ran: { (first : J) → slice_get K.given site ≡ Some first → ∥ HasRun J.after first log.calls job ∥₁ },
}

impl<T: Drop, J: Job<T>, K: Given<J>> JobDiner<T, J, K> {
    // Returns what is left after its jobs. It drops its share of the values.
    pub(crate) fn leave(self, journal: Vec<EventKind>, checks: EmptyChecks) -> SiteDone<J, J::Fault>
        ensures { result ≡ record {
          site = record { 0 = self.site };
          job = self.job;
          log = self.log;
          failures = self.failures;
          journal = journal;
          checks = checks;
        } }
    {
        let JobDiner {
            job,
            log,
            failures,
            site: number,
            ..
        } = self;
        SiteDone {
            site: SiteId(number),
            job,
            log,
            failures,
            journal,
            checks,
        }
    }

    // Returns its job alone. It drops its share of the values.
    pub(crate) fn into_job(self) -> J
        ensures { result ≡ self.job }
    {
        let JobDiner { job, .. } = self;
        job
    }
}

// Opens a diner for each job. It has made no call, and it has capacity for the calls of the jobs of its site.
pub(crate) fn open_diners<T: Drop, J: Job<T>, K: Given<J>>(
    alloc: Global,
    plan: &Plan,
    jobs: Vec<J>,
    values: &Arc<Values<T>, Global>,
) -> Result<Vec<JobDiner<T, J, K>>, AllocError>
    requires many { vec_len jobs ≡ site_count plan.now }
    requires given { jobs.items ≡ K.given }
    requires plan { K.plan ≡ plan.now }
    requires sized { vec_len (arc_value values.now).cells ≡ edge_count plan.now }
    requires expected { (s : _) (job : _) → slice_get jobs.items s ≡ Some job → J.expects job plan.now s }
    ensures many { IfOk result (λ diners. vec_len diners ≡ site_count plan.now) }
    ensures sites { IfOk result (λ diners. (s : _) (diner : _)
        → slice_get diners.items s ≡ Some diner → diner.site ≡ s) }
    ensures expected { IfOk result (λ diners. (s : _) (diner : _)
        → slice_get diners.items s ≡ Some diner → J.expects diner.job plan.now s) }
    ensures logs { IfOk result (λ diners. (s : _) (diner : _)
        → slice_get diners.items s ≡ Some diner → diner.log ≡ no_calls (job_count plan.now s)) }
{
    let mut diners = Vec::with_capacity(alloc, plan.sites() as usize)?;
    let mut waiting = jobs.into_iter();
    for site in 0..plan.sites() {
        let log = CallLog::open(alloc, plan.jobs(site))?;
        let failures = Vec::with_capacity(alloc, plan.jobs(site) as usize)?;
        let values = Arc::try_clone(values)?;
        let job = waiting.next().unwrap();
        diners.push_reserved(JobDiner {
            job,
            log,
            failures,
            site,
            values,
            given: PhantomData,
        });
    }
    Ok(diners)
}

impl<T: Drop + Send, J: Job<T>, K: Given<J> + Send> Diner for JobDiner<T, J, K> {
    ghost calls = { λ diner. diner.log.calls };

    // The number of its site, as this number of marks: no call changes them.
    ghost marks = { λ diner. replicate diner.site false };

    ghost fits = { λ marks k ok. true };

    ghost room_left = { λ diner. diner.log.room };

    // Its own site, in the plan of the run, where its job expects to run.
    ghost expects = { λ diner plan site. (site ≡ diner.site) × (plan ≡ K.plan) × J.expects diner.job plan site };

    fn room(&self) -> u32 {
        self.log.room()
    }

    fn is_called<R: Wait>(&self, rt: &R) -> bool {
        self.job.is_called(rt)
    }

    fn eat(&mut self, k: u32, meal: &Meal) -> Result<(), JobFault> {
        let outcome = self.job.run(&Table::new(meal, &self.values));
        self.log.note(k, outcome.is_ok());
        match outcome {
            Ok(()) => Ok(()),
            Err(fault) => {
                self.failures.push_reserved(Failure { k, fault });
                Err(JobFault)
            }
        }
    }
}
