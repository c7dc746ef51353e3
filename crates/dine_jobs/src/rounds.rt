//! Runs of one plan, one after the other.
ghost use Rattle.std.specs.Prelude.{◌≡◌, ◌-◌, ◌≤◌, ℕ, IfErr, IfOk, map, vec_capacity, vec_len};
ghost use Rattle.dine_graph.specs.Plan.{edge_count, site_count};
ghost use Rattle.dine_jobs.specs.JobFaults.{IsFaultOf};
ghost use Rattle.dine_jobs.specs.Rounds.{HasRounds, IsRoundOf};

use crate::done::{JobsCause, JobsDone, JobsFault};
use crate::job::Job;
use crate::runs::{counted, run_jobs};
use dine_graph::Plan;
use std::alloc::Global;
use std::sync::Wait;
use std::thread::Threads;

/// Runs the jobs of a plan in rounds, each of which is a run as [`run_jobs`] does it: all sites have done all their
/// jobs of a round before the next one begins. Between two rounds `step` is called with the number of the round that
/// has ended, from 1, and with the values by edge and the jobs by site as this round left them. It may change them.
///
/// Returns what the last round left. If `rounds` is 0, there is one round all the same. Each round starts its threads
/// anew. A job may not expect a plan or a site: a job that says nothing of it expects each.
///
/// # Errors
///
/// Those of [`run_jobs`], in the first round that fails. The error then has the values, and perhaps the jobs, as that
/// round was given them or left them.
pub fn run_rounds<T, J, F>(
    rt: &(impl Threads + Wait + Copy + Send + 'static),
    alloc: Global,
    plan: &Plan,
    values: Vec<T>,
    jobs: Vec<J>,
    rounds: u32,
    mut step: F,
) -> Result<JobsDone<T, J>, JobsFault<T, J>>
where
    T: Drop + Send + 'static,
    J: Job<T> + 'static,
    F: FnMut(u32, &mut [T], &mut [J]) + Drop,
    requires callable { F.IsAlwaysCallable step }
    requires anywhere { (job : J) (site : ℕ) → J.expects job plan.now site }
    ensures ok { IfOk result (HasRounds F.step J.after plan.now (rounds - 1) 1 step values jobs) }
    ensures fault { IfErr result (λ fault. (values : _) × (jobs : _) × IsFaultOf plan.now values jobs fault) }
{
    let (mut values, mut jobs) = (values, jobs);
    for round in 1..rounds {
        (values, jobs) = run_round(rt, alloc, plan, values, jobs)?;
        step(round, values.as_mut_slice(), jobs.as_mut_slice());
    }
    run_jobs(rt, alloc, plan, values, jobs)
}

// Runs the jobs once, and returns the values and the jobs. The lists for them are allocated before the run.
fn run_round<T, J>(
    rt: &(impl Threads + Wait + Copy + Send + 'static),
    alloc: Global,
    plan: &Plan,
    values: Vec<T>,
    jobs: Vec<J>,
) -> Result<(Vec<T>, Vec<J>), JobsFault<T, J>>
where
    T: Drop + Send + 'static,
    J: Job<T> + 'static,
    requires anywhere { (job : J) (site : ℕ) → J.expects job plan.now site }
    ensures ok { IfOk result (λ back. IsRoundOf J.Fault J.after plan.now values jobs back.0.items back.1.items) }
    ensures fault { IfErr result (λ fault. (values : _) × (jobs : _) × IsFaultOf plan.now values jobs fault) }
{
    let (values, jobs) = match counted(plan, values, jobs) {
        Ok(both) => both,
        Err(fault) => return Err(fault),
    };
    let (Ok(plain), Ok(back)) = (
        Vec::with_capacity(alloc, values.len()),
        Vec::with_capacity(alloc, jobs.len()),
    ) else {
        let cause = JobsCause::Memory;
        return Err(JobsFault {
            cause,
            values,
            jobs,
        });
    };
    match run_jobs(rt, alloc, plan, values, jobs) {
        Ok(done) => Ok(done.into_lists(plain, back)),
        Err(fault) => Err(fault),
    }
}
