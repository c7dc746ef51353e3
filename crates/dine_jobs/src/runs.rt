//! Runs of jobs that share values.
ghost use Rattle.std.specs.Prelude.{◌≡◌, ◌<◌, ◌≤◌, ◌⊎◌, IfErr, IfOk, OnOk, map, vec_capacity, vec_len};
ghost use Rattle.std.specs.Arc.{arc_value};
ghost use Rattle.dine_graph.specs.Plan.{edge_count, site_count};
ghost use Rattle.dine_jobs.specs.EdgeValues.{BelongInOrder, HasRoom};
ghost use Rattle.dine_jobs.specs.JobFaults.{AreAsMany, IsFaultOf, cause_of_run};
ghost use Rattle.dine_jobs.specs.JobRuns.{IsDoneRun};
ghost use Rattle.dine_jobs.specs.JobSites.{HaveJobSites};

use crate::done::{JobsCause, JobsDone, JobsFault, SiteDone};
use crate::edge_value::EdgeValue;
use crate::given::Given;
use crate::job::Job;
use crate::job_diner::{JobDiner, open_diners};
use crate::values::{Spare, Values};
use dine_graph::Plan;
use dine_link::{ChannelLane, Doorbell, Lane, RingLane};
use dine_site_thread::{Manner, SiteFault};
use dine_threads::{Gathered, RunCause, RunFault, RunOptions, SiteOut, run_with_doorbells};
use std::alloc::{AllocError, Global};
use std::marker::Brand;
use std::sync::{Arc, Wait};
use std::thread::Threads;

/// Runs the jobs of a plan: job `s` does the jobs of site `s` on a thread of its own, and in each meal it can open the
/// values of the edges of its site. The values are given by edge and the jobs by site, as they come back. The options
/// say with at most how many threads the run is done, and in which manner its sites do their events. It may wait.
///
/// If there is a job for each site, each job expects to run there. All memory is taken before the first thread starts,
/// except for the journals.
///
/// # Errors
///
/// `ValuesDiffer` if there are not as many values as edges; else `JobsDiffer` if there are not as many jobs as sites.
/// The error then has the values and the jobs. `Memory` if an allocation fails before the first thread starts, `Bell`
/// if a bell refused at the lowest site that ended with a fault, and `Run` if the run itself fails in another way. The
/// error then has the values. If the threads had run, it also has the jobs of all sites, each as its site left it.
pub fn run_jobs_with<L, T, J>(
    rt: &(impl Threads + Wait + Copy + Send + 'static),
    alloc: Global,
    plan: &Plan,
    values: Vec<T>,
    jobs: Vec<J>,
    options: RunOptions,
) -> Result<JobsDone<T, J>, JobsFault<T, J>>
where
    L: Lane + 'static,
    L::Tx: 'static,
    L::ClosedTx: 'static,
    L::Rx: 'static,
    T: Drop + Send + 'static,
    J: Job<T> + 'static,
    requires expected { HaveJobSites J.expects plan.now jobs }
    ensures ok { IfOk result (IsDoneRun J.after options.manner plan.now values jobs) }
    ensures fault { IfErr result (IsFaultOf plan.now values jobs) }
{
    run_jobs_at::<L, T, J>(rt, alloc, plan, values, jobs, &[], options)
}

/// Runs the jobs of a plan, as [`run_jobs_with`] does, and wires the doorbell of each site, by number, to its bell
/// before the first thread starts. So the sites may be on call, and are rung when their jobs are called
/// ([`Job::is_called`]).
///
/// # Errors
///
/// Those of [`run_jobs_with`].
pub fn run_jobs_at<L, T, J>(
    rt: &(impl Threads + Wait + Copy + Send + 'static),
    alloc: Global,
    plan: &Plan,
    values: Vec<T>,
    jobs: Vec<J>,
    doorbells: &[Doorbell],
    options: RunOptions,
) -> Result<JobsDone<T, J>, JobsFault<T, J>>
where
    L: Lane + 'static,
    L::Tx: 'static,
    L::ClosedTx: 'static,
    L::Rx: 'static,
    T: Drop + Send + 'static,
    J: Job<T> + 'static,
    requires expected { HaveJobSites J.expects plan.now jobs }
    ensures ok { IfOk result (IsDoneRun J.after options.manner plan.now values jobs) }
    ensures fault { IfErr result (IsFaultOf plan.now values jobs) }
{
    let (values, jobs) = counted(plan, values, jobs)?;
    run_given::<L, T, J, Brand>(rt, alloc, plan, values, jobs, doorbells, options)
}

// Returns the values and the jobs if there are as many of them as edges and sites, and otherwise a fault with them.
pub(crate) fn counted<T: Drop, J: Drop>(
    plan: &Plan,
    values: Vec<T>,
    jobs: Vec<J>,
) -> Result<(Vec<T>, Vec<J>), JobsFault<T, J>>
    ensures same { IfOk result (λ both. (both.0 ≡ values) × (both.1 ≡ jobs)) }
    ensures many { OnOk result (AreAsMany plan.now values jobs) }
    ensures fault { IfErr result (IsFaultOf plan.now values jobs) }
{
    if values.len() != plan.edges() as usize {
        let cause = JobsCause::ValuesDiffer {
            given: values.len(),
            edges: plan.edges(),
        };
        return Err(JobsFault {
            cause,
            values,
            jobs,
        });
    }
    if jobs.len() != plan.sites() as usize {
        let cause = JobsCause::JobsDiffer {
            given: jobs.len(),
            sites: plan.sites(),
        };
        return Err(JobsFault {
            cause,
            values,
            jobs,
        });
    }
    Ok((values, jobs))
}

// The same, if there are as many values as edges and as many jobs as sites.
fn run_given<L, T, J, K>(
    rt: &(impl Threads + Wait + Copy + Send + 'static),
    alloc: Global,
    plan: &Plan,
    values: Vec<T>,
    jobs: Vec<J>,
    doorbells: &[Doorbell],
    options: RunOptions,
) -> Result<JobsDone<T, J>, JobsFault<T, J>>
where
    L: Lane + 'static,
    L::Tx: 'static,
    L::ClosedTx: 'static,
    L::Rx: 'static,
    T: Drop + Send + 'static,
    J: Job<T> + 'static,
    K: Given<J> + Send + 'static,
    requires values { vec_len values ≡ edge_count plan.now }
    requires jobs { vec_len jobs ≡ site_count plan.now }
    requires given { jobs.items ≡ K.given }
    requires plan { K.plan ≡ plan.now }
    requires expected { HaveJobSites J.expects plan.now jobs }
    ensures ok { IfOk result (IsDoneRun J.after options.manner plan.now values jobs) }
    ensures fault { IfErr result (IsFaultOf plan.now values jobs) }
{
    let (values, spare) = match Values::lock(alloc, plan.edges(), values) {
        Ok(locked) => locked,
        Err(values) => return Err(fault_with(JobsCause::Memory, values, jobs)),
    };
    let values = match Arc::new(alloc, values) {
        Ok(values) => values,
        Err(failed) => return Err(fault_of_locked(JobsCause::Memory, failed.value, spare, jobs)),
    };
    let Ok(back) = Vec::with_capacity(alloc, plan.sites() as usize) else {
        return Err(fault_of_shared(JobsCause::Memory, values, spare, jobs));
    };
    let (Ok(diners), Ok(room)) = (
        open_diners::<T, J, K>(alloc, plan, jobs, &values),
        Vec::with_capacity(alloc, plan.sites() as usize),
    ) else {
        return Err(fault_of_shared(JobsCause::Memory, values, spare, back));
    };
    let ran = run_with_doorbells::<L, JobDiner<T, J, K>>(
        rt, alloc, plan, diners, doorbells, options,
    );
    let (cause, jobs) = match ran {
        Ok(gathered) => return finish(gathered, room, values, spare, back),
        Err(fault) => {
            let cause = cause_of(RunCause::from(&fault));
            (cause, jobs_of(fault, back))
        }
    };
    Err(fault_of_shared(cause, values, spare, jobs))
}

// Returns why a run of jobs failed, by the cause of its run.
fn cause_of(cause: RunCause) -> JobsCause
    ensures { result ≡ cause_of_run cause }
{
    match cause {
        RunCause::Broken(site, SiteFault::LostBell { .. }) => JobsCause::Bell(site),
        _ => JobsCause::Run(cause),
    }
}

// Returns the jobs of a run that failed, by site, if its threads had joined, and otherwise none.
fn jobs_of<T: Drop + Send, J: Job<T>, K: Given<J> + Send>(
    fault: RunFault<JobDiner<T, J, K>>,
    jobs: Vec<J>,
) -> Vec<J>
    requires empty { vec_len jobs ≡ 0 }
    requires room { (site : _) (joined : _)
        → fault ≡ RunFault.Broken site joined → vec_len joined.sites ≤ vec_capacity jobs }
    ensures { (site : _) (joined : _)
        → fault ≡ RunFault.Broken site joined → vec_len result ≡ vec_len joined.sites }
{
    match fault {
        RunFault::Broken { joined, .. } => {
            let Gathered { sites, .. } = joined;
            take_jobs(sites, jobs)
        }
        _ => jobs,
    }
}

// Moves the job of each site into a list that has capacity for them.
fn take_jobs<T: Drop + Send, J: Job<T>, K: Given<J> + Send>(
    outs: Vec<SiteOut<JobDiner<T, J, K>>>,
    mut jobs: Vec<J>,
) -> Vec<J>
    requires empty { vec_len jobs ≡ 0 }
    requires room { vec_len outs ≤ vec_capacity jobs }
    ensures { result.items ≡ map (λ out. out.diner.job) outs.items }
{
    for out in outs {
        let SiteOut { diner, .. } = out;
        jobs.push_reserved(diner.into_job());
    }
    jobs
}

// Returns what is left of a run that went well. No site has the values any more.
fn finish<T: Drop + Send, J: Job<T>, K: Given<J> + Send>(
    gathered: Gathered<JobDiner<T, J, K>>,
    room: Vec<SiteDone<J, J::Fault>>,
    values: Arc<Values<T>, Global>,
    spare: Spare<T>,
    back: Vec<J>,
) -> Result<JobsDone<T, J>, JobsFault<T, J>>
    requires sites { (vec_len room ≡ 0) × (vec_len gathered.sites ≤ vec_capacity room) }
    requires spare { HasRoom spare (vec_len (arc_value values).cells) }
    ensures values { IfOk result (λ done. vec_len done.values ≡ vec_len (arc_value values).cells) }
    ensures edges { IfOk result (λ done. BelongInOrder done.values.items) }
    ensures left { IfOk result (λ done.
        (done.sites.items ≡ map (λ out. record {
          site = record { 0 = out.diner.site };
          job = out.diner.job;
          log = out.diner.log;
          failures = out.diner.failures;
          journal = out.journal;
          checks = out.checks;
        }) gathered.sites.items)
        × (done.forks ≡ gathered.forks)) }
    ensures kept { IfErr result (λ fault. fault.cause ≡ JobsCause.Kept) }
{
    let Gathered { forks, sites, .. } = gathered;
    let sites = leave_all(sites, room);
    let Spare { numbered, plain } = spare;
    let Some(values) = Arc::into_inner(values) else {
        return Err(fault_with(JobsCause::Kept, plain, back));
    };
    let found_open = values.found_open();
    let Some(values) = values.unlock(numbered) else {
        return Err(fault_with(JobsCause::Kept, plain, back));
    };
    Ok(JobsDone {
        values,
        sites,
        forks,
        found_open,
    })
}

// Moves what each site leaves into a list that has capacity for it.
fn leave_all<T: Drop + Send, J: Job<T>, K: Given<J> + Send>(
    outs: Vec<SiteOut<JobDiner<T, J, K>>>,
    mut sites: Vec<SiteDone<J, J::Fault>>,
) -> Vec<SiteDone<J, J::Fault>>
    requires empty { vec_len sites ≡ 0 }
    requires room { vec_len outs ≤ vec_capacity sites }
    ensures { result.items ≡ map (λ out. record {
      site = record { 0 = out.diner.site };
      job = out.diner.job;
      log = out.diner.log;
      failures = out.diner.failures;
      journal = out.journal;
      checks = out.checks;
    }) outs.items }
{
    for out in outs {
        let SiteOut {
            diner,
            journal,
            checks,
            ..
        } = out;
        sites.push_reserved(diner.leave(journal, checks));
    }
    sites
}

// Returns a fault with the values and the jobs.
fn fault_with<T: Drop, J: Drop>(cause: JobsCause, values: Vec<T>, jobs: Vec<J>) -> JobsFault<T, J>
    ensures cause { result.cause ≡ cause }
    ensures values { result.values ≡ values }
    ensures jobs { result.jobs ≡ jobs }
{
    JobsFault {
        cause,
        values,
        jobs,
    }
}

// Returns a fault with the values that the sites shared, and with the jobs. No site has the values any more.
fn fault_of_shared<T: Drop, J: Drop>(
    cause: JobsCause,
    values: Arc<Values<T>, Global>,
    spare: Spare<T>,
    jobs: Vec<J>,
) -> JobsFault<T, J>
    requires { HasRoom spare (vec_len (arc_value values).cells) }
    ensures { (result.cause ≡ JobsCause.Kept)
        ⊎ ((result.cause ≡ cause) × (vec_len result.values ≡ vec_len (arc_value values).cells)
        × (result.jobs ≡ jobs)) }
{
    match Arc::into_inner(values) {
        Some(values) => fault_of_locked(cause, values, spare, jobs),
        None => {
            let Spare { plain, .. } = spare;
            fault_with(JobsCause::Kept, plain, jobs)
        }
    }
}

// Returns a fault with the values, taken out of their locks, and with the jobs.
fn fault_of_locked<T: Drop, J: Drop>(
    cause: JobsCause,
    values: Values<T>,
    spare: Spare<T>,
    jobs: Vec<J>,
) -> JobsFault<T, J>
    requires { HasRoom spare (vec_len values.cells) }
    ensures { (result.cause ≡ JobsCause.Kept)
        ⊎ ((result.cause ≡ cause) × (vec_len result.values ≡ vec_len values.cells) × (result.jobs ≡ jobs)) }
{
    let Spare { numbered, plain } = spare;
    match values.unlock(numbered) {
        Some(values) => fault_with(cause, EdgeValue::bare(values, plain), jobs),
        None => fault_with(JobsCause::Kept, plain, jobs),
    }
}

/// Runs the jobs of a plan, as [`run_jobs_with`] does, in the way that suits most programs: with the options of
/// `RunOptions::default()`, so that a neighbour that has rung waits for at most 64 meals, and with letters over rings,
/// which is the faster kind of links.
pub fn run_jobs<T, J>(
    rt: &(impl Threads + Wait + Copy + Send + 'static),
    alloc: Global,
    plan: &Plan,
    values: Vec<T>,
    jobs: Vec<J>,
) -> Result<JobsDone<T, J>, JobsFault<T, J>>
where
    T: Drop + Send + 'static,
    J: Job<T> + 'static,
    requires expected { HaveJobSites J.expects plan.now jobs }
    ensures ok { IfOk result (IsDoneRun J.after (Manner.Patient 64) plan.now values jobs) }
    ensures fault { IfErr result (IsFaultOf plan.now values jobs) }
{
    run_jobs_with::<RingLane, T, J>(rt, alloc, plan, values, jobs, RunOptions::default())
}

/// [`run_jobs`] under a name that says which links it uses: rings.
pub fn on_rings<T, J>(
    rt: &(impl Threads + Wait + Copy + Send + 'static),
    alloc: Global,
    plan: &Plan,
    values: Vec<T>,
    jobs: Vec<J>,
) -> Result<JobsDone<T, J>, JobsFault<T, J>>
where
    T: Drop + Send + 'static,
    J: Job<T> + 'static,
    requires expected { HaveJobSites J.expects plan.now jobs }
    ensures ok { IfOk result (IsDoneRun J.after (Manner.Patient 64) plan.now values jobs) }
    ensures fault { IfErr result (IsFaultOf plan.now values jobs) }
{
    run_jobs::<T, J>(rt, alloc, plan, values, jobs)
}

/// [`run_jobs`] with letters over channels: an end of a link reports if the other end is gone.
pub fn on_channels<T, J>(
    rt: &(impl Threads + Wait + Copy + Send + 'static),
    alloc: Global,
    plan: &Plan,
    values: Vec<T>,
    jobs: Vec<J>,
) -> Result<JobsDone<T, J>, JobsFault<T, J>>
where
    T: Drop + Send + 'static,
    J: Job<T> + 'static,
    requires expected { HaveJobSites J.expects plan.now jobs }
    ensures ok { IfOk result (IsDoneRun J.after (Manner.Patient 64) plan.now values jobs) }
    ensures fault { IfErr result (IsFaultOf plan.now values jobs) }
{
    run_jobs_with::<ChannelLane, T, J>(rt, alloc, plan, values, jobs, RunOptions::default())
}

/// The values of jobs that share nothing: one for each edge, each of no bytes.
pub fn no_values(alloc: Global, plan: &Plan) -> Result<Vec<()>, AllocError>
    ensures { IfOk result (λ values. vec_len values ≡ edge_count plan.now) }
{
    Vec::from_elem(alloc, (), plan.edges() as usize)
}
