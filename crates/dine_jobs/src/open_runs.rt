//! Runs that are open: tasks arrive at their sites while they go on. They go in epochs, each of which is a run of the
//! plan, so they have no end that the plan gives.
ghost use Rattle.std.specs.Prelude.{◌≡◌, ◌≤◌, ◌↔◌, ℕ, All, IfOk, IfSome, IsNone, List, Some, length, map, slice_get};
ghost use Rattle.std.specs.Prelude.{vec_capacity, vec_len};
ghost use Rattle.dine_graph.specs.Plan.{site_count};
ghost use Rattle.dine_jobs.specs.Epochs.{HasEpochs};
ghost use Rattle.dine_jobs.specs.JobRuns.{IsDoneRun};
ghost use Rattle.dine_jobs.specs.Queues.{done_of};
ghost use Rattle.dine_jobs.specs.Workers.{DoesTasks, IsFreshWorker, turn_of};
ghost use Rattle.dine_jobs.specs.declared.executor.Worker.{Worker as Workers};
ghost use Rattle.dine_site_thread.specs.declared.diner.JobFault.{JobFault as TaskFault};

use crate::done::{JobsCause, JobsDone, JobsFault, SiteDone};
use crate::edge_value::EdgeValue;
use crate::executor::{Executor, Worker};
use crate::queue::Served;
use crate::runs::run_jobs_at;
use crate::task::Task;
use dine_graph::{EdgeId, Plan};
use dine_link::RingLane;
use dine_site_thread::{JobFault, Manner};
use dine_threads::{DEFAULT_PATIENCE, RunOptions};
use dine_token::Fork;
use std::alloc::{AllocError, Global};
use std::sync::Wait;
use std::thread::Threads;

/// What an epoch of an open run left, beside the values: what each site left, and the forks with their logs.
#[derive(Drop)]
pub struct EpochDone<J: Drop, F: Drop> {
    /// What each site left, by site.
    pub sites: Vec<SiteDone<J, F>>,
    /// The forks, by edge, each with its log of the epoch.
    pub forks: Vec<Fork>,
}

/// What is left of an open run.
#[derive(Drop)]
pub struct OpenDone<T: Drop> {
    /// The values, by edge, each with the number of its edge.
    pub values: Vec<EdgeValue<T>>,
    /// What became of the tasks that were accepted for each site, by site.
    pub served: Vec<Served>,
    /// How many tasks each site did in this run, by site.
    pub tasks: Vec<u64>,
    /// How many epochs there were, at least one.
    pub epochs: u64,
    /// How often a task asked for a value that was open already, as `JobsDone` has it.
    pub found_open: u64,
}

impl<T: Drop> OpenDone<T> {
    /// Returns the value of an edge. It is None exactly if there is no such edge.
    pub fn value(&self, edge: EdgeId) -> Option<&T>
        ensures value { IfSome result (λ value. (it : _)
            × (slice_get self.now.values.items edge.0 ≡ Some it) × (it.value ≡ value.now)) }
        ensures none { vec_len self.now.values ≤ edge.0 ↔ IsNone result }
    {
        match self.value_at(edge) {
            Some(it) => Some(&it.value),
            None => None,
        }
    }

    // Returns the value of an edge with its number. Split for the checker: see CONTRIBUTING, cost of proofs.
    fn value_at(&self, edge: EdgeId) -> Option<&EdgeValue<T>>
        ensures value { IfSome result (λ it. slice_get self.now.values.items edge.0 ≡ Some it.now) }
        ensures none { vec_len self.now.values ≤ edge.0 ↔ IsNone result }
    {
        self.values.get(edge.0 as usize)
    }
}

/// Runs the sites of a plan until the executor is closed and each site has done its tasks: [`run_open_with`] with the
/// patience of `RunOptions::default()`. Of the epochs nothing is kept.
///
/// # Errors
///
/// Those of [`run_open_with`].
pub fn run_open<T, K, O, R>(
    rt: &R,
    alloc: Global,
    plan: &Plan,
    values: Vec<T>,
    executor: &Executor<K, O>,
) -> Result<OpenDone<T>, JobsFault<T, Worker<K, O, R>>>
where
    T: Drop + Send + 'static,
    O: Drop + Send + 'static,
    K: Task<T, O> + 'static,
    R: Threads + Wait + Copy + Drop + Send + 'static,
    ensures ok { IfOk result (λ done. (n : ℕ)
        × (turns : List ℕ) × (ended : List ℕ)
        × HasEpochs {J = Workers K O R} {F = TaskFault} (IsFreshWorker 64) turn_of (DoesTasks K.gives)
        (λ each left called next. Unit {0}) (Manner.OnCall 1) plan.now n (tt {0}) turns values ended done.values
        × (map done_of done.served.items ≡ ended)) }
{
    run_open_with(rt, alloc, plan, values, executor, DEFAULT_PATIENCE, |_| {})
}

/// Runs the sites of a plan until the executor is closed and each site has done its tasks, over rings. The executor is
/// one for this plan, whose sites resign, and no other run has it meanwhile. A site without a task thinks, and answers
/// its neighbours at once. In one meal it does the tasks that wait, at most `patience` of them, or one if that is 0,
/// and before each meal it looks for requests. So a neighbour that has rung for its request waits for at most
/// `patience` tasks of a site. It may wait.
///
/// The run goes in epochs. One is over once a site has eaten as many meals as the plan gives it jobs, or once the
/// executor is closed and no task is left. Then the sites end, and the next epoch begins with new forks, and with the
/// values and the tasks that are left. In each epoch a site that has a task does one at least. At the end of each epoch
/// `each` is called with what it left, which it may keep or drop. Meanwhile no task is done.
///
/// # Errors
///
/// Those of [`crate::run_jobs_with`], in the first epoch that fails. The executor is closed then, too, and has the
/// tasks that no site has begun. `Executor` if another run took tasks of the executor, with the values as they are
/// then.
pub fn run_open_with<T, K, O, R, F>(
    rt: &R,
    alloc: Global,
    plan: &Plan,
    values: Vec<T>,
    executor: &Executor<K, O>,
    patience: u32,
    mut each: F,
) -> Result<OpenDone<T>, JobsFault<T, Worker<K, O, R>>>
where
    T: Drop + Send + 'static,
    O: Drop + Send + 'static,
    K: Task<T, O> + 'static,
    R: Threads + Wait + Copy + Drop + Send + 'static,
    F: FnMut(EpochDone<Worker<K, O, R>, JobFault>) + Drop,
    requires callable { F.IsAlwaysCallable each }
    ensures ok { IfOk result (λ done. (n : ℕ)
        × (turns : List ℕ) × (ended : List ℕ)
        × HasEpochs (IsFreshWorker patience) turn_of (DoesTasks K.gives) F.step (Manner.OnCall 1) plan.now n each turns
        values ended done.values × (map done_of done.served.items ≡ ended)) }
{
    let mut values = values;
    let (mut epochs, mut found_open) = (0u64, 0u64);
    let (Ok(mut tasks), Ok(mut turns)) = (
        zeros(alloc, plan.sites()),
        executor.turns(rt, alloc, plan),
    ) else {
        return Err(refused(rt, executor, alloc, values));
    };
    for _ in rt.forever() {
        let first = turns.as_slice();
        let (done, spare, ended) = run_epoch(rt, alloc, plan, values, executor, patience, first)?;
        let JobsDone {
            values: back,
            sites,
            forks,
            found_open: found,
        } = done;
        epochs = epochs.saturating_add(1);
        found_open = found_open.saturating_add(found);
        count(tasks.as_mut_slice(), sites.as_slice());
        each(EpochDone { sites, forks });
        if !executor.begin_epoch(rt) {
            let done = OpenDone {
                values: back,
                served: Vec::new(alloc),
                tasks,
                epochs,
                found_open,
            };
            let last = ended.as_slice();
            return with_served(rt, alloc, executor, last, spare, done);
        }
        values = EdgeValue::bare(back, spare);
        turns = ended;
    }
    unreachable!()
}

// Returns what is left of a run, with what became of the tasks of each site. Its workers did all before these turns.
//
// # Errors
//
// Those of `served`, with the values.
fn with_served<T, K, O, R>(
    rt: &R,
    alloc: Global,
    executor: &Executor<K, O>,
    turns: &[u64],
    spare: Vec<T>,
    done: OpenDone<T>,
) -> Result<OpenDone<T>, JobsFault<T, Worker<K, O, R>>>
where
    T: Drop,
    O: Drop,
    K: Drop,
    R: Wait + Drop,
    requires empty { vec_len spare ≡ 0 }
    requires room { vec_len done.values ≤ vec_capacity spare }
    ensures ok { IfOk result (λ left. (left.values ≡ done.values) × (map done_of left.served.items ≡ turns.now)) }
{
    let OpenDone {
        values,
        tasks,
        epochs,
        found_open,
        ..
    } = done;
    match served(rt, alloc, executor, turns) {
        Ok(served) => Ok(OpenDone {
            values,
            served,
            tasks,
            epochs,
            found_open,
        }),
        Err(cause) => Err(JobsFault {
            cause,
            values: EdgeValue::bare(values, spare),
            jobs: Vec::new(alloc),
        }),
    }
}

// Closes the executor, and returns what became of the tasks of each site, if all that were begun have a turn before
// these.
//
// # Errors
//
// `Executor` or `Memory`.
fn served<K: Drop, O: Drop, R: Wait>(
    rt: &R,
    alloc: Global,
    executor: &Executor<K, O>,
    turns: &[u64],
) -> Result<Vec<Served>, JobsCause>
    ensures done { IfOk result (λ served. map done_of served.items ≡ turns.now) }
{
    executor.close(rt);
    match executor.served(rt, alloc, turns) {
        Ok(Some(served)) => Ok(served),
        Ok(None) => Err(JobsCause::Executor),
        Err(_) => Err(JobsCause::Memory),
    }
}

// Runs one epoch, whose workers begin with these turns. Returns what it left, a list that has capacity for the values,
// and the turns at which its workers ended.
fn run_epoch<T, K, O, R>(
    rt: &R,
    alloc: Global,
    plan: &Plan,
    values: Vec<T>,
    executor: &Executor<K, O>,
    patience: u32,
    turns: &[u64],
) -> Result<(JobsDone<T, Worker<K, O, R>>, Vec<T>, Vec<u64>), JobsFault<T, Worker<K, O, R>>>
where
    T: Drop + Send + 'static,
    O: Drop + Send + 'static,
    K: Task<T, O> + 'static,
    R: Threads + Wait + Copy + Drop + Send + 'static,
    requires many { length turns.now ≡ site_count plan.now }
    ensures ran { IfOk result (λ it. (workers : _) × All (IsFreshWorker patience) workers.items
        × (map turn_of workers.items ≡ turns.now)
        × IsDoneRun (DoesTasks K.gives) (Manner.OnCall 1) plan.now values workers it.0) }
    ensures ended { IfOk result (λ it. it.2.items ≡ map (λ site. turn_of site.job) it.0.sites.items) }
    ensures ended_many { IfOk result (λ it. vec_len it.2 ≡ site_count plan.now) }
    ensures spare { IfOk result (λ it. (vec_len it.1 ≡ 0) × (vec_len it.0.values ≤ vec_capacity it.1)) }
{
    let (Ok(workers), Ok(spare), Ok(ended)) = (
        executor.workers(rt, alloc, plan, patience, turns),
        Vec::with_capacity(alloc, plan.edges() as usize),
        Vec::with_capacity(alloc, plan.sites() as usize),
    ) else {
        return Err(refused(rt, executor, alloc, values));
    };
    // A site looks for requests before each meal, and a meal has at most `patience` tasks.
    let options = RunOptions::on_call(1);
    let ran = run_jobs_at::<RingLane, T, Worker<K, O, R>>(
        rt,
        alloc,
        plan,
        values,
        workers,
        executor.doorbells(),
        options,
    );
    match ran {
        Ok(done) => {
            let ended = turns_left(done.sites.as_slice(), ended);
            Ok((done, spare, ended))
        }
        Err(fault) => {
            executor.close(rt);
            Err(fault)
        }
    }
}

// Closes the executor, and returns that an allocation failed, with the values.
fn refused<T, K, O, R>(
    rt: &R,
    executor: &Executor<K, O>,
    alloc: Global,
    values: Vec<T>,
) -> JobsFault<T, Worker<K, O, R>>
where
    T: Drop,
    O: Drop,
    K: Drop,
    R: Wait + Drop,
    ensures cause { result.cause ≡ JobsCause.Memory }
    ensures values { result.values ≡ values }
{
    executor.close(rt);
    JobsFault {
        cause: JobsCause::Memory,
        values,
        jobs: Vec::new(alloc),
    }
}

// Returns a zero for each site.
fn zeros(alloc: Global, sites: u32) -> Result<Vec<u64>, AllocError> {
    Vec::from_elem(alloc, 0u64, sites as usize)
}

// Puts the turn of the next task of each worker into a list that has capacity for them.
fn turns_left<K: Drop, O: Drop, R: Drop>(
    sites: &[SiteDone<Worker<K, O, R>, JobFault>],
    mut turns: Vec<u64>,
) -> Vec<u64>
    requires empty { vec_len turns ≡ 0 }
    requires room { length sites.now ≤ vec_capacity turns }
    ensures { result.items ≡ map (λ site. turn_of site.job) sites.now }
{
    for site in 0..sites.len() {
        turns.push_reserved(sites[site].job.turn());
    }
    turns
}

// Adds to the number of each site how many tasks its worker did.
fn count<K: Drop, O: Drop, R: Drop>(
    tasks: &mut [u64],
    sites: &[SiteDone<Worker<K, O, R>, JobFault>],
) {
    for (tasks, site) in tasks.iter_mut().zip(sites.iter()) {
        *tasks = tasks.saturating_add(site.job.tasks());
    }
}
