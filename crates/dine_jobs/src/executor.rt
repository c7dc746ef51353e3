//! Executors, which take tasks for the sites of a run while it goes on.
ghost use Rattle.std.specs.Prelude.{◌≡◌, ◌≤◌, ◌+◌, All, IfErr, IfOk, IfSome, is_ok, length, map, nat_lt, vec_len};
ghost use Rattle.dine_graph.specs.Plan.{site_count};
ghost use Rattle.dine_jobs.specs.Queues.{task_in};

use crate::begun::{Begun, DoneTasks, Submitted};
use crate::job::Job;
use crate::queue::{Queue, Served, SubmitError};
use crate::table::Table;
use crate::task::Task;
use crate::ticket::{Ticket, open_ticket};
use crossbeam_channel::Sender;
use dine_graph::{MAX_SITES, Plan, SiteId};
use dine_link::Doorbell;
use dine_site_thread::JobFault;
use std::alloc::{AllocError, Global};
use std::sync::{Arc, Mutex, Wait};

// The queues of all sites, and their doorbells.
#[derive(Drop)]
struct Queues<K: Drop, O: Drop> {
    queues: Vec<Mutex<Queue<Submitted<K, O>>>>,
    doorbells: Vec<Doorbell>,
}

impl<K: Drop, O: Drop> Queues<K, O> {
    fn ring<R: Wait>(&self, rt: &R, site: usize) {
        if let Some(doorbell) = self.doorbells.get(site) {
            doorbell.ring(rt);
        }
    }

    // Ends the epoch: each site is called to its end.
    fn end_epoch<R: Wait>(&self, rt: &R) {
        for (site, queue) in self.queues.iter().enumerate() {
            let rings = queue.lock(rt).end_epoch();
            if rings {
                self.ring(rt, site);
            }
        }
    }
}

/// A queue of tasks for each site of a run. Any thread that has a share of it may submit tasks, before the run and
/// while it goes on, until it is closed.
#[derive(Drop)]
pub struct Executor<K: Drop, O: Drop> {
    shared: Arc<Queues<K, O>, Global>,
}

impl<K: Drop, O: Drop> Executor<K, O> {
    ghost use Rattle.dine_jobs.specs.Queues.{done_of};
    ghost use Rattle.dine_jobs.specs.Workers.{IsFreshWorker, turn_of};

    /// Opens an executor for the sites of a plan, all of which have to resign. Any number of tasks may wait for a site,
    /// except for one to which the plan gives no job.
    ///
    /// # Errors
    ///
    /// `AllocError` if an allocation fails.
    pub fn open(alloc: Global, plan: &Plan) -> Result<Executor<K, O>, AllocError> {
        Executor::bounded(alloc, plan, u32::MAX)
    }

    /// Opens an executor, as [`Executor::open`] does, in which at most `capacity` tasks wait for a site at a time. One
    /// more is handed back as `Full`.
    ///
    /// # Errors
    ///
    /// `AllocError` if an allocation fails.
    pub fn bounded(
        alloc: Global,
        plan: &Plan,
        capacity: u32,
    ) -> Result<Executor<K, O>, AllocError> {
        let mut queues = Vec::new(alloc);
        let mut doorbells = Vec::new(alloc);
        for site in 0..plan.sites() {
            let capacity = if plan.jobs(site) == 0 { 0 } else { capacity };
            queues.push(Mutex::new(Queue::open(alloc, capacity)))?;
            doorbells.push(Doorbell::open(alloc)?)?;
        }
        let shared = Arc::new(alloc, Queues { queues, doorbells })?;
        Ok(Executor { shared })
    }

    /// Returns the same executor, for another thread.
    ///
    /// # Errors
    ///
    /// `AllocError` if there are too many shares.
    pub fn share(&self) -> Result<Executor<K, O>, AllocError> {
        let shared = Arc::try_clone(&self.shared)?;
        Ok(Executor { shared })
    }

    /// Takes a task for a site, which does its tasks in the order in which they were taken. What the task returns is
    /// dropped. It may wait, but not for the task.
    ///
    /// # Errors
    ///
    /// `Closed`, `Full`, `NoSite` or `Memory`, each with the task.
    pub fn execute<R: Wait>(&self, rt: &R, site: SiteId, task: K) -> Result<(), SubmitError<K>>
        ensures handed_back { IfErr result (λ refused. task_in refused ≡ task) }
    {
        self.put(rt, site, task, None)
    }

    /// Takes a task for a site, as [`Executor::execute`] does, and returns a ticket for what the task returns.
    ///
    /// # Errors
    ///
    /// `Closed`, `Full`, `NoSite` or `Memory`, each with the task.
    pub fn submit<R: Wait>(
        &self,
        rt: &R,
        alloc: Global,
        site: SiteId,
        task: K,
    ) -> Result<Ticket<O>, SubmitError<K>>
        ensures handed_back { IfErr result (λ refused. task_in refused ≡ task) }
    {
        let Ok((reply, mine)) = open_ticket(alloc) else {
            return Err(SubmitError::Memory(task));
        };
        match self.put(rt, site, task, Some(reply)) {
            Ok(()) => Ok(mine),
            Err(refused) => Err(refused),
        }
    }

    fn put<R: Wait>(
        &self,
        rt: &R,
        site: SiteId,
        task: K,
        reply: Option<Sender<O, Global>>,
    ) -> Result<(), SubmitError<K>>
        ensures handed_back { IfErr result (λ refused. task_in refused ≡ task) }
    {
        let Some(queue) = self.shared.queues.get(site.0 as usize) else {
            return Err(SubmitError::NoSite(task));
        };
        let put = queue.lock(rt).put(Submitted { task, reply });
        match put {
            Ok(rings) => {
                if rings {
                    self.shared.ring(rt, site.0 as usize);
                }
                Ok(())
            }
            Err(refused) => Err(without_reply(refused)),
        }
    }

    /// Closes the executor: it takes no task any more. Each site does the tasks that it has left, and ends. It may
    /// wait, but not for the tasks.
    pub fn close<R: Wait>(&self, rt: &R) {
        for (site, queue) in self.shared.queues.iter().enumerate() {
            let rings = queue.lock(rt).close();
            if rings {
                self.shared.ring(rt, site);
            }
        }
    }

    /// Closes the executor, and takes back each task that no site has begun, with its site, by site and in order. They
    /// are the last ones that were accepted for their site. Their tickets report that nothing will come. It may wait,
    /// but not for the tasks that have begun.
    ///
    /// # Errors
    ///
    /// `AllocError` if an allocation fails. The executor is closed then, and the tasks that it has not taken back are
    /// done.
    pub fn stop<R: Wait>(&self, rt: &R, alloc: Global) -> Result<Vec<(SiteId, K)>, AllocError> {
        self.close(rt);
        let mut left = Vec::new(alloc);
        for (site, queue) in (0..MAX_SITES).zip(self.shared.queues.iter()) {
            let first = left.len();
            take_all_back(rt, SiteId(site), queue, &mut left)?;
            left[first..].reverse();
        }
        Ok(left)
    }

    // Begins an epoch. Returns whether the one before was ended while something was left to do: a task, or that the
    // executor is open.
    pub(crate) fn begin_epoch<R: Wait>(&self, rt: &R) -> bool {
        let mut is_left = false;
        for queue in self.shared.queues.iter() {
            is_left |= queue.lock(rt).begin_epoch();
        }
        is_left
    }

    // Returns the doorbells, by site.
    pub(crate) fn doorbells(&self) -> &[Doorbell] {
        self.shared.doorbells.as_slice()
    }

    // Returns how many tasks of each site of the plan were begun.
    pub(crate) fn turns<R: Wait>(
        &self,
        rt: &R,
        alloc: Global,
        plan: &Plan,
    ) -> Result<Vec<u64>, AllocError>
        ensures many { IfOk result (λ turns. vec_len turns ≡ site_count plan.now) }
    {
        let mut turns = Vec::new(alloc);
        for site in 0..plan.sites() {
            turns.push(match self.shared.queues.get(site as usize) {
                Some(queue) => queue.lock(rt).begun(),
                None => 0,
            })?;
        }
        Ok(turns)
    }

    // Returns what became of the tasks of each site, by site, if its queue is closed, none waits there, and all that
    // were begun have a turn before these.
    pub(crate) fn served<R: Wait>(
        &self,
        rt: &R,
        alloc: Global,
        turns: &[u64],
    ) -> Result<Option<Vec<Served>>, AllocError>
        ensures done { IfOk result (λ all. IfSome all (λ served. map done_of served.items ≡ turns.now)) }
    {
        let mut all = Vec::new(alloc);
        for site in 0..turns.len() {
            match self.served_at(rt, site, turns[site]) {
                Some(served) => all.push(served)?,
                None => return Ok(None),
            }
        }
        Ok(Some(all))
    }

    fn served_at<R: Wait>(&self, rt: &R, site: usize, turn: u64) -> Option<Served>
        ensures { IfSome result (λ served. done_of served ≡ turn) }
    {
        let queue = self.shared.queues.get(site)?;
        queue.lock(rt).served(turn)
    }

    // Returns a worker for each site of the plan, each of which does at most `most` tasks in a meal, or one. The first
    // task that it does is the one with this turn.
    pub(crate) fn workers<R: Wait + Copy + Drop>(
        &self,
        rt: &R,
        alloc: Global,
        plan: &Plan,
        most: u32,
        turns: &[u64],
    ) -> Result<Vec<Worker<K, O, R>>, AllocError>
        requires many { length turns.now ≡ site_count plan.now }
        ensures fresh { IfOk result (λ workers. All (IsFreshWorker most) workers.items) }
        ensures turns { IfOk result (λ workers. map turn_of workers.items ≡ turns.now) }
    {
        let mut workers = Vec::new(alloc);
        for site in 0..plan.sites() {
            let shared = Arc::try_clone(&self.shared)?;
            let before = turns[site as usize];
            workers.push(Worker {
                shared,
                site,
                jobs: plan.jobs(site),
                most,
                before,
                done: DoneTasks::before(before),
                rt: *rt,
            })?;
        }
        Ok(workers)
    }
}

// Takes back each task of the queue, the last one first.
fn take_all_back<K: Drop, O: Drop, R: Wait>(
    rt: &R,
    site: SiteId,
    queue: &Mutex<Queue<Submitted<K, O>>>,
    left: &mut Vec<(SiteId, K)>,
) -> Result<(), AllocError>
    ensures longer { vec_len left.old ≤ vec_len left.new }
{
    for _ in rt.forever() {
        left.reserve(1)?;
        let last = queue.lock(rt).take_back();
        match last {
            Some(Submitted { task, reply: _ }) => left.push_reserved((site, task)),
            None => break,
        }
    }
    Ok(())
}

// Returns the refusal with the task alone.
fn without_reply<K: Drop, O: Drop>(refused: SubmitError<Submitted<K, O>>) -> SubmitError<K>
    ensures { task_in result ≡ (task_in refused).task }
{
    match refused {
        SubmitError::Closed(it) => SubmitError::Closed(it.task),
        SubmitError::Full(it) => SubmitError::Full(it.task),
        SubmitError::NoSite(it) => SubmitError::NoSite(it.task),
        SubmitError::Memory(it) => SubmitError::Memory(it.task),
    }
}

/// Does the tasks that an executor takes for a site, in their order: in each meal those that wait, up to a number. Once
/// the executor is closed and no task is left, or once the epoch is over, its next meal fails: a site that resigns
/// quits then. After the last meal that the plan gives its site the epoch is over. In the first meal of an epoch it
/// does a task in any case, if it has one, so each site with tasks gets on.
#[derive(Drop)]
pub struct Worker<K: Drop, O: Drop, R: Drop> {
    shared: Arc<Queues<K, O>, Global>,
    site: u32,
    jobs: u32,
    // How many tasks it does in one meal at most; with 0 it is one.
    most: u32,
    // How many tasks of its site were done before its epoch, and how many since the executor was opened.
    before: u64,
    done: DoneTasks,
    rt: R,
    ghost since: { before ≤ done.count },
}

impl<K: Drop, O: Drop, R: Drop> Worker<K, O, R> {
    /// Returns how many tasks it did in its epoch.
    pub fn tasks(&self) -> u64
        ensures { result + self.now.before ≡ self.now.done.count }
    {
        self.done.count() - self.before
    }

    // Returns how many tasks of its site were done since the executor was opened: the turn of its next one.
    pub(crate) fn turn(&self) -> u64
        ensures { result ≡ self.now.done.count }
    {
        self.done.count()
    }
}

impl<K: Drop, O: Drop, R: Wait + Drop> Worker<K, O, R> {
    // Takes the first task of its site, if there is one and if the epoch goes on or this is the first of its meals. It
    // is the one whose turn it is.
    fn next(&self, is_first: bool) -> Option<Begun<Submitted<K, O>>>
        ensures turn { IfSome result (λ task. task.turn.value ≡ self.now.done.count) }
    {
        let queue = self.shared.queues.get(self.site as usize)?;
        queue.lock(&self.rt).next(is_first, &self.done)
    }

    // Ends a meal in which this many tasks were done, and the epoch too if this is the last meal of its site in it.
    //
    // # Errors
    //
    // There was no task.
    fn end_meal(&self, k: u32, count: u32) -> Result<(), JobFault>
        ensures { is_ok result ≡ nat_lt 0 count }
    {
        if count == 0 {
            return Err(JobFault);
        }
        if k >= self.jobs {
            self.shared.end_epoch(&self.rt);
        }
        Ok(())
    }
}

impl<T: Drop, O: Drop + Send, K: Task<T, O>, R: Wait + Drop + Send> Job<T> for Worker<K, O, R> {
    ghost use Rattle.dine_jobs.specs.Workers.{DoesTasks};

    type Fault = JobFault;

    // A call that goes well does one task at least, and at most as many as one meal may have. One that fails does none.
    ghost after = { DoesTasks K.gives };

    fn is_called<W: Wait>(&self, rt: &W) -> bool {
        match self.shared.queues.get(self.site as usize) {
            Some(queue) => queue.lock(rt).calls(),
            None => true,
        }
    }

    fn run(&mut self, table: &Table<'_, T>) -> Result<(), JobFault> {
        let most = self.most.max(1);
        for count in 0..most {
            let Some(task) = self.next(count == 0 && table.k() == 1) else {
                return self.end_meal(table.k(), count);
            };
            task.run(&self.rt, table, &mut self.done);
        }
        self.end_meal(table.k(), most)
    }
}
