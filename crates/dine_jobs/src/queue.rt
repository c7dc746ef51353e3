//! The queue of a site: the tasks that it has still to begin.
ghost use Rattle.std.specs.Prelude.{◌≡◌, ◌≢◌, ◌+◌, ◌^◌, ◌<◌, ◌∷◌, ◌++◌, ◌&&◌, ◌||◌, ◌⊎◌, [], IfErr, IfNone, IfOk};
ghost use Rattle.std.specs.Prelude.{IfSome, IsNone, OnErr, OnOk, Some, false, length, map, nat_lt, not, true};

use crate::begun::{Begun, DoneTasks};
use std::alloc::Global;
use std::collections::VecDeque;
use std::error::Error;
use std::{fmt, mem};

/// Why an executor did not take a task, which is handed back.
#[derive(Drop)]
pub enum SubmitError<K: Drop> {
    /// The executor is closed.
    Closed(K),
    /// As many tasks wait for the site as may wait, or the plan gives the site no job, or its queue has accepted
    /// 2^64 - 1 tasks.
    Full(K),
    /// The plan has no such site.
    NoSite(K),
    /// An allocation failed.
    Memory(K),
}

impl<K: Drop> SubmitError<K> {
    ghost use Rattle.dine_jobs.specs.Queues.{task_in};

    /// Returns the task.
    pub fn into_task(self) -> K
        ensures { result ≡ task_in self }
    {
        match self {
            SubmitError::Closed(task)
            | SubmitError::Full(task)
            | SubmitError::NoSite(task)
            | SubmitError::Memory(task) => task,
        }
    }
}

/// `the executor is closed`, `the queue is full`, `the plan has no such site` or `out of memory`.
impl<K: Drop> fmt::Display for SubmitError<K> {
    ghost use Rattle.dine_jobs.specs.Queues.{submit_error_words};

    ghost output = { λ error. Some (submit_error_words error) };

    fn fmt<W: fmt::Write>(&self, f: &mut fmt::Formatter<W>) -> fmt::Result {
        match self {
            SubmitError::Closed(_) => f.write_str("the executor is closed"),
            SubmitError::Full(_) => f.write_str("the queue is full"),
            SubmitError::NoSite(_) => f.write_str("the plan has no such site"),
            SubmitError::Memory(_) => f.write_str("out of memory"),
        }
    }
}

/// The same words, since a task need not be printed.
impl<K: Drop> fmt::Debug for SubmitError<K> {
    fn fmt<W: fmt::Write>(&self, f: &mut fmt::Formatter<W>) -> fmt::Result {
        fmt::Display::fmt(self, f)
    }
}

impl<K: Drop> Error for SubmitError<K> {}

/// What became of the tasks that were accepted for a site, once its executor is closed and none of them waits.
#[derive(Drop)]
pub struct Served {
    accepted: u64,
    done: u64,
    handed_back: u64,
    pub ghost all: { accepted ≡ done + handed_back },
}

impl Served {
    /// Returns how many tasks were accepted since the executor was opened.
    pub fn accepted(&self) -> u64
        ensures { result ≡ self.now.accepted }
    {
        let Served { accepted, .. } = self;
        *accepted
    }

    /// Returns how many of them were done.
    pub fn done(&self) -> u64
        ensures { result ≡ self.now.done }
    {
        let Served { done, .. } = self;
        *done
    }

    /// Returns how many of them were handed back by [`Executor::stop`](crate::Executor::stop).
    pub fn handed_back(&self) -> u64
        ensures { result ≡ self.now.handed_back }
    {
        let Served { handed_back, .. } = self;
        *handed_back
    }
}

// The tasks that a site has still to begin, how many tasks it accepted, and how many of these were begun and how many
// handed back. How many may wait, whether the executor is closed, whether the epoch is over, and whether the site
// thinks and has to be rung.
//
// These facts hold whenever the lock of the queue is free, whoever calls it. Each task that was accepted waits, was
// begun, or was handed back. None is handed back while more may come. Tasks come in at one end and are begun at the
// other, so a task is begun after just those that were accepted before it: its turn is the number of those.
#[derive(Drop)]
pub(crate) struct Queue<K: Drop> {
    tasks: VecDeque<K>,
    accepted: u64,
    begun: u64,
    handed_back: u64,
    capacity: u32,
    closed: bool,
    over: bool,
    waits: bool,
    ghost all: { accepted ≡ begun + length tasks.items + handed_back },
    ghost still: { closed ≡ false → handed_back ≡ 0 },
}

impl<K: Drop> Queue<K> {
    ghost use Rattle.dine_jobs.specs.Queues.{IsAnswered, IsClosed, IsEnded, IsPut, IsTaken, MayRefuse, seen_queue};
    ghost use Rattle.dine_jobs.specs.Queues.{task_in};

    pub(crate) fn open(alloc: Global, capacity: u32) -> Queue<K> {
        Queue {
            tasks: VecDeque::new(alloc),
            accepted: 0,
            begun: 0,
            handed_back: 0,
            capacity,
            closed: false,
            over: false,
            waits: false,
        }
    }

    // Accepts the task, and returns whether the site has to be rung: the step `Submits` of a door in `dine_waking`.
    pub(crate) fn put(&mut self, task: K) -> Result<bool, SubmitError<K>>
        ensures door { IfOk result (λ rings. IsPut (seen_queue self.old) (seen_queue self.new) rings) }
        ensures tasks { OnOk result (self.new.tasks.items ≡ self.old.tasks.items ++ task ∷ []) }
        ensures accepted { OnOk result (self.new.accepted ≡ self.old.accepted + 1) }
        ensures begun { self.new.begun ≡ self.old.begun }
        ensures closed { self.new.closed ≡ self.old.closed }
        ensures over { self.new.over ≡ self.old.over }
        ensures refused { IfErr result (λ refused. (task_in refused ≡ task)
            × MayRefuse refused self.old.closed (length self.old.tasks.items) self.old.capacity self.old.accepted) }
        ensures refused_tasks { IfErr result (λ _. self.new.tasks.items ≡ self.old.tasks.items) }
        ensures refused_waits { IfErr result (λ _. self.new.waits ≡ self.old.waits) }
    {
        if self.closed {
            return Err(SubmitError::Closed(task));
        }
        if self.tasks.len() >= self.capacity as usize || self.accepted == u64::MAX {
            return Err(SubmitError::Full(task));
        }
        match self.tasks.push_back(task) {
            Ok(()) => {
                self.accepted += 1;
                Ok(mem::replace(&mut self.waits, false))
            }
            Err(failed) => Err(SubmitError::Memory(failed.value)),
        }
    }

    // Closes the queue, and returns whether the site has to be rung: the step `Closes`.
    pub(crate) fn close(&mut self) -> bool
        ensures door { IsClosed (seen_queue self.old) (seen_queue self.new) result }
        ensures tasks { self.new.tasks ≡ self.old.tasks }
        ensures begun { self.new.begun ≡ self.old.begun }
    {
        self.closed = true;
        mem::replace(&mut self.waits, false)
    }

    // Ends the epoch, and returns whether the site has to be rung: the step `Ends`. Its tasks wait for the next epoch.
    pub(crate) fn end_epoch(&mut self) -> bool
        ensures door { IsEnded (seen_queue self.old) (seen_queue self.new) result }
        ensures tasks { self.new.tasks ≡ self.old.tasks }
        ensures begun { self.new.begun ≡ self.old.begun }
    {
        self.over = true;
        mem::replace(&mut self.waits, false)
    }

    // Begins an epoch, and returns whether the one before was ended while something was left to do: a task, or that the
    // queue is open.
    pub(crate) fn begin_epoch(&mut self) -> bool
        ensures tasks { self.new.tasks ≡ self.old.tasks }
        ensures begun { self.new.begun ≡ self.old.begun }
        ensures closed { self.new.closed ≡ self.old.closed }
        ensures over { self.new.over ≡ false }
        ensures waits { self.new.waits ≡ self.old.waits }
        ensures left { result
            ≡ (self.old.over && (not self.old.closed || nat_lt 0 (length self.old.tasks.items))) }
    {
        let was_over = mem::replace(&mut self.over, false);
        was_over && (!self.closed || !self.tasks.is_empty())
    }

    // Whether the site is called: to a task, or to its end. If not, it is to be rung for the next of these. This is the
    // step `Asks`.
    pub(crate) fn calls(&mut self) -> bool
        ensures door { IsAnswered (seen_queue self.old) (seen_queue self.new) result }
        ensures tasks { self.new.tasks ≡ self.old.tasks }
        ensures begun { self.new.begun ≡ self.old.begun }
    {
        let calls = self.closed || self.over || !self.tasks.is_empty();
        self.waits = !calls;
        calls
    }

    pub(crate) fn begun(&self) -> u64
        ensures { result ≡ self.now.begun }
    {
        self.begun
    }

    // Returns what became of its tasks, if it is closed, none waits, and all that were begun have a turn before this
    // one.
    pub(crate) fn served(&self, turn: u64) -> Option<Served>
        ensures closed { IfSome result (λ _. (self.now.closed ≡ true) × (self.now.tasks.items ≡ [])) }
        ensures done { IfSome result (λ served. (served.done ≡ turn) × (served.done ≡ self.now.begun)) }
        ensures counts { IfSome result (λ served. (served.accepted ≡ self.now.accepted)
            × (served.handed_back ≡ self.now.handed_back)) }
    {
        if !self.closed || !self.tasks.is_empty() || self.begun != turn {
            return None;
        }
        Some(Served {
            accepted: self.accepted,
            done: self.begun,
            handed_back: self.handed_back,
        })
    }

    // Takes the first task out, if the epoch goes on or if it is the first one of the site in it, and if all tasks
    // before it are done: the step `Begins`.
    pub(crate) fn next(&mut self, is_first: bool, done: &DoneTasks) -> Option<Begun<K>>
        ensures some { IfSome result (λ begun. self.old.tasks.items ≡ begun.task ∷ self.new.tasks.items) }
        ensures turn { IfSome result (λ begun. (begun.turn.value ≡ done.now.count)
            × (begun.turn.value ≡ self.old.begun)) }
        ensures begun { IfSome result (λ _. self.new.begun ≡ self.old.begun + 1) }
        ensures door { IfSome result (λ _. IsTaken (seen_queue self.old) (seen_queue self.new)) }
        ensures over { self.old.over ≡ true → is_first ≡ false → IsNone result }
        ensures none { IfNone result ((((self.old.over ≡ true) × (is_first ≡ false)) ⊎ (self.old.tasks.items ≡ []))
            ⊎ (self.old.begun ≢ done.now.count)) }
        ensures left { IfNone result (self.new.tasks.items ≡ self.old.tasks.items) }
        ensures others { (self.new.closed ≡ self.old.closed) × (self.new.over ≡ self.old.over)
            × (self.new.waits ≡ self.old.waits) }
    {
        if (self.over && !is_first) || self.begun != done.count() {
            return None;
        }
        let first = Begun::new(self.tasks.pop_front()?, self.begun);
        self.begun += 1;
        Some(first)
    }

    // Takes the last task out, to hand it back, whether the epoch goes on or not. There is none before the queue is
    // closed.
    pub(crate) fn take_back(&mut self) -> Option<K>
        ensures some { IfSome result (λ task. self.old.tasks.items ≡ self.new.tasks.items ++ task ∷ []) }
        ensures none { IfNone result ((self.old.closed ≡ false) ⊎ (self.old.tasks.items ≡ [])) }
        ensures begun { self.new.begun ≡ self.old.begun }
    {
        if !self.closed {
            return None;
        }
        let last = self.tasks.pop_back()?;
        self.handed_back += 1;
        Some(last)
    }
}
