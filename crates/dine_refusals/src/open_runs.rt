// An open run of a pair, whose tasks are submitted before it begins.
use crate::calls::Outcome;
use crate::runs::outcome_of_jobs;
use dine_graph::{Plan, SiteId};
use dine_jobs::{Executor, SubmitError, Table, Task, run_open_with};
use dine_plan::PlanBuilder;
use std::alloc::{AllocError, Global};
use std::sync::atomic::{AtomicU32, Ordering};
use std::sync::{Arc, Wait};
use std::thread::Threads;

// How many tasks are submitted, for the two sites in turn. Each site may do two in an epoch.
const TASKS: u32 = 6;

// How many of them have no ticket.
const EXECUTED: u32 = 2;

// A task that counts itself.
#[derive(Drop)]
struct Bid {
    number: u32,
    done: Arc<AtomicU32, Global>,
}

impl Task<u32, u32> for Bid {
    fn run(self, _table: &Table<'_, u32>) -> u32 {
        let _ = self.done.fetch_add(1, Ordering::SeqCst);
        self.number
    }
}

// Returns a plan of two sites that may do two jobs each and resign, and an edge between them.
fn open_pair(alloc: Global) -> Result<Plan, AllocError> {
    let mut plan = PlanBuilder::open(alloc);
    let (Ok(lower), Ok(higher)) = (plan.site("a", 2), plan.site("b", 2)) else {
        return Err(AllocError);
    };
    if plan.resign(lower).is_err()
        || plan.resign(higher).is_err()
        || plan.edge(lower, higher).is_err()
    {
        return Err(AllocError);
    }
    plan.finish().map_err(|_| AllocError)
}

// Submits a task, and returns whether it is accepted. If it is not, it has to come back, since an allocation failed:
// else None is returned.
fn is_accepted<R: Wait>(
    rt: &R,
    alloc: Global,
    executor: &Executor<Bid, u32>,
    task: Bid,
) -> Option<bool> {
    let number = task.number;
    let site = SiteId(number % 2);
    let refused = if number < EXECUTED {
        executor.execute(rt, site, task).err()
    } else {
        executor.submit(rt, alloc, site, task).err()
    };
    match refused {
        None => Some(true),
        Some(SubmitError::Memory(task)) if task.number == number => Some(false),
        Some(_) => None,
    }
}

/// Opens an executor, submits tasks, closes it, and does the open run. A task whose submission finds no memory has to
/// come back, and each other task has to be done, or to come back at the end. It may wait.
pub fn run_open_pair<R: Threads + Wait + Copy + Drop + Send + 'static>(
    rt: &R,
    alloc: Global,
) -> Result<Outcome, AllocError> {
    let plan = open_pair(alloc)?;
    let done = Arc::new(alloc, AtomicU32::new(0))?;
    let values = Vec::from_elem(alloc, 0u32, 1)?;
    let Ok(executor) = Executor::open(alloc, &plan) else {
        return Ok(Outcome::Memory);
    };
    let mut back = 0u32;
    for number in 0..TASKS {
        let task = Bid {
            number,
            done: Arc::try_clone(&done)?,
        };
        let Some(accepted) = is_accepted(rt, alloc, &executor, task) else {
            return Ok(Outcome::Another);
        };
        back = back.saturating_add(u32::from(!accepted));
    }
    executor.close(rt);
    let outcome = match run_open_with(rt, alloc, &plan, values, &executor, 1, |_| {}) {
        Ok(_done) if back == 0 => Outcome::Whole,
        Ok(_done) => Outcome::HandedBack,
        Err(fault) => outcome_of_jobs(fault.cause),
    };
    let left = u32::try_from(executor.stop(rt, alloc)?.len()).unwrap_or(u32::MAX);
    let seen = done.load(Ordering::SeqCst);
    if seen.saturating_add(back).saturating_add(left) != TASKS {
        return Ok(Outcome::Another);
    }
    Ok(outcome)
}
