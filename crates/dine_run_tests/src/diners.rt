// Diners that wait for one another in their first meals.
ghost use Rattle.std.specs.Prelude.{◌≡◌, ◌≤◌, [], Some, true, slice_get, IfOk};
ghost use Rattle.dine_graph.specs.Plan.{job_count};

use dine_plan::Plan;
use dine_run::{CallLog, Diner, JobFault};
use dine_token::Meal;
use std::alloc::{AllocError, Global};
use std::sync::Arc;
use std::sync::atomic::{AtomicU32, Ordering};
use std::thread;

// A diner that waits in its first meal until `all` diners have entered theirs. Its job fails if that takes too long. It
// does not wait if `all` is 0.
#[derive(Drop)]
pub struct Waiter {
    pub log: CallLog,
    pub entered: Arc<AtomicU32, Global>,
    pub all: u32,
}

impl Waiter {
    // Returns whether all have entered in time.
    fn meets(&self) -> bool {
        if self.all == 0 {
            return true;
        }
        self.entered.fetch_add(1, Ordering::SeqCst);
        for _ in 0..1_000_000_000u32 {
            if self.entered.load(Ordering::SeqCst) >= self.all {
                return true;
            }
            thread::yield_now();
        }
        false
    }
}

impl Diner for Waiter {
    ghost calls = { λ diner. diner.log.calls };

    ghost marks = { λ diner. [] };

    ghost fits = { λ marks k ok. true };

    ghost room_left = { λ diner. diner.log.room };

    fn room(&self) -> u32 {
        self.log.room()
    }

    fn eat(&mut self, k: u32, _meal: &Meal) -> Result<(), JobFault> {
        let ok = k != 1 || self.meets();
        self.log.note(k, ok);
        if ok { Ok(()) } else { Err(JobFault) }
    }
}

// Returns a diner for each site, with capacity for its jobs. Those at sites of even numbers wait until `all` have
// entered, and the others only if `everyone` does. `entered` counts those that wait.
pub fn waiters(
    alloc: Global,
    plan: &Plan,
    all: u32,
    everyone: bool,
    entered: &Arc<AtomicU32, Global>,
) -> Result<Vec<Waiter>, AllocError>
    ensures { IfOk result (λ diners. (s : _) (diner : _)
        → slice_get diners.items s ≡ Some diner → job_count plan.now s ≤ diner.log.room) }
{
    let mut diners = Vec::new(alloc);
    for site in 0..plan.sites() {
        let is_one = everyone || site % 2 == 0;
        let all = if is_one { all } else { 0 };
        let entered = Arc::try_clone(entered)?;
        let log = CallLog::open(alloc, plan.jobs(site))?;
        diners.push(Waiter { log, entered, all })?;
    }
    Ok(diners)
}
