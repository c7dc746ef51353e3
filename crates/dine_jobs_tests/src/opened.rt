// Runs that are open: tasks arrive before they start and while they go on.
use crate::asserts::{holds, same};
use crate::plans::all_resigning;
use dine_run::{
    Executor, OpenDone, Place, Plan, SiteId, SubmitError, Table, Task, TicketError, order,
    run_open, run_open_with,
};
use std::alloc::Global;
use std::process::Abort;
use std::rt::Clock;
use std::sync::Wait;
use std::test::Fail;
use std::thread;
use std::thread::Threads;
use std::time::Duration;

const SITES: u32 = 6;

// Adds one at the first place of its site, and returns what is there then.
#[derive(Drop)]
struct AddOne {}

impl Task<u64, u64> for AddOne {
    fn run(self, table: &Table<'_, u64>) -> u64 {
        match table.open(Place(0)) {
            Ok(mut value) => {
                *value = value.saturating_add(1);
                *value
            }
            Err(_) => 0,
        }
    }
}

// Executes a task at each site.
fn executes_each<R: Wait + Abort>(rt: &R, executor: &Executor<AddOne, u64>) {
    for site in 0..SITES {
        let taken = executor.execute(rt, SiteId(site), AddOne {});
        holds(rt, taken.is_ok());
    }
}

fn ran_open<R: Threads + Wait + Abort + Copy + Drop + Send + 'static>(
    rt: R,
    alloc: Global,
    plan: &Plan,
    executor: &Executor<AddOne, u64>,
) -> OpenDone<u64> {
    let values = Vec::from_elem(alloc, 0u64, plan.edges() as usize).expect(&rt, "memory");
    match run_open(&rt, alloc, plan, values, executor) {
        Ok(done) => done,
        Err(_) => panic!(&rt; "the run failed"),
    }
}

// The sum of the values, how many tasks all sites did, and in how many epochs.
fn counts(done: &OpenDone<u64>) -> (u64, u64, u64) {
    let (mut sum, mut tasks) = (0u64, 0u64);
    for value in done.values.iter() {
        sum = sum.saturating_add(value.value);
    }
    for count in done.tasks.iter() {
        tasks = tasks.saturating_add(*count);
    }
    (sum, tasks, done.epochs)
}

// How many tasks of a site were accepted, done and handed back.
fn served_at<R: Abort>(rt: &R, done: &OpenDone<u64>, site: usize) -> (u64, u64, u64) {
    let Some(served) = done.served.get(site) else {
        panic!(rt; "no site");
    };
    (served.accepted(), served.done(), served.handed_back())
}

fn opens<R: Threads + Wait + Abort + Clock + Copy + Drop + Send + 'static>(rt: R, alloc: Global) {
    let plan = all_resigning(&rt, alloc, SITES, 10);
    let executor = Executor::open(alloc, &plan).expect(&rt, "memory");
    executes_each(&rt, &executor);
    let theirs = executor.share().expect(&rt, "memory");
    let clerk = thread::spawn(&rt, move || {
        for _ in 0..3 {
            thread::sleep(&rt, Duration::from_millis(20));
            executes_each(&rt, &theirs);
        }
        thread::sleep(&rt, Duration::from_millis(20));
        theirs.close(&rt);
    });
    let done = ran_open(rt, alloc, &plan, &executor);
    if let Ok(clerk) = clerk {
        clerk.join(&rt);
    }
    same(&rt, &counts(&done), &(24, 24, 1));
    same(&rt, &done.found_open, &0);
}

fn closes<R: Threads + Wait + Abort + Copy + Drop + Send + 'static>(rt: R, alloc: Global) {
    let plan = all_resigning(&rt, alloc, SITES, 2);
    let executor = Executor::bounded(alloc, &plan, 2).expect(&rt, "memory");
    executes_each(&rt, &executor);
    let stranger = executor.execute(&rt, SiteId(SITES), AddOne {});
    holds(&rt, matches!(stranger, Err(SubmitError::NoSite(_))));
    let second = executor.execute(&rt, SiteId(0), AddOne {});
    holds(&rt, second.is_ok());
    let third = executor.execute(&rt, SiteId(0), AddOne {});
    holds(&rt, matches!(third, Err(SubmitError::Full(_))));
    executor.close(&rt);
    let late = executor.execute(&rt, SiteId(1), AddOne {});
    holds(&rt, matches!(late, Err(SubmitError::Closed(_))));
    let done = ran_open(rt, alloc, &plan, &executor);
    same(&rt, &counts(&done), &(7, 7, 1));
}

// A site does its tasks in the order in which they were submitted: each ticket has one more. A ticket of a task that
// was taken back has nothing.
fn answers<R: Threads + Wait + Abort + Clock + Copy + Drop + Send + 'static>(rt: R, alloc: Global) {
    let plan = all_resigning(&rt, alloc, 2, 10);
    let executor = Executor::open(alloc, &plan).expect(&rt, "memory");
    let theirs = executor.share().expect(&rt, "memory");
    let clerk = thread::spawn(&rt, move || {
        let mut got = [0u64; 4];
        for slot in got.iter_mut() {
            let ticket = theirs.submit(&rt, alloc, SiteId(0), AddOne {});
            if let Ok(ticket) = ticket {
                *slot = ticket.wait(&rt).unwrap_or(0);
            }
        }
        theirs.close(&rt);
        got
    });
    let values = Vec::from_elem(alloc, 0u64, plan.edges() as usize).expect(&rt, "memory");
    let done = run_open_with(&rt, alloc, &plan, values, &executor, 1, |_| {});
    holds(&rt, done.is_ok());
    if let Ok(clerk) = clerk {
        same(&rt, &clerk.join(&rt), &[1, 2, 3, 4]);
    }
}

fn stops<R: Threads + Wait + Abort + Clock + Copy + Drop + Send + 'static>(rt: R, alloc: Global) {
    let plan = all_resigning(&rt, alloc, 2, 10);
    let executor = Executor::open(alloc, &plan).expect(&rt, "memory");
    let Ok(ticket) = executor.submit(&rt, alloc, SiteId(1), AddOne {}) else {
        panic!(&rt; "no ticket");
    };
    let pending = ticket.try_wait(&rt);
    holds(&rt, matches!(pending, Err(TicketError::Pending)));
    let late = ticket.wait_timeout(&rt, Duration::from_millis(1));
    holds(&rt, matches!(late, Err(TicketError::Pending)));
    let back = executor.stop(&rt, alloc).expect(&rt, "memory");
    same(&rt, &back.len(), &1);
    let gone = ticket.wait(&rt);
    holds(&rt, matches!(gone, Err(TicketError::Gone)));
    let done = ran_open(rt, alloc, &plan, &executor);
    same(&rt, &counts(&done), &(0, 0, 1));
    same(&rt, &served_at(&rt, &done, 1), &(1, 0, 1));
}

// Site 0 has ten tasks and two meals in an epoch, and each other site has one task. Each epoch is a run of its own: its
// journals have one order, and its workers did its tasks, in as many calls as went well.
fn goes_in_epochs<R: Threads + Wait + Abort + Copy + Drop + Send + 'static>(
    rt: R,
    alloc: Global,
    patience: u32,
    epochs: u64,
    meals: u64,
) {
    let plan = all_resigning(&rt, alloc, SITES, 2);
    let executor = Executor::open(alloc, &plan).expect(&rt, "memory");
    executes_each(&rt, &executor);
    for _ in 0..9 {
        let taken = executor.execute(&rt, SiteId(0), AddOne {});
        holds(&rt, taken.is_ok());
    }
    executor.close(&rt);
    let values = Vec::from_elem(alloc, 0u64, plan.edges() as usize).expect(&rt, "memory");
    let (mut ordered, mut tasks, mut well) = (0u64, 0u64, 0u64);
    let done = run_open_with(&rt, alloc, &plan, values, &executor, patience, |epoch| {
        if order(alloc, &plan, epoch.sites.as_slice()).is_ok() {
            ordered = ordered.saturating_add(1);
        }
        for site in epoch.sites.iter() {
            tasks = tasks.saturating_add(site.job.tasks());
            for call in site.calls() {
                well = well.saturating_add(u64::from(call.ok));
            }
        }
    });
    let Ok(done) = done else {
        panic!(&rt; "the run failed");
    };
    same(&rt, &counts(&done), &(15, 15, epochs));
    same(&rt, &done.tasks.as_slice(), &[10, 1, 1, 1, 1, 1].as_slice());
    same(&rt, &served_at(&rt, &done, 0), &(10, 10, 0));
    same(&rt, &(ordered, tasks, well), &(epochs, 15, meals));
}

// Tasks of a site are done in the order of their submission, also over many epochs and while the run goes on.
fn answers_over_epochs<R: Threads + Wait + Abort + Copy + Drop + Send + 'static>(
    rt: R,
    alloc: Global,
) {
    let plan = all_resigning(&rt, alloc, 3, 1);
    let executor = Executor::open(alloc, &plan).expect(&rt, "memory");
    let theirs = executor.share().expect(&rt, "memory");
    let clerk = thread::spawn(&rt, move || {
        let mut inorder = 0u64;
        for n in 1..=20u64 {
            if let Ok(ticket) = theirs.submit(&rt, alloc, SiteId(0), AddOne {}) {
                inorder = inorder.saturating_add(u64::from(ticket.wait(&rt) == Ok(n)));
            }
        }
        theirs.close(&rt);
        inorder
    });
    let values = Vec::from_elem(alloc, 0u64, plan.edges() as usize).expect(&rt, "memory");
    let Ok(done) = run_open_with(&rt, alloc, &plan, values, &executor, 1, |_| {}) else {
        panic!(&rt; "the run failed");
    };
    same(&rt, &counts(&done), &(20, 20, 20));
    if let Ok(clerk) = clerk {
        same(&rt, &clerk.join(&rt), &20);
    }
}

// A site to which the plan gives no job takes no task, and a run of such sites ends at once.
fn takes_none_without_jobs<R: Threads + Wait + Abort + Copy + Drop + Send + 'static>(
    rt: R,
    alloc: Global,
) {
    let plan = all_resigning(&rt, alloc, 2, 0);
    let executor = Executor::open(alloc, &plan).expect(&rt, "memory");
    let taken = executor.execute(&rt, SiteId(0), AddOne {});
    holds(&rt, matches!(taken, Err(SubmitError::Full(_))));
    let done = ran_open(rt, alloc, &plan, &executor);
    same(&rt, &counts(&done), &(0, 0, 1));
    let late = executor.execute(&rt, SiteId(1), AddOne {});
    holds(&rt, matches!(late, Err(SubmitError::Closed(_))));
}

#[test]
fn tasks_arrive_before_a_run_and_while_it_goes_on(rt: HostRuntime) -> Result<(), Fail> {
    opens(rt, rt.alloc());
    Ok(())
}

#[test]
fn executors_refuse_what_is_late_or_too_much(rt: HostRuntime) -> Result<(), Fail> {
    closes(rt, rt.alloc());
    Ok(())
}

#[test]
fn tickets_have_what_tasks_return_in_order(rt: HostRuntime) -> Result<(), Fail> {
    answers(rt, rt.alloc());
    Ok(())
}

#[test]
fn a_stopped_executor_hands_back_what_has_not_begun(rt: HostRuntime) -> Result<(), Fail> {
    stops(rt, rt.alloc());
    Ok(())
}

#[test]
fn open_runs_go_in_epochs(rt: HostRuntime) -> Result<(), Fail> {
    goes_in_epochs(rt, rt.alloc(), 1, 5, 15);
    Ok(())
}

#[test]
fn a_meal_has_as_many_tasks_as_the_patience(rt: HostRuntime) -> Result<(), Fail> {
    goes_in_epochs(rt, rt.alloc(), 4, 2, 8);
    Ok(())
}

#[test]
fn tasks_are_done_in_order_over_epochs(rt: HostRuntime) -> Result<(), Fail> {
    answers_over_epochs(rt, rt.alloc());
    Ok(())
}

#[test]
fn sites_without_jobs_take_no_tasks(rt: HostRuntime) -> Result<(), Fail> {
    takes_none_without_jobs(rt, rt.alloc());
    Ok(())
}
