// When threads eat, and which diners come back.
use crate::asserts::same;
use crate::diners::{Waiter, waiters};
use crate::links::{BOTH, Links};
use dine_link::{ChannelLane, RingLane};
use dine_plan::{Plan, read_plan};
use dine_run::{RunFault, SiteOut, run, run_within};
use dine_test_diners::Taster;
use dine_test_plans::{PAIR, PATH};
use std::alloc::Global;
use std::process::Abort;
use std::sync::atomic::{AtomicU32, Ordering};
use std::sync::{Arc, Wait};
use std::thread::Threads;

// Sixteen sites without an edge, with one job each.
const SIXTEEN: &str = "version = 1\n\
    [[site]]\nname = \"a\"\njobs = [{ name = \"x\" }]\n[[site]]\nname = \"b\"\njobs = [{ name = \"x\" }]\n\
    [[site]]\nname = \"c\"\njobs = [{ name = \"x\" }]\n[[site]]\nname = \"d\"\njobs = [{ name = \"x\" }]\n\
    [[site]]\nname = \"e\"\njobs = [{ name = \"x\" }]\n[[site]]\nname = \"f\"\njobs = [{ name = \"x\" }]\n\
    [[site]]\nname = \"g\"\njobs = [{ name = \"x\" }]\n[[site]]\nname = \"h\"\njobs = [{ name = \"x\" }]\n\
    [[site]]\nname = \"i\"\njobs = [{ name = \"x\" }]\n[[site]]\nname = \"j\"\njobs = [{ name = \"x\" }]\n\
    [[site]]\nname = \"k\"\njobs = [{ name = \"x\" }]\n[[site]]\nname = \"l\"\njobs = [{ name = \"x\" }]\n\
    [[site]]\nname = \"m\"\njobs = [{ name = \"x\" }]\n[[site]]\nname = \"n\"\njobs = [{ name = \"x\" }]\n\
    [[site]]\nname = \"o\"\njobs = [{ name = \"x\" }]\n[[site]]\nname = \"p\"\njobs = [{ name = \"x\" }]\n";

// Checks that each site had one meal, whose job went well.
fn ate_once(rt: &impl Abort, sites: &[SiteOut<Waiter>]) {
    for site in sites {
        same(rt, &(site.ate, site.failed), &(1, 0));
    }
}

// Runs a plan over links of a kind, with diners that wait for one another. No job fails.
fn meet_over<R: Threads + Wait + Abort + Copy + Send + 'static>(
    rt: &R,
    alloc: Global,
    links: Links,
    text: &str,
    all: u32,
) {
    let plan = read_plan(alloc, text).expect(rt, "a plan");
    let entered = Arc::new(alloc, AtomicU32::new(0)).expect(rt, "memory");
    let diners = waiters(alloc, &plan, all, plan.edges() == 0, &entered).expect(rt, "memory");
    let ended = match links {
        Links::Channels => run::<ChannelLane, Waiter>(rt, alloc, &plan, diners),
        Links::Rings => run::<RingLane, Waiter>(rt, alloc, &plan, diners),
    };
    let Ok(gathered) = ended else {
        panic!(rt; "no run");
    };
    same(rt, &gathered.sites.len(), &(plan.sites() as usize));
    ate_once(rt, gathered.sites.as_slice());
}

#[test]
fn sites_that_share_no_edge_eat_at_the_same_time(rt: HostRuntime) {
    for links in BOTH {
        meet_over(&rt, rt.alloc(), links, SIXTEEN, 16);
    }
}

#[test]
fn ends_of_a_path_eat_at_the_same_time(rt: HostRuntime) {
    for links in BOTH {
        meet_over(&rt, rt.alloc(), links, PATH, 2);
    }
}

// Returns a number of diners, at most 3.
fn diners_for_one(rt: &impl Abort, alloc: Global, count: usize) -> Vec<Taster> {
    let mut diners = Vec::new(alloc);
    for each in 1..4u32 {
        if diners.len() < count {
            let diner = Taster::open(alloc, 1, each).expect(rt, "memory");
            diners.push(diner).expect(rt, "memory");
        }
    }
    diners
}

// Checks that these are the first of them, and that none was called.
fn were_not_called(rt: &impl Abort, diners: &[Taster]) {
    for (each, diner) in (1..4u32).zip(diners) {
        same(rt, &(diner.fails_each, diner.log.calls().len()), &(each, 0));
    }
}

// Checks that two sites are not run with this number of diners, at most 3 and not 2. The diners come back in order, and
// none was called.
fn come_back<R: Threads + Wait + Abort + Copy + Send + 'static>(
    rt: &R,
    alloc: Global,
    links: Links,
    count: usize,
) {
    let plan = read_plan(alloc, PAIR).expect(rt, "a plan");
    let diners = diners_for_one(rt, alloc, count);
    assert!(rt; diners.len() != plan.sites() as usize);
    let ended = match links {
        Links::Channels => run::<ChannelLane, Taster>(rt, alloc, &plan, diners),
        Links::Rings => run::<RingLane, Taster>(rt, alloc, &plan, diners),
    };
    let Err(RunFault::DinersDiffer { given, diners }) = ended else {
        panic!(rt; "a run");
    };
    same(rt, &(given, diners.len()), &(count, count));
    were_not_called(rt, diners.as_slice());
}

#[test]
fn too_few_or_too_many_diners_come_back(rt: HostRuntime) {
    for count in [1, 0, 3] {
        for links in BOTH {
            come_back(&rt, rt.alloc(), links, count);
        }
    }
}

// Runs a path of three sites on fewer threads than sites. The fault names the first site without a thread, and no diner
// is called.
fn falls_short<R: Threads + Wait + Abort + Copy + Send + 'static>(
    rt: &R,
    alloc: Global,
    links: Links,
    threads: u32,
) {
    let plan = read_plan(alloc, PATH).expect(rt, "a plan");
    let entered = Arc::new(alloc, AtomicU32::new(0)).expect(rt, "memory");
    let diners = waiters(alloc, &plan, 1, true, &entered).expect(rt, "memory");
    let ended = match links {
        Links::Channels => run_within::<ChannelLane, Waiter>(rt, alloc, &plan, diners, threads),
        Links::Rings => run_within::<RingLane, Waiter>(rt, alloc, &plan, diners, threads),
    };
    assert!(rt; matches!(ended, Err(RunFault::Thread(site)) if site == threads));
    same(rt, &entered.load(Ordering::SeqCst), &0);
    // Each diner had a reference to it, so all threads that were started have ended.
    same(rt, &Arc::strong_count(&entered), &1);
}

#[test]
fn fewer_threads_than_sites_are_reported_and_nobody_eats(rt: HostRuntime) {
    for threads in [1, 0] {
        for links in BOTH {
            falls_short(&rt, rt.alloc(), links, threads);
        }
    }
}
