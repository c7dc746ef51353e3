// The faults of `run`.
use crate::asserts::same;
use dine_link::{Bell, EmptyChecks, ThreadLog};
use dine_run::{Breach, Joined, RunFault, SiteFault, SiteOut};
use dine_test_diners::Taster;
use std::alloc::{AllocError, Global};
use std::process::Abort;
use std::test::Fail;

/// Returns the record of a bell that made no check.
pub fn no_checks(alloc: Global) -> Result<EmptyChecks, AllocError> {
    match Bell::open(alloc, 0) {
        Ok((_ringers, bell)) => Ok(bell.into_empty_checks()),
        Err(_) => Err(AllocError),
    }
}

// Returns what a site left that did nothing, and ended with this fault if there is one.
fn left(alloc: Global, site: u32, fault: Option<SiteFault>) -> Result<SiteOut<Taster>, AllocError> {
    Ok(SiteOut {
        site,
        ate: 0,
        failed: 0,
        diner: Taster::open(alloc, 0, 0)?,
        tokens: Vec::new(alloc),
        journal: Vec::new(alloc),
        checks: no_checks(alloc)?,
        log: ThreadLog::start(),
        stray: None,
        fault,
    })
}

// Of two sites the second one ended with this fault.
fn broken(alloc: Global, fault: SiteFault) -> Result<RunFault<Taster>, AllocError> {
    let mut sites = Vec::new(alloc);
    sites.push(left(alloc, 0, None)?)?;
    sites.push(left(alloc, 1, Some(fault))?)?;
    Ok(RunFault::Broken {
        site: 1,
        joined: Joined {
            forks: Vec::new(alloc),
            sites,
            links: Vec::new(alloc),
        },
    })
}

// Checks the text of the fault, and its name by `Debug`.
fn says<R: Abort>(
    rt: &R,
    alloc: Global,
    fault: RunFault<Taster>,
    wanted: (&str, &str),
) -> Result<(), Fail> {
    let name = format!(in alloc; "{fault:?}")?;
    same(
        rt,
        &(fault.to_string(alloc)?.as_str(), name.as_str()),
        &wanted,
    );
    Ok(())
}

#[test]
fn a_run_that_did_not_begin_says_why(rt: HostRuntime) -> Result<(), Fail> {
    let alloc = rt.alloc();
    let diners = Vec::new(alloc);
    let differ = RunFault::DinersDiffer { given: 0, diners };
    let text = ("run refused: diners differ", "DinersDiffer");
    says(&rt, alloc, differ, text)?;
    says(&rt, alloc, RunFault::Memory, ("out of memory", "Memory"))?;
    let thread = RunFault::Thread(2);
    let text = ("run refused: thread of site 2", "Thread(2)");
    says(&rt, alloc, thread, text)
}

#[test]
fn a_run_that_broke_names_its_site_and_the_fault_of_it(rt: HostRuntime) -> Result<(), Fail> {
    let alloc = rt.alloc();
    let cases = [
        (
            SiteFault::Breach(0, Breach::ClosedEarly),
            (
                "run broken at site 1: Breach 6 on link 0",
                "Broken(1, Breach(0, ClosedEarly))",
            ),
        ),
        (
            SiteFault::Lost(2),
            ("run broken at site 1: Lost on link 2", "Broken(1, Lost(2))"),
        ),
        (
            SiteFault::LostBell { degree: 2 },
            (
                "run broken at site 1: Lost on link 2",
                "Broken(1, LostBell { degree: 2 })",
            ),
        ),
        (
            SiteFault::NotStarted,
            ("run broken at site 1: NotStarted", "Broken(1, NotStarted)"),
        ),
        (
            SiteFault::Memory,
            ("run broken at site 1: Memory", "Broken(1, Memory)"),
        ),
    ];
    for (fault, text) in cases {
        says(&rt, alloc, broken(alloc, fault)?, text)?;
    }
    Ok(())
}
