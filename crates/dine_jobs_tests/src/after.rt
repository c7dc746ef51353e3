// A `Job` that says by `after` what each of its calls does, and what is proved of it after a run.
ghost use Rattle.std.specs.Prelude.{◌≡◌, IfOk, Some, if◌then◌else◌};
ghost use Rattle.dine_jobs_tests.specs.Refused.{HaveNotedLast};

use crate::asserts::same;
use crate::plans::band_of;
use crate::runs::{BOTH, Links, nothing};
use dine_run::{
    Failure, Job, JobFault, JobsDone, JobsFault, Plan, SiteDone, Table, on_channels, on_rings,
};
use std::alloc::Global;
use std::process::Abort;
use std::sync::Wait;
use std::thread::Threads;

const SITES: u32 = 5;

const JOBS: u32 = 7;

// A number of no job.
const BEFORE: u32 = 99;

// Fails at the first jobs of its site, as many as the number of the site, and notes the last job that failed.
#[derive(Drop)]
struct Refuser {
    refused: Option<u32>,
}

impl Job<()> for Refuser {
    type Fault = JobFault;

    ghost after = { λ old k ok new. new.refused ≡ (if ok then old.refused else Some k) };

    fn run(&mut self, table: &Table<'_, ()>) -> Result<(), JobFault> {
        let k = table.k();
        if k <= table.site().0 {
            self.refused = Some(k);
            return Err(JobFault);
        }
        Ok(())
    }
}

// Runs the jobs over links of a kind. If the run returns Ok, each job comes back with the number of the last of its
// failures or, if it has none, with what it had noted when it was given. This is so for each schedule.
fn run_refusers<R: Threads + Wait + Copy + Send + 'static>(
    rt: &R,
    alloc: Global,
    plan: &Plan,
    links: Links,
    values: Vec<()>,
    jobs: Vec<Refuser>,
) -> Result<JobsDone<(), Refuser>, JobsFault<(), Refuser>>
    ensures { IfOk result (λ done. HaveNotedLast (λ job. job.refused) jobs.items done.sites.items) }
{
    match links {
        Links::Channels => on_channels(rt, alloc, plan, values, jobs),
        Links::Rings => on_rings(rt, alloc, plan, values, jobs),
    }
}

fn refusers(rt: &impl Abort, alloc: Global, plan: &Plan) -> Vec<Refuser> {
    let mut jobs = Vec::new(alloc);
    for _ in 0..plan.sites() {
        let refused = Some(BEFORE);
        jobs.push(Refuser { refused }).expect(rt, "memory");
    }
    jobs
}

// The jobs that failed are the first ones.
fn are_first(rt: &impl Abort, failures: &[Failure<JobFault>]) {
    let mut k = 1u32;
    for failure in failures {
        same(rt, &failure.k, &k);
        k = k.saturating_add(1);
    }
}

// The site did all its jobs. The first ones failed, as many as its number, and its job has noted the last of them.
fn is_right(rt: &impl Abort, n: u32, site: &SiteDone<Refuser, JobFault>) {
    same(
        rt,
        &(site.calls().len(), site.failures.len()),
        &(JOBS as usize, n as usize),
    );
    are_first(rt, site.failures.as_slice());
    same(
        rt,
        &site.job.refused,
        &Some(if n == 0 { BEFORE } else { n }),
    );
}

fn are_right(rt: &impl Abort, sites: &[SiteDone<Refuser, JobFault>]) {
    same(rt, &sites.len(), &(SITES as usize));
    let mut n = 0u32;
    for site in sites {
        is_right(rt, n, site);
        n = n.saturating_add(1);
    }
}

#[test]
fn a_job_keeps_the_number_of_its_last_failure(rt: HostRuntime) {
    let alloc = rt.alloc();
    let plan = band_of(&rt, alloc, SITES, JOBS);
    for links in BOTH {
        let values = nothing(&rt, alloc, &plan);
        let jobs = refusers(&rt, alloc, &plan);
        let done = run_refusers(&rt, alloc, &plan, links, values, jobs).expect(&rt, "a run");
        are_right(&rt, done.sites.as_slice());
    }
}
