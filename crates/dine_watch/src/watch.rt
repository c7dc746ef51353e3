//! Jobs that are watched while they run.
ghost use Rattle.std.specs.Prelude.{◌≡◌, ◌<◌, ◌≤◌, false};
ghost use Rattle.dine_graph.specs.Plan.{job_count, resigns, site_count};

use dine_graph::{Plan, SiteId};
use dine_jobs::{Job, Table};
use std::sync::Wait;

/// Watches one site: it is told when the site grows hungry for a job, begins it and ends it. Each method does nothing
/// if it is left out. A value of this type moves into the thread of its site, and comes back with the job.
pub trait Watch: Drop + Send {
    /// The site is hungry for job `k` from now on. It is called when the watch is put around the first job, before the
    /// run, and after each job, if the site has another one to do.
    fn hungry(&mut self, _site: SiteId, _k: u32) {}

    /// The site has the forks of all its edges, and begins job `k`.
    fn begin(&mut self, _site: SiteId, _k: u32) {}

    /// The site has done job `k`, which went well if `ok`. It still has the forks.
    fn end(&mut self, _site: SiteId, _k: u32, _ok: bool) {}
}

/// A job that a watch is told of. It does what the job inside does, and fails if that fails.
#[derive(Drop)]
pub struct Watched<J: Drop, W: Drop> {
    /// The job.
    pub job: J,
    /// The watch.
    pub watch: W,
    last: u32,
    resigns: bool,
}

impl<J: Drop, W: Watch> Watched<J, W> {
    /// Puts a watch around the job of a site of this plan, and tells the watch that the site is hungry, if it has a job
    /// to do. At a site that the plan does not have, it never says so.
    pub fn new(plan: &Plan, site: SiteId, job: J, watch: W) -> Watched<J, W>
        ensures { result.job ≡ job }
    {
        let (last, resigns) = jobs_at(plan, site);
        let mut watch = watch;
        if last > 0 {
            watch.hungry(site, 1);
        }
        Watched {
            job,
            watch,
            last,
            resigns,
        }
    }
}

// Returns the number of the last job of a site, and whether the site resigns.
fn jobs_at(plan: &Plan, site: SiteId) -> (u32, bool)
    ensures there { site.0 < site_count plan.now
        → result ≡ (job_count plan.now site.0, resigns plan.now site.0) }
    ensures not_there { site_count plan.now ≤ site.0 → result ≡ (0, false) }
{
    if site.0 >= plan.sites() {
        return (0, false);
    }
    (plan.jobs(site.0), plan.resigns(site.0))
}

impl<T: Drop, J: Job<T>, W: Watch> Job<T> for Watched<J, W> {
    type Fault = J::Fault;

    // What the job inside may do.
    ghost after = { λ old k ok new. J.after old.job k ok new.job };

    // Where the job inside expects to run.
    ghost expects = { λ watched plan site. J.expects watched.job plan site };

    fn is_called<R: Wait>(&self, rt: &R) -> bool {
        self.job.is_called(rt)
    }

    fn run(&mut self, table: &Table<'_, T>) -> Result<(), J::Fault> {
        let (site, k) = (table.site(), table.k());
        self.watch.begin(site, k);
        let outcome = self.job.run(table);
        let ok = outcome.is_ok();
        self.watch.end(site, k, ok);
        if k < self.last && (ok || !self.resigns) {
            self.watch.hungry(site, k + 1);
        }
        outcome
    }
}
