// Jobs that are watched: what a watch is told, and what the watches that come with the library keep.
use crate::asserts::same;
use crate::plans::{band_of, resigning};
use crate::runs::{nothing, ran_jobs};
use dine_run::{
    Job, JobFault, MealCount, MealPrinter, Plan, PlanBuilder, SiteDone, SiteId, Table, WaitClock,
    Waits, Watch, Watched,
};
use std::alloc::Global;
use std::fmt::Display;
use std::io;
use std::process::Abort;
use std::rt::Clock;
use std::sync::atomic::{AtomicU64, Ordering};
use std::sync::{Arc, Mutex, Wait};
use std::thread::Threads;
use std::time::Duration;

const SITES: u32 = 5;

const JOBS: u32 = 7;

// Fails at each third job.
#[derive(Drop)]
struct Third;

impl Job<()> for Third {
    type Fault = JobFault;

    fn run(&mut self, table: &Table<'_, ()>) -> Result<(), JobFault> {
        if table.k() % 3 == 0 {
            Err(JobFault)
        } else {
            Ok(())
        }
    }
}

#[derive(Clone, Copy, Debug, PartialEq, Eq)]
enum Notice {
    Hungry(SiteId, u32),
    Begin(SiteId, u32),
    End(SiteId, u32, bool),
}

// Notes all that it is told.
#[derive(Drop)]
struct Notes {
    told: Vec<Notice>,
}

impl Watch for Notes {
    fn hungry(&mut self, site: SiteId, k: u32) {
        let _ = self.told.push(Notice::Hungry(site, k));
    }

    fn begin(&mut self, site: SiteId, k: u32) {
        let _ = self.told.push(Notice::Begin(site, k));
    }

    fn end(&mut self, site: SiteId, k: u32, ok: bool) {
        let _ = self.told.push(Notice::End(site, k, ok));
    }
}

// The watch of a site that did the jobs 1 to `meals` was told this, and no more.
fn was_told(rt: &impl Abort, told: &[Notice], site: SiteId, meals: u32) {
    let mut wanted = 0usize;
    for k in 1..meals.saturating_add(1) {
        let all = [
            Notice::Hungry(site, k),
            Notice::Begin(site, k),
            Notice::End(site, k, k % 3 != 0),
        ];
        for want in all {
            same(rt, &told.get(wanted).copied(), &Some(want));
            wanted = wanted.saturating_add(1);
        }
    }
    same(rt, &told.len(), &wanted);
}

// Site 0 resigned at its third job, and the others did all.
fn were_told(rt: &impl Abort, sites: &[SiteDone<Watched<Third, Notes>, JobFault>]) {
    same(rt, &sites.len(), &(SITES as usize));
    for site in sites {
        let meals = if site.site == SiteId(0) { 3 } else { JOBS };
        was_told(rt, site.job.watch.told.as_slice(), site.site, meals);
    }
}

// Watched jobs for all sites of a plan.
fn noted(rt: &impl Abort, alloc: Global, plan: &Plan) -> Vec<Watched<Third, Notes>> {
    let mut jobs = Vec::new(alloc);
    for n in 0..plan.sites() {
        let told = Vec::new(alloc);
        let watched = Watched::new(plan, SiteId(n), Third, Notes { told });
        jobs.push(watched).expect(rt, "memory");
    }
    jobs
}

#[test]
fn a_watch_is_told_of_each_job_in_turn(rt: HostRuntime) {
    let alloc = rt.alloc();
    let plan = resigning(&rt, alloc, SITES, JOBS);
    let jobs = noted(&rt, alloc, &plan);
    let done = ran_jobs(&rt, alloc, &plan, nothing(&rt, alloc, &plan), jobs);
    were_told(&rt, done.sites.as_slice());
}

#[test]
fn a_site_with_no_job_is_never_hungry(rt: HostRuntime) {
    let alloc = rt.alloc();
    let plan = band_of(&rt, alloc, SITES, 0);
    let jobs = noted(&rt, alloc, &plan);
    let done = ran_jobs(&rt, alloc, &plan, nothing(&rt, alloc, &plan), jobs);
    for site in done.sites.as_slice() {
        same(&rt, &site.job.watch.told.len(), &0);
    }
}

// Counted jobs for all sites of a plan.
fn counted(
    rt: &impl Abort,
    alloc: Global,
    plan: &Plan,
    count: &MealCount,
) -> Vec<Watched<Third, MealCount>> {
    let mut jobs = Vec::new(alloc);
    for n in 0..SITES {
        let share = count.share().expect(rt, "memory");
        jobs.push(Watched::new(plan, SiteId(n), Third, share))
            .expect(rt, "memory");
    }
    jobs
}

#[test]
fn meals_of_all_sites_are_counted(rt: HostRuntime) {
    let alloc = rt.alloc();
    let plan = band_of(&rt, alloc, SITES, JOBS);
    let count = MealCount::open(alloc).expect(&rt, "memory");
    let jobs = counted(&rt, alloc, &plan, &count);
    same(&rt, &count.meals(), &0);
    let _done = ran_jobs(&rt, alloc, &plan, nothing(&rt, alloc, &plan), jobs);
    let meals = u64::from(SITES) * u64::from(JOBS);
    same(&rt, &count.meals(), &meals);
}

// A clock that goes on by one millisecond each time that it is read.
#[derive(Drop)]
struct StepClock {
    reads: AtomicU64,
}

impl Clock for StepClock {
    fn monotonic(&self) -> io::Result<Duration> {
        Ok(Duration::from_millis(self.reads.fetch_add(1, Ordering::SeqCst)))
    }

    fn since_1970(&self) -> io::Result<Duration> {
        self.monotonic()
    }
}

// Timed jobs for all sites of a plan.
fn timed(rt: &impl Abort, alloc: Global, plan: &Plan) -> Vec<Watched<Third, WaitClock<StepClock>>> {
    let mut jobs = Vec::new(alloc);
    for n in 0..SITES {
        let reads = AtomicU64::new(0);
        let watch = WaitClock::new(StepClock { reads });
        jobs.push(Watched::new(plan, SiteId(n), Third, watch))
            .expect(rt, "memory");
    }
    jobs
}

#[test]
fn waits_are_kept_by_the_clock(rt: HostRuntime) {
    let alloc = rt.alloc();
    let plan = band_of(&rt, alloc, SITES, JOBS);
    let jobs = timed(&rt, alloc, &plan);
    let done = ran_jobs(&rt, alloc, &plan, nothing(&rt, alloc, &plan), jobs);
    // Each wait is from one reading of the site's clock to the next.
    let want = Waits {
        count: u64::from(JOBS),
        sum: u64::from(JOBS) * 1_000_000,
        longest: 1_000_000,
    };
    for site in done.sites.as_slice() {
        same(&rt, &site.job.watch.waits, &want);
    }
}

// Keeps the lines that are printed.
#[derive(Drop)]
struct Screen {
    alloc: Global,
    text: Arc<Mutex<String>>,
}

impl Eprint for Screen {
    fn eprint<D: Display + Drop>(&self, value: D) -> io::Result<()> {
        let text = value.to_string(self.alloc)?;
        if let Some(mut lines) = self.text.try_lock() {
            lines.push_str(text.as_str())?;
        }
        Ok(())
    }

    fn eprintln<D: Display + Drop>(&self, value: D) -> io::Result<()> {
        self.eprint(value)?;
        self.eprint("\n")
    }
}

// The plan of one site, with three jobs.
fn alone(rt: &impl Abort, alloc: Global) -> Plan {
    let mut plan = PlanBuilder::open(alloc);
    plan.site("alone", 3).expect(rt, "memory");
    plan.finish().expect(rt, "a plan")
}

// Runs the site alone, with its jobs printed on a screen for this text.
fn print_jobs<R: Threads + Wait + Abort + Copy + Send + 'static>(
    rt: &R,
    alloc: Global,
    text: &Arc<Mutex<String>>,
) {
    let plan = alone(rt, alloc);
    let text = Arc::try_clone(text).expect(rt, "memory");
    let name = String::from_str(alloc, "alone").expect(rt, "memory");
    let watch = MealPrinter::new(Screen { alloc, text }, name);
    let mut jobs = Vec::new(alloc);
    jobs.push(Watched::new(&plan, SiteId(0), Third, watch))
        .expect(rt, "memory");
    let _done = ran_jobs(rt, alloc, &plan, nothing(rt, alloc, &plan), jobs);
}

#[test]
fn a_printer_prints_each_begin_and_end(rt: HostRuntime) {
    let alloc = rt.alloc();
    let text = Arc::new(alloc, Mutex::new(String::new(alloc))).expect(&rt, "memory");
    print_jobs(&rt, alloc, &text);
    let lines = text.try_lock().expect(&rt, "the text is free");
    let want =
        "alone begins 1\nalone ends 1\nalone begins 2\nalone ends 2\nalone begins 3\nalone fails 3\n";
    same(&rt, &lines.as_str(), &want);
}
