//! Plans that a program builds: the sites, jobs and edges that it adds, and the plan of them.
ghost use Rattle.std.specs.Prelude.{◌≡◌, ◌≢◌, ◌≤◌, ◌+◌, Some, None, length, map};
ghost use Rattle.std.specs.Prelude.{IfOk, OnOk, OnErr, IfErr, IfSome, IsTrue, is_some};
ghost use Rattle.std.specs.List.{range_with_len};
ghost use Rattle.dine_graph.specs.declared.limits.TheConstants.{MAX_TEXT_JOBS};
ghost use Rattle.dine_builder.specs.Draft.{empty_draft, plain_job, with_site, with_edge, has_edge, has_site};
ghost use Rattle.dine_builder.specs.Draft.{edge_at, has_job, job_at, site_at, with_value, with_resigning, with_job};
ghost use Rattle.dine_builder.specs.Draft.{with_turns, with_failure, with_act};
ghost use Rattle.dine_graph.specs.Job.{seen_job};
ghost use Rattle.dine_graph.specs.Site.{seen_site};
ghost use Rattle.dine_draft.specs.Draft.{seen_draft};
ghost use Rattle.dine_builder.specs.DraftPlan.{IsOfDraft, draft_of, first_fault_of};
ghost use Rattle.dine_builder.specs.DraftPlan.{job_of_draft, listed_draft, listed_site, plan_of_draft};
ghost use Rattle.dine_builder.specs.DraftPlan.{site_in_text, site_of_draft, text_of};
ghost use Rattle.dine_builder.specs.private.DraftFields.{seen_draft_site};

use dine_draft::{Draft, DraftEdge, PlanFault};
use dine_graph::{Job, JobName, MAX_TEXT_JOBS, Plan, Site};
use dine_token::{Act, MAX_JOBS};
use std::alloc::{AllocError, Global};
use std::marker::Model;

/// The number of jobs of a site that [`PlanBuilder::open_site`] adds: as many as it does in an epoch of an open run.
pub const EPOCH_JOBS: u32 = 1_000;

// The greatest number of jobs that a draft stores for a site: one more than a site of a text may have, so that the text
// of the draft is refused.
const MAX_KEPT_JOBS: u32 = MAX_TEXT_JOBS + 1;

// A job of a draft. Its number, from 1, is its name.
#[derive(Clone, Copy, Debug)]
pub(crate) struct DraftJob {
    pub(crate) turns: u32,
    // At most `MAX_KEPT_JOBS`. It is small since there are many jobs.
    pub(crate) number: u16,
    pub(crate) fails: bool,
    pub(crate) act: Act,
}

// A site of a draft.
#[derive(Debug, Drop)]
pub(crate) struct DraftSite {
    pub(crate) name: String,
    // The first jobs, which may be changed.
    pub(crate) jobs: Vec<DraftJob>,
    // The number of plain jobs after these.
    pub(crate) plain: u32,
    pub(crate) resigns: bool,
}

/// A draft of a plan, of version 2 of the format. Sites, their jobs and edges are added one by one, and `finish`
/// returns the plan. Nothing is checked before `finish`, which refuses a draft for the cause for which `read_plan`
/// refuses the text that says the same; only that a site may have 4,294,967,295 jobs, and not 1,000. Sites and edges
/// are numbered from 0 in the order in which they are added, and the jobs of a site from 1. A job's name is its number,
/// such as `1`. Only the first 1,001 jobs of a site are stored, and can be changed; those after these stay plain, and
/// are only counted.
#[derive(Debug, Drop)]
pub struct PlanBuilder {
    alloc: Global,
    sites: Vec<DraftSite>,
    edges: Vec<DraftEdge>,
}

impl Model for PlanBuilder {
    ghost use Rattle.dine_builder.specs.Draft.{Draft};

    ghost Value = { Draft };

    ghost use Rattle.dine_builder.specs.private.DraftFields.{seen_draft};

    ghost view = { seen_draft };
}

impl PlanBuilder {
    /// Makes a builder of an empty draft. It allocates nothing.
    pub fn open(alloc: Global) -> PlanBuilder
        ensures { result ≡ empty_draft }
    {
        PlanBuilder {
            alloc,
            sites: Vec::new(alloc),
            edges: Vec::new(alloc),
        }
    }

    // [`PlanBuilder::site`] by numbers.
    pub(crate) fn add_site(&mut self, name: &str, jobs: u32) -> Result<u32, AllocError>
        ensures number { IfOk result (λ s. s ≡ length self.old.sites) }
        ensures changed { OnOk result (self.new ≡ with_site name.now jobs self.old) }
        ensures refused { OnErr result (self.new ≡ self.old) }
    {
        let number = self.sites.len();
        if number >= u32::MAX as usize {
            return Err(AllocError);
        }
        let name = String::from_str(self.alloc, name)?;
        let kept = jobs.min(MAX_KEPT_JOBS);
        let plain = jobs - kept;
        let jobs = plain_jobs(self.alloc, kept)?;
        self.sites.push(DraftSite {
            name,
            jobs,
            plain,
            resigns: false,
        })?;
        Ok(number as u32)
    }

    // [`PlanBuilder::edge`] by numbers.
    pub(crate) fn add_edge(&mut self, a: u32, b: u32) -> Result<u32, AllocError>
        ensures number { IfOk result (λ e. e ≡ length self.old.edges) }
        ensures changed { OnOk result (self.new ≡ with_edge a b self.old) }
        ensures refused { OnErr result (self.new ≡ self.old) }
    {
        let number = self.edges.len();
        if number >= u32::MAX as usize {
            return Err(AllocError);
        }
        self.edges.push(DraftEdge { a, b, value: 0 })?;
        Ok(number as u32)
    }

    // [`PlanBuilder::value`] by numbers.
    pub(crate) fn set_value(&mut self, edge: u32, value: u64) -> bool
        ensures found { result ≡ has_edge edge self.old }
        ensures changed { self.new ≡ with_value edge value self.old }
    {
        if edge as usize >= self.edges.len() {
            return false;
        }
        self.edges[edge as usize].value = value;
        true
    }

    // [`PlanBuilder::resign`] by numbers.
    pub(crate) fn set_resigning(&mut self, site: u32) -> bool
        ensures found { result ≡ has_site site self.old }
        ensures changed { self.new ≡ with_resigning site self.old }
    {
        if site as usize >= self.sites.len() {
            return false;
        }
        self.sites[site as usize].resigns = true;
        true
    }

    // [`PlanBuilder::turns`] by numbers.
    pub(crate) fn set_turns(&mut self, site: u32, k: u32, turns: u32) -> bool
        ensures found { result ≡ has_job site k self.old }
        ensures changed { self.new ≡ with_turns site k turns self.old }
    {
        match self.job(site, k) {
            Some(job) => {
                self.put_job(site, k, DraftJob { turns, ..job });
                true
            }
            None => false,
        }
    }

    // [`PlanBuilder::fails`] by numbers.
    pub(crate) fn set_failing(&mut self, site: u32, k: u32) -> bool
        ensures found { result ≡ has_job site k self.old }
        ensures changed { self.new ≡ with_failure site k self.old }
    {
        match self.job(site, k) {
            Some(job) => {
                self.put_job(site, k, DraftJob { fails: true, ..job });
                true
            }
            None => false,
        }
    }

    // [`PlanBuilder::act`] by numbers.
    pub(crate) fn set_act(&mut self, site: u32, k: u32, act: Act) -> bool
        ensures found { result ≡ has_job site k self.old }
        ensures changed { self.new ≡ with_act site k act self.old }
    {
        match self.job(site, k) {
            Some(job) => {
                self.put_job(site, k, DraftJob { act, ..job });
                true
            }
            None => false,
        }
    }

    // Job `k` of a site, if there is one.
    fn job(&self, site: u32, k: u32) -> Option<DraftJob>
        ensures found { is_some result ≡ has_job site k self.now }
        ensures job { IfSome result (λ job. job ≡ job_at site k self.now) }
    {
        let site = site as usize;
        if site >= self.sites.len() || k < 1 || k as usize > self.sites[site].jobs.len() {
            return None;
        }
        Some(self.sites[site].jobs[(k - 1) as usize])
    }

    // Puts a job in the place of job `k` of a site.
    fn put_job(&mut self, site: u32, k: u32, job: DraftJob)
        requires { IsTrue (has_job site k self.old) }
        ensures { self.new ≡ with_job site k job self.old }
    {
        self.sites[site as usize].jobs[(k - 1) as usize] = job;
    }

    // The number of sites.
    pub(crate) fn site_count(&self) -> usize
        ensures { result ≡ length self.now.sites }
    {
        self.sites.len()
    }

    // The number of edges.
    pub(crate) fn edge_count(&self) -> usize
        ensures { result ≡ length self.now.edges }
    {
        self.edges.len()
    }

    // The name of a site, if there is one of this number.
    pub(crate) fn site_name(&self, site: u32) -> Option<&str>
        ensures found { is_some result ≡ has_site site self.now }
        ensures name { IfSome result (λ name. name.now ≡ (site_at site self.now).name) }
    {
        match self.sites.get(site as usize) {
            Some(site) => Some(site.name.as_str()),
            None => None,
        }
    }

    // The two ends of an edge as they were given, if there is one of this number.
    pub(crate) fn edge_ends(&self, edge: u32) -> Option<(u32, u32)>
        ensures found { is_some result ≡ has_edge edge self.now }
        ensures ends { IfSome result (λ ends. ends ≡ ((edge_at edge self.now).a, (edge_at edge self.now).b)) }
    {
        match self.edges.get(edge as usize) {
            Some(edge) => Some((edge.a, edge.b)),
            None => None,
        }
    }

    /// Returns the plan of the draft. If no site has more than 1,000 jobs, it is the plan of a text that says the same.
    ///
    /// # Errors
    ///
    /// Returns the first cause of `PlanFault` that holds of the draft, at the least position: `TooManyJobs` if a site
    /// has more than 4,294,967,295 jobs, which no call of `site` adds. It is never one in the form of a text, `TwoActs`
    /// or `UnknownPolicy`. Returns `Memory`, for no other cause, if an allocation fails. The builder stays as it is.
    pub fn finish(&self) -> Result<Plan, PlanFault>
        ensures unrefused { OnOk result (first_fault_of self.now ≡ None) }
        ensures plan { IfOk result (λ p. p ≡ plan_of_draft self.now) }
        ensures refused { IfErr result (λ f. f ≢ PlanFault.Memory → first_fault_of self.now ≡ Some f) }
        ensures cause { IfErr result IsOfDraft }
    {
        let draft = self.draft()?;
        draft.finish(self.alloc)
    }

    /// Returns the draft, before anything of it is checked.
    ///
    /// # Errors
    ///
    /// Returns `AllocError` if an allocation fails.
    pub fn draft(&self) -> Result<Draft, AllocError>
        ensures draft { IfOk result (λ draft. seen_draft draft ≡ draft_of self.now) }
        ensures text { IfOk result (λ draft. listed_draft draft ≡ text_of self.now) }
    {
        let sites = sites_of(self.alloc, self.sites.as_slice())?;
        let edges = self.edges.clone()?;
        Ok(Draft {
            version: 2,
            most_jobs: MAX_JOBS,
            sites,
            edges,
            two_acts: None,
            other_policy: None,
        })
    }
}

fn sites_of(alloc: Global, drafts: &[DraftSite]) -> Result<Vec<Site>, AllocError>
    ensures sites { IfOk result (λ v. map seen_site v.items ≡ map site_of_draft (map seen_draft_site drafts.now)) }
    ensures listed { IfOk result (λ v. map listed_site v.items ≡ map site_in_text (map seen_draft_site drafts.now)) }
{
    let mut sites = Vec::new(alloc);
    for draft in drafts {
        sites.push(site_of(alloc, draft)?)?;
    }
    Ok(sites)
}

fn site_of(alloc: Global, draft: &DraftSite) -> Result<Site, AllocError>
    ensures site { IfOk result (λ s. seen_site s ≡ site_of_draft (seen_draft_site draft.now)) }
    ensures listed { IfOk result (λ s. listed_site s ≡ site_in_text (seen_draft_site draft.now)) }
{
    let name = String::from_str(alloc, draft.name.as_str())?;
    let jobs = jobs_of(alloc, draft.jobs.as_slice())?;
    Ok(Site {
        name,
        jobs,
        plain: draft.plain,
        resigns: draft.resigns,
    })
}

fn jobs_of(alloc: Global, drafts: &[DraftJob]) -> Result<Vec<Job>, AllocError>
    ensures { IfOk result (λ v. map seen_job v.items ≡ map job_of_draft drafts.now) }
{
    let mut jobs = Vec::with_capacity(alloc, drafts.len())?;
    for draft in drafts {
        jobs.push(job_of(*draft))?;
    }
    Ok(jobs)
}

// The job of a plan, which has its number as its name.
fn job_of(draft: DraftJob) -> Job
    ensures { seen_job result ≡ job_of_draft draft }
{
    Job {
        name: JobName::Number(draft.number as u32),
        turns: draft.turns,
        fails: draft.fails,
        act: draft.act,
    }
}

// Jobs 1 to `jobs`, as a new site has them.
fn plain_jobs(alloc: Global, jobs: u32) -> Result<Vec<DraftJob>, AllocError>
    requires { jobs ≤ MAX_TEXT_JOBS + 1 }
    ensures { IfOk result (λ v. v.items ≡ map plain_job (range_with_len 1 jobs)) }
{
    let mut plain = Vec::with_capacity(alloc, jobs as usize)?;
    for i in 0..jobs {
        plain.push(DraftJob {
            turns: 0,
            number: (i + 1) as u16,
            fails: false,
            act: Act::Add(0),
        })?;
    }
    Ok(plain)
}
