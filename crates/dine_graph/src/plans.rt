//! A plan: sites with their jobs, and edges between two sites.
ghost use Rattle.std.specs.Prelude.{◌≡◌, ℕ, ◌<◌, ◌≤◌, map, length, Some, All, IfOk, IsTrue, slice_get};
ghost use Rattle.dine_graph.specs.Plan.{IsPlan, site_count, edge_count, job_count, job_of, name_of};
ghost use Rattle.dine_graph.specs.Plan.{ends_of, other_of, edges_of, is_end, resigns, value_of};
ghost use Rattle.dine_graph.specs.Job.{plain_job, seen_job, seen_plan_job};
ghost use Rattle.std.specs.List.Sorted.{IsStrictlyIncreasing};

use crate::job_name::{JobName, PlanJobName};
use crate::places::{lists_at, places_in};
use dine_token::Act;
use std::alloc::{AllocError, Global};
use std::marker::Model;

/// One job of a site.
#[derive(Debug, PartialEq, Eq, Drop)]
pub struct Job {
    /// The name of the job. Two jobs of a site may have the same.
    pub name: JobName,
    /// The number of turns that the job takes, at most 1,000,000.
    pub turns: u32,
    /// Whether the job fails.
    pub fails: bool,
    /// What its meal does to the value of each edge of the site. A job whose plan text names no act adds 0.
    pub act: Act,
}

/// A job of a site, as [`Plan::job`] returns it.
#[derive(Clone, Copy, Debug)]
pub struct PlanJob<'p> {
    /// The name of the job. Two jobs of a site may have the same.
    pub name: PlanJobName<'p>,
    /// The number of turns that the job takes, at most 1,000,000.
    pub turns: u32,
    /// Whether the job fails.
    pub fails: bool,
    /// What its meal does to the value of each edge of the site.
    pub act: Act,
}

/// A site of a plan, as [`Plan::new`] takes it. Its jobs are those of a list, and after these a number of plain jobs,
/// which are not stored. A plain job has its number as its name, takes no turns, does not fail, and adds 0.
#[derive(Debug, Drop)]
pub struct Site {
    /// The name of the site.
    pub name: String,
    /// Its first jobs, in order.
    pub jobs: Vec<Job>,
    /// The number of plain jobs after these.
    pub plain: u32,
    /// Whether it drops the jobs that it has left after one failed.
    pub resigns: bool,
}

/// A plan: 1 to 64 sites in the order of the plan text, each with a name of its own and at most 4,294,967,295 jobs, and
/// at most 512 edges in the order of the text, each between two sites that no other edge joins. Sites and edges are
/// numbered from 0, and the jobs of a site from 1. A plan that was read from a text has at most 1,000 jobs a site.
#[derive(Debug, Drop)]
pub struct Plan {
    version: u32,
    sites: Vec<Site>,
    ends: Vec<(u32, u32)>,
    values: Vec<u64>,
    // For each site its edges, ascending, and for each edge its places in the lists of its two ends.
    edges_of: Vec<Vec<u32>>,
    places: Vec<(u32, u32)>,
}

impl Model for Plan {
    ghost use Rattle.dine_graph.specs.Plan.{SeenPlan};

    ghost Value = { SeenPlan };

    ghost use Rattle.dine_graph.specs.private.Fields.{seen_plan, IsSound};

    ghost view = { seen_plan };

    ghost invariant = { IsSound };
}

impl Plan {
    ghost use Rattle.dine_graph.specs.Site.{plan_of_lists};

    /// Makes the plan of this version, these sites, these ends of edges and the values of the edges. The caller must
    /// prove that they are a plan. `dine_reader` reads plans from texts, and refuses any text that is none.
    ///
    /// # Errors
    ///
    /// Returns `AllocError` if an allocation fails.
    pub fn new(
        alloc: Global,
        version: u32,
        sites: Vec<Site>,
        ends: Vec<(u32, u32)>,
        values: Vec<u64>,
    ) -> Result<Plan, AllocError>
        requires { IsPlan (plan_of_lists version sites.items ends.items values.items) }
        ensures { IfOk result (λ p. p ≡ plan_of_lists version sites.items ends.items values.items) }
    {
        let edges_of = lists_at(alloc, sites.len(), ends.as_slice())?;
        let places = places_in(alloc, ends.as_slice(), edges_of.as_slice())?;
        Ok(Plan {
            version,
            sites,
            ends,
            values,
            edges_of,
            places,
        })
    }

    /// Returns the version of the plan's format, 1 or 2. In version 1 each value is 0, each job adds 0, and no site
    /// resigns.
    pub fn version(&self) -> u32
        ensures version { result ≡ self.now.version }
        ensures plan { IsPlan self.now }
    {
        self.version
    }

    /// Returns the number of sites, 1 to 64.
    pub fn sites(&self) -> u32
        ensures count { result ≡ site_count self.now }
        ensures plan { IsPlan self.now }
    {
        self.sites.len() as u32
    }

    /// Returns the number of edges, 0 to 512.
    pub fn edges(&self) -> u32
        ensures count { result ≡ edge_count self.now }
        ensures plan { IsPlan self.now }
    {
        self.ends.len() as u32
    }

    /// Returns the name of a site, whose number is below `sites`.
    pub fn name(&self, site: u32) -> &str
        requires { site < site_count self.now }
        ensures name { result.now ≡ name_of self.now site }
        ensures plan { IsPlan self.now }
    {
        self.sites[site as usize].name.as_str()
    }

    /// Returns the number of jobs of a site, 0 to 4,294,967,295.
    pub fn jobs(&self, site: u32) -> u32
        requires { site < site_count self.now }
        ensures count { result ≡ job_count self.now site }
        ensures plan { IsPlan self.now }
    {
        let owner = &self.sites[site as usize];
        owner.jobs.len() as u32 + owner.plain
    }

    /// Returns job `k` of a site, from 1 to `jobs`.
    pub fn job(&self, site: u32, k: u32) -> PlanJob<'_>
        requires site_in { site < site_count self.now }
        requires from_one { 1 ≤ k }
        requires job_in { k ≤ job_count self.now site }
        ensures job { seen_plan_job result ≡ job_of self.now site k }
        ensures plan { IsPlan self.now }
    {
        let owner = &self.sites[site as usize];
        match owner.jobs.get((k - 1) as usize) {
            Some(job) => listed_job(job),
            None => plain_job(k),
        }
    }

    /// Returns whether a site, whose number is below `sites`, drops the jobs that it has left after one failed.
    pub fn resigns(&self, site: u32) -> bool
        requires { site < site_count self.now }
        ensures policy { result ≡ resigns self.now site }
        ensures plan { IsPlan self.now }
    {
        self.sites[site as usize].resigns
    }

    /// Returns the value of an edge before the first meal, at most 1,000,000. The edge's number is below `edges`.
    pub fn value(&self, edge: u32) -> u64
        requires { edge < edge_count self.now }
        ensures value { result ≡ value_of self.now edge }
        ensures plan { IsPlan self.now }
    {
        self.values[edge as usize]
    }

    /// Returns the edges that have the site as an end, ascending. The place of an edge is its position here, from 0.
    pub fn edges_of(&self, site: u32) -> &[u32]
        requires { site < site_count self.now }
        ensures edges { result.now ≡ edges_of self.now site }
        ensures ascending { IsStrictlyIncreasing result.now }
        ensures ends { All (λ e. IsTrue (is_end self.now site e)) result.now }
        ensures within { All (λ e. e < edge_count self.now) result.now }
        ensures plan { IsPlan self.now }
    {
        self.edges_of[site as usize].as_slice()
    }

    /// Returns the place of an edge in `edges_of` the site, which is an end of the edge.
    pub fn place(&self, edge: u32, site: u32) -> u32
        requires edge_in { edge < edge_count self.now }
        requires end { IsTrue (is_end self.now site edge) }
        ensures place { slice_get (edges_of self.now site) result ≡ Some edge }
        ensures only { (i : ℕ) → slice_get (edges_of self.now site) i ≡ Some edge → i ≡ result }
        ensures within { result < length (edges_of self.now site) }
        ensures plan { IsPlan self.now }
    {
        let (lo, _) = self.ends(edge);
        let (at_lo, at_hi) = self.places[edge as usize];
        if lo == site { at_lo } else { at_hi }
    }

    /// Returns the two ends of an edge, whose number is below `edges`, the lower site number first.
    pub fn ends(&self, edge: u32) -> (u32, u32)
        requires { edge < edge_count self.now }
        ensures ends { result ≡ ends_of self.now edge }
        ensures plan { IsPlan self.now }
    {
        self.ends[edge as usize]
    }

    /// Returns the end of an edge that is not the site, which is the other end.
    pub fn other(&self, edge: u32, site: u32) -> u32
        requires edge_in { edge < edge_count self.now }
        requires end { IsTrue (is_end self.now site edge) }
        ensures other { result ≡ other_of self.now edge site }
        ensures end { IsTrue (is_end self.now result edge) }
        ensures plan { IsPlan self.now }
    {
        let (lo, hi) = self.ends(edge);
        if lo == site { hi } else { lo }
    }
}

// A job of the list of a site.
fn listed_job(job: &Job) -> PlanJob<'_>
    ensures { seen_plan_job result ≡ seen_job job.now }
{
    let name = match &job.name {
        JobName::Own(text) => PlanJobName::Own(text.as_str()),
        JobName::Number(number) => PlanJobName::Number(*number),
    };
    PlanJob {
        name,
        turns: job.turns,
        fails: job.fails,
        act: job.act,
    }
}

// Plain job `k` of a site, which no list has.
fn plain_job<'p>(k: u32) -> PlanJob<'p>
    ensures { seen_plan_job result ≡ plain_job k }
{
    PlanJob {
        name: PlanJobName::Number(k),
        turns: 0,
        fails: false,
        act: Act::Add(0),
    }
}
