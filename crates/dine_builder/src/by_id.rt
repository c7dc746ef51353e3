//! The calls of a builder, by which a program adds and changes.
ghost use Rattle.std.specs.Prelude.{◌≡◌, IfErr, IfOk, OnErr, OnOk, is_ok, length};
ghost use Rattle.dine_builder.specs.Draft.{has_edge, has_job, has_site, with_act, with_edge, with_failure};
ghost use Rattle.dine_builder.specs.Draft.{with_open_site, with_resigning, with_site, with_turns, with_value};

use crate::absent::Missing;
use crate::drafts::{EPOCH_JOBS, PlanBuilder};
use dine_graph::{EdgeId, SiteId};
use dine_token::Act;
use std::alloc::AllocError;

impl PlanBuilder {
    /// Adds a site of this name with `jobs` jobs, which may be any number, and returns the number of the site. At first
    /// its jobs take no turns, do not fail and add 0, and the site goes on after a job that failed. The first 1,001
    /// jobs are stored, and can be changed. Those after these are only counted, so a site of a million jobs takes no
    /// more memory in the plan than one of 1,001.
    ///
    /// # Errors
    ///
    /// Returns `AllocError` if an allocation fails, or if there are 4,294,967,295 sites. The builder stays as it is.
    pub fn site(&mut self, name: &str, jobs: u32) -> Result<SiteId, AllocError>
        ensures number { IfOk result (λ site. site.0 ≡ length self.old.sites) }
        ensures changed { OnOk result (self.new ≡ with_site name.now jobs self.old) }
        ensures refused { OnErr result (self.new ≡ self.old) }
    {
        match self.add_site(name, jobs) {
            Ok(number) => Ok(SiteId(number)),
            Err(error) => Err(error),
        }
    }

    /// Adds a site of this name for an open run, and returns its number: it has 1,000 jobs (`EPOCH_JOBS`), which is as
    /// many as it does in an epoch, and resigns.
    ///
    /// # Errors
    ///
    /// Returns `AllocError` if an allocation fails, or if there are 4,294,967,295 sites. The builder stays as it is.
    pub fn open_site(&mut self, name: &str) -> Result<SiteId, AllocError>
        ensures number { IfOk result (λ site. site.0 ≡ length self.old.sites) }
        ensures changed { OnOk result (self.new ≡ with_open_site name.now self.old) }
        ensures refused { OnErr result (self.new ≡ self.old) }
    {
        let site = self.site(name, EPOCH_JOBS)?;
        self.set_resigning(site.0);
        Ok(site)
    }

    /// Adds an edge between two sites, in either order, and returns its number. At first its value is 0. The sites may
    /// be added later: `finish` refuses an end that is no site's number then.
    ///
    /// # Errors
    ///
    /// Returns `AllocError` if an allocation fails, or if there are 4,294,967,295 edges. The builder stays as it is.
    pub fn edge(&mut self, a: SiteId, b: SiteId) -> Result<EdgeId, AllocError>
        ensures number { IfOk result (λ edge. edge.0 ≡ length self.old.edges) }
        ensures changed { OnOk result (self.new ≡ with_edge a.0 b.0 self.old) }
        ensures refused { OnErr result (self.new ≡ self.old) }
    {
        match self.add_edge(a.0, b.0) {
            Ok(number) => Ok(EdgeId(number)),
            Err(error) => Err(error),
        }
    }

    /// Sets the value of an edge before the first meal, at most 1,000,000 in a plan.
    ///
    /// # Errors
    ///
    /// Returns `Missing` if there is no such edge. Nothing changes then.
    pub fn value(&mut self, edge: EdgeId, value: u64) -> Result<(), Missing>
        ensures found { is_ok result ≡ has_edge edge.0 self.old }
        ensures missing { IfErr result (λ missing. missing ≡ Missing.Edge edge) }
        ensures changed { self.new ≡ with_value edge.0 value self.old }
    {
        if self.set_value(edge.0, value) {
            Ok(())
        } else {
            Err(Missing::Edge(edge))
        }
    }

    /// Makes a site drop the jobs that it has left after one failed.
    ///
    /// # Errors
    ///
    /// Returns `Missing` if there is no such site. Nothing changes then.
    pub fn resign(&mut self, site: SiteId) -> Result<(), Missing>
        ensures found { is_ok result ≡ has_site site.0 self.old }
        ensures missing { IfErr result (λ missing. missing ≡ Missing.Site site) }
        ensures changed { self.new ≡ with_resigning site.0 self.old }
    {
        if self.set_resigning(site.0) {
            Ok(())
        } else {
            Err(Missing::Site(site))
        }
    }

    /// Sets the number of turns of job `k` of a site, at most 1,000,000 in a plan.
    ///
    /// # Errors
    ///
    /// Returns `Missing` if there is no such job, or if `k` is above 1,001. Nothing changes then.
    pub fn turns(&mut self, site: SiteId, k: u32, turns: u32) -> Result<(), Missing>
        ensures found { is_ok result ≡ has_job site.0 k self.old }
        ensures missing { IfErr result (λ missing. missing ≡ Missing.Job site k) }
        ensures changed { self.new ≡ with_turns site.0 k turns self.old }
    {
        if self.set_turns(site.0, k, turns) {
            Ok(())
        } else {
            Err(Missing::Job(site, k))
        }
    }

    /// Makes job `k` of a site fail.
    ///
    /// # Errors
    ///
    /// Returns `Missing` if there is no such job, or if `k` is above 1,001. Nothing changes then.
    pub fn fails(&mut self, site: SiteId, k: u32) -> Result<(), Missing>
        ensures found { is_ok result ≡ has_job site.0 k self.old }
        ensures missing { IfErr result (λ missing. missing ≡ Missing.Job site k) }
        ensures changed { self.new ≡ with_failure site.0 k self.old }
    {
        if self.set_failing(site.0, k) {
            Ok(())
        } else {
            Err(Missing::Job(site, k))
        }
    }

    /// Sets what the meal of job `k` of a site does to the value of each edge of the site, by an amount of at most
    /// 1,000,000 in a plan.
    ///
    /// # Errors
    ///
    /// Returns `Missing` if there is no such job, or if `k` is above 1,001. Nothing changes then.
    pub fn act(&mut self, site: SiteId, k: u32, act: Act) -> Result<(), Missing>
        ensures found { is_ok result ≡ has_job site.0 k self.old }
        ensures missing { IfErr result (λ missing. missing ≡ Missing.Job site k) }
        ensures changed { self.new ≡ with_act site.0 k act self.old }
    {
        if self.set_act(site.0, k, act) {
            Ok(())
        } else {
            Err(Missing::Job(site, k))
        }
    }
}
