//! The checks on the sites of a draft.
ghost use Rattle.std.specs.Prelude.{◌≡◌, ◌+◌, ◌<◌, ◌^◌, ◌≤◌, [], length, map, position, IfOk};
ghost use Rattle.std.specs.Fmt.{decimal};
ghost use Rattle.std.specs.List.{list_any, range_with_len};
ghost use Rattle.std.specs.Str.{bytes_eq};
ghost use Rattle.dine_graph.specs.Job.{plain_job, seen_job};
ghost use Rattle.dine_graph.specs.Plan.{is_name, is_name_byte};
ghost use Rattle.dine_graph.specs.Site.{seen_site};
ghost use Rattle.dine_draft.specs.Draft.{names_of};
ghost use Rattle.dine_draft.specs.Refusals.{first_some, first_twice, has_bad_name, has_many_jobs};
ghost use Rattle.dine_draft.specs.Refusals.{has_many_turns, is_long, is_unnamed, site_refusals};

use crate::plan_fault::PlanFault;
use dine_graph::{Job, JobName, MAX_NAME, MAX_SITES, MAX_TURNS, Site};
use std::alloc::{AllocError, Global};
use std::collections::BTreeSet;

/// Returns the first fault in the sites of a draft, of which each may have `most_jobs` jobs.
#[tactic(auto, unfolding(crate::specs::Refusals::site_refusals))]
pub(crate) fn first_site_fault(
    alloc: Global,
    most_jobs: u32,
    sites: &[Site],
) -> Result<Option<PlanFault>, AllocError>
    requires { length sites.now ≤ u32.MAX }
    ensures { IfOk result (λ o. o ≡ first_some (site_refusals most_jobs (map seen_site sites.now))) }
{
    if let Some(site) = first_bad_name(sites) {
        return Ok(Some(PlanFault::BadName(site as u32)));
    }
    if let Some(site) = first_site_twice(alloc, sites)? {
        return Ok(Some(PlanFault::SiteTwice(site as u32)));
    }
    if sites.is_empty() {
        return Ok(Some(PlanFault::NoSite));
    }
    if sites.len() > MAX_SITES as usize {
        return Ok(Some(PlanFault::TooManySites));
    }
    if let Some(site) = first_with_many_jobs(most_jobs, sites) {
        return Ok(Some(PlanFault::TooManyJobs(site as u32)));
    }
    if let Some(site) = first_with_many_turns(sites) {
        return Ok(Some(PlanFault::TurnsTooLarge(site as u32)));
    }
    Ok(None)
}

fn first_bad_name(sites: &[Site]) -> Option<usize>
    ensures { result ≡ position has_bad_name (map seen_site sites.now) }
{
    sites.iter().position(has_bad_name)
}

// Whether the name of the site, or of one of its jobs, is no name.
fn has_bad_name(site: &Site) -> bool
    ensures { result ≡ has_bad_name (seen_site site.now) }
{
    let jobs = site.jobs.as_slice();
    if !is_name(site.name.as_str()) {
        return true;
    }
    jobs.iter().any(is_unnamed) | has_unnamed_number(jobs.len(), site.plain)
}

// Whether the number of a plain job after this number of jobs is no name. A number always is one.
fn has_unnamed_number(listed: usize, plain: u32) -> bool
    requires { listed < 2 ^ 63 }
    ensures { result ≡ list_any is_unnamed (map plain_job (range_with_len (listed + 1) plain)) }
{
    false
}

// Whether the name of the job is no name. A number always is one.
fn is_unnamed(job: &Job) -> bool
    ensures { result ≡ is_unnamed (seen_job job.now) }
{
    match &job.name {
        JobName::Own(text) => !is_name(text.as_str()),
        JobName::Number(number) => !is_number(*number),
    }
}

// Whether a number in decimal digits is a name.
fn is_number(number: u32) -> bool
    ensures { result ≡ is_name (decimal number) }
{
    true
}

// Whether a text is a name: 1 to 32 bytes, each an ASCII letter, an ASCII digit, '_' or '-'.
fn is_name(text: &str) -> bool
    ensures { result ≡ is_name text.now }
{
    let bytes = text.as_bytes();
    !bytes.is_empty() && bytes.len() <= MAX_NAME && bytes.iter().all(|byte| is_name_byte(*byte))
}

fn is_name_byte(byte: u8) -> bool
    ensures { result ≡ is_name_byte byte }
{
    byte.is_ascii_alphanumeric() || byte == b'_' || byte == b'-'
}

// The least position of a site whose name an earlier site has.
fn first_site_twice(alloc: Global, sites: &[Site]) -> Result<Option<usize>, AllocError>
    ensures { IfOk result (λ o. o ≡ first_twice bytes_eq [] (names_of (map seen_site sites.now))) }
{
    // A set, since no limit on the number of sites has been checked yet.
    let mut names = BTreeSet::new(alloc);
    for (i, site) in sites.iter().enumerate() {
        let is_new = names.insert(site.name.as_str())?;
        if !is_new {
            return Ok(Some(i));
        }
    }
    Ok(None)
}

fn first_with_many_jobs(most: u32, sites: &[Site]) -> Option<usize>
    ensures { result ≡ position (has_many_jobs most) (map seen_site sites.now) }
{
    sites.iter().position(|site| has_many_jobs(most, site))
}

// Whether the site has more than this number of jobs.
fn has_many_jobs(most: u32, site: &Site) -> bool
    ensures { result ≡ has_many_jobs most (seen_site site.now) }
{
    site.jobs.len() as u64 + u64::from(site.plain) > u64::from(most)
}

fn first_with_many_turns(sites: &[Site]) -> Option<usize>
    ensures { result ≡ position has_many_turns (map seen_site sites.now) }
{
    sites.iter().position(has_many_turns)
}

// Whether a job of the site has turns above 1,000,000. A plain job has none.
fn has_many_turns(site: &Site) -> bool
    ensures { result ≡ has_many_turns (seen_site site.now) }
{
    let jobs = site.jobs.as_slice();
    jobs.iter().any(is_long)
}

fn is_long(job: &Job) -> bool
    ensures { result ≡ is_long (seen_job job.now) }
{
    job.turns > MAX_TURNS
}
