//! The checks on what meals do to values, and on what failed jobs do to sites.
ghost use Rattle.std.specs.Prelude.{◌≡◌, ◌≤◌, length, map, position};
ghost use Rattle.dine_graph.specs.Job.{seen_job};
ghost use Rattle.dine_graph.specs.Site.{seen_site};
ghost use Rattle.dine_draft.specs.Draft.{seen_draft};
ghost use Rattle.dine_draft.specs.Refusals.{act_refusals, first_some, has_large_act, has_large_value, is_large};

use crate::drafts::{Draft, DraftEdge};
use crate::plan_fault::PlanFault;
use dine_graph::{Job, Site};
use dine_token::{Act, MAX_NUMBER};

/// Returns the first fault in the acts of jobs, the values of edges and the policies of sites.
#[tactic(auto, unfolding(crate::specs::Refusals::act_refusals))]
pub(crate) fn first_act_fault(draft: &Draft) -> Option<PlanFault>
    requires sites { length draft.now.sites.items ≤ u32.MAX }
    requires edges { length draft.now.edges.items ≤ u32.MAX }
    ensures { result ≡ first_some (act_refusals (seen_draft draft.now)) }
{
    if let Some(site) = draft.two_acts {
        return Some(PlanFault::TwoActs(site));
    }
    if let Some(site) = first_with_large_act(draft.sites.as_slice()) {
        return Some(PlanFault::ActTooLarge(site as u32));
    }
    if let Some(edge) = first_large_value(draft.edges.as_slice()) {
        return Some(PlanFault::ValueTooLarge(edge as u32));
    }
    if let Some(site) = draft.other_policy {
        return Some(PlanFault::UnknownPolicy(site));
    }
    None
}

fn first_with_large_act(sites: &[Site]) -> Option<usize>
    ensures { result ≡ position has_large_act (map seen_site sites.now) }
{
    sites.iter().position(has_large_act)
}

// Whether a job of the site adds or sets more than 1,000,000. A plain job adds 0.
fn has_large_act(site: &Site) -> bool
    ensures { result ≡ has_large_act (seen_site site.now) }
{
    let jobs = site.jobs.as_slice();
    jobs.iter().any(is_large)
}

fn is_large(job: &Job) -> bool
    ensures { result ≡ is_large (seen_job job.now) }
{
    match job.act {
        Act::Add(amount) | Act::Set(amount) => amount > MAX_NUMBER,
    }
}

fn first_large_value(edges: &[DraftEdge]) -> Option<usize>
    ensures { result ≡ position has_large_value edges.now }
{
    edges.iter().position(has_large_value)
}

// Whether the value of the edge is above 1,000,000.
#[tactic(auto, unfolding(crate::specs::Refusals::has_large_value))]
fn has_large_value(edge: &DraftEdge) -> bool
    ensures { result ≡ has_large_value edge.now }
{
    edge.value > MAX_NUMBER
}
