//! What a job or a site of a text may say and a plan does not have: two acts, and another policy.
ghost use Rattle.std.specs.Prelude.{◌≡◌, ◌≤◌, length, map, position};
ghost use Rattle.toml.specs.View.{view};
ghost use Rattle.dine_reader.specs.Document.{has_both, has_other_policy, has_two_acts};

use crate::documents::{has_key, items_at, text_at};
use toml::Value;

/// Returns whether a job of the site both adds and sets.
pub(crate) fn has_two_acts(site: &Value) -> bool
    ensures { result ≡ has_two_acts (view site.now) }
{
    let jobs = items_at(site, "jobs");
    jobs.iter().any(has_both)
}

fn has_both(job: &Value) -> bool
    ensures { result ≡ has_both (view job.now) }
{
    has_key(job, "add") && has_key(job, "set")
}

/// Returns the first site whose `on_fault` is neither `go` nor `resign`.
pub(crate) fn first_other_policy(sites: &[Value]) -> Option<u32>
    requires { length sites.now ≤ u32.MAX }
    ensures { result ≡ position has_other_policy (map view sites.now) }
{
    match sites.iter().position(has_other_policy) {
        Some(site) => Some(site as u32),
        None => None,
    }
}

#[tactic(auto, unfolding(crate::specs::Document::has_other_policy))]
fn has_other_policy(site: &Value) -> bool
    ensures { result ≡ has_other_policy (view site.now) }
{
    let policy = text_at(site, "on_fault");
    has_key(site, "on_fault") && !(policy == "go" || policy == "resign")
}
