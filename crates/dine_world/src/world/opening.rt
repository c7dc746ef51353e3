// The parts of a world before its first event.
ghost use Rattle.std.specs.Prelude.{◌≡◌, ◌<◌, ◌≤◌, ◌+◌, ◌*◌, Bool, List, [], All, IfOk, Vec, false, map, length};
ghost use Rattle.std.specs.Prelude.{option_and_then, replicate, slice_get, sum};
ghost use Rattle.std.specs.List.{range_with_len};
ghost use Rattle.dine_token.specs.declared.limits.TheConstants.{MAX_JOBS};
ghost use Rattle.dine_graph.specs.declared.limits.TheConstants.{MAX_EDGES, MAX_SITES};
ghost use Rattle.dine_graph.specs.Plan.{edge_count, edges_of, job_count, job_of, site_count};
ghost use Rattle.dine_rules.specs.Bound.{bound_of, meals_due};
ghost use Rattle.dine_rules.specs.declared.letters.Letter.{Letter};
ghost use Rattle.dine_rules.specs.Local.{start_of};
ghost use Rattle.dine_world.specs.WorldSites.{IsSiteOf, outcomes_of};
ghost use Rattle.dine_world.specs.private.StepsOfSites.{IsNotEating};
ghost use Rattle.dine_rules.specs.World.{start};
ghost use Rattle.dine_world.specs.Worlds.{AreSitesOf, ends_seen, lists_of};
ghost use Rattle.dine_rules.specs.Outcomes.{with_outcomes};

use super::EdgeEnds;
use super::outcomes::Outcomes;
use super::queue::Queue;
use super::sites::WorldSite;
use dine_graph::Plan;
use dine_set::BitSet64;
use dine_site::SiteCore;
use dine_site::site::{fresh_forks, fresh_tokens};
use std::alloc::{AllocError, Global};

/// Returns the ends of all edges, with the place of the edge at each.
pub(super) fn ends_of(alloc: Global, plan: &Plan) -> Result<Vec<EdgeEnds>, AllocError>
    ensures { IfOk result (λ ends. ends.items ≡ map (ends_seen plan.now) (range_with_len 0 (edge_count plan.now))) }
{
    let mut ends = Vec::with_capacity(alloc, plan.edges() as usize)?;
    for edge in 0..plan.edges() {
        let (lower, higher) = plan.ends(edge);
        ends.push_reserved(EdgeEnds {
            lower,
            lower_place: plan.place(edge, lower),
            higher,
            higher_place: plan.place(edge, higher),
        });
    }
    Ok(ends)
}

/// Opens two empty links for each edge.
pub(super) fn links_of(alloc: Global, plan: &Plan) -> Result<Vec<Queue>, AllocError>
    ensures count { IfOk result (λ links. length links.items ≡ 2 * edge_count plan.now) }
    ensures empty { IfOk result (λ links. All (λ (letters : List Letter). letters ≡ []) links.items) }
{
    let count = 2 * (plan.edges() as usize);
    let mut links = Vec::with_capacity(alloc, count)?;
    for _ in 0..count {
        links.push_reserved(Queue::open(alloc)?);
    }
    Ok(links)
}

/// Returns a set for each site: the places with a letter in the link to the site, of which there are none yet.
pub(super) fn no_letters(alloc: Global, plan: &Plan) -> Result<Vec<BitSet64>, AllocError>
    ensures { IfOk result
        (λ nonempty_inboxes. nonempty_inboxes.items ≡ replicate (site_count plan.now) (replicate 64 false)) }
{
    vec![in alloc; BitSet64::empty(); plan.sites() as usize]
}

/// Returns a count for each site, 0.
pub(super) fn no_counts(alloc: Global, plan: &Plan) -> Result<Vec<u32>, AllocError>
    ensures { IfOk result (λ counts. length counts.items ≡ site_count plan.now) }
{
    vec![in alloc; 0u32; plan.sites() as usize]
}

/// Opens all sites, each with the forks and tokens that it has at the start. Their meals fail as the lists say, one for
/// each site; if these say nothing of a meal, it fails if the plan says so of its job.
pub(super) fn sites_of(
    alloc: Global,
    plan: &Plan,
    fails: &[Vec<bool>],
) -> Result<Vec<WorldSite>, AllocError>
    ensures { let other = with_outcomes plan.now (lists_of fails.now) in
        IfOk result (λ sites. AreSitesOf other (start other) sites.items) }
{
    let mut sites = Vec::with_capacity(alloc, plan.sites() as usize)?;
    for site in 0..plan.sites() {
        match site_of(alloc, plan, site, fails) {
            Ok(world_site) => sites.push_reserved(world_site),
            Err(error) => {
                spend(sites);
                return Err(error);
            }
        }
    }
    Ok(sites)
}

// A site, before its first step.
fn site_of(
    alloc: Global,
    plan: &Plan,
    site: u32,
    fails: &[Vec<bool>],
) -> Result<WorldSite, AllocError>
    requires { site < site_count plan.now }
    ensures site { IfOk result (λ world_site. world_site.core.site ≡ site) }
    ensures start { let other = with_outcomes plan.now (lists_of fails.now) in
        IfOk result (IsSiteOf other (start_of other site)) }
    ensures not_eating { IfOk result IsNotEating }
{
    let forks = fresh_forks(alloc, plan, site)?;
    let tokens = fresh_tokens(alloc, plan, site)?;
    let outcomes = outcomes_of(alloc, plan, site, fails)?;
    let core = SiteCore::open(alloc, plan, site, forks, tokens)?;
    Ok(WorldSite {
        core,
        meal: None,
        outcomes,
    })
}

// How the meals of a site turn out.
fn outcomes_of(
    alloc: Global,
    plan: &Plan,
    site: u32,
    fails: &[Vec<bool>],
) -> Result<Outcomes, AllocError>
    requires { site < site_count plan.now }
    ensures { IfOk result (λ outcomes. outcomes ≡ outcomes_of (with_outcomes plan.now (lists_of fails.now)) site) }
{
    let jobs = plan.jobs(site);
    let mut outcomes = Vec::with_capacity(alloc, jobs as usize)?;
    for done in 0..jobs {
        outcomes.push_reserved(has_failed(plan, site, done + 1, fails));
    }
    Ok(Outcomes::new(outcomes))
}

// Whether meal `k` of the site fails.
fn has_failed(plan: &Plan, site: u32, k: u32, fails: &[Vec<bool>]) -> bool
    requires site_in { site < site_count plan.now }
    requires from_one { 1 ≤ k }
    requires job_in { k ≤ job_count plan.now site }
    ensures { result ≡ (job_of (with_outcomes plan.now (lists_of fails.now)) site k).fails }
{
    given(fails, site, k - 1).unwrap_or(plan.job(site, k).fails)
}

// What the lists say of the meal of the site with this number of meals before it. None if they say nothing.
fn given(fails: &[Vec<bool>], site: u32, before: u32) -> Option<bool>
    ensures { result
        ≡ option_and_then (λ (own : Vec Bool Global). slice_get own.items before) (slice_get fails.now site) }
{
    fails.get(site as usize)?.get(before as usize).copied()
}

/// Drops the sites, with all that they hold. None of them eats.
pub(super) fn spend(sites: Vec<WorldSite>)
    requires { All IsNotEating sites.items }
{
    let mut sites = sites;
    while !sites.is_empty() {
        let WorldSite {
            core,
            meal,
            outcomes: _,
        } = sites.take_last();
        if let Some(_) = meal {
            unreachable!();
        }
        let _ = core.into_parts();
    }
    sites.destroy_empty();
}

/// Returns how many events the world of the plan can have: three for each meal; and for each edge four for each meal
/// that is due at its ends, and eight more.
pub(super) fn bound_of(plan: &Plan) -> u64
    ensures { result ≡ bound_of plan.now }
{
    3 * jobs_of_sites(plan) + letters_of_edges(plan)
}

// The number of jobs of all sites.
fn jobs_of_sites(plan: &Plan) -> u64
    ensures total { result ≡ sum (map (job_count plan.now) (range_with_len 0 (site_count plan.now))) }
    ensures few { result ≤ MAX_JOBS * MAX_SITES }
{
    let mut total = 0;
    for site in 0..plan.sites() {
        total += u64::from(plan.jobs(site));
    }
    total
}

// How many times a letter can be put or taken, at all edges.
fn letters_of_edges(plan: &Plan) -> u64
    ensures total { result
        ≡ sum (map (λ edge. 4 * meals_due plan.now edge + 8) (range_with_len 0 (edge_count plan.now))) }
    ensures few { result ≤ (8 * MAX_JOBS + 8) * MAX_EDGES }
{
    let mut total = 0;
    for edge in 0..plan.edges() {
        let (lower, higher) = plan.ends(edge);
        total += 4 * (u64::from(plan.jobs(lower)) + u64::from(plan.jobs(higher))) + 8;
    }
    total
}
