// The places of a site before its first step.
ghost use Rattle.std.specs.Prelude.{◌≡◌, ℕ, ◌<◌, ◌≤◌, [], ◌∷◌, List, IfOk, map, vec_capacity};
ghost use Rattle.dine_graph.specs.Plan.{acts_of, site_count, edge_count, edges_of};
ghost use Rattle.dine_site.specs.Core.{fresh_forks, fresh_tokens, kept_of};
ghost use Rattle.dine_rules.specs.Local.{no_traffic};
ghost use Rattle.dine_rules.specs.declared.phase.Phase.TheVariants.{Thinking};

use super::Parts;
use super::marked::MarkedPlaces;
use super::places::Place;
use dine_graph::Plan;
use dine_token::{Act, Fork, Held, Token};
use std::alloc::{AllocError, Global};
use std::collections::VecDeque;

/// Opens the forks that the site with number `site` of the plan has at the start: those of the edges whose lower end it
/// is, in edge order.
///
/// # Errors
///
/// `AllocError` if an allocation fails. The forks that were opened are dropped then.
pub fn fresh_forks(alloc: Global, plan: &Plan, site: u32) -> Result<Vec<Fork>, AllocError>
    requires { site < site_count plan.now }
    ensures { IfOk result (λ forks. forks.items ≡ fresh_forks plan.now site (edges_of plan.now site)) }
{
    let mut forks = Vec::new(alloc);
    for edge in plan.edges_of(site) {
        let (lower, higher) = plan.ends(*edge);
        if lower == site {
            let fork = Fork::open(
                alloc,
                *edge,
                lower,
                higher,
                plan.jobs(lower),
                plan.jobs(higher),
                plan.value(*edge),
            )?;
            forks.push(fork)?;
        }
    }
    Ok(forks)
}

/// Opens the tokens that the site with number `site` of the plan has at the start: those of the edges whose higher end
/// it is, in edge order.
///
/// # Errors
///
/// `AllocError` if an allocation fails. The tokens that were opened are dropped then.
pub fn fresh_tokens(alloc: Global, plan: &Plan, site: u32) -> Result<Vec<Token>, AllocError>
    requires { site < site_count plan.now }
    ensures { IfOk result (λ tokens. tokens.items ≡ fresh_tokens plan.now site (edges_of plan.now site)) }
{
    let mut tokens = Vec::new(alloc);
    for edge in plan.edges_of(site) {
        let (_, higher) = plan.ends(*edge);
        if higher == site {
            tokens.push(Token::open(*edge))?;
        }
    }
    Ok(tokens)
}

/// Allocates the lists for what a site will hold: empty, with capacity for each of its places.
pub(crate) fn lists_for(alloc: Global, degree: u32) -> Result<(Vec<Held>, Parts), AllocError>
    ensures no_hands { IfOk result (λ lists. lists.0.items ≡ []) }
    ensures hands { IfOk result (λ lists. degree ≤ vec_capacity lists.0) }
    ensures no_forks { IfOk result (λ lists. lists.1.forks.items ≡ []) }
    ensures forks { IfOk result (λ lists. degree ≤ vec_capacity lists.1.forks) }
    ensures no_tokens { IfOk result (λ lists. lists.1.tokens.items ≡ []) }
    ensures tokens { IfOk result (λ lists. degree ≤ vec_capacity lists.1.tokens) }
{
    let forks = Vec::with_capacity(alloc, degree as usize)?;
    let tokens = Vec::with_capacity(alloc, degree as usize)?;
    let hands = Vec::with_capacity(alloc, degree as usize)?;
    Ok((hands, Parts { forks, tokens }))
}

/// What each meal of the site does to the values of its forks, in order.
pub(crate) fn acts_of(alloc: Global, plan: &Plan, site: u32) -> Result<Vec<Act>, AllocError>
    requires { site < site_count plan.now }
    ensures { IfOk result (λ acts. acts.items ≡ acts_of plan.now site) }
{
    let jobs = plan.jobs(site);
    let mut acts = Vec::with_capacity(alloc, jobs as usize)?;
    for done in 0..jobs {
        acts.push_reserved(plan.job(site, done + 1).act);
    }
    Ok(acts)
}

/// The places of the site, with its forks and tokens.
pub(crate) fn places_of(
    alloc: Global,
    plan: &Plan,
    site: u32,
    forks: Vec<Fork>,
    tokens: Vec<Token>,
) -> Result<MarkedPlaces, AllocError>
    requires site { site < site_count plan.now }
    requires forks { forks.items ≡ fresh_forks plan.now site (edges_of plan.now site) }
    requires tokens { tokens.items ≡ fresh_tokens plan.now site (edges_of plan.now site) }
    ensures { IfOk result
        (λ places. places ≡ map (λ edge. kept_of plan.now site Thinking 0 edge no_traffic) (edges_of plan.now site)) }
{
    let edges = plan.edges_of(site);
    let mut places = MarkedPlaces::with_capacity(alloc, edges.len())?;
    let mut forks = VecDeque::from_vec(forks);
    let mut tokens = VecDeque::from_vec(tokens);
    for edge in edges {
        places.push(next_place(plan, site, *edge, &mut forks, &mut tokens))?;
    }
    Ok(places)
}

// The place of an edge, with the fork or the token that is next in its list.
fn next_place(
    plan: &Plan,
    site: u32,
    edge: u32,
    forks: &mut VecDeque<Fork>,
    tokens: &mut VecDeque<Token>,
) -> Place
    requires { edge < edge_count plan.now }
    ensures place { (edges : List ℕ) → forks.old.items ≡ fresh_forks plan.now site (edge ∷ edges)
        → tokens.old.items ≡ fresh_tokens plan.now site (edge ∷ edges)
        → result ≡ kept_of plan.now site Thinking 0 edge no_traffic }
    ensures forks { (edges : List ℕ) → forks.old.items ≡ fresh_forks plan.now site (edge ∷ edges)
        → forks.new.items ≡ fresh_forks plan.now site edges }
    ensures tokens { (edges : List ℕ) → tokens.old.items ≡ fresh_tokens plan.now site (edge ∷ edges)
        → tokens.new.items ≡ fresh_tokens plan.now site edges }
{
    let (lower, higher) = plan.ends(edge);
    let due = (plan.jobs(lower), plan.jobs(higher));
    let fork = if lower == site {
        forks.pop_front()
    } else {
        None
    };
    let token = if higher == site {
        tokens.pop_front()
    } else {
        None
    };
    let neighbour = if lower == site { higher } else { lower };
    let neighbour_resigns = plan.resigns(neighbour);
    Place::new(edge, (lower, higher), due, neighbour_resigns, fork, token)
}
