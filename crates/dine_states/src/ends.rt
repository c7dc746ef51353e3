//! The ends of edges.
ghost use Rattle.std.specs.Prelude.{◌≡◌, ℕ, ◌<◌, ◌≤◌, IsTrue, MatchOption, Some, length, slice_get};
ghost use Rattle.dine_graph.specs.Plan.{edge_count, edges_of, is_end, site_count};
ghost use Rattle.dine_states.specs.Ends.{IsEnd};

use dine_graph::Plan;

/// One end of an edge of a plan.
#[derive(Clone, Copy)]
pub(crate) struct End {
    pub(crate) edge: u32,
    pub(crate) site: u32,
    /// The place of the edge at the site.
    pub(crate) place: u32,
    /// The site at the other end.
    pub(crate) neighbour: u32,
}

impl End {
    /// Returns the end of the edge at the site.
    pub(crate) fn new(plan: &Plan, edge: u32, site: u32) -> End
        requires site { site < site_count plan.now }
        requires edge { edge < edge_count plan.now }
        requires end { IsTrue (is_end plan.now site edge) }
        ensures is { IsEnd plan.now result }
        ensures site { result.site ≡ site }
        ensures edge { result.edge ≡ edge }
        ensures only { (i : ℕ) → slice_get (edges_of plan.now site) i ≡ Some edge → i ≡ result.place }
    {
        End {
            edge,
            site,
            place: plan.place(edge, site),
            neighbour: plan.other(edge, site),
        }
    }

    /// Returns the end at the place of the site, or `None` if the site has no such place.
    pub(crate) fn at(plan: &Plan, site: u32, place: u32) -> Option<End>
        requires { site < site_count plan.now }
        ensures { MatchOption result (length (edges_of plan.now site) ≤ place)
            (λ end. IsEnd plan.now end × (end.site ≡ site) × (end.place ≡ place)) }
    {
        let edge = *plan.edges_of(site).get(place as usize)?;
        Some(End::new(plan, edge, site))
    }
}
