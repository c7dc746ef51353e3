//! What a plan has, by the numbers and the names of its sites and edges.
ghost use Rattle.std.specs.Prelude.{◌≡◌, ◌≢◌, ◌<◌, ◌≤◌, ◌↔◌, ℕ, false, true, IfSome, IsNone};
ghost use Rattle.dine_graph.specs.Ids.{edge_ids_from, site_ids_from};
ghost use Rattle.dine_graph.specs.Plan.{edge_count, ends_of, is_between, name_of, site_count};

use crate::ids::{EdgeId, EdgeIds, SiteId, SiteIds};
use crate::plans::Plan;

impl Plan {
    /// Returns the sites, in order.
    pub fn site_ids(&self) -> SiteIds
        ensures { site_ids_from result.next result.end ≡ site_ids_from 0 (site_count self.now) }
    {
        SiteIds {
            next: 0,
            end: self.sites(),
        }
    }

    /// Returns the edges, in order.
    pub fn edge_ids(&self) -> EdgeIds
        ensures { edge_ids_from result.next result.end ≡ edge_ids_from 0 (edge_count self.now) }
    {
        EdgeIds {
            next: 0,
            end: self.edges(),
        }
    }

    /// Returns the name of a site. It is None exactly if there is no such site.
    pub fn name_of(&self, site: SiteId) -> Option<&str>
        ensures name { IfSome result (λ name. name.now ≡ name_of self.now site.0) }
        ensures none { site_count self.now ≤ site.0 ↔ IsNone result }
    {
        if site.0 >= self.sites() {
            return None;
        }
        Some(self.name(site.0))
    }

    /// Returns the site with this name. It is None exactly if there is no such site.
    pub fn site_named(&self, name: &str) -> Option<SiteId>
        ensures there { IfSome result (λ site. site.0 < site_count self.now) }
        ensures named { IfSome result (λ site. name_of self.now site.0 ≡ name.now) }
        ensures none { IsNone result → (s : ℕ) → s < site_count self.now → name_of self.now s ≢ name.now }
    {
        for site in 0..self.sites() {
            if self.name(site) == name {
                return Some(SiteId(site));
            }
        }
        None
    }

    /// Returns the two ends of an edge, the lower number first. It is None exactly if there is no such edge.
    pub fn ends_of(&self, edge: EdgeId) -> Option<(SiteId, SiteId)>
        ensures ends { IfSome result (λ ends. (ends.0.0, ends.1.0) ≡ ends_of self.now edge.0) }
        ensures none { edge_count self.now ≤ edge.0 ↔ IsNone result }
    {
        if edge.0 >= self.edges() {
            return None;
        }
        let (lower, higher) = self.ends(edge.0);
        Some((SiteId(lower), SiteId(higher)))
    }

    /// Returns the edge between two sites, given in either order. It is None exactly if there is none.
    pub fn edge_between(&self, a: SiteId, b: SiteId) -> Option<EdgeId>
        ensures there { IfSome result (λ edge. edge.0 < edge_count self.now) }
        ensures between { IfSome result (λ edge. is_between (ends_of self.now edge.0) a.0 b.0 ≡ true) }
        ensures none { IsNone result
            → (e : ℕ) → e < edge_count self.now → is_between (ends_of self.now e) a.0 b.0 ≡ false }
    {
        for edge in 0..self.edges() {
            if is_between(self.ends(edge), a.0, b.0) {
                return Some(EdgeId(edge));
            }
        }
        None
    }
}

// Whether the two ends are these two sites, in either order.
fn is_between(ends: (u32, u32), a: u32, b: u32) -> bool
    ensures { result ≡ is_between ends a b }
{
    (ends.0 == a && ends.1 == b) || (ends.0 == b && ends.1 == a)
}
