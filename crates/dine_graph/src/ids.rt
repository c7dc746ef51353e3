//! Numbers of sites and of edges, each of a type of its own, so that neither is taken for the other, and lists of them.
ghost use Rattle.std.specs.Prelude.{◌-◌, map};
ghost use Rattle.std.specs.Iterator.{YieldsFirst, item_count};
ghost use Rattle.dine_graph.specs.Ids.{edge_ids_from, site_ids_from};

/// The number of a site, from 0, in the order in which the plan names the sites.
#[derive(Clone, Copy, Debug, PartialEq, Eq)]
pub struct SiteId(pub u32);

/// The number of an edge, from 0, in the order in which the plan names the edges.
#[derive(Clone, Copy, Debug, PartialEq, Eq)]
pub struct EdgeId(pub u32);

/// The sites of a plan, in order.
#[derive(Clone, Copy, Debug)]
pub struct SiteIds {
    pub(crate) next: u32,
    pub(crate) end: u32,
}

impl Iterator for SiteIds {
    type Item = SiteId;

    ghost next_gives = { YieldsFirst (λ ids. site_ids_from ids.next ids.end) };

    ghost remaining = { item_count (λ ids. site_ids_from ids.next ids.end) };

    fn next(&mut self) -> Option<SiteId> {
        if self.next >= self.end {
            return None;
        }
        let site = SiteId(self.next);
        self.next += 1;
        Some(site)
    }
}

/// The edges of a plan, in order.
#[derive(Clone, Copy, Debug)]
pub struct EdgeIds {
    pub(crate) next: u32,
    pub(crate) end: u32,
}

impl Iterator for EdgeIds {
    type Item = EdgeId;

    ghost next_gives = { YieldsFirst (λ ids. edge_ids_from ids.next ids.end) };

    ghost remaining = { item_count (λ ids. edge_ids_from ids.next ids.end) };

    fn next(&mut self) -> Option<EdgeId> {
        if self.next >= self.end {
            return None;
        }
        let edge = EdgeId(self.next);
        self.next += 1;
        Some(edge)
    }
}
