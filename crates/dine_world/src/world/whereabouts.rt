// Where the fork and the token of an edge are.
ghost use Rattle.std.specs.Prelude.{◌≡◌};
ghost use Rattle.dine_world.specs.private.Found.{found_at};

use super::{EdgeEnds, World};

/// Where the fork or the token of an edge is.
#[derive(Clone, Copy, Debug, PartialEq, Eq)]
pub enum Whereabouts {
    /// At this site. A fork is in its hand or in its meal.
    At(u32),
    /// In the link to this site, on its way.
    To(u32),
}

impl World {
    ghost use Rattle.dine_world.specs.Whereabouts.{IsForkAt, IsTokenAt, ReportsWhere, at_edge, is_fork_dirty};
    ghost use Rattle.dine_world.specs.Worlds.{ForEachWorld};

    /// Returns where the fork of the edge is, or `None` if there is no such edge.
    pub fn where_is_fork(&self, edge: u32) -> Option<Whereabouts>
        ensures { ForEachWorld self.now (λ plan world. ReportsWhere plan edge (IsForkAt plan world edge) result) }
    {
        let ends = self.edges.get(edge as usize)?;
        let lower = &self.sites[ends.lower as usize];
        let higher = &self.sites[ends.higher as usize];
        let at_lower = lower.core.has_fork(ends.lower_place);
        let to_lower = self.links[2 * (edge as usize) + 1].has_fork();
        let at_higher = higher.core.has_fork(ends.higher_place);
        Some(found_at(ends, at_lower, to_lower, at_higher))
    }

    /// Returns whether the fork of the edge is dirty, or `None` if there is no such edge. A fork in a link is clean.
    pub fn is_fork_dirty(&self, edge: u32) -> Option<bool>
        ensures { ForEachWorld self.now (λ plan world. result ≡ at_edge plan edge (is_fork_dirty plan world edge)) }
    {
        match self.where_is_fork(edge)? {
            Whereabouts::At(_) => {
                let fork = self.fork(edge)?;
                Some(fork.is_dirty())
            }
            Whereabouts::To(_) => Some(false),
        }
    }

    /// Returns where the token of the edge is, or `None` if there is no such edge. In a link the token is a Request.
    pub fn where_is_token(&self, edge: u32) -> Option<Whereabouts>
        ensures { ForEachWorld self.now (λ plan world. ReportsWhere plan edge (IsTokenAt plan world edge) result) }
    {
        let ends = self.edges.get(edge as usize)?;
        let lower = &self.sites[ends.lower as usize];
        let higher = &self.sites[ends.higher as usize];
        let at_lower = lower.core.has_token(ends.lower_place);
        let to_lower = self.links[2 * (edge as usize) + 1].has_request();
        let at_higher = higher.core.has_token(ends.higher_place);
        Some(found_at(ends, at_lower, to_lower, at_higher))
    }
}

// Where it is, by three tests: at the lower end, in the link to that, at the higher end, or else in the link to that.
fn found_at(ends: &EdgeEnds, at_lower: bool, to_lower: bool, at_higher: bool) -> Whereabouts
    ensures { result ≡ found_at ends.now.lower ends.now.higher at_lower to_lower at_higher }
{
    if at_lower {
        Whereabouts::At(ends.lower)
    } else if to_lower {
        Whereabouts::To(ends.lower)
    } else if at_higher {
        Whereabouts::At(ends.higher)
    } else {
        Whereabouts::To(ends.higher)
    }
}
