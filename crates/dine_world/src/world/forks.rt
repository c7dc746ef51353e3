// The forks of the world: at the sites, in meals and in links.
ghost use Rattle.std.specs.Prelude.{◌≡◌, ◌+◌, ◌*◌, ◌<◌, ◌≤◌, [], All, length, map, option_map, slice_get, vec_capacity};
ghost use Rattle.dine_world.specs.private.Forks.{AreForksOf, HasAllForks, IsEdgeAt, at_rest, core_ended};
ghost use Rattle.dine_world.specs.private.Forks.{without_fork_at};
ghost use Rattle.dine_world.specs.private.Forks.{fork_of_edge, without_fork};
ghost use Rattle.dine_world.specs.private.StepsOfSites.{HasOwnMeal};

use super::queue::Queue;
use super::sites::WorldSite;
use super::{EdgeEnds, World};
use dine_site::Hands;
use dine_token::Fork;

impl World {
    ghost use Rattle.dine_world.specs.Worlds.{ForEachWorld, forks_seen};

    /// Returns the fork of the edge, at a site, in a meal or in a link; or `None` if there is no such edge.
    pub fn fork(&self, edge: u32) -> Option<&Fork>
        ensures { ForEachWorld self.now
            (λ plan world. option_map (λ fork. fork.now) result ≡ slice_get (forks_seen plan world) edge) }
    {
        let ends = self.edges.get(edge as usize)?;
        let lower = &self.sites[ends.lower as usize];
        let higher = &self.sites[ends.higher as usize];
        let link = 2 * (edge as usize);
        lower
            .fork(ends.lower_place)
            .or(self.links[link + 1].fork())
            .or(higher.fork(ends.higher_place))
            .or(self.links[link].fork())
    }

    /// Ends the world, and returns the forks of all edges, in edge order. Each is taken from the site, the meal or the
    /// link that has it. Everything else is dropped.
    pub fn into_forks(self) -> Vec<Fork>
        ensures { ForEachWorld self (λ plan world. result.items ≡ forks_seen plan world) }
    {
        let World {
            sites,
            mut links,
            edges,
            bound: _,
            mut forks,
            mut hands,
            may_be_enabled: _,
            nonempty_inboxes: _,
            counts: _,
            outdated_counts: _,
        } = self;
        end_sites(sites, &mut hands);
        collect(
            hands.as_mut_slice(),
            links.as_mut_slice(),
            edges.as_slice(),
            &mut forks,
        );
        forks
    }
}

// Ends the meals of all sites, and their steps. The hands are in the order of the sites.
fn end_sites(sites: Vec<WorldSite>, hands: &mut Vec<Hands>)
    requires own { All HasOwnMeal sites.items }
    requires none { hands.old.items ≡ [] }
    requires capacity { length sites.items ≤ vec_capacity hands.old }
    ensures { hands.new.items ≡ map core_ended sites.items }
{
    let mut sites = sites;
    while !sites.is_empty() {
        hands.push_reserved(end_site(sites.take_last()));
    }
    sites.destroy_empty();
    hands.reverse();
}

// Ends the meal of a site, if it eats, and its steps.
fn end_site(world_site: WorldSite) -> Hands
    requires { HasOwnMeal world_site }
    ensures { result ≡ core_ended world_site }
{
    let WorldSite {
        mut core,
        meal,
        outcomes: _,
    } = world_site;
    if let Some(meal) = meal {
        core.end(meal, false); // Nothing but its forks is needed, so it does not matter how it turned out.
    }
    core.into_hands()
}

// Moves the forks of all edges into a list, in edge order.
fn collect(hands: &mut [Hands], links: &mut [Queue], edges: &[EdgeEnds], forks: &mut Vec<Fork>)
    requires all { HasAllForks (map at_rest hands.old) links.old edges.now }
    requires none { forks.old.items ≡ [] }
    requires capacity { length edges.now ≤ vec_capacity forks.old }
    ensures { AreForksOf (map at_rest hands.old) links.old edges.now forks.new.items }
{
    for (edge, ends) in edges.iter().enumerate() {
        let fork = remove_edge_fork(hands, links, ends, edge).unwrap();
        forks.push_reserved(fork);
    }
}

// Removes the fork of an edge from the site or the link that has it.
fn remove_edge_fork(
    hands: &mut [Hands],
    links: &mut [Queue],
    ends: &EdgeEnds,
    edge: usize,
) -> Option<Fork>
    requires { IsEdgeAt (map at_rest hands.old) links.old ends.now edge }
    ensures fork { result ≡ fork_of_edge (map at_rest hands.old) links.old ends.now edge }
    ensures hands { map at_rest hands.new
        ≡ without_fork_at ends.now.higher ends.now.higher_place
        (without_fork_at ends.now.lower ends.now.lower_place (map at_rest hands.old)) }
    ensures links { links.new ≡ without_fork (2 * edge) (without_fork (2 * edge + 1) links.old) }
{
    let at_lower = hands[ends.lower as usize].remove_fork(ends.lower_place);
    let to_lower = links[2 * edge + 1].remove_fork();
    let at_higher = hands[ends.higher as usize].remove_fork(ends.higher_place);
    let to_higher = links[2 * edge].remove_fork();
    at_lower.or(to_lower).or(at_higher).or(to_higher)
}
