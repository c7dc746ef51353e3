//! All sites of a plan in one thread.

ghost use Rattle.std.specs.Prelude.{◌≡◌, ◌<◌, IfOk, IfSome, MatchOption, MatchResult, None, Some, codes, is_ok};
ghost use Rattle.std.specs.Prelude.{option_map, slice_get, true};
ghost use Rattle.dine_world.specs.private.EnabledSites.{with_site};

mod acts;
mod counts;
mod enabled;
mod first;
mod forks;
mod inboxes;
mod letters;
mod opening;
mod outcomes;
mod queue;
mod schedules;
mod sites;
mod whereabouts;

use dine_graph::Plan;
use dine_rules::Phase;
pub use dine_rules::{Event, EventKind};
use dine_set::BitSet64;
use dine_site::{Hands, SiteCore};
use dine_token::Fork;
use queue::Queue;
use sites::WorldSite;
use std::alloc::{AllocError, Global};
use std::error::Error;
use std::fmt;
use std::marker::Model;
pub use whereabouts::Whereabouts;

/// The two ends of an edge, the lower first, and its place at each.
#[derive(Clone, Copy)]
pub(crate) struct EdgeEnds {
    pub(crate) lower: u32,
    pub(crate) lower_place: u32,
    pub(crate) higher: u32,
    pub(crate) higher_place: u32,
}

/// The event is not enabled.
#[derive(Clone, Copy, Debug, PartialEq, Eq)]
pub struct NotEnabled;

/// `the event is not enabled`
impl fmt::Display for NotEnabled {
    ghost output = { λ fault. Some (codes "the event is not enabled") };

    fn fmt<W: fmt::Write>(&self, f: &mut fmt::Formatter<W>) -> fmt::Result {
        f.write_str("the event is not enabled")
    }
}

impl Error for NotEnabled {}

/// All sites of a plan and the links between them, in one thread. It cannot be dropped: it ends by
/// [`World::into_forks`].
pub struct World {
    sites: Vec<WorldSite>,
    links: Vec<Queue>,
    edges: Vec<EdgeEnds>,
    bound: u64,
    // Empty, with capacity for the forks of all edges.
    forks: Vec<Fork>,
    // Empty, with capacity for the hands of all sites.
    hands: Vec<Hands>,
    // Has each site with an enabled event, and may have others.
    may_be_enabled: BitSet64,
    // For each site, the places with a letter in the link to the site.
    nonempty_inboxes: Vec<BitSet64>,
    // For each site, how many events it has enabled. The counts of the sites in `outdated_counts` may be wrong.
    counts: Vec<u32>,
    outdated_counts: BitSet64,
}

impl Model for World {
    ghost use Rattle.dine_world.specs.Worlds.{SeenWorld};

    ghost Value = { SeenWorld };

    ghost use Rattle.dine_world.specs.private.WorldFields.{IsKeptWorld, seen_world};

    ghost view = { seen_world };

    ghost invariant = { IsKeptWorld };
}

impl World {
    ghost use Rattle.dine_rules.specs.Bound.{bound_of};
    ghost use Rattle.dine_rules.specs.World.{is_enabled, start, state_of};
    ghost use Rattle.dine_site.specs.Core.{Refines};
    ghost use Rattle.dine_world.specs.Worlds.{AreOutcomesFor, ForEachWorld, WorldSteps, IsOpened, IsWorldOf};
    ghost use Rattle.dine_world.specs.Worlds.{can_happen, lists_of};
    ghost use Rattle.dine_rules.specs.Outcomes.{with_outcomes};

    /// Opens the world of the plan before its first event. A meal fails if the plan says so of its job. All memory that
    /// the world needs is allocated here.
    ///
    /// # Errors
    ///
    /// `AllocError` if an allocation fails.
    pub fn open(alloc: Global, plan: &Plan) -> Result<World, AllocError>
        ensures { IfOk result (IsWorldOf plan.now (start plan.now)) }
    {
        let none: Vec<Vec<bool>> = Vec::new(alloc);
        World::open_by(alloc, plan, none.as_slice())
    }

    /// Opens the world with other outcomes of the meals. `fails` has a list for each site, with a value for each of its
    /// jobs: whether its meal fails.
    ///
    /// # Errors
    ///
    /// `AllocError` if an allocation fails.
    pub fn open_with(alloc: Global, plan: &Plan, fails: &[Vec<bool>]) -> Result<World, AllocError>
        requires { AreOutcomesFor plan.now (lists_of fails.now) }
        ensures { let other = with_outcomes plan.now (lists_of fails.now) in
            IfOk result (IsWorldOf other (start other)) }
    {
        World::open_by(alloc, plan, fails)
    }

    // The same. A meal whose outcome is not in the lists fails if the plan says so of its job.
    fn open_by(alloc: Global, plan: &Plan, fails: &[Vec<bool>]) -> Result<World, AllocError>
        ensures { let other = with_outcomes plan.now (lists_of fails.now) in
            IfOk result (IsWorldOf other (start other)) }
    {
        let edges = opening::ends_of(alloc, plan)?;
        let links = opening::links_of(alloc, plan)?;
        let forks = Vec::with_capacity(alloc, plan.edges() as usize)?;
        let hands = Vec::with_capacity(alloc, plan.sites() as usize)?;
        let nonempty_inboxes = opening::no_letters(alloc, plan)?;
        let counts = opening::no_counts(alloc, plan)?;
        let sites = opening::sites_of(alloc, plan, fails)?;
        let bound = opening::bound_of(plan);
        Ok(World {
            sites,
            links,
            edges,
            bound,
            forks,
            hands,
            may_be_enabled: BitSet64::full(),
            nonempty_inboxes,
            counts,
            outdated_counts: BitSet64::full(),
        })
    }

    /// Returns the bound of the plan for which the world was opened: how many events there can be from the start.
    pub fn bound(&self) -> u64
        ensures bound { ForEachWorld self.now (λ plan world. result ≡ bound_of plan) }
        ensures opened { IsOpened self.now }
    {
        self.bound
    }

    /// Returns the phase of the site, or `None` if there is no such site.
    pub fn phase(&self, site: u32) -> Option<Phase>
        ensures { ForEachWorld self.now
            (λ plan world. result ≡ option_map (λ state. state.phase) (slice_get world site)) }
    {
        let core = self.core(site)?;
        Some(core.phase())
    }

    /// Returns the number of meals that the site began, or `None` if there is no such site.
    pub fn ate(&self, site: u32) -> Option<u32>
        ensures { ForEachWorld self.now
            (λ plan world. result ≡ option_map (λ state. state.ate) (slice_get world site)) }
    {
        let core = self.core(site)?;
        Some(core.ate())
    }

    /// Returns whether the event is enabled.
    pub fn is_enabled(&self, event: Event) -> bool
        ensures { ForEachWorld self.now (λ plan world. result ≡ is_enabled plan world event) }
    {
        self.can_happen(event)
    }

    /// Does the event.
    ///
    /// # Errors
    ///
    /// [`NotEnabled`] if the event is not enabled. The world is unchanged.
    pub fn step(&mut self, event: Event) -> Result<(), NotEnabled>
        ensures exact { ForEachWorld self.old (λ plan world. is_ok result ≡ is_enabled plan world event) }
        ensures done { MatchResult result (λ _. WorldSteps event self.old self.new) (λ _. self.new ≡ self.old) }
    {
        if !self.can_happen(event) {
            return Err(NotEnabled);
        }
        self.happen(event);
        Ok(())
    }

    // The core of the site. None if there is no such site.
    fn core(&self, site: u32) -> Option<&SiteCore>
        ensures { ForEachWorld self.now
            (λ plan world. MatchOption result (slice_get world site ≡ None)
            (λ core. (slice_get world site ≡ Some (state_of world site))
            × Refines plan (state_of world site) core.now)) }
    {
        let world_site = self.sites.get(site as usize)?;
        Some(&world_site.core)
    }

    // Does an event that is enabled.
    fn happen(&mut self, event: Event)
        requires { can_happen self.old event ≡ true }
        ensures { WorldSteps event self.old self.new }
    {
        let world_site = &mut self.sites[event.site as usize];
        let receiver = acts::receiver(&world_site.core, event.kind);
        self.may_be_enabled = with_site(self.may_be_enabled, receiver);
        self.outdated_counts = with_site(self.outdated_counts, receiver);
        self.outdated_counts.insert(event.site);
        let link = inboxes::changed_link(&world_site.core, event.kind);
        acts::act(world_site, self.links.as_mut_slice(), event.kind);
        inboxes::note(
            self.nonempty_inboxes.as_mut_slice(),
            self.links.as_slice(),
            self.edges.as_slice(),
            link,
        );
    }

    // Whether the event is enabled.
    fn can_happen(&self, event: Event) -> bool
        ensures { result ≡ can_happen self.now event }
    {
        match self.sites.get(event.site as usize) {
            Some(world_site) => acts::can_do(self.links.as_slice(), &world_site.core, event.kind),
            None => false,
        }
    }
}

// The set with the site, if there is one.
fn with_site(sites: BitSet64, site: Option<u32>) -> BitSet64
    requires { IfSome site (λ s. s < 64) }
    ensures { result ≡ with_site site sites }
{
    let mut more = sites;
    if let Some(site) = site {
        more.insert(site);
    }
    more
}
