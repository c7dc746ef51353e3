//! How often sites are overtaken: the meals that a neighbour begins while a site waits for its own.

use dine_plan::Plan;
use dine_run::{Event, EventKind, Fork};
use std::alloc::{AllocError, Global};

/// Some waits for a meal: how many there were, how many meals of the neighbour began during all of them, and during the
/// one with the most.
#[derive(Clone, Copy)]
pub struct Waits {
    pub count: u64,
    pub sum: u64,
    pub most: u64,
}

impl Waits {
    // No wait.
    fn none() -> Waits {
        Waits {
            count: 0,
            sum: 0,
            most: 0,
        }
    }

    // Adds a wait with this number of meals of the neighbour.
    fn add(&mut self, meals: u64) {
        self.count = self.count.saturating_add(1);
        self.sum = self.sum.saturating_add(meals);
        self.most = self.most.max(meals);
    }

    // Adds the waits of another run.
    fn join(&mut self, other: &Waits) {
        self.count = self.count.saturating_add(other.count);
        self.sum = self.sum.saturating_add(other.sum);
        self.most = self.most.max(other.most);
    }

    /// Returns the mean number of meals of the neighbour during a wait, in thousandths.
    pub fn mean(&self) -> u64 {
        self.sum.saturating_mul(1000) / self.count.max(1)
    }
}

/// The waits of all sites, one for each of their edges: since the site grew hungry, and since it asked for the fork;
/// and the stays of all forks at a site that ate with them, each with the meals of that site, by the logs of the
/// forks.
#[derive(Clone, Copy)]
pub struct Overtakes {
    pub hungry: Waits,
    pub asked: Waits,
    pub stays: Waits,
}

// The meals that the neighbour began since an end of an edge grew hungry, and since it asked, if it did.
#[derive(Clone, Copy)]
struct EdgeEnd {
    hungry: Option<u64>,
    asked: Option<u64>,
}

// The index of the end of an edge that is this site, or of its other end.
fn index_of(plan: &Plan, edge: u32, site: u32, other: bool) -> Option<usize> {
    if edge >= plan.edges() {
        return None;
    }
    let (_, higher) = plan.ends(edge);
    Some(2 * (edge as usize) + usize::from((site == higher) != other))
}

// One meal more of the neighbour, if the end waits.
fn one_more(meals: Option<u64>) -> Option<u64> {
    meals.map(|meals| meals.saturating_add(1))
}

impl Overtakes {
    /// Returns that nobody has waited yet.
    pub fn none() -> Overtakes {
        Overtakes {
            hungry: Waits::none(),
            asked: Waits::none(),
            stays: Waits::none(),
        }
    }

    /// Adds the stays of some forks.
    pub fn add_stays(&mut self, forks: &[Fork]) {
        for fork in forks {
            for i in 0..fork.periods() {
                let meals = fork.period(i).count;
                if meals > 0 {
                    self.stays.add(u64::from(meals));
                }
            }
        }
    }

    /// Adds the waits of another run.
    pub fn join(&mut self, other: &Overtakes) {
        self.hungry.join(&other.hungry);
        self.asked.join(&other.asked);
        self.stays.join(&other.stays);
    }

    // A site begins a meal: its neighbours that wait are overtaken, and its own waits end.
    fn begin(&mut self, plan: &Plan, ends: &mut [EdgeEnd], site: u32) {
        if site >= plan.sites() {
            return;
        }
        for &edge in plan.edges_of(site) {
            if let Some(index) = index_of(plan, edge, site, true) {
                if let Some(end) = ends.get_mut(index) {
                    end.hungry = one_more(end.hungry);
                    end.asked = one_more(end.asked);
                }
            }
            if let Some(index) = index_of(plan, edge, site, false) {
                if let Some(end) = ends.get_mut(index) {
                    if let Some(meals) = end.hungry.take() {
                        self.hungry.add(meals);
                    }
                    if let Some(meals) = end.asked.take() {
                        self.asked.add(meals);
                    }
                }
            }
        }
    }

    /// Counts the waits in an order of a run.
    pub fn of(alloc: Global, plan: &Plan, order: &[Event]) -> Result<Overtakes, AllocError> {
        let mut overtakes = Overtakes::none();
        let none = EdgeEnd {
            hungry: None,
            asked: None,
        };
        let mut ends = Vec::from_elem(alloc, none, 2 * (plan.edges() as usize))?;
        for event in order {
            if event.site >= plan.sites() {
                continue;
            }
            match event.kind {
                EventKind::Hungry => {
                    for &edge in plan.edges_of(event.site) {
                        let index = index_of(plan, edge, event.site, false);
                        if let Some(end) = index.and_then(|index| ends.get_mut(index)) {
                            end.hungry = Some(0);
                        }
                    }
                }
                EventKind::Ask(place) => {
                    let edge = plan.edges_of(event.site).get(place as usize);
                    if let Some(&edge) = edge {
                        let index = index_of(plan, edge, event.site, false);
                        if let Some(end) = index.and_then(|index| ends.get_mut(index)) {
                            end.asked = Some(0);
                        }
                    }
                }
                EventKind::Begin => overtakes.begin(plan, ends.as_mut_slice(), event.site),
                _ => {}
            }
        }
        Ok(overtakes)
    }
}
