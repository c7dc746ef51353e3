// One site of the world.
ghost use Rattle.std.specs.Prelude.{◌≡◌, ◌<◌, length, option_map};

use super::outcomes::Outcomes;
use dine_site::SiteCore;
use dine_site::site::ForkSlot;
use dine_token::{Fork, Meal};

/// A site, its meal while it eats, and how its meals turn out.
pub(crate) struct WorldSite {
    pub(crate) core: SiteCore,
    pub(crate) meal: Option<Meal>,
    pub(crate) outcomes: Outcomes,
}

impl WorldSite {
    ghost use Rattle.dine_world.specs.private.Forks.{fork_at_site};
    ghost use Rattle.dine_world.specs.private.StepsOfSites.{HasOwnMeal};

    /// Returns the fork of place `i`, in hand or in the meal.
    pub(crate) fn fork(&self, i: u32) -> Option<&Fork>
        requires place { i < length self.now.core.places }
        requires meal { HasOwnMeal self.now }
        ensures { option_map (λ fork. fork.now) result ≡ fork_at_site self.now i }
    {
        match self.core.slot(i) {
            ForkSlot::Away => None,
            ForkSlot::Here(fork) => Some(fork),
            ForkSlot::InMeal(_) => match &self.meal {
                Some(meal) => Some(meal.fork(i)),
                None => None,
            },
        }
    }
}
