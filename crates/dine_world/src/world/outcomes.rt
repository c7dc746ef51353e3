// How the meals of a site turn out.
ghost use Rattle.std.specs.Prelude.{◌≡◌};
ghost use Rattle.dine_world.specs.private.StepsOfSites.{has_failed};

use std::marker::Model;

/// Which meals of a site fail, in order. Contracts see the list.
#[derive(Drop)]
pub(crate) struct Outcomes {
    fails: Vec<bool>,
}

impl Model for Outcomes {
    ghost use Rattle.std.specs.Prelude.{Bool, List};

    ghost Value = { List Bool };

    ghost view = { λ outcomes. outcomes.fails.items };
}

impl Outcomes {
    /// Makes the outcomes of a site, one for each of its meals.
    pub(crate) fn new(fails: Vec<bool>) -> Outcomes
        ensures { result ≡ fails.items }
    {
        Outcomes { fails }
    }

    /// Returns whether meal `k` failed, from 1.
    pub(crate) fn has_failed(&self, k: u32) -> bool
        ensures { result ≡ has_failed self.now k }
    {
        let failed = self.fails.get(k.saturating_sub(1) as usize);
        failed.copied().unwrap_or(false)
    }
}
