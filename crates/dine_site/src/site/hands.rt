//! A site that does no step any more, and whose forks are removed one by one.
ghost use Rattle.std.specs.Prelude.{◌≡◌, ◌<◌, false, length};
ghost use Rattle.dine_rules.specs.Local.{is_eating};
ghost use Rattle.dine_site.specs.Places.{after_give, hand_of, place_at};

use super::SiteCore;
use dine_token::Fork;
use std::marker::Model;

/// A core that does no step any more. Its forks are removed place by place, and it may be dropped with those that are
/// left. Contracts see the core.
pub struct Hands {
    core: SiteCore,
}

impl Model for Hands {
    ghost use Rattle.dine_site.specs.Core.{SeenCore};

    ghost Value = { SeenCore };

    ghost use Rattle.dine_site.specs.private.HandsFields.{core_behind, EatsNoMore};

    ghost view = { core_behind };

    ghost invariant = { EatsNoMore };
}

impl Drop for Hands {
    fn drop(self) {
        let Hands { core: unused } = self;
        let _ = unused.into_parts();
    }
}

impl SiteCore {
    /// Ends the steps of a site that does not eat. From then on its forks can be removed.
    pub fn into_hands(self) -> Hands
        requires { is_eating self.phase ≡ false }
        ensures { result ≡ self }
    {
        Hands { core: self }
    }
}

impl Hands {
    /// Removes the fork of place `i` and returns it. Returns `None` if it is not in hand.
    pub fn remove_fork(&mut self, i: u32) -> Option<Fork>
        requires { i < length self.old.places }
        ensures fork { result ≡ hand_of (place_at self.old i).fork }
        ensures away { self.new ≡ after_give i self.old }
    {
        self.core.remove_fork(i)
    }
}
