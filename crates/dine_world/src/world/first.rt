// The first enabled event. Only sites that may have one are searched.
ghost use Rattle.std.specs.Prelude.{◌≡◌, slice_get};
ghost use Rattle.dine_world.specs.private.EnabledSites.{HasAllEnabled, first_kind_at};

use super::{World, acts};
use dine_rules::{Event, EventKind};
use dine_set::BitSet64;

impl World {
    ghost use Rattle.dine_rules.specs.World.{enabled_events};
    ghost use Rattle.dine_world.specs.Worlds.{ForEachWorld};

    /// Returns the first enabled event. After that the world knows which sites before it have none.
    pub(crate) fn first(&mut self) -> Option<Event>
        ensures same { self.new ≡ self.old }
        ensures first { ForEachWorld self.new (λ plan world. result ≡ slice_get (enabled_events plan world) 0) }
    {
        let (may_be_enabled, event) = self.search();
        self.may_be_enabled = may_be_enabled;
        event
    }

    // The sites that may have an enabled event, without those that were found to have none; and the first enabled
    // event.
    fn search(&self) -> (BitSet64, Option<Event>)
        ensures may_be_enabled { HasAllEnabled self.now result.0 }
        ensures first { ForEachWorld self.now (λ plan world. result.1 ≡ slice_get (enabled_events plan world) 0) }
    {
        let mut may_be_enabled = self.may_be_enabled;
        while let Some(site) = may_be_enabled.first() {
            if let Some(kind) = self.first_at(site) {
                return (may_be_enabled, Some(Event { site, kind }));
            }
            may_be_enabled.remove(site);
        }
        (may_be_enabled, None)
    }

    // The first enabled event of the site. None if there is no such site.
    fn first_at(&self, site: u32) -> Option<EventKind>
        ensures { result ≡ first_kind_at self.now site }
    {
        let world_site = self.sites.get(site as usize)?;
        let nonempty_inboxes = self.nonempty_inboxes[site as usize];
        acts::first_kind(nonempty_inboxes, &world_site.core)
    }
}
