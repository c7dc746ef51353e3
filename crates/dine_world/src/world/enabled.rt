// The enabled events, in the fixed order: by site, and within a site by kind.
ghost use Rattle.std.specs.Prelude.{◌≡◌, ◌<◌, ◌≤◌, filter, length, slice_get};
ghost use Rattle.dine_graph.specs.declared.limits.TheConstants.{MAX_SITES};

use super::{World, acts};
use dine_rules::{Event, EventKind};

impl World {
    ghost use Rattle.dine_rules.specs.World.{enabled_events, events_at, is_enabled};
    ghost use Rattle.dine_world.specs.private.Counts.{kinds_now_at};
    ghost use Rattle.dine_world.specs.Worlds.{ForEachWorld};

    /// Returns the number of enabled events.
    pub fn count(&self) -> u32
        ensures { ForEachWorld self.now (λ plan world. result ≡ length (enabled_events plan world)) }
    {
        let mut count = 0;
        for site in 0..self.site_count() {
            count += self.count_of(site);
        }
        count
    }

    /// Returns the `n`-th enabled event in the fixed order, from 0, or `None` if there are fewer.
    pub fn enabled(&self, n: u32) -> Option<Event>
        ensures { ForEachWorld self.now (λ plan world. result ≡ slice_get (enabled_events plan world) n) }
    {
        let mut left = n;
        for site in 0..self.site_count() {
            let count = self.count_of(site);
            if left < count {
                return self.event_at(site, left);
            }
            left -= count;
        }
        None
    }

    // The `n`-th enabled event of the site. None if there are fewer.
    fn event_at(&self, site: u32, n: u32) -> Option<Event>
        requires { site < length self.now.sites }
        ensures { ForEachWorld self.now
            (λ plan world. result ≡ slice_get (filter (is_enabled plan world) (events_at plan site)) n) }
    {
        let kind = self.kind_at(site, n)?;
        Some(Event { site, kind })
    }

    // The `n`-th of what the site may do. None if there is less.
    fn kind_at(&self, site: u32, n: u32) -> Option<EventKind>
        requires { site < length self.now.sites }
        ensures { result ≡ slice_get (kinds_now_at self.now site) n }
    {
        let nonempty_inboxes = self.nonempty_inboxes[site as usize];
        let world_site = &self.sites[site as usize];
        acts::nth_kind(nonempty_inboxes, &world_site.core, n)
    }

    // The number of sites.
    pub(super) fn site_count(&self) -> u32
        ensures count { result ≡ length self.now.sites }
        ensures few { result ≤ MAX_SITES }
    {
        self.sites.len() as u32
    }
}
