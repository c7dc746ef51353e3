// How many events each site has enabled. Sites are counted again only after an event that may have changed their count.
ghost use Rattle.std.specs.Prelude.{◌≡◌, ◌<◌, ◌≤◌, filter, length};

use super::World;

impl World {
    ghost use Rattle.dine_rules.specs.World.{events_at, is_enabled};
    ghost use Rattle.dine_world.specs.private.Counts.{kinds_now_at};
    ghost use Rattle.dine_world.specs.Worlds.{ForEachWorld};

    /// Counts the events of the sites whose counts may be wrong. Contracts see no change of the world.
    pub(crate) fn refresh(&mut self)
        ensures { self.new ≡ self.old }
    {
        let mut outdated_counts = self.outdated_counts;
        while let Some(site) = outdated_counts.first() {
            self.refresh_at(site);
            outdated_counts.remove(site);
        }
    }

    // Counts the events of the site, if there is such a site.
    fn refresh_at(&mut self, site: u32)
        requires { site < 64 }
        ensures { self.new ≡ self.old }
    {
        if site >= self.site_count() {
            self.outdated_counts.remove(site);
            return;
        }
        let count = self.count_at(site);
        self.counts[site as usize] = count;
        self.outdated_counts.remove(site);
    }

    /// Returns how many events of the site are enabled: the count that is kept, or a new count if that may be wrong.
    pub(crate) fn count_of(&self, site: u32) -> u32
        requires { site < length self.now.sites }
        ensures count { ForEachWorld self.now
            (λ plan world. result ≡ length (filter (is_enabled plan world) (events_at plan site))) }
        ensures few { result ≤ 2564 }
    {
        if self.outdated_counts.has(site) {
            self.count_at(site)
        } else {
            self.counts[site as usize]
        }
    }

    // The number of enabled events of the site: the places with a letter, and the events without a letter that the site
    // may do.
    fn count_at(&self, site: u32) -> u32
        requires { site < length self.now.sites }
        ensures kinds { result ≡ length (kinds_now_at self.now site) }
        ensures few { result ≤ 2564 }
    {
        let nonempty_inboxes = self.nonempty_inboxes[site as usize];
        let world_site = &self.sites[site as usize];
        nonempty_inboxes.len() + world_site.core.count_own()
    }
}
