// The letters in the links, and which of Done and Close were put and taken. A link is named by the site to which it
// leads and the place there.
ghost use Rattle.std.specs.Prelude.{◌≡◌, ◌<◌, MatchOption, false, length, option_map, slice_get, true};

use super::World;
use super::queue::Queue;
use dine_rules::LetterKind;
use dine_site::{DoneAndClose, SiteCore};

impl World {
    ghost use Rattle.dine_rules.specs.Letters.{kind_of};
    ghost use Rattle.dine_rules.specs.Links.{queue_to};
    ghost use Rattle.dine_rules.specs.Local.{traffic_at};
    ghost use Rattle.dine_rules.specs.World.{state_of};
    ghost use Rattle.dine_site.specs.Core.{Refines};
    ghost use Rattle.dine_world.specs.Whereabouts.{at_place, is_place, said_in};
    ghost use Rattle.dine_world.specs.Worlds.{ForEachWorld};
    ghost use Rattle.std.specs.Option.{option_and_then};

    /// Returns the number of letters in the link to the site at the place, or `None` if there is no such site or place.
    pub fn letters_to(&self, site: u32, place: u32) -> Option<u32>
        ensures { ForEachWorld self.now
            (λ plan world. result ≡ at_place plan site place (length (queue_to plan world site place))) }
    {
        let letters = self.link_to(site, place)?;
        Some(letters.len())
    }

    /// Returns the kind of the `n`-th letter in the link to the site at the place, from 0, in the order in which they
    /// were put; or `None` if there is no such letter, site or place.
    pub fn letter_to(&self, site: u32, place: u32, n: u32) -> Option<LetterKind>
        ensures { ForEachWorld self.now (λ plan world.
            result ≡ option_and_then (λ letters. option_map kind_of (slice_get letters n))
            (at_place plan site place (queue_to plan world site place))) }
    {
        let letters = self.link_to(site, place)?;
        letters.kind(n)
    }

    /// Returns which of Done and Close the site has put and taken at the place, or `None` if there is no such site or
    /// place.
    pub fn said(&self, site: u32, place: u32) -> Option<DoneAndClose>
        ensures { ForEachWorld self.now (λ plan world.
            result ≡ at_place plan site place (said_in (traffic_at (state_of world site) place))) }
    {
        let core = self.core_at(site, place)?;
        Some(core.said(place))
    }

    // The link to the site at the place. None if there is no such site or place.
    fn link_to(&self, site: u32, place: u32) -> Option<&Queue>
        ensures queue { ForEachWorld self.now (λ plan world.
            option_map (λ letters. letters.now) result ≡ at_place plan site place (queue_to plan world site place)) }
        ensures few { MatchOption result (Unit {0}) (λ letters. length letters.now < 5) }
    {
        let core = self.core_at(site, place)?;
        Some(&self.links[core.link_to(place)])
    }

    // The core of the site, if it has the place.
    fn core_at(&self, site: u32, place: u32) -> Option<&SiteCore>
        ensures within { MatchOption result (Unit {0}) (λ core. place < length core.now.places) }
        ensures core { ForEachWorld self.now
            (λ plan world. MatchOption result (is_place plan site place ≡ false) (λ core.
            (is_place plan site place ≡ true) × (core.now.site ≡ site) × Refines plan (state_of world site) core.now)) }
    {
        let world_site = self.sites.get(site as usize)?;
        let core = &world_site.core;
        if place < core.degree() {
            Some(core)
        } else {
            None
        }
    }
}
