// For each site, the places with a letter in the link to the site.
ghost use Rattle.std.specs.Prelude.{◌≡◌, ◌<◌, ◌/◌, length, true};
ghost use Rattle.dine_rules.specs.Steps.{shape_of};
ghost use Rattle.dine_world.specs.private.Inboxes.{LeadsToSet, changed_link, end_of_link, has_letter, inboxes_after};
ghost use Rattle.dine_site.specs.NextEvent.{has_place};

use super::EdgeEnds;
use super::queue::Queue;
use dine_rules::{EventKind, Shape};
use dine_set::BitSet64;
use dine_site::SiteCore;

/// Returns the link from which the event takes a letter, or into which it puts one.
pub(super) fn changed_link(core: &SiteCore, kind: EventKind) -> Option<usize>
    requires { has_place core.now (shape_of kind) ≡ true }
    ensures { result ≡ changed_link core.now (shape_of kind) }
{
    match kind.shape() {
        Shape::Takes(i) => Some(core.link_to(i)),
        Shape::Puts(i) => Some(core.link_from(i)),
        Shape::Alone => None,
    }
}

/// Notes at the place to which the link leads whether the link has a letter.
pub(super) fn note(
    nonempty_inboxes: &mut [BitSet64],
    links: &[Queue],
    edges: &[EdgeEnds],
    link: Option<usize>,
)
    requires { LeadsToSet edges.now nonempty_inboxes.old link }
    ensures count { length nonempty_inboxes.new ≡ length nonempty_inboxes.old }
    ensures noted { nonempty_inboxes.new ≡ inboxes_after links.now edges.now link nonempty_inboxes.old }
{
    if let Some(link) = link {
        let (site, place) = end_of_link(edges, link);
        nonempty_inboxes[site as usize].set(place, has_letter(links, link));
    }
}

// The site to which the link leads, and its place there.
fn end_of_link(edges: &[EdgeEnds], link: usize) -> (u32, u32)
    requires { link / 2 < length edges.now }
    ensures { result ≡ end_of_link edges.now link }
{
    let ends = edges[link / 2];
    if link % 2 == 0 {
        (ends.higher, ends.higher_place)
    } else {
        (ends.lower, ends.lower_place)
    }
}

// Whether the link has a letter.
fn has_letter(links: &[Queue], link: usize) -> bool
    ensures { result ≡ has_letter links.now link }
{
    links
        .get(link)
        .is_some_and(|letters| letters.next().is_some())
}
