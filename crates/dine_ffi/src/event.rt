//! Events as C sees them.
ghost use Rattle.std.specs.Prelude.{◌≡◌};
ghost use Rattle.dine_ffi.specs.Events.{kind_numbered, seen_event};

use dine_rules::EventKind;

/// An event: the site, the number of its kind and its place, 0 if it has none. The number of a kind is its position in
/// [`EventKind`], from 0.
#[repr(C)]
#[derive(Clone, Copy)]
pub struct DineEvent {
    pub site: u32,
    pub kind: u32,
    pub place: u32,
}

/// Returns the kind with this number, at this place.
pub(crate) fn kind_of(kind: u32, place: u32) -> Option<EventKind>
    ensures { result ≡ kind_numbered kind place }
{
    match kind {
        // words kinds by number, by tools/words
        0 => Some(EventKind::Take(place)),
        1 => Some(EventKind::Give(place)),
        2 => Some(EventKind::End),
        3 => Some(EventKind::Begin),
        4 => Some(EventKind::Quit),
        5 => Some(EventKind::Hungry),
        6 => Some(EventKind::Ask(place)),
        7 => Some(EventKind::Done(place)),
        8 => Some(EventKind::Close(place)),
        // end
        _ => None,
    }
}

/// Returns the event of the site.
pub(crate) fn event_of(site: u32, kind: EventKind) -> DineEvent
    ensures { result ≡ seen_event site kind }
{
    let (kind, place) = match kind {
        // words kinds to numbers, by tools/words
        EventKind::Take(place) => (0, place),
        EventKind::Give(place) => (1, place),
        EventKind::End => (2, 0),
        EventKind::Begin => (3, 0),
        EventKind::Quit => (4, 0),
        EventKind::Hungry => (5, 0),
        EventKind::Ask(place) => (6, place),
        EventKind::Done(place) => (7, place),
        EventKind::Close(place) => (8, place),
        // end
    };
    DineEvent { site, kind, place }
}
