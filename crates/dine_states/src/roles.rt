//! What a site is at an edge.

use crate::readers::is_at;
use dine_world::Whereabouts;

/// Returns what the site is at an edge whose fork and token are there: `owner`, `asked`, `rester` or `waiter`.
pub fn role(fork: Option<Whereabouts>, token: Option<Whereabouts>, site: u32) -> &'static str {
    match (is_at(fork, site), is_at(token, site)) {
        (true, false) => "owner",
        (true, true) => "asked",
        (false, true) => "rester",
        (false, false) => "waiter",
    }
}
