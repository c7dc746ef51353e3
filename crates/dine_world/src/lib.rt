//! All sites of a plan in one thread. The code of one site is `dine_site`, and the laws are in `dine_rules`. Both are
//! re-exported here.
#![tactic(auto)]

pub mod world;

pub use dine_set::BitSet64;
pub use dine_site::{
    Breach, DoneAndClose, Event, EventKind, Letter, LetterKind, Packed, Parts, Phase, SiteCore,
    laws, site, waking,
};
pub use world::{NotEnabled, Whereabouts, World};
