//! The code of the hygienic solution: one site, one local step at a time. The rules and their laws are those of
//! `dine_rules`, which this crate re-exports.
#![tactic(auto)]

pub mod site;
pub mod waking;

pub use dine_rules::{Breach, Event, EventKind, Letter, LetterKind, Phase, laws};
pub use dine_set::BitSet64;
pub use site::{DoneAndClose, Hands, Packed, Parts, SiteCore};
