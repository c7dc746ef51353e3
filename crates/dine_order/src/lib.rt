//! One order of what all sites did, from the journal of each.
#![tactic(auto)]

mod orders;

pub use orders::{OrderFault, order};
