//! Laws on how sites wake one another. Each function does nothing: its contract is the law.
#![tactic(auto)]

pub mod laws;
