//! The diner of tests of several crates: some of its jobs fail, by their numbers.
#![tactic(auto)]

mod diners;

pub use diners::{Taster, outcomes_of, tasters};
