//! Sets of numbers below 64, each in one word.
#![tactic(auto)]

mod bit_set;

pub use bit_set::BitSet64;
