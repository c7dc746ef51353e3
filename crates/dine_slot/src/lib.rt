//! A box as its pointer, so that memory that is not Rattle's can hold it.
#![tactic(auto)]

mod parts;

pub use parts::Parts;
