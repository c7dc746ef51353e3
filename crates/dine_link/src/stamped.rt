//! A letter on its way.
use dine_rules::{Letter, Stamp};

// A letter with the moment at which it was put. When the program runs, it is the letter alone.
#[derive(Drop)]
pub struct Stamped {
    pub letter: Letter,
    pub stamp: Stamp,
}
