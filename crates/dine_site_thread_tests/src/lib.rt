//! The tests of one site on its thread, with its links and its bell filled before it starts, and of the order of the
//! journals of two sites. They are in a crate of their own, so that no other crate is proved a second time for them.
#![tactic(auto)]

#[cfg(test)]
mod asserts;
#[cfg(test)]
mod journals;
#[cfg(test)]
mod sites;
