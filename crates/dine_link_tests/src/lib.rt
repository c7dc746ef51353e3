//! The tests of links, bells and gates. There is nothing else here, so that no other crate is proved a second time for
//! them.
#![tactic(auto)]

#[cfg(test)]
mod asserts;
#[cfg(test)]
mod bells;
#[cfg(test)]
mod checks;
#[cfg(test)]
mod gates;
#[cfg(test)]
mod links;
