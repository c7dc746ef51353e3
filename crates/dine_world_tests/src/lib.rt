//! The tests of `dine_token`, `dine_set`, `dine_plan`, `dine_site` and `dine_world`, by public items. They are in a
//! crate of their own, so that no other crate is proved a second time for them.
#![tactic(auto)]

#[cfg(test)]
mod asserts;
#[cfg(test)]
mod builders;
#[cfg(test)]
mod forks;
#[cfg(test)]
mod many_jobs;
#[cfg(test)]
mod plans;
#[cfg(test)]
mod sets;
#[cfg(test)]
mod sites;
#[cfg(test)]
mod worlds;
