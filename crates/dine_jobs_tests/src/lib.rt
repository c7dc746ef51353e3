//! The tests of jobs and the values that they share: runs over each kind of links, and what single jobs are given.
#![tactic(auto)]

#[cfg(test)]
mod after;
#[cfg(test)]
mod asserts;
#[cfg(test)]
mod calls;
#[cfg(test)]
mod cancelling;
#[cfg(test)]
mod faults;
#[cfg(test)]
mod manners;
#[cfg(test)]
mod opened;
#[cfg(test)]
mod plans;
#[cfg(test)]
mod rounds;
#[cfg(test)]
mod runs;
#[cfg(test)]
mod sharing;
#[cfg(test)]
mod tables;
#[cfg(test)]
mod watching;
