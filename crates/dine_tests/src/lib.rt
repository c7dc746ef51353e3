//! The tests of `dine`, by public items. They are in a crate of their own, so that `dine` is not proved a second time
//! for them. What is printed for a plan is in the heads of the plans, which `tests/test_plans.py` tries with the
//! program, and in `tests/texts/`, which `tests/test_texts.py` tries.
#![tactic(auto)]

#[cfg(test)]
mod arguments;
#[cfg(test)]
mod asserts;
#[cfg(test)]
mod commands;
#[cfg(test)]
mod fault_lines;
#[cfg(test)]
mod input;
#[cfg(test)]
mod output;
#[cfg(test)]
mod plan_diner;
#[cfg(test)]
mod tables;
