// The plan with which each call is tried.
use dine_plan::{Plan, read_plan};
use dine_test_plans::PAIR;
use std::alloc::{AllocError, Global};

/// Returns the pair: two sites with one job each, and an edge between them.
///
/// # Errors
///
/// `AllocError` if an allocation failed.
pub fn pair(alloc: Global) -> Result<Plan, AllocError> {
    read_plan(alloc, PAIR).map_err(|_| AllocError)
}
