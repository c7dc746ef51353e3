//! What the page asks of the proved program, as exports over bytes. Each answer is JSON: docs/STATES.md has the keys.
//!
//! An export writes its answer into `answer` and returns its length in bytes. If that is more than `answer` has, only
//! the first bytes were written, and the caller asks again with more. What is refused is an answer too.
#![tactic(auto)]

mod answers;
pub mod events;
pub mod handle;
pub mod handle_calls;
pub mod open_schedule;
mod plans;
mod refusals;
pub mod slot;
