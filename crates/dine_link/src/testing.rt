//! For tests and measures alone: links that refuse steps, and the question whether a bell sleeps.

mod fault_lane;

use crate::bell::Ringer;
pub use fault_lane::{FaultLane, FaultRx, FaultTx, fault_rx, fault_tx};
use std::sync::Wait;

/// Returns whether the bell of the ringer sleeps now, for tests and measures. When the call returns, this may have
/// changed already.
pub fn finds_asleep<R: Wait>(rt: &R, ringer: &Ringer) -> bool {
    ringer.finds_asleep(rt)
}
