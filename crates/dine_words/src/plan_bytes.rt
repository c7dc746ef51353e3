//! The plan of the bytes of the input.
ghost use Rattle.std.specs.Prelude.{◌≡◌, ◌≢◌, IfErr, IfOk, Some};
ghost use Rattle.dine_words.specs.PlanBytes.{IsPlanBytes, fault_of_bytes};

use dine_graph::Plan;
use dine_reader::{PlanFault, read_plan};
use std::alloc::Global;

/// Reads the plan whose text the bytes are.
///
/// # Errors
///
/// Returns those of `read_plan`, and `NotToml` for bytes that are no UTF-8.
pub fn plan_of_bytes(alloc: Global, bytes: &[u8]) -> Result<Plan, PlanFault>
    ensures plan { IfOk result (IsPlanBytes bytes.now) }
    ensures refused { IfErr result (λ fault. fault ≢ PlanFault.Memory → fault_of_bytes bytes.now ≡ Some fault) }
{
    match std::str::from_utf8(bytes) {
        Ok(text) => read_plan(alloc, text),
        Err(_) => Err(PlanFault::NotToml),
    }
}
