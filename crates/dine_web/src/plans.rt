//! Plans that are read from bytes.
ghost use Rattle.std.specs.Prelude.{MatchResult};
ghost use Rattle.dine_web.specs.Refusals.{IsAccepted, IsRefused};

use crate::refusals::Refusal;
use dine_graph::Plan;
use dine_reader::{PlanFault, read_plan};
use std::alloc::Global;

/// Reads the plan whose text the bytes are.
pub(crate) fn plan_of(alloc: Global, bytes: &[u8]) -> Result<Plan, Refusal>
    ensures { MatchResult result (IsAccepted bytes.now) (IsRefused bytes.now) }
{
    match std::str::from_utf8(bytes) {
        Ok(text) => Ok(read_plan(alloc, text)?),
        Err(_) => Err(Refusal::NoPlan(PlanFault::NotToml)),
    }
}
