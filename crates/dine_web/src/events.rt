//! The call about the events of a list of choices.
ghost use Rattle.std.specs.Prelude.{MatchResult};
ghost use Rattle.dine_web.specs.Answers.{AnswersBy, IsOfPlan, IsPlan};
ghost use Rattle.dine_web.specs.Refusals.{IsRefused};

use crate::answers::write_text;
use crate::plans::plan_of;
use crate::refusals::Refusal;
use dine_states::course_text;
use std::alloc::Global;

/// Answers with all events of the choices. A choice with no event is passed over.
#[unsafe(no_mangle)]
pub extern "C" fn dine_events(alloc: Global, plan: &[u8], choices: &[u32], answer: &mut [u8]) -> u64
    ensures { AnswersBy (IsOfPlan plan.now) answer.old answer.new result }
{
    write_text(events_of(alloc, plan, choices), answer)
}

// Returns the events of the choices, as an object.
fn events_of(alloc: Global, plan: &[u8], choices: &[u32]) -> Result<String, Refusal>
    ensures { MatchResult result (λ _. IsPlan plan.now) (IsRefused plan.now) }
{
    let plan = plan_of(alloc, plan)?;
    Ok(course_text(alloc, &plan, choices)?)
}
