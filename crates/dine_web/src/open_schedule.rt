//! What an open handle holds.
ghost use Rattle.std.specs.Prelude.{IfErr, MatchResult};
ghost use Rattle.dine_web.specs.Handles.{CanNotChoose, CanNotRestart, IsBack, IsOpened, KeepsOn};
ghost use Rattle.dine_web.specs.Refusals.{IsOfMemory, IsRefused};

use crate::plans::plan_of;
use crate::refusals::Refusal;
use dine_graph::Plan;
use dine_states::Schedule;
use std::alloc::Global;

/// A plan, with a schedule of it.
#[derive(Drop)]
pub struct OpenSchedule {
    plan: Plan,
    schedule: Schedule,
}

impl OpenSchedule {
    /// Opens the plan whose text the bytes are, before its first event.
    pub(crate) fn new(alloc: Global, text: &[u8]) -> Result<OpenSchedule, Refusal>
        ensures { MatchResult result (IsOpened text.now) (IsRefused text.now) }
    {
        let plan = plan_of(alloc, text)?;
        let schedule = Schedule::open(alloc, &plan)?;
        Ok(OpenSchedule { plan, schedule })
    }

    /// Does the enabled event with this number, from 0.
    pub(crate) fn choose(&mut self, choice: u32) -> Result<(), Refusal>
        ensures { MatchResult result (λ _. KeepsOn choice self.old self.new)
            (λ refusal. CanNotChoose choice refusal self.old self.new) }
    {
        if self.schedule.choose(&self.plan, choice)? {
            Ok(())
        } else {
            Err(Refusal::NoEvent)
        }
    }

    /// Goes back to the start.
    pub(crate) fn restart(&mut self, alloc: Global) -> Result<(), Refusal>
        ensures { MatchResult result (λ _. IsBack self.old self.new)
            (λ refusal. CanNotRestart refusal self.old self.new) }
    {
        self.schedule = Schedule::open(alloc, &self.plan)?;
        Ok(())
    }

    /// Returns the state.
    pub(crate) fn state(&self, alloc: Global) -> Result<String, Refusal>
        ensures { IfErr result IsOfMemory }
    {
        Ok(self.schedule.state_text(alloc, &self.plan)?)
    }
}
