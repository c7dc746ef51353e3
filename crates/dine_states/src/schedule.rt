//! A world, with the events that were done in it so far.
ghost use Rattle.std.specs.Prelude.{◌≡◌, ◌++◌, [], ◌∷◌, IfErr, IfOk, Some, false};
ghost use Rattle.dine_states.specs.Schedules.{Chooses, IsScheduleOf, lists_of};

use crate::events::Enabled;
use crate::state::state_of;
use dine_graph::Plan;
use dine_world::World;
use std::alloc::{AllocError, Global};
use std::marker::Model;

/// The world of a plan, with the events that were done in it so far. Each call takes the plan for which it was opened.
pub struct Schedule {
    pub(crate) world: World,
    pub(crate) past: Past,
}

impl Model for Schedule {
    ghost use Rattle.dine_states.specs.Schedules.{SeenSchedule};
    ghost use Rattle.dine_states.specs.private.ScheduleFields.{seen_schedule};

    ghost Value = { SeenSchedule };

    ghost view = { seen_schedule };
}

// What is kept of the events that were done.
#[derive(Drop)]
pub(crate) struct Past {
    // The choices that were done.
    pub(crate) done: Vec<u32>,
    // The event that was done last.
    pub(crate) last: Option<Enabled>,
    // For each site, those of its meals that have ended and failed.
    pub(crate) failed: Vec<Vec<u32>>,
}

impl Schedule {
    /// Opens the world of the plan before its first event.
    ///
    /// # Errors
    ///
    /// `AllocError` if an allocation fails.
    pub fn open(alloc: Global, plan: &Plan) -> Result<Schedule, AllocError>
        ensures { IfOk result (λ schedule. IsScheduleOf plan.now schedule × (schedule.done ≡ [])) }
    {
        let past = Past::none(alloc, plan)?;
        let world = World::open(alloc, plan)?;
        Ok(Schedule { world, past })
    }

    /// Does the enabled event with this number, from 0. Returns whether there is one; if not, nothing is done.
    ///
    /// # Errors
    ///
    /// `AllocError` if an allocation fails. Nothing was done then.
    pub fn choose(&mut self, plan: &Plan, choice: u32) -> Result<bool, AllocError>
        ensures chosen { IsScheduleOf plan.now self.old
            → IfOk result (λ chosen. Chooses plan.now choice chosen self.old self.new) }
        ensures refused { IfOk result (λ chosen. chosen ≡ false → self.new ≡ self.old) }
        ensures same { IfErr result (λ _. self.new ≡ self.old) }
    {
        let Some(enabled) = Enabled::find(plan, &self.world, choice) else {
            return Ok(false);
        };
        self.past.note(enabled)?;
        self.world.replay([choice].as_slice());
        Ok(true)
    }

    /// Does the choices until `events` events are done since the start, and returns those that are left.
    ///
    /// # Errors
    ///
    /// `AllocError` if an allocation fails. The choices before it were done then.
    pub fn go_to<'c>(
        &mut self,
        plan: &Plan,
        events: usize,
        choices: &'c [u32],
    ) -> Result<&'c [u32], AllocError>
        ensures { IsScheduleOf plan.now self.old → IsScheduleOf plan.now self.new }
    {
        for (taken, choice) in choices.iter().enumerate() {
            if self.past.done.len() >= events {
                return Ok(&choices[taken..]);
            }
            self.choose(plan, *choice)?;
        }
        Ok(&[])
    }

    /// Returns the choices that were done.
    pub fn done(&self) -> &[u32]
        ensures { result.now ≡ self.now.done }
    {
        self.past.done.as_slice()
    }

    /// Returns the state as JSON, in one line without its end and without the choices that were done.
    ///
    /// # Errors
    ///
    /// `AllocError` if an allocation fails.
    pub fn state_text(&self, alloc: Global, plan: &Plan) -> Result<String, AllocError> {
        let state = state_of(alloc, plan, self)?;
        serde_json::to_string(alloc, &state).map_err(|_| AllocError)
    }

    /// Returns the same with the choices that were done.
    ///
    /// # Errors
    ///
    /// `AllocError` if an allocation fails.
    pub fn whole_state_text(&self, alloc: Global, plan: &Plan) -> Result<String, AllocError> {
        let mut done = Vec::new(alloc);
        done.extend_from_slice(self.done())?;
        let mut state = state_of(alloc, plan, self)?;
        state.done = Some(done);
        serde_json::to_string(alloc, &state).map_err(|_| AllocError)
    }
}

impl Drop for Schedule {
    fn drop(self) {
        let Schedule { world, past: _ } = self;
        let _ = world.into_forks();
    }
}

impl Past {
    // The past of a world of the plan before its first event.
    fn none(alloc: Global, plan: &Plan) -> Result<Past, AllocError>
        ensures { IfOk result (λ past. past.done.items ≡ []) }
    {
        let mut failed: Vec<Vec<u32>> = Vec::new(alloc);
        for _ in 0..plan.sites() {
            failed.push(Vec::new(alloc))?;
        }
        Ok(Past {
            done: Vec::new(alloc),
            last: None,
            failed,
        })
    }

    // Notes an event. If an allocation fails, nothing is noted.
    fn note(&mut self, enabled: Enabled) -> Result<(), AllocError>
        ensures done { IfOk result (λ _. self.new.done.items ≡ self.old.done.items ++ enabled.number ∷ []) }
        ensures last { IfOk result (λ _. self.new.last ≡ Some enabled) }
        ensures same { IfErr result (λ _. (self.new.done.items ≡ self.old.done.items)
            × (self.new.last ≡ self.old.last) × (lists_of self.new.failed.items ≡ lists_of self.old.failed.items)) }
    {
        self.done.push(enabled.number)?;
        if let (true, Some(meal)) = (enabled.failed, enabled.meal) {
            if let Err(fault) = self.note_failed(enabled.event.site, meal) {
                self.done.pop();
                return Err(fault);
            }
        }
        self.last = Some(enabled);
        Ok(())
    }

    // Notes that a meal of the site has ended and failed. If an allocation fails, nothing is noted.
    fn note_failed(&mut self, site: u32, meal: u32) -> Result<(), AllocError>
        ensures done { self.new.done ≡ self.old.done }
        ensures last { self.new.last ≡ self.old.last }
        ensures same { IfErr result (λ _. lists_of self.new.failed.items ≡ lists_of self.old.failed.items) }
    {
        match self.failed.get_mut(site as usize) {
            Some(failed) => push(failed, meal),
            None => Ok(()),
        }
    }
}

// Adds a number.
fn push(numbers: &mut Vec<u32>, number: u32) -> Result<(), AllocError>
    ensures { IfErr result (λ _. numbers.new.items ≡ numbers.old.items) }
{
    numbers.push(number)?;
    Ok(())
}
