//! A world that may be dropped.
ghost use Rattle.std.specs.Prelude.{◌≡◌, ℕ, IfOk, MatchOption, length, pos, slice_get};
ghost use Rattle.dine_rules.specs.Bound.{bound_of};
ghost use Rattle.dine_rules.specs.Schedules.{finish_within, from_here, replay};
ghost use Rattle.dine_rules.specs.World.{IsComplete, enabled_events, start};
ghost use Rattle.dine_world.specs.Worlds.{ForEachWorld, IsWorldOf, RunsTo, forks_seen};
ghost use Rattle.dine_ffi.specs.Answers.{IsDoneOr, Reports, done, no_such, number_of};
ghost use Rattle.dine_ffi.specs.Events.{kind_numbered, seen_event};
ghost use Rattle.dine_ffi.specs.Contents.{StepsWorldOrRefuses};
ghost use Rattle.dine_ffi.specs.Written.{ArePeriods};

use crate::event::{DineEvent, event_of, kind_of};
use crate::periods::write_periods;
use crate::status::{DONE, NO_SUCH, NOT_NOW, number, phase_number};
use dine_graph::Plan;
use dine_world::{Event, World};
use std::alloc::{AllocError, Global};
use std::marker::Model;

pub struct OwnWorld {
    world: World,
}

impl Model for OwnWorld {
    ghost use Rattle.dine_world.specs.Worlds.{SeenWorld};

    ghost Value = { SeenWorld };

    ghost view = { λ own. own.world };
}

impl Drop for OwnWorld {
    fn drop(self) {
        let OwnWorld { world } = self;
        let _ = world.into_forks();
    }
}

impl OwnWorld {
    pub(crate) fn open(alloc: Global, plan: &Plan) -> Result<OwnWorld, AllocError>
        ensures { IfOk result (IsWorldOf plan.now (start plan.now)) }
    {
        let world = World::open(alloc, plan)?;
        Ok(OwnWorld { world })
    }

    /// Returns the greatest number of events of the plan.
    pub(crate) fn bound(&self) -> i64
        ensures { ForEachWorld self.now (λ plan world. Reports result (bound_of plan)) }
    {
        number(self.world.bound())
    }

    /// Returns the number of enabled events.
    pub(crate) fn count(&self) -> i64
        ensures { ForEachWorld self.now (λ plan world. result ≡ pos (length (enabled_events plan world))) }
    {
        i64::from(self.world.count())
    }

    /// Writes the n-th enabled event, from 0.
    pub(crate) fn enabled(&self, n: u32, out: &mut DineEvent) -> i64
        ensures event { ForEachWorld self.now
            (λ plan world. MatchOption (slice_get (enabled_events plan world) n)
            ((result ≡ no_such) × (out.new ≡ out.old))
            (λ event. (result ≡ done) × (out.new ≡ seen_event event.site event.kind))) }
        ensures unwritten { IsDoneOr result Unit (out.new ≡ out.old) }
    {
        match self.world.enabled(n) {
            Some(event) => {
                *out = event_of(event.site, event.kind);
                DONE
            }
            None => NO_SUCH,
        }
    }

    /// Does the event.
    pub(crate) fn step(&mut self, event: DineEvent) -> i64
        ensures { MatchOption (kind_numbered event.kind event.place)
            ((result ≡ no_such) × (self.new ≡ self.old))
            (λ kind. StepsWorldOrRefuses (record { site = event.site; kind = kind }) result self.old self.new) }
    {
        let Some(kind) = kind_of(event.kind, event.place) else {
            return NO_SUCH;
        };
        let site = event.site;
        match self.world.step(Event { site, kind }) {
            Ok(()) => DONE,
            Err(_) => NOT_NOW,
        }
    }

    /// Does the enabled event that each choice names by its number. Returns the number of events.
    pub(crate) fn replay(&mut self, choices: &[u32]) -> i64
        ensures { (events : ℕ) × Reports result events × ForEachWorld self.old
            (λ plan world. RunsTo plan (replay plan (from_here world) choices.now) events self.new) }
    {
        number(self.world.replay(choices))
    }

    /// Does the first enabled event until none is enabled. Returns the number of events.
    pub(crate) fn finish(&mut self) -> i64
        ensures complete { ForEachWorld self.new (λ plan world. IsComplete plan world) }
        ensures run { (events : ℕ) × Reports result events × ForEachWorld self.old
            (λ plan world. RunsTo plan (finish_within (bound_of plan) plan (from_here world)) events self.new) }
    {
        number(self.world.finish())
    }

    /// Returns 0 if the site thinks, 1 if it is hungry, 2 if it eats.
    pub(crate) fn phase(&self, site: u32) -> i64
        ensures { ForEachWorld self.now
            (λ plan world. MatchOption (slice_get world site) (result ≡ no_such)
            (λ state. result ≡ pos (number_of state.phase))) }
    {
        match self.world.phase(site) {
            Some(phase) => i64::from(phase_number(phase)),
            None => NO_SUCH,
        }
    }

    /// Returns the number of meals that the site began.
    pub(crate) fn ate(&self, site: u32) -> i64
        ensures { ForEachWorld self.now
            (λ plan world. MatchOption (slice_get world site) (result ≡ no_such) (λ state. result ≡ pos state.ate)) }
    {
        match self.world.ate(site) {
            Some(meals) => i64::from(meals),
            None => NO_SUCH,
        }
    }

    /// Writes the periods of the log of the edge's fork, and returns how many there are.
    pub(crate) fn periods(&self, edge: u32, out: &mut [u32]) -> i64
        ensures periods { ForEachWorld self.now
            (λ plan world. MatchOption (slice_get (forks_seen plan world) edge)
            ((result ≡ no_such) × (out.new ≡ out.old))
            (λ fork. ArePeriods fork out.old out.new result)) }
        ensures unwritten { IsDoneOr result Unit (out.new ≡ out.old) }
    {
        match self.world.fork(edge) {
            Some(fork) => write_periods(fork, out),
            None => NO_SUCH,
        }
    }

    /// Returns the value of the edge's fork.
    pub(crate) fn value(&self, edge: u32) -> i64
        ensures { ForEachWorld self.now
            (λ plan world. MatchOption (slice_get (forks_seen plan world) edge) (result ≡ no_such)
            (λ fork. Reports result fork.value)) }
    {
        match self.world.fork(edge) {
            Some(fork) => number(fork.value()),
            None => NO_SUCH,
        }
    }
}
