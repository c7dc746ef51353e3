// Schedules: events one after the other.

use super::World;

impl World {
    ghost use Rattle.dine_rules.specs.Bound.{bound_of};
    ghost use Rattle.dine_rules.specs.Schedules.{finish_within, from_here, replay};
    ghost use Rattle.dine_rules.specs.World.{IsComplete};
    ghost use Rattle.dine_world.specs.Worlds.{ForEachWorld, RunsTo};

    /// Does the enabled event that each choice names by its number, from 0, one after the other. A choice for which
    /// there is no event does nothing. Returns the number of events.
    pub fn replay(&mut self, choices: &[u32]) -> u64
        ensures { ForEachWorld self.old
            (λ plan world. RunsTo plan (replay plan (from_here world) choices.now) result self.new) }
    {
        // A use of a field gives the proof the invariant: the world represents a state of a plan.
        let _ = &self.bound;
        let mut events = 0;
        for choice in choices {
            self.refresh();
            if let Some(event) = self.enabled(*choice) {
                self.happen(event);
                events += 1;
            }
        }
        events
    }

    /// Does the first enabled event again and again, until none is enabled. Then every site ate all its meals or has
    /// quit, and every link is closed in order and empty. Returns the number of events.
    pub fn finish(&mut self) -> u64
        ensures complete { ForEachWorld self.new (λ plan world. IsComplete plan world) }
        ensures run { ForEachWorld self.old
            (λ plan world. RunsTo plan (finish_within (bound_of plan) plan (from_here world)) result self.new) }
    {
        let bound = self.bound;
        let mut left = bound;
        while let Some(event) = self.first() {
            self.happen(event);
            left -= 1;
        }
        bound - left
    }
}
