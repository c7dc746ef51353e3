//! The text that the command `replay` writes.
ghost use Rattle.std.specs.Prelude.{◌≡◌, IfOk};
ghost use Rattle.dine_log_text.specs.Replay.{replay_text};

use crate::logs::world_text;
use dine_graph::Plan;
use dine_world::{World, laws};
use std::alloc::{AllocError, Global};

/// Returns the text of the plan's world after a whole run. The run does the choices one after the other, and skips a
/// choice with no event. Then it does the first enabled event, again and again, until none is enabled.
///
/// # Errors
///
/// Fails if an allocation fails.
pub fn replay_text(alloc: Global, plan: &Plan, choices: &[u32]) -> Result<Vec<u8>, AllocError>
    ensures { IfOk result (λ text. text.items ≡ replay_text choices.now plan.now) }
{
    // By these laws the sum of the two counts is that of the whole run, and it is small.
    laws::whole_runs_go_on_after_the_choices();
    laws::whole_runs_are_bounded();
    // By this law a world with the plan's own outcomes is a world of the plan.
    laws::journals_stand_for_other_outcomes();
    let mut world = World::open(alloc, plan)?;
    let chosen = world.replay(choices);
    let finished = world.finish();
    let text = world_text(alloc, plan, &world, chosen + finished);
    let _ = world.into_forks();
    text
}
