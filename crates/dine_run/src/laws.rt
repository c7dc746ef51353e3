//! Laws over the definitions alone. Each function does nothing: its contract is the law.

ghost use Rattle.std.specs.Prelude.{◌≡◌, List, ℕ};
ghost use Rattle.dine_graph.specs.Plan.{IsPlan, SeenPlan};
ghost use Rattle.dine_token.specs.Fork.{SeenFork};
ghost use Rattle.dine_rules.specs.Journals.{IsOrderOf};
ghost use Rattle.dine_rules.specs.World.{Reaches, WorldState};
ghost use Rattle.dine_rules.specs.declared.events.Event.{Event};
ghost use Rattle.dine_rules.specs.declared.events.EventKind.{EventKind};
ghost use Rattle.dine_world.specs.Worlds.{forks_seen};
ghost use Rattle.dine_link.specs.Links.{SeenLink};
ghost use Rattle.dine_threads.specs.Headline.{IsHeadline};
ghost use Rattle.dine_threads.specs.Journals.{AreJournals, states_left};
ghost use Rattle.dine_rules.specs.Shown.{plan_shown};

use dine_rules::laws;

/// If a run gathered forks, links and journals, each order of the journals that a world accepts leads to the states
/// that the links show: in this world each site has put and taken the very letters that its links had. So it leads to
/// the gathered forks, each with its log. The world is one of the plan, in which jobs fail as the journals show; its
/// forks are the same by the plan as it was given.
pub fn orders_give_the_gathered_forks()
    ensures forks { (plan : SeenPlan) (ates : List ℕ) (links : List SeenLink) (forks : List SeenFork)
        (journals : List (List EventKind)) (events : List Event) (world : WorldState)
        → IsPlan plan
        → IsHeadline plan ates links forks
        → AreJournals plan ates links journals
        → IsOrderOf journals events
        → Reaches (plan_shown plan journals) events world
        → forks ≡ forks_seen (plan_shown plan journals) world }
    ensures by_the_plan { (plan : SeenPlan) (ates : List ℕ) (links : List SeenLink) (forks : List SeenFork)
        (journals : List (List EventKind)) (events : List Event) (world : WorldState)
        → IsPlan plan
        → IsHeadline plan ates links forks
        → AreJournals plan ates links journals
        → IsOrderOf journals events
        → Reaches (plan_shown plan journals) events world
        → forks ≡ forks_seen plan world }
    ensures states { (plan : SeenPlan) (ates : List ℕ) (links : List SeenLink) (forks : List SeenFork)
        (journals : List (List EventKind)) (events : List Event) (world : WorldState)
        → IsPlan plan
        → IsHeadline plan ates links forks
        → AreJournals plan ates links journals
        → IsOrderOf journals events
        → Reaches (plan_shown plan journals) events world
        → world ≡ states_left plan ates links }
{
    laws::edges_have_a_place_at_each_end();
    laws::journals_fix_the_world();
    laws::fork_logs_are_of_the_one_fork();
}
