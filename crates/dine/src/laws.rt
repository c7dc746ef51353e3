//! Laws over the definitions. Each contract is a law, and no function does anything.
ghost use Rattle.std.specs.Global.{Vec};
ghost use Rattle.std.specs.Prelude.{◌≡◌, ◌⊎◌, List, map, true, ℕ};
ghost use Rattle.dine_graph.specs.Plan.{SeenPlan};
ghost use Rattle.dine_rules.specs.Journals.{IsWholeOrder};
ghost use Rattle.dine_rules.specs.Shown.{plan_shown};
ghost use Rattle.dine_rules.specs.Values.{has_no_set};
ghost use Rattle.dine_rules.specs.World.{Reaches, WorldState};
ghost use Rattle.dine_rules.specs.declared.events.Event.{Event};
ghost use Rattle.dine_site_thread.specs.declared.manner.Manner.{Manner};
ghost use Rattle.dine_threads.specs.declared.gathered.Gathered.{Gathered};
ghost use Rattle.dine_threads.specs.Runs.{IsRun};
ghost use Rattle.dine.specs.PlanDiners.{SeenPlanDiner, plan_diner};
ghost use Rattle.dine.specs.Run.{IsRunText, diners_of};
ghost use Rattle.dine_words.specs.declared.words.Table.{Table};

use dine_rules::laws;

/// The text of a run depends on the plan alone, if no job of the plan sets a value or the plan has version 1.
pub fn tables_without_set_are_of_the_plan()
    ensures { (table : Table) (plan : SeenPlan) (one other : List ℕ)
        → (has_no_set plan ≡ true) ⊎ (plan.version ≡ 1)
        → IsRunText table plan one → IsRunText table plan other → one ≡ other }
{}

/// In a run of the diners of the plan each job fails as the plan says. So an order of the journals for the plan that
/// they show is one for the plan itself, also if sites resign: the same list, accepted by a world of the plan, which is
/// complete at its end. The world at the end is the same by both plans.
pub fn orders_of_plan_diners_are_of_the_plan()
    ensures order { (manner : Manner) (plan : SeenPlan) (diners : Vec SeenPlanDiner) (gathered : Gathered SeenPlanDiner)
        (events : List Event)
        → diners.items ≡ diners_of plan → IsRun plan_diner manner plan diners gathered
        → IsWholeOrder (plan_shown plan (map (λ out. out.journal.items) gathered.sites.items))
        (map (λ out. out.journal.items) gathered.sites.items) events
        → IsWholeOrder plan (map (λ out. out.journal.items) gathered.sites.items) events }
    ensures world { (manner : Manner) (plan : SeenPlan) (diners : Vec SeenPlanDiner) (gathered : Gathered SeenPlanDiner)
        (events : List Event) (world : WorldState)
        → diners.items ≡ diners_of plan → IsRun plan_diner manner plan diners gathered
        → IsWholeOrder (plan_shown plan (map (λ out. out.journal.items) gathered.sites.items))
        (map (λ out. out.journal.items) gathered.sites.items) events
        → Reaches (plan_shown plan (map (λ out. out.journal.items) gathered.sites.items)) events world
        → Reaches plan events world }
{
    laws::journals_show_a_failure_by_quitting();
    laws::orders_are_of_the_plan_if_sites_resign_as_planned();
}
