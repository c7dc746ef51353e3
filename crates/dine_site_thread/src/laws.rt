//! Laws over the definitions alone. Each function does nothing: its contract is the law.

ghost use Rattle.std.specs.Prelude.{◌≡◌, ℕ, List, length};
ghost use Rattle.dine_graph.specs.Plan.{SeenPlan};
ghost use Rattle.dine_rules.specs.Local.{LocalState};
ghost use Rattle.dine_rules.specs.Steps.{Step};
ghost use Rattle.dine_site_thread.specs.declared.manner.Manner.TheVariants.{Eager};
ghost use Rattle.dine_site_thread.specs.Doings.{AreInTurn, brought_in};

/// The letters that an eager site takes, and how its meals turn out, fix what it does: two lists of steps are equal if
/// they begin in the same state, have each step in its turn, are equally long, and have these letters and outcomes in
/// common.
pub fn letters_and_outcomes_fix_the_steps()
    ensures fixed { (plan : SeenPlan) (s : ℕ) (state : LocalState) (steps others : List Step)
        → AreInTurn Eager plan s state steps → AreInTurn Eager plan s state others
        → length steps ≡ length others → brought_in steps ≡ brought_in others → steps ≡ others }
{}
