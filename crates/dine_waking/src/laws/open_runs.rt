//! Laws on open runs whole: the threads of all sites, and the doors at which tasks come to them from outside.

ghost use Rattle.std.specs.Prelude.{◌≡◌, ◌<◌, ◌≤◌, ◌+◌, ◌*◌, ◌⊎◌, ℕ, Some, false, true};
ghost use Rattle.dine_graph.specs.Plan.{IsPlan, SeenPlan, site_count};
ghost use Rattle.dine_rules.specs.Bound.{bound_of};
ghost use Rattle.dine_rules.specs.Local.{is_thinking};
ghost use Rattle.dine_rules.specs.World.{state_of};
ghost use Rattle.dine_rules.specs.declared.events.EventKind.TheVariants as event;
ghost use Rattle.dine_site.specs.NextEvent.{next_event};
ghost use Rattle.dine_waking.specs.Doors.{IsReachedDoor, is_called, is_ended};
ghost use Rattle.dine_waking.specs.OpenRuns.{DueStep, IsAtRest, LeadsByOpenSteps, OpenRun, due_steps, first_open_run};
ghost use Rattle.dine_waking.specs.OpenRuns.{free_steps};
ghost use Rattle.dine_waking.specs.Runs.{LeadsBySteps, RunHasEnded, first_moment};

/// An open run is a run with doors: what its steps lead to inside, steps of a run lead to, and what they lead to at a
/// door, steps of a door. So the laws of both hold of it: those on letters, rings and wakes, and those on how long a
/// neighbour waits.
pub fn open_runs_are_runs_with_doors()
    ensures run { (plan : SeenPlan) (n : ℕ) (at : OpenRun) → LeadsByOpenSteps plan n (first_open_run plan) at
        → (m : ℕ) × LeadsBySteps plan m (first_moment true plan) at.run }
    ensures door { (plan : SeenPlan) (n : ℕ) (at : OpenRun) (s : ℕ)
        → LeadsByOpenSteps plan n (first_open_run plan) at → IsReachedDoor (at.doors s) }
{}

/// No open run gets stuck. At each moment of one a step is due at some site, or the run is at rest: nobody has to ring,
/// and each site has finished, or sleeps and waits for no letter that is on its way to it.
pub fn open_runs_go_on()
    ensures due_or_rest { (plan : SeenPlan) (n : ℕ) (at : OpenRun) → IsPlan plan
        → LeadsByOpenSteps plan n (first_open_run plan) at
        → ((s : ℕ) × (s < site_count plan) × (new : OpenRun) × DueStep plan s at new) ⊎ IsAtRest plan at }
{}

/// An open run comes to rest, unless ever more tasks come: of its steps those that are due are at most six for each
/// event that the plan allows, three for each site, and six for each of the others.
pub fn open_runs_are_bounded()
    ensures { (plan : SeenPlan) (n : ℕ) (at : OpenRun) (leads : LeadsByOpenSteps plan n (first_open_run plan) at)
        → IsPlan plan → due_steps plan n (first_open_run plan) at leads
        ≤ 6 * bound_of plan + 3 * site_count plan + 6 * free_steps plan n (first_open_run plan) at leads }
{}

/// If an open run is at rest, everybody was served: all sites think, and a site that may grow hungry is not called, so
/// no task waits for it. If each site is called to its end, the run has ended: the world is complete, each site has
/// finished, and none sleeps.
pub fn open_runs_at_rest_have_served()
    ensures thinks { (plan : SeenPlan) (n : ℕ) (at : OpenRun) (s : ℕ) → IsPlan plan
        → LeadsByOpenSteps plan n (first_open_run plan) at → IsAtRest plan at → s < site_count plan
        → is_thinking (state_of at.run.world s).phase ≡ true }
    ensures not_called { (plan : SeenPlan) (n : ℕ) (at : OpenRun) (s : ℕ) → IsPlan plan
        → LeadsByOpenSteps plan n (first_open_run plan) at → IsAtRest plan at → s < site_count plan
        → next_event plan s (state_of at.run.world s) ≡ Some event.Hungry → is_called (at.doors s) ≡ false }
    ensures ended { (plan : SeenPlan) (n : ℕ) (at : OpenRun) → IsPlan plan
        → LeadsByOpenSteps plan n (first_open_run plan) at → IsAtRest plan at
        → ((s : ℕ) → s < site_count plan → is_ended (at.doors s) ≡ true) → RunHasEnded plan at.run }
{}
