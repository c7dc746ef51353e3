//! Laws on how sites wake one another. Each function does nothing: its contract is the law.

ghost use Rattle.std.specs.Prelude.{◌≡◌, ◌<◌, ◌≤◌, ◌+◌, ◌*◌, ◌==◌, ◌⊎◌, ℕ, Bool, List, [], ◌∷◌, count_by};
ghost use Rattle.std.specs.Prelude.{false, length, true};
ghost use Rattle.dine_graph.specs.Plan.{IsPlan, SeenPlan, edges_of, site_count};
ghost use Rattle.dine_rules.specs.Bound.{bound_of};
ghost use Rattle.dine_rules.specs.Links.{queue_to};
ghost use Rattle.dine_rules.specs.Letters.{has_close};
ghost use Rattle.dine_rules.specs.Local.{edge_at, neighbour_at, traffic_at};
ghost use Rattle.dine_rules.specs.World.{IsComplete, Reaches, WorldState, place_of, state_of};
ghost use Rattle.dine_rules.specs.declared.events.Event.{Event};
ghost use Rattle.dine_rules.specs.declared.letters.LetterKind.{LetterKind};
ghost use Rattle.dine_waking.specs.Examples.{asked_world, asleep_run, ended_world, given_world, star, two_workers};
ghost use Rattle.dine_waking.specs.Examples.{woken_run};
ghost use Rattle.dine_site.specs.Standing.{has_finished};
ghost use Rattle.dine_waking.specs.Runs.{GoesOnForever, HasToRing, HasToWake, IsStuck, IsToBeWoken, LeadsBySteps};
ghost use Rattle.dine_waking.specs.Runs.{Run, RunHasEnded, RunStep, has_yet_to_ring, number_there, rings_left};
ghost use Rattle.dine_waking.specs.Runs.{first_moment, start_run, thread_of};
ghost use Rattle.dine_waking.specs.Mistakes.{ActsUnheard, HangsBy, RingsInVain, SleepsOverLastFork, SleepsOverRings};
ghost use Rattle.dine_waking.specs.Mistakes.{hung_run};
ghost use Rattle.dine_waking.specs.Sleeping.{AllSleepWell, SleepsWell};

mod code;
mod manners;
mod open_doors;
mod open_runs;
mod patience;

pub use code::{bells_note_rings_as_runs_do, sites_take_turns_as_runs_do, turns_are_steps_of_runs};
pub use manners::{
    a_polite_site_may_begin_one_meal, a_ring_for_a_request_asks, nobody_asks_in_vain,
    polite_sites_begin_at_most_one_meal, polite_sites_give_after_at_most_one_meal,
    polite_sites_overtake_at_most_once, runs_in_manners_go_on_to_their_end,
    unheard_neighbours_wait_for_all_meals, waiters_wait_for_one_meal_of_each_polite_neighbour,
};
pub use open_doors::{
    called_sites_are_rung_for, closed_doors_end_the_run, queues_step_as_doors_do,
    worlds_at_rest_have_served,
};
pub use open_runs::{
    open_runs_are_bounded, open_runs_are_runs_with_doors, open_runs_at_rest_have_served,
    open_runs_go_on,
};
pub use patience::{
    a_patient_site_may_begin_as_many_meals_as_its_patience, patient_sites_begin_few_meals,
    patient_sites_give_after_few_meals, patient_sites_overtake_few_times,
    polite_sites_have_a_patience_of_one, waiters_wait_for_few_meals_of_each_patient_neighbour,
};

/// Nobody sleeps for ever. Take a world that events reach from the start. If each of its sites has finished, or can do
/// nothing by itself and waits for none of the letters on their way to it, then the world is complete, and each site
/// has finished.
pub fn worlds_asleep_are_complete()
    ensures complete { (plan : SeenPlan) (events : List Event) (world : WorldState) → IsPlan plan
        → Reaches plan events world → AllSleepWell plan world → IsComplete plan world }
    ensures finished { (plan : SeenPlan) (events : List Event) (world : WorldState) (s : ℕ) → IsPlan plan
        → Reaches plan events world → AllSleepWell plan world → s < site_count plan
        → has_finished plan s (state_of world s) ≡ true }
{}

/// At each moment of a run the world is one that events reach from the start.
pub fn runs_go_through_reached_worlds()
    ensures { (plan : SeenPlan) (is_open : Bool) (n : ℕ) (run : Run) → IsPlan plan
        → LeadsBySteps plan n (first_moment is_open plan) run → (events : List Event) × Reaches plan events run.world }
{}

/// At each moment of a run the letters in the link to a site at a place are as many as the rings for that place that
/// the site has left, and one more if the neighbour has put a letter there and has yet to ring for it.
pub fn each_letter_is_rung_for()
    ensures { (plan : SeenPlan) (is_open : Bool) (n : ℕ) (run : Run) (s i : ℕ) → IsPlan plan
        → LeadsBySteps plan n (first_moment is_open plan) run → s < site_count plan → i < length (edges_of plan s)
        → length (queue_to plan run.world s i)
        ≡ count_by (λ k. k == i) (rings_left (thread_of run s))
        + has_yet_to_ring (thread_of run (neighbour_at plan s i)).doing
        (place_of plan (neighbour_at plan s i) (edge_at plan s i)) }
{}

/// No run gets stuck before its end. At each moment of a run some site can do a step, or the run has ended. If it has
/// ended, no site can.
pub fn runs_go_on_to_their_end()
    ensures step_or_end { (plan : SeenPlan) (n : ℕ) (run : Run) → IsPlan plan → LeadsBySteps plan n (start_run plan) run
        → ((new : Run) × RunStep plan run new) ⊎ RunHasEnded plan run }
    ensures stuck { (plan : SeenPlan) (n : ℕ) (run : Run) → IsPlan plan → LeadsBySteps plan n (start_run plan) run
        → IsStuck plan run → RunHasEnded plan run }
    ensures ended { (plan : SeenPlan) (n : ℕ) (run : Run) → IsPlan plan → LeadsBySteps plan n (start_run plan) run
        → RunHasEnded plan run → IsStuck plan run }
{}

/// Every run is short: it has at most four steps for each event that the plan allows, and one more for each site.
pub fn runs_are_bounded()
    ensures { (plan : SeenPlan) (n : ℕ) (run : Run) → IsPlan plan → LeadsBySteps plan n (start_run plan) run
        → n ≤ 4 * bound_of plan + site_count plan }
{}

/// Every run that goes on ends, within so many turns, whatever site does the step in each turn. There is such a run.
pub fn runs_that_go_on_end()
    ensures ends { (plan : SeenPlan) (moments : ℕ → Run) → IsPlan plan → GoesOnForever plan moments
        → (turn : ℕ) × (turn ≤ 4 * bound_of plan + site_count plan) × RunHasEnded plan (moments turn) }
    ensures exists { (plan : SeenPlan) → IsPlan plan → (moments : ℕ → Run) × GoesOnForever plan moments }
{}

/// From each moment of a run some steps lead to its end.
pub fn runs_can_end()
    ensures { (plan : SeenPlan) (n : ℕ) (run : Run) → IsPlan plan → LeadsBySteps plan n (start_run plan) run
        → (more : ℕ) × (end : Run) × LeadsBySteps plan more run end × RunHasEnded plan end }
{}

/// A bell never holds more than four rings for each place of its site. When a site rings, the bell of its neighbour
/// holds fewer.
pub fn no_bell_is_full()
    ensures few { (plan : SeenPlan) (is_open : Bool) (n : ℕ) (run : Run) (s : ℕ) → IsPlan plan
        → LeadsBySteps plan n (first_moment is_open plan) run → s < site_count plan
        → length (thread_of run s).bell ≤ 4 * length (edges_of plan s) }
    ensures room { (plan : SeenPlan) (is_open : Bool) (n : ℕ) (run : Run) (s i : ℕ) (kind : LetterKind) → IsPlan plan
        → LeadsBySteps plan n (first_moment is_open plan) run → s < site_count plan
        → (thread_of run s).doing ≡ HasToRing i kind
        → length (thread_of run (neighbour_at plan s i)).bell < 4 * length (edges_of plan (neighbour_at plan s i)) }
{}

/// Sites that may sleep: the higher of two workers, after it asked for the fork; a site that lacks two forks, while one
/// of them is on its way to it; and each of the two workers at the end of a run.
pub fn sleepers_are_as_worked()
    ensures waits { SleepsWell two_workers asked_world 1 }
    ensures fork_unwanted { SleepsWell star given_world 2 }
    ensures ended { AllSleepWell two_workers ended_world }
{}

/// The two workers are a plan. After four steps of a run the higher one sleeps. Six steps later it was woken by the
/// ring for the fork that it asked for.
pub fn two_workers_run_as_worked()
    ensures plan { IsPlan two_workers }
    ensures asleep { LeadsBySteps two_workers 4 (start_run two_workers) asleep_run }
    ensures woken { LeadsBySteps two_workers 6 asleep_run woken_run }
{}

/// The laws can fail: with one mistake, a run of the two workers hangs. The higher worker asks for the fork, and the
/// lower one gives it and asks for it again. In the end both sleep, although the fork is in the link to the higher one.
/// The mistakes are these: a site waits for one Fork too many; a ring wakes nobody; a site falls asleep with a ring
/// left; nobody rings for a letter.
pub fn one_mistake_makes_a_run_hang()
    ensures last_fork { HangsBy SleepsOverLastFork two_workers (hung_run (0 ∷ 0 ∷ [])) }
    ensures no_waking { HangsBy RingsInVain two_workers (hung_run (0 ∷ 0 ∷ [])) }
    ensures ring_left { HangsBy SleepsOverRings two_workers (hung_run (0 ∷ 0 ∷ [])) }
    ensures no_ring { HangsBy ActsUnheard two_workers (hung_run (0 ∷ [])) }
{}

/// A site that has finished is left alone: at each moment of a run it has no ring left, and no site has yet to ring for
/// it.
pub fn finished_sites_are_left_alone()
    ensures silent { (plan : SeenPlan) (is_open : Bool) (n : ℕ) (run : Run) (s : ℕ) → IsPlan plan
        → LeadsBySteps plan n (first_moment is_open plan) run → s < site_count plan
        → has_finished plan s (state_of run.world s) ≡ true → rings_left (thread_of run s) ≡ [] }
    ensures not_rung { (plan : SeenPlan) (is_open : Bool) (n : ℕ) (run : Run) (s i : ℕ) (kind : LetterKind)
        → IsPlan plan → LeadsBySteps plan n (first_moment is_open plan) run → s < site_count plan
        → (thread_of run s).doing ≡ HasToRing i kind
        → has_finished plan (neighbour_at plan s i) (state_of run.world (neighbour_at plan s i)) ≡ false }
{}

/// A place at which a site has taken Close is left alone: at each moment of a run the site has no ring left for it, and
/// the neighbour there has yet to ring for none.
pub fn closed_places_are_left_alone()
    ensures silent { (plan : SeenPlan) (is_open : Bool) (n : ℕ) (run : Run) (s i : ℕ) → IsPlan plan
        → LeadsBySteps plan n (first_moment is_open plan) run → s < site_count plan → i < length (edges_of plan s)
        → has_close (traffic_at (state_of run.world s) i).taken ≡ true
        → count_by (λ k. k == i) (rings_left (thread_of run s)) ≡ 0 }
    ensures not_rung { (plan : SeenPlan) (is_open : Bool) (n : ℕ) (run : Run) (s i : ℕ) → IsPlan plan
        → LeadsBySteps plan n (first_moment is_open plan) run → s < site_count plan → i < length (edges_of plan s)
        → has_close (traffic_at (state_of run.world s) i).taken ≡ true
        → has_yet_to_ring (thread_of run (neighbour_at plan s i)).doing
        (place_of plan (neighbour_at plan s i) (edge_at plan s i)) ≡ 0 }
{}

/// Waking is exact. If a site has to wake a neighbour, the neighbour sleeps and is to be woken by this site. If a
/// thread is to be woken, the neighbour that noted this has yet to do so.
pub fn each_woken_thread_has_one_waker()
    ensures found { (plan : SeenPlan) (is_open : Bool) (n : ℕ) (run : Run) (s i : ℕ) → IsPlan plan
        → LeadsBySteps plan n (first_moment is_open plan) run → s < site_count plan
        → (thread_of run s).doing ≡ HasToWake i
        → (thread_of run (neighbour_at plan s i)).doing ≡ IsToBeWoken (number_there plan s i) }
    ensures woken { (plan : SeenPlan) (is_open : Bool) (n : ℕ) (run : Run) (s i : ℕ) → IsPlan plan
        → LeadsBySteps plan n (first_moment is_open plan) run → s < site_count plan → i < length (edges_of plan s)
        → (thread_of run s).doing ≡ IsToBeWoken i
        → (thread_of run (neighbour_at plan s i)).doing ≡ HasToWake (number_there plan s i) }
{}
