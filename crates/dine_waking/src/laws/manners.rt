//! Laws on the two manners of sites, and on how long a neighbour that has asked for a fork waits. Each function does
//! nothing: its contract is the law.

ghost use Rattle.std.specs.Prelude.{◌≡◌, ◌<◌, ◌≤◌, ◌+◌, ◌*◌, ◌⊎◌, ℕ, Bool, false, length, true};
ghost use Rattle.dine_token.specs.declared.limits.TheConstants.{MAX_JOBS};
ghost use Rattle.dine_graph.specs.Plan.{IsPlan, SeenPlan, edges_of, site_count};
ghost use Rattle.dine_rules.specs.Local.{neighbour_at};
ghost use Rattle.dine_rules.specs.declared.letters.LetterKind.TheVariants as kind;
ghost use Rattle.dine_waking.specs.MannerExamples.{asked_back_run, eats_dirty_run, eats_first_run, rung_run};
ghost use Rattle.dine_waking.specs.MannerExamples.{fork_taken_run, rung_too_late_run, unrung_run};
ghost use Rattle.dine_waking.specs.Examples.{two_sites};
ghost use Rattle.dine_waking.specs.Manners.{HasAsked, HasRungForAll, HoldsCleanFork, HoldsDirtyFork, IsAsked};
ghost use Rattle.dine_waking.specs.Manners.{IsPlaceIn, LeadsInManner, MannerStep, WaitsForFork, checked_after};
ghost use Rattle.dine_waking.specs.Manners.{forks_given, meals_so_far};
ghost use Rattle.dine_waking.specs.Mistakes.{LeadsByOneCheck};
ghost use Rattle.dine_waking.specs.Runs.{LeadsBySteps, RingsBell, Run, RunHasEnded, first_moment, number_there};
ghost use Rattle.dine_waking.specs.Runs.{start_run};

/// A polite site lets a neighbour wait for one meal at most. Take a moment at which the neighbour has asked the site
/// for a fork, and has rung. As long as the site has not given this fork, it begins at most one meal. It begins none if
/// at that moment it held the fork, the fork was dirty, and the site had not checked its bell. For the bound of one
/// meal it does not matter which sites had checked at that moment: each may have done so before rings came.
pub fn polite_sites_begin_at_most_one_meal()
    ensures one { (plan : SeenPlan) (is_polite checked checked_then : ℕ → Bool) (m : ℕ) (old new : Run) (s i : ℕ)
        → HasAsked plan old s i → is_polite s ≡ true
        → LeadsInManner plan is_polite m checked old checked_then new → forks_given new s i ≡ forks_given old s i
        → meals_so_far new s ≤ meals_so_far old s + 1 }
    ensures none { (plan : SeenPlan) (is_polite checked checked_then : ℕ → Bool) (m : ℕ) (old new : Run) (s i : ℕ)
        → HasAsked plan old s i → is_polite s ≡ true → HoldsDirtyFork plan old s i → checked s ≡ false
        → LeadsInManner plan is_polite m checked old checked_then new → forks_given new s i ≡ forks_given old s i
        → meals_so_far new s ≡ meals_so_far old s }
{}

/// A polite site that was asked gives, after one meal at most. Take such a moment, and a run in manners from there to
/// an end. It comes to a step that gives the fork, and before this step the site begins at most one meal.
pub fn polite_sites_give_after_at_most_one_meal()
    ensures { (plan : SeenPlan) (is_polite checked checked_then : ℕ → Bool) (m : ℕ) (old end : Run) (s i : ℕ)
        → HasAsked plan old s i → is_polite s ≡ true
        → LeadsInManner plan is_polite m checked old checked_then end → RunHasEnded plan end
        → (before : ℕ) × (checked_there : ℕ → Bool) × (between : Run) × (next : Run) × (behind : ℕ)
        × LeadsInManner plan is_polite before checked old checked_there between
        × (gives : MannerStep plan is_polite checked_there between next)
        × LeadsInManner plan is_polite behind (checked_after plan between gives.step.site checked_there)
        next checked_then end
        × (forks_given between s i ≡ forks_given old s i) × (forks_given old s i < forks_given next s i)
        × (meals_so_far between s ≤ meals_so_far old s + 1) }
{}

/// A polite site overtakes a neighbour at most once. Take a moment at which the neighbour waits for the fork between
/// the two, and has rung. Until the neighbour begins its next meal, the site begins at most one. It begins none if at
/// that moment it held the fork, the fork was dirty, and the site had not checked its bell. And a site of any manner
/// begins none from a moment on at which the neighbour holds the fork clean.
pub fn polite_sites_overtake_at_most_once()
    ensures once { (plan : SeenPlan) (is_polite checked checked_then : ℕ → Bool) (m : ℕ) (old new : Run) (s i : ℕ)
        → IsPlaceIn plan old s i → is_polite s ≡ true
        → WaitsForFork plan old (neighbour_at plan s i) (number_there plan s i)
        → LeadsInManner plan is_polite m checked old checked_then new
        → meals_so_far new (neighbour_at plan s i) ≡ meals_so_far old (neighbour_at plan s i)
        → meals_so_far new s ≤ meals_so_far old s + 1 }
    ensures never { (plan : SeenPlan) (is_polite checked checked_then : ℕ → Bool) (m : ℕ) (old new : Run) (s i : ℕ)
        → IsPlaceIn plan old s i → is_polite s ≡ true
        → WaitsForFork plan old (neighbour_at plan s i) (number_there plan s i)
        → HoldsDirtyFork plan old s i → checked s ≡ false
        → LeadsInManner plan is_polite m checked old checked_then new
        → meals_so_far new (neighbour_at plan s i) ≡ meals_so_far old (neighbour_at plan s i)
        → meals_so_far new s ≡ meals_so_far old s }
    ensures clean_first { (plan : SeenPlan) (m : ℕ) (old new : Run) (s i : ℕ) → IsPlaceIn plan old s i
        → HoldsCleanFork plan old (neighbour_at plan s i) (number_there plan s i) → LeadsBySteps plan m old new
        → meals_so_far new (neighbour_at plan s i) ≡ meals_so_far old (neighbour_at plan s i)
        → meals_so_far new s ≡ meals_so_far old s }
{}

/// A site waits for one meal of each polite neighbour at most. Take a moment at which the site holds the fork of each
/// of its places clean, or waits for it. Until the site begins its next meal, each polite neighbour begins at most one.
pub fn waiters_wait_for_one_meal_of_each_polite_neighbour()
    ensures { (plan : SeenPlan) (is_open : Bool) (is_polite checked checked_then : ℕ → Bool) (n m : ℕ)
        (old new : Run) (s : ℕ)
        → IsPlan plan → LeadsBySteps plan n (first_moment is_open plan) old → s < site_count plan
        → ((i : ℕ) → i < length (edges_of plan s) → HoldsCleanFork plan old s i ⊎ WaitsForFork plan old s i)
        → LeadsInManner plan is_polite m checked old checked_then new → meals_so_far new s ≡ meals_so_far old s
        → (i : ℕ) → i < length (edges_of plan s) → is_polite (neighbour_at plan s i) ≡ true
        → meals_so_far new (neighbour_at plan s i) ≤ meals_so_far old (neighbour_at plan s i) + 1 }
{}

/// Nobody asks in vain, whatever the manners of the sites are: at the end of the run the site that was asked has given
/// the fork, and the neighbour that asked has begun a meal since.
pub fn nobody_asks_in_vain()
    ensures given { (plan : SeenPlan) (m : ℕ) (run end : Run) (s i : ℕ) → IsPlaceIn plan run s i
        → IsAsked plan run s i → LeadsBySteps plan m run end → RunHasEnded plan end
        → forks_given run s i < forks_given end s i }
    ensures eats { (plan : SeenPlan) (m : ℕ) (run end : Run) (s i : ℕ) → IsPlaceIn plan run s i
        → IsAsked plan run s i → LeadsBySteps plan m run end → RunHasEnded plan end
        → meals_so_far run (neighbour_at plan s i) < meals_so_far end (neighbour_at plan s i) }
{}

/// No run gets stuck because sites keep to their manners: at each moment of a run some site can do a step in its
/// manner, whichever sites had checked their bells, or the run has ended. What steps in manners lead to, steps lead to;
/// so the laws on runs hold of it.
pub fn runs_in_manners_go_on_to_their_end()
    ensures step_or_end { (plan : SeenPlan) (is_polite checked : ℕ → Bool) (n : ℕ) (run : Run) → IsPlan plan
        → LeadsBySteps plan n (start_run plan) run
        → ((new : Run) × MannerStep plan is_polite checked run new) ⊎ RunHasEnded plan run }
    ensures are_runs { (plan : SeenPlan) (is_polite checked checked_then : ℕ → Bool) (n : ℕ) (old new : Run)
        → LeadsInManner plan is_polite n checked old checked_then new → LeadsBySteps plan n old new }
{}

/// A site that has just rung for a Request has asked its neighbour there, and has rung for each letter that it put
/// there. And it waits for the fork.
pub fn a_ring_for_a_request_asks()
    ensures asks { (plan : SeenPlan) (is_open : Bool) (n : ℕ) (old new : Run) (s : ℕ) → IsPlan plan
        → LeadsBySteps plan n (first_moment is_open plan) old → s < site_count plan → (ring : RingsBell plan s old new)
        → ring.kind ≡ kind.Request → IsAsked plan new (neighbour_at plan s ring.i) (number_there plan s ring.i)
        × HasRungForAll plan new (neighbour_at plan s ring.i) (number_there plan s ring.i) }
    ensures waits { (plan : SeenPlan) (is_open : Bool) (n : ℕ) (old new : Run) (s : ℕ) → IsPlan plan
        → LeadsBySteps plan n (first_moment is_open plan) old → s < site_count plan → (ring : RingsBell plan s old new)
        → ring.kind ≡ kind.Request → WaitsForFork plan new s ring.i }
{}

/// A polite site may begin one meal after it was asked, even if it had not checked its bell. The higher of two sites
/// with one job each has a Fork and a Request in its link, and two rings left. It takes both letters, checks its bell,
/// and begins its meal before it gives the fork. As soon as it has taken the Fork, it holds it clean.
pub fn a_polite_site_may_begin_one_meal()
    ensures is_plan { IsPlan (two_sites 1 1) }
    ensures asked { LeadsBySteps (two_sites 1 1) 10 (start_run (two_sites 1 1)) asked_back_run }
    ensures has_rung { IsAsked (two_sites 1 1) asked_back_run 1 0 × HasRungForAll (two_sites 1 1) asked_back_run 1 0 }
    ensures waits { WaitsForFork (two_sites 1 1) asked_back_run 0 0 }
    ensures takes_fork { LeadsBySteps (two_sites 1 1) 2 asked_back_run fork_taken_run }
    ensures holds_clean_fork { HoldsCleanFork (two_sites 1 1) fork_taken_run 1 0 }
    ensures eats { (checked : ℕ → Bool) → (checked_then : ℕ → Bool)
        × LeadsInManner (two_sites 1 1) (λ s. true) 5 checked asked_back_run checked_then eats_first_run }
    ensures meals { (meals_so_far asked_back_run 1 ≡ 0) × (meals_so_far eats_first_run 1 ≡ 1) }
    ensures not_given { (forks_given asked_back_run 1 0 ≡ 0) × (forks_given eats_first_run 1 0 ≡ 0) }
{}

/// A check is good for one meal, whatever comes after it. The lower of two polite sites with one job each is hungry,
/// has a dirty fork, and finds no ring in its bell. Then the higher one asks it for the fork, and rings. All the same
/// the lower one begins its meal, and has not given the fork.
pub fn a_check_is_good_for_one_meal()
    ensures eats { (checked : ℕ → Bool) × (checked_then : ℕ → Bool)
        × LeadsInManner (two_sites 1 1) (λ s. true) 4 (λ s. false) (start_run (two_sites 1 1)) checked rung_too_late_run
        × LeadsInManner (two_sites 1 1) (λ s. true) 1 checked rung_too_late_run checked_then eats_dirty_run }
    ensures has_rung { IsAsked (two_sites 1 1) rung_too_late_run 0 0
        × HasRungForAll (two_sites 1 1) rung_too_late_run 0 0 }
    ensures waits { WaitsForFork (two_sites 1 1) rung_too_late_run 1 0 }
    ensures holds_dirty_fork { HoldsDirtyFork (two_sites 1 1) rung_too_late_run 0 0 }
    ensures meals { (meals_so_far rung_too_late_run 0 ≡ 0) × (meals_so_far eats_dirty_run 0 ≡ 1) }
    ensures not_given { (forks_given rung_too_late_run 0 0 ≡ 0) × (forks_given eats_dirty_run 0 0 ≡ 0) }
{}

/// A neighbour may wait for all meals of an eager site, and for all meals of a polite one before it rings. The lower of
/// two sites has k jobs, and the higher one has asked it for the fork. If the higher site has rung, and the lower one
/// is eager, the lower one may begin all its k meals and have the ring left, and the fork. If the higher site has yet
/// to ring, the same may happen although the lower one is polite. For k up to 4,294,967,295 the two sites are a plan.
pub fn unheard_neighbours_wait_for_all_meals()
    ensures is_plan { (k : ℕ) → k ≤ MAX_JOBS → IsPlan (two_sites k 1) }
    ensures rung { (k : ℕ) → LeadsBySteps (two_sites k 1) 3 (start_run (two_sites k 1)) (rung_run 0) }
    ensures has_rung { (k : ℕ) → IsAsked (two_sites k 1) (rung_run 0) 0 0
        × HasRungForAll (two_sites k 1) (rung_run 0) 0 0 }
    ensures holds_dirty_fork { (k : ℕ) → HoldsDirtyFork (two_sites k 1) (rung_run 0) 0 0 }
    ensures eager { (k : ℕ) (checked : ℕ → Bool) → (checked_then : ℕ → Bool)
        × LeadsInManner (two_sites k 1) (λ s. false) (3 * k) checked (rung_run 0) checked_then (rung_run k) }
    ensures eager_meals { (k : ℕ) → (meals_so_far (rung_run k) 0 ≡ k) × (forks_given (rung_run k) 0 0 ≡ 0) }
    ensures unrung { (k : ℕ) → LeadsBySteps (two_sites k 1) 2 (start_run (two_sites k 1)) (unrung_run 0) }
    ensures is_asked { (k : ℕ) → IsAsked (two_sites k 1) (unrung_run 0) 0 0 }
    ensures polite { (k : ℕ) (checked : ℕ → Bool) → (checked_then : ℕ → Bool)
        × LeadsInManner (two_sites k 1) (λ s. true) (3 * k) checked (unrung_run 0) checked_then (unrung_run k) }
    ensures polite_meals { (k : ℕ) → (meals_so_far (unrung_run k) 0 ≡ k) × (forks_given (unrung_run k) 0 0 ≡ 0) }
{}

/// The bound of one meal can fail: with one mistake a polite site begins all its meals before it gives the fork. The
/// mistake: it does not check its bell before each meal, but once for all. The two sites are those of
/// `unheard_neighbours_wait_for_all_meals` when the higher one has rung.
pub fn one_check_for_all_meals_undoes_the_bound()
    ensures { (k : ℕ) → LeadsByOneCheck (two_sites k 1) (λ s. true) (3 * k) (rung_run 0) (rung_run k) }
{}
