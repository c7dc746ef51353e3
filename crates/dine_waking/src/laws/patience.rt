//! Laws on sites that check their bells before one meal in so many, their patience. Each function does nothing: its
//! contract is the law.

ghost use Rattle.std.specs.Prelude.{◌≡◌, ◌<◌, ◌≤◌, ◌+◌, ◌*◌, ◌-◌, ◌⊎◌, ℕ, Bool, false, length, true, if◌then◌else◌};
ghost use Rattle.dine_graph.specs.Plan.{IsPlan, SeenPlan, edges_of, site_count};
ghost use Rattle.dine_rules.specs.Local.{neighbour_at};
ghost use Rattle.dine_waking.specs.Examples.{two_sites};
ghost use Rattle.dine_waking.specs.MannerExamples.{rung_run, rung_too_late_run};
ghost use Rattle.dine_waking.specs.Manners.{HasAsked, HasRungForAll, HoldsCleanFork, HoldsDirtyFork, IsAsked};
ghost use Rattle.dine_waking.specs.Manners.{IsPlaceIn, LeadsInManner, WaitsForFork, checked_after, forks_given};
ghost use Rattle.dine_waking.specs.Manners.{meals_so_far};
ghost use Rattle.dine_waking.specs.Patience.{LeadsPatiently, PatientStep, skips_after};
ghost use Rattle.dine_waking.specs.Runs.{LeadsBySteps, Run, RunHasEnded, first_moment, number_there, start_run};

/// A patient site lets a neighbour wait for as many meals as its patience, at most. Take a moment at which the
/// neighbour has asked the site for a fork, and has rung. As long as the site has not given this fork, it begins at
/// most so many meals. If at that moment it held the fork, the fork was dirty, and the site had not checked its bell,
/// it begins only those that it is to begin without a check.
pub fn patient_sites_begin_few_meals()
    ensures few { (plan : SeenPlan) (patience skips : ℕ → ℕ) (checked : ℕ → Bool) (m : ℕ) (old new : Run) (s i : ℕ)
        → HasAsked plan old s i → 0 < patience s → skips s < patience s
        → LeadsPatiently plan patience m checked skips old new → forks_given new s i ≡ forks_given old s i
        → meals_so_far new s ≤ meals_so_far old s + patience s }
    ensures unchecked { (plan : SeenPlan) (patience skips : ℕ → ℕ) (checked : ℕ → Bool) (m : ℕ) (old new : Run)
        (s i : ℕ) → HasAsked plan old s i → 0 < patience s → HoldsDirtyFork plan old s i → checked s ≡ false
        → LeadsPatiently plan patience m checked skips old new → forks_given new s i ≡ forks_given old s i
        → meals_so_far new s ≤ meals_so_far old s + skips s }
{}

/// A patient site that was asked gives, after as many meals as its patience at most. Take such a moment, and patient
/// steps from there to an end. They come to a step that gives the fork, and before this step the site begins at most so
/// many meals.
pub fn patient_sites_give_after_few_meals()
    ensures { (plan : SeenPlan) (patience skips : ℕ → ℕ) (checked : ℕ → Bool) (m : ℕ) (old end : Run) (s i : ℕ)
        → HasAsked plan old s i → 0 < patience s → skips s < patience s
        → LeadsPatiently plan patience m checked skips old end → RunHasEnded plan end
        → (before : ℕ) × (checked_there : ℕ → Bool) × (skips_there : ℕ → ℕ) × (between : Run) × (next : Run)
        × (behind : ℕ) × LeadsPatiently plan patience before checked skips old between
        × (gives : PatientStep plan patience checked_there skips_there between next)
        × LeadsPatiently plan patience behind (checked_after plan between gives.step.site checked_there)
        (skips_after patience skips_there between next) next end
        × (forks_given between s i ≡ forks_given old s i) × (forks_given old s i < forks_given next s i)
        × (meals_so_far between s ≤ meals_so_far old s + patience s) }
{}

/// A patient site overtakes a neighbour at most as often as its patience. Take a moment at which the neighbour waits
/// for the fork between the two, and has rung. Until the neighbour begins its next meal, the site begins at most so
/// many. If at that moment it held the fork, the fork was dirty, and the site had not checked its bell, it begins only
/// those that it is to begin without a check.
pub fn patient_sites_overtake_few_times()
    ensures few { (plan : SeenPlan) (patience skips : ℕ → ℕ) (checked : ℕ → Bool) (m : ℕ) (old new : Run) (s i : ℕ)
        → IsPlaceIn plan old s i → 0 < patience s → skips s < patience s
        → WaitsForFork plan old (neighbour_at plan s i) (number_there plan s i)
        → LeadsPatiently plan patience m checked skips old new
        → meals_so_far new (neighbour_at plan s i) ≡ meals_so_far old (neighbour_at plan s i)
        → meals_so_far new s ≤ meals_so_far old s + patience s }
    ensures unchecked { (plan : SeenPlan) (patience skips : ℕ → ℕ) (checked : ℕ → Bool) (m : ℕ) (old new : Run)
        (s i : ℕ) → IsPlaceIn plan old s i → 0 < patience s
        → WaitsForFork plan old (neighbour_at plan s i) (number_there plan s i) → HoldsDirtyFork plan old s i
        → checked s ≡ false → LeadsPatiently plan patience m checked skips old new
        → meals_so_far new (neighbour_at plan s i) ≡ meals_so_far old (neighbour_at plan s i)
        → meals_so_far new s ≤ meals_so_far old s + skips s }
{}

/// A site waits for as many meals of each patient neighbour as its patience, at most. Take a moment at which the site
/// holds the fork of each of its places clean, or waits for it. Until the site begins its next meal, each patient
/// neighbour begins at most so many.
pub fn waiters_wait_for_few_meals_of_each_patient_neighbour()
    ensures { (plan : SeenPlan) (is_open : Bool) (patience skips : ℕ → ℕ) (checked : ℕ → Bool) (n m : ℕ)
        (old new : Run) (s : ℕ)
        → IsPlan plan → LeadsBySteps plan n (first_moment is_open plan) old → s < site_count plan
        → ((i : ℕ) → i < length (edges_of plan s) → HoldsCleanFork plan old s i ⊎ WaitsForFork plan old s i)
        → LeadsPatiently plan patience m checked skips old new → meals_so_far new s ≡ meals_so_far old s
        → (i : ℕ) → i < length (edges_of plan s) → 0 < patience (neighbour_at plan s i)
        → skips (neighbour_at plan s i) < patience (neighbour_at plan s i)
        → meals_so_far new (neighbour_at plan s i)
        ≤ meals_so_far old (neighbour_at plan s i) + patience (neighbour_at plan s i) }
{}

/// A polite site is one of patience 1: steps in manners are patient steps, if each polite site has patience 1 and each
/// eager one has patience 0, that is, none that is bounded.
pub fn polite_sites_have_a_patience_of_one()
    ensures { (plan : SeenPlan) (is_polite checked checked_then : ℕ → Bool) (n : ℕ) (old new : Run)
        → LeadsInManner plan is_polite n checked old checked_then new
        → LeadsPatiently plan (λ s. if is_polite s then 1 else 0) n checked (λ s. 0) old new }
{}

/// The bound is sharp. The lower of two sites has k jobs and a patience of k. It is hungry, has a dirty fork, and has
/// checked its bell; then the higher one has asked it for the fork, and has rung. The lower one may begin all its k
/// meals, and has the fork.
pub fn a_patient_site_may_begin_as_many_meals_as_its_patience()
    ensures asked { (k : ℕ) → 0 < k → LeadsBySteps (two_sites k 1) 4 (start_run (two_sites k 1)) rung_too_late_run }
    ensures has_rung { (k : ℕ) → IsAsked (two_sites k 1) rung_too_late_run 0 0
        × HasRungForAll (two_sites k 1) rung_too_late_run 0 0 }
    ensures eats { (k : ℕ) (checked : ℕ → Bool) → 0 < k → checked 0 ≡ true
        → LeadsPatiently (two_sites k 1) (λ s. k) (3 * k - 1) checked (λ s. 0) rung_too_late_run (rung_run k) }
    ensures meals { (k : ℕ) → (meals_so_far rung_too_late_run 0 ≡ 0) × (meals_so_far (rung_run k) 0 ≡ k) }
    ensures not_given { (k : ℕ) → (forks_given rung_too_late_run 0 0 ≡ 0) × (forks_given (rung_run k) 0 0 ≡ 0) }
{}
