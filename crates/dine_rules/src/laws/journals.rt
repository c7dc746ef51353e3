//! Laws on journals, which are the events of each site in its order, and on lists that merge the events of all sites.

ghost use Rattle.std.specs.Prelude.{◌≡◌, ◌≢◌, ◌↔◌, ◌<◌, ◌+◌, ◌++◌, Bool, List, None, Option, Some, [], ◌∷◌, false};
ghost use Rattle.std.specs.Prelude.{length, map, slice_get, true, ℕ};
ghost use Rattle.dine_graph.specs.Plan.{IsPlan, SeenPlan, act_of, edges_of, job_count, job_of, jobs_of, name_of};
ghost use Rattle.dine_graph.specs.Plan.{resigns, site_count};
ghost use Rattle.dine_rules.specs.Outcomes.{NoSiteResigns, with_outcomes};
ghost use Rattle.dine_token.specs.Log.{is_dirty};
ghost use Rattle.dine_token.specs.declared.log_entry.Entry.TheVariants.{Meal, Move};
ghost use Rattle.dine_rules.specs.Examples.{pair, resigning_pair};
ghost use Rattle.dine_rules.specs.Holdings.{fork_at, hand_at};
ghost use Rattle.dine_rules.specs.JournalExamples.{accepted_as, asked_early, end_in, fork_and_request, higher_journal};
ghost use Rattle.dine_rules.specs.JournalExamples.{left_by, left_in, lower_journal, merge_of};
ghost use Rattle.dine_rules.specs.JournalExamples.{quit_by, ready_after};
ghost use Rattle.dine_rules.specs.Journals.{AreStatesAfter, FailAsShown, IsFrontOf, IsJournal, IsOrderOf};
ghost use Rattle.dine_rules.specs.Journals.{IsPlacedToEnd, IsWholeOrder, OrdersGrow, journal_of, outcomes_in, part_of};
ghost use Rattle.dine_rules.specs.Local.{LocalState, edge_at, neighbour_at, start_of};
ghost use Rattle.dine_rules.specs.Precedence.{fork_log};
ghost use Rattle.dine_rules.specs.Askers.{AskersWaitForOneMeal, NeighbourWaits, log_after};
ghost use Rattle.dine_rules.specs.EatingApart.{NeighboursEatApart};
ghost use Rattle.dine_rules.specs.Shown.{ResignAsPlanned, plan_shown, shown_in};
ghost use Rattle.dine_rules.specs.Timed.{AreTimed};
ghost use Rattle.dine_rules.specs.declared.events.Shape.TheVariants.{Puts};
ghost use Rattle.dine_rules.specs.Steps.{Step, after, may, shape_of, step_by};
ghost use Rattle.dine_rules.specs.World.{IsComplete, Reaches, WorldState, is_enabled, state_of, world_after};
ghost use Rattle.dine_rules.specs.declared.events.Event.{Event};
ghost use Rattle.dine_rules.specs.declared.events.EventKind.{EventKind};
ghost use Rattle.dine_rules.specs.declared.events.EventKind.TheVariants.{Ask, Begin, Done, End, Give, Hungry, Quit};
ghost use Rattle.dine_rules.specs.declared.events.EventKind.TheVariants.{Take};
ghost use Rattle.dine_rules.specs.declared.letters.LetterKind.TheVariants as kind;
ghost use Rattle.dine_rules.specs.declared.letters.Letter.{Letter};
ghost use Rattle.dine_rules.specs.declared.letters.Letter.TheVariants as letter;

/// Take two lists of events that the world accepts from its start. If they have the same events of each site, in the
/// same order, they lead to the same world, however the events of different sites are mixed. The same holds of two
/// lists that have placed the same number of events of each journal.
pub fn order_between_sites_does_not_matter()
    ensures same { (plan : SeenPlan) (events others : List Event) (world other : WorldState) → Reaches plan events world
        → Reaches plan others other
        → ((s : ℕ) → part_of s events ≡ part_of s others) → world ≡ other }
    ensures counted { (plan : SeenPlan) (journals : List (List EventKind)) (events others : List Event)
        (world other : WorldState)
        → Reaches plan events world → Reaches plan others other → IsFrontOf journals events → IsFrontOf journals others
        → ((s : ℕ) → length (part_of s events) ≡ length (part_of s others)) → world ≡ other }
{}

/// Suppose that some order of the journals is accepted and makes the world complete. Place events until no site is
/// ready, and choose any ready site each time: the result is such an order too. So if not all events could be placed,
/// or the world is not complete, there is no such order.
pub fn orders_that_exist_are_found()
    ensures all_placed { (plan : SeenPlan) (journals : List (List EventKind)) (order placed : List Event)
        (world : WorldState)
        → IsWholeOrder plan journals order → IsPlacedToEnd plan journals placed world → IsOrderOf journals placed }
    ensures complete { (plan : SeenPlan) (journals : List (List EventKind)) (order placed : List Event)
        (world : WorldState)
        → IsWholeOrder plan journals order → IsPlacedToEnd plan journals placed world → IsComplete plan world }
{}

/// An event of another site does not change whether an event of a site is enabled, unless it puts a letter on a link to
/// that site.
pub fn disabled_events_wait_for_a_letter()
    ensures { (plan : SeenPlan) (events : List Event) (world new : WorldState) (e other : Event) → IsPlan plan
        → Reaches plan events world
        → world_after plan world other ≡ Some new → e.site ≢ other.site
        → ((i : ℕ) → shape_of other.kind ≡ Puts i → neighbour_at plan other.site i ≢ e.site)
        → is_enabled plan new e ≡ is_enabled plan world e }
{}

/// What one more event does to a list of events that the world accepts, if it is enabled at the end of that list.
pub fn orders_grow_by_each_event()
    ensures { OrdersGrow }
{}

/// A journal is empty at the start, and grows by each event of its site, whatever letters come next.
pub fn journals_grow_by_each_event()
    ensures start { (plan : SeenPlan) (s : ℕ) → IsJournal plan s [] (start_of plan s) }
    ensures event { (plan : SeenPlan) (s : ℕ) (journal : List EventKind) (state : LocalState) (kind : EventKind)
        (failed : Bool) (next : ℕ → Option Letter) (step : Step)
        → IsJournal plan s journal state → step_by failed next kind ≡ Some step → may plan s state step ≡ true
        → IsJournal plan s (journal ++ kind ∷ []) (after plan s state step) }
{}

/// Let the jobs of the plan fail as the journals show. Then an order of the journals that the world accepts leads to
/// the world in which each site is in the state to which its journal leads.
pub fn journals_fix_the_world()
    ensures { (plan : SeenPlan) (journals : List (List EventKind)) (states world : WorldState) (events : List Event)
        → IsPlan plan
        → AreStatesAfter plan journals states → FailAsShown plan journals states → IsOrderOf journals events
        → Reaches plan events world → world ≡ states }
{}

/// Suppose that the events of the journals have moments that rise at each site, and that each letter was taken later
/// than it was put. Then some order of the journals is accepted and makes the world complete. The first clause is for a
/// plan whose jobs fail as the journals show. The second one is for any plan, if no site still has to quit, and gives
/// an order for the plan that the journals show.
pub fn timed_journals_have_an_order()
    ensures own { (plan : SeenPlan) (journals : List (List EventKind)) (states : WorldState) → IsPlan plan
        → AreStatesAfter plan journals states → FailAsShown plan journals states
        → IsComplete plan states → AreTimed plan journals → (events : List Event) × IsWholeOrder plan journals events }
    ensures shown { (plan : SeenPlan) (journals : List (List EventKind)) (states : WorldState) → IsPlan plan
        → AreStatesAfter plan journals states
        → ((s : ℕ) → s < site_count plan → (state_of states s).must_quit ≡ false) → IsComplete plan states
        → AreTimed plan journals
        → (events : List Event) × IsWholeOrder (plan_shown plan journals) journals events }
{}

/// In each order of journals, neighbours never eat together: at no point of it have both begun a meal and not ended it.
/// That holds of the orders of the plan itself, and of those of the plan that the journals show.
pub fn neighbours_eat_apart_in_each_order()
    ensures own { (plan : SeenPlan) (journals : List (List EventKind)) (events : List Event) → IsPlan plan
        → IsWholeOrder plan journals events → NeighboursEatApart plan events }
    ensures shown { (plan : SeenPlan) (journals : List (List EventKind)) (events : List Event) → IsPlan plan
        → IsWholeOrder (plan_shown plan journals) journals events
        → NeighboursEatApart plan events }
{}

/// A neighbour that asked waits for at most one meal: after a site takes a Request it begins at most one meal before it
/// gives the fork of that place, and none if the fork was dirty. That holds in each journal, of the events of a site in
/// each list that the world accepts, and so of the journals that such a list merges. That the site gives the fork, the
/// law does not say.
pub fn askers_wait_for_one_meal()
    ensures journal { (plan : SeenPlan) (s : ℕ) (journal : List EventKind) (state : LocalState)
        → IsJournal plan s journal state → AskersWaitForOneMeal s state journal }
    ensures list { (plan : SeenPlan) (events : List Event) (world : WorldState) (s : ℕ) → s < site_count plan
        → Reaches plan events world → AskersWaitForOneMeal s (state_of world s) (part_of s events) }
    ensures order { (plan : SeenPlan) (journals : List (List EventKind)) (events : List Event) (s : ℕ)
        (order : IsWholeOrder plan journals events) → s < site_count plan
        → AskersWaitForOneMeal s (state_of order.world s) (journal_of journals s) }
{}

/// A plan with other outcomes of its jobs is a plan. It has these outcomes, and otherwise the same sites, jobs and
/// edges. Journals lead to the same states by both plans, since journals show their own outcomes: the outcomes of the
/// plan matter only in a world.
pub fn journals_stand_for_other_outcomes()
    ensures plan { (plan : SeenPlan) (fails : List (List Bool)) → IsPlan plan → IsPlan (with_outcomes plan fails) }
    ensures outcomes { (plan : SeenPlan) (fails : List (List Bool)) (own : List Bool) (s k : ℕ) (failed : Bool)
        → slice_get fails s ≡ Some own → slice_get own k ≡ Some failed
        → k < job_count plan s → (job_of (with_outcomes plan fails) s (k + 1)).fails ≡ failed }
    ensures own { (plan : SeenPlan) → with_outcomes plan [] ≡ plan }
    ensures sites { (plan : SeenPlan) (fails : List (List Bool))
        → site_count (with_outcomes plan fails) ≡ site_count plan }
    ensures names { (plan : SeenPlan) (fails : List (List Bool)) (s : ℕ)
        → name_of (with_outcomes plan fails) s ≡ name_of plan s }
    ensures resigning { (plan : SeenPlan) (fails : List (List Bool)) (s : ℕ)
        → resigns (with_outcomes plan fails) s ≡ resigns plan s }
    ensures jobs { (plan : SeenPlan) (fails : List (List Bool)) (s : ℕ)
        → job_count (with_outcomes plan fails) s ≡ job_count plan s }
    ensures job_names { (plan : SeenPlan) (fails : List (List Bool)) (s k : ℕ)
        → (job_of (with_outcomes plan fails) s k).name ≡ (job_of plan s k).name }
    ensures turns { (plan : SeenPlan) (fails : List (List Bool)) (s k : ℕ)
        → (job_of (with_outcomes plan fails) s k).turns ≡ (job_of plan s k).turns }
    ensures acts { (plan : SeenPlan) (fails : List (List Bool)) (s k : ℕ)
        → act_of (with_outcomes plan fails) s k ≡ act_of plan s k }
    ensures edges { (plan : SeenPlan) (fails : List (List Bool)) → (with_outcomes plan fails).edges ≡ plan.edges }
    ensures values { (plan : SeenPlan) (fails : List (List Bool)) → (with_outcomes plan fails).values ≡ plan.values }
    ensures journal { (plan : SeenPlan) (fails : List (List Bool)) (s : ℕ) (journal : List EventKind)
        (state : LocalState)
        → IsJournal plan s journal state → IsJournal (with_outcomes plan fails) s journal state }
    ensures states { (plan : SeenPlan) (fails : List (List Bool)) (journals : List (List EventKind))
        (states : WorldState)
        → AreStatesAfter plan journals states → AreStatesAfter (with_outcomes plan fails) journals states }
{}

/// If no site resigns, outcomes do not matter. The same events lead to the same world, with the outcomes of the plan
/// and with others. An order of journals that makes one world complete makes the other complete.
pub fn outcomes_matter_only_to_sites_that_resign()
    ensures worlds { (plan : SeenPlan) (fails : List (List Bool)) (events : List Event) (world : WorldState)
        → NoSiteResigns plan
        → Reaches (with_outcomes plan fails) events world → Reaches plan events world }
    ensures back { (plan : SeenPlan) (fails : List (List Bool)) (events : List Event) (world : WorldState)
        → NoSiteResigns plan
        → Reaches plan events world → Reaches (with_outcomes plan fails) events world }
    ensures orders { (plan : SeenPlan) (fails : List (List Bool)) (journals : List (List EventKind))
        (events : List Event) → NoSiteResigns plan
        → IsWholeOrder (with_outcomes plan fails) journals events → IsWholeOrder plan journals events }
{}

/// The journal of a site shows at most one outcome for each of its meals. It shows that a meal failed exactly if this
/// meal is the last one and the site has quit.
pub fn journals_show_a_failure_by_quitting()
    ensures { (plan : SeenPlan) (s : ℕ) (journal : List EventKind) (state : LocalState) (k : ℕ) (failed : Bool)
        → IsJournal plan s journal state
        → slice_get (outcomes_in false journal) k ≡ Some failed
        → (k < state.ate) × ((failed ≡ true) ↔ ((k + 1 ≡ state.ate) × (state.has_quit ≡ true))) }
{}

/// If the sites that resign did so as the plan says, an order of the journals for the plan that the journals show is
/// one for the plan itself: the same list, accepted by a world of the plan. It leads to the same world by both plans.
pub fn orders_are_of_the_plan_if_sites_resign_as_planned()
    ensures order { (plan : SeenPlan) (journals : List (List EventKind)) (events : List Event) → IsPlan plan
        → ResignAsPlanned plan journals → IsWholeOrder (plan_shown plan journals) journals events
        → IsWholeOrder plan journals events }
    ensures world { (plan : SeenPlan) (journals : List (List EventKind)) (events : List Event) (world : WorldState)
        → IsPlan plan
        → ResignAsPlanned plan journals → IsWholeOrder (plan_shown plan journals) journals events
        → Reaches (plan_shown plan journals) events world
        → Reaches plan events world }
{}

/// In a world as in `journals_fix_the_world`, the log of the fork of an edge is the log in the hand of the site that
/// holds the fork.
pub fn journals_and_links_fix_the_logs()
    ensures { (plan : SeenPlan) (journals : List (List EventKind)) (states world : WorldState) (events : List Event)
        (s i : ℕ) → IsPlan plan
        → AreStatesAfter plan journals states → FailAsShown plan journals states → IsOrderOf journals events
        → Reaches plan events world
        → s < site_count plan → i < length (edges_of plan s) → fork_at plan s (state_of states s) i ≡ 1
        → fork_log plan world (edge_at plan s i) ≡ hand_at s (state_of states s) i }
{}

/// The journals of a pair with one job each. Let the lower site go as far as it can alone, then the higher, and so on:
/// this order is accepted. One that starts with the higher site is accepted too. If the higher site takes twice after
/// the first four events of the lower one, no more events can be placed. The journal of a site gives what it ate and
/// put.
///
/// A journal shows which meals failed: the last one before each Quit. A site that resigns may quit once, after a meal
/// that is not its last.
pub fn journals_go_as_worked()
    ensures lowest_first { accepted_as
        (merge_of (0 ∷ 0 ∷ 0 ∷ 0 ∷ 1 ∷ 1 ∷ 0 ∷ 0 ∷ 1 ∷ 1 ∷ 1 ∷ 1 ∷ 1 ∷ 0 ∷ 0 ∷ 1 ∷ 0 ∷ 1
        ∷ []) lower_journal higher_journal)
        ≡ Some (18, Meal 0 1 ∷ Move 1 ∷ Meal 1 1 ∷ []) }
    ensures higher_first { accepted_as
        (merge_of (1 ∷ 0 ∷ 0 ∷ 1 ∷ 0 ∷ 0 ∷ 1 ∷ 0 ∷ 0 ∷ 1 ∷ 1 ∷ 1 ∷ 1 ∷ 0 ∷ 0 ∷ 1 ∷ 0 ∷ 1
        ∷ []) lower_journal higher_journal)
        ≡ Some (18, Meal 0 1 ∷ Move 1 ∷ Meal 1 1 ∷ []) }
    ensures parts { part_of 1 (merge_of (1 ∷ 0 ∷ 0 ∷ 1 ∷ []) lower_journal higher_journal) ≡ Hungry ∷ Ask 0 ∷ [] }
    ensures ready { ready_after (lower_journal ∷ higher_journal ∷ []) [] ≡ Some (true, true) }
    ensures stuck { ready_after ((Hungry ∷ Begin ∷ End ∷ Done 0 ∷ []) ∷ (Take 0 ∷ Take 0 ∷ []) ∷ [])
        (merge_of (0 ∷ 0 ∷ 0 ∷ 0 ∷ 1 ∷ []) (Hungry ∷ Begin ∷ End ∷ Done 0 ∷ []) (Take 0 ∷ Take 0 ∷ []))
        ≡ Some (false, false) }
    ensures left { left_by 0 (letter.Request 0 ∷ letter.Done ∷ letter.Close ∷ []) lower_journal
        ≡ Some (1, kind.Done ∷ kind.Fork ∷ kind.Close ∷ []) }
    ensures outcomes { outcomes_in false (Hungry ∷ Begin ∷ End ∷ Hungry ∷ Begin ∷ End ∷ Quit ∷ Done 0 ∷ [])
        ≡ false ∷ true ∷ [] }
    ensures shown { shown_in 3 (Hungry ∷ Begin ∷ End ∷ Hungry ∷ Begin ∷ End ∷ Quit ∷ Done 0 ∷ [])
        ≡ map (λ job. job.fails) (jobs_of resigning_pair 0) }
    ensures quits { quit_by resigning_pair 0 (Hungry ∷ Begin ∷ End ∷ Hungry ∷ Begin ∷ End ∷ Quit ∷ Done 0 ∷ [])
        ≡ Some (2, true) }
    ensures quits_early { quit_by resigning_pair 0 (Hungry ∷ Begin ∷ End ∷ Quit ∷ []) ≡ Some (1, true) }
    ensures quits_unfed { quit_by resigning_pair 0 (Quit ∷ []) ≡ None }
    ensures quits_twice { quit_by resigning_pair 0 (Hungry ∷ Begin ∷ End ∷ Quit ∷ Quit ∷ []) ≡ None }
    ensures hungry_behind { quit_by resigning_pair 0 (Hungry ∷ Begin ∷ End ∷ Quit ∷ Hungry ∷ []) ≡ None }
    ensures quits_late { quit_by resigning_pair 0
        (Hungry ∷ Begin ∷ End ∷ Hungry ∷ Begin ∷ End ∷ Hungry ∷ Begin ∷ End ∷ Quit ∷ []) ≡ None }
    ensures never_quits { quit_by (pair 3 1) 0 (Hungry ∷ Begin ∷ End ∷ Quit ∷ []) ≡ None }
{}

/// Waits of a neighbour that asked, in a pair with two jobs each. The higher site takes the Request while its fork is
/// clean: it may eat once before it gives the fork, and not twice. The lower site takes it while its fork is dirty: it
/// gives the fork before it eats again.
pub fn askers_wait_as_worked()
    ensures clean { is_dirty (log_after (end_in (pair 2 2) 1 fork_and_request asked_early) 0 1
        (Hungry ∷ Ask 0 ∷ Take 0 ∷ [])) ≡ false }
    ensures eats_once { left_in (pair 2 2) 1 fork_and_request (asked_early ++ Begin ∷ End ∷ Give 0 ∷ [])
        ≡ Some (1, kind.Request ∷ kind.Fork ∷ []) }
    ensures waits { NeighbourWaits
        (end_in (pair 2 2) 1 fork_and_request (asked_early ++ Begin ∷ End ∷ Give 0 ∷ [])) 0
        (asked_early ++ Begin ∷ End ∷ Give 0 ∷ []) (Hungry ∷ Ask 0 ∷ Take 0 ∷ []) (Begin ∷ End ∷ []) }
    ensures not_twice { left_in (pair 2 2) 1 fork_and_request (asked_early ++ Begin ∷ End ∷ Hungry ∷ Begin ∷ [])
        ≡ None }
    ensures dirty { is_dirty (log_after
        (end_in (pair 2 2) 0 (letter.Request 0 ∷ []) (Hungry ∷ Begin ∷ End ∷ Take 0 ∷ [])) 0 0
        (Hungry ∷ Begin ∷ End ∷ [])) ≡ true }
    ensures gives { left_in (pair 2 2) 0 (letter.Request 0 ∷ []) (Hungry ∷ Begin ∷ End ∷ Take 0 ∷ Hungry ∷ Give 0 ∷ [])
        ≡ Some (1, kind.Fork ∷ []) }
    ensures not_before { left_in (pair 2 2) 0 (letter.Request 0 ∷ [])
        (Hungry ∷ Begin ∷ End ∷ Take 0 ∷ Hungry ∷ Begin ∷ []) ≡ None }
{}
