//! Laws over the definitions alone. Each function does nothing: its contract is the law.

ghost use Rattle.std.specs.Prelude.{◌≡◌, ◌≢◌, ◌<◌, ◌≤◌, ◌+◌, ◌*◌, ◌↔◌, ℕ, Bool, List, [], ◌∷◌, ◌++◌, None, Option};
ghost use Rattle.std.specs.Prelude.{Some, false, length, map, slice_get, true};
ghost use Rattle.std.specs.List.{list_any};
ghost use Rattle.dine_graph.specs.declared.limits.TheConstants.{MAX_EDGES, MAX_SITES};
ghost use Rattle.dine_graph.specs.Plan.{IsPlan, SeenPlan, edge_count, hi_of, job_count, lo_of, site_count};
ghost use Rattle.dine_token.specs.declared.limits.TheConstants.{MAX_JOBS};
ghost use Rattle.dine_token.specs.Fork.{SeenFork};
ghost use Rattle.dine_token.specs.Lawful.{IsLawful};
ghost use Rattle.dine_token.specs.Log.{is_dirty};
ghost use Rattle.dine_token.specs.declared.log_entry.Entry.TheVariants.{Meal, Move};
ghost use Rattle.dine_rules.specs.Bound.{bound_of, effects_of};
ghost use Rattle.dine_rules.specs.Examples.{lone_site, breach_of_done, breach_of_fork, enabled_after, ends_complete};
ghost use Rattle.dine_rules.specs.Examples.{next_after, outcome_of, pair, path, preferred_after, preferred_at_end};
ghost use Rattle.dine_rules.specs.Examples.{resigning_pair, row};
ghost use Rattle.dine_rules.specs.Breach.{first_breach, is_allowed, number_of};
ghost use Rattle.dine_rules.specs.BreachCauses.{Applies};
ghost use Rattle.dine_rules.specs.declared.breach.Breach.{Breach};
ghost use Rattle.dine_rules.specs.declared.breach.Breach.TheVariants.{AfterClose, ClosedEarly, DoneOutOfTurn};
ghost use Rattle.dine_rules.specs.declared.breach.Breach.TheVariants.{ForkOutOfTurn, RequestOutOfTurn, StrangeFork};
ghost use Rattle.dine_rules.specs.Holdings.{fork_at, hand_at, token_at};
ghost use Rattle.dine_rules.specs.Letters.{closes_in, dones_in, forks_in, requests_in};
ghost use Rattle.dine_rules.specs.Links.{ForEachEdge, ForEachLink, forks_of_edge, queue_to, tokens_of_edge};
ghost use Rattle.dine_rules.specs.Local.{LocalState, edge_at, is_eating, neighbour_at, start_of, traffic_at};
ghost use Rattle.dine_rules.specs.Precedence.{IsAcyclic, StandsBefore, fork_log};
ghost use Rattle.dine_rules.specs.StepLists.{LeadTo, begins_in, is_give_at};
ghost use Rattle.dine_rules.specs.Schedules.{after_choices, finish_within, from_here, replay, whole_run};
ghost use Rattle.dine_rules.specs.Steps as step;
ghost use Rattle.dine_rules.specs.Steps.{IsPlaceWithin, LocalStep, MovesBy, Step, after, may, shape_of, step_by};
ghost use Rattle.dine_rules.specs.Streams.{IsProper, IsPutInOrder, KeepsStreams};
ghost use Rattle.dine_rules.specs.World.{HasAllMeals, LinksAreOrdered, IsComplete, Reaches, WorldState, enabled_events};
ghost use Rattle.dine_rules.specs.World.{is_enabled, kinds_at, next_letter, put_to, start, state_of, world_after};
ghost use Rattle.dine_rules.specs.declared.events.Event.{Event};
ghost use Rattle.dine_rules.specs.declared.events.EventKind.{EventKind};
ghost use Rattle.dine_rules.specs.declared.letters.Letter.{Letter};
ghost use Rattle.dine_rules.specs.declared.letters.Letter.TheVariants.{Fork};
ghost use Rattle.dine_rules.specs.declared.letters.Letter.TheVariants as letter;
ghost use Rattle.dine_rules.specs.declared.events.EventKind.TheVariants.{Ask, Begin, Close, Done, End, Give, Hungry};
ghost use Rattle.dine_rules.specs.declared.events.EventKind.TheVariants.{Quit, Take};
ghost use Rattle.dine_rules.specs.declared.letters.LetterKind.TheVariants as kind;

mod joined;
mod journals;

pub use joined::{
    closed_links_are_wholly_taken, early_close_comes_as_worked, edges_have_a_place_at_each_end,
    joined_ends_have_one_whole_fork_and_one_token, kept_streams_account_for_fork_and_token,
    linked_ends_have_at_most_one_fork_and_token, reached_worlds_have_linked_ends,
    reached_worlds_have_the_values_of_their_logs, refused_letters_are_closes,
    values_are_those_of_the_logs,
};
pub use journals::{
    askers_wait_as_worked, askers_wait_for_one_meal, disabled_events_wait_for_a_letter,
    journals_and_links_fix_the_logs, journals_fix_the_world, journals_go_as_worked,
    journals_grow_by_each_event, journals_show_a_failure_by_quitting,
    journals_stand_for_other_outcomes, neighbours_eat_apart_in_each_order,
    order_between_sites_does_not_matter, orders_are_of_the_plan_if_sites_resign_as_planned,
    orders_grow_by_each_event, orders_that_exist_are_found,
    outcomes_matter_only_to_sites_that_resign, timed_journals_have_an_order,
};

/// What a link has of the letters of a site is in order in two cases: it has the first of them, or the first of them
/// and then a Close. So it is also if the link brought the site more letters than the site took.
pub fn letters_cut_short_are_in_order()
    ensures front { (plan : SeenPlan) (s i : ℕ) (state : LocalState) (front rest more : List Letter)
        → KeepsStreams plan s state → i < length state.traffic → (traffic_at state i).put ≡ front ++ rest
        → IsPutInOrder plan s i state.ate (record { put = front; taken = (traffic_at state i).taken ++ more }) }
    ensures closed { (plan : SeenPlan) (s i : ℕ) (state : LocalState) (front rest more : List Letter)
        → KeepsStreams plan s state → i < length state.traffic
        → (traffic_at state i).put ≡ front ++ rest ++ letter.Close ∷ []
        → IsPutInOrder plan s i state.ate
        (record { put = front ++ letter.Close ∷ []; taken = (traffic_at state i).taken ++ more }) }
{}

/// What the definitions give on small plans: the log of each edge and the number of events, computed from the list of
/// choices alone. A choice for which there is no event does nothing.
pub fn small_plans_run_as_worked()
    ensures pair { outcome_of (pair 1 1) [] ≡ record { logs = (Meal 0 1 ∷ Move 1 ∷ Meal 1 1 ∷ []) ∷ []; events = 18 } }
    ensures asked_first { outcome_of (pair 1 1) (1 ∷ 1 ∷ 0 ∷ 0 ∷ [])
        ≡ record { logs = (Move 1 ∷ Meal 1 1 ∷ Move 0 ∷ Meal 0 1 ∷ []) ∷ []; events = 22 } }
    ensures passed_over { outcome_of (pair 1 1) (9 ∷ []) ≡ outcome_of (pair 1 1) [] }
    ensures passed_over_later { outcome_of (pair 1 1) (1 ∷ 1 ∷ 2 ∷ 0 ∷ 0 ∷ [])
        ≡ outcome_of (pair 1 1) (1 ∷ 1 ∷ 0 ∷ 0 ∷ []) }
    ensures lower_alone { outcome_of (pair 3 0) []
        ≡ record { logs = (Meal 0 1 ∷ Meal 0 2 ∷ Meal 0 3 ∷ []) ∷ []; events = 17 } }
    ensures higher_alone { outcome_of (pair 0 1) [] ≡ record { logs = (Move 1 ∷ Meal 1 1 ∷ []) ∷ []; events = 15 } }
    ensures alone { outcome_of lone_site [] ≡ record { logs = []; events = 6 } }
    ensures path { outcome_of path []
        ≡ record {
          logs = (Meal 0 1 ∷ Move 1 ∷ Meal 1 1 ∷ []) ∷ (Meal 1 1 ∷ Move 2 ∷ Meal 2 1 ∷ []) ∷ [];
          events = 33;
        } }
    ensures resigning { outcome_of resigning_pair []
        ≡ record { logs = (Meal 0 1 ∷ Meal 0 2 ∷ Move 1 ∷ Meal 1 1 ∷ []) ∷ []; events = 22 } }
{}

/// The bounds of these plans.
pub fn small_plans_have_these_bounds()
    ensures pair { bound_of (pair 1 1) ≡ 22 }
    ensures lower_alone { bound_of (pair 3 0) ≡ 29 }
    ensures higher_alone { bound_of (pair 0 1) ≡ 15 }
    ensures alone { bound_of lone_site ≡ 6 }
    ensures path { bound_of path ≡ 41 }
    ensures resigning { bound_of resigning_pair ≡ 36 }
{}

/// At the start both sites of a pair may grow hungry, and nothing else is enabled. After six events of the second
/// schedule above, a Fork and then a Request are in the link to the higher site. At the end nothing is enabled, and
/// each site ate all its meals.
pub fn pair_goes_as_worked()
    ensures start { enabled_after (pair 1 1) []
        ≡ record { site = 0; kind = Hungry } ∷ record { site = 1; kind = Hungry } ∷ [] }
    ensures sixth { next_after (pair 1 1) (1 ∷ 1 ∷ 0 ∷ 0 ∷ 0 ∷ 0 ∷ []) 1 0 ≡ kind.Fork ∷ kind.Request ∷ [] }
    ensures end { ends_complete (pair 1 1) ≡ 1 ∷ 1 ∷ [] }
{}

/// The fixed order of events. The first clause lists all events of a site with two places. In the second one, the
/// middle of three sites with one job each may take the fork that it asked for, and give the one that its neighbour
/// asked for. In the third one it has no jobs, and may say Done at one place and Close at the other.
pub fn events_are_ordered_as_worked()
    ensures kinds { kinds_at (0 ∷ 1 ∷ [])
        ≡ Take 0 ∷ Take 1 ∷ Give 0 ∷ Give 1 ∷ End ∷ Begin ∷ Quit ∷ Hungry ∷ Ask 0 ∷ Ask 1 ∷ Done 0 ∷ Done 1 ∷ Close 0
        ∷ Close 1 ∷ [] }
    ensures take_before_give { enabled_after path (2 ∷ 2 ∷ 1 ∷ 2 ∷ 2 ∷ 0 ∷ 0 ∷ [])
        ≡ record { site = 0; kind = Hungry } ∷ record { site = 1; kind = Take 0 } ∷ record { site = 1; kind = Give 1 }
        ∷ [] }
    ensures done_before_close { enabled_after (row 0 0 0) (0 ∷ 0 ∷ 0 ∷ [])
        ≡ record { site = 0; kind = Take 0 } ∷ record { site = 1; kind = Done 1 } ∷ record { site = 1; kind = Close 0 }
        ∷ record { site = 2; kind = Done 0 } ∷ [] }
{}

/// The lower of two sites resigns, and the second of its three jobs fails. After that meal it may quit, and may not
/// grow hungry. Then it says Done. Its neighbour takes a Fork with one of its meals, and then Done. If the lower site
/// did not resign, that Done would be a breach.
pub fn resigning_goes_as_worked()
    ensures after_one { enabled_after resigning_pair (0 ∷ 0 ∷ 0 ∷ [])
        ≡ record { site = 0; kind = Hungry } ∷ record { site = 1; kind = Hungry } ∷ [] }
    ensures after_two { enabled_after resigning_pair (0 ∷ 0 ∷ 0 ∷ 0 ∷ 0 ∷ 0 ∷ [])
        ≡ record { site = 0; kind = Quit } ∷ record { site = 1; kind = Hungry } ∷ [] }
    ensures after_quit { enabled_after resigning_pair (0 ∷ 0 ∷ 0 ∷ 0 ∷ 0 ∷ 0 ∷ 0 ∷ [])
        ≡ record { site = 0; kind = Done 0 } ∷ record { site = 1; kind = Hungry } ∷ [] }
    ensures end { ends_complete resigning_pair ≡ 2 ∷ 1 ∷ [] }
    ensures fork { breach_of_fork resigning_pair ≡ None }
    ensures done { breach_of_done resigning_pair ≡ None }
    ensures other_fork { breach_of_fork (pair 3 1) ≡ None }
    ensures other_done { breach_of_done (pair 3 1) ≡ Some DoneOutOfTurn }
{}

/// Which end of the edge of a pair has precedence. At the start it is the higher end, which does not have the fork.
/// That stays so while the fork is clean on its way to the higher end, until the higher site ate. At the end of a run
/// it is the end that ate first, since the other end has the fork dirty. The last two clauses are examples of
/// `StandsBefore`.
pub fn precedence_goes_as_worked()
    ensures start { preferred_after (pair 1 1) [] ≡ 1 }
    ensures on_its_way { preferred_after (pair 1 1) (1 ∷ 1 ∷ 0 ∷ 0 ∷ 0 ∷ 0 ∷ []) ≡ 1 }
    ensures lower_ate_first { preferred_at_end (pair 1 1) [] ≡ 0 }
    ensures higher_ate_first { preferred_at_end (pair 1 1) (1 ∷ 1 ∷ 0 ∷ 0 ∷ []) ≡ 1 }
    ensures before { StandsBefore 2 0 (2 ∷ 1 ∷ 0 ∷ []) }
    ensures not_behind { StandsBefore 0 2 (2 ∷ 1 ∷ 0 ∷ []) → ⊥ }
{}

/// How many meals begin in a list of steps, and which step is a Give at a place.
pub fn steps_are_counted_as_worked()
    ensures begins { begins_in (step.Hungry ∷ step.Begin ∷ step.End false ∷ step.Hungry ∷ step.Begin ∷ []) ≡ 2 }
    ensures gives { is_give_at 1 (step.Give 1) ≡ true }
    ensures gives_elsewhere { is_give_at 1 (step.Give 0) ≡ false }
    ensures asks { is_give_at 1 (step.Ask 1) ≡ false }
{}

/// `KeepsStreams` holds of a site at the start, and after each step that its state allows, if a Fork that arrives is
/// a proper one (`IsProper`).
pub fn streams_are_kept()
    ensures start { (plan : SeenPlan) (s : ℕ) → IsPlan plan → s < site_count plan
        → KeepsStreams plan s (start_of plan s) }
    ensures step { (plan : SeenPlan) (s : ℕ) → IsPlan plan → s < site_count plan
        → (state new : LocalState) (step : Step)
        → KeepsStreams plan s state → IsProper step → LocalStep plan s state step new → KeepsStreams plan s new }
{}

/// A site that keeps its streams puts few letters at a place: at most as many Requests as it has jobs, at most one Fork
/// more than that, at most one Done and at most one Close. So that is three letters more than twice the most jobs of a
/// site.
pub fn few_letters_are_put()
    ensures requests { (plan : SeenPlan) (s : ℕ) (state : LocalState) (i : ℕ) → KeepsStreams plan s state
        → i < length state.traffic
        → requests_in (traffic_at state i).put ≤ job_count plan s }
    ensures forks { (plan : SeenPlan) (s : ℕ) (state : LocalState) (i : ℕ) → KeepsStreams plan s state
        → i < length state.traffic
        → forks_in (traffic_at state i).put ≤ job_count plan s + 1 }
    ensures dones { (plan : SeenPlan) (s : ℕ) (state : LocalState) (i : ℕ) → KeepsStreams plan s state
        → i < length state.traffic
        → dones_in (traffic_at state i).put ≤ 1 }
    ensures closes { (plan : SeenPlan) (s : ℕ) (state : LocalState) (i : ℕ) → KeepsStreams plan s state
        → i < length state.traffic
        → closes_in (traffic_at state i).put ≤ 1 }
    ensures letters { (plan : SeenPlan) (s : ℕ) (state : LocalState) (i : ℕ) → IsPlan plan → s < site_count plan
        → KeepsStreams plan s state
        → i < length state.traffic → length (traffic_at state i).put ≤ 2 * MAX_JOBS + 3 }
{}

/// A site that keeps its streams takes few letters at a place: at most as many Forks as it has jobs, at most one
/// Request more than that, at most one Done and at most one Close.
pub fn few_letters_are_taken()
    ensures forks { (plan : SeenPlan) (s : ℕ) (state : LocalState) (i : ℕ) → KeepsStreams plan s state
        → i < length state.traffic
        → forks_in (traffic_at state i).taken ≤ job_count plan s }
    ensures requests { (plan : SeenPlan) (s : ℕ) (state : LocalState) (i : ℕ) → KeepsStreams plan s state
        → i < length state.traffic
        → requests_in (traffic_at state i).taken ≤ job_count plan s + 1 }
    ensures dones { (plan : SeenPlan) (s : ℕ) (state : LocalState) (i : ℕ) → KeepsStreams plan s state
        → i < length state.traffic
        → dones_in (traffic_at state i).taken ≤ 1 }
    ensures closes { (plan : SeenPlan) (s : ℕ) (state : LocalState) (i : ℕ) → KeepsStreams plan s state
        → i < length state.traffic
        → closes_in (traffic_at state i).taken ≤ 1 }
    ensures letters { (plan : SeenPlan) (s : ℕ) (state : LocalState) (i : ℕ) → IsPlan plan → s < site_count plan
        → KeepsStreams plan s state
        → i < length state.traffic → length (traffic_at state i).taken ≤ 2 * MAX_JOBS + 3 }
{}

/// A letter is allowed exactly if it meets no breach.
pub fn allowed_letters_meet_no_breach()
    ensures { (plan : SeenPlan) (s : ℕ) (state : LocalState) (i : ℕ) (letter : Letter)
        → (is_allowed plan s state i letter ≡ true) ↔ (first_breach plan s state i letter ≡ None) }
{}

/// The breach that is reported of a letter is the first that applies, in the order of their numbers: it applies, and
/// none with a lower number does. If none is reported, none applies.
pub fn first_breach_is_first()
    ensures applies { (plan : SeenPlan) (s : ℕ) (state : LocalState) (i : ℕ) (letter : Letter) (breach : Breach)
        → first_breach plan s state i letter ≡ Some breach → Applies plan s state i breach letter }
    ensures first { (plan : SeenPlan) (s : ℕ) (state : LocalState) (i : ℕ) (letter : Letter) (breach earlier : Breach)
        → first_breach plan s state i letter ≡ Some breach → number_of earlier < number_of breach
        → Applies plan s state i earlier letter → ⊥ }
    ensures none { (plan : SeenPlan) (s : ℕ) (state : LocalState) (i : ℕ) (letter : Letter) (breach : Breach)
        → first_breach plan s state i letter ≡ None → Applies plan s state i breach letter → ⊥ }
{}

/// An event moves letters by its shape: it takes one at its place, puts one there, or moves none. If the site may do
/// the event, its place is one of the places of the site.
pub fn events_move_letters_by_their_shape()
    ensures moves { (plan : SeenPlan) (s : ℕ) (state : LocalState) (failed : Bool) (next : ℕ → Option Letter)
        (kind : EventKind) (step : Step)
        → step_by failed next kind ≡ Some step → MovesBy (shape_of kind) state (after plan s state step) }
    ensures place { (plan : SeenPlan) (s : ℕ) (state : LocalState) (failed : Bool) (next : ℕ → Option Letter)
        (kind : EventKind) (step : Step)
        → step_by failed next kind ≡ Some step → may plan s state step ≡ true
        → IsPlaceWithin (length state.traffic) (shape_of kind) }
{}

/// The numbers of the breaches.
pub fn breaches_are_numbered()
    ensures { map number_of
        (AfterClose ∷ RequestOutOfTurn ∷ ForkOutOfTurn ∷ StrangeFork ∷ DoneOutOfTurn ∷ ClosedEarly ∷ [])
        ≡ 1 ∷ 2 ∷ 3 ∷ 4 ∷ 5 ∷ 6 ∷ [] }
{}

/// A neighbour that asked gets precedence. Take a state that steps lead to from the start, whatever letters arrived. If
/// the site holds the fork and the token of a place, it begins at most one meal more before it gives that fork. If that
/// fork is dirty, it begins none: it gives the fork before its next meal.
pub fn asker_has_precedence()
    ensures at_most_one { (plan : SeenPlan) (s i : ℕ) (state new : LocalState) (before steps : List Step)
        → LeadTo plan s (start_of plan s) before state → i < length state.traffic
        → fork_at plan s state i ≡ 1 → token_at plan s state i ≡ 1
        → LeadTo plan s state steps new → list_any (is_give_at i) steps ≡ false → begins_in steps ≤ 1 }
    ensures none_if_dirty { (plan : SeenPlan) (s i : ℕ) (state new : LocalState) (before steps : List Step)
        → LeadTo plan s (start_of plan s) before state → i < length state.traffic
        → fork_at plan s state i ≡ 1 → token_at plan s state i ≡ 1 → is_dirty (hand_at s state i) ≡ true
        → LeadTo plan s state steps new → list_any (is_give_at i) steps ≡ false → begins_in steps ≡ 0 }
{}

/// In every world that events reach from the start: there is one state for each site, each site keeps its streams, and
/// what an end took is a prefix of what the other end put.
pub fn reached_worlds_keep_their_streams()
    ensures sites { (plan : SeenPlan) (events : List Event) (world : WorldState) → IsPlan plan
        → Reaches plan events world → length world ≡ site_count plan }
    ensures streams { (plan : SeenPlan) (events : List Event) (world : WorldState) → IsPlan plan
        → Reaches plan events world
        → (s : ℕ) → s < site_count plan → KeepsStreams plan s (state_of world s) }
    ensures links { (plan : SeenPlan) (events : List Event) (world : WorldState) → IsPlan plan
        → Reaches plan events world → LinksAreOrdered plan world }
{}

/// In every world that events reach from the start, a link has few letters. What was put on it is what was taken from
/// it, followed by the letters in it. These are at most one Fork, one Request, one Done and one Close, and so at most
/// four.
pub fn links_hold_few_letters()
    ensures in_order { ForEachLink
        (λ plan world s i. put_to plan world s i ≡ (traffic_at (state_of world s) i).taken ++ queue_to plan world s i) }
    ensures forks { ForEachLink (λ plan world s i. forks_in (queue_to plan world s i) ≤ 1) }
    ensures requests { ForEachLink (λ plan world s i. requests_in (queue_to plan world s i) ≤ 1) }
    ensures dones { ForEachLink (λ plan world s i. dones_in (queue_to plan world s i) ≤ 1) }
    ensures closes { ForEachLink (λ plan world s i. closes_in (queue_to plan world s i) ≤ 1) }
    ensures letters { ForEachLink (λ plan world s i. length (queue_to plan world s i) ≤ 4) }
{}

/// In every world that events reach from the start, each edge has exactly one fork and one token. They are counted at
/// the two ends of the edge and in the two links between them.
pub fn edges_have_one_fork_and_one_token()
    ensures fork { ForEachEdge (λ plan world edge. forks_of_edge plan world edge ≡ 1) }
    ensures token { ForEachEdge (λ plan world edge. tokens_of_edge plan world edge ≡ 1) }
{}

/// In every world that events reach from the start, neighbours never eat at the same time: a site that eats holds the
/// fork of each of its edges.
pub fn neighbours_never_eat_together()
    ensures holds_all { ForEachLink
        (λ plan world s i. is_eating (state_of world s).phase ≡ true → fork_at plan s (state_of world s) i ≡ 1) }
    ensures alone { ForEachLink
        (λ plan world s i. is_eating (state_of world s).phase ≡ true
        → is_eating (state_of world (neighbour_at plan s i)).phase ≡ false) }
{}

/// In every world that events reach from the start, the number of effects is the number of these events.
pub fn events_are_counted()
    ensures { (plan : SeenPlan) (events : List Event) (world : WorldState) → IsPlan plan → Reaches plan events world
        → effects_of world ≡ length events }
{}

/// In every world that events reach from the start, the number of these events, and the number of effects, are at most
/// the bound of the plan.
pub fn events_are_bounded()
    ensures effects { (plan : SeenPlan) (events : List Event) (world : WorldState) → IsPlan plan
        → Reaches plan events world
        → effects_of world ≤ bound_of plan }
    ensures events { (plan : SeenPlan) (events : List Event) (world : WorldState) → IsPlan plan
        → Reaches plan events world
        → length events ≤ bound_of plan }
{}

/// An event that is enabled in a world stays enabled after each event of another site.
pub fn enabled_events_stay_enabled()
    ensures { (plan : SeenPlan) (world new : WorldState) (e other : Event)
        → is_enabled plan world e ≡ true → world_after plan world other ≡ Some new → e.site ≢ other.site
        → is_enabled plan new e ≡ true }
{}

/// In every world that events reach from the start, the list of enabled events has each enabled event. In every world
/// it has only enabled events, and none of them twice.
pub fn enabled_events_are_all_listed()
    ensures all { (plan : SeenPlan) (events : List Event) (world : WorldState) (e : Event) → IsPlan plan
        → Reaches plan events world
        → is_enabled plan world e ≡ true → (n : ℕ) × (slice_get (enabled_events plan world) n ≡ Some e) }
    ensures only { (plan : SeenPlan) (world : WorldState) (e : Event) (n : ℕ)
        → slice_get (enabled_events plan world) n ≡ Some e → is_enabled plan world e ≡ true }
    ensures once { (plan : SeenPlan) (world : WorldState) (e : Event) (n m : ℕ)
        → slice_get (enabled_events plan world) n ≡ Some e → slice_get (enabled_events plan world) m ≡ Some e → n ≡ m }
{}

/// In every world that events reach from the start, no letter meets a breach: the site may take the next letter of each
/// link to it.
pub fn next_letters_meet_no_breach()
    ensures { ForEachLink
        (λ plan world s i. (letter : Letter) → next_letter plan world s i ≡ Some letter
        → first_breach plan s (state_of world s) i letter ≡ None) }
{}

/// In every world that events reach from the start, precedence has no cycle: there is a list that has each site once,
/// and the end of each edge that has precedence before the other end.
pub fn precedence_is_acyclic()
    ensures { (plan : SeenPlan) (events : List Event) (world : WorldState) → IsPlan plan → Reaches plan events world
        → IsAcyclic plan world }
{}

/// A stuck world is complete. If events reach a world from the start and no event is enabled in it, then every site
/// thinks, and ate all its meals or has quit, and every link is closed in order and empty.
pub fn stuck_worlds_are_complete()
    ensures { (plan : SeenPlan) (events : List Event) (world : WorldState) → IsPlan plan → Reaches plan events world
        → enabled_events plan world ≡ [] → IsComplete plan world }
{}

/// A complete world is stuck: if events reach it from the start, no event is enabled in it.
pub fn complete_worlds_are_stuck()
    ensures { (plan : SeenPlan) (events : List Event) (world : WorldState) → IsPlan plan → Reaches plan events world
        → IsComplete plan world → enabled_events plan world ≡ [] }
{}

/// Do the first enabled event again and again, at most as many times as the bound of the plan says. Then no event is
/// enabled, and the world is complete. That holds from each world that events reach from the start, and at the end of a
/// whole run, after any choices.
pub fn finished_runs_are_complete()
    ensures halts { (plan : SeenPlan) (events : List Event) (world : WorldState) → IsPlan plan
        → Reaches plan events world
        → enabled_events plan (finish_within (bound_of plan) plan (record { world = world; events = 0 })).world ≡ [] }
    ensures complete { (plan : SeenPlan) (events : List Event) (world : WorldState) → IsPlan plan
        → Reaches plan events world
        → IsComplete plan (finish_within (bound_of plan) plan (record { world = world; events = 0 })).world }
    ensures whole_run_halts { (plan : SeenPlan) (choices : List ℕ) → IsPlan plan
        → enabled_events plan (whole_run plan choices).world ≡ [] }
    ensures whole_run_complete { (plan : SeenPlan) (choices : List ℕ) → IsPlan plan
        → IsComplete plan (whole_run plan choices).world }
{}

/// A whole run, after any choices, has as many events as the world at its end has effects, and at most the bound of the
/// plan. No plan has a greater bound than 64 sites with 4,294,967,295 jobs each and 512 edges.
pub fn whole_runs_are_bounded()
    ensures counted { (plan : SeenPlan) (choices : List ℕ) → IsPlan plan
        → (whole_run plan choices).events ≡ effects_of (whole_run plan choices).world }
    ensures bounded { (plan : SeenPlan) (choices : List ℕ) → IsPlan plan
        → (whole_run plan choices).events ≤ bound_of plan }
    ensures small { (plan : SeenPlan) → IsPlan plan → bound_of plan ≤ 3 * (MAX_SITES * MAX_JOBS)
        + MAX_EDGES * (8 * MAX_JOBS + 8) }
{}

/// A whole run goes on from where the choices end: it ends in the world to which the first enabled events lead from
/// there, and its number of events is that of the choices plus that of the events after them.
pub fn whole_runs_go_on_after_the_choices()
    ensures world { (plan : SeenPlan) (choices : List ℕ)
        → (whole_run plan choices).world ≡ (after_choices plan choices).world }
    ensures events { (plan : SeenPlan) (choices : List ℕ)
        → (whole_run plan choices).events
        ≡ (replay plan (from_here (start plan)) choices).events + (after_choices plan choices).events }
{}

/// In every world that events reach from the start, `fork_log` is the log of the one fork of the edge. If a site holds
/// the fork, it is the log in its hand. If the fork is in a link, it is the log in the letter.
pub fn fork_logs_are_of_the_one_fork()
    ensures held { ForEachLink
        (λ plan world s i. fork_at plan s (state_of world s) i ≡ 1
        → fork_log plan world (edge_at plan s i) ≡ hand_at s (state_of world s) i) }
    ensures sent { ForEachLink
        (λ plan world s i. (fork : SeenFork) (k : ℕ) → slice_get (queue_to plan world s i) k ≡ Some (Fork fork)
        → fork_log plan world (edge_at plan s i) ≡ fork.log) }
{}

/// In every world that events reach from the start, the log of the fork of each edge is lawful, whether the fork is in
/// hand, in a meal or in a link. If the world is complete, the log has all meals that both ends ate. If an end has not
/// quit, these are all meals that are due to it. So at the end of a whole run, after any choices, each log is lawful
/// and has all meals that both ends ate.
pub fn forks_are_lawful_and_whole()
    ensures lawful { ForEachEdge
        (λ plan world edge. IsLawful (lo_of plan edge, hi_of plan edge)
        (job_count plan (lo_of plan edge), job_count plan (hi_of plan edge)) (fork_log plan world edge)) }
    ensures whole { ForEachEdge (λ plan world edge. IsComplete plan world
        → HasAllMeals plan world (lo_of plan edge) (fork_log plan world edge)
        × HasAllMeals plan world (hi_of plan edge) (fork_log plan world edge)) }
    ensures run_lawful { (plan : SeenPlan) (choices : List ℕ) (edge : ℕ) → IsPlan plan → edge < edge_count plan
        → IsLawful (lo_of plan edge, hi_of plan edge)
        (job_count plan (lo_of plan edge), job_count plan (hi_of plan edge))
        (fork_log plan (whole_run plan choices).world edge) }
    ensures run_whole { (plan : SeenPlan) (choices : List ℕ) (edge : ℕ) → IsPlan plan → edge < edge_count plan
        → HasAllMeals plan (whole_run plan choices).world (lo_of plan edge)
        (fork_log plan (whole_run plan choices).world edge)
        × HasAllMeals plan (whole_run plan choices).world (hi_of plan edge)
        (fork_log plan (whole_run plan choices).world edge) }
{}
