//! Laws over whole lists alone, which threads leave when they have joined. No order of events is assumed.

ghost use Rattle.std.specs.Prelude.{◌≡◌, ◌<◌, ◌≤◌, ◌+◌, Bool, List, Some, false, length, true, ℕ};
ghost use mathlib.Core.List.{IsPrefix};
ghost use Rattle.dine_token.specs.declared.log_entry.Entry.{Entry};
ghost use Rattle.dine_graph.specs.Plan.{IsPlan, SeenPlan, edge_count, edges_of, hi_of, lo_of, site_count};
ghost use Rattle.dine_rules.specs.Breach.{first_breach, is_allowed};
ghost use Rattle.dine_rules.specs.Examples.{broken_off_site, pair};
ghost use Rattle.dine_rules.specs.Holdings.{forks_held, tokens_held};
ghost use Rattle.dine_rules.specs.JoinedEnds.{AccountsForFork, AccountsForToken, AreEndsOfEdge, AreForksLinked};
ghost use Rattle.dine_rules.specs.JoinedEnds.{AreLinked, AreWhollyTaken, HaveOneWholeFork, IsWholeLog, next_between};
ghost use Rattle.dine_rules.specs.JoinedEnds.{traffic_across};
ghost use Rattle.dine_rules.specs.Letters.{has_close};
ghost use Rattle.dine_rules.specs.Links.{ForEachLink};
ghost use Rattle.dine_rules.specs.Local.{LocalState, Traffic, edge_at, neighbour_at, start_of, traffic_at};
ghost use Rattle.dine_rules.specs.Streams.{IsLawfulStream, KeepsStreams};
ghost use Rattle.dine_rules.specs.Values.{KeepsValuesOfLogs, value_by_amounts, has_no_set, value_by};
ghost use Rattle.dine_rules.specs.World.{IsComplete, WorldState, next_letter, place_of, state_of};
ghost use Rattle.dine_rules.specs.declared.breach.Breach.{Breach};
ghost use Rattle.dine_rules.specs.declared.breach.Breach.TheVariants.{ClosedEarly};
ghost use Rattle.dine_rules.specs.declared.letters.Letter.{Letter};
ghost use Rattle.dine_rules.specs.declared.letters.Letter.TheVariants.{Close};

/// Each edge has one place at its lower end and one at its higher end. Each place of a site is an end of its edge, and
/// the other end of that edge is a place of a site.
pub fn edges_have_a_place_at_each_end()
    ensures ends { (plan : SeenPlan) (edge : ℕ) → IsPlan plan → edge < edge_count plan
        → AreEndsOfEdge plan (lo_of plan edge) (place_of plan (lo_of plan edge) edge) (hi_of plan edge)
        (place_of plan (hi_of plan edge) edge) }
    ensures edge { (plan : SeenPlan) (edge : ℕ) → IsPlan plan → edge < edge_count plan
        → edge_at plan (lo_of plan edge) (place_of plan (lo_of plan edge) edge) ≡ edge }
    ensures places { (plan : SeenPlan) (s i : ℕ) → IsPlan plan → i < length (edges_of plan s)
        → AreEndsOfEdge plan s i (neighbour_at plan s i) (place_of plan (neighbour_at plan s i) (edge_at plan s i)) }
    ensures edges { (plan : SeenPlan) (s i : ℕ) → IsPlan plan → i < length (edges_of plan s)
        → edge_at plan s i < edge_count plan }
    ensures sites { (plan : SeenPlan) (s i : ℕ) → IsPlan plan → i < length (edges_of plan s)
        → neighbour_at plan s i < site_count plan }
{}

/// In every world that events reach from the start, each of the two ends of a link took a prefix of what the other put.
/// If the world is complete, each took all. The next letter of a world is the next one by the lists of the two ends.
pub fn reached_worlds_have_linked_ends()
    ensures linked { ForEachLink
        (λ plan world s i. AreLinked (traffic_at (state_of world s) i) (traffic_across plan world s i)) }
    ensures next { (plan : SeenPlan) (world : WorldState) (s i : ℕ)
        → next_letter plan world s i ≡ next_between (traffic_at (state_of world s) i) (traffic_across plan world s i) }
    ensures joined { ForEachLink
        (λ plan world s i. IsComplete plan world
        → AreWhollyTaken (traffic_at (state_of world s) i) (traffic_across plan world s i)) }
{}

/// If Close was taken from a link, everything was taken. For what was put is a lawful stream, what was taken is a
/// prefix of it, and nothing comes after Close.
pub fn closed_links_are_wholly_taken()
    ensures { (from_lower : Bool) (taken put : List Letter) → IsLawfulStream from_lower put → IsPrefix taken put
        → has_close taken ≡ true → taken ≡ put }
{}

/// If the next letter is not allowed, it is a Close, and its breach is that it is early. That holds for two sites that
/// keep their streams, at the two ends of an edge, if each took a prefix of what the other put. It also holds if a site
/// did a Break. Whole lists are counted, and no order of events is assumed.
pub fn refused_letters_are_closes()
    ensures close { (plan : SeenPlan) (s i other j : ℕ) (here there : LocalState) (letter : Letter) → IsPlan plan
        → AreEndsOfEdge plan s i other j
        → KeepsStreams plan s here → KeepsStreams plan other there → AreLinked (traffic_at here i) (traffic_at there j)
        → next_between (traffic_at here i) (traffic_at there j) ≡ Some letter → is_allowed plan s here i letter ≡ false
        → letter ≡ Close }
    ensures early { (plan : SeenPlan) (s i other j : ℕ) (here there : LocalState) (letter : Letter) (breach : Breach)
        → IsPlan plan → AreEndsOfEdge plan s i other j
        → KeepsStreams plan s here → KeepsStreams plan other there → AreLinked (traffic_at here i) (traffic_at there j)
        → next_between (traffic_at here i) (traffic_at there j) ≡ Some letter
        → first_breach plan s here i letter ≡ Some breach → breach ≡ ClosedEarly }
{}

/// A site that does a Break at the start puts a Close. It is the next letter at the other end, and its breach is that
/// it is early.
pub fn early_close_comes_as_worked()
    ensures next { next_between (traffic_at (start_of (pair 1 1) 0) 0) (traffic_at broken_off_site 0) ≡ Some Close }
    ensures told { first_breach (pair 1 1) 0 (start_of (pair 1 1) 0) 0 Close ≡ Some ClosedEarly }
{}

/// A site that keeps its streams accounts for the fork and for the token of each of its places.
pub fn kept_streams_account_for_fork_and_token()
    ensures fork { (plan : SeenPlan) (s i : ℕ) (state : LocalState) → KeepsStreams plan s state
        → i < length (edges_of plan s)
        → AccountsForFork plan s (edge_at plan s i) state.ate (traffic_at state i) }
    ensures token { (plan : SeenPlan) (s i : ℕ) (state : LocalState) → IsPlan plan → KeepsStreams plan s state
        → i < length (edges_of plan s)
        → AccountsForToken plan s (edge_at plan s i) (traffic_at state i) }
{}

/// Let each of two ends of an edge have taken a prefix of what the other put. If both account for the fork, they hold
/// at most one fork. If both account for the token, they hold at most one token. That also holds if a site did a Break.
pub fn linked_ends_have_at_most_one_fork_and_token()
    ensures fork { (plan : SeenPlan) (edge low_ate high_ate : ℕ) (low high : Traffic) → IsPlan plan
        → edge < edge_count plan
        → AccountsForFork plan (lo_of plan edge) edge low_ate low
        → AccountsForFork plan (hi_of plan edge) edge high_ate high → AreLinked low high
        → forks_held plan (lo_of plan edge) edge low + forks_held plan (hi_of plan edge) edge high ≤ 1 }
    ensures token { (plan : SeenPlan) (edge : ℕ) (low high : Traffic) → IsPlan plan → edge < edge_count plan
        → AccountsForToken plan (lo_of plan edge) edge low → AccountsForToken plan (hi_of plan edge) edge high
        → AreLinked low high
        → tokens_held plan (lo_of plan edge) edge low + tokens_held plan (hi_of plan edge) edge high ≤ 1 }
{}

/// Let the Forks that each of two ends of an edge took be the first Forks that the other put, in order, and let both
/// account for the fork. Then each Fork that was put, and the fork in hand, has the value that its log gives: the value
/// of the plan, after the acts of the meals of the log, in order. That also holds if a site did a Break. If no job of
/// the plan sets a value, a whole log gives the sum of what all jobs of both ends add.
pub fn values_are_those_of_the_logs()
    ensures low { (plan : SeenPlan) (edge low_ate high_ate : ℕ) (low high : Traffic) → IsPlan plan
        → edge < edge_count plan
        → AccountsForFork plan (lo_of plan edge) edge low_ate low
        → AccountsForFork plan (hi_of plan edge) edge high_ate high → AreForksLinked low high
        → KeepsValuesOfLogs plan (lo_of plan edge) edge low_ate low }
    ensures high { (plan : SeenPlan) (edge low_ate high_ate : ℕ) (low high : Traffic) → IsPlan plan
        → edge < edge_count plan
        → AccountsForFork plan (lo_of plan edge) edge low_ate low
        → AccountsForFork plan (hi_of plan edge) edge high_ate high → AreForksLinked low high
        → KeepsValuesOfLogs plan (hi_of plan edge) edge high_ate high }
    ensures linked { (low high : Traffic) → AreLinked low high → AreForksLinked low high }
    ensures added_up { (plan : SeenPlan) (edge low_ate high_ate : ℕ) (log : List Entry) → IsPlan plan
        → edge < edge_count plan → has_no_set plan ≡ true
        → IsWholeLog plan edge low_ate high_ate log
        → value_by plan edge log ≡ value_by_amounts plan edge low_ate high_ate }
{}

/// In every world that events reach from the start, the values at each place of each site are those that the logs give.
pub fn reached_worlds_have_the_values_of_their_logs()
    ensures { ForEachLink
        (λ plan world s i. KeepsValuesOfLogs plan s (edge_at plan s i) (state_of world s).ate
        (traffic_at (state_of world s) i)) }
{}

/// Let each of two ends of an edge have taken all that the other put. If both account for the fork, they hold exactly
/// one. Its log is lawful, and has each meal that either end ate exactly once. If both account for the token, they hold
/// exactly one. That holds for the lists that threads leave when they have joined, in whatever order their events were.
pub fn joined_ends_have_one_whole_fork_and_one_token()
    ensures fork { (plan : SeenPlan) (edge low_ate high_ate : ℕ) (low high : Traffic) → IsPlan plan
        → edge < edge_count plan
        → AccountsForFork plan (lo_of plan edge) edge low_ate low
        → AccountsForFork plan (hi_of plan edge) edge high_ate high → AreWhollyTaken low high
        → HaveOneWholeFork plan edge low_ate high_ate low high }
    ensures token { (plan : SeenPlan) (edge : ℕ) (low high : Traffic) → IsPlan plan → edge < edge_count plan
        → AccountsForToken plan (lo_of plan edge) edge low → AccountsForToken plan (hi_of plan edge) edge high
        → AreWhollyTaken low high
        → tokens_held plan (lo_of plan edge) edge low + tokens_held plan (hi_of plan edge) edge high ≡ 1 }
{}
