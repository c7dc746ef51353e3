//! Laws over the definitions alone. Each function does nothing: its contract is the law.
ghost use Rattle.std.specs.Prelude.{◌≡◌, ◌≢◌, ◌<◌, ◌≤◌, ◌^◌, ◌++◌, ◌∷◌, [], List, None, Some, false, length, true, ℕ};
ghost use Rattle.dine_token.specs.Fork.{SeenFork, IsFork};
ghost use Rattle.dine_graph.specs.Plan.{IsPlan, SeenPlan, edges_of, site_count};
ghost use Rattle.dine_rules.specs.Breach.{is_allowed};
ghost use Rattle.dine_rules.specs.declared.events.Event.{Event};
ghost use Rattle.dine_rules.specs.declared.events.EventKind.{EventKind};
ghost use Rattle.dine_rules.specs.declared.letters.Letter.{Letter};
ghost use Rattle.dine_rules.specs.declared.letters.Letter.TheVariants.{Close};
ghost use Rattle.dine_rules.specs.Holdings.{fork_at};
ghost use Rattle.dine_rules.specs.JoinedEnds.{AreLinked, next_between};
ghost use Rattle.dine_rules.specs.Journals.{IsJournal, IsWholeOrder, journal_of};
ghost use Rattle.dine_rules.specs.Local.{LocalState, Traffic, edge_at, no_traffic, traffic_at};
ghost use Rattle.dine_rules.specs.Shown.{plan_shown};
ghost use Rattle.dine_rules.specs.Streams.{KeepsStreams};
ghost use Rattle.dine_rules.specs.Timed.{AreTimed};
ghost use Rattle.dine_rules.specs.World.{IsComplete, LinksAreOrdered, WorldState, state_of};
ghost use Rattle.dine_wire.specs.Arrivals.{GoesOnFrom, arrived};
ghost use Rattle.dine_wire.specs.Carried.{AreAllJoinedByBytes, AreJoinedByBytes, ArrivesWith, GoOnFromKept, IsOfKept};
ghost use Rattle.dine_wire.specs.Carried.{bytes_of_each, fork_for_next, kept_forks, letter_bytes};
ghost use Rattle.dine_wire.specs.Notes.{IsInBytes, bytes_of, report_of};
ghost use Rattle.dine_wire.specs.Runs.{bytes_in_run, is_of_run, of_run};
ghost use Rattle.dine_wire.specs.declared.note.Note.{Note};
ghost use Rattle.dine_wire.specs.declared.note.Report.TheVariants as report;

/// The bytes of four letters, as every build writes them: they stay as they are, since two processes may be of builds
/// of different days. The first is of a run whose number has eight bytes that differ, and the others are of run 0.
pub fn letters_have_these_bytes()
    ensures fork { bytes_in_run 578437695752307201
        (record { edge = 258; report = report.Fork (record { moves = 3; ate = 260; value = 65541 }) })
        ≡ 1 ∷ 2 ∷ 3 ∷ 4 ∷ 5 ∷ 6 ∷ 7 ∷ 8
        ∷ 1 ∷ 2 ∷ 1 ∷ 0 ∷ 0 ∷ 3 ∷ 0 ∷ 0 ∷ 0 ∷ 4 ∷ 1 ∷ 0 ∷ 0 ∷ 5 ∷ 0 ∷ 1 ∷ 0 ∷ 0 ∷ 0 ∷ 0 ∷ 0 ∷ [] }
    ensures request { bytes_in_run 0 (record { edge = 1; report = report.Request })
        ≡ 0 ∷ 0 ∷ 0 ∷ 0 ∷ 0 ∷ 0 ∷ 0 ∷ 0 ∷ 2 ∷ 1 ∷ 0 ∷ 0 ∷ 0 ∷ [] }
    ensures done { bytes_in_run 0 (record { edge = 1; report = report.Done })
        ≡ 0 ∷ 0 ∷ 0 ∷ 0 ∷ 0 ∷ 0 ∷ 0 ∷ 0 ∷ 3 ∷ 1 ∷ 0 ∷ 0 ∷ 0 ∷ [] }
    ensures close { bytes_in_run 0 (record { edge = 1; report = report.Close })
        ≡ 0 ∷ 0 ∷ 0 ∷ 0 ∷ 0 ∷ 0 ∷ 0 ∷ 0 ∷ 4 ∷ 1 ∷ 0 ∷ 0 ∷ 0 ∷ [] }
{}

/// Different notes have different bytes, and no note has more than 21. So have letters of different runs and letters
/// with different notes, and no letter has more than 29.
pub fn notes_are_read_as_written()
    ensures same { (one other : Note) → IsInBytes one → IsInBytes other → bytes_of one ≡ bytes_of other → one ≡ other }
    ensures runs { (run run_of_other : ℕ) (one other : Note) → run < 2 ^ 64 → run_of_other < 2 ^ 64
        → IsInBytes one → IsInBytes other → bytes_in_run run one ≡ bytes_in_run run_of_other other
        → (run ≡ run_of_other) × (one ≡ other) }
    ensures short { (note : Note) → length (bytes_of note) ≤ 21 }
    ensures letters { (run : ℕ) (note : Note) → length (bytes_in_run run note) ≤ 29 }
{}

/// Letters of other runs change nothing. A letter is of the run that it was put in, and of no other, whatever else it
/// says: so it is refused in any other (`OtherRun` of `IsNoLetter`). What else arrives leaves what is of the run as it
/// was.
pub fn letters_are_of_one_run()
    ensures own { (run edge : ℕ) (letter : Letter) → run < 2 ^ 64
        → is_of_run run (letter_bytes run edge letter) ≡ true }
    ensures others { (run other edge : ℕ) (letter : Letter) → other < 2 ^ 64 → run ≢ other
        → is_of_run run (letter_bytes other edge letter) ≡ false }
    ensures of_run { (run : ℕ) (arrived : List (List ℕ)) (bytes : List ℕ) → is_of_run run bytes ≡ true
        → of_run run (arrived ++ bytes ∷ []) ≡ of_run run arrived ++ bytes ∷ [] }
    ensures of_others { (run : ℕ) (arrived : List (List ℕ)) (bytes : List ℕ) → is_of_run run bytes ≡ false
        → of_run run (arrived ++ bytes ∷ []) ≡ of_run run arrived }
{}

/// What arrives is the letter that was sent: a letter that goes on from the fork that its receiver kept is the one that
/// the receiver gets from its note.
pub fn what_arrives_was_sent()
    ensures { (plan : SeenPlan) (kept : SeenFork) (edge : ℕ) (letter : Letter)
        → IsFork kept → GoesOnFrom plan kept edge letter
        → arrived plan kept edge (report_of letter) ≡ letter }
{}

/// A link that carries bytes carries letters. Suppose that two sites of one run, in two processes, keep the rules, and
/// each takes what the bytes of the other gave it, and nothing of other runs. Then what each took is a prefix of what
/// the other put: the same letters, with the whole forks. And the next letter goes on from the fork that is kept for
/// it, so its bytes are never refused.
pub fn links_of_bytes_carry_letters()
    ensures linked { (plan : SeenPlan) (run s i other j : ℕ) (here there : LocalState)
        → AreJoinedByBytes plan run s i other j here there → AreLinked (traffic_at here i) (traffic_at there j) }
    ensures next { (plan : SeenPlan) (run s i other j : ℕ) (here there : LocalState) (letter : Letter)
        → AreJoinedByBytes plan run s i other j here there
        → next_between (traffic_at here i) (traffic_at there j) ≡ Some letter
        → IsOfKept plan (fork_for_next plan s (edge_at plan s i) (traffic_at here i)) (edge_at plan s i) letter }
{}

/// Between two processes too: if the rules do not allow the next letter, it is a Close.
pub fn refused_bytes_are_closes()
    ensures { (plan : SeenPlan) (run s i other j : ℕ) (here there : LocalState) (letter : Letter)
        → AreJoinedByBytes plan run s i other j here there
        → next_between (traffic_at here i) (traffic_at there j) ≡ Some letter → is_allowed plan s here i letter ≡ false
        → letter ≡ Close }
{}

/// An end takes by bytes from the start on, as long as each letter is the one of its run that arrives with its bytes,
/// and goes on from the fork that is kept for it. To put a letter changes nothing of that, nor does to refuse what is
/// of another run.
pub fn letters_are_taken_one_by_one()
    ensures start { (plan : SeenPlan) (s edge : ℕ) → GoOnFromKept plan s edge no_traffic }
    ensures put { (plan : SeenPlan) (s edge : ℕ) (traffic : Traffic) (letter : Letter)
        → GoOnFromKept plan s edge traffic
        → GoOnFromKept plan s edge (record traffic { put = traffic.put ++ letter ∷ [] }) }
    ensures take { (plan : SeenPlan) (run s edge : ℕ) (traffic : Traffic) (letter : Letter) (bytes : List ℕ)
        → GoOnFromKept plan s edge traffic
        → ArrivesWith plan run (fork_for_next plan s edge traffic) edge bytes letter
        → GoOnFromKept plan s edge (record traffic { taken = traffic.taken ++ letter ∷ [] }) }
    ensures bytes { (plan : SeenPlan) (run s edge : ℕ) (traffic : Traffic) (letter : Letter) (bytes : List ℕ)
        (arrived : List (List ℕ)) → run < 2 ^ 64 → bytes_of_each run edge traffic.taken ≡ of_run run arrived
        → ArrivesWith plan run (fork_for_next plan s edge traffic) edge bytes letter
        → bytes_of_each run edge (traffic.taken ++ letter ∷ []) ≡ of_run run (arrived ++ bytes ∷ []) }
    ensures others { (run edge : ℕ) (traffic : Traffic) (bytes : List ℕ) (arrived : List (List ℕ))
        → bytes_of_each run edge traffic.taken ≡ of_run run arrived → is_of_run run bytes ≡ false
        → bytes_of_each run edge traffic.taken ≡ of_run run (arrived ++ bytes ∷ []) }
{}

/// A site without the fork of a place keeps one for the next Fork there: the last that it put, or the fork of the start
/// if it put none. If the fork is here, none is kept.
pub fn the_last_fork_is_kept()
    ensures away { (plan : SeenPlan) (s i : ℕ) (state : LocalState) → KeepsStreams plan s state
        → i < length state.traffic → fork_at plan s state i ≡ 0
        → (before : List SeenFork) × (last : SeenFork)
        × (kept_forks plan s (edge_at plan s i) (traffic_at state i).put ≡ before ++ last ∷ [])
        × (fork_for_next plan s (edge_at plan s i) (traffic_at state i) ≡ Some last) }
    ensures here { (plan : SeenPlan) (s i : ℕ) (state : LocalState) → KeepsStreams plan s state
        → i < length state.traffic → fork_at plan s state i ≡ 1
        → fork_for_next plan s (edge_at plan s i) (traffic_at state i) ≡ None }
{}

/// All sites of a plan in one run, each in a process, and their journals gathered at the end. The links are ordered, as
/// in a world of one thread, whatever letters of other runs arrive. If no site still has to quit, all is done and
/// taken, and each letter was taken later than it was put, then there is an order of the journals. What `order` of
/// `dine_order` looks for exists.
pub fn processes_have_an_order()
    ensures links { (plan : SeenPlan) (run : ℕ) (states : WorldState) → AreAllJoinedByBytes plan run states
        → LinksAreOrdered plan states }
    ensures order { (plan : SeenPlan) (run : ℕ) (journals : List (List EventKind)) (states : WorldState)
        → AreAllJoinedByBytes plan run states → length states ≡ site_count plan
        → ((s : ℕ) → s < site_count plan → IsJournal plan s (journal_of journals s) (state_of states s))
        → ((s : ℕ) → s < site_count plan → (state_of states s).must_quit ≡ false) → IsComplete plan states
        → AreTimed plan journals
        → (events : List Event) × IsWholeOrder (plan_shown plan journals) journals events }
{}
