//! Laws that tie the steps of a run to contracts of the code that does them. Each function does nothing: its contract
//! is the law.

ghost use Rattle.std.specs.Prelude.{◌≡◌, ◌↔◌, ◌⊎◌, ◌∷◌, ◌++◌, [], ◌<◌, ◌≤◌, ℕ, Bool, List, None, Option, Some};
ghost use Rattle.std.specs.Prelude.{false, true};
ghost use Rattle.dine_graph.specs.Plan.{IsPlan, SeenPlan, site_count};
ghost use Rattle.dine_link.specs.Deeds.{waking};
ghost use Rattle.dine_link.specs.Waking.{NotesRing, seen_wants};
ghost use Rattle.dine_link.specs.declared.sleeper.SleepState.{SleepState};
ghost use Rattle.dine_link.specs.declared.wants.Wants.{Wants};
ghost use Rattle.dine_rules.specs.Local.{LocalState, neighbour_at};
ghost use Rattle.dine_rules.specs.Steps.{Step, Take};
ghost use Rattle.dine_rules.specs.Wants.{SeenWants};
ghost use Rattle.dine_rules.specs.declared.events.EventKind.{EventKind};
ghost use Rattle.dine_rules.specs.declared.letters.LetterKind.{LetterKind};
ghost use Rattle.dine_rules.specs.declared.letters.Letter.{Letter};
ghost use Rattle.dine_site_thread.specs.Doings.{IsInTurn, event_of, is_on_call, own_event};
ghost use Rattle.dine_site_thread.specs.Threads.{IsTurn, MaySleep, Memo, Recalls, Takes, acts_alone, ringing_for};
ghost use Rattle.dine_site_thread.specs.Threads as turns;
ghost use Rattle.dine_site.specs.CoreWants.{can_put_off_by_lists, wants_by_lists};
ghost use Rattle.dine_rules.specs.World.{WorldState, state_of, world_after};
ghost use Rattle.dine_site_thread.specs.declared.manner.Manner.{Manner};
ghost use Rattle.dine_site_thread.specs.declared.manner.Manner.TheVariants.{Eager, OnCall, Patient};
ghost use Rattle.dine_rules.specs.declared.events.EventKind.TheVariants as event;
ghost use Rattle.dine_site.specs.NextEvent.{next_event};
ghost use Rattle.dine_waking.specs.Code.{IsNotedAs, rings_due, wakes_anyway, wakes_due, with_thread};
ghost use Rattle.dine_waking.specs.Manners.{IsInManner};
ghost use Rattle.dine_waking.specs.Runs.{Acts, ByHearing, Doing, FallsAsleep, GoesOn, HasToRing, HasToTake};
ghost use Rattle.dine_waking.specs.Runs.{HasToWake, HearsRing, LeadsBySteps, RingsBell, Run, Sleeps, WakesThread};
ghost use Rattle.dine_waking.specs.Runs.{after_ringing, doing_after, doing_rung, is_woken_by, number_there, rings_for};
ghost use Rattle.dine_waking.specs.Runs.{first_moment, takes_letters, thread_after_ring, thread_of};

/// A bell notes a ring as the step `RingsBell` of a run does: by `NotesRing`, which is the contract of the code, the
/// ring wakes the thread exactly if the run says so, and the state after it is that of the thread after the step. The
/// `anyway` of this step is true exactly if the ring fills the bell, or the number of the ringer is 64 or more. And a
/// bell that is noted as asleep with these wants is that of a thread that sleeps and waits for these letters.
pub fn bells_note_rings_as_runs_do()
    ensures rung { (doing : Doing) (number : ℕ) (kind : LetterKind) (old new : SleepState) (woken : Bool)
        → IsNotedAs doing old → NotesRing number kind old new woken
        → (woken ≡ is_woken_by (wakes_anyway number old) number kind doing)
        × IsNotedAs (doing_rung (wakes_anyway number old) number kind doing) new }
    ensures asleep { (wants : Wants) (seen : SeenWants) (room : ℕ) → seen_wants wants ≡ Some seen
        → IsNotedAs (Sleeps seen) (record { asleep = true; wants = wants; room = room }) }
{}

/// A site takes its turns as the steps of a run do. What the contract of `run_site_with` says of each step of a site,
/// `IsInTurn`, says that an event without a letter is the one of the step `Acts`, and that a letter is taken when the
/// step `HearsRing` allows it. For a patient site it says of a Take no more than that, and for an eager one just that
/// the ring is heard in its manner. A site on call takes a letter also while it thinks on, when its first event is to
/// grow hungry.
pub fn sites_take_turns_as_runs_do()
    ensures acts { (manner : Manner) (plan : SeenPlan) (s : ℕ) (state : LocalState) (step : Step) (kind : EventKind)
        → own_event step ≡ Some kind → IsInTurn manner (next_event plan s state) step
        → next_event plan s state ≡ Some kind }
    ensures takes { (manner : Manner) (plan : SeenPlan) (s : ℕ) (state : LocalState) (i : ℕ) (letter : Letter)
        → is_on_call manner ≡ false → IsInTurn manner (next_event plan s state) (Take i letter)
        → takes_letters (next_event plan s state) ≡ true }
    ensures on_call { (k : ℕ) (plan : SeenPlan) (s : ℕ) (state : LocalState) (i : ℕ) (letter : Letter)
        → IsInTurn (OnCall k) (next_event plan s state) (Take i letter)
        → (takes_letters (next_event plan s state) ≡ true) ⊎ (next_event plan s state ≡ Some event.Hungry) }
    ensures patient { (plan : SeenPlan) (s k : ℕ) (state : LocalState) (i : ℕ) (letter : Letter)
        → (takes_letters (next_event plan s state) ≡ true)
        ↔ (IsInTurn (Patient k) (next_event plan s state) (Take i letter)) }
    ensures eager { (plan : SeenPlan) (s : ℕ) (checked : ℕ → Bool) (old new : Run) (hears : HearsRing plan s old new)
        (letter : Letter) → (IsInManner plan s checked old new (ByHearing hears) false)
        ↔ (IsInTurn Eager (next_event plan s (state_of old.world s)) (Take hears.i letter)) }
{}

/// What the log of a thread has, by the contract of `run_site_with` (`IsTurn`), are steps of the thread in a run. Take
/// a moment of a run at which the thread goes on and its site is in this state. The event of a turn is the one of the
/// step `Acts`, once the world accepts it, and the ring in the log is the one that this step leaves to be done. The
/// ring is the step `RingsBell`. If it has to wake the neighbour, this step leaves the wake to be done that the log has
/// behind the ring, and else none; that the log and the run agree on whether it has to is what
/// `bells_note_rings_as_runs_do` says. The wake is the step `WakesThread`, which each run allows then. A letter is
/// heard for when `HearsRing` allows it, if its ring is the first of its place, also if it was put off. And if each
/// ring that the bell has left is for a letter that can be put off, and the only one of its place, the thread may fall
/// asleep as in `FallsAsleep`, with the wants that are in the log. If the site is on call, the run has to be open.
pub fn turns_are_steps_of_runs()
    ensures acts { (manner : Manner) (plan : SeenPlan) (s : ℕ) (old : Run) (memo : Memo) (step : Step) (woken : Bool)
        (kind : EventKind) (world : WorldState) → (thread_of old s).doing ≡ GoesOn
        → IsTurn manner plan s (state_of old.world s) memo (turns.Acts step woken) → event_of step ≡ Some kind
        → world_after plan old.world (record { site = s; kind = kind }) ≡ Some world
        → Acts plan s old (with_thread s (record { doing = doing_after kind; bell = (thread_of old s).bell })
        (record old { world = world })) }
    ensures rings { (step : Step) (woken : Bool) (kind : EventKind) → event_of step ≡ Some kind
        → ringing_for step woken ≡ rings_due woken (doing_after kind) }
    ensures rung { (plan : SeenPlan) (s : ℕ) (old : Run) (i : ℕ) (kind : LetterKind) (anyway woken : Bool)
        → (thread_of old s).doing ≡ HasToRing i kind
        → woken ≡ is_woken_by anyway (number_there plan s i) kind (thread_of old (neighbour_at plan s i)).doing
        → RingsBell plan s old (with_thread (neighbour_at plan s i)
        (thread_after_ring anyway (number_there plan s i) kind (thread_of old (neighbour_at plan s i)))
        (with_thread s (record { doing = after_ringing woken i; bell = (thread_of old s).bell }) old))
        × (waking i woken ≡ wakes_due (after_ringing woken i)) }
    ensures wakes { (plan : SeenPlan) (is_open : Bool) (n : ℕ) (old : Run) (s i : ℕ) → IsPlan plan
        → LeadsBySteps plan n (first_moment is_open plan) old → s < site_count plan
        → (thread_of old s).doing ≡ HasToWake i → WakesThread plan s old (with_thread (neighbour_at plan s i)
        (record { doing = GoesOn; bell = (thread_of old (neighbour_at plan s i)).bell })
        (with_thread s (record { doing = GoesOn; bell = (thread_of old s).bell }) old)) }
    ensures hears { (manner : Manner) (plan : SeenPlan) (s : ℕ) (old : Run) (memo : Memo) (slept : Option Wants) (i : ℕ)
        (letter : Letter) (front rest : List ℕ) → (is_on_call manner ≡ true → old.is_open ≡ true)
        → (thread_of old s).doing ≡ GoesOn
        → IsTurn manner plan s (state_of old.world s) memo (Takes slept i letter)
        → (thread_of old s).bell ≡ front ++ i ∷ rest → rings_for i front ≡ 0
        → HearsRing plan s old (with_thread s (record { doing = HasToTake i; bell = front ++ rest }) old) }
    ensures recalls { (manner : Manner) (plan : SeenPlan) (s : ℕ) (old : Run) (memo : Memo) (i : ℕ) (letter : Letter)
        (front rest : List ℕ) → (is_on_call manner ≡ true → old.is_open ≡ true)
        → (thread_of old s).doing ≡ GoesOn
        → IsTurn manner plan s (state_of old.world s) memo (Recalls i letter)
        → (thread_of old s).bell ≡ front ++ i ∷ rest → rings_for i front ≡ 0
        → HearsRing plan s old (with_thread s (record { doing = HasToTake i; bell = front ++ rest }) old) }
    ensures sleeps { (manner : Manner) (plan : SeenPlan) (s : ℕ) (old : Run) (memo : Memo) (wants : Wants)
        → (is_on_call manner ≡ true → old.is_open ≡ true)
        → (thread_of old s).doing ≡ GoesOn
        → MaySleep manner plan s (state_of old.world s) memo wants
        → ((i : ℕ) → 0 < rings_for i (thread_of old s).bell
        → can_put_off_by_lists plan s (state_of old.world s) i ≡ true)
        → ((i : ℕ) → rings_for i (thread_of old s).bell ≤ 1)
        → (seen_wants wants ≡ Some (wants_by_lists plan s (state_of old.world s)))
        × FallsAsleep plan s old (with_thread s (record {
          doing = Sleeps (wants_by_lists plan s
              (state_of old.world s));
          bell = (thread_of old s).bell;
        }) old) }
{}
