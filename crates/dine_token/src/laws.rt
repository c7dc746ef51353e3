//! Laws over the definitions alone. Each function does nothing: its contract is the law.

ghost use Rattle.std.specs.Prelude.{◌≡◌, ℕ, ◌+◌, ◌*◌, ◌<◌, ◌≤◌, true, false, List, [], ◌∷◌, ◌++◌, length};
ghost use Rattle.dine_token.specs.declared.log_entry.Entry.{Entry};
ghost use Rattle.dine_token.specs.declared.log_entry.Entry.TheVariants.{Meal, Move};
ghost use Rattle.dine_token.specs.declared.act.Act.{Act};
ghost use Rattle.dine_token.specs.Values.{IsAct};
ghost use Rattle.dine_token.specs.Log.{is_dirty, location_of, meals_of};
ghost use Rattle.dine_token.specs.Lawful.{IsLawful};
ghost use Rattle.dine_token.specs.Periods.{periods_of, entries_of};
ghost use Rattle.dine_token.specs.Fork.{SeenFork, IsFork, IsEnd, MayMove, MayEat, location, after_move, after_meal};

/// A lawful log has at most twice as many entries as meals are due to both ends.
pub fn lawful_log_is_bounded()
    ensures { (ends due : ℕ × ℕ) (log : List Entry) → ends.0 < ends.1 → IsLawful ends due log
        → length log ≤ 2 * (due.0 + due.1) }
{}

/// The periods of a lawful log give the whole log, and there are at most one more of them than the meals that are due
/// to both ends.
pub fn periods_tell_the_log()
    ensures whole { (ends due : ℕ × ℕ) (log : List Entry) → ends.0 < ends.1 → IsLawful ends due log
        → entries_of (periods_of ends.0 log) ≡ log }
    ensures bounded { (ends due : ℕ × ℕ) (log : List Entry) → ends.0 < ends.1 → IsLawful ends due log
        → length (periods_of ends.0 log) ≤ due.0 + due.1 + 1 }
{}

/// A meal at the end of a log makes the fork dirty, leaves it where it is, and is one more meal of its site alone.
pub fn meal_soils_and_counts()
    ensures dirty { (log : List Entry) (site k : ℕ) → is_dirty (log ++ Meal site k ∷ []) ≡ true }
    ensures here { (start : ℕ) (log : List Entry) (site k : ℕ)
        → location_of start (log ++ Meal site k ∷ []) ≡ location_of start log }
    ensures own { (site : ℕ) (log : List Entry) (k : ℕ)
        → meals_of site (log ++ Meal site k ∷ []) ≡ meals_of site log + 1 }
    ensures others { (other site : ℕ) (log : List Entry) (k : ℕ) → (site ≡ other → ⊥)
        → meals_of other (log ++ Meal site k ∷ []) ≡ meals_of other log }
{}

/// A Move at the end of a log makes the fork clean, puts it at its destination, and is no meal. A clean log ends in a
/// Move.
pub fn move_cleans_and_sends()
    ensures clean { (log : List Entry) (to : ℕ) → is_dirty (log ++ Move to ∷ []) ≡ false }
    ensures there { (start : ℕ) (log : List Entry) (to : ℕ) → location_of start (log ++ Move to ∷ []) ≡ to }
    ensures meals { (site : ℕ) (log : List Entry) (to : ℕ)
        → meals_of site (log ++ Move to ∷ []) ≡ meals_of site log }
    ensures only { (log : List Entry) → is_dirty log ≡ false
        → (before : List Entry) × (to : ℕ) × (log ≡ before ++ Move to ∷ []) }
{}

/// The empty log is lawful. A fork stays proper through each meal and each Move that the rules allow, and it is at one
/// of its two ends.
pub fn forks_stay_lawful()
    ensures opened { (ends due : ℕ × ℕ) → IsLawful ends due [] }
    ensures eaten { (fork : SeenFork) (site k : ℕ) (act : Act)
        → IsFork fork → MayEat site k fork → IsAct act → IsFork (after_meal site k act fork) }
    ensures moved { (fork : SeenFork) (to : ℕ)
        → IsFork fork → MayMove to fork → IsFork (after_move to fork) }
    ensures end { (fork : SeenFork) → IsFork fork → IsEnd fork (location fork) }
{}
