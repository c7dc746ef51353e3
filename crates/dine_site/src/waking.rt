//! A law about the letters that a site waits for. The function does nothing: its contract is the law.

ghost use Rattle.std.specs.Prelude.{◌≡◌, ℕ};
ghost use Rattle.dine_rules.specs.declared.letters.Letter.{Letter};
ghost use Rattle.dine_rules.specs.Letters.{kind_of};
ghost use Rattle.dine_rules.specs.Wants.{still_wanted};
ghost use Rattle.dine_site.specs.Core.{SeenCore};
ghost use Rattle.dine_site.specs.NextEvent.{next_of};
ghost use Rattle.dine_site.specs.Places.{after_take};
ghost use Rattle.dine_site.specs.CoreWants.{TakesUnwanted, wants_of};

/// If a site takes a letter that it does not wait for, its next event without a letter is the same as before; if it had
/// none, it has none. It waits for the same letters as before, except that after a Fork it lacks one fork fewer.
pub fn unwanted_letters_enable_nothing()
    ensures next { (core : SeenCore) (i : ℕ) (l : Letter) → TakesUnwanted core i l
        → next_of (after_take i l core) ≡ next_of core }
    ensures wants { (core : SeenCore) (i : ℕ) (l : Letter) → TakesUnwanted core i l
        → wants_of (after_take i l core) ≡ still_wanted (wants_of core) (kind_of l) }
{}
