// What a site does, where it is asked for by number.
ghost use Rattle.std.specs.Prelude.{◌≡◌, ◌<◌, MatchOption, MatchResult, Some, false, length, pos};
ghost use Rattle.dine_rules.specs.declared.breach.Breach.{Breach as SeenBreach};
ghost use Rattle.dine_rules.specs.Local.{is_eating};
ghost use Rattle.dine_rules.specs.Steps as step;
ghost use Rattle.dine_site.specs.Places.{after_take};
ghost use Rattle.dine_site.specs.Standing.{CorePuts, CoreSteps, ReportsBreach, ReportsMay};
ghost use Rattle.dine_ffi.specs.Acts.{put_step};
ghost use Rattle.dine_ffi.specs.Answers.{IsRefused, breach_status};

use crate::status::{NO_SUCH, breach_status};
use dine_rules::Letter;
use dine_site::SiteCore;

/// The events that put a letter. `Break` is a Close out of order.
#[derive(Clone, Copy)]
pub(crate) enum PutKind {
    Give,
    Ask,
    Done,
    Close,
    Break,
}

/// Puts the letter at place `i`, if the rules allow it now.
pub(crate) fn put(core: &mut SiteCore, what: PutKind, i: u32) -> Option<Letter>
    requires { is_eating core.old.phase ≡ false }
    ensures put { MatchOption result (core.new ≡ core.old) (CorePuts i (put_step what i) core.old core.new) }
    ensures may { MatchOption result (ReportsMay core.old (put_step what i) false) (λ _. Unit {0}) }
    ensures phase { is_eating core.new.phase ≡ false }
    ensures site { core.new.site ≡ core.old.site }
{
    if core.degree() <= i {
        return None;
    }
    match what {
        PutKind::Give if core.may_give(i) => Some(core.give(i)),
        PutKind::Ask if core.may_ask(i) => Some(core.ask(i)),
        PutKind::Done if core.may_done(i) => Some(core.done(i)),
        PutKind::Close if core.may_close(i) => Some(core.close(i)),
        PutKind::Break => core.break_off(i),
        PutKind::Give | PutKind::Ask | PutKind::Done | PutKind::Close => None,
    }
}

/// Takes the letter that arrived at place `i`. If the rules do not allow it now, it is returned with the answer.
pub(crate) fn take(core: &mut SiteCore, i: u32, letter: Letter) -> Result<(), (Letter, i64)>
    ensures phase { core.new.phase ≡ core.old.phase }
    ensures core { MatchResult result (λ _. core.new ≡ after_take i letter core.old) (λ _. Unit {0}) }
    ensures breach { MatchResult result (λ _. Unit {0})
        (λ e. i < length core.old.places
        → (b : SeenBreach) × ReportsBreach core.old i letter (Some b) × (e.1 ≡ breach_status b)) }
    ensures refused { MatchResult result (λ _. Unit {0}) (λ e. IsRefused e.1) }
    ensures step { MatchResult result (λ _. CoreSteps (step.Take i letter) core.old core.new)
        (λ e. (core.new ≡ core.old) × (e.0 ≡ letter) × (e.1 ≡ pos 0 → ⊥)) }
{
    if core.degree() <= i {
        return Err((letter, NO_SUCH));
    }
    match core.take(i, letter) {
        Ok(()) => Ok(()),
        Err((letter, breach)) => Err((letter, breach_status(breach))),
    }
}
