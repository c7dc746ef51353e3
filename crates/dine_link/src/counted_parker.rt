// The parker of a bell, and what unparks it. Each counts how often it did so, in proofs alone.
ghost use Rattle.std.specs.Prelude.{◌≡◌, ◌+◌, ⊤, IfOk};
ghost use Rattle.dine_link.specs.private.Parkers.{once_more};

use crossbeam_utils::rule::{Outcome, Protocol};
use crossbeam_utils::sync::parker::{Pass, RuledParker, RuledUnparker};
use std::alloc::{AllocError, Global};
use std::marker::Model;
use std::sync::Wait;

// The rule: a pass knows how often it parked or unparked so far.
pub struct Counted;

impl Protocol<bool, u64> for Counted {
    ghost holds = { λ token views. ⊤ };

    ghost first = { 0 };
}

// A pass parks, or unparks, once more.
pub struct OnceMore;

impl Outcome<bool, u64> for OnceMore {
    ghost then = { λ before token_before token_after after. after ≡ before + 1 };
}

// By it the thread of a bell parks. Contracts see which one it is, and how often it parked.
#[derive(Drop)]
pub struct CountedParker {
    parker: RuledParker<u64, Counted>,
    pass: Pass<u64>,
}

impl Model for CountedParker {
    ghost use Rattle.dine_link.specs.private.Parkers.{SeenParker, seen_parker, IsParker};

    ghost Value = { SeenParker };

    ghost view = { seen_parker };

    ghost invariant = { IsParker };
}

// By it a ringer lets the thread go on that is parked at one parker, or that parks there next. Contracts see which
// parker that is, and how often it unparked.
#[derive(Drop)]
pub struct CountedUnparker {
    unparker: RuledUnparker<u64, Counted>,
    pass: Pass<u64>,
}

impl Model for CountedUnparker {
    ghost use Rattle.dine_link.specs.private.Parkers.{SeenParker, seen_unparker, IsUnparker};

    ghost Value = { SeenParker };

    ghost view = { seen_unparker };

    ghost invariant = { IsUnparker };
}

impl CountedParker {
    // Returns one that has not parked yet.
    pub fn open(alloc: Global) -> Result<CountedParker, AllocError>
        ensures { IfOk result (λ parker. parker.times ≡ 0) }
    {
        let (parker, pass) = RuledParker::ruled(alloc)?;
        Ok(CountedParker { parker, pass })
    }

    // Returns an unparker of this parker, which has not unparked yet.
    pub fn unparker(&self) -> Result<CountedUnparker, AllocError>
        ensures { IfOk result (λ unparker. unparker ≡ record { parker = self.now.parker; times = 0 }) }
    {
        let unparker = self.parker.unparker().clone()?;
        let pass = unparker.pass();
        Ok(CountedUnparker { unparker, pass })
    }

    // Waits until an unparker has unparked since it last parked.
    pub fn park<R: Wait>(&mut self, rt: &R)
        ensures { self.new ≡ once_more self.old }
    {
        self.parker.park_as::<OnceMore, R>(rt, &mut self.pass);
    }
}

impl CountedUnparker {
    // Lets the thread go on that is parked, or that parks next.
    pub fn unpark(&mut self)
        ensures { self.new ≡ once_more self.old }
    {
        self.unparker.unpark_as::<OnceMore>(&mut self.pass);
    }
}
