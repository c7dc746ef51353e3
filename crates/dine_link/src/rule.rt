//! The rule of a link's channel, and the steps that its passes may do. A pass is a value without bytes, and what it
//! knows exists in proofs alone.
use crate::stamped::Stamped;
use crossbeam_channel::protocol::{Join, Lesson, Outcome, Protocol, Split};
use std::collections::LinkedList;

// What a pass knows: whether it may put, whether it may take, the letters that were put by it, and those that were
// taken by it. No value of it is made.
pub struct Known {
    pub puts: bool,
    pub takes: bool,
    pub put: LinkedList<Stamped>,
    pub taken: LinkedList<Stamped>,
}

// The rule: what was put is what was taken, followed by what the channel holds.
pub struct InOrder;

impl Protocol<Stamped, Known> for InOrder {
    ghost use Rattle.dine_link.specs.private.Rule.{IsInOrder, fresh_pass};

    ghost holds = { IsInOrder };

    ghost first = { fresh_pass };
}

// How one pass is split in two, one that puts and one that takes, and how these are joined again.
pub struct Ends;

impl Split<Known> for Ends {
    ghost use Rattle.dine_link.specs.private.Rule.{putting_part, taking_part};

    ghost left = { putting_part };

    ghost right = { taking_part };
}

impl Join<Known> for Ends {
    ghost use Rattle.dine_link.specs.private.Rule.{joined_parts, spent_pass};

    ghost both = { joined_parts };

    ghost spent = { spent_pass };
}

// A send adds its letter to what was put.
pub struct Puts;

impl Outcome<Stamped, Known> for Puts {
    ghost use Rattle.std.specs.Prelude.{◌≡◌};
    ghost use Rattle.dine_link.specs.private.Rule.{after_put};

    ghost then = { λ before letter after. after ≡ after_put before letter };
}

impl Lesson<Stamped, Known> for Puts {
    ghost use Rattle.std.specs.Prelude.{⊤};

    ghost fact = { λ view queue. ⊤ };
}

// A receive adds the letter that it returns to what was taken.
pub struct Takes;

impl Outcome<Stamped, Known> for Takes {
    ghost use Rattle.std.specs.Prelude.{◌≡◌};
    ghost use Rattle.dine_link.specs.private.Rule.{after_take};

    ghost then = { λ before letter after. after ≡ after_take before letter };
}

impl Lesson<Stamped, Known> for Takes {
    ghost use Rattle.std.specs.Prelude.{⊤};

    ghost fact = { λ view queue. ⊤ };
}

// A pass that may both put and take learns that the channel holds the rest of what was put.
pub struct Reconciles;

impl Lesson<Stamped, Known> for Reconciles {
    ghost use Rattle.std.specs.Prelude.{◌≡◌, ◌++◌};

    ghost fact = { λ view queue. view.put ≡ view.taken ++ queue };
}
