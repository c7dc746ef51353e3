//! The rule of a bell's channel, and the steps that its passes may do. A pass is a value without bytes, and what it
//! knows exists in proofs alone.
use crossbeam_channel::protocol::{Lesson, Outcome, Protocol, Split};
use std::collections::LinkedList;

// What a pass knows. No value of it is made.
pub enum Part {
    // The pass of the bell: the number of ringers, and the numbers that it reported so far.
    Waits(u32, LinkedList<u32>),
    // The pass of a ringer: its number, and how often it rang so far.
    Rings(u32, u64),
}

// The rule: each number in the channel is that of a ringer.
pub struct OfRingers;

impl Protocol<u32, Part> for OfRingers {
    ghost use Rattle.dine_link.specs.private.BellRule.{AreOfRingers, no_ringers};

    ghost holds = { AreOfRingers };

    ghost first = { no_ringers };
}

// How a ringer is made: it gets the next number, and the bell has one ringer more.
pub struct NextRinger;

impl Split<Part> for NextRinger {
    ghost use Rattle.dine_link.specs.private.BellRule.{with_next_ringer, next_ringer};

    ghost left = { with_next_ringer };

    ghost right = { next_ringer };
}

// A ringer sends its own number.
pub struct Sounds;

impl Outcome<u32, Part> for Sounds {
    ghost use Rattle.std.specs.Prelude.{◌≡◌};
    ghost use Rattle.dine_link.specs.private.BellRule.{IsOfRinger, after_sound};

    ghost then = { λ before number after. IsOfRinger number before × (after ≡ after_sound before) };
}

impl Lesson<u32, Part> for Sounds {
    ghost use Rattle.std.specs.Prelude.{⊤};

    ghost fact = { λ view queue. ⊤ };
}

// The bell receives the number of a ringer.
pub struct Hears;

impl Outcome<u32, Part> for Hears {
    ghost use Rattle.std.specs.Prelude.{◌≡◌};
    ghost use Rattle.dine_link.specs.private.BellRule.{IsKnown, after_hearing};

    ghost then = { λ before number after. IsKnown number before × (after ≡ after_hearing before number) };
}

impl Lesson<u32, Part> for Hears {
    ghost use Rattle.std.specs.Prelude.{⊤};

    ghost fact = { λ view queue. ⊤ };
}
