ghost use Rattle.std.specs.Prelude.{◌≡◌, ℕ, List, [], ◌∷◌, ◌++◌, length, MatchOption};
ghost use Rattle.std.specs.Borrow.{ftrue};
ghost use Rattle.crossbeam_channel.specs.Claims.{view, IsSeatAt};
ghost use Rattle.crossbeam_channel.specs.Ends.{receives_on};
ghost use Rattle.crossbeam_channel.specs.Fifo.{Held, Learns, Pops};

use crossbeam_channel::protocol::{Lesson, Outcome, Protocol};
use crossbeam_channel::{Pass, RuledReceiver};
use dine_rules::Clock;
use std::marker::Model;
use std::sync::Wait;

/// The checks of a bell that found no ring, in order, which proofs alone read. Each is kept as the number of events of
/// the clock that was passed to the check. Only [`crate::Bell`] makes such a list, and only a look into the channel of
/// the bell, which found it empty, adds to it.
#[derive(Drop)]
pub struct EmptyChecks {
    pub ghost at: { List ℕ },
    // Keeps other crates from making a list by its fields.
    sealed: (),
}

impl Model for EmptyChecks {
    ghost also_owns = { λ _. ftrue };
}

impl EmptyChecks {
    /// Returns the empty list: no check found the bell without a ring.
    pub(crate) fn none() -> EmptyChecks
        ensures { result.at ≡ [] }
    {
        EmptyChecks { sealed: () }
    }

    // Returns the next message of the bell's channel, if one is left. Only if none is left, adds a check by a site with
    // this clock. What a channel's rule tells of an empty channel is known then: so the channel was asked, whatever its
    // rule is.
    pub(crate) fn next_or_add<V, P: Protocol<u32, V>, M: Outcome<u32, V> + Lesson<u32, V>, R: Wait>(
        &mut self,
        rt: &R,
        receiver: &RuledReceiver<u32, V, P>,
        pass: &mut Pass<u32, V>,
        clock: &Clock,
    ) -> Option<u32>
        requires seated { IsSeatAt (receives_on receiver.now) pass.old }
        requires pops { Pops P.holds pass.old.id (view pass.old) (M.then (view pass.old)) }
        requires learns { Learns P.holds pass.old.id (view pass.old) (M.fact (view pass.old)) }
        ensures seated { IsSeatAt (receives_on receiver.now) pass.new }
        ensures asked { MatchOption result
            ((view pass.new ≡ view pass.old) × Held 0 (M.fact (view pass.old)))
            (λ number. M.then (view pass.old) number (view pass.new)) }
        ensures added { MatchOption result
            (self.new.at ≡ self.old.at ++ length clock.now.events ∷ [])
            (λ _. self.new.at ≡ self.old.at) }
    {
        match receiver.try_recv_as::<M, R>(rt, pass) {
            Ok(number) => Some(number),
            Err(_) => {
                *self = self.after(clock);
                None
            }
        }
    }

    // Returns the list with one check more, by a site with this clock.
    fn after(&self, clock: &Clock) -> EmptyChecks
        ensures { result.at ≡ self.now.at ++ length clock.now.events ∷ [] }
    {
        EmptyChecks { sealed: () }
    }
}

// It owns nothing.
unsafe impl Send for EmptyChecks {}
