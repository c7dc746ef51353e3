//! A fork in the hand of a site.
ghost use Rattle.std.specs.Prelude.{◌≡◌};
ghost use Rattle.dine_token.specs.Fork.{IsFork, MayMove, MayEat, after_move, after_meal};
ghost use Rattle.dine_token.specs.Values.{IsAct};

use crate::act::Act;
use crate::fork::Fork;
use std::marker::Model;

/// A fork in the hand of the site where it is. It cannot be dropped: it is given away, put down, or eaten with.
pub struct Held {
    fork: Fork,
}

impl Model for Held {
    ghost use Rattle.dine_token.specs.Fork.{SeenFork};

    ghost Value = { SeenFork };

    ghost view = { λ held. held.fork };
}

impl Held {
    /// Takes a fork in hand that arrived, or that was here from the start. Its log stays.
    pub fn take(fork: Fork) -> Held
        ensures same { result ≡ fork }
    {
        Held { fork }
    }

    /// Returns the fork in hand.
    pub fn fork(&self) -> &Fork
        ensures { result.now ≡ self.now }
    {
        &self.fork
    }

    /// Returns the fork clean, to be sent to the other end, and writes the Move. The release rule allows this only if
    /// the fork is dirty, and the other end must have meals left.
    pub fn give(self, to: u32) -> Fork
        requires { MayMove to self }
        ensures moved { result ≡ after_move to self }
        ensures proper { IsFork result }
    {
        let Held { mut fork } = self;
        fork.move_to(to);
        fork
    }

    /// Puts the fork down where it is. Its log stays.
    pub fn keep(self) -> Fork
        ensures same { result ≡ self }
    {
        let Held { fork } = self;
        fork
    }

    // Writes meal `k` of the site into the fork, and does its act.
    pub(crate) fn eat(&mut self, site: u32, k: u32, act: Act)
        requires may_eat { MayEat site k self.old }
        requires act { IsAct act }
        ensures eaten { self.new ≡ after_meal site k act self.old }
    {
        self.fork.eat(site, k, act);
    }
}
