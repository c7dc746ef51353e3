// A link of the world: its letters.
ghost use Rattle.std.specs.Prelude.{◌≡◌, ◌<◌, ◌++◌, ◌∷◌, [], IfOk, drop, length, nat_lt, slice_get, option_map};
ghost use Rattle.dine_rules.specs.Letters.{forks_in, kind_of, requests_in};
ghost use Rattle.dine_world.specs.private.Forks.{behind_fork, first_fork};

use dine_rules::{Letter, LetterKind};
use dine_token::Fork;
use std::alloc::{AllocError, Global};
use std::collections::VecDeque;
use std::marker::Model;

// A link never has more letters than this: the law `links_hold_few_letters`.
const CAPACITY: usize = 4;

/// The letters that were put on a link and not taken, in the order in which they were put. There is capacity for four.
#[derive(Drop)]
pub(crate) struct Queue {
    letters: VecDeque<Letter>,
}

impl Model for Queue {
    ghost use Rattle.std.specs.Prelude.{◌≤◌, List};
    ghost use Rattle.std.specs.VecDeque.{deque_capacity};
    ghost use Rattle.dine_rules.specs.declared.letters.Letter.{Letter};

    ghost Value = { List Letter };

    ghost view = { λ queue. queue.letters.items };

    ghost invariant = { λ queue. 4 ≤ deque_capacity queue.letters };
}

impl Queue {
    /// Opens an empty link.
    pub(crate) fn open(alloc: Global) -> Result<Queue, AllocError>
        ensures { IfOk result (λ queue. queue ≡ []) }
    {
        let letters = VecDeque::with_capacity(alloc, CAPACITY)?;
        Ok(Queue { letters })
    }

    /// Returns the next letter.
    pub(crate) fn next(&self) -> Option<&Letter>
        ensures { option_map (λ letter. letter.now) result ≡ slice_get self.now 0 }
    {
        self.letters.front()
    }

    /// Returns the number of letters.
    pub(crate) fn len(&self) -> u32
        requires { length self.now < 5 }
        ensures { result ≡ length self.now }
    {
        self.letters.len() as u32
    }

    /// Returns the kind of the `n`-th letter, from 0.
    pub(crate) fn kind(&self, n: u32) -> Option<LetterKind>
        ensures { result ≡ option_map kind_of (slice_get self.now n) }
    {
        let letter = self.letters.get(n as usize)?;
        Some(letter.kind())
    }

    /// Puts a letter at the end.
    pub(crate) fn put(&mut self, letter: Letter)
        requires { length self.old < 4 }
        ensures { self.new ≡ self.old ++ letter ∷ [] }
    {
        self.letters.push_back_reserved(letter);
    }

    /// Takes the next letter.
    pub(crate) fn take(&mut self) -> Option<Letter>
        ensures letter { result ≡ slice_get self.old 0 }
        ensures rest { self.new ≡ drop 1 self.old }
    {
        self.letters.pop_front()
    }

    /// Returns the first fork among the letters.
    pub(crate) fn fork(&self) -> Option<&Fork>
        ensures { option_map (λ fork. fork.now) result ≡ first_fork self.now }
    {
        for letter in self.letters.iter() {
            if let Letter::Fork(fork) = letter {
                return Some(fork);
            }
        }
        None
    }

    /// Returns whether a fork is among the letters.
    pub(crate) fn has_fork(&self) -> bool
        ensures { result ≡ nat_lt 0 (forks_in self.now) }
    {
        for letter in self.letters.iter() {
            if let Letter::Fork(_) = letter {
                return true;
            }
        }
        false
    }

    /// Returns whether a request is among the letters.
    pub(crate) fn has_request(&self) -> bool
        ensures { result ≡ nat_lt 0 (requests_in self.now) }
    {
        for letter in self.letters.iter() {
            if let Letter::Request(_) = letter {
                return true;
            }
        }
        false
    }

    /// Removes the letters up to the first fork, and returns that fork.
    pub(crate) fn remove_fork(&mut self) -> Option<Fork>
        ensures fork { result ≡ first_fork self.old }
        ensures rest { self.new ≡ behind_fork self.old }
    {
        while let Some(letter) = self.take() {
            if let Letter::Fork(fork) = letter {
                return Some(fork);
            }
        }
        None
    }
}
