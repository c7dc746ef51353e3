//! A set of numbers below 64, as the bits of one word.

ghost use Rattle.std.specs.Prelude.{◌≡◌, ◌<◌, ◌≤◌, ◌-◌, ◌++◌, true, false, Some, IfNone};
ghost use Rattle.std.specs.Prelude.{IfSome, is_none, replicate, slice_get, slice_set, position, count_by};
ghost use Rattle.dine_set.specs.Marks.{both_marks, marks_without, nth_position};

use std::marker::Model;

/// A set of numbers below 64. In contracts it is a list of 64 truth values, which say of each number whether it is in
/// the set.
#[derive(Clone, Copy)]
pub struct BitSet64 {
    word: u64,
}

impl Model for BitSet64 {
    ghost use Rattle.std.specs.Prelude.{◌<◌, ◌^◌, Bool, List};
    ghost use lib.Lanes.{mask_l};
    ghost use Rattle.dine_set.specs.Marks.{marks_of_word};
    ghost use Rattle.dine_set.specs.private.BitsFromMarks.{word_from_marks};

    ghost Value = { List Bool };

    ghost view = { λ set. marks_of_word set.word };

    ghost invariant = { λ set. set.word < 2 ^ 64 };

    ghost inverse = { λ marks. record { word = mask_l marks } };

    ghost inverse_ok = { λ set h i. record { word = word_from_marks set.word h i } };
}

#[tactic(auto, using(crate::proofs::WordMarks::word_laws))]
impl BitSet64 {
    /// Returns the empty set.
    pub fn empty() -> BitSet64
        ensures { result ≡ replicate 64 false }
    {
        BitSet64 { word: 0 }
    }

    /// Returns the set of all numbers below 64.
    pub fn full() -> BitSet64
        ensures { result ≡ replicate 64 true }
    {
        BitSet64 { word: u64::MAX }
    }

    /// Returns the set of the numbers below `n`, which is at most 64.
    pub fn below(n: u32) -> BitSet64
        requires { n ≤ 64 }
        ensures { result ≡ replicate n true ++ replicate (64 - n) false }
    {
        if n == 64 {
            return BitSet64::full();
        }
        BitSet64 {
            word: (1u64 << n) - 1,
        }
    }

    /// Returns whether `i`, which is below 64, is in the set.
    pub fn has(&self, i: u32) -> bool
        requires { i < 64 }
        ensures { slice_get self.now i ≡ Some result }
    {
        (self.word >> i) & 1 == 1
    }

    /// Adds `i`, which is below 64.
    pub fn insert(&mut self, i: u32)
        requires { i < 64 }
        ensures { self.new ≡ slice_set self.old i true }
    {
        self.word |= 1u64 << i;
    }

    /// Removes `i`, which is below 64.
    pub fn remove(&mut self, i: u32)
        requires { i < 64 }
        ensures { self.new ≡ slice_set self.old i false }
    {
        self.word &= !(1u64 << i);
    }

    /// Adds `i`, which is below 64, if `is_in` is true, and removes it if not.
    pub fn set(&mut self, i: u32, is_in: bool)
        requires { i < 64 }
        ensures { self.new ≡ slice_set self.old i is_in }
    {
        if is_in {
            self.insert(i);
        } else {
            self.remove(i);
        }
    }

    /// Returns whether the set is empty.
    pub fn is_empty(&self) -> bool
        ensures { result ≡ is_none (position (λ is_in. is_in) self.now) }
    {
        self.word == 0
    }

    /// Returns the least number in the set, `None` if it is empty.
    pub fn first(&self) -> Option<u32>
        ensures value { result ≡ position (λ is_in. is_in) self.now }
        ensures within { IfSome result (λ i. i < 64) }
    {
        if self.is_empty() {
            return None;
        }
        Some(self.word.trailing_zeros())
    }

    /// Returns the `n`-th number of the set in ascending order, from 0, `None` if the set has at most `n` numbers.
    pub fn nth(&self, n: u32) -> Option<u32>
        ensures value { result ≡ nth_position (λ is_in. is_in) n self.now }
        ensures none { IfNone result (count_by (λ is_in. is_in) self.now ≤ n) }
    {
        let mut rest = *self;
        let mut left = n;
        while let Some(i) = rest.first() {
            if left == 0 {
                return Some(i);
            }
            left -= 1;
            rest.remove(i);
        }
        None
    }

    /// Returns the number of elements of the set, at most 64.
    pub fn len(&self) -> u32
        ensures value { result ≡ count_by (λ is_in. is_in) self.now }
        ensures few { result ≤ 64 }
    {
        self.word.count_ones()
    }

    /// Returns the set of the numbers that are in both sets.
    pub fn intersection(self, other: BitSet64) -> BitSet64
        ensures { result ≡ both_marks self other }
    {
        BitSet64 {
            word: self.word & other.word,
        }
    }

    /// Returns the set of the numbers that are in this set and not in the other.
    pub fn difference(self, other: BitSet64) -> BitSet64
        ensures { result ≡ marks_without self other }
    {
        BitSet64 {
            word: self.word & !other.word,
        }
    }
}
