// Sets of numbers below 64: each public function, with results that were computed by hand.
use crate::asserts::{holds, same};
use dine_set::BitSet64;

#[test]
fn keeps_numbers(rt: HostRuntime) {
    let mut set = BitSet64::empty();
    holds(&rt, set.is_empty());
    same(&rt, &set.first(), &None);
    set.insert(63);
    set.insert(5);
    set.set(40, true);
    let before = set;
    set.remove(5);
    set.set(63, false);
    same(
        &rt,
        &(set.has(40), set.has(5), set.has(63), set.is_empty()),
        &(true, false, false, false),
    );
    same(&rt, &(before.has(5), before.has(63)), &(true, true));
    same(&rt, &(before.first(), set.first()), &(Some(5), Some(40)));
}

#[test]
fn the_full_set_has_each_number(rt: HostRuntime) {
    let mut set = BitSet64::full();
    for i in 0..64 {
        same(&rt, &set.first(), &Some(i));
        set.remove(i);
    }
    holds(&rt, set.is_empty());
}

#[test]
fn below_has_the_lower_numbers(rt: HostRuntime) {
    let few = BitSet64::below(3);
    same(&rt, &(few.len(), few.nth(2)), &(3, Some(2)));
    holds(&rt, BitSet64::below(0).is_empty());
    same(
        &rt,
        &(BitSet64::below(63).len(), BitSet64::below(63).has(63)),
        &(63, false),
    );
    same(&rt, &BitSet64::below(64).len(), &64);
}

#[test]
fn numbers_are_counted_and_found_in_order(rt: HostRuntime) {
    let mut set = BitSet64::empty();
    same(&rt, &(set.len(), set.nth(0)), &(0, None));
    set.insert(63);
    set.insert(5);
    set.insert(40);
    same(&rt, &set.len(), &3);
    same(
        &rt,
        &(set.nth(0), set.nth(1), set.nth(2), set.nth(3)),
        &(Some(5), Some(40), Some(63), None),
    );
    same(
        &rt,
        &(BitSet64::full().len(), BitSet64::full().nth(63)),
        &(64, Some(63)),
    );
}

#[test]
fn two_sets_are_compared(rt: HostRuntime) {
    let mut few = BitSet64::empty();
    few.insert(0);
    few.insert(5);
    few.insert(63);
    let mut others = BitSet64::full();
    others.remove(5);
    let both = few.intersection(others);
    same(
        &rt,
        &(both.len(), both.nth(0), both.nth(1)),
        &(2, Some(0), Some(63)),
    );
    let rest = few.difference(others);
    same(&rt, &(rest.len(), rest.first()), &(1, Some(5)));
    same(&rt, &others.difference(few).len(), &61);
}
