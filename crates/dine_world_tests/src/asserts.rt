ghost use Rattle.std.specs.Prelude.{◌≡◌, true};

use std::fmt::Debug;
use std::process::Abort;

// `assert_eq!` in a function: its steps are proved here once, and not at each call.
pub fn same<T: PartialEq + Debug>(rt: &impl Abort, left: &T, right: &T) {
    assert_eq!(rt; *left, *right);
}

// `assert!` in a function: a call is proved in fewer steps than a branch, and the same is known afterwards.
pub fn holds(rt: &impl Abort, it: bool)
    ensures { it ≡ true }
{
    assert!(rt; it);
}
