//! The plans that tests of several crates use, and the journals of a run of the pair. The heads of the same plans in
//! `plans/` and `tests/cases/` have what the program prints for them.
#![tactic(auto)]

use dine_rules::EventKind;

/// Two sites with one job each, and an edge between them.
pub const PAIR: &str = r#"version = 1
[[site]]
name = "a"
jobs = [{ name = "x" }]
[[site]]
name = "b"
jobs = [{ name = "y" }]
[[edge]]
ends = ["a", "b"]
"#;

/// The same pair with three jobs at the lower site and none at the higher.
pub const ONE_SIDED_PAIR: &str = r#"version = 1
[[site]]
name = "a"
jobs = [{ name = "x" }, { name = "y" }, { name = "z" }]
[[site]]
name = "b"
jobs = []
[[edge]]
ends = ["a", "b"]
"#;

/// One site without an edge, with two jobs.
pub const ALONE: &str = r#"version = 1
[[site]]
name = "a"
jobs = [{ name = "x" }, { name = "y" }]
"#;

/// Three sites in a row, with one job each.
pub const PATH: &str = r#"version = 1
[[site]]
name = "a"
jobs = [{ name = "x" }]
[[site]]
name = "b"
jobs = [{ name = "y" }]
[[site]]
name = "c"
jobs = [{ name = "z" }]
[[edge]]
ends = ["a", "b"]
[[edge]]
ends = ["b", "c"]
"#;

/// Five sites in a ring, with two jobs each.
pub const RING: &str = r#"version = 1
[[site]]
name = "a"
jobs = [{ name = "x", turns = 1000 }, { name = "y", turns = 10 }]
[[site]]
name = "b"
jobs = [{ name = "x", turns = 1000 }, { name = "y", turns = 10 }]
[[site]]
name = "c"
jobs = [{ name = "x", turns = 1000 }, { name = "y", turns = 10 }]
[[site]]
name = "d"
jobs = [{ name = "x", turns = 1000 }, { name = "y", turns = 10 }]
[[site]]
name = "e"
jobs = [{ name = "x", turns = 1000 }, { name = "y", turns = 10 }]
[[edge]]
ends = ["a", "b"]
[[edge]]
ends = ["b", "c"]
[[edge]]
ends = ["c", "d"]
[[edge]]
ends = ["d", "e"]
[[edge]]
ends = ["e", "a"]
"#;

/// The pair with three jobs at the lower site, of which the second fails.
pub const FAILING_PAIR: &str = r#"version = 1
[[site]]
name = "a"
jobs = [{ name = "x" }, { name = "y", fails = true }, { name = "z" }]
[[site]]
name = "b"
jobs = [{ name = "y" }]
[[edge]]
ends = ["a", "b"]
"#;

/// The same pair, except that the lower site resigns.
pub const RESIGNING_PAIR: &str = r#"version = 2
[[site]]
name = "a"
on_fault = "resign"
jobs = [{ name = "x" }, { name = "y", fails = true }, { name = "z" }]
[[site]]
name = "b"
jobs = [{ name = "y" }]
[[edge]]
ends = ["a", "b"]
"#;

/// The journal of the lower site of the pair if it eats first.
pub const LOWER_JOURNAL: [EventKind; 9] = [
    EventKind::Hungry,
    EventKind::Begin,
    EventKind::End,
    EventKind::Done(0),
    EventKind::Take(0),
    EventKind::Give(0),
    EventKind::Take(0),
    EventKind::Close(0),
    EventKind::Take(0),
];

/// The journal of the higher site of the pair if the lower site eats first.
pub const HIGHER_JOURNAL: [EventKind; 9] = [
    EventKind::Hungry,
    EventKind::Ask(0),
    EventKind::Take(0),
    EventKind::Take(0),
    EventKind::Begin,
    EventKind::End,
    EventKind::Done(0),
    EventKind::Close(0),
    EventKind::Take(0),
];
