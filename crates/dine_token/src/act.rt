//! What a meal does to the value of an edge.
ghost use Rattle.std.specs.Prelude.{◌≡◌, ◌<◌, ◌^◌};
ghost use Rattle.dine_token.specs.Values.{value_after_act};

/// What a meal does to the value of each edge of its site. The amount is at most 1,000,000.
#[derive(Clone, Copy, Debug, PartialEq, Eq)]
pub enum Act {
    /// The amount is added.
    Add(u64),
    /// The value becomes the amount.
    Set(u64),
}

impl Act {
    // The value after the act.
    pub(crate) fn apply(self, value: u64) -> u64
        requires fits { value_after_act self value < 2 ^ 64 }
        ensures { result ≡ value_after_act self value }
    {
        match self {
            Act::Add(amount) => value + amount,
            Act::Set(amount) => amount,
        }
    }
}
