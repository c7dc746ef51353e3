//! Why a site may not take a letter.
ghost use Rattle.std.specs.Prelude.{◌≡◌};

/// Why a site may not take a letter. If several causes apply, the first of this list is reported.
#[derive(Clone, Copy, Debug, PartialEq, Eq)]
pub enum Breach {
    /// A letter after Close.
    AfterClose,
    /// A Request while the fork is away or the token is here, or after Done, or of another edge, or from a site that
    /// ate all its meals.
    RequestOutOfTurn,
    /// A Fork, although the fork or the token is here.
    ForkOutOfTurn,
    /// A Fork that is not the fork of this edge, or whose log is not as it has to be.
    StrangeFork,
    /// A second Done; or, while the fork is here, a Done of a site that does not resign, before the log has all its
    /// meals.
    DoneOutOfTurn,
    /// A Close before both sites said Done.
    ClosedEarly,
}

impl Breach {
    ghost use Rattle.dine_rules.specs.Breach.{number_of};

    /// Returns the number of the breach, 1 to 6.
    pub fn number(self) -> u8
        ensures { result ≡ number_of self }
    {
        match self {
            Breach::AfterClose => 1,
            Breach::RequestOutOfTurn => 2,
            Breach::ForkOutOfTurn => 3,
            Breach::StrangeFork => 4,
            Breach::DoneOutOfTurn => 5,
            Breach::ClosedEarly => 6,
        }
    }
}
