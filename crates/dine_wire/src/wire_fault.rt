//! Why bytes are no letter.
ghost use Rattle.std.specs.Prelude.{◌≡◌};
ghost use Rattle.dine_wire.specs.Faults.{number_of};

/// Why bytes are no letter that may arrive.
#[derive(Clone, Copy, Debug, PartialEq, Eq)]
pub enum WireFault {
    /// There are too few bytes, or too many.
    Length,
    /// The byte behind the number of the run is no kind of letter.
    Kind,
    /// The other end cannot have done with the fork what the note reports.
    Unlawful,
    /// An allocation failed.
    Memory,
    /// The letter is of another run.
    OtherRun,
}

impl WireFault {
    /// Returns the number of the fault, 1 to 5.
    pub fn number(self) -> u32
        ensures { result ≡ number_of self }
    {
        match self {
            WireFault::Length => 1,
            WireFault::Kind => 2,
            WireFault::Unlawful => 3,
            WireFault::Memory => 4,
            WireFault::OtherRun => 5,
        }
    }
}
