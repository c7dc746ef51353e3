//! Why a step of a link or of a bell was refused.
ghost use Rattle.std.specs.Prelude.{◌≡◌, Some, codes};
ghost use Rattle.dine_link.specs.declared.faults.LinkFault.TheVariants.{Memory};

use std::alloc::AllocError;
use std::error::Error;
use std::fmt;

/// Why a link or a bell could not be made.
#[derive(Clone, Copy, Debug, PartialEq, Eq)]
pub enum LinkFault {
    /// An allocation failed.
    Memory,
}

/// `1 Memory`.
impl fmt::Display for LinkFault {
    ghost output = { λ _. Some (codes "1 Memory") };

    fn fmt<W: fmt::Write>(&self, f: &mut fmt::Formatter<W>) -> fmt::Result {
        match self {
            LinkFault::Memory => f.write_str("1 Memory"),
        }
    }
}

impl Error for LinkFault {}

impl From<AllocError> for LinkFault {
    ghost from_gives = { λ _ fault. fault ≡ Memory };

    fn from(_error: AllocError) -> LinkFault {
        LinkFault::Memory
    }
}

/// The link or the bell refused a step, because the other end is gone. The caller's end is as it was, except that it
/// notes the refusal.
#[derive(Clone, Copy, Debug, PartialEq, Eq)]
pub struct Lost;

/// `the other end of the link is gone`.
impl fmt::Display for Lost {
    ghost output = { λ _. Some (codes "the other end of the link is gone") };

    fn fmt<W: fmt::Write>(&self, f: &mut fmt::Formatter<W>) -> fmt::Result {
        f.write_str("the other end of the link is gone")
    }
}

impl Error for Lost {}
