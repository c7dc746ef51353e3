//! Letters, and their kinds.
ghost use Rattle.std.specs.Prelude.{◌≡◌};

use dine_token::{Fork, Token};

/// What a site sends to a neighbour.
#[derive(Drop)]
pub enum Letter {
    /// The fork of the edge.
    Fork(Fork),
    /// The token of the edge, which asks for its fork.
    Request(Token),
    /// The sender will ask no more.
    Done,
    /// The sender will send nothing more.
    Close,
}

/// The kind of a letter, without its contents.
#[derive(Clone, Copy, Debug, PartialEq, Eq)]
pub enum LetterKind {
    Fork,
    Request,
    Done,
    Close,
}

impl Letter {
    ghost use Rattle.dine_rules.specs.Letters.{kind_of};

    /// Returns the kind of the letter.
    pub fn kind(&self) -> LetterKind
        ensures { result ≡ kind_of self.now }
    {
        match self {
            Letter::Fork(_) => LetterKind::Fork,
            Letter::Request(_) => LetterKind::Request,
            Letter::Done => LetterKind::Done,
            Letter::Close => LetterKind::Close,
        }
    }
}
