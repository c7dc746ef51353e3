//! The request token of an edge.
ghost use Rattle.std.specs.Prelude.{◌≡◌};

use std::marker::Model;

/// The request token of an edge: the site that holds it may ask for the edge's fork, or was asked for it. Each edge has
/// one token, so `Token` has no `Clone`.
#[derive(Drop)]
pub struct Token {
    edge: u32,
}

impl Model for Token {
    ghost use Rattle.std.specs.Prelude.{ℕ};

    ghost Value = { ℕ };

    ghost view = { λ token. token.edge };
}

impl Token {
    /// Makes the token of edge `edge`.
    pub fn open(edge: u32) -> Token
        ensures { result ≡ edge }
    {
        Token { edge }
    }

    /// Returns the number of its edge.
    pub fn edge(&self) -> u32
        ensures { result ≡ self.now }
    {
        self.edge
    }
}
