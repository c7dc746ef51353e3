//! What a call of a builder did not find.
ghost use Rattle.std.specs.Prelude.{Some};
ghost use Rattle.dine_builder.specs.Missing.{missing_words};

use dine_graph::{EdgeId, SiteId};
use std::error::Error;
use std::fmt;

/// What a builder was told to change, and does not have.
#[derive(Clone, Copy, Debug, PartialEq, Eq)]
pub enum Missing {
    /// There is no such site.
    Site(SiteId),
    /// There is no such edge.
    Edge(EdgeId),
    /// The site has no job of this number, or there is no such site.
    Job(SiteId, u32),
}

/// `there is no site 7`, `there is no edge 7`, or `there is no job 3 at site 7`.
impl fmt::Display for Missing {
    ghost output = { λ missing. Some (missing_words missing) };

    fn fmt<W: fmt::Write>(&self, f: &mut fmt::Formatter<W>) -> fmt::Result {
        match *self {
            Missing::Site(site) => write!(f, "there is no site {}", site.0),
            Missing::Edge(edge) => write!(f, "there is no edge {}", edge.0),
            Missing::Job(site, k) => write!(f, "there is no job {k} at site {}", site.0),
        }
    }
}

impl Error for Missing {}
