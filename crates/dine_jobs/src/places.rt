//! The places of a site's edges.

/// A position in the list of a site's edges, from 0. The list is in the order of the edges' numbers.
#[derive(Clone, Copy, Debug, PartialEq, Eq)]
pub struct Place(pub u32);
