//! Which of Done and Close were put and taken at a place.

/// Which of the letters Done and Close a site has put and taken at a place.
#[derive(Clone, Copy, Debug, PartialEq, Eq)]
pub struct DoneAndClose {
    pub done_put: bool,
    pub done_taken: bool,
    pub close_put: bool,
    pub close_taken: bool,
}
