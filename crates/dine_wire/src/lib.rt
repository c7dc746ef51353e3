//! Letters as bytes, so that the ends of a link may be two processes.
//!
//! A Fork's bytes have no log. The site that gave a fork away keeps it as it was, and does to it what the bytes report
//! of it. What results is the fork that was sent.
#![tactic(auto)]

mod arrival;
mod bytes;
pub mod laws;
mod note;
mod runs;
mod wire_fault;

pub use arrival::{NotArrived, arrive, first_fork};
pub use note::{ForkNote, Note, Report, note_of};
pub use runs::{LETTER_MAX, put_letter, read_letter};
pub use wire_fault::WireFault;
