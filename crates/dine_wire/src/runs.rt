//! The bytes of letters: the number of the run, and a note.
ghost use Rattle.std.specs.Prelude.{◌≡◌, ◌≤◌, ◌++◌, IfErr, List, MatchResult, drop, length, take};
ghost use Rattle.std.specs.Int.{to_le_bytes, w64};
ghost use Rattle.dine_wire.specs.Notes.{bytes_of};
ghost use Rattle.dine_wire.specs.Runs.{IsNoLetter, bytes_in_run, run_of};
ghost use Rattle.dine_wire.specs.declared.note.Note.{Note as SeenNote};

use crate::bytes::{put_note, read_note};
use crate::note::Note;
use crate::wire_fault::WireFault;

/// No letter has more bytes than this.
pub const LETTER_MAX: usize = 29;

/// Writes a letter of the run with this note to the front of `out`, which has at least 29 bytes. Returns the number of
/// its bytes, 13 or 29.
pub fn put_letter(run: u64, note: Note, out: &mut [u8]) -> usize
    requires { 29 ≤ length out.old }
    ensures len { result ≡ length (bytes_in_run run note) }
    ensures out { out.new ≡ bytes_in_run run note ++ drop (length (bytes_in_run run note)) out.old }
{
    let r = run.to_le_bytes();
    let (head, rest) = out.split_at_mut(8);
    head.copy_from_slice(&r);
    8 + put_note(note, rest)
}

/// Reads a letter of the run, and returns its note. The run is checked before anything else.
///
/// # Errors
///
/// `OtherRun` if the bytes begin with the number of another run, whatever follows. `Length` if there are fewer than
/// eight bytes, or if a note of the kind behind them has another number of bytes. `Kind` if the ninth byte is no kind.
pub fn read_letter(run: u64, bytes: &[u8]) -> Result<Note, WireFault>
    ensures note { MatchResult result (λ note. bytes.now ≡ bytes_in_run run note)
        (λ _. (note : SeenNote) → bytes.now ≡ bytes_in_run run note → ⊥) }
    ensures fault { IfErr result (IsNoLetter run bytes.now) }
{
    if bytes.len() < 8 {
        return Err(WireFault::Length);
    }
    if run_at(bytes) != run {
        return Err(WireFault::OtherRun);
    }
    read_note(&bytes[8..])
}

// The number of the run at the front.
fn run_at(bytes: &[u8]) -> u64
    requires { 8 ≤ length bytes.now }
    ensures run { result ≡ run_of bytes.now }
    ensures bytes { to_le_bytes w64 result ≡ take 8 bytes.now }
{
    u64::from_le_bytes([
        bytes[0], bytes[1], bytes[2], bytes[3], bytes[4], bytes[5], bytes[6], bytes[7],
    ])
}
