//! The bytes of notes.
ghost use Rattle.std.specs.Prelude.{◌≡◌, ◌≤◌, ◌+◌, ◌++◌, ◌∷◌, [], IfErr, List, MatchResult, drop, length, take};
ghost use Rattle.std.specs.Int.{from_le_bytes, to_le_bytes, w32, w64};
ghost use Rattle.dine_wire.specs.Faults.{IsNoNote};
ghost use Rattle.dine_wire.specs.Notes.{bytes_of, fork_bytes};
ghost use Rattle.dine_wire.specs.declared.note.Note.{Note as SeenNote};

use crate::note::{ForkNote, Note, Report};
use crate::wire_fault::WireFault;

/// Writes the note to the front of `out`, which has at least 21 bytes. Returns the number of its bytes, 5 or 21.
pub(crate) fn put_note(note: Note, out: &mut [u8]) -> usize
    requires { 21 ≤ length out.old }
    ensures len { result ≡ length (bytes_of note) }
    ensures out { out.new ≡ bytes_of note ++ drop (length (bytes_of note)) out.old }
{
    match note.report {
        Report::Fork(fork) => put_fork(note.edge, fork, out),
        Report::Request => put_short(2, note.edge, out),
        Report::Done => put_short(3, note.edge, out),
        Report::Close => put_short(4, note.edge, out),
    }
}

fn put_short(kind: u8, edge: u32, out: &mut [u8]) -> usize
    requires { 21 ≤ length out.old }
    ensures len { result ≡ 5 }
    ensures out { out.new ≡ (kind ∷ to_le_bytes w32 edge) ++ drop 5 out.old }
{
    let e = edge.to_le_bytes();
    out[..5].copy_from_slice(&[kind, e[0], e[1], e[2], e[3]]);
    5
}

fn put_fork(edge: u32, fork: ForkNote, out: &mut [u8]) -> usize
    requires { 21 ≤ length out.old }
    ensures len { result ≡ 21 }
    ensures out { out.new ≡ fork_bytes (to_le_bytes w32 edge) fork ++ drop 21 out.old }
{
    let e = edge.to_le_bytes();
    let m = fork.moves.to_le_bytes();
    let a = fork.ate.to_le_bytes();
    let v = fork.value.to_le_bytes();
    out[..21].copy_from_slice(&[
        1, e[0], e[1], e[2], e[3], m[0], m[1], m[2], m[3], a[0], a[1], a[2], a[3], v[0], v[1],
        v[2], v[3], v[4], v[5], v[6], v[7],
    ]);
    21
}

/// Reads a note. All bytes are read, and every number in them is taken.
///
/// # Errors
///
/// `Length` if there is no byte, or if a note of the kind that is first has another number of bytes. `Kind` if the
/// first byte is no kind.
pub(crate) fn read_note(bytes: &[u8]) -> Result<Note, WireFault>
    ensures note { MatchResult result (λ note. bytes.now ≡ bytes_of note)
        (λ _. (note : SeenNote) → bytes.now ≡ bytes_of note → ⊥) }
    ensures fault { IfErr result (IsNoNote bytes.now) }
{
    if bytes.len() < 1 {
        return Err(WireFault::Length);
    }
    if bytes[0] < 1 || 4 < bytes[0] {
        return Err(WireFault::Kind);
    }
    if bytes[0] == 1 {
        if bytes.len() != 21 {
            return Err(WireFault::Length);
        }
        let edge = u32_at(bytes, 1);
        let report = Report::Fork(fork_at(bytes));
        return Ok(Note { edge, report });
    }
    if bytes.len() != 5 {
        return Err(WireFault::Length);
    }
    let edge = u32_at(bytes, 1);
    let report = match bytes[0] {
        2 => Report::Request,
        3 => Report::Done,
        _ => Report::Close,
    };
    Ok(Note { edge, report })
}

fn fork_at(bytes: &[u8]) -> ForkNote
    requires { 21 ≤ length bytes.now }
    ensures moves { to_le_bytes w32 result.moves ≡ take 4 (drop 5 bytes.now) }
    ensures ate { to_le_bytes w32 result.ate ≡ take 4 (drop 9 bytes.now) }
    ensures value { to_le_bytes w64 result.value ≡ take 8 (drop 13 bytes.now) }
{
    let v = &bytes[13..21];
    ForkNote {
        moves: u32_at(bytes, 5),
        ate: u32_at(bytes, 9),
        value: u64::from_le_bytes([v[0], v[1], v[2], v[3], v[4], v[5], v[6], v[7]]),
    }
}

// Reads four bytes, the least first.
fn u32_at(bytes: &[u8], at: usize) -> u32
    requires { at + 4 ≤ length bytes.now }
    ensures { to_le_bytes w32 result ≡ take 4 (drop at bytes.now) }
{
    u32::from_le_bytes([bytes[at], bytes[at + 1], bytes[at + 2], bytes[at + 3]])
}
