//! The input, read to its end.
ghost use Rattle.std.specs.Prelude.{◌≡◌, ◌≤◌, ◌<◌, ◌+◌, ◌++◌, IfOk, IfSome, IsErrOf, OnOk, length, vec_len};
ghost use Rattle.std.specs.Io.KnownBytes.{IsAtEnd};
ghost use Rattle.dine_words.specs.Input.{TakesAtMost, input_limit};

use std::alloc::Global;
use std::io::{ErrorKind, Read};

/// The greatest number of bytes of an input.
pub const INPUT_LIMIT: usize = 8_388_608;

// The greatest number of bytes that one read asks for.
const CHUNK: usize = 4096;

/// Why an input was not read to its end.
#[derive(Clone, Copy)]
pub enum InputFault {
    /// A read failed, or reads were interrupted again and again.
    Failed,
    /// There are more than `INPUT_LIMIT` bytes.
    TooLong,
    /// An allocation failed.
    Memory,
}

/// Reads all bytes of `input`, at most `INPUT_LIMIT`.
///
/// It takes at most `INPUT_LIMIT + 1` bytes from `input`, by at most as many reads. A read that is interrupted is tried
/// again, and counts as one of these.
///
/// # Errors
///
/// Returns `Failed` if a read fails, `TooLong` if there are more bytes, and `Memory` if an allocation fails. The bytes
/// that were taken are lost.
pub fn read_input<R: Read>(alloc: Global, input: &mut R) -> Result<Vec<u8>, InputFault>
    ensures bytes { IfOk result (λ taken. IfSome (R.remaining input.old) (λ left. taken.items ≡ left)) }
    ensures end { OnOk result (IsAtEnd (R.remaining input.new)) }
    ensures within { IfOk result (λ taken. vec_len taken ≤ input_limit) }
    ensures too_long { IsErrOf result InputFault.TooLong
        → IfSome (R.remaining input.old) (λ left. input_limit < length left) }
    ensures takes { TakesAtMost (input_limit + 1) (R.remaining input.old) (R.remaining input.new) }
{
    let mut taken = Vec::new(alloc);
    let mut chunk = [0u8; CHUNK];
    for _ in 0..=INPUT_LIMIT {
        let room = CHUNK.min(INPUT_LIMIT + 1 - taken.len());
        match input.read(&mut chunk[..room]) {
            Ok(0) => return Ok(taken),
            Ok(count) => add_within_limit(&mut taken, &chunk[..count])?,
            Err(error) => {
                if error.kind() != ErrorKind::Interrupted {
                    return Err(InputFault::Failed);
                }
            }
        }
    }
    Err(InputFault::Failed)
}

// Adds the bytes to `taken`, unless that makes more than `INPUT_LIMIT`.
fn add_within_limit(taken: &mut Vec<u8>, bytes: &[u8]) -> Result<(), InputFault>
    requires { vec_len taken.old ≤ input_limit }
    ensures bytes { OnOk result (taken.new.items ≡ taken.old.items ++ bytes.now) }
    ensures within { OnOk result (vec_len taken.new ≤ input_limit) }
    ensures too_long { IsErrOf result InputFault.TooLong → input_limit < vec_len taken.old + length bytes.now }
{
    if bytes.len() > INPUT_LIMIT - taken.len() {
        return Err(InputFault::TooLong);
    }
    taken
        .extend_from_slice(bytes)
        .map_err(|_| InputFault::Memory)
}
