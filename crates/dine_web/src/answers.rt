//! Answers, as they are written for the caller.
ghost use Rattle.std.specs.Prelude.{MatchResult};
ghost use Rattle.std.specs.String.{string_bytes};
ghost use Rattle.dine_web.specs.Answers.{AnswersBy, IsDone, Writes};
ghost use Rattle.dine_web.specs.Refusals.{Says};

use crate::refusals::{CLOSED, NO_EVENT, OPEN_ALREADY, OUT_OF_MEMORY, Refusal};
use std::fmt::InlineText;

// The most bytes of a refusal. The longest has 108.
const LENGTH: usize = 128;

/// Writes the text or the refusal into `answer`, as far as that goes, and returns its length in bytes.
pub(crate) fn write_text(answered: Result<String, Refusal>, answer: &mut [u8]) -> u64
    ensures { MatchResult answered (λ text. Writes (string_bytes text) answer.old answer.new result)
        (λ refusal. AnswersBy (Says refusal) answer.old answer.new result) }
{
    match answered {
        Ok(text) => write_bytes(text.as_bytes(), answer),
        Err(refusal) => write_refusal(refusal, answer),
    }
}

/// Writes `{}` or the refusal.
pub(crate) fn write_done(answered: Result<(), Refusal>, answer: &mut [u8]) -> u64
    ensures { AnswersBy (IsDone answered) answer.old answer.new result }
{
    match answered {
        Ok(()) => write_bytes(b"{}", answer),
        Err(refusal) => write_refusal(refusal, answer),
    }
}

// Writes a refusal. This takes no memory, since an allocation may be what failed. Only that of a plan has parts, and is
// put together in a text that would be cut off at its length.
fn write_refusal(refusal: Refusal, answer: &mut [u8]) -> u64
    ensures { AnswersBy (Says refusal) answer.old answer.new result }
{
    match refusal {
        Refusal::NoPlan(_) => {
            let text = InlineText::<LENGTH>::of(refusal);
            write_bytes(text.as_str().as_bytes(), answer)
        }
        Refusal::OutOfMemory => write_bytes(OUT_OF_MEMORY.as_bytes(), answer),
        Refusal::Closed => write_bytes(CLOSED.as_bytes(), answer),
        Refusal::OpenAlready => write_bytes(OPEN_ALREADY.as_bytes(), answer),
        Refusal::NoEvent => write_bytes(NO_EVENT.as_bytes(), answer),
    }
}

// Writes the bytes, as many as fit, and returns how many there are.
fn write_bytes(bytes: &[u8], answer: &mut [u8]) -> u64
    ensures { Writes bytes.now answer.old answer.new result }
{
    let fit = bytes.len().min(answer.len());
    answer[..fit].copy_from_slice(&bytes[..fit]);
    bytes.len() as u64
}
