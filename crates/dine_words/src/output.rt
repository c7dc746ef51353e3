//! Texts and lines, written whole.
ghost use Rattle.std.specs.Prelude.{◌∷◌, ◌++◌, [], OnOk};
ghost use Rattle.std.specs.Io.KnownBytes.{Appends};
ghost use Rattle.dine_words.specs.Output.{WritesPrefix};

use std::io::{ErrorKind, Write};

const LINE_FEED: u8 = b'\n';

/// A text could not be written whole: a write or the flush failed, or a write took no byte.
#[derive(Clone, Copy)]
pub struct WriteFault;

/// Writes the whole `text` and flushes. A write that is interrupted is tried again.
///
/// # Errors
///
/// Returns `WriteFault` if a write or the flush fails, or if a write takes no byte. What was written is a prefix of
/// `text`.
pub fn write_out<W: Write>(output: &mut W, text: &[u8]) -> Result<(), WriteFault>
    ensures whole { OnOk result (Appends (W.contents output.old) (W.contents output.new) text.now) }
    ensures prefix { WritesPrefix (W.contents output.old) (W.contents output.new) text.now }
{
    write_whole(output, text)?;
    output.flush().map_err(|_| WriteFault)
}

/// Writes the whole `line` and a line feed, and flushes.
///
/// # Errors
///
/// Returns `WriteFault` as `write_out` does. What was written is a prefix of the line and the line feed.
pub fn write_line<W: Write>(output: &mut W, line: &str) -> Result<(), WriteFault>
    ensures whole { OnOk result (Appends (W.contents output.old) (W.contents output.new) (line.now ++ LINE_FEED ∷ [])) }
    ensures prefix { WritesPrefix (W.contents output.old) (W.contents output.new) (line.now ++ LINE_FEED ∷ []) }
{
    write_whole(output, line.as_bytes())?;
    write_out(output, &[LINE_FEED])
}

// Writes the whole `text`, piece by piece.
fn write_whole<W: Write>(output: &mut W, text: &[u8]) -> Result<(), WriteFault>
    ensures whole { OnOk result (Appends (W.contents output.old) (W.contents output.new) text.now) }
    ensures prefix { WritesPrefix (W.contents output.old) (W.contents output.new) text.now }
{
    let mut written = 0;
    for _ in 0..u64::MAX {
        if written >= text.len() {
            return Ok(());
        }
        match output.write(&text[written..]) {
            Ok(0) => return Err(WriteFault),
            Ok(count) => written += count,
            Err(error) => {
                if error.kind() != ErrorKind::Interrupted {
                    return Err(WriteFault);
                }
            }
        }
    }
    Err(WriteFault)
}
