//! An input whose first line is a LIST.
ghost use Rattle.std.specs.Prelude.{◌≤◌, length};

use crate::fault_lines::Fault;
use crate::words::choices_of;
use std::alloc::Global;
use std::str;

const LINE_FEED: u8 = b'\n';

/// Returns the choices of the first line, which are none if it is empty, and the bytes after it.
pub fn split_list(alloc: Global, bytes: &[u8]) -> Result<(Vec<u32>, &[u8]), Fault> {
    let end = length_of_line(bytes);
    let (line, rest) = bytes.split_at(end);
    if line.is_empty() {
        return Ok((Vec::new(alloc), after_line_feed(rest)));
    }
    let Ok(list) = str::from_utf8(line) else {
        return Err(Fault::NoList);
    };
    match choices_of(alloc, list) {
        Ok(choices) => Ok((choices, after_line_feed(rest))),
        Err(Fault::Usage) => Err(Fault::NoList),
        Err(fault) => Err(fault),
    }
}

// The number of bytes before the first line feed, or of all if there is none.
fn length_of_line(bytes: &[u8]) -> usize
    ensures { result ≤ length bytes.now }
{
    for (place, byte) in bytes.iter().enumerate() {
        if *byte == LINE_FEED {
            return place;
        }
    }
    bytes.len()
}

// The bytes without the line feed that they begin with.
fn after_line_feed(bytes: &[u8]) -> &[u8] {
    match bytes.split_first() {
        Some((_, rest)) => rest,
        None => bytes,
    }
}
