// How an input is read: in pieces of any size, to its end or to the first byte past the limit.
use super::commands::{Left, leaves};
use crate::asserts::same;
use dine_test_plans::PAIR;
use std::io;
use std::io::Read;
use std::process::Abort;
use std::sync::Wait;
use std::thread::Threads;

// Gives its bytes at most `step` at a time, and fails once, with `kind`, at the read `bad_read`.
#[derive(Drop)]
struct Stuttering {
    bytes: &'static [u8],
    step: usize,
    reads: usize,
    bad_read: usize,
    kind: io::ErrorKind,
}

impl Read for Stuttering {
    fn read(&mut self, buf: &mut [u8]) -> io::Result<usize> {
        self.reads = self.reads.saturating_add(1);
        if self.reads == self.bad_read {
            return Err(self.kind.into());
        }
        let count = self.bytes.len().min(buf.len()).min(self.step);
        buf[..count].copy_from_slice(&self.bytes[..count]);
        self.bytes = &self.bytes[count..];
        Ok(count)
    }
}

// Runs the arguments of the line with the plan of two sites, in pieces of a number of bytes, with a failure at a read.
// Checks what it leaves. Returns the number of reads, and the number of bytes that are left.
pub fn stuttered<H: Threads + Wait + AllocGlobal + Abort + Copy + Send + 'static>(
    rt: &H,
    line: &str,
    given: (usize, usize, io::ErrorKind),
    wanted: Left,
) -> (usize, usize) {
    stuttered_of(rt, PAIR, line, given, wanted)
}

// The same with the plan of a text.
pub fn stuttered_of<H: Threads + Wait + AllocGlobal + Abort + Copy + Send + 'static>(
    rt: &H,
    text: &'static str,
    line: &str,
    given: (usize, usize, io::ErrorKind),
    wanted: Left,
) -> (usize, usize) {
    let (step, bad_read, kind) = given;
    let mut input = Stuttering {
        bytes: text.as_bytes(),
        step,
        reads: 0,
        bad_read,
        kind,
    };
    leaves(rt, line, &mut input, wanted);
    (input.reads, input.bytes.len())
}

// Gives line feeds, at most `step` at a time, until `left` of them have gone.
#[derive(Drop)]
struct LineFeeds {
    left: usize,
    step: usize,
    reads: usize,
}

impl Read for LineFeeds {
    fn read(&mut self, buf: &mut [u8]) -> io::Result<usize> {
        self.reads = self.reads.saturating_add(1);
        let count = self.left.min(buf.len()).min(self.step);
        buf[..count].fill(b'\n');
        self.left -= count;
        Ok(count)
    }
}

const TAKEN: Left<'static> = (0, "ok: 2 sites, 1 edges, 2 jobs\n", "");

#[test]
fn an_input_is_read_to_its_end(rt: HostRuntime) {
    for step in [1, 7, 8192] {
        let read = stuttered(&rt, "dine check", (step, 0, io::ErrorKind::Other), TAKEN);
        same(&rt, &read.1, &0);
    }
}

#[test]
fn a_failed_read_ends_it(rt: HostRuntime) {
    let failed = (6, "", "dine: reading failed\n");
    // A reader that wants memory is a reader that fails.
    for kind in [io::ErrorKind::Other, io::ErrorKind::OutOfMemory] {
        for bad_read in 1..=3 {
            let read = stuttered(&rt, "dine replay", (1, bad_read, kind), failed);
            same(&rt, &read.0, &bad_read);
        }
    }
}

#[test]
fn an_interrupted_read_is_tried_again(rt: HostRuntime) {
    for bad_read in 1..=3 {
        let given = (1, bad_read, io::ErrorKind::Interrupted);
        let read = stuttered(&rt, "dine check", given, TAKEN);
        same(&rt, &read.0, &(PAIR.len() + 2));
    }
}

// Checks that a number of line feeds, in pieces of `step`, is refused with this status and line. Returns the number of
// reads, and the number of line feeds that are left.
fn feeds_leave<H: Threads + Wait + AllocGlobal + Abort + Copy + Send + 'static>(
    rt: &H,
    feeds: (usize, usize),
    refusal: Left,
) -> (usize, usize) {
    let (left, step) = feeds;
    let mut input = LineFeeds {
        left,
        step,
        reads: 0,
    };
    leaves(rt, "dine check", &mut input, refusal);
    (input.reads, input.left)
}

const NO_VERSION: Left<'static> = (3, "", "dine: plan refused: 2 Version\n");

const TOO_LONG: Left<'static> = (6, "", "dine: input too long\n");

#[test]
fn an_input_of_the_limit_is_read(rt: HostRuntime) {
    for step in [1000, 8192] {
        let read = feeds_leave(&rt, (8_388_608, step), NO_VERSION);
        same(&rt, &read.1, &0);
    }
}

#[test]
fn one_byte_more_than_the_limit_is_too_long(rt: HostRuntime) {
    for (left, unread) in [(8_388_609, 0), (8_400_000, 11_391)] {
        let read = feeds_leave(&rt, (left, 5000), TOO_LONG);
        same(&rt, &read.1, &unread);
    }
}

#[test]
fn an_endless_input_is_left_after_as_many_reads(rt: HostRuntime) {
    let read = feeds_leave(&rt, (usize::MAX, 1), TOO_LONG);
    same(&rt, &read, &(8_388_609, usize::MAX - 8_388_609));
}
