// How a text and a fault's line are written: in pieces of any size, to their end or to the first write that fails.
use super::commands::{Left, run_into};
use crate::asserts::same;
use dine_test_plans::PAIR;
use std::alloc::Global;
use std::io;
use std::io::Write;
use std::process::Abort;
use std::sync::Wait;
use std::thread::Threads;

// A writer that takes at most `step` bytes a call. Its write `bad_write` fails with `kind`, and its flush if
// `bad_flush`.
#[derive(Drop)]
pub struct Choppy {
    held: Vec<u8>,
    step: usize,
    pub writes: usize,
    pub bad_write: usize,
    kind: io::ErrorKind,
    flushes: usize,
    bad_flush: bool,
}

impl Write for Choppy {
    fn write(&mut self, buf: &[u8]) -> io::Result<usize> {
        self.writes = self.writes.saturating_add(1);
        if self.writes == self.bad_write {
            return Err(self.kind.into());
        }
        let count = buf.len().min(self.step);
        self.held.extend_from_slice(&buf[..count])?;
        Ok(count)
    }

    fn flush(&mut self) -> io::Result<()> {
        self.flushes = self.flushes.saturating_add(1);
        if self.bad_flush {
            return Err(self.kind.into());
        }
        Ok(())
    }
}

pub fn takes_pieces(alloc: Global, step: usize) -> Choppy {
    Choppy {
        held: Vec::new(alloc),
        step,
        writes: 0,
        bad_write: 0,
        kind: io::ErrorKind::Other,
        flushes: 0,
        bad_flush: false,
    }
}

const TAKEN: &str = "ok: 2 sites, 1 edges, 2 jobs\n";

const WRITING_FAILED: &str = "dine: writing failed\n";

// Runs the arguments of the line with the plan of two sites into the output, and compares all that this leaves.
pub fn writes<H: Threads + Wait + AllocGlobal + Abort + Copy + Send + 'static>(
    rt: &H,
    line: &str,
    output: &mut Choppy,
    wanted: Left,
) {
    writes_of(rt, PAIR, line, output, wanted)
}

// The same with the plan of a text.
pub fn writes_of<H: Threads + Wait + AllocGlobal + Abort + Copy + Send + 'static>(
    rt: &H,
    text: &str,
    line: &str,
    output: &mut Choppy,
    wanted: Left,
) {
    let mut input = text.as_bytes();
    let mut reported = Vec::new(rt.alloc());
    let number = run_into(rt, line, &mut input, output, &mut reported);
    let held = std::str::from_utf8(output.held.as_slice()).ok();
    let faults = std::str::from_utf8(reported.as_slice()).ok();
    same(
        rt,
        &(line, number, held, faults),
        &(line, wanted.0, Some(wanted.1), Some(wanted.2)),
    );
}

#[test]
fn the_whole_text_is_written_and_flushed(rt: HostRuntime) {
    for step in [1, 3, 100] {
        let mut output = takes_pieces(rt.alloc(), step);
        writes(&rt, "dine check", &mut output, (0, TAKEN, ""));
        same(&rt, &output.flushes, &1);
    }
}

#[test]
fn an_output_that_fails_is_reported(rt: HostRuntime) {
    // How many bytes a write takes, which one fails, whether the flush fails, what goes out, and how many writes there
    // are.
    let cases = [
        (0, 0, false, "", 1),
        (5, 3, false, "ok: 2 site", 3),
        (100, 1, false, "", 1),
        (100, 0, true, TAKEN, 1),
    ];
    for (step, bad_write, bad_flush, gone, count) in cases {
        let mut output = takes_pieces(rt.alloc(), step);
        output.bad_write = bad_write;
        output.bad_flush = bad_flush;
        writes(&rt, "dine check", &mut output, (6, gone, WRITING_FAILED));
        same(&rt, &output.writes, &count);
    }
}

#[test]
fn what_went_out_before_a_failed_write_is_the_beginning(rt: HostRuntime) {
    let mut output = takes_pieces(rt.alloc(), 10);
    output.bad_write = 2;
    let wanted = (6, "edge 0 a b", WRITING_FAILED);
    writes(&rt, "dine replay", &mut output, wanted);
}

#[test]
fn an_interrupted_write_is_tried_again(rt: HostRuntime) {
    for bad_write in 1..=3 {
        let mut output = takes_pieces(rt.alloc(), 10);
        output.bad_write = bad_write;
        output.kind = io::ErrorKind::Interrupted;
        writes(&rt, "dine check", &mut output, (0, TAKEN, ""));
        same(&rt, &output.writes, &4);
    }
}

// Runs the arguments of the line with the text, into an output that takes a number of bytes at a time. Checks the
// number of the status, whether or not the line of the fault is written.
fn ends_into<H: Threads + Wait + AllocGlobal + Abort + Copy + Send + 'static>(
    rt: &H,
    run: (&str, &str, usize, u8),
    reported: &mut Choppy,
) {
    let (line, text, step, number) = run;
    let mut input = text.as_bytes();
    let mut output = takes_pieces(rt.alloc(), step);
    let status = run_into(rt, line, &mut input, &mut output, reported);
    same(rt, &(line, status), &(line, number));
}

#[test]
fn a_fault_is_reported_in_a_line_and_flushed(rt: HostRuntime) {
    let mut reported = takes_pieces(rt.alloc(), 100);
    ends_into(&rt, ("dine check", PAIR, 0, 6), &mut reported);
    same(&rt, &(reported.writes, reported.flushes), &(2, 1));
    same(&rt, &reported.held.as_slice(), &WRITING_FAILED.as_bytes());
}

#[test]
fn a_fault_that_cannot_be_reported_changes_no_status(rt: HostRuntime) {
    for run in [
        ("dine eat", PAIR, 100, 2),
        ("dine replay", "", 100, 3),
        ("dine replay", PAIR, 0, 6),
        ("dine replay", PAIR, 100, 0),
    ] {
        for bad_write in 1..=2 {
            let mut reported = takes_pieces(rt.alloc(), 5);
            reported.bad_write = bad_write;
            ends_into(&rt, run, &mut reported);
            assert!(rt; b"dine:".starts_with(reported.held.as_slice()));
        }
    }
}
