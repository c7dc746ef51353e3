// Whole commands, from arguments and input to output and line of a fault.
use super::input::{stuttered, stuttered_of};
use super::output::{takes_pieces, writes, writes_of};
use crate::asserts::same;
use dine::run_cmd;
use dine_test_plans::{PAIR, RING};
use std::alloc::{AllocError, Global};
use std::io;
use std::io::{Read, Write};
use std::process::Abort;
use std::sync::Wait;
use std::thread::Threads;

const USAGE: &str =
    "dine: usage: dine [run [--table edges|sites] [--links channel|ring] | replay [--choices LIST] | check]\n";

// What a command leaves: the number of its status, what it printed, and the line of a fault.
pub type Left<'a> = (u8, &'a str, &'a str);

// Returns the number of the status of a command with the arguments of the line.
pub fn run_into<
    H: Threads + Wait + AllocGlobal + Abort + Copy + Send + 'static,
    R: Read,
    W: Write,
    F: Write,
>(rt: &H, line: &str, input: &mut R, output: &mut W, faults: &mut F) -> u8 {
    let arguments = arguments_in(rt, rt.alloc(), line);
    run_cmd(rt, rt.alloc(), arguments.as_slice(), input, output, faults).number()
}

fn arguments_in(rt: &impl Abort, alloc: Global, line: &str) -> Vec<String> {
    let mut arguments = Vec::new(alloc);
    for argument in line.split_whitespace() {
        let argument = String::from_str(alloc, argument).expect(rt, "memory");
        arguments.push(argument).expect(rt, "memory");
    }
    arguments
}

// Runs the arguments of the line, and compares all that this leaves.
pub fn leaves<H: Threads + Wait + AllocGlobal + Abort + Copy + Send + 'static, R: Read>(
    rt: &H,
    line: &str,
    input: &mut R,
    wanted: Left,
) {
    let mut written = Vec::new(rt.alloc());
    let mut reported = Vec::new(rt.alloc());
    let number = run_into(rt, line, input, &mut written, &mut reported);
    let output = std::str::from_utf8(written.as_slice()).ok();
    let faults = std::str::from_utf8(reported.as_slice()).ok();
    same(
        rt,
        &(line, number, output, faults),
        &(line, wanted.0, Some(wanted.1), Some(wanted.2)),
    );
}

// The same for a text.
fn text_leaves<H: Threads + Wait + AllocGlobal + Abort + Copy + Send + 'static>(
    rt: &H,
    line: &str,
    text: &str,
    wanted: Left,
) {
    let mut input = text.as_bytes();
    leaves(rt, line, &mut input, wanted);
}

const READING_FAILED: Left<'static> = (6, "", "dine: reading failed\n");

#[test]
fn a_run_reads_and_writes_as_the_other_commands(rt: HostRuntime) {
    for line in ["dine", "dine run", "dine run --links channel"] {
        stuttered(&rt, line, (8192, 1, io::ErrorKind::Other), READING_FAILED);
        stuttered(&rt, line, (1, 2, io::ErrorKind::Other), READING_FAILED);
        text_leaves(&rt, line, "", (3, "", "dine: plan refused: 2 Version\n"));
        let mut output = takes_pieces(rt.alloc(), 0);
        writes(&rt, line, &mut output, (6, "", "dine: writing failed\n"));
    }
}

const WRITING_FAILED: Left<'static> = (6, "", "dine: writing failed\n");

#[test]
fn a_ring_without_arguments_is_read_and_written(rt: HostRuntime) {
    for (step, bad_read) in [(8192, 1), (100, 3)] {
        let given = (step, bad_read, io::ErrorKind::Other);
        let read = stuttered_of(&rt, RING, "dine", given, READING_FAILED);
        same(&rt, &read.0, &bad_read);
    }
    let mut output = takes_pieces(rt.alloc(), 100);
    output.bad_write = 1;
    writes_of(&rt, RING, "dine", &mut output, WRITING_FAILED);
    same(&rt, &output.writes, &1);
    let table =
        "edge,lo,hi,lo_meals,hi_meals\n0,a,b,2,2\n1,b,c,2,2\n2,c,d,2,2\n3,d,e,2,2\n4,a,e,2,2\n";
    let mut output = takes_pieces(rt.alloc(), 100);
    writes_of(&rt, RING, "dine", &mut output, (0, table, ""));
}

#[test]
fn refused_arguments_leave_the_input_unread(rt: HostRuntime) {
    for line in [
        "dine --help",
        "dine eat",
        "dine run --table",
        "dine run --table cups",
        "dine run --links cups",
        "dine --table edges",
        "dine replay replay",
        "dine replay --choices",
        "dine replay --choices 1,x",
        "dine replay --choices 4294967296",
        "dine check --choices 1",
    ] {
        let read = stuttered(&rt, line, (8192, 1, io::ErrorKind::Other), (2, "", USAGE));
        same(&rt, &read, &(0, PAIR.len()));
    }
}

#[test]
fn each_command_refuses_a_text_that_is_no_plan(rt: HostRuntime) {
    let refusals = [
        ("", "dine: plan refused: 2 Version\n"),
        ("version", "dine: plan refused: 1 NotToml\n"),
        ("version = 1\n", "dine: plan refused: 8 NoSite\n"),
    ];
    for line in [
        "dine run --table sites --links channel",
        "dine replay --choices 1",
        "dine check",
    ] {
        for (text, refusal) in refusals {
            text_leaves(&rt, line, text, (3, "", refusal));
        }
    }
}

// Returns the text of a plan of a number of sites with a job each, and no edge.
fn sites_alone(alloc: Global, sites: u32) -> Result<String, AllocError> {
    let mut text = String::from_str(alloc, "version = 1\n")?;
    for site in 0..sites {
        writeln!(text, "[[site]]")?;
        writeln!(text, "name = \"s{site}\"")?;
        writeln!(text, "jobs = [{{ name = \"x\" }}]")?;
    }
    Ok(text)
}

#[test]
fn a_check_takes_64_sites_and_no_more(rt: HostRuntime) {
    for (sites, wanted) in [
        (1, (0, "ok: 1 sites, 0 edges, 1 jobs\n", "")),
        (63, (0, "ok: 63 sites, 0 edges, 63 jobs\n", "")),
        (64, (0, "ok: 64 sites, 0 edges, 64 jobs\n", "")),
        (65, (3, "", "dine: plan refused: 9 TooManySites\n")),
    ] {
        let text = sites_alone(rt.alloc(), sites).expect(&rt, "memory");
        text_leaves(&rt, "dine check", text.as_str(), wanted);
    }
}
