// What ends a command, its line and its status.
use crate::asserts::same;
use dine::{Fault, Status, exit_of};
use dine_plan::PlanFault;
use dine_rules::Breach;
use dine_site_thread::SiteFault;
use dine_threads::RunCause;
use std::alloc::Global;
use std::io;
use std::io::Write;
use std::process::{Abort, ExitCode};

// A writer that takes all bytes, and counts the flushes after the last of them.
#[derive(Drop)]
struct Flushed {
    held: Vec<u8>,
    flushes: usize,
}

impl Write for Flushed {
    fn write(&mut self, buf: &[u8]) -> io::Result<usize> {
        self.held.extend_from_slice(buf)?;
        self.flushes = 0;
        Ok(buf.len())
    }

    fn flush(&mut self) -> io::Result<()> {
        self.flushes = self.flushes.saturating_add(1);
        Ok(())
    }
}

// The fault ends with this status. Its line went out whole, and was flushed.
fn ends<R: Abort>(rt: &R, alloc: Global, fault: Fault, status: Status, line: &str) {
    let mut faults = Flushed {
        held: Vec::new(alloc),
        flushes: 0,
    };
    let ended = fault.end(&mut faults);
    let reported = std::str::from_utf8(faults.held.as_slice()).ok();
    same(
        rt,
        &(ended, reported, faults.flushes),
        &(status, Some(line), 1),
    );
}

#[test]
fn each_fault_ends_with_its_status_and_its_line_flushed(rt: HostRuntime) {
    let cases = [
        (
            Fault::Usage,
            Status::Usage,
            "dine: usage: dine [run [--table edges|sites] [--links channel|ring] | replay [--choices LIST] | check]\n",
        ),
        (
            Fault::NoPlan(PlanFault::NotToml),
            Status::PlanRefused,
            "dine: plan refused: 1 NotToml\n",
        ),
        (
            Fault::NoPlan(PlanFault::EdgeTwice(511)),
            Status::PlanRefused,
            "dine: plan refused: 14 EdgeTwice at edge 511\n",
        ),
        (
            Fault::OutOfMemory,
            Status::OutOfMemory,
            "dine: out of memory\n",
        ),
        (
            Fault::ReadingFailed,
            Status::InputOutput,
            "dine: reading failed\n",
        ),
        (
            Fault::InputTooLong,
            Status::InputOutput,
            "dine: input too long\n",
        ),
        (
            Fault::WritingFailed,
            Status::InputOutput,
            "dine: writing failed\n",
        ),
    ];
    for (fault, status, line) in cases {
        ends(&rt, rt.alloc(), fault, status, line);
    }
}

#[test]
fn each_fault_of_a_run_names_its_site(rt: HostRuntime) {
    let cases = [
        (RunCause::Thread(0), "dine: run refused: thread of site 0\n"),
        (
            RunCause::Thread(63),
            "dine: run refused: thread of site 63\n",
        ),
        (RunCause::DinersDiffer, "dine: run refused: diners differ\n"),
        (
            RunCause::Broken(10, SiteFault::Breach(0, Breach::ClosedEarly)),
            "dine: run broken at site 10: Breach 6 on link 0\n",
        ),
        (
            RunCause::Broken(7, SiteFault::Lost(4_294_967_295)),
            "dine: run broken at site 7: Lost on link 4294967295\n",
        ),
        (
            RunCause::Broken(7, SiteFault::LostBell { degree: 63 }),
            "dine: run broken at site 7: Lost on link 63\n",
        ),
        (
            RunCause::Broken(1, SiteFault::NotStarted),
            "dine: run broken at site 1: NotStarted\n",
        ),
        (
            RunCause::Broken(63, SiteFault::Memory),
            "dine: run broken at site 63: Memory\n",
        ),
    ];
    for (cause, line) in cases {
        let fault = Fault::RunFailed(cause);
        ends(&rt, rt.alloc(), fault, Status::RunFailed, line);
    }
}

#[test]
fn each_status_has_its_number(rt: HostRuntime) {
    let numbers = [
        (Status::Success, 0),
        (Status::Usage, 2),
        (Status::PlanRefused, 3),
        (Status::RunFailed, 4),
        (Status::OutOfMemory, 5),
        (Status::InputOutput, 6),
    ];
    for (status, number) in numbers {
        same(&rt, &status.number(), &number);
        assert!(rt; exit_of(status) == ExitCode::from(number));
    }
}
