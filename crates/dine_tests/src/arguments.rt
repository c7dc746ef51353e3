// The arguments of the process.
use crate::asserts::same;
use dine::{Fault, arguments_of};
use std::env::FillError;
use std::rt::Env;
use std::{env, io};

// A process that was started with these arguments.
#[derive(Drop)]
struct StartedWith {
    arguments: &'static [&'static [u8]],
}

impl Env for StartedWith {
    fn arg(&self, i: usize, buf: &mut [u8]) -> Result<usize, FillError> {
        match self.arguments.get(i) {
            Some(argument) if argument.len() <= buf.len() => {
                buf[..argument.len()].copy_from_slice(argument);
                Ok(argument.len())
            }
            Some(_) => Err(FillError::TooLong),
            None => Err(FillError::NotPresent),
        }
    }

    fn var(&self, _name: &str, _buf: &mut [u8]) -> Result<usize, FillError> {
        Err(FillError::NotPresent)
    }

    fn var_at(&self, _i: usize, _buf: &mut [u8]) -> Result<usize, FillError> {
        Err(FillError::NotPresent)
    }
}

#[test]
fn the_arguments_of_the_process_are_listed_in_order(rt: HostRuntime) {
    let started = StartedWith {
        arguments: &[b"dine", b"replay", b"--choices", b"1,1", b""],
    };
    let arguments = arguments_of(rt.alloc(), env::args(&(&started, rt.alloc()))).expect(
        &rt,
        "arguments",
    );
    same(&rt, &arguments.len(), &started.arguments.len());
    for (argument, given) in arguments.iter().zip(started.arguments) {
        same(&rt, &argument.as_bytes(), given);
    }
}

#[test]
fn arguments_that_are_not_utf_8_are_a_fault_of_usage(rt: HostRuntime) {
    let cases: [&[&[u8]]; 3] = [
        &[b"dine", b"check\xff"],
        &[b"dine", b"\xc3(", b"check"],
        &[b"\xff", b"check"],
    ];
    for arguments in cases {
        let started = StartedWith { arguments };
        let given = env::args(&(&started, rt.alloc()));
        same(
            &rt,
            &arguments_of(rt.alloc(), given).err(),
            &Some(Fault::Usage),
        );
    }
}

#[test]
fn an_error_of_the_process_is_reported_by_its_kind(rt: HostRuntime) {
    let cases = [
        (io::ErrorKind::InvalidData, Fault::Usage),
        (io::ErrorKind::Other, Fault::Usage),
        (io::ErrorKind::OutOfMemory, Fault::OutOfMemory),
    ];
    for (kind, fault) in cases {
        same(
            &rt,
            &arguments_of(rt.alloc(), Err(kind.into())).err(),
            &Some(fault),
        );
    }
}
