//! The arguments that the process was started with.
ghost use Rattle.std.specs.Prelude.{◌≡◌, IfErr, IfOk, IsErrOf, IsOkAnd};
ghost use Rattle.std.specs.IoError.{error_kind};
ghost use Rattle.std.specs.Vec.Iter.{into_iter_items};
ghost use Rattle.dine.specs.FaultLines.{fault_of_arguments};

use crate::fault_lines::Fault;
use std::alloc::Global;
use std::io::ErrorKind;
use std::{env, io};

/// Returns the arguments that `env::args` returned, as a list, in order. The first is the program's own name.
///
/// # Errors
///
/// - `OutOfMemory` if an allocation failed, in `env::args` or for the list.
/// - `Usage` if `env::args` returned any other error: an argument is not UTF-8, and the program takes no such argument.
pub fn arguments_of(alloc: Global, given: io::Result<env::Args>) -> Result<Vec<String>, Fault>
    ensures arguments { IfOk result (λ list. IsOkAnd given (λ arguments. list.items ≡ into_iter_items arguments)) }
    ensures refused { IfErr given (λ error. IsErrOf result (fault_of_arguments (error_kind error))) }
    ensures memory { IfOk given (λ _. IfErr result (λ fault. fault ≡ Fault.OutOfMemory)) }
{
    match given {
        Ok(arguments) => list_of(alloc, arguments),
        Err(error) => match error.kind() {
            ErrorKind::OutOfMemory => Err(Fault::OutOfMemory),
            _ => Err(Fault::Usage),
        },
    }
}

// Returns the arguments as a list. `collect` would not report a reservation that failed.
fn list_of(alloc: Global, arguments: env::Args) -> Result<Vec<String>, Fault>
    ensures items { IfOk result (λ list. list.items ≡ into_iter_items arguments) }
    ensures memory { IfErr result (λ fault. fault ≡ Fault.OutOfMemory) }
{
    let mut list = Vec::new(alloc);
    for argument in arguments {
        list.push(argument).map_err(|_| Fault::OutOfMemory)?;
    }
    Ok(list)
}
