//! From arguments and input to output and status.
ghost use Rattle.std.specs.Prelude.{◌≡◌, ◌≢◌, ◌≤◌, IfErr, IfOk, IfSome, OnOk, Some, length, map, string_bytes};
ghost use Rattle.std.specs.Io.KnownBytes.{IsAtEnd};
ghost use Rattle.dine.specs.Commands.{ChecksArguments, Ends, EndsByFault, FailsRun, IsCause, IsTextOf};
ghost use Rattle.dine.specs.FaultLines.{status_after};
ghost use Rattle.dine_words.specs.Input.{input_limit};
ghost use Rattle.dine_words.specs.PlanBytes.{IsPlanBytes};
ghost use Rattle.dine.specs.private.InputFaults.{IsInputFault};
ghost use Rattle.dine_words.specs.Words.{asked_of, command_in, dine_app};

use crate::fault_lines::Fault;
use crate::run_text::run_text;
use dine_graph::Plan;
use dine_log_text::replay_text;
use dine_words::{Command, Status, check_text, command_of, plan_of_bytes, read_input, write_out};
use std::alloc::Global;
use std::io::{Read, Write};
use std::sync::Wait;
use std::thread::Threads;

/// Runs the command that the arguments name: reads a plan from `input`, and writes the text that the command makes of
/// it to `output`. The first argument is the program's own name. Returns the status that the program ends with. It may
/// wait, for the threads of a run.
///
/// The first fault ends the command, and one line to `faults` reports it. Whether that line could be written is not
/// reported. The statuses of faults:
///
/// - `Usage`: `clap` refuses the arguments, or a LIST, a table or a kind of links is not valid. Nothing was read.
/// - `PlanRefused`: the input is not the text of a plan. It was read to its end.
/// - `RunFailed`: a thread could not be started, or a site ended with a fault.
/// - `OutOfMemory`: an allocation failed.
/// - `InputOutput`: the input could not be read or is too long, or the output could not be written. Only if writing
///   failed may a part of the text be in `output`; at any other fault, `output` is unchanged.
///
/// If the input is too long, or was not read to its end, `output` is unchanged, whatever the fault.
pub fn run_cmd<H: Threads + Wait + Copy + Send + 'static, R: Read, W: Write, F: Write>(
    rt: &H,
    alloc: Global,
    arguments: &[String],
    input: &mut R,
    output: &mut W,
    faults: &mut F,
) -> Status
    ensures arguments { ChecksArguments (map string_bytes arguments.now) input.old input.new result }
    ensures ends { Ends (command_in dine_app (map string_bytes arguments.now)) (R.remaining input.old)
        (R.remaining input.new) W.contents output.old output.new result }
    ensures quiet { result ≡ Status.Success → faults.new ≡ faults.old }
    ensures by_fault { result ≢ Status.Success
        → EndsByFault (IsCause (command_in dine_app (map string_bytes arguments.now)) (R.remaining input.old)
        W.contents output.old output.new) (F.contents faults.old) (F.contents faults.new) result }
{
    match command(rt, alloc, arguments, input, output) {
        Ok(()) => Status::Success,
        Err(fault) => fault.end(faults),
    }
}

// Reads a plan, and writes the text that the named command makes of it.
fn command<H: Threads + Wait + Copy + Send + 'static, R: Read, W: Write>(
    rt: &H,
    alloc: Global,
    arguments: &[String],
    input: &mut R,
    output: &mut W,
) -> Result<(), Fault>
    ensures arguments { ChecksArguments (map string_bytes arguments.now) input.old input.new (status_after result) }
    ensures ends { Ends (command_in dine_app (map string_bytes arguments.now)) (R.remaining input.old)
        (R.remaining input.new) W.contents output.old output.new (status_after result) }
    ensures cause { IfErr result (IsCause (command_in dine_app (map string_bytes arguments.now)) (R.remaining input.old)
        W.contents output.old output.new) }
{
    let command = command_of(alloc, arguments)?;
    carry_out(rt, alloc, command, input, output)
}

// Reads a plan, and writes the text that this command makes of it.
fn carry_out<H: Threads + Wait + Copy + Send + 'static, R: Read, W: Write>(
    rt: &H,
    alloc: Global,
    command: Command,
    input: &mut R,
    output: &mut W,
) -> Result<(), Fault>
    ensures no_usage { result ≢ Err Fault.Usage }
    ensures ends { Ends (Some (asked_of command)) (R.remaining input.old) (R.remaining input.new) W.contents
        output.old output.new (status_after result) }
    ensures cause { IfErr result (IsCause (Some (asked_of command)) (R.remaining input.old) W.contents
        output.old output.new) }
{
    let plan = plan_in(alloc, input)?;
    let text = text_of(rt, alloc, command, &plan)?;
    Ok(write_out(output, text.as_slice())?)
}

// Reads the plan in the input.
fn plan_in<R: Read>(alloc: Global, input: &mut R) -> Result<Plan, Fault>
    ensures plan { IfOk result (λ plan. IfSome (R.remaining input.old) (λ bytes. IsPlanBytes bytes plan)) }
    ensures end { OnOk result (IsAtEnd (R.remaining input.new)) }
    ensures within { OnOk result (IfSome (R.remaining input.old) (λ bytes. length bytes ≤ input_limit)) }
    ensures fault { IfErr result (λ fault. IsInputFault (R.remaining input.old) (R.remaining input.new) fault) }
{
    let bytes = read_input(alloc, input)?;
    Ok(plan_of_bytes(alloc, bytes.as_slice())?)
}

// Returns the text that the command makes of the plan.
fn text_of<H: Threads + Wait + Copy + Send + 'static>(
    rt: &H,
    alloc: Global,
    command: Command,
    plan: &Plan,
) -> Result<Vec<u8>, Fault>
    ensures text { IfOk result (λ text. IsTextOf (asked_of command) plan.now text.items) }
    ensures fault { result ≢ Err Fault.OutOfMemory → IfErr result (FailsRun (asked_of command) plan.now) }
{
    match command {
        Command::Run(table, links) => run_text(rt, alloc, plan, table, links),
        Command::Replay(choices) => Ok(replay_text(alloc, plan, choices.as_slice())?),
        Command::Check => Ok(check_text(alloc, plan)?.into_bytes()),
    }
}
