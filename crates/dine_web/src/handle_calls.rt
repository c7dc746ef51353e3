//! The calls of a handle, which holds a plan with a schedule of it.
ghost use Rattle.std.specs.Prelude.{◌≡◌, None, Result, Err, codes};
ghost use Rattle.dine_web.specs.Answers.{AnswersBy, IsDone};
ghost use Rattle.dine_web.specs.Handles.{ChoosesIn, IfClosed, Opens, RestartsIn};
ghost use Rattle.dine_web.specs.declared.refusals.Refusal.{Refusal};
ghost use Rattle.dine_web.specs.declared.refusals.Refusal.TheVariants.{Closed};

use crate::answers::{write_done, write_text};
use crate::handle::Handle;
use crate::open_schedule::OpenSchedule;
use crate::refusals::Refusal;
use std::alloc::Global;

/// Opens a plan before its first event, and answers with `{}`. The handle, which is closed, holds it then.
#[unsafe(no_mangle)]
pub extern "C" fn dine_open(
    alloc: Global,
    plan: &[u8],
    handle: &mut Handle,
    answer: &mut [u8],
) -> u64
    ensures { (done : Result (Unit {0}) Refusal) × Opens plan.now done handle.old.slot.held handle.new.slot.held
        × AnswersBy (IsDone done) answer.old answer.new result }
{
    write_done(open(alloc, plan, handle), answer)
}

// Opens the plan in the handle.
fn open(alloc: Global, plan: &[u8], handle: &mut Handle) -> Result<(), Refusal>
    ensures { Opens plan.now result handle.old.slot.held handle.new.slot.held }
{
    if handle.is_open() {
        return Err(Refusal::OpenAlready);
    }
    let kept = OpenSchedule::new(alloc, plan)?;
    match Box::new(alloc, kept) {
        Ok(kept) => {
            handle.put(kept);
            Ok(())
        }
        Err(_) => Err(Refusal::OutOfMemory),
    }
}

/// Does the enabled event with this number, from 0, and answers with `{}`. Any refusal leaves all as it was.
#[unsafe(no_mangle)]
pub extern "C" fn dine_choose(
    alloc: Global,
    handle: &mut Handle,
    choice: u32,
    answer: &mut [u8],
) -> u64
    ensures { (done : Result (Unit {0}) Refusal) × ChoosesIn choice done handle.old.slot.held handle.new.slot.held
        × AnswersBy (IsDone done) answer.old answer.new result }
{
    write_done(choose(alloc, handle, choice), answer)
}

// Does the event in the handle.
fn choose(alloc: Global, handle: &mut Handle, choice: u32) -> Result<(), Refusal>
    ensures { ChoosesIn choice result handle.old.slot.held handle.new.slot.held }
{
    let Some(mut kept) = handle.take(alloc) else {
        return Err(Refusal::Closed);
    };
    let chosen = kept.choose(choice);
    handle.put(kept);
    chosen
}

/// Goes back to before the first event, and answers with `{}`. Any refusal leaves all as it was.
#[unsafe(no_mangle)]
pub extern "C" fn dine_restart(alloc: Global, handle: &mut Handle, answer: &mut [u8]) -> u64
    ensures { (done : Result (Unit {0}) Refusal) × RestartsIn done handle.old.slot.held handle.new.slot.held
        × AnswersBy (IsDone done) answer.old answer.new result }
{
    write_done(restart(alloc, handle), answer)
}

// Goes back to the start in the handle.
fn restart(alloc: Global, handle: &mut Handle) -> Result<(), Refusal>
    ensures { RestartsIn result handle.old.slot.held handle.new.slot.held }
{
    let Some(mut kept) = handle.take(alloc) else {
        return Err(Refusal::Closed);
    };
    let done = kept.restart(alloc);
    handle.put(kept);
    done
}

/// Answers with the state, as `dine_trace --states` prints it.
#[unsafe(no_mangle)]
pub extern "C" fn dine_now(alloc: Global, handle: &mut Handle, answer: &mut [u8]) -> u64
    ensures same { handle.new.slot.held ≡ handle.old.slot.held }
    ensures answer { AnswersBy (IfClosed handle.old.slot.held (λ _. Unit {0})) answer.old answer.new result }
{
    write_text(now(alloc, handle), answer)
}

// The state in the handle.
fn now(alloc: Global, handle: &mut Handle) -> Result<String, Refusal>
    ensures same { handle.new.slot.held ≡ handle.old.slot.held }
    ensures closed { handle.old.slot.held ≡ None → result ≡ Err Closed }
{
    let Some(kept) = handle.take(alloc) else {
        return Err(Refusal::Closed);
    };
    let state = kept.state(alloc);
    handle.put(kept);
    state
}

/// Closes a handle, frees the memory of what it holds, and answers with `{}`.
#[unsafe(no_mangle)]
pub extern "C" fn dine_close(alloc: Global, handle: &mut Handle, answer: &mut [u8]) -> u64
    ensures closed { handle.new.slot.held ≡ None }
    ensures answer { AnswersBy (IfClosed handle.old.slot.held (λ text. text ≡ codes "{}"))
        answer.old answer.new result }
{
    let closed = match handle.take(alloc) {
        Some(_) => Ok(()),
        None => Err(Refusal::Closed),
    };
    write_done(closed, answer)
}
