//! The call that takes a driver's bytes and returns its next step.
ghost use Rattle.std.specs.Prelude.{◌≡◌, None, IfOk, OnErr};
ghost use Rattle.client_dialogue.specs.declared.check.CheckStep.TheVariants.{Checked};
ghost use Rattle.client_dialogue.specs.declared.step.Step.TheVariants.{Exchanged as AnExchange};
ghost use Rattle.delgunsai_c.specs.Driving.{Drives, DrivesBy, DrivesOr, FailsBy, TellsStep, check_numbers_of, numbers_of, plain};
ghost use Rattle.delgunsai_c.specs.Handle.{held_of};

use crate::failure::Failure;
use crate::handle::Handle;
use crate::held::Held;
use crate::said::Said;
use client_dialogue::{CheckStep, Exchanged, Step};
use cog_client::Current;
use extents::Memory;
use std::alloc::Global;

/// Holds what a driver is to do next, in the numbers of `struct delgunsai_step`.
#[repr(C)]
#[derive(Clone, Copy, Debug, PartialEq, Eq)]
pub struct NextStep {
    pub taken: u64,
    pub kind: u32,
    pub said: Said,
    pub status: u32,
    pub alone: u32,
}

/// Returns a step with the number `kind`, for which `taken` bytes were taken. Its other numbers are 0.
pub fn plain(kind: u32, taken: usize) -> NextStep
    ensures { result ≡ plain kind taken }
{
    NextStep {
        taken: taken as u64,
        kind,
        said: Said { kind: 0, number: 0 },
        status: 0,
        alone: 0,
    }
}

/// Returns the step for an exchange that is over.
fn exchanged(taken: usize, what: Exchanged) -> NextStep
    ensures { result ≡ numbers_of taken (AnExchange what) }
{
    NextStep {
        said: Said::of_delivered(what.delivered),
        status: what.status as u32,
        alone: if what.alone { 1 } else { 0 },
        ..plain(5, taken)
    }
}

/// Returns the step for a check that is over, whose answer has the status code `status`.
fn checked(taken: usize, current: Current, status: u16) -> NextStep
    ensures { result ≡ check_numbers_of taken (Checked current) status }
{
    NextStep {
        said: Said::of_current(current),
        status: status as u32,
        ..plain(6, taken)
    }
}

/// Returns a dialogue's step in numbers, for which `taken` bytes were taken.
pub fn next_step(taken: usize, step: Step) -> NextStep
    ensures { result ≡ numbers_of taken step }
{
    match step {
        Step::Connect => plain(1, taken),
        Step::Write => plain(2, taken),
        Step::Read => plain(3, taken),
        Step::Look => plain(4, taken),
        Step::Exchanged(what) => exchanged(taken, what),
        Step::Over => plain(7, taken),
        Step::More => plain(8, taken),
    }
}

/// Returns a check's step in numbers, for which `taken` bytes were taken. `status` is the status code of the answer.
fn check_step(taken: usize, step: CheckStep, status: u16) -> NextStep
    ensures { result ≡ check_numbers_of taken step status }
{
    match step {
        CheckStep::Connect => plain(1, taken),
        CheckStep::Write => plain(2, taken),
        CheckStep::Read => plain(3, taken),
        CheckStep::Checked(current) => checked(taken, current, status),
        CheckStep::More => plain(8, taken),
    }
}

/// Takes bytes of an exchange, and returns the next step. Fails where no memory is left: an exchange may be over then.
fn exchange(held: &mut Held, bytes: &[u8]) -> Result<NextStep, Memory>
    requires { held.old.check ≡ None }
    ensures ok { IfOk result (λ step. DrivesBy held.old.check bytes.now step held.old held.new) }
    ensures err { OnErr result (FailsBy held.old.check held.old held.new) }
{
    let progress = held.dialogue.go_on(&mut held.client, bytes)?;
    Ok(next_step(progress.count, progress.step))
}

/// Takes bytes of the check that is under way, or else of an exchange, and returns the next step. Fails where no memory is left: the check
/// is over then, or an exchange may be.
fn go_on(held: &mut Held, bytes: &[u8]) -> Result<NextStep, Memory>
    ensures ok { IfOk result (λ step. DrivesBy held.old.check bytes.now step held.old held.new) }
    ensures err { OnErr result (FailsBy held.old.check held.old held.new) }
{
    let Some(mut check) = held.check.take() else {
        return exchange(held, bytes);
    };
    let progress = check.go_on(&held.client, bytes)?;
    let status = check.status();
    match progress.step {
        CheckStep::Checked(_) => {}
        _ => held.check = Some(check),
    }
    Ok(check_step(progress.count, progress.step, status))
}

/// Writes a step to the caller's `step`, and returns 0. Returns `COG_MEMORY` where `gone_on` is an error, and then `step` stays.
pub fn lay_step(gone_on: Result<NextStep, Memory>, step: &mut NextStep) -> i32
    ensures { TellsStep gone_on step.old step.new result }
{
    match gone_on {
        Ok(next) => {
            *step = next;
            0
        }
        Err(Memory) => Failure::Memory.code(),
    }
}

/// Takes bytes that came, and writes to `step` what to do next. Returns 0, `COG_MEMORY` or `COG_NO_CLIENT`. Unless it is 0, `step` stays.
#[unsafe(no_mangle)]
pub extern "C" fn delgunsai_client_go_on(
    alloc: Global,
    client: &mut Handle,
    bytes: &[u8],
    step: &mut NextStep,
) -> i32
    ensures does { Drives (λ h k. DrivesOr bytes.now step.old step.new result h k) (held_of client.old) (held_of client.new) result }
    ensures untouched { held_of client.old ≡ None → step.new ≡ step.old }
{
    let Some(mut held) = client.take(alloc) else {
        return Failure::NoClient.code();
    };
    let gone_on = go_on(&mut held, bytes);
    let told = lay_step(gone_on, step);
    client.put(held);
    told
}
