//! Calls that note what became of a driver's bytes and of its connection.
ghost use Rattle.std.specs.Prelude.{◌≡◌, None};
ghost use Rattle.delgunsai_c.specs.Driving.{Drives};
ghost use Rattle.delgunsai_c.specs.Handle.{held_of};
ghost use Rattle.delgunsai_c.specs.Moving.{AsksSame, Connects, EndsBy, EndsLook, EndsOr, LaysWaiting, OpensCheck, SetsExchanges, Writes, waits_of};

use crate::driving::{NextStep, lay_step, next_step, plain};
use crate::failure::Failure;
use crate::handle::Handle;
use crate::held::Held;
use crate::laying::lay_front;
use client_dialogue::{Check, Loss};
use extents::Memory;
use std::alloc::Global;

/// Returns the bytes that are to be written.
fn waiting(held: &Held) -> &[u8]
    ensures { result.now ≡ waits_of held.now }
{
    match &held.check {
        Some(check) => check.waiting(),
        None => held.dialogue.waiting(),
    }
}

/// Copies the first bytes that are to be written to `room`, as many as it holds. Returns how many there are in all, or `COG_NO_CLIENT`.
#[unsafe(no_mangle)]
pub extern "C" fn delgunsai_client_waiting(
    alloc: Global,
    client: &mut Handle,
    room: &mut [u8],
) -> i64
    ensures does { Drives (λ h k. LaysWaiting h room.old room.new result × (k ≡ h)) (held_of client.old) (held_of client.new) result }
    ensures untouched { held_of client.old ≡ None → room.new ≡ room.old }
{
    let Some(held) = client.take(alloc) else {
        return Failure::NoClient.code() as i64;
    };
    let told = lay_front(waiting(&held), room);
    client.put(held);
    told
}

/// Notes that the first `count` bytes that waited were written. Returns 0, or `COG_ORDER` where fewer wait or no connection is in use.
fn wrote(held: &mut Held, count: usize) -> i32
    ensures { Writes count result held.old held.new }
{
    if count > waiting(held).len() {
        return Failure::Order.code();
    }
    match &mut held.check {
        Some(check) => check.wrote(count),
        None => {
            if !held.dialogue.is_asked() || !held.dialogue.is_open() {
                return Failure::Order.code();
            }
            held.dialogue.wrote(&held.client, count);
        }
    }
    0
}

/// Notes that the first `count` bytes that waited were written. Returns 0, `COG_ORDER` or `COG_NO_CLIENT`.
#[unsafe(no_mangle)]
pub extern "C" fn delgunsai_client_wrote(alloc: Global, client: &mut Handle, count: usize) -> i32
    ensures { Drives (Writes count result) (held_of client.old) (held_of client.new) result }
{
    let Some(mut held) = client.take(alloc) else {
        return Failure::NoClient.code();
    };
    let told = wrote(&mut held, count);
    client.put(held);
    told
}

/// Notes that the new connection of a check is there. Returns 0, `COG_ORDER` where one was there, or `COG_MEMORY`.
fn check_connected(check: &mut Check) -> i32
    ensures { OpensCheck result check.old check.new }
{
    if check.is_open() {
        return Failure::Order.code();
    }
    match check.connected() {
        Ok(()) => 0,
        Err(Memory) => Failure::Memory.code(),
    }
}

/// Notes that the new connection of an exchange is there. Returns 0, `COG_ORDER` where no exchange is under way, or `COG_MEMORY`.
fn exchange_connected(held: &mut Held) -> i32
    requires { held.old.check ≡ None }
    ensures { Connects result held.old held.new }
{
    if !held.dialogue.is_asked() {
        return Failure::Order.code();
    }
    match held.dialogue.connected(&held.client) {
        Ok(()) => 0,
        Err(Memory) => Failure::Memory.code(),
    }
}

/// Notes that the new connection of the check, or else of the exchange, is there. Returns 0, `COG_ORDER` or `COG_MEMORY`.
fn connected(held: &mut Held) -> i32
    ensures { Connects result held.old held.new }
{
    match &mut held.check {
        Some(check) => check_connected(check),
        None => exchange_connected(held),
    }
}

/// Notes that a new connection is there. Returns 0, `COG_ORDER`, `COG_MEMORY` or `COG_NO_CLIENT`.
#[unsafe(no_mangle)]
pub extern "C" fn delgunsai_client_connected(alloc: Global, client: &mut Handle) -> i32
    ensures { Drives (Connects result) (held_of client.old) (held_of client.new) result }
{
    let Some(mut held) = client.take(alloc) else {
        return Failure::NoClient.code();
    };
    let told = connected(&mut held);
    client.put(held);
    told
}

/// Notes that nothing came on the connection before the request is written. Returns 0 or `COG_NO_CLIENT`.
#[unsafe(no_mangle)]
pub extern "C" fn delgunsai_client_silent(alloc: Global, client: &mut Handle) -> i32
    ensures { Drives (EndsLook result) (held_of client.old) (held_of client.new) result }
{
    let Some(mut held) = client.take(alloc) else {
        return Failure::NoClient.code();
    };
    held.dialogue.silent();
    client.put(held);
    0
}

/// Returns how a connection was lost, by its number: 1 is ended, 3 is late, and any other is failed.
fn loss_of(how: u32) -> Loss
    ensures late { result ≡ Loss.Late → how ≡ 3 }
    ensures three { how ≡ 3 → result ≡ Loss.Late }
    ensures ended { how ≡ 1 → result ≡ Loss.Ended }
{
    match how {
        1 => Loss::Ended,
        3 => Loss::Late,
        _ => Loss::Failed,
    }
}

/// Notes that the connection is gone, and how, and returns the next step. Fails where no memory is left.
fn gone(held: &mut Held, how: u32) -> Result<NextStep, Memory>
    ensures { EndsBy how result held.old held.new }
{
    if let Some(check) = &mut held.check {
        check.gone();
        return Ok(plain(8, 0));
    }
    if !held.dialogue.is_asked() {
        held.dialogue.end();
        return Ok(plain(8, 0));
    }
    let step = held.dialogue.gone(&mut held.client, loss_of(how))?;
    Ok(next_step(0, step))
}

/// Notes that the connection is gone, and how, and writes to `step` what to do next. Returns 0, `COG_MEMORY` or `COG_NO_CLIENT`. Unless it
/// is 0, `step` stays.
#[unsafe(no_mangle)]
pub extern "C" fn delgunsai_client_gone(
    alloc: Global,
    client: &mut Handle,
    how: u32,
    step: &mut NextStep,
) -> i32
    ensures does { Drives (EndsOr how step.old step.new result) (held_of client.old) (held_of client.new) result }
    ensures untouched { held_of client.old ≡ None → step.new ≡ step.old }
{
    let Some(mut held) = client.take(alloc) else {
        return Failure::NoClient.code();
    };
    let gone = gone(&mut held, how);
    let told = lay_step(gone, step);
    client.put(held);
    told
}

/// Lets each query take at most `exchanges` exchanges, and drops what is under way. Returns 0.
fn set_exchanges(held: &mut Held, exchanges: u32) -> i32
    ensures { SetsExchanges exchanges result held.old held.new }
{
    held.exchanges = exchanges;
    held.begin_query();
    0
}

/// Lets each query from here on take at most `exchanges` exchanges. What is under way is dropped. Returns 0 or `COG_NO_CLIENT`.
#[unsafe(no_mangle)]
pub extern "C" fn delgunsai_client_exchanges(
    alloc: Global,
    client: &mut Handle,
    exchanges: u32,
) -> i32
    ensures { Drives (SetsExchanges exchanges result) (held_of client.old) (held_of client.new) result }
{
    let Some(mut held) = client.take(alloc) else {
        return Failure::NoClient.code();
    };
    let told = set_exchanges(&mut held, exchanges);
    client.put(held);
    told
}

/// Begins the check whether the file is still the same, over a connection of its own. Returns 1, 0 where the client has no revision to
/// check, or `COG_MEMORY`.
fn ask_same(alloc: Global, held: &mut Held) -> i32
    ensures { AsksSame result held.old held.new }
{
    held.begin_alone();
    match Check::new(alloc, &held.client) {
        Ok(Some(check)) => {
            held.check = Some(check);
            1
        }
        Ok(None) => 0,
        Err(_) => Failure::Memory.code(),
    }
}

/// Begins the check whether the file is still the same. Returns 1, 0 where the client has no revision to check, `COG_MEMORY` or
/// `COG_NO_CLIENT`.
#[unsafe(no_mangle)]
pub extern "C" fn delgunsai_client_ask_same(alloc: Global, client: &mut Handle) -> i32
    ensures { Drives (AsksSame result) (held_of client.old) (held_of client.new) result }
{
    let Some(mut held) = client.take(alloc) else {
        return Failure::NoClient.code();
    };
    let told = ask_same(alloc, &mut held);
    client.put(held);
    told
}
