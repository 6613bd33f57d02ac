//! Calls that make requests: the next one, those that may be sent early, and the check whether the file is still the same. A request that
//! is longer than its room isn't copied.
ghost use Rattle.std.specs.Prelude.{◌≡◌};
ghost use Rattle.cog_client.specs.Keeps.{KeepsOpen, LooksAhead};
ghost use Rattle.delgunsai_c.specs.Calls.{AsksOr, Calls, ChecksOr, Done, ForetellsOr};
ghost use Rattle.delgunsai_c.specs.Driving.{KeepsRest};
ghost use Rattle.delgunsai_c.specs.Handle.{client_of, held_of};

use crate::failure::Failure;
use crate::handle::Handle;
use crate::laying::lay;
use cog_client::Client;
use std::alloc::Global;

/// Copies the client's next request to `room`. Returns its length in bytes, 0 where there is none, or `COG_MEMORY`.
fn request(client: &mut Client, room: &mut [u8]) -> i64
    ensures { AsksOr room.old room.new result client.old client.new }
{
    match client.request() {
        Ok(Some(text)) => lay(&text, room),
        Ok(None) => 0,
        Err(_) => Failure::Memory.code() as i64,
    }
}

/// Copies the client's check to `room`. Returns its length in bytes, 0 where there is none, or `COG_MEMORY`.
fn check(client: &Client, room: &mut [u8]) -> i64
    ensures { ChecksOr room.old room.new result client.now client.now }
{
    match client.check() {
        Ok(Some(text)) => lay(&text, room),
        Ok(None) => 0,
        Err(_) => Failure::Memory.code() as i64,
    }
}

/// Copies the early request at place `index` to `room`. Returns its length in bytes, 0 where there is none, or `COG_MEMORY`.
fn later(client: &Client, index: u32, room: &mut [u8]) -> i64
    ensures { ForetellsOr index room.old room.new result client.now client.now }
{
    let Ok(texts) = client.early_requests(index.saturating_add(1)) else {
        return Failure::Memory.code() as i64;
    };
    match texts.get(index as usize) {
        Some(text) => lay(text, room),
        None => 0,
    }
}

/// Makes requests from here on such that a connection may be kept from one to the next. Returns 0 or `COG_NO_CLIENT`.
#[unsafe(no_mangle)]
pub extern "C" fn cog_client_keep_open(alloc: Global, client: &mut Handle) -> i32
    ensures does { Calls (λ s t. Done (KeepsOpen s t) result) (client_of client.old) (client_of client.new) result }
    ensures rest { KeepsRest (held_of client.old) (held_of client.new) result }
{
    let Some(mut held) = client.take(alloc) else {
        return Failure::NoClient.code();
    };
    held.client.keep_open();
    client.put(held);
    0
}

/// Looks ahead by `blocks` blocks from here on. Returns 0 or `COG_NO_CLIENT`.
#[unsafe(no_mangle)]
pub extern "C" fn cog_client_look_ahead(alloc: Global, client: &mut Handle, blocks: u32) -> i32
    ensures does { Calls (λ s t. Done (LooksAhead blocks s t) result) (client_of client.old) (client_of client.new) result }
    ensures rest { KeepsRest (held_of client.old) (held_of client.new) result }
{
    let Some(mut held) = client.take(alloc) else {
        return Failure::NoClient.code();
    };
    held.client.look_ahead(blocks);
    client.put(held);
    0
}

/// Goes on as far as the known bytes reach, and copies the next request to `room`. Returns its length in bytes, 0 where there is none,
/// `COG_MEMORY` or `COG_NO_CLIENT`.
#[unsafe(no_mangle)]
pub extern "C" fn cog_client_request(alloc: Global, client: &mut Handle, room: &mut [u8]) -> i64
    ensures does { Calls (AsksOr room.old room.new result) (client_of client.old) (client_of client.new) result }
    ensures rest { KeepsRest (held_of client.old) (held_of client.new) result }
    ensures untouched { client_of client.old ≡ None → room.new ≡ room.old }
{
    let Some(mut held) = client.take(alloc) else {
        return Failure::NoClient.code() as i64;
    };
    let told = request(&mut held.client, room);
    client.put(held);
    told
}

/// Copies the request that asks whether the file still has the revision's ETag to `room`. Returns its length in bytes, 0 without a
/// revision, `COG_MEMORY` or `COG_NO_CLIENT`.
#[unsafe(no_mangle)]
pub extern "C" fn cog_client_check(alloc: Global, client: &mut Handle, room: &mut [u8]) -> i64
    ensures does { Calls (ChecksOr room.old room.new result) (client_of client.old) (client_of client.new) result }
    ensures rest { KeepsRest (held_of client.old) (held_of client.new) result }
    ensures untouched { client_of client.old ≡ None → room.new ≡ room.old }
{
    let Some(held) = client.take(alloc) else {
        return Failure::NoClient.code() as i64;
    };
    let told = check(&held.client, room);
    client.put(held);
    told
}

/// Copies a request to `room` that may be sent before the answer to the last one comes: the one at place `index`. Returns its length in
/// bytes, 0 where none is known, `COG_MEMORY` or `COG_NO_CLIENT`.
#[unsafe(no_mangle)]
pub extern "C" fn cog_client_later(
    alloc: Global,
    client: &mut Handle,
    index: u32,
    room: &mut [u8],
) -> i64
    ensures does { Calls (ForetellsOr index room.old room.new result) (client_of client.old) (client_of client.new) result }
    ensures rest { KeepsRest (held_of client.old) (held_of client.new) result }
    ensures untouched { client_of client.old ≡ None → room.new ≡ room.old }
{
    let Some(held) = client.take(alloc) else {
        return Failure::NoClient.code() as i64;
    };
    let told = later(&held.client, index, room);
    client.put(held);
    told
}
