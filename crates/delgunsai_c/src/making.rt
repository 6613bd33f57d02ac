//! Calls that make, clear and free a client.
ghost use Rattle.std.specs.Prelude.{◌≡◌, [], None, IfErr, IfOk, IfSome, IsSomeAnd, pos};
ghost use Rattle.delgunsai_c.specs.Begins.{BeginsQuery, IsUnused};
ghost use Rattle.delgunsai_c.specs.Calls.{AddsOr, Calls, Done, IsRefusal, IsUrlFailure, News, NewsOfUrl};
ghost use Rattle.delgunsai_c.specs.Driving.{Drives, KeepsRest};
ghost use Rattle.delgunsai_c.specs.Handle.{client_of, held_of};
ghost use Rattle.cog_client.specs.Calls.{Forgets, Starts, StartsByUrl};

use crate::failure::{Failure, failure_of, failure_of_field, failure_of_url};
use crate::handle::Handle;
use crate::held::Held;
use client_dialogue::Dialogue;
use cog_client::{Client, RequestFields};
use std::alloc::Global;

/// The most exchanges that a query may take, unless the caller sets another number.
const EXCHANGES: u32 = 65_536;

/// The most requests that are sent early.
const EARLY: u32 = 8;

/// Puts a client in the heap, or returns `None` where no memory is left.
fn in_heap(alloc: Global, client: Client) -> Option<Box<Held>>
    ensures client { IfSome result (λ b. b.value.client ≡ client) }
    ensures unused { IfSome result (λ b. IsUnused b.value) }
{
    let dialogue = Dialogue::new(alloc, EARLY);
    let held = Held {
        client,
        dialogue,
        check: None,
        exchanges: EXCHANGES,
    };
    Box::new(alloc, held).ok()
}

/// Makes a client in the heap. Fails with the first of `Host`, `Name` and `Blocks` that applies, or with `Memory`.
fn boxed(alloc: Global, host: &[u8], name: &[u8], blocks: u32) -> Result<Box<Held>, Failure>
    ensures made { IfOk result (λ b. Starts host.now name.now blocks b.value.client) }
    ensures unused { IfOk result (λ b. IsUnused b.value) }
    ensures refused { IfErr result (IsRefusal host.now name.now blocks) }
{
    match Client::new(alloc, host, name, blocks) {
        Err(error) => Err(failure_of(&error)),
        Ok(client) => match in_heap(alloc, client) {
            Some(client) => Ok(client),
            None => Err(Failure::Memory),
        },
    }
}

/// Makes a client in a handle, and frees the one before. Returns 0, `COG_HOST`, `COG_NAME`, `COG_BLOCKS` or `COG_MEMORY`. Unless it is 0,
/// the handle stays as it was.
#[unsafe(no_mangle)]
pub extern "C" fn cog_client_new(
    alloc: Global,
    host: &[u8],
    name: &[u8],
    blocks: u32,
    client: &mut Handle,
) -> i32
    ensures news { News host.now name.now blocks (client_of client.old) (client_of client.new) result }
    ensures unused { result ≡ pos 0 → IsSomeAnd (held_of client.new) IsUnused }
{
    match boxed(alloc, host, name, blocks) {
        Ok(made) => {
            let _before = client.take(alloc);
            client.put(made);
            0
        }
        Err(failure) => failure.code(),
    }
}

/// Makes a client of a URL in the heap. Fails with the first of `Authority`, `Target` and `Blocks` that applies, or with `Memory`.
fn boxed_by_url(
    alloc: Global,
    authority: &[u8],
    target: &[u8],
    blocks: u32,
) -> Result<Box<Held>, Failure>
    ensures made { IfOk result (λ b. StartsByUrl authority.now target.now [] blocks b.value.client) }
    ensures unused { IfOk result (λ b. IsUnused b.value) }
    ensures refused { IfErr result (IsUrlFailure authority.now target.now blocks) }
{
    match Client::by_url(alloc, authority, target, RequestFields::new(alloc), blocks) {
        Err(error) => Err(failure_of_url(error)),
        Ok(client) => match in_heap(alloc, client) {
            Some(client) => Ok(client),
            None => Err(Failure::Memory),
        },
    }
}

/// Makes a client of a URL in a handle, and frees the one before. `authority` is host and port, and `target` path and query. Returns 0,
/// `DELGUNSAI_AUTHORITY`, `DELGUNSAI_TARGET`, `COG_BLOCKS` or `COG_MEMORY`. Unless it is 0, the handle stays as it was.
#[unsafe(no_mangle)]
pub extern "C" fn delgunsai_client_by_url(
    alloc: Global,
    authority: &[u8],
    target: &[u8],
    blocks: u32,
    client: &mut Handle,
) -> i32
    ensures news { NewsOfUrl authority.now target.now blocks (client_of client.old) (client_of client.new) result }
    ensures unused { result ≡ pos 0 → IsSomeAnd (held_of client.new) IsUnused }
{
    match boxed_by_url(alloc, authority, target, blocks) {
        Ok(made) => {
            let _before = client.take(alloc);
            client.put(made);
            0
        }
        Err(failure) => failure.code(),
    }
}

/// Adds a field to each request and check from now on, after those before. Returns 0, one of `DELGUNSAI_FIELD_..`, `COG_MEMORY` or
/// `COG_NO_CLIENT`. Unless it is 0, the client stays as it was.
#[unsafe(no_mangle)]
pub extern "C" fn delgunsai_client_add_field(
    alloc: Global,
    client: &mut Handle,
    name: &[u8],
    value: &[u8],
) -> i32
    ensures does { Calls (AddsOr (name.now, value.now) result) (client_of client.old) (client_of client.new) result }
    ensures rest { KeepsRest (held_of client.old) (held_of client.new) result }
{
    let Some(mut held) = client.take(alloc) else {
        return Failure::NoClient.code();
    };
    let code = match held.client.add_field(name, value) {
        Ok(()) => 0,
        Err(error) => failure_of_field(error).code(),
    };
    client.put(held);
    code
}

/// Drops the report, all that is known of the file, and what is under way.
fn forget_held(held: &mut Held)
    ensures forgets { Forgets held.old.client held.new.client }
    ensures begins { BeginsQuery held.old held.new }
{
    held.client.forget();
    held.begin_query();
}

/// Drops the report and all that is known of the file. Host, name, query, and how the client asks, stay. Returns 0 or `COG_NO_CLIENT`.
#[unsafe(no_mangle)]
pub extern "C" fn cog_client_forget(alloc: Global, client: &mut Handle) -> i32
    ensures forgets { Calls (λ s t. Done (Forgets s t) result) (client_of client.old) (client_of client.new) result }
    ensures begins { Drives BeginsQuery (held_of client.old) (held_of client.new) result }
{
    let Some(mut held) = client.take(alloc) else {
        return Failure::NoClient.code();
    };
    forget_held(&mut held);
    client.put(held);
    0
}

/// Frees the client of a handle, which then has none.
#[unsafe(no_mangle)]
pub extern "C" fn cog_client_free(alloc: Global, client: &mut Handle)
    ensures { client_of client.new ≡ None }
{
    let _held = client.take(alloc);
}
