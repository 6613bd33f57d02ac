//! Calls that take answers.
ghost use Rattle.std.specs.Prelude.{◌≡◌, []};
ghost use Rattle.cog_client.specs.FedClient.{Fed};
ghost use Rattle.delgunsai_c.specs.Answers.{EndsOr, Reads};
ghost use Rattle.delgunsai_c.specs.Calls.{Calls, Done, FeedsOr};
ghost use Rattle.delgunsai_c.specs.Driving.{KeepsRest};
ghost use Rattle.delgunsai_c.specs.Handle.{client_of, held_of};

use crate::failure::Failure;
use crate::handle::Handle;
use crate::said::Said;
use cog_client::Client;
use std::alloc::Global;

/// Takes the next bytes of an answer. Returns 0 or `COG_MEMORY`.
fn feed(client: &mut Client, piece: &[u8]) -> i32
    ensures { FeedsOr piece.now result client.old client.new }
{
    match client.feed(piece) {
        Ok(()) => 0,
        Err(_) => Failure::Memory.code(),
    }
}

/// Ends an answer, and writes to `said` what it did. Returns 0, or `COG_MEMORY`, and then `said` stays.
fn end(client: &mut Client, said: &mut Said) -> i32
    ensures { EndsOr said.old said.new result client.old client.new }
{
    match client.end() {
        Ok(delivered) => {
            *said = Said::of_delivered(delivered);
            0
        }
        Err(_) => Failure::Memory.code(),
    }
}

/// Begins an answer. An unfinished one is dropped. Returns 0 or `COG_NO_CLIENT`.
#[unsafe(no_mangle)]
pub extern "C" fn cog_client_begin(alloc: Global, client: &mut Handle) -> i32
    ensures does { Calls (λ s t. Done (Fed s [] t) result) (client_of client.old) (client_of client.new) result }
    ensures rest { KeepsRest (held_of client.old) (held_of client.new) result }
{
    let Some(mut held) = client.take(alloc) else {
        return Failure::NoClient.code();
    };
    held.client.begin();
    client.put(held);
    0
}

/// Takes the next bytes of an answer, whichever they are. Returns 0, `COG_MEMORY` or `COG_NO_CLIENT`. After `COG_MEMORY` the rest of the
/// answer is dropped.
#[unsafe(no_mangle)]
pub extern "C" fn cog_client_feed(alloc: Global, client: &mut Handle, piece: &[u8]) -> i32
    ensures does { Calls (FeedsOr piece.now result) (client_of client.old) (client_of client.new) result }
    ensures rest { KeepsRest (held_of client.old) (held_of client.new) result }
{
    let Some(mut held) = client.take(alloc) else {
        return Failure::NoClient.code();
    };
    let told = feed(&mut held.client, piece);
    client.put(held);
    told
}

/// Ends an answer, whole or cut, and writes to `said` what it did. Returns 0, `COG_MEMORY` or `COG_NO_CLIENT`. Unless it is 0, `said`
/// stays.
#[unsafe(no_mangle)]
pub extern "C" fn cog_client_end(alloc: Global, client: &mut Handle, said: &mut Said) -> i32
    ensures does { Calls (EndsOr said.old said.new result) (client_of client.old) (client_of client.new) result }
    ensures rest { KeepsRest (held_of client.old) (held_of client.new) result }
    ensures untouched { client_of client.old ≡ None → said.new ≡ said.old }
{
    let Some(mut held) = client.take(alloc) else {
        return Failure::NoClient.code();
    };
    let told = end(&mut held.client, said);
    client.put(held);
    told
}

/// Writes to `said` what the answer to a check, or a front of it, says of the ETag. Returns 0, or `COG_NO_CLIENT`, and then `said` stays.
#[unsafe(no_mangle)]
pub extern "C" fn cog_client_current(
    alloc: Global,
    client: &mut Handle,
    answer: &[u8],
    said: &mut Said,
) -> i32
    ensures does { Calls (λ s t. Done (Reads answer.now said.new s t) result) (client_of client.old) (client_of client.new) result }
    ensures rest { KeepsRest (held_of client.old) (held_of client.new) result }
    ensures untouched { client_of client.old ≡ None → said.new ≡ said.old }
{
    let Some(held) = client.take(alloc) else {
        return Failure::NoClient.code();
    };
    let current = held.client.current(answer);
    *said = Said::of_current(current);
    client.put(held);
    0
}
