//! The answers that were sent, and their delivery. They stand in the entries of the log.
ghost use Rattle.std.specs.Prelude.{◌≡◌, IfOk, IsSome, OnErr, OnOk, option_and_then, option_copied, slice_get};
ghost use Rattle.cog_client.specs.Client.{name_of};
ghost use Rattle.world.specs.World.{answer_in, is_for};
ghost use Rattle.world.specs.Run.{cut_at};
ghost use Rattle.world.specs.State.{IsDeliveryKeeping, StopsDelivering, answer_at, noted};

use crate::calls::{Call, call_at};
use crate::event::{Effect, Entry};
use crate::handing::Handing;
use crate::server::quiet;
use cog_client::Client;
use cog_server::{Answer, Server};
use http_range::Memory;
use std::alloc::Global;

/// Returns the answer with the number `number`, if there is one. `places` are the indices of the entries that have an answer.
pub fn answer_of<'a>(entries: &'a [Entry], places: &[usize], number: u32) -> Option<&'a Answer>
    ensures { option_copied result ≡ option_and_then (answer_at entries.now) (slice_get places.now number) }
{
    let place = places.get(number as usize)?;
    let entry = entries.get(*place)?;
    entry.effect.answer()
}

/// Returns the first `cut` bytes of a text, or all of it.
fn front(text: &[u8], cut: Option<u32>) -> &[u8]
    ensures { result.now ≡ cut_at cut text.now }
{
    match cut {
        None => text,
        Some(cut) => text.get(..cut as usize).unwrap_or(text),
    }
}

/// Returns whether an answer carries the ETag of a file of the client's name, or none.
fn is_for(client: &Client, answer: &Answer) -> bool
    ensures { result ≡ is_for answer.now (name_of client.now) }
{
    match &answer.name {
        None => true,
        Some(name) => name.as_slice() == client.name(),
    }
}

/// Delivers the first `cut` bytes of an answer to client `i`, or all of it. The event is skipped where there is no such answer or client,
/// and where the answer is for another name. Fails where no memory is left.
pub fn deliver_at(
    alloc: Global,
    server: &Server,
    answer: Option<&Answer>,
    clients: &mut Vec<Client>,
    i: u32,
    cut: Option<u32>,
    how: Handing,
) -> Result<Entry, Memory>
    ensures ok { IfOk result (λ n. IsDeliveryKeeping (option_copied answer.entry)
        (slice_get clients.old.items i) cut i n clients.old.items clients.new.items) }
    ensures err { OnErr result (StopsDelivering (option_copied answer.entry)
        (slice_get clients.old.items i) cut i clients.old.items clients.new.items) }
    ensures there { OnErr result (IsSome (slice_get clients.old.items i)) }
{
    let Some(answer) = answer else {
        return Ok(quiet(Effect::Skipped));
    };
    match clients.get(i as usize) {
        Some(client) if is_for(client, answer) => {}
        _ => return Ok(quiet(Effect::Skipped)),
    }
    let text = front(&answer.text, cut);
    call_at(alloc, server, 0, clients, i, Call::Deliver(text), how)
}

/// Appends `place`, the index of the next entry, where its effect has an answer. Fails where no memory is left.
pub fn keep(places: &mut Vec<usize>, place: usize, effect: &Effect) -> Result<(), Memory>
    ensures { OnOk result (places.new.items ≡ noted (answer_in effect.now) place places.old.items) }
{
    if effect.answer().is_some() {
        places.push(place)?;
    }
    Ok(())
}
