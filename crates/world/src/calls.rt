//! What happens at a client.
ghost use Rattle.std.specs.Prelude.{◌≡◌, IfOk, IsSome, None, OnErr, if◌then◌else◌, is_some, slice_get};
ghost use Rattle.std.specs.Option.{option_map};
ghost use Rattle.cog_client.specs.Report.{told};
ghost use Rattle.cog_client.specs.Client.{client_refusal, report_of};
ghost use Rattle.world.specs.World.{host};
ghost use Rattle.world.specs.Run.{AtClient, MakesBy};
ghost use Rattle.world.specs.State.{CallsWith, IsGiven, Keeping, StandsTrue, StillAgrees, StopsAt};

use crate::event::{Effect, Entry};
use crate::exchange::{ask_from, deliver_whole};
use crate::handing::{Handing, hand_over};
use crate::server::quiet;
use cog_client::{Client, ClientError, Report};
use cog_server::Server;
use http_range::Memory;
use std::alloc::Global;
use tiff_dir::Query;

/// Says what an event has a client do.
#[derive(Clone, Copy)]
pub enum Call<'a> {
    /// It is asked this query.
    Open(Query),
    /// It forgets everything but its host, its name, its query and how it asks.
    Forget,
    /// Its request is answered.
    AskFrom,
    /// Its request is answered, and it gets the answer whole.
    Exchange,
    /// It gets these bytes of an answer.
    Deliver(&'a [u8]),
}

/// Returns whether a report stands.
pub fn has_report(client: &Client) -> bool
    ensures { result ≡ is_some (report_of client.now) }
{
    client.report().is_some()
}

/// Returns a copy of the report that stands, unless one stood before (`had`). Fails where no memory is left.
pub fn new_report(alloc: Global, client: &Client, had: bool) -> Result<Option<Report>, Memory>
    ensures newly { IfOk result (λ o. option_map told o ≡ (if had then None else option_map told (report_of client.now))) }
    ensures stands { IfOk result (λ o. StandsTrue client.now) }
{
    let standing = client.report();
    if had {
        return Ok(None);
    }
    match standing {
        None => Ok(None),
        Some(report) => Ok(Some(report.copy(alloc)?)),
    }
}

/// Makes a client, or skips the event where its name or its blocks are refused. Fails where no memory is left, and then the clients stay.
pub fn make_client(
    alloc: Global,
    clients: &mut Vec<Client>,
    name: &[u8],
    blocks: u32,
) -> Result<Entry, Memory>
    ensures ok { IfOk result (λ n. MakesBy (client_refusal host name.now blocks) name.now blocks n clients.old.items clients.new.items) }
    ensures err { OnErr result (clients.new.items ≡ clients.old.items) }
    ensures refused { OnErr result (client_refusal host name.now blocks ≡ None) }
{
    let number = clients.len();
    match Client::new(alloc, b"cog.test", name, blocks) {
        Ok(client) => {
            clients.push(client)?;
            Ok(quiet(Effect::Made(number)))
        }
        Err(ClientError::Memory) => Err(Memory),
        Err(_) => Ok(quiet(Effect::Skipped)),
    }
}

/// Does what an event says with client `i`, and hands answers over as `how` says. Returns what the event did. Fails where no memory is
/// left.
fn effect_of(
    server: &Server,
    number: usize,
    client: &mut Client,
    i: u32,
    what: Call<'_>,
    how: Handing,
) -> Result<Effect, Memory>
    ensures ok { IfOk result (λ effect. CallsWith server.now.catalogue number i what.entry effect client.old client.new) }
    ensures err { OnErr result (StillAgrees (IsGiven server.now.catalogue number i what.entry client.old) client.old client.new) }
{
    match what {
        Call::Open(query) => {
            client.open(query);
            Ok(Effect::Opened(i))
        }
        Call::Forget => {
            client.forget();
            Ok(Effect::Forgot(i))
        }
        Call::AskFrom => match ask_from(server, number, client, i)? {
            None => Ok(Effect::Nothing(i)),
            Some(asked) => Ok(Effect::Asked(asked)),
        },
        Call::Exchange => {
            let asked = ask_from(server, number, client, i)?;
            deliver_whole(client, i, asked, how)
        }
        Call::Deliver(text) => {
            let delivered = hand_over(client, text, how)?;
            Ok(Effect::Delivered {
                client: i,
                delivered,
            })
        }
    }
}

/// Does what an event says with client `i`, and hands answers over as `how` says. The event is skipped where there is no such client.
/// Returns the entry, with a report that newly stands. Fails where no memory is left.
pub fn call_at(
    alloc: Global,
    server: &Server,
    number: usize,
    clients: &mut Vec<Client>,
    i: u32,
    what: Call<'_>,
    how: Handing,
) -> Result<Entry, Memory>
    ensures ok { IfOk result (λ n. AtClient (slice_get clients.old.items i) (Keeping
        (CallsWith server.now.catalogue number i what.entry n.effect)) i n clients.old.items clients.new.items) }
    ensures err { OnErr result (StopsAt (slice_get clients.old.items i)
        (IsGiven server.now.catalogue number i what.entry) i clients.old.items clients.new.items) }
    ensures there { OnErr result (IsSome (slice_get clients.old.items i)) }
{
    let Some(client) = clients.get_mut(i as usize) else {
        return Ok(quiet(Effect::Skipped));
    };
    let had = has_report(client);
    let effect = effect_of(server, number, client, i, what, how)?;
    let report = new_report(alloc, client, had)?;
    Ok(Entry { effect, report })
}
