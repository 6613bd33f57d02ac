//! What happens between a client and the server.
ghost use Rattle.std.specs.Prelude.{◌≡◌, ℕ, List, Option, Some, IfOk, IsSome, IsSomeAnd, OnErr, slice_get};
ghost use Rattle.http_range.specs.Ask.{CanCheck};
ghost use Rattle.http_range.specs.Honest.{IsFront};
ghost use Rattle.cog_client.specs.Client.{asked_of, fields_of, host_of, name_of, tag_of};
ghost use Rattle.cog_client.specs.Check.{check_of};
ghost use Rattle.world.specs.declared.event.AnsweredCheck.{AnsweredCheck};
ghost use Rattle.cog_client.specs.Keeps.{RequestsKeeping, StopsDelivery};
ghost use Rattle.world.specs.Run.{Asks, IsAnswerTo, IsExchanged};
ghost use Rattle.world.specs.State.{IsCheckBy, IsCheckOfKeeping, IsCheckedKeeping, IsDeliveredKeeping, StillAgrees, request_in};

use crate::event::{AnsweredCheck, AnsweredRequest, Effect, Entry};
use crate::handing::{Handing, hand_over};
use crate::server::quiet;
use cog_client::Client;
use cog_server::Server;
use http_range::{Memory, Span, Tag};

/// Returns the ETag of the client's revision, if it reads one.
fn tag_of(client: &Client) -> Option<Tag>
    ensures { result ≡ tag_of client.now }
{
    match client.tag() {
        Some(tag) => Some(tag.copy()),
        None => None,
    }
}

/// Returns the server's answer to a client's request, as the answer `number`. Fails where no memory is left.
fn answer_request(
    server: &Server,
    number: usize,
    client: &Client,
    i: u32,
    request: Vec<u8>,
    span: Span,
) -> Result<AnsweredRequest, Memory>
    requires asked { asked_of client.now ≡ Some span }
    ensures answers { IfOk result (IsAnswerTo server.now.catalogue number i client.now) }
    ensures request { IfOk result (λ a. a.request ≡ request) }
{
    let answer = server.answer(&request)?;
    Ok(AnsweredRequest {
        client: i,
        span,
        tag: tag_of(client),
        request,
        number,
        answer,
    })
}

/// Returns the client's request and the server's answer to it, or `None` where the client has no request. Fails where no memory is left.
pub fn ask_from(
    server: &Server,
    number: usize,
    client: &mut Client,
    i: u32,
) -> Result<Option<AnsweredRequest>, Memory>
    ensures seen { IfOk result (λ asked. Asks server.now.catalogue number i asked client.old client.new) }
    ensures kept { IfOk result (λ asked. RequestsKeeping client.old (request_in asked) client.new) }
    ensures err { OnErr result (StillAgrees (λ text. ⊥) client.old client.new) }
{
    let request = client.request()?;
    let Some(request) = request else {
        return Ok(None);
    };
    let span = client.asked().unwrap();
    let asked = answer_request(server, number, client, i, request, span)?;
    Ok(Some(asked))
}

/// Delivers all of an answer, if there is one. Returns what that did. Fails where no memory is left.
pub fn deliver_whole(
    client: &mut Client,
    i: u32,
    asked: Option<AnsweredRequest>,
    how: Handing,
) -> Result<Effect, Memory>
    ensures seen { IfOk result (λ effect. IsExchanged i asked effect client.old client.new) }
    ensures kept { IfOk result (λ effect. IsDeliveredKeeping asked client.old client.new) }
    ensures err { OnErr result (IsSomeAnd asked (λ a. (front : List ℕ) × IsFront front a.answer.text.items
        × StopsDelivery client.old front client.new)) }
{
    let Some(asked) = asked else {
        return Ok(Effect::Nothing(i));
    };
    let delivered = hand_over(client, &asked.answer.text, how)?;
    Ok(Effect::Exchanged { asked, delivered })
}

/// Returns the server's answer to the client's check, and what it says of the ETag. Fails where no memory is left.
fn answer_check(
    server: &Server,
    number: usize,
    client: &Client,
    i: u32,
    tag: Tag,
    request: Vec<u8>,
) -> Result<AnsweredCheck, Memory>
    requires tag { tag_of client.now ≡ Some tag }
    requires request { check_of client.now ≡ Some request.items }
    requires lawful { CanCheck (host_of client.now) (name_of client.now) (fields_of client.now) tag }
    ensures { IfOk result (IsCheckOfKeeping server.now.catalogue number i client.now) }
{
    let answer = server.answer(&request)?;
    let current = client.current(&answer.text);
    Ok(AnsweredCheck {
        client: i,
        tag,
        request,
        number,
        answer,
        current,
    })
}

/// Returns the client's check and the server's answer to it, if the client has a check. Fails where no memory is left.
fn check_one(server: &Server, number: usize, client: &Client, i: u32) -> Result<Effect, Memory>
    ensures { IfOk result (λ effect. (o : Option AnsweredCheck) × IsCheckedKeeping server.now.catalogue number i client.now o effect) }
{
    let Some(tag) = tag_of(client) else {
        return Ok(Effect::Unchecked(i));
    };
    let request = client.check()?.unwrap();
    let check = answer_check(server, number, client, i, tag, request)?;
    Ok(Effect::Checked(check))
}

/// Answers the check of client `i`, if it has one. The event is skipped where there is no such client. Fails where no memory is left.
pub fn check_at(server: &Server, number: usize, clients: &[Client], i: u32) -> Result<Entry, Memory>
    ensures ok { IfOk result (λ n. IsCheckBy (slice_get clients.now i) server.now.catalogue number i n clients.now clients.now) }
    ensures there { OnErr result (IsSome (slice_get clients.now i)) }
{
    let Some(client) = clients.get(i as usize) else {
        return Ok(quiet(Effect::Skipped));
    };
    let effect = check_one(server, number, client, i)?;
    Ok(quiet(effect))
}
