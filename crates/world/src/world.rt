//! Runs a schedule.
ghost use Rattle.std.specs.Prelude.{◌≡◌, [], IfOk, OnOk, OnErr, length};
ghost use Rattle.world.specs.LowerLaws.{LowerLaws};
ghost use Rattle.http_range.specs.Book.{HasDistinctTags};
ghost use Rattle.world.specs.World.{AreAlike, AreOfBook, AtEach, IsExactEntry, IsHonestEntry, IsTrueEntry, World, after_all, start};
ghost use Rattle.world.specs.Progress.{AllReport, IsNeededEntry};
ghost use Rattle.world.specs.Run.{IsBeginning, IsTrueLog, Runs};
ghost use Rattle.world.specs.State.{AllAgree, Does, IsState, RunsKeeping, StopsStep, StopsWithin};

use crate::answers::{answer_of, deliver_at, keep};
use crate::calls::{Call, call_at, make_client};
use crate::event::{Entry, Event, Log};
use crate::exchange::check_at;
use crate::handing::Handing;
use crate::server::{ask, publish, restart};
use cog_client::{
    Client, law_agreement_is_seen, law_equal_reports_are_true, law_left_never_grows,
    law_needed_are_asked, law_nothing_left_is_reported, law_whole_answers_bring_on,
};
use cog_server::Server;
use geokeys::law_one_geo;
use http_range::{
    Memory, law_clients_are_answered, law_fronts_are_read, law_honesty_is_kept,
    law_publications_replace, law_tags_tell_publications,
};
use std::alloc::Global;
use tiff_dir::law_one_window;

/// Runs the events in order and logs each. Fails where no memory is left, which ends the run. The log then has the entries of the first
/// events, but not of all.
///
/// ```
/// let events = vec![in rt.alloc(); Event::Epoch(1), Event::Publish { name, file }]?;
/// let mut log = Log::new(rt.alloc());
/// run(rt.alloc(), &events, &mut log)?;
/// ```
pub fn run(alloc: Global, events: &[Event], log: &mut Log) -> Result<(), Memory>
    requires entries { log.old.entries.items ≡ [] }
    requires clients { log.old.clients.items ≡ [] }

    // The log has an entry for each event.
    ensures whole { OnOk result (length log.new.entries.items ≡ length events.now) }

    // Each report answers the query of its client's last opening. It is true of one file that was published under the client's name: of the
    // one whose ETag it has.
    ensures true_reports { OnOk result (AtEach IsTrueEntry start events.now log.new.entries.items) }

    // Two reports of one ETag for one query are equal windows, or have the same levels, keys and geo fields, or are both faults.
    ensures alike { OnOk result (AreAlike log.new.entries.items) }

    // Each request, checks aside, is its client's request, for what its query needs. That is whole blocks of one range that it needs of
    // the file that it reads, or the first 65,536 bytes where it has no revision.
    ensures needed { OnOk result (AtEach IsNeededEntry start events.now log.new.entries.items) }

    // A client opens a query of a name that the server has, and then makes exchanges with nothing between. It has its report by exchange
    // cost + 1. Cost is the sum, over the ranges that the query needs of that file, of the blocks that each range touches.
    ensures progress { OnOk result (AllReport events.now log.new.entries.items) }

    // A check says "same" exactly where the catalogue of that moment has the client's ETag under its name.
    ensures checked { OnOk result (AtEach IsExactEntry start events.now log.new.entries.items) }

    // No two publications of the whole schedule have one ETag. Each answer is honest for its name from when it is sent, whatever is
    // published later.
    ensures distinct { OnOk result (HasDistinctTags (after_all start events.now log.new.entries.items).book) }
    ensures honest { OnOk result (AtEach IsHonestEntry start events.now log.new.entries.items) }

    // Each client that the log leaves, and that reads a revision, has the name, ETag and length of one publication of the whole schedule.
    // Its blocks are that file's. This holds after an error, too: the publication is then of one of the events that are logged.
    ensures clients { AreOfBook log.new.clients.items (after_all start events.now log.new.entries.items).book }

    // The schedule, and what a caller sees of the clients' calls, make the entries and the clients that the log leaves. An event makes a
    // client, or changes only the one that it names. A report in an entry is that client's.
    ensures logged { OnOk result (Runs start [] events.now log.new.entries.items log.new.clients.items) }

    // After an error the entries are those of the first events, but not of all, and all this holds of them. The clients are those after
    // these events, but for what the next event did.
    ensures memory { OnErr result (IsBeginning events.now log.new.entries.items log.new.clients.items) }
{
    run_with(alloc, events, Handing::Whole, log)
}

/// Runs the events as `run` does, but hands each answer over in pieces of `piece` bytes, but at least one each. All holds that holds of
/// `run`. No contract says how long the pieces are: each answer meets the contract of `deliver`, however it is cut.
pub fn run_cut(alloc: Global, events: &[Event], piece: usize, log: &mut Log) -> Result<(), Memory>
    requires entries { log.old.entries.items ≡ [] }
    requires clients { log.old.clients.items ≡ [] }

    ensures whole { OnOk result (length log.new.entries.items ≡ length events.now) }
    ensures true_reports { OnOk result (AtEach IsTrueEntry start events.now log.new.entries.items) }
    ensures alike { OnOk result (AreAlike log.new.entries.items) }
    ensures needed { OnOk result (AtEach IsNeededEntry start events.now log.new.entries.items) }
    ensures progress { OnOk result (AllReport events.now log.new.entries.items) }
    ensures checked { OnOk result (AtEach IsExactEntry start events.now log.new.entries.items) }
    ensures distinct { OnOk result (HasDistinctTags (after_all start events.now log.new.entries.items).book) }
    ensures honest { OnOk result (AtEach IsHonestEntry start events.now log.new.entries.items) }
    ensures clients { AreOfBook log.new.clients.items (after_all start events.now log.new.entries.items).book }
    ensures logged { OnOk result (Runs start [] events.now log.new.entries.items log.new.clients.items) }
    ensures memory { OnErr result (IsBeginning events.now log.new.entries.items log.new.clients.items) }
{
    run_with(alloc, events, Handing::Pieces(piece), log)
}

/// Runs the events as `run` does, and hands each answer over as `how` says. Its contract has what that of `run` says of the log. It adds
/// all that the contracts of the clients' calls say of each event, and what each client that the log leaves knows.
pub fn run_with(alloc: Global, events: &[Event], how: Handing, log: &mut Log) -> Result<(), Memory>
    requires entries { log.old.entries.items ≡ [] }
    requires clients { log.old.clients.items ≡ [] }
    ensures truth { OnOk result (IsTrueLog events.now log.new.entries.items log.new.clients.items) }
    ensures logged { OnOk result (Runs start [] events.now log.new.entries.items log.new.clients.items) }
    ensures kept { OnOk result (RunsKeeping start [] events.now log.new.entries.items log.new.clients.items) }

    // What a client holds in part, of directories, arrays and samples, is of the publication too, so that the client can go on.
    ensures agree { AllAgree log.new.clients.items (after_all start events.now log.new.entries.items).book }
    ensures left { AreOfBook log.new.clients.items (after_all start events.now log.new.entries.items).book }

    // After an error the event that isn't logged was done as a whole, or was left within one of its calls.
    ensures memory { OnErr result (IsBeginning events.now log.new.entries.items log.new.clients.items) }
    ensures stops { OnErr result (StopsWithin events.now log.new.entries.items log.new.clients.items) }
{
    lower_laws();
    let mut server = Server::new(alloc, 0);
    let mut places = Vec::new(alloc);
    for event in events {
        let clients = &mut log.clients;
        let entry = step(
            alloc,
            &mut server,
            &log.entries,
            &places,
            clients,
            event,
            how,
        )?;
        keep(&mut places, log.entries.len(), &entry.effect)?;
        log.entries.push(entry)?;
    }
    Ok(())
}

/// States what the crates below say of their definitions.
fn lower_laws()
    ensures { LowerLaws }
{
    law_tags_tell_publications();
    law_equal_reports_are_true();
    law_agreement_is_seen();
    law_one_geo();
    law_publications_replace();
    law_clients_are_answered();
    law_fronts_are_read();
    law_honesty_is_kept();
    law_one_window();
    law_left_never_grows();
    law_nothing_left_is_reported();
    law_needed_are_asked();
    law_whole_answers_bring_on();
}

/// Does one event, after the entries `entries`. `places` are the indices of those that have an answer. Returns the event's entry. Fails
/// where no memory is left.
fn step(
    alloc: Global,
    server: &mut Server,
    entries: &[Entry],
    places: &[usize],
    clients: &mut Vec<Client>,
    event: &Event,
    how: Handing,
) -> Result<Entry, Memory>
    ensures ok { IfOk result (λ n. (w : World) → IsState w server.old entries.now places.now →
        Does w clients.old.items event.now n clients.new.items server.new) }
    ensures err { OnErr result ((w : World) → IsState w server.old entries.now places.now →
        StopsStep w clients.old.items event.now clients.new.items) }
{
    let number = places.len();
    match event {
        Event::Publish { name, file } => publish(alloc, server, name, file),
        Event::Epoch(epoch) => Ok(restart(alloc, server, *epoch)),
        Event::NewClient { name, blocks } => make_client(alloc, clients, name, *blocks),
        Event::Open { client, query } => {
            call_at(
                alloc,
                server,
                number,
                clients,
                *client,
                Call::Open(*query),
                how,
            )
        }
        Event::Forget(client) => call_at(
            alloc,
            server,
            number,
            clients,
            *client,
            Call::Forget,
            how,
        ),
        Event::Ask(message) => ask(server, number, message),
        Event::AskFrom(client) => call_at(
            alloc,
            server,
            number,
            clients,
            *client,
            Call::AskFrom,
            how,
        ),
        Event::Deliver {
            client,
            answer,
            cut,
        } => {
            let answer = answer_of(entries, places, *answer);
            deliver_at(alloc, server, answer, clients, *client, *cut, how)
        }
        Event::Exchange(client) => {
            call_at(alloc, server, number, clients, *client, Call::Exchange, how)
        }
        Event::Check(client) => check_at(server, number, clients, *client),
    }
}
