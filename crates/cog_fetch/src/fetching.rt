//! Fetching: a client's requests are sent and their answers taken, until its report stands.
ghost use Rattle.std.specs.Prelude.{◌≡◌, ◌+◌, ◌<◌, ◌≤◌, ◌^◌, ◌⊎◌, IfOk, IfSome, IsSome, IsTrue, OnErr, OnOk, Bool, true, false};
ghost use Rattle.std.specs.Prelude.{if◌then◌else◌, option_copied};
ghost use Rattle.std.specs.Borrow.{sem};
ghost use Rattle.std.specs.Io.BufRead.{Rests};
ghost use Rattle.cog_client.specs.contracts.client.Client.{the_row};
ghost use Rattle.tiff_dir.specs.declared.query.Query.{Query};
ghost use Rattle.tiff_dir.specs.Query.{cost};
ghost use Rattle.http_range.specs.Book.{Book, HasDistinctTags, In, Publication};
ghost use Rattle.cog_client.specs.Client.{ClientAgrees, ClientState, name_of, query_of, report_of};
ghost use Rattle.cog_client.specs.Calls.{IsIdle};
ghost use Rattle.cog_client.specs.Keeps.{OpensKeeping, Stands};
ghost use Rattle.cog_client.specs.Serves.{Serves};
ghost use Rattle.cog_client.specs.Transport.{AnswersOn, FetchesAll, StopsFetching, StopsOnce, IsInVain, IsTrueOfBooks, KeepsReading, UnlessTold};
ghost use Rattle.cog_fetch.specs.Takes.{AllOf, ExchangesOnce, TakenOf};

use crate::exchange::{Exchange, InPieces, Whole};
use cog_client::{Client, FetchError, Pieces, Report, Transport, law_whole_answers_report};
use http_range::law_fronts_are_read;

/// Makes one exchange, if the client has a request, and returns whether it had one. At most `later` exchanges follow.
/// Fails with `Memory` alone.
fn exchange_once<S, E: Exchange<S>>(
    client: &mut Client,
    source: &mut S,
    later: u32,
) -> Result<bool, FetchError>
    requires { E.count source.old + 1 < 2 ^ 64 }
    ensures keeps { KeepsReading (E.speaks_for source.old) (E.speaks_for source.new) client.old client.new }
    ensures fetches { IfOk result (λ asked. ExchangesOnce (E.came source.old (E.has_lost source.new)) asked client.old client.new) }
    ensures stops { OnErr result (StopsOnce (E.came source.old true) client.old client.new) }
    ensures told { IsTrue (E.has_lost source.old) → IsTrue (E.has_lost source.new) }
    ensures goes_on { (lost : Bool) → AnswersOn (E.came source.old lost) (E.came source.new lost) }
    ensures counted { IfOk result (λ asked. E.count source.new
        ≡ (if asked then E.count source.old + 1 else E.count source.old)) }
    ensures few { E.count source.new ≤ E.count source.old + 1 }
    ensures silent { IfOk result (λ asked. asked ≡ false → IsIdle client.new) }
    ensures idle { IsIdle client.old
        → (E.count source.new ≡ E.count source.old) × OnOk result (IsIdle client.new) }
    ensures stands { IsSome (report_of client.old) → OnOk result (report_of client.new ≡ report_of client.old) }
{
    let request = client.request()?;
    let Some(request) = request else {
        return Ok(false);
    };
    E::exchange(client, source, &request, later)?;
    Ok(true)
}

/// Makes `tries` exchanges, or fewer where the client has no request any more. Fails with `Memory` alone.
fn exchange_up_to<S, E: Exchange<S>>(
    client: &mut Client,
    source: &mut S,
    tries: u32,
) -> Result<(), FetchError>
    requires { E.count source.old + tries < 2 ^ 64 }
    ensures keeps { KeepsReading (E.speaks_for source.old) (E.speaks_for source.new) client.old client.new }
    ensures fetches { OnOk result (FetchesAll (E.came source.old (E.has_lost source.new)) (E.count source.old)
        (E.count source.new) client.old client.new) }
    ensures stops { OnErr result (StopsFetching (E.came source.old true) client.old client.new) }
    ensures told { IsTrue (E.has_lost source.old) → IsTrue (E.has_lost source.new) }
    ensures goes_on { (lost : Bool) → AnswersOn (E.came source.old lost) (E.came source.new lost) }
    ensures ends { OnOk result ((E.count source.new ≡ E.count source.old + tries) ⊎ IsIdle client.new) }
    ensures few { E.count source.new ≤ E.count source.old + tries }
    ensures idle { IsIdle client.old → E.count source.new ≡ E.count source.old }
    ensures stands { IsSome (report_of client.old) → OnOk result (report_of client.new ≡ report_of client.old) }
{
    E::more();
    for done in 0..tries {
        if !exchange_once::<S, E>(client, source, tries - done - 1)? {
            return Ok(());
        }
    }
    Ok(())
}

/// Sends the client's requests over a transport, and gives it what comes of the answers, until a report stands. Makes
/// at most `tries` exchanges, and counts those that bring nothing, too. Returns the report, or `None` where none
/// stands. Fails with `Memory` alone, and the client can go on from there.
pub fn fetch<'c, T: Transport>(
    client: &'c mut Client,
    transport: &mut T,
    tries: u32,
) -> Result<Option<&'c Report>, FetchError>
    requires { T.count transport.old + tries < 2 ^ 64 }

    // A client that reads a book for which the transport speaks still reads it afterwards. This holds whatever was lost
    // or cut, and after `Memory`, too. The report that is returned is the client's standing one. The client was asked
    // for its request, and took what came of the answer, as often as the transport counts. Nothing else was done to it.
    // No answer was lost unless the transport reports it. `Memory` came in the last of some such exchanges. Nothing is
    // said of their number, and of losses in them.
    ensures* client { sem 𝓛 (Rests the_row client.entry (λ c.
        KeepsReading (T.speaks_for transport.old) (T.speaks_for transport.new) client.old c
        × IfOk result (λ report. Stands c (option_copied report)
        × FetchesAll (UnlessTold (T.has_lost transport.new)
        (T.answers transport.old)) (T.count transport.old) (T.count transport.new) client.old c)
        × OnErr result (StopsFetching (T.answers transport.old) client.old c))) }

    // A report is true of one publication of that book: the one whose ETag it has.
    ensures report { IfOk result (λ report.
        IfSome (option_copied report) (IsTrueOfBooks (T.speaks_for transport.old) client.old)) }

    // There is none only after `tries` exchanges, or without a query.
    ensures none { IfOk result (λ report. report ≡ None
        → IsInVain (query_of client.old) tries (T.count transport.old) (T.count transport.new)) }

    // There is one after an opening, on these conditions. The client agreed with a book, of which no two publications
    // have one ETag. The transport lost nothing. It brings answers of one publication of that book alone, under the
    // client's name, and each has all that is asked for, or the whole file. `tries` is at least what the query costs,
    // and one more.
    ensures reports { (book : Book) (p : Publication) (q : Query) (before : ClientState) → HasDistinctTags book → In p book
        → p.name ≡ name_of before
        → ClientAgrees before book → OpensKeeping q before client.old → Serves (T.answers transport.old) p
        → T.has_lost transport.new ≡ false
        → cost p.file q + 1 ≤ tries → IfOk result (λ report. IsSome (option_copied report)) }

    // A loss stays reported, and what may come later might have come now.
    ensures told { IsTrue (T.has_lost transport.old) → IsTrue (T.has_lost transport.new) }
    ensures goes_on { AnswersOn (T.answers transport.old) (T.answers transport.new) }
    ensures few { T.count transport.new ≤ T.count transport.old + tries }

    // Where there is no query, or the report stands already, nothing is sent, and that report is returned.
    ensures idle { IsIdle client.old → T.count transport.new ≡ T.count transport.old }
    ensures stands { IsSome (report_of client.old)
        → IfOk result (λ report. option_copied report ≡ report_of client.old) }
{
    law_whole_answers_report();
    law_fronts_are_read();
    exchange_up_to::<T, Whole>(client, transport, tries)?;
    Ok(client.report())
}

/// Sends the client's requests to a source, and feeds it what comes of the answers, piece by piece, until a report
/// stands. Makes at most `tries` exchanges, and counts those that bring nothing, too. An answer is taken to its end, to
/// a loss, or up to `ANSWER_LIMIT` bytes, in pieces of at most `PIECE_ROOM` bytes. Returns the report, or `None` where
/// none stands. Fails with `Memory` alone, and the client can go on from there.
pub fn fetch_pieces<'c, P: Pieces>(
    client: &'c mut Client,
    pieces: &mut P,
    tries: u32,
) -> Result<Option<&'c Report>, FetchError>
    requires { P.count pieces.old + tries < 2 ^ 64 }

    // A client that reads a book for which the source speaks still reads it afterwards. This holds whatever was lost or
    // cut, and after `Memory`, too. The report that is returned is the client's standing one. The client was asked for
    // its request, and took what came of the answer, as often as the source counts. Nothing else was done to it. Where
    // the source speaks for any book, and reports no loss, each answer was taken whole, up to `ANSWER_LIMIT` bytes.
    // `Memory` came in the last of some such exchanges. Nothing is said of their number, and of losses in them.
    ensures* client { sem 𝓛 (Rests the_row client.entry (λ c.
        KeepsReading (P.speaks_for pieces.old) (P.speaks_for pieces.new) client.old c
        × IfOk result (λ report. Stands c (option_copied report)
        × FetchesAll (TakenOf (P.speaks_for pieces.old) (P.answers pieces.old)
        (P.has_lost pieces.new)) (P.count pieces.old) (P.count pieces.new) client.old c)
        × OnErr result (StopsFetching (TakenOf (P.speaks_for pieces.old) (P.answers pieces.old) true) client.old c))) }

    // A report is true of one publication of that book: the one whose ETag it has.
    ensures report { IfOk result (λ report.
        IfSome (option_copied report) (IsTrueOfBooks (P.speaks_for pieces.old) client.old)) }

    // There is none only after `tries` exchanges, or without a query.
    ensures none { IfOk result (λ report. report ≡ None
        → IsInVain (query_of client.old) tries (P.count pieces.old) (P.count pieces.new)) }

    // There is one after an opening, on these conditions. The client agreed with a book for which the source speaks, and
    // of which no two publications have one ETag. The source lost nothing. It brings answers of one publication of that
    // book alone, under the client's name. The first `ANSWER_LIMIT` bytes of each have all that is asked for, or the
    // whole file. `tries` is at least what the query costs, and one more.
    ensures reports { (book : Book) (p : Publication) (q : Query) (before : ClientState) → HasDistinctTags book → In p book
        → p.name ≡ name_of before
        → ClientAgrees before book → P.speaks_for pieces.old book → OpensKeeping q before client.old
        → Serves (AllOf (P.answers pieces.old)) p
        → P.has_lost pieces.new ≡ false → cost p.file q + 1 ≤ tries → IfOk result (λ report. IsSome (option_copied report)) }

    // A loss stays reported, and what is taken later might have been taken now.
    ensures told { IsTrue (P.has_lost pieces.old) → IsTrue (P.has_lost pieces.new) }
    ensures goes_on { (lost : Bool) → AnswersOn (TakenOf (P.speaks_for pieces.old) (P.answers pieces.old) lost)
        (TakenOf (P.speaks_for pieces.new) (P.answers pieces.new) lost) }
    ensures few { P.count pieces.new ≤ P.count pieces.old + tries }

    // Where there is no query, or the report stands already, nothing is sent, and that report is returned.
    ensures idle { IsIdle client.old → P.count pieces.new ≡ P.count pieces.old }
    ensures stands { IsSome (report_of client.old)
        → IfOk result (λ report. option_copied report ≡ report_of client.old) }
{
    law_whole_answers_report();
    law_fronts_are_read();
    exchange_up_to::<P, InPieces>(client, pieces, tries)?;
    Ok(client.report())
}
