//! How `cogread` reads: how many exchanges it makes, what is asked of the file, and the text of its report.
ghost use Rattle.std.specs.Prelude.{◌≡◌, ◌≢◌, ℕ, ◌+◌, ◌<◌, ◌≤◌, ◌^◌, ◌⊎◌, false, true, Err, IfErr, IfOk, IfSome, IsSome, IsSomeAnd, List, None, OnErr, OnOk, Option, Some, min};
ghost use Rattle.tiff_dir.specs.declared.query.Query.{Query};
ghost use Rattle.tiff_dir.specs.declared.query.Query.TheVariants.{Info as AnInfo};
ghost use Rattle.tiff_dir.specs.Query.{cost};
ghost use Rattle.http_range.specs.Book.{Book, HasDistinctTags, Publication};
ghost use Rattle.http_range.specs.declared.reading.Why.{Why};
ghost use Rattle.cog_client.specs.Calls.{IsIdle};
ghost use Rattle.cog_client.specs.declared.report.Report.{Report};
ghost use Rattle.cog_client.specs.Client.{name_of, query_of, report_of, revision_of, tag_of, ClientAgrees, ClientState};
ghost use Rattle.cog_client.specs.Keeps.{OpensKeeping, RequestsKeeping, Stands};
ghost use Rattle.cog_client.specs.Transport.{Anything, FetchesAll, FetchesSome, KeepsReading, ReadsBook, StopsFetching};
ghost use Rattle.cog_fetch.specs.Takes.{TakenOf};
ghost use Rattle.read_progress.specs.Noted.{IsRefused, source_of};
ghost use Rattle.read_command.specs.declared.error.ReadError.TheVariants.{NoReport, NotUsed};
ghost use Rattle.read_command.specs.declared.reading.Asked.TheVariants.{Part as APart};
ghost use Rattle.read_command.specs.Exchanges.{AsksOf, CostsWithin, Ends, EndsUnused, GoesOn, IsAnswered, IsAtOnce, IsUnused, IsWindowFor, ReadsSome, ServesFile, StillReads, StopsReading};
ghost use Rattle.read_command.specs.Text.{GivesWindow, HasNothing, IsOfFile, IsOfPartBy, IsWritten, StaysWithin, WritesTrue};

use crate::error::ReadError;
use crate::part::{Given, NotGiven, Part};
use crate::text::Text;
use cog_client::{Client, FetchError, Outcome, Pieces, Query, Report, Tag, Why};
use cog_fetch::fetch_pieces;
use http_range::law_fronts_are_read;
use read_progress::{Noted, Verbosity};
use std::rt::Clock;
use text_description::{Description, Form, WorldFile};
use text_report::{FaultSentence, info_text, picture_head};

/// Says what is asked of a file.
#[derive(Clone, Copy, Debug)]
pub enum Asked {
    /// The answer to a query.
    Query(Query),
    /// A part of a level. Info is read first, since it says which window that is.
    Part(Part),
    /// What the file says of itself.
    Description(Form),
}

/// Holds how exchanges are made: at most `requests` in all.
#[derive(Drop)]
pub struct Exchanges<'a, R> {
    pub rt: &'a R,
    pub requests: u32,
    /// Whether a URL or a path names the file. Then the first answer ends the exchanges, if no later one is expected to be used. The
    /// program's line explains a fault then, and so nothing else does.
    pub is_url: bool,
}

/// Returns how many of `requests` exchanges are left.
fn left<R: Eprint + Clock, P: Pieces>(noted: &Noted<'_, '_, R, P>, requests: u32) -> u32
    ensures counted { P.count (source_of noted.now) + result < 2 ^ 64 }
    ensures few { StaysWithin requests (P.count (source_of noted.now)) (P.count (source_of noted.now) + result) }
    ensures all { requests ≤ P.count (source_of noted.now) + result }
{
    let starts = noted.starts();
    if starts < u64::from(requests) {
        requests - starts as u32
    } else {
        0
    }
}

impl<R: Eprint + Clock + AllocGlobal> Exchanges<'_, R> {
    /// Makes exchanges until a report stands, or none is left. What is known already needs none.
    fn fetch<P: Pieces>(
        &self,
        client: &mut Client,
        noted: &mut Noted<'_, '_, R, P>,
    ) -> Result<(), FetchError>
        ensures keeps { KeepsReading (P.speaks_for (source_of noted.old)) (P.speaks_for (source_of noted.new)) client.old client.new }
        ensures few { StaysWithin self.now.requests (P.count (source_of noted.old)) (P.count (source_of noted.new)) }
        ensures more { OnOk result (P.count (source_of noted.old) ≤ P.count (source_of noted.new)) }
        // Without an exchange the client reads the same revision.
        ensures still { OnOk result (P.count (source_of noted.new) ≡ P.count (source_of noted.old)
            → revision_of client.new ≡ revision_of client.old) }
        ensures ends { OnOk result ((self.now.requests ≤ P.count (source_of noted.new)) ⊎ IsIdle client.new) }
        ensures last { self.now.requests ≤ P.count (source_of noted.old)
            → OnOk result ((request : Option (List ℕ)) × RequestsKeeping client.old request client.new) }
        ensures goes_on { GoesOn (P.speaks_for (source_of noted.old)) (P.speaks_for (source_of noted.new))
            (P.answers (source_of noted.old)) (P.answers (source_of noted.new)) }
        // `goes_on`: what the source brings later it might have brought before. `reports`: after an opening a report stands, if the source
        // serves one file and loses nothing, and at least cost + 1 exchanges are left.
        ensures reports { (p : Publication) (q : Query) (before : ClientState)
            → ServesFile (P.speaks_for (source_of noted.old)) (P.answers (source_of noted.old)) before p
            → OpensKeeping q before client.old → P.has_lost (source_of noted.new) ≡ false
            → P.count (source_of noted.old) + cost p.file q + 1 ≤ self.now.requests → OnOk result (IsSome (report_of client.new)) }

        // `taken`: where an exchange is left, the client makes as many exchanges as the source counts, and nothing else is done to it. Each
        // is a request and what comes of its answer. `fetches`: in any case it makes some exchanges and nothing else, since a request for
        // which no exchange is left has no answer. `stops`: where no memory was left, that was in an exchange after some such ones.
        ensures taken { P.count (source_of noted.old) < self.now.requests → OnOk result (FetchesAll
            (TakenOf (P.speaks_for (source_of noted.old)) (P.answers (source_of noted.old)) (P.has_lost (source_of noted.new)))
            (P.count (source_of noted.old)) (P.count (source_of noted.new)) client.old client.new) }
        ensures fetches { OnOk result (FetchesSome Anything client.old client.new) }
        ensures stops { OnErr result (StopsFetching Anything client.old client.new) }
    {
        let left = left(noted, self.requests);
        if left == 0 {
            client.request()?;
            return Ok(());
        }
        fetch_pieces(client, noted, left)?;
        Ok(())
    }

    /// Reads Info, and then the window that a part of a level is by it. Where the file was replaced between, it begins again. Where Info
    /// gives no window or no world file, it ends with Info. Returns the world file of the window, if one is asked for.
    fn fetch_part<P: Pieces>(
        &self,
        client: &mut Client,
        noted: &mut Noted<'_, '_, R, P>,
        part: Part,
    ) -> Result<Option<WorldFile>, FetchError>
        ensures reads { StillReads (P.speaks_for (source_of noted.old)) (P.speaks_for (source_of noted.new)) client.old client.new }
        ensures asks { (book : Book) → ReadsBook (P.speaks_for (source_of noted.old)) client.old book
            → IfOk result (AsksOf book (APart part) client.new) }
        ensures few { StaysWithin self.now.requests (P.count (source_of noted.old)) (P.count (source_of noted.new)) }

        ensures ends { OnOk result (Ends (APart part) self.now.requests (P.count (source_of noted.new)) client.old client.new) }
        ensures answered { (book : Book) → ReadsBook (P.speaks_for (source_of noted.old)) client.old book
            → OnOk result (IsAnswered (APart part) self.now.requests (P.count (source_of noted.new)) client.new) }

        // `queries`: queries for what is asked are opened one after another, with exchanges for each, and nothing else is done to the
        // client. `stops`: where no memory was left, that was in the exchanges for the last of them.
        ensures queries { OnOk result (ReadsSome (APart part) client.old client.new) }
        ensures stops { OnErr result (StopsReading (APart part) client.old client.new) }
    {
        for _ in 0..self.requests {
            client.open(Query::Info);
            self.fetch(client, noted)?;
            let Some((tag, given)) = given_told(client, part) else {
                return Ok(None);
            };
            client.open(given.window);
            self.fetch(client, noted)?;
            if !has_another_tag(client, &tag) {
                return Ok(given.world);
            }
        }
        client.open(Query::Info);
        Ok(None)
    }

    /// Reads what is asked over `noted`. Returns the world file of a window, if one is asked for.
    fn fetch_asked<P: Pieces>(
        &self,
        client: &mut Client,
        noted: &mut Noted<'_, '_, R, P>,
        asked: Asked,
    ) -> Result<Option<WorldFile>, FetchError>
        ensures reads { StillReads (P.speaks_for (source_of noted.old)) (P.speaks_for (source_of noted.new)) client.old client.new }
        ensures asks { (book : Book) → ReadsBook (P.speaks_for (source_of noted.old)) client.old book
            → IfOk result (AsksOf book asked client.new) }
        ensures few { StaysWithin self.now.requests (P.count (source_of noted.old)) (P.count (source_of noted.new)) }
        ensures ends { OnOk result (Ends asked self.now.requests (P.count (source_of noted.new)) client.old client.new) }
        ensures answered { (book : Book) → ReadsBook (P.speaks_for (source_of noted.old)) client.old book
            → OnOk result (IsAnswered asked self.now.requests (P.count (source_of noted.new)) client.new) }
        ensures goes_on { IsAtOnce asked → GoesOn (P.speaks_for (source_of noted.old)) (P.speaks_for (source_of noted.new))
            (P.answers (source_of noted.old)) (P.answers (source_of noted.new)) }
        ensures reports { IsAtOnce asked → (p : Publication)
            → ServesFile (P.speaks_for (source_of noted.old)) (P.answers (source_of noted.old)) client.old p
            → P.has_lost (source_of noted.new) ≡ false
            → CostsWithin asked p.file 1 (P.count (source_of noted.old)) self.now.requests → OnOk result (IsSome (report_of client.new)) }

        // `queries`: queries for what is asked are opened one after another, with exchanges for each, and nothing else is done to the
        // client. `stops`: where no memory was left, that was in the exchanges for the last of them.
        ensures queries { OnOk result (ReadsSome asked client.old client.new) }
        ensures stops { OnErr result (StopsReading asked client.old client.new) }
    {
        let query = match asked {
            Asked::Query(query) => query,
            Asked::Description(_) => Query::Info,
            Asked::Part(part) => return self.fetch_part(client, noted, part),
        };
        client.open(query);
        self.fetch(client, noted)?;
        Ok(None)
    }

    /// Makes the first exchange, if one is allowed. Returns why its answer isn't used, where no later one is expected to be.
    fn first_refusal<P: Pieces>(
        &self,
        client: &mut Client,
        noted: &mut Noted<'_, '_, R, P>,
        asked: Asked,
    ) -> Result<Option<Why>, FetchError>
        ensures reads { StillReads (P.speaks_for (source_of noted.old)) (P.speaks_for (source_of noted.new)) client.old client.new }
        ensures few { StaysWithin (min self.now.requests 1) (P.count (source_of noted.old)) (P.count (source_of noted.new)) }
        ensures goes_on { IsAtOnce asked → GoesOn (P.speaks_for (source_of noted.old)) (P.speaks_for (source_of noted.new))
            (P.answers (source_of noted.old)) (P.answers (source_of noted.new)) }
        ensures refused { IfOk result (λ refusal. IfSome refusal (λ why. IsRefused why noted.new)) }
    {
        let first = Exchanges {
            rt: self.rt,
            requests: self.requests.min(1),
            is_url: self.is_url,
        };
        first.fetch_asked(client, noted, asked)?;
        Ok(noted.lasting_refusal())
    }

    /// Makes the first exchange where a URL names the file. Fails with `NotUsed` where its answer isn't used and no later one is expected
    /// to be.
    fn begin<P: Pieces>(
        &self,
        client: &mut Client,
        noted: &mut Noted<'_, '_, R, P>,
        asked: Asked,
    ) -> Result<(), ReadError>
        ensures reads { StillReads (P.speaks_for (source_of noted.old)) (P.speaks_for (source_of noted.new)) client.old client.new }
        ensures few { StaysWithin self.now.requests (P.count (source_of noted.old)) (P.count (source_of noted.new)) }
        ensures once { StaysWithin (min self.now.requests 1) (P.count (source_of noted.old)) (P.count (source_of noted.new)) }
        ensures goes_on { IsAtOnce asked → GoesOn (P.speaks_for (source_of noted.old)) (P.speaks_for (source_of noted.new))
            (P.answers (source_of noted.old)) (P.answers (source_of noted.new)) }
        ensures refused { IfErr result (EndsUnused self.now.is_url (P.count (source_of noted.old)) (P.count (source_of noted.new))
            noted.new) }
    {
        if !self.is_url {
            return Ok(());
        }
        match self.first_refusal(client, noted, asked)? {
            Some(why) => Err(ReadError::NotUsed(why)),
            None => Ok(()),
        }
    }

    /// Reads what is asked over `noted`. Where a URL names the file, the first answer ends it, if no later one is expected to be used.
    /// Returns the world file of a window, if one is asked for.
    fn fetch_used<P: Pieces>(
        &self,
        client: &mut Client,
        noted: &mut Noted<'_, '_, R, P>,
        asked: Asked,
    ) -> Result<Option<WorldFile>, ReadError>
        ensures reads { StillReads (P.speaks_for (source_of noted.old)) (P.speaks_for (source_of noted.new)) client.old client.new }
        ensures asks { (book : Book) → ReadsBook (P.speaks_for (source_of noted.old)) client.old book
            → IfOk result (AsksOf book asked client.new) }
        ensures few { StaysWithin self.now.requests (P.count (source_of noted.old)) (P.count (source_of noted.new)) }
        ensures ends { IsAtOnce asked → OnOk result
            ((self.now.requests ≤ P.count (source_of noted.new)) ⊎ IsSome (report_of client.new)) }
        ensures answered { (book : Book) → ReadsBook (P.speaks_for (source_of noted.old)) client.old book
            → OnOk result (IsAnswered asked self.now.requests (P.count (source_of noted.new)) client.new) }
        ensures reports { IsAtOnce asked → (p : Publication)
            → ServesFile (P.speaks_for (source_of noted.old)) (P.answers (source_of noted.old)) client.old p
            → P.has_lost (source_of noted.new) ≡ false
            → CostsWithin asked p.file 2 (P.count (source_of noted.old)) self.now.requests → OnOk result (IsSome (report_of client.new)) }
        ensures refused { IfErr result (EndsUnused self.now.is_url (P.count (source_of noted.old)) (P.count (source_of noted.new))
            noted.new) }
    {
        self.begin(client, noted, asked)?;
        Ok(self.fetch_asked(client, noted, asked)?)
    }

    /// Reads what is asked over `noted`, and returns its text: a picture, whose samples the client lends, the lines of Info, or a
    /// description. It prints why there is no text, as the verbosity of `noted` says. Fails with `OfFile` where the report is a fault, and
    /// with `NoReport` where no report has what is asked. Fails with `NoWindow` where a rectangle gives no window of the file, and with
    /// `NoWorld` where it gives no world file. Fails with `NotUsed` where `is_url` is set, and the first answer can't be used for a reason
    /// that is expected to stay. Fails with `Memory` where no memory is left.
    pub fn text<'c, P: Pieces>(
        &self,
        client: &'c mut Client,
        noted: &mut Noted<'_, '_, R, P>,
        asked: Asked,
    ) -> Result<Text<'c>, ReadError>
        // What is written is true of one publication of each book that the client reads and the source speaks for.
        ensures truth { (book : Book)
            → ReadsBook (P.speaks_for (source_of noted.old)) client.old book → WritesTrue (name_of client.old) book asked result }
        // The source counts at most `requests` exchanges, unless it counted more before. `NoReport` is returned only after all of them. Of
        // a part of a level, which is read by several queries, this is said where the source speaks for a book that the client reads.
        ensures few { StaysWithin self.now.requests (P.count (source_of noted.old)) (P.count (source_of noted.new)) }
        ensures none { IsAtOnce asked → result ≡ Err NoReport
            → self.now.requests ≤ P.count (source_of noted.new) }
        ensures used_up { (book : Book) → ReadsBook (P.speaks_for (source_of noted.old)) client.old book → result ≡ Err NoReport
            → self.now.requests ≤ P.count (source_of noted.new) }
        // Of a query or a description there is a report on these conditions. The source serves one file of a book that the client reads.
        // It loses nothing. At least cost + 2 exchanges are left: the first exchange of a URL may be one that the cost doesn't count.
        ensures reports { IsAtOnce asked → (p : Publication)
            → ServesFile (P.speaks_for (source_of noted.old)) (P.answers (source_of noted.old)) client.old p
            → P.has_lost (source_of noted.new) ≡ false
            → CostsWithin asked p.file 2 (P.count (source_of noted.old)) self.now.requests → result ≢ Err NoReport }
        // `NotUsed` is returned only where a URL names the file, after one exchange at most, and gives the reason of the answer that came
        // then.
        ensures refused { (why : Why) → result ≡ Err (NotUsed why)
            → IsUnused self.now.is_url (P.count (source_of noted.old)) (P.count (source_of noted.new)) noted.new why }
    {
        let fetched = self.fetch_used(client, noted, asked);
        noted.end_line();
        let world = fetched?;
        match self.text_at(client, asked, noted.verbosity()) {
            Ok(text) => Ok(Text { world, ..text }),
            Err(error) => Err(error),
        }
    }

    /// Returns the text of the report that stands. Fails with `NoReport` only where none stands, or where it is one of Info that gives the
    /// window of what is asked.
    fn text_at<'c>(
        &self,
        client: &'c Client,
        asked: Asked,
        verbosity: Verbosity,
    ) -> Result<Text<'c>, ReadError>
        ensures written { IsOfFile result
            → (r : Report) × Stands client.now (Some r) × IsWritten asked r.tag r.outcome result }
        ensures left { result ≡ Err NoReport → HasNothing asked (report_of client.now) }
        ensures info { (book : Book) → ClientAgrees client.now book
            → IfSome (report_of client.now) (λ r. GivesWindow asked r.outcome → query_of client.now ≡ Some AnInfo) }
        ensures says { IfSome (report_of client.now) (λ r. IsWritten asked r.tag r.outcome result) }
        ensures silent { report_of client.now ≡ None → result ≡ Err NoReport }
        ensures used { (why : Why) → result ≢ Err (NotUsed why) }
    {
        let Some(report) = client.report() else {
            self.tell_no_report(verbosity);
            return Err(ReadError::NoReport);
        };
        self.text_of(client, report, asked, verbosity)
    }

    /// Prints that no report stands, where each exchange is printed.
    fn tell_no_report(&self, verbosity: Verbosity) {
        if verbosity == Verbosity::Each {
            let requests = self.requests;
            let _ = eprintln!(self.rt;
                "cogread: no report, and --requests allows no more than {requests}"
            );
        }
    }

    /// Returns the text of a client's report. Fails with `OfFile` where it is a fault, and prints that.
    fn text_of<'c>(
        &self,
        client: &Client,
        report: &'c Report,
        asked: Asked,
        verbosity: Verbosity,
    ) -> Result<Text<'c>, ReadError>
        requires { report_of client.now ≡ Some report.now }
        ensures written { IsWritten asked report.now.tag report.now.outcome result }
        ensures used { (why : Why) → result ≢ Err (NotUsed why) }
    {
        let alloc = self.rt.alloc();
        match &report.outcome {
            Outcome::Window(window) => Ok(Text {
                head: picture_head(alloc, window)?,
                samples: &window.pixels,
                world: None,
            }),
            Outcome::Info(info) => match asked {
                Asked::Query(_) => Ok(Text::from(info_text(alloc, &report.tag, info)?)),
                Asked::Description(form) => match Description::of(alloc, client)? {
                    Some(description) => {
                        Ok(Text::from(description.text(alloc, form)?.into_bytes()))
                    }
                    None => Err(ReadError::NoReport),
                },
                Asked::Part(part) => match part.given(info) {
                    Ok(_) => Err(ReadError::NoReport),
                    Err(NotGiven::NoWindow(why)) => Err(ReadError::NoWindow(why)),
                    Err(NotGiven::NoWorld) => Err(ReadError::NoWorld),
                },
            },
            Outcome::Fault(fault) => {
                if verbosity == Verbosity::Each && !self.is_url {
                    let _ = eprintln!(self.rt; "cogread: {}", FaultSentence(*fault));
                }
                Err(ReadError::OfFile(*fault))
            }
        }
    }
}

/// Returns the ETag of a client's report of Info, and what that gives for a part of a level. Where the level isn't there, the window isn't,
/// either. Returns `None` where no report of Info stands, and where it gives no window or no world file.
#[tactic(auto, using(crate::proofs::PartLemmas::gives_none, crate::proofs::PartLemmas::window_other))]
fn given_told(client: &Client, part: Part) -> Option<(Tag, Given)>
    ensures given { (book : Book) → HasDistinctTags book → ClientAgrees client.now book
        → IfSome result (λ told. IsOfPartBy book told.0 part told.1.window told.1.world) }
    ensures asked { IfSome result (λ told. IsWindowFor part.area part.level told.1.window) }
    ensures window { IfSome result (λ told. told.1.window ≢ AnInfo) }
    ensures told { IfSome result (λ told. IsSomeAnd (report_of client.now) (λ r. r.tag ≡ told.0)) }
    ensures tagged { (book : Book) → ClientAgrees client.now book → IfSome result (λ told. tag_of client.now ≡ Some told.0) }
    ensures none { result ≡ None → IfSome (report_of client.now) (λ r. GivesWindow (APart part) r.outcome → ⊥) }
{
    law_fronts_are_read();
    let report = client.report()?;
    let Outcome::Info(info) = &report.outcome else {
        return None;
    };
    match part.given(info) {
        Ok(given) => Some((report.tag.copy(), given)),
        Err(_) => None,
    }
}

/// Returns whether a client's report has another ETag than `tag`. It has none where no report stands.
fn has_another_tag(client: &Client, tag: &Tag) -> bool
    ensures same { result ≡ false → IfSome (report_of client.now) (λ r. r.tag ≡ tag.now) }
    ensures other { result ≡ true → IsSomeAnd (report_of client.now) (λ r. r.tag ≢ tag.now) }
    ensures tagged { (book : Book) → ClientAgrees client.now book → result ≡ true → tag_of client.now ≢ Some tag.now }
{
    match client.report() {
        Some(report) => report.tag != *tag,
        None => false,
    }
}
