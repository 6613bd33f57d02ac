//! The client and its calls.
ghost use Rattle.std.specs.Prelude.{◌≡◌};
ghost use Rattle.cog_client.specs.Take.{first_span};

mod early;
mod feeds;
mod known;
mod starting;

use crate::delivered::{Current, Unknown};
use crate::error::ClientError;
use crate::partial_answer::PartialAnswer;
use crate::report::Report;
use crate::request_options::RequestOptions;
use crate::revision_reader::RevisionReader;
use crate::url::{is_plain_host, is_plain_name};
use cog_reader::{fill, law_end_is_wanted, law_nothing_comes};
use extents::{BLOCK_SIZE, Memory};
use http_range::{
    CheckReading, FieldError, Head, RequestFields, Span, Tag, law_fronts_are_read,
    law_requests_are_short, read_check, write_check_with, write_request_with,
};
use range_cache::{Cache, CacheError};
use std::alloc::Global;
use std::marker::Model;
use tiff_dir::{Level, Query};

/// Returns the span that a client without a revision asks for: the first 65,536 bytes.
fn first_span() -> Span
    ensures { result ≡ first_span }
{
    Span {
        first: 0,
        last: 65535,
    }
}

/// A client that reads one file, named by its host and its name. It answers one query after another, from one revision
/// of the file at a time. Between queries it keeps the file's directories and the tile arrays of the level that was
/// read last. It also keeps blocks of 16,384 bytes in a bounded cache, and the unpacked bytes of packed tiles.
pub struct Client {
    alloc: Global,
    how: RequestOptions,
    host: Vec<u8>,
    name: Vec<u8>,
    query: Option<Query>,
    asked: Option<Span>,
    source: Option<RevisionReader>,
    cache: Cache,
    report: Option<Report>,
    partial_answer: PartialAnswer,
}

// Written out, the drop is one call in each place where a client is dropped. Derived, each place would be proved field
// by field.
impl Drop for Client {
    fn drop(self) {
        let Client {
            alloc: _,
            how: _,
            host: _,
            name: _,
            query: _,
            asked: _,
            source: _,
            cache: _,
            report: _,
            partial_answer: _,
        } = self;
    }
}

impl Model for Client {
    ghost use Rattle.cog_client.specs.Client.{IsClient, ClientState};

    ghost Value = { ClientState };

    ghost view = { λ c. record {
      how = c.how;
      host = c.host.items;
      name = c.name.items;
      query = c.query;
      asked = c.asked;
      source = c.source;
      cache = c.cache;
      report = c.report;
      feed = c.partial_answer;
    } };

    ghost invariant = { λ c. IsClient (record {
      how = c.how;
      host = c.host.items;
      name = c.name.items;
      query = c.query;
      asked = c.asked;
      source = c.source;
      cache = c.cache;
      report = c.report;
      feed = c.partial_answer;
    }) };
}

#[tactic(auto, unfolding(crate::specs::Client::how_of, crate::specs::Client::host_of, crate::specs::Client::name_of, crate::specs::Client::query_of, crate::specs::Client::asked_of, crate::specs::Client::revision_of, crate::specs::Client::blocks_of, crate::specs::Client::report_of, crate::specs::Client::feed_of, crate::specs::Client::to_come, crate::specs::Client::tiles_of, crate::specs::Client::buffer_of, crate::specs::Client::AreDirectoriesKnown, crate::specs::Client::Knows, crate::specs::Client::ClientAgrees))]
impl Client {
    ghost use Rattle.std.specs.Prelude.{◌≡◌, ◌*◌, ◌≤◌, ℕ, List, None, Some, IfErr, IfOk, IfSome, IsSome, IsTrue, MatchOption, OnErr, OnOk, option_copied, length};
    ghost use Rattle.std.specs.Option.{option_map};
    ghost use Rattle.tiff_dir.specs.Described.{AreLevels};
    ghost use Rattle.extents.specs.declared.limits.TheConstants.{BLOCK_SIZE, MAX_RANGE_BYTES};
    ghost use Rattle.cog_client.specs.declared.request_options.TheConstants.{REQUEST_LIMIT, URL_REQUEST_LIMIT};
    ghost use Rattle.tile_plan.specs.TileCache.{size_of_tiles};
    ghost use Rattle.http_range.specs.Ask.{CanAsk, CanCheck};
    ghost use Rattle.http_range.specs.Announced.{announced};
    ghost use Rattle.http_range.specs.Tag.{is_kept_tag};
    ghost use Rattle.cog_client.specs.declared.delivered.Current.TheVariants.{Same};
    ghost use Rattle.cog_client.specs.Client.{client_refusal, AreDirectoriesKnown, IsFew, IsClientRefusal, IsPlain, Knows, asked_of, buffer_of, feed_of, fields_of, host_of, name_of, blocks_of, query_of, report_of, revision_of, tag_of, tiles_of};
    ghost use Rattle.cog_client.specs.FedClient.{revision_of_head};
    ghost use Rattle.cog_client.specs.Calls.{Forgets, Starts, request_for, unless_reported};
    ghost use Rattle.cog_client.specs.Keeps.{AddsField, GoesOnKeeping, KeepsOpen, LooksAhead, Misses, OpensKeeping, RequestsKeeping, Stands, StopsAsking};
    ghost use Rattle.http_fields.specs.FieldRefusal.{IsFieldRefusal, field_refusal};
    ghost use Rattle.cog_reader.specs.Reader.{outcome_of};
    ghost use Rattle.cog_client.specs.Steps.{Adopts};
    ghost use Rattle.cog_client.specs.Check.{IsCurrent, IsStillThere, check_of};

    /// Makes a client of the file `name` at `host`, with a cache of `blocks` blocks of 16,384 bytes. It has no query
    /// and no revision. Fails with the first of these that holds:
    /// - `Host`: the host isn't 1 to 64 letters, digits, `.`, `-`, `:`.
    /// - `Name`: the name isn't 1 to 200 bytes of `A-Z a-z 0-9 . _ - /`.
    /// - `Blocks`: `blocks` isn't between 66 and 4,096.
    /// - `Memory`: an allocation failed.
    ///
    /// ```
    /// let mut client = Client::new(rt.alloc(), b"localhost:8080", b"image.tif", 66)?;
    /// client.open(Query::Info);
    /// if let Some(report) = fetch(&mut client, &mut transport, 10)? {
    ///     println!(rt; "{:?}", report.outcome)?;
    /// }
    /// ```
    pub fn new(alloc: Global, host: &[u8], name: &[u8], blocks: u32) -> Result<Client, ClientError>
        ensures starts { IfOk result (Starts host.now name.now blocks) }
        ensures ok { OnOk result (client_refusal host.now name.now blocks ≡ None) }
        ensures refused { IfErr result (IsClientRefusal (client_refusal host.now name.now blocks)) }
    {
        if !is_plain_host(host) {
            return Err(ClientError::Host);
        }
        if !is_plain_name(name) {
            return Err(ClientError::Name);
        }
        let cache = match Cache::new(alloc, blocks) {
            Ok(cache) => cache,
            Err(CacheError::Blocks) => return Err(ClientError::Blocks),
            Err(CacheError::Memory) => return Err(ClientError::Memory),
        };
        let none = RequestFields::new(alloc);
        let client = Client::start(alloc, host, name, none, cache)?;
        Ok(client)
    }

    /// Asks `query` instead of the one before. Drops the report, and what was asked of the server, with an unfinished
    /// answer. Keeps what is known of the file: its revision, its directories, the tile arrays that were read, and the
    /// blocks. It allocates nothing.
    pub fn open(&mut self, query: Query)
        ensures { OpensKeeping query self.old self.new }
    {
        law_end_is_wanted();
        self.partial_answer.clear();
        self.query = Some(query);
        self.asked = None;
        self.report = None;
        match &mut self.source {
            None => {}
            Some(source) => source.reader.open(query),
        }
    }

    /// Drops everything but the host, the name, the query, and the options of requests. It allocates nothing.
    pub fn forget(&mut self)
        ensures { Forgets self.old self.new }
    {
        self.partial_answer.clear();
        self.asked = None;
        self.source = None;
        self.report = None;
        self.cache.clear();
    }

    /// Leaves `Connection: close` out of requests from now on, but not out of the check. So a connection may be kept
    /// from one request to the next (RFC 9112, section 9.3). The sender has to find the end of each answer. It
    /// allocates nothing.
    pub fn keep_open(&mut self)
        ensures { KeepsOpen self.old self.new }
    {
        self.how.closes = false;
    }

    /// Lets each request from now on ask for up to `blocks` blocks that are needed later. Without this call there are
    /// none. They follow the missing blocks of the range that is needed next, without a gap. Each of them is missing,
    /// and needed later. A request asks for at most 65 blocks, and for no more than the cache has room for. A request
    /// that was made already stays as it is. It allocates nothing.
    pub fn look_ahead(&mut self, blocks: u32)
        ensures { LooksAhead blocks self.old self.new }
    {
        self.how.ahead = blocks;
    }

    /// Adds a field line to each request and check from now on, after those before. A request that was made already
    /// is made again with it, and keeps its byte range. Fails as `RequestFields::push` does, and then nothing changes.
    pub fn add_field(&mut self, name: &[u8], value: &[u8]) -> Result<(), FieldError>
        ensures ok { OnOk result (AddsField (name.now, value.now) self.old self.new) }
        ensures err { IfErr result (IsFieldRefusal (field_refusal (fields_of self.old) (name.now, value.now))) }
        ensures unchanged { OnErr result (self.new ≡ self.old) }
    {
        match self.how.fields.push(name, value) {
            Ok(()) => Ok(()),
            Err(error) => Err(error),
        }
    }

    /// Returns the report, or `None`. It stands until `open` or `forget`. It allocates nothing.
    pub fn report(&self) -> Option<&Report>
        ensures { Stands self.now (option_copied result) }
    {
        self.report.as_ref()
    }

    /// Returns the name of the file. It allocates nothing.
    pub fn name(&self) -> &[u8]
        ensures { result.now ≡ name_of self.now }
    {
        &self.name
    }

    /// Returns the byte range of the request whose answer is awaited, or `None`. Both ends count from 0 and belong to
    /// it. It allocates nothing.
    pub fn asked(&self) -> Option<Span>
        ensures { result ≡ asked_of self.now }
    {
        self.asked
    }

    /// Returns the ETag of the client's revision, or `None` where it has no revision. It allocates nothing.
    pub fn tag(&self) -> Option<&Tag>
        ensures tag { option_copied result ≡ tag_of self.now }
        ensures kept { IfSome (tag_of self.now) (λ t. IsTrue (is_kept_tag t)) }
    {
        match &self.source {
            Some(source) => {
                let _text = source.tag.as_bytes();
                Some(&source.tag)
            }
            None => None,
        }
    }

    /// Returns the length of the file in bytes, or `None` where the client has no revision. It allocates nothing.
    pub fn complete(&self) -> Option<u64>
        ensures { result ≡ option_map (λ v. v.complete) (revision_of self.now) }
    {
        let source = self.source.as_ref()?;
        Some(source.complete)
    }

    /// Returns the levels of the file, the largest first. Returns `None` unless all its directories are known. It
    /// allocates nothing.
    pub fn levels(&self) -> Option<&[Level]>
        ensures known { MatchOption result (¬ AreDirectoriesKnown self.now) (λ _. AreDirectoriesKnown self.now) }
        ensures levels { (f : List ℕ) → Knows f self.now → IfSome result (λ levels. AreLevels f levels.now) }
    {
        let source = self.source.as_ref()?;
        source.reader.levels()
    }

    /// Does nothing: its contract bounds what a client keeps besides its blocks. All unpacked tiles together have at
    /// most as many bytes as the cache may have. The buffer for bytes in one piece has at most as many as one range.
    pub fn no_more_is_kept(&self)
        ensures tiles { size_of_tiles (tiles_of self.now) ≤ (blocks_of self.now).capacity * BLOCK_SIZE }
        ensures buffer { buffer_of self.now ≤ MAX_RANGE_BYTES }
    {
        if let Some(source) = &self.source {
            source.reader.no_more_is_kept();
        }
    }

    /// Goes on as far as the blocks reach, and returns the text of the next request. It is a GET with a Range of bytes
    /// (RFC 9110, section 14.2). With a revision it carries an If-Range of its ETag (section 13.1.5). Returns `None`
    /// without a query, or where a report stands. An unfinished answer is dropped. Fails with `Memory` alone, and then
    /// nothing is asked.
    pub fn request(&mut self) -> Result<Option<Vec<u8>>, Memory>
        ensures ok { IfOk result (λ o. RequestsKeeping self.old (option_map (λ v. v.items) o) self.new) }
        ensures err { OnErr result (StopsAsking self.old self.new) }
        // An error comes only where there is a query and no report.
        ensures asks { OnErr result (IsSome (query_of self.old) × (report_of self.old ≡ None)) }
        ensures short { IfOk result (λ o. IfSome o (λ text. IsPlain self.old → length text.items ≤ REQUEST_LIMIT)) }
        ensures long { IfOk result (λ o. IfSome o (λ text. length text.items ≤ URL_REQUEST_LIMIT)) }
    {
        self.partial_answer.clear();
        self.asked = None;
        if self.query.is_none() || self.report.is_some() {
            return Ok(None);
        }
        let span = self.missing()?;
        let Some(span) = span else {
            return Ok(None);
        };
        law_requests_are_short();
        let text = self.request_for(span)?;
        self.asked = Some(span);
        Ok(Some(text))
    }

    /// Returns the byte range to ask for next, or `None`. It is the file's first bytes while no revision is known.
    /// Afterwards it is what `go_on` lacks.
    fn missing(&mut self) -> Result<Option<Span>, Memory>
        requires { report_of self.old ≡ None }
        ensures goes { GoesOnKeeping self.old self.new }
        ensures asked { asked_of self.new ≡ unless_reported (report_of self.new) (asked_of self.old) }
        ensures ok { IfOk result (Misses self.new) }
        ensures silent { IfOk result (λ o. IsSome o → report_of self.new ≡ None) }
        ensures err { OnErr result (report_of self.new ≡ None) }
        ensures feed { feed_of self.new ≡ feed_of self.old }
    {
        if self.source.is_none() {
            return Ok(Some(first_span()));
        }
        let missing = self.go_on()?;
        Ok(missing)
    }

    /// Returns the text of the request for `span`.
    fn request_for(&self, span: Span) -> Result<Vec<u8>, Memory>
        ensures text { IfOk result (λ text. Some text.items ≡ request_for self.now (Some span)) }
        ensures lawful { CanAsk (host_of self.now) (name_of self.now) (fields_of self.now) span.first span.last (tag_of self.now) }
    {
        let tag = self.tag();
        let options = &self.how;
        options.fields.may_be_added();
        write_request_with(
            self.alloc,
            &self.host,
            &self.name,
            &options.fields,
            span,
            tag,
            options.closes,
        )
    }

    /// Gives the reader what the blocks have, and returns the byte range that it still lacks. Where it lacks none, its
    /// report stands.
    fn go_on(&mut self) -> Result<Option<Span>, Memory>
        requires report { report_of self.old ≡ None }
        requires reads { IsSome (revision_of self.old) }
        ensures goes { GoesOnKeeping self.old self.new }
        ensures asked { asked_of self.new ≡ unless_reported (report_of self.new) (asked_of self.old) }
        ensures ok { IfOk result (Misses self.new) }
        ensures silent { IfOk result (λ o. IsSome o → report_of self.new ≡ None) }
        ensures err { OnErr result (report_of self.new ≡ None) }
        ensures feed { feed_of self.new ≡ feed_of self.old }
    {
        let missing = match &mut self.source {
            None => unreachable!(),
            Some(source) => fill(
                &mut source.reader,
                &mut self.cache,
                &mut source.buffer,
                self.how.ahead,
            )?,
        };
        match missing {
            Some(_) => Ok(missing),
            None => {
                self.stand();
                Ok(None)
            }
        }
    }

    /// Moves the reader's outcome, if there is one, into the report. Then nothing is asked any more.
    fn stand(&mut self)
        requires { report_of self.old ≡ None }
        ensures goes { GoesOnKeeping self.old self.new }
        ensures asked { asked_of self.new ≡ unless_reported (report_of self.new) (asked_of self.old) }
        ensures feed { feed_of self.new ≡ feed_of self.old }
        ensures reports { IsSome (query_of self.old)
            → IfSome self.old.source (λ s. IsSome (outcome_of s.reader) → IsSome (report_of self.new)) }
    {
        law_nothing_comes();
        let Some(query) = self.query else {
            return;
        };
        let Some(source) = &mut self.source else {
            return;
        };
        match source.conclude(query) {
            None => {}
            Some(report) => {
                self.report = Some(report);
                self.asked = None;
            }
        }
    }

    /// Reads the revision of `head` from now on. Nothing is known of it yet.
    fn adopt(&mut self, head: &Head, asked: Option<Span>)
        requires report { report_of self.old ≡ None }
        requires few { IfSome asked IsFew }
        ensures adopts { Adopts (revision_of_head (announced head.now)) asked self.old self.new }
        ensures feed { feed_of self.new ≡ feed_of self.old }
        ensures buffer { buffer_of self.new ≡ 0 }
    {
        self.asked = asked;
        self.cache.clear();
        let room = self.cache.capacity() as usize * BLOCK_SIZE as usize;
        self.source = Some(RevisionReader::new(self.alloc, head, self.query, room));
    }

    /// Returns the text of a check: whether the file still has the revision's ETag. It is a HEAD request with
    /// If-None-Match (RFC 9110, section 13.1.2). Returns `None` without a revision. Fails with `Memory` alone.
    pub fn check(&self) -> Result<Option<Vec<u8>>, Memory>
        ensures text { IfOk result (λ o. option_map (λ v. v.items) o ≡ check_of self.now) }
        ensures lawful { IfSome (tag_of self.now) (CanCheck (host_of self.now) (name_of self.now) (fields_of self.now)) }
        ensures err { OnErr result (IsSome (tag_of self.now)) }
        ensures short { IfOk result (λ o. IfSome o (λ text. IsPlain self.now → length text.items ≤ REQUEST_LIMIT)) }
        ensures long { IfOk result (λ o. IfSome o (λ text. length text.items ≤ URL_REQUEST_LIMIT)) }
    {
        law_requests_are_short();
        let options = &self.how;
        let fields = &options.fields;
        fields.may_be_added();
        match self.tag() {
            None => Ok(None),
            Some(tag) => {
                let text = write_check_with(self.alloc, &self.host, &self.name, fields, tag)?;
                Ok(Some(text))
            }
        }
    }

    /// Returns what `answer` says of the client's revision: the same ETag, another one, or why it says nothing. It is
    /// the answer to a check, or a front of it. It allocates nothing.
    pub fn current(&self, answer: &[u8]) -> Current
        ensures current { IsCurrent (tag_of self.now) answer.now result }
        ensures same { result ≡ Same → IsStillThere (tag_of self.now) answer.now }
    {
        law_fronts_are_read();
        let Some(source) = &self.source else {
            return Current::Unknown(Unknown::NoRevision);
        };
        match read_check(answer) {
            CheckReading::NotUsed(why) => Current::Unknown(Unknown::NotUsed(why)),
            CheckReading::Seen(tag) => {
                if source.tag == tag {
                    Current::Same
                } else {
                    Current::Other
                }
            }
        }
    }
}
