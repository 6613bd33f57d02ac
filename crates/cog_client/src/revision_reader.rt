//! The revision that a client reads.
use crate::report::Report;
use cog_reader::Reader;
use http_range::{Head, Tag};
use std::alloc::Global;
use tiff_dir::Query;

/// The revision of the file that is read.
#[derive(Drop)]
pub struct RevisionReader {
    /// The ETag of the revision.
    pub tag: Tag,
    /// The length of the file in bytes.
    pub complete: u64,
    /// What is known of the file.
    pub reader: Reader,
    /// The buffer for bytes that the reader needs in one piece: one range at most.
    pub buffer: Vec<u8>,
}

impl RevisionReader {
    ghost use Rattle.std.specs.Prelude.{◌≡◌, ℕ, List, length};
    ghost use Rattle.cog_reader.specs.Reader.{file_length_of, query_of, tiles_of, ReaderAgrees};
    ghost use Rattle.cog_client.specs.Steps.{Concludes};

    /// Makes the reader of the revision of `head`, of which nothing is known yet. It is asked `query`, if there is one.
    /// It keeps at most `tile_cache_bytes` bytes of unpacked tiles.
    pub fn new(
        alloc: Global,
        head: &Head,
        query: Option<Query>,
        tile_cache_bytes: usize,
    ) -> RevisionReader
        ensures tag { result.tag ≡ head.now.tag }
        ensures complete { result.complete ≡ head.now.complete }
        ensures agrees { (f : List ℕ) → length f ≡ head.now.complete → ReaderAgrees result.reader f }
        ensures length { file_length_of result.reader ≡ head.now.complete }
        ensures query { query_of result.reader ≡ query }
        ensures tiles { (tiles_of result.reader).most ≡ tile_cache_bytes }
        ensures buffer { length result.buffer.items ≡ 0 }
    {
        let mut reader = Reader::keeping(alloc, head.complete, tile_cache_bytes);
        match query {
            None => {}
            Some(query) => reader.open(query),
        }
        RevisionReader {
            tag: head.tag.copy(),
            complete: head.complete,
            reader,
            buffer: Vec::new(alloc),
        }
    }

    /// Moves the outcome, if there is one, out of the reader and returns it as the report to `query`. Then the reader
    /// has no query.
    pub fn conclude(&mut self, query: Query) -> Option<Report>
        ensures { Concludes query self.old result self.new }
    {
        let outcome = self.reader.take_outcome()?;
        Some(Report {
            query,
            tag: self.tag.copy(),
            outcome,
        })
    }
}
