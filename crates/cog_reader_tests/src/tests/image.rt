//! A file in memory, and a reader of it that is kept from one query to the next.
ghost use Rattle.std.specs.Prelude.{◌≡◌, IfSome, length};
ghost use Rattle.extents.specs.Extent.{extent_of_span};

use super::pieces::Pieces;
use cog_reader::{Outcome, Reader};
use std::alloc::Global;
use tiff_dir::{Compression, Memory, Query, Span};

/// The number of bytes of four tiles of 16 by 16 samples of 8 bits.
const UNPACKED: usize = 1024;

/// A file and its reader.
#[derive(Drop)]
pub struct Image {
    pub file: Vec<u8>,
    reader: Reader,
}

/// The ranges that were wanted for a query, in turn, and its outcome. There is none where a wanted range isn't in the file.
#[derive(Drop)]
pub struct Answer<'a> {
    pub wanted: Vec<Span>,
    pub outcome: Option<&'a Outcome>,
}

/// Returns the bytes of a file in a span.
pub fn part(file: &[u8], span: Span) -> Option<&[u8]>
    ensures { IfSome result (λ bytes. length bytes.now ≡ (extent_of_span span).len) }
{
    let end = span.last.checked_add(1)?;
    file.get(span.first as usize..end as usize)
}

/// Gives the reader the ranges that it wants until there is an outcome, and returns these. It gives tiles in small pieces, and all else in
/// one piece.
fn read(alloc: Global, reader: &mut Reader, file: &[u8]) -> Result<Vec<Span>, Memory> {
    let mut wanted = Vec::new(alloc);
    while let Some(span) = reader.need()? {
        wanted.push(span)?;
        let Some(bytes) = part(file, span) else {
            return Ok(wanted);
        };
        match reader.tiles_wanted() {
            Some(Compression::Plain) => reader.paint(&Pieces(bytes)),
            Some(Compression::Packed(_)) => {
                let mut room = vec![in alloc; 0u8; bytes.len()]?;
                reader.unpack(&Pieces(bytes), &mut room);
            }
            None => reader.give(bytes)?,
        }
    }
    Ok(wanted)
}

impl Image {
    /// Makes an image of a file of which nothing was read. Its reader keeps a few tiles unpacked.
    pub fn new(alloc: Global, file: Vec<u8>) -> Image {
        let reader = Reader::keeping(alloc, file.len() as u64, UNPACKED);
        Image { file, reader }
    }

    /// Puts a new reader instead of the one before. It keeps no tile unpacked.
    pub fn renew(&mut self, alloc: Global) {
        self.reader = Reader::new(alloc, self.file.len() as u64);
    }

    /// Asks a query, and gives the first `count` ranges that are wanted.
    pub fn begin(&mut self, query: Query, count: usize) -> Result<(), Memory> {
        self.reader.open(query);
        for _ in 0..count {
            let Some(span) = self.reader.need()? else {
                return Ok(());
            };
            let Some(bytes) = part(&self.file, span) else {
                return Ok(());
            };
            self.reader.give(bytes)?;
        }
        Ok(())
    }

    /// Returns the range that is wanted next.
    pub fn need(&mut self) -> Result<Option<Span>, Memory> {
        self.reader.need()
    }

    /// Takes the outcome of the query out of the reader.
    pub fn take_outcome(&mut self) -> Option<Outcome> {
        self.reader.take_outcome()
    }

    /// Returns the answer to a query.
    pub fn answer(&mut self, alloc: Global, query: Query) -> Result<Answer<'_>, Memory> {
        self.reader.open(query);
        let wanted = read(alloc, &mut self.reader, &self.file)?;
        Ok(Answer {
            wanted,
            outcome: self.reader.outcome(),
        })
    }
}
