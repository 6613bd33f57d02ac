//! Answers as texts: heads that are written out, and bytes of a file after them.
use cog_client::{ClientError, Memory};
use std::alloc::{AllocError, Global};
use tiff_dir::Span;

/// Why a step can't be done.
#[derive(Clone, Copy, Debug)]
pub enum NotDone {
    /// The client ran out of memory.
    Memory,
    /// There is no memory for what the client is given, or is compared with.
    NoRoom,
    /// No client is made.
    NoClient,
    /// There is no such publication, or no such part of it.
    NoSuchPart,
}

impl From<AllocError> for NotDone {
    fn from(_refused: AllocError) -> NotDone {
        NotDone::NoRoom
    }
}

impl From<Memory> for NotDone {
    fn from(_refused: Memory) -> NotDone {
        NotDone::Memory
    }
}

impl From<ClientError> for NotDone {
    fn from(refusal: ClientError) -> NotDone {
        match refusal {
            ClientError::Memory => NotDone::Memory,
            _ => NotDone::NoClient,
        }
    }
}

/// The tags of a test's publications, in turn.
pub const OLD: &str = "\"1-1\"";

pub const NEW: &str = "\"1-2\"";

/// A file that is published as `a`, and its tag with the quotes.
#[derive(Clone, Copy)]
pub struct Publication<'a> {
    pub tag: &'a str,
    pub file: &'a [u8],
}

impl<'a> Publication<'a> {
    /// Makes two publications: a file under a tag, and another one under the next tag.
    pub fn in_turn(
        tag: &'a str,
        file: &'a [u8],
        next_tag: &'a str,
        next_file: &'a [u8],
    ) -> [Publication<'a>; 2] {
        [
            Publication { tag, file },
            Publication {
                tag: next_tag,
                file: next_file,
            },
        ]
    }
}

/// Returns a text and the bytes that follow it.
fn joined(alloc: Global, head: &str, body: &[u8]) -> Result<Vec<u8>, AllocError> {
    let mut text = Vec::from_slice(alloc, head.as_bytes())?;
    text.extend_from_slice(body)?;
    Ok(text)
}

/// Returns the head of an answer of status 206 that has `len` bytes from `first` on, of a file of `complete` bytes.
fn head_of_part(
    alloc: Global,
    tag: &str,
    (first, last): (usize, usize),
    len: usize,
    complete: usize,
) -> Result<String, AllocError> {
    format!(in alloc;
        "HTTP/1.1 206 Partial Content\r\nETag: {tag}\r\nAccept-Ranges: bytes\r\nContent-Type: image/tiff\r\n\
        Content-Range: bytes {first}-{last}/{complete}\r\nContent-Length: {len}\r\nConnection: close\r\n\r\n"
    )
}

/// Returns an answer of status 206 that has the bytes `body` from position `first` on, of a file of `complete` bytes.
fn part_of(
    alloc: Global,
    tag: &str,
    first: usize,
    body: &[u8],
    complete: usize,
) -> Result<Vec<u8>, NotDone> {
    let end = first.checked_add(body.len()).ok_or(NotDone::NoSuchPart)?;
    let last = end.checked_sub(1).ok_or(NotDone::NoSuchPart)?;
    let head = head_of_part(alloc, tag, (first, last), body.len(), complete)?;
    Ok(joined(alloc, head.as_str(), body)?)
}

/// Returns an answer of status 200 that has the bytes `body`.
fn whole_of(alloc: Global, tag: &str, body: &[u8]) -> Result<Vec<u8>, NotDone> {
    let len = body.len();
    let head = format!(in alloc;
        "HTTP/1.1 200 OK\r\nETag: {tag}\r\nAccept-Ranges: bytes\r\nContent-Type: image/tiff\r\n\
        Content-Length: {len}\r\nConnection: close\r\n\r\n"
    )?;
    Ok(joined(alloc, head.as_str(), body)?)
}

impl Publication<'_> {
    /// Returns the bytes from position `first` to position `last`.
    fn bytes(&self, first: usize, last: usize) -> Result<&[u8], NotDone> {
        let end = last.checked_add(1).ok_or(NotDone::NoSuchPart)?;
        self.file.get(first..end).ok_or(NotDone::NoSuchPart)
    }

    /// Returns the answer of status 206 that has the bytes from position `first` to position `last`.
    pub fn part(&self, alloc: Global, first: usize, last: usize) -> Result<Vec<u8>, NotDone> {
        let body = self.bytes(first, last)?;
        part_of(alloc, self.tag, first, body, self.file.len())
    }

    /// Returns the answer of status 206 to a request for a span, as far as the file goes.
    pub fn asked(&self, alloc: Global, span: Span) -> Result<Vec<u8>, NotDone> {
        let end = self.file.len().checked_sub(1).ok_or(NotDone::NoSuchPart)?;
        self.part(alloc, span.first as usize, end.min(span.last as usize))
    }

    /// Returns the answer of status 200.
    pub fn whole(&self, alloc: Global) -> Result<Vec<u8>, NotDone> {
        whole_of(alloc, self.tag, self.file)
    }
}

/// The answer for a name that isn't published.
pub const NOT_FOUND: &[u8] =
    b"HTTP/1.1 404 Not Found\r\nContent-Length: 0\r\nConnection: close\r\n\r\n";

/// Returns publication number `which`.
pub fn published<'a>(files: &[Publication<'a>], which: usize) -> Result<Publication<'a>, NotDone> {
    files.get(which).copied().ok_or(NotDone::NoSuchPart)
}

/// An answer. Publications are named by their numbers.
#[derive(Clone, Copy, Debug)]
pub enum Answer<'a> {
    /// The bytes of a publication, from the first position to the last one.
    Part(usize, usize, usize),
    /// All bytes of a publication.
    Whole(usize),
    /// A part, and how many bytes at its end are lost.
    CutPart(usize, usize, usize, usize),
    /// A whole file, and how many bytes at its end are lost.
    CutWhole(usize, usize),
    /// A part, and after it the next bytes of the publication up to a position. These aren't announced.
    LongPart(usize, usize, usize, usize),
    /// A part, and the length of the file that its head names.
    PartOf(usize, usize, usize, usize),
    /// A publication without some bytes at its end, which is announced as a whole file. The second number counts them.
    ShortWhole(usize, usize),
    /// A tag, the position of the first byte, the bytes, and the length of the file.
    Bytes(&'a str, usize, &'a [u8], usize),
    /// A tag, and a whole file.
    WholeOf(&'a str, &'a [u8]),
    Text(&'a [u8]),
}

/// Returns a text without its last `lost` bytes.
fn cut(mut text: Vec<u8>, lost: usize) -> Result<Vec<u8>, NotDone> {
    let len = text.len().checked_sub(lost).ok_or(NotDone::NoSuchPart)?;
    text.truncate(len);
    Ok(text)
}

/// Returns a part, and after it the next bytes of the publication up to position `end`.
fn long_part(
    alloc: Global,
    publication: Publication<'_>,
    (first, last): (usize, usize),
    end: usize,
) -> Result<Vec<u8>, NotDone> {
    let next = last.checked_add(1).ok_or(NotDone::NoSuchPart)?;
    let bytes = publication.bytes(next, end)?;
    let mut text = publication.part(alloc, first, last)?;
    text.extend_from_slice(bytes)?;
    Ok(text)
}

/// Returns a part whose head names a file of `complete` bytes.
fn told_part(
    alloc: Global,
    publication: Publication<'_>,
    (first, last): (usize, usize),
    complete: usize,
) -> Result<Vec<u8>, NotDone> {
    let body = publication.bytes(first, last)?;
    part_of(alloc, publication.tag, first, body, complete)
}

/// Returns a publication without its last `less` bytes, announced as a whole file.
fn short_whole(
    alloc: Global,
    publication: Publication<'_>,
    less: usize,
) -> Result<Vec<u8>, NotDone> {
    let len = publication
        .file
        .len()
        .checked_sub(less)
        .ok_or(NotDone::NoSuchPart)?;
    let body = publication.file.get(..len).ok_or(NotDone::NoSuchPart)?;
    whole_of(alloc, publication.tag, body)
}

impl Answer<'_> {
    /// Returns the bytes of the answer.
    pub fn text(&self, alloc: Global, files: &[Publication<'_>]) -> Result<Vec<u8>, NotDone> {
        match *self {
            Answer::Part(which, first, last) => published(files, which)?.part(alloc, first, last),
            Answer::Whole(which) => published(files, which)?.whole(alloc),
            Answer::CutPart(which, first, last, lost) => {
                cut(published(files, which)?.part(alloc, first, last)?, lost)
            }
            Answer::CutWhole(which, lost) => cut(published(files, which)?.whole(alloc)?, lost),
            Answer::LongPart(which, first, last, end) => {
                long_part(alloc, published(files, which)?, (first, last), end)
            }
            Answer::PartOf(which, first, last, complete) => {
                told_part(alloc, published(files, which)?, (first, last), complete)
            }
            Answer::ShortWhole(which, less) => short_whole(alloc, published(files, which)?, less),
            Answer::Bytes(tag, first, body, complete) => part_of(alloc, tag, first, body, complete),
            Answer::WholeOf(tag, body) => whole_of(alloc, tag, body),
            Answer::Text(text) => Ok(Vec::from_slice(alloc, text)?),
        }
    }
}
