//! How a client reads answers.
ghost use Rattle.std.specs.Prelude.{◌≡◌, true, false, None, IfOk};
ghost use Rattle.http_range.specs.AnswerHead.{head_seen};
ghost use Rattle.http_range.specs.Announced.{announced, announced_seen, head_reading_seen, piece_behind, FitsFile, FitsFront};
ghost use Rattle.http_range.specs.Piece.{piece_seen, reading_seen, number_of_why, IsInside};
ghost use Rattle.http_range.specs.ContentRange.{range_of, range_of_numbers, IsRange};
ghost use Rattle.http_range.specs.Reading.{has_other_status, range_named, length_named, announced_by_rows, announced_in, announced_of, ReadsHead, ReadsAnswer};

use crate::answer_head::{AnswerHead, head_of};
use crate::laws::law_heads_grow;
use http_fields::bytes::{after, past, split_first, up_to};
use http_fields::digits::number_64;
use http_fields::tag::Tag;

/// Why an answer isn't used.
#[derive(Clone, Copy, Debug, PartialEq, Eq)]
pub enum Why {
    /// The head isn't whole.
    Cut,
    /// There is no head, or it has more than 32 fields, or it isn't whole in 4,096 bytes.
    Head,
    /// The status code, which is neither 200 nor 206. In the answer to a check it isn't 304 either.
    Status(u16),
    /// There is no ETag field, or several, or its value is no entity tag.
    NoTag,
    /// The ETag is weak: it doesn't name one sequence of bytes.
    WeakTag,
    /// The ETag has more than 64 bytes.
    TagTooLong,
    /// A part hasn't exactly one Content-Range that can be read.
    NoRange,
    /// There isn't exactly one Content-Length that can be read. Of a part, it may also differ from the length of the
    /// range.
    NoLength,
    /// There is a transfer coding or a content coding.
    Coding,
}

impl Why {
    /// Returns the number of this reason, 1 to 9.
    pub fn number(self) -> u8
        ensures { result ≡ number_of_why self }
    {
        match self {
            Why::Cut => 1,
            Why::Head => 2,
            Why::Status(_) => 3,
            Why::NoTag => 4,
            Why::WeakTag => 5,
            Why::TagTooLong => 6,
            Why::NoRange => 7,
            Why::NoLength => 8,
            Why::Coding => 9,
        }
    }
}

/// A piece of a file: the bytes of one revision from a position on.
#[derive(Debug, Drop)]
pub struct Piece<'b> {
    /// The ETag of the revision.
    pub tag: Tag,
    /// Whether the answer is the whole file.
    pub whole: bool,
    /// The position of the body's first byte, in bytes from 0.
    pub first: u64,
    /// The length of the whole file in bytes.
    pub complete: u64,
    /// The bytes, as far as they came.
    pub body: &'b [u8],
}

/// The head of an answer that brings a piece of a file: of which revision, from where on, and how many bytes.
#[derive(Debug, Drop)]
pub struct Head {
    /// The ETag of the revision.
    pub tag: Tag,
    /// Whether the answer is the whole file.
    pub whole: bool,
    /// The position of the body's first byte, in bytes from 0.
    pub first: u64,
    /// The length of the whole file in bytes.
    pub complete: u64,
    /// The length of the body in bytes. What follows it is no part of the answer.
    pub length: u64,
    /// The length of the head in bytes. The body follows it.
    pub size: usize,
}

/// What the head of an answer says to a client.
#[derive(Debug, Drop)]
pub enum HeadReading {
    /// A piece of a file follows.
    Head(Head),
    /// The answer isn't used, for this reason.
    NotUsed(Why),
}

/// What an answer says to a client.
#[derive(Debug, Drop)]
pub enum Reading<'b> {
    /// A piece of a file.
    Piece(Piece<'b>),
    /// The answer isn't used, for this reason.
    NotUsed(Why),
}

/// The positions that a part covers, and the length of the whole.
#[derive(Clone, Copy, Debug, PartialEq, Eq)]
pub(crate) struct ContentRange {
    pub(crate) first: u64,
    pub(crate) last: u64,
    pub(crate) complete: u64,
}

#[tactic(auto, unfolding(crate::specs::ContentRange::range_of))]
fn range_of(text: &[u8]) -> Option<ContentRange>
    ensures value { result ≡ range_of text.now }
    ensures fits { IsRange result }
{
    if !text.starts_with(b"bytes ") {
        return None;
    }
    let (first, ends) = split_first(after(text, 6), b'-');
    let (last, complete) = split_first(ends, b'/');
    range_of_numbers(number_64(first), number_64(last), number_64(complete))
}

fn range_of_numbers(
    first: Option<u64>,
    last: Option<u64>,
    complete: Option<u64>,
) -> Option<ContentRange>
    ensures value { result ≡ range_of_numbers first last complete }
    ensures fits { IsRange result }
{
    match (first, last, complete) {
        (Some(first), Some(last), Some(complete)) => {
            if first <= last && last < complete {
                Some(ContentRange {
                    first,
                    last,
                    complete,
                })
            } else {
                None
            }
        }
        _ => None,
    }
}

/// Returns the positions of its only Content-Range.
fn range_named(head: &AnswerHead) -> Option<ContentRange>
    ensures value { result ≡ range_named (head_seen head.now) }
    ensures fits { IsRange result }
{
    match head.fields.only(b"Content-Range") {
        None => None,
        Some(text) => range_of(text),
    }
}

/// Returns the number of its only Content-Length.
fn length_named(head: &AnswerHead) -> Option<u64>
    ensures { result ≡ length_named (head_seen head.now) }
{
    match head.fields.only(b"Content-Length") {
        None => None,
        Some(text) => number_64(text),
    }
}

fn whole_head(tag: Tag, length: Option<u64>, size: usize) -> Result<Head, Why>
    ensures value { announced_seen result ≡ announced_by_rows false tag None length size }
    ensures fits { IfOk (announced_seen result) FitsFile }
{
    match length {
        None => Err(Why::NoLength),
        Some(n) => Ok(Head {
            tag,
            whole: true,
            first: 0,
            complete: n,
            length: n,
            size,
        }),
    }
}

fn part_head(
    tag: Tag,
    range: Option<ContentRange>,
    length: Option<u64>,
    size: usize,
) -> Result<Head, Why>
    requires { IsRange range }
    ensures value { announced_seen result ≡ announced_by_rows true tag range length size }
    ensures fits { IfOk (announced_seen result) FitsFile }
{
    match (range, length) {
        (None, _) => Err(Why::NoRange),
        (Some(_), None) => Err(Why::NoLength),
        (Some(range), Some(n)) => {
            if range.last - range.first + 1 == n {
                Ok(Head {
                    tag,
                    whole: false,
                    first: range.first,
                    complete: range.complete,
                    length: n,
                    size,
                })
            } else {
                Err(Why::NoLength)
            }
        }
    }
}

fn announced_in(head: &AnswerHead, tag: Tag) -> Result<Head, Why>
    ensures value { announced_seen result ≡ announced_in (head_seen head.now) tag }
    ensures fits { IfOk (announced_seen result) FitsFile }
{
    if head.status == 206 {
        part_head(tag, range_named(head), length_named(head), head.size)
    } else {
        whole_head(tag, length_named(head), head.size)
    }
}

/// Returns whether the status is neither that of the whole file nor that of a part.
pub(crate) fn has_other_status(head: &AnswerHead) -> bool
    ensures { result ≡ has_other_status (head_seen head.now) }
{
    head.status != 200 && head.status != 206
}

pub(crate) fn announced_of(head: &AnswerHead) -> Result<Head, Why>
    ensures value { announced_seen result ≡ announced_of (head_seen head.now) }
    ensures fits { IfOk (announced_seen result) FitsFile }
{
    if has_other_status(head) {
        return Err(Why::Status(head.status));
    }
    let tag = head.tag()?;
    announced_in(head, tag)
}

fn read(bytes: &[u8]) -> Result<Head, Why>
    ensures reads { ReadsHead bytes.now (announced_seen result) }
    ensures fits { IfOk (announced_seen result) FitsFile }
{
    let head = head_of(bytes)?;
    announced_of(&head)
}

/// Returns what the head of an answer announces. `bytes` is a front of the answer. While it has fewer than 4,096 bytes,
/// `Why::Cut` and `Why::Head` may change with the bytes that follow.
pub fn read_head(bytes: &[u8]) -> HeadReading
    ensures reads { ReadsHead bytes.now (head_reading_seen result) }
    ensures fits { IfOk (head_reading_seen result) FitsFile }
    ensures there { IfOk (head_reading_seen result) (FitsFront bytes.now) }
{
    law_heads_grow();
    match read(bytes) {
        Ok(head) => HeadReading::Head(head),
        Err(why) => HeadReading::NotUsed(why),
    }
}

fn piece_behind(bytes: &[u8], head: Head) -> Piece<'_>
    ensures { piece_seen result ≡ piece_behind bytes.now (announced head) }
{
    Piece {
        tag: head.tag,
        whole: head.whole,
        first: head.first,
        complete: head.complete,
        body: up_to(past(bytes, head.size), head.length),
    }
}

/// Returns what an answer, or a front of one, says. The piece's body is what follows the head, as far as the answer's
/// length goes.
pub fn read_answer(bytes: &[u8]) -> Reading<'_>
    ensures reads { ReadsAnswer bytes.now (reading_seen result) }
    // A piece that is read lies in its file, also where the answer isn't an honest one.
    ensures fits { IfOk (reading_seen result) IsInside }
{
    match read_head(bytes) {
        HeadReading::Head(head) => Reading::Piece(piece_behind(bytes, head)),
        HeadReading::NotUsed(why) => Reading::NotUsed(why),
    }
}
