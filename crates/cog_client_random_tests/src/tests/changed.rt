//! Answers in their parts, and changes of these.
use super::revisions::Revision;
use cog_client::Client;
use cog_client_support::NotDone;
use fixtures_support::Numbers;
use std::alloc::{AllocError, Global};

/// The parts of an answer.
#[derive(Drop)]
pub struct Parts<'a> {
    /// The text that follows `HTTP/1.1 ` in the first line.
    status: &'static str,
    /// The text that stands before the tag: the name of its field, in some form.
    etag: &'static str,
    tag: &'a str,
    /// The first and the last position, and the length of the file.
    range: Option<(u64, u64, u64)>,
    length: u64,
    body: Vec<u8>,
}

/// Returns the answer of a server of this revision to the client's request.
pub fn honest<'a>(
    alloc: Global,
    revision: Revision<'a>,
    client: &Client,
) -> Result<Parts<'a>, NotDone> {
    let (tag, file) = (revision.publication.tag, revision.publication.file);
    let asked = client.asked().ok_or(NotDone::NoSuchPart)?;
    let (first, end) = (
        asked.first as usize,
        (asked.last as usize).saturating_add(1),
    );
    let has_other = client
        .tag()
        .is_some_and(|other| other.as_bytes() != tag.as_bytes());
    let (status, body) = match file.get(first..end.min(file.len())) {
        _ if has_other => ("200 OK", file),
        Some(part) if !part.is_empty() => ("206 Partial Content", part),
        _ => ("416 Range Not Satisfiable", &[][..]),
    };
    let (start, len) = (first as u64, body.len() as u64);
    let last = start.saturating_add(len).saturating_sub(1);
    Ok(Parts {
        status,
        etag: "ETag: ",
        tag,
        range: (status == "206 Partial Content").then_some((start, last, file.len() as u64)),
        length: len,
        body: Vec::from_slice(alloc, body)?,
    })
}

/// Returns a number near another one, or any number.
fn other_number(numbers: &mut Numbers, number: u64) -> u64 {
    match numbers.below(4) {
        0 => number.saturating_add(1),
        1 => number.saturating_sub(1),
        2 => numbers.below(100_000) as u64,
        _ => u64::MAX,
    }
}

impl<'a> Parts<'a> {
    /// Returns the bytes of the answer.
    pub fn text(&self, alloc: Global) -> Result<Vec<u8>, AllocError> {
        let (status, etag, tag, length) = (self.status, self.etag, self.tag, self.length);
        let mut head = format!(in alloc; "HTTP/1.1 {status}\r\n{etag}{tag}\r\n")?;
        if let Some((first, last, complete)) = self.range {
            let line = format!(in alloc; "Content-Range: bytes {first}-{last}/{complete}\r\n")?;
            head.push_str(line.as_str())?;
        }
        head.push_str(format!(in alloc; "Content-Length: {length}\r\n\r\n")?.as_str())?;
        let mut text = Vec::from_slice(alloc, head.as_bytes())?;
        text.extend_from_slice(&self.body)?;
        Ok(text)
    }

    /// Changes up to eight bits of the body.
    fn change_bits(&mut self, numbers: &mut Numbers) {
        let len = self.body.len();
        if len > 0 {
            for _ in 0..1 + numbers.below(8) {
                let bit = [1, 2, 4, 8, 16, 32, 64, 128][numbers.below(8)];
                if let Some(byte) = self.body.get_mut(numbers.below(len)) {
                    *byte ^= bit;
                }
            }
        }
    }

    /// Changes a number of the range.
    fn change_range(&mut self, numbers: &mut Numbers) {
        if let Some((first, last, complete)) = self.range {
            self.range = Some(match numbers.below(4) {
                0 => (other_number(numbers, first), last, complete),
                1 => (first, other_number(numbers, last), complete),
                2 => (first, last, other_number(numbers, complete)),
                _ => (last, first, complete),
            });
        }
    }

    /// Changes an answer without a lie about the bytes of the tag's revision. It changes the form of the tag's field, or what follows the
    /// bytes that are announced.
    pub fn change_form(&mut self, numbers: &mut Numbers) -> Result<(), AllocError> {
        match numbers.below(6) {
            0 => self.etag = "ETag:\r\n ",
            1 => self.etag = "eTAG:",
            2 => self.etag = "ETag: W/",
            3 => self.etag = "ETag: \"1-1\"\r\nETag: ",
            4 => self.body.extend_from_slice(b"HTTP/1.1 200 OK\r\n\r\n")?,
            _ => self.etag = "Transfer-Encoding: chunked\r\nETag: ",
        }
        Ok(())
    }

    /// Changes bytes, numbers or the tag, so that the answer lies. The other revision has another tag and other bytes.
    pub fn lie(
        &mut self,
        alloc: Global,
        numbers: &mut Numbers,
        other: Revision<'a>,
    ) -> Result<(), AllocError> {
        match numbers.below(6) {
            0 => self.change_bits(numbers),
            1 => self.length = other_number(numbers, self.length),
            2 => self.change_range(numbers),
            3 => self.tag = other.publication.tag,
            4 => self.body = Vec::from_slice(alloc, other.publication.file)?,
            _ => {
                self.status = ["200 OK", "206 Partial Content", "404 Not Found"][numbers.below(3)];
            }
        }
        Ok(())
    }
}
