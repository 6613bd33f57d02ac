//! Checks whether the file is still the one that is read, and what their answers say.
use super::exchanges::OF_ONES;
use super::expect;
use cog_client_support::Answer::{Part, Whole};
use cog_client_support::Step::{
    Asks, Checks, Forgets, Hears, Opens, Reports, Restarts, Stands, Takes, TakesMore,
};
use cog_client_support::{ASKS_END, END, F2_TWICE, FIRST, Kind, OLD, Said, Step};
use std::test::Fail;

/// Answers of a server that has the file under the tag `"1-1"`, or under another one.
const SAME: [&str; 4] = [
    "HTTP/1.1 304 Not Modified\r\nETag: \"1-1\"\r\nConnection: close\r\n\r\n",
    "HTTP/1.1 200 OK\r\nETag: \"1-1\"\r\nAccept-Ranges: bytes\r\nContent-Type: image/tiff\r\n\
    Content-Length: 67706\r\nConnection: close\r\n\r\n",
    "HTTP/1.1 206 Partial Content\r\netag: \"1-1\"\r\n\r\n",
    "HTTP/1.0 200 OK\r\nETag: \"1-1\"\r\n\r\nabc",
];

const OTHER: [&str; 4] = [
    "HTTP/1.1 304 Not Modified\r\nETag: \"1-2\"\r\nConnection: close\r\n\r\n",
    "HTTP/1.1 200 OK\r\nETag: \"2-1\"\r\nAccept-Ranges: bytes\r\nContent-Type: image/tiff\r\n\
    Content-Length: 67706\r\nConnection: close\r\n\r\n",
    "HTTP/1.1 206 Partial Content\r\nETag: \"1-11\"\r\n\r\n",
    "HTTP/1.1 304 Not Modified\r\nETag: \"\"\r\n\r\n",
];

/// Answers that say nothing, by the numbers under which they say it.
const FRONTS: [&str; 2] = ["", "HTTP/1.1 304 Not Modified\r\nETag: \"1-1\"\r\n"];

const NO_HEADS: [&str; 2] = ["HTTP 304\r\n\r\n", "GET /a HTTP/1.1\r\n\r\n"];

const STATUSES: [&str; 6] = [
    "HTTP/1.1 404 Not Found\r\nContent-Length: 0\r\nConnection: close\r\n\r\n",
    "HTTP/1.1 412 Precondition Failed\r\nContent-Length: 0\r\nConnection: close\r\n\r\n",
    "HTTP/1.1 416 Range Not Satisfiable\r\nContent-Range: bytes */9\r\nContent-Length: 0\r\n\r\n",
    "HTTP/1.1 201 Created\r\nETag: \"1-1\"\r\n\r\n",
    "HTTP/1.1 305 Use Proxy\r\nETag: \"1-1\"\r\n\r\n",
    "HTTP/1.1 404 Not Found\r\nContent-Encoding: gzip\r\n\r\n",
];

const NO_TAGS: [&str; 3] = [
    "HTTP/1.1 304 Not Modified\r\n\r\n",
    "HTTP/1.1 304 Not Modified\r\nETag: 1-1\r\n\r\n",
    "HTTP/1.1 304 Not Modified\r\nETag: \"1-1\"\r\nETag: \"1-1\"\r\n\r\n",
];

const WEAK_TAGS: [&str; 2] = [
    "HTTP/1.1 304 Not Modified\r\nETag: W/\"1-1\"\r\n\r\n",
    "HTTP/1.1 200 OK\r\nETag: W/\"1-1\"\r\nContent-Length: 67706\r\n\r\n",
];

const LONG_TAGS: [&str; 1] = [
    "HTTP/1.1 304 Not Modified\r\nETag: \"234567890123456789012345678901234567890123456789012345678901234\"\r\n\r\n",
];

const CODINGS: [&str; 3] = [
    "HTTP/1.1 304 Not Modified\r\nETag: \"1-1\"\r\nContent-Encoding: gzip\r\n\r\n",
    "HTTP/1.1 200 OK\r\nETag: \"1-1\"\r\nTransfer-Encoding: chunked\r\n\r\n",
    "HTTP/1.1 200 OK\r\nTransfer-Encoding: chunked\r\n\r\n",
];

/// An answer to a check that has 32 fields.
const MOST_FIELDS: &str = "HTTP/1.1 304 Not Modified\r\nETag: \"1-1\"\r\n\
    A: 1\r\nA: 1\r\nA: 1\r\nA: 1\r\nA: 1\r\nA: 1\r\nA: 1\r\nA: 1\r\nA: 1\r\nA: 1\r\nA: 1\r\nA: 1\r\n\
    A: 1\r\nA: 1\r\nA: 1\r\nA: 1\r\nA: 1\r\nA: 1\r\nA: 1\r\nA: 1\r\nA: 1\r\nA: 1\r\nA: 1\r\nA: 1\r\n\
    A: 1\r\nA: 1\r\nA: 1\r\nA: 1\r\nA: 1\r\nA: 1\r\nA: 1\r\n\
    \r\n";

/// An answer to a check that has 33 fields.
const MORE_FIELDS: &str = "HTTP/1.1 304 Not Modified\r\nETag: \"1-1\"\r\n\
    A: 1\r\nA: 1\r\nA: 1\r\nA: 1\r\nA: 1\r\nA: 1\r\nA: 1\r\nA: 1\r\nA: 1\r\nA: 1\r\nA: 1\r\nA: 1\r\n\
    A: 1\r\nA: 1\r\nA: 1\r\nA: 1\r\nA: 1\r\nA: 1\r\nA: 1\r\nA: 1\r\nA: 1\r\nA: 1\r\nA: 1\r\nA: 1\r\n\
    A: 1\r\nA: 1\r\nA: 1\r\nA: 1\r\nA: 1\r\nA: 1\r\nA: 1\r\nA: 1\r\n\
    \r\n";

/// Rows of answers, and what they say to a client whose revision has the tag `"1-1"`.
const ANSWERS: [Kind<'static>; 11] = [
    (&SAME, Said::Same),
    (&[MOST_FIELDS], Said::Same),
    (&OTHER, Said::Other),
    (&FRONTS, Said::Unknown(1)),
    (&NO_HEADS, Said::Unknown(2)),
    (&[MORE_FIELDS], Said::Unknown(2)),
    (&STATUSES, Said::Unknown(3)),
    (&NO_TAGS, Said::Unknown(4)),
    (&WEAK_TAGS, Said::Unknown(5)),
    (&LONG_TAGS, Said::Unknown(6)),
    (&CODINGS, Said::Unknown(9)),
];

/// Rows of answers, and what they say to a client without a revision.
const NOTHING: [Kind<'static>; 11] = [
    (&SAME, Said::Unknown(12)),
    (&[MOST_FIELDS], Said::Unknown(12)),
    (&OTHER, Said::Unknown(12)),
    (&FRONTS, Said::Unknown(12)),
    (&NO_HEADS, Said::Unknown(12)),
    (&[MORE_FIELDS], Said::Unknown(12)),
    (&STATUSES, Said::Unknown(12)),
    (&NO_TAGS, Said::Unknown(12)),
    (&WEAK_TAGS, Said::Unknown(12)),
    (&LONG_TAGS, Said::Unknown(12)),
    (&CODINGS, Said::Unknown(12)),
];

/// Rows of answers, and what they say to a client whose revision has the tag `"1-2"`.
const REPLACED: [Kind<'static>; 4] = [
    (
        &["HTTP/1.1 304 Not Modified\r\nETag: \"1-2\"\r\n\r\n"],
        Said::Same,
    ),
    (&SAME, Said::Other),
    (&[MOST_FIELDS], Said::Other),
    (&NO_TAGS, Said::Unknown(4)),
];

/// The checks of the two publications.
const CHECK_OF_OLD: &str =
    "HEAD /a HTTP/1.1\r\nHost: cog.test\r\nIf-None-Match: \"1-1\"\r\nConnection: close\r\n\r\n";

const CHECK_OF_NEW: &str =
    "HEAD /a HTTP/1.1\r\nHost: cog.test\r\nIf-None-Match: \"1-2\"\r\nConnection: close\r\n\r\n";

/// Steps with a check while something is asked, after one byte more, and after the report. A check changes nothing.
const SAYS: [Step<'static>; 11] = [
    Checks(Some(CHECK_OF_OLD)),
    Hears(&ANSWERS),
    Stands(Some(END), Some(OLD)),
    TakesMore(Part(0, 65536, 65536), 0),
    Checks(Some(CHECK_OF_OLD)),
    Hears(&ANSWERS),
    Stands(Some(END), Some(OLD)),
    Takes(Part(0, 65536, 67705), 1),
    Checks(Some(CHECK_OF_OLD)),
    Hears(&ANSWERS),
    Reports(OLD, OF_ONES),
];

/// Steps with checks of other revisions. Without a revision there is no check, and nothing is known. After a restart the check has the
/// other tag.
const TAGS: [Step<'static>; 13] = [
    Checks(None),
    Hears(&NOTHING),
    Opens(240, 240, 16, 16),
    Asks(FIRST, None),
    Checks(None),
    Hears(&NOTHING),
    Takes(Part(0, 0, 65535), 4),
    Restarts(Whole(1)),
    Checks(Some(CHECK_OF_NEW)),
    Hears(&REPLACED),
    Forgets,
    Checks(None),
    Hears(&NOTHING),
];

#[test]
fn tells_what_the_answers_to_a_check_say(rt: HostRuntime) -> Result<(), Fail> {
    expect(&rt, &F2_TWICE, &[&ASKS_END, &SAYS])
}

#[test]
fn checks_the_tag_of_its_revision(rt: HostRuntime) -> Result<(), Fail> {
    expect(&rt, &F2_TWICE, &[&TAGS])
}
