//! The revisions of a file that is replaced, and whether a report is right about the one whose tag it has.
use cog_client::Report;
use cog_client_support::Publication;
use cog_reader_support::Plain;
use std::alloc::{AllocError, Global};
use tiff_dir::Query;

/// A publication, and what the plain program reads in its file.
#[derive(Clone, Copy)]
pub struct Revision<'a> {
    pub publication: Publication<'a>,
    pub plain: &'a Plain,
}

/// Makes the revision of a file that is published under a tag.
pub fn revision_of<'a>(tag: &'a str, plain: &'a Plain) -> Revision<'a> {
    let file = &plain.file;
    Revision {
        publication: Publication { tag, file },
        plain,
    }
}

/// Returns whether a report answers the query as the plain program does, in the file that was published under the report's tag.
pub fn is_right(
    alloc: Global,
    report: &Report,
    revisions: &[Revision<'_>],
    query: Query,
) -> Result<bool, AllocError> {
    let tag = report.tag.as_bytes();
    match revisions
        .iter()
        .find(|revision| revision.publication.tag.as_bytes() == tag)
    {
        None => Ok(false),
        Some(revision) => {
            Ok(report.query == query && revision.plain.is_answer(alloc, query, &report.outcome)?)
        }
    }
}
