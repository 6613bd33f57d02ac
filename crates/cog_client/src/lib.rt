//! Reads windows of a published file over HTTP byte ranges. A client makes the text of each request and takes its
//! answer. It keeps bytes of one revision of the file. Files may be replaced, and answers lost, cut, repeated or
//! reordered on the way.
#![tactic(auto)]

mod answer_phase;
mod body;
mod case;
mod client;
mod delivered;
mod error;
mod head;
mod laws;
mod partial_answer;
mod pieces;
mod report;
mod request_options;
mod revision_reader;
mod transport;
mod url;

pub use client::Client;
pub use cog_reader::{Info, MAX_BLOCKS, Outcome, Window};
pub use delivered::{Current, Delivered, Ignored, Unknown};
pub use error::{ClientError, FetchError, UrlError};
pub use http_range::{FieldError, RequestFields, Span, Tag, Why};
pub use laws::{
    law_agreement_is_seen, law_answers_begin_anywhere, law_answers_come_in_pieces,
    law_end_is_needed, law_equal_reports_are_true, law_fronts_keep_agreement, law_left_never_grows,
    law_needed_are_asked, law_nothing_left_is_reported, law_whole_answers_bring_on,
    law_whole_answers_report,
};
pub use pieces::Pieces;
pub use report::Report;
pub use request_options::{REQUEST_LIMIT, URL_REQUEST_LIMIT};
pub use tiff_dir::{Memory, Query};
pub use transport::{Lost, Transport};
