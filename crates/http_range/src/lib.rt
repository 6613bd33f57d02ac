//! Reads and writes byte ranges, ETags and heads of HTTP/1.1 (RFC 9110, RFC 9112), for files that are read by single byte
//! ranges.
//!
//! Only calls whose names begin with `write`, and `append_head`, allocate memory. Positions and lengths are in bytes, and
//! positions count from 0.
#![tactic(auto)]

mod answer_head;
mod ask;
mod check;
mod frame;
mod laws;
mod publication;
mod range;
mod reading;
mod reply;
mod request;
mod stream;

pub use ask::{
    write_check, write_check_with, write_open_request, write_request, write_request_with,
};
pub use check::{CheckReading, read_check};
pub use extents::{Memory, Span};
pub use frame::{Frame, read_frame};
pub use http_fields::conditional::any_match;
pub use http_fields::laws::law_limits_are;
pub use http_fields::limits::{ANSWERS_LIMIT, MESSAGE_LIMIT};
pub use http_fields::names::{is_host, is_name};
pub use http_fields::request_fields::{FieldError, RequestFields};
pub use http_fields::tag::Tag;
pub use http_fields::targets::{is_authority, is_target};
pub use laws::{
    law_answers_are_sent, law_answers_are_unique, law_clients_are_answered, law_frames_grow,
    law_fronts_are_read, law_heads_grow, law_honesty_is_kept, law_messages_stay,
    law_publications_replace, law_requests_are_short, law_tags_tell_publications,
    law_values_have_forms,
};
pub use publication::{FILE_LIMIT, NAMES_LIMIT, publication_tag};
pub use range::{RangeSpec, Resolved, read_range, resolve};
pub use reading::{Head, HeadReading, Piece, Reading, Why, read_answer, read_head};
pub use reply::{Reply, append_head, write_head};
pub use request::{Request, read_request};
pub use stream::message_length;
