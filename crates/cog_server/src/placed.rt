//! An answer and its place in a file.
ghost use Rattle.std.specs.Prelude.{◌≡◌, [], option_copied, option_map, slice_range, unwrap_or};
ghost use Rattle.cog_server.specs.Status.{tag_of};
ghost use Rattle.std.specs.Rc.{rc_slice_items};

use http_range::{Reply, Tag};
use std::rc::RcSlice;

/// An answer before its text is written: its reply, whether the connection ends with it, and whether the request is a
/// preflight. `name` and `tag` are those of the file whose ETag it carries. Its body stands in `file`, from place
/// `first` on and before `end`.
#[derive(Drop)]
pub struct Prepared<'f> {
    pub reply: Reply,
    pub close: bool,
    pub name: Option<&'f [u8]>,
    pub body: &'f [u8],
    pub file: Option<&'f RcSlice<u8>>,
    pub first: usize,
    pub end: usize,
    pub tag: Option<&'f Tag>,
    pub is_preflight: bool,
    ghost tagged: { option_copied tag ≡ tag_of reply },
    ghost placed: { body.now ≡ slice_range (unwrap_or (option_map rc_slice_items (option_copied file)) []) first end },
}
