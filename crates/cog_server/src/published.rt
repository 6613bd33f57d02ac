//! A file that the server has.
ghost use Rattle.std.specs.Prelude.{◌≤◌, IsTrue, length};
ghost use Rattle.std.specs.Rc.{rc_slice_items};
ghost use Rattle.http_range.specs.declared.publication.TheConstants.{FILE_LIMIT};
ghost use Rattle.http_range.specs.Names.{is_name};

use http_range::Tag;
use std::rc::RcSlice;

/// A file that the server has: its name, the ETag under which it is served, and its bytes. The bytes stay until each
/// answer with them is written, even if another file takes the name.
#[derive(Drop)]
pub struct Published {
    pub name: Vec<u8>,
    pub tag: Tag,
    pub file: RcSlice<u8>,
    ghost named: { IsTrue (is_name name.items) },
    ghost some: { 1 ≤ length (rc_slice_items file) },
    ghost small: { length (rc_slice_items file) ≤ FILE_LIMIT },
}
