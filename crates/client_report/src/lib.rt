//! A client's report as users see it: a window as a picture.
#![tactic(auto)]

mod report_picture;

pub use report_picture::picture;
