//! Reads the command lines of `cogserve`, `cogread` and `cogworld`, and the numbers in their words. It has the texts of help.
#![tactic(auto)]

mod arguments;
mod file_words;
mod given_files;
mod help;
mod names;
mod numbers;
mod origins;
mod quick;
mod read;
mod serve;
mod urls;
mod world;

pub use file_words::{FileWord, file_word, words_instead};
pub use given_files::{NamedFile, named_files, two_of_one_name};
pub use help::VERSION;
pub use names::name_of_path;
pub use numbers::number_from;
pub use origins::is_origin;
pub use quick::{QuickLine, StartLine, start_line};
pub use read::{
    AskedWords, BoundsWords, LineWithHeaders, ReadLine, WindowWords, read_line,
    read_line_with_headers,
};
pub use serve::{ServeLine, serve_line};
pub use urls::{FileUrl, FileUrlError, file_url, is_url};
pub use world::{WorldLine, world_line};
