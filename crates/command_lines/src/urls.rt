//! A file of a server as one word: `http://HOST[:PORT]/PATH[?QUERY]`.
ghost use Rattle.std.specs.Prelude.{◌≡◌, ◌≢◌, ◌++◌, ◌↔◌, false, IfErr, IfOk, IsTrue, List, MatchOption, None, Ok, OnOk, Some, codes, string_bytes, ℕ};
ghost use Rattle.std.specs.Option.{option_copied};
ghost use Rattle.url.specs.Parser.{parse_url};
ghost use Rattle.url.specs.Parts.{Parts, has_credentials};
ghost use Rattle.command_lines.specs.FileUrl.{BeginsWith, IsFrontError, IsFileUrlError, IsTypedError, IsUrl, Names, behind_first, behind_slashes, host_with, name_typed, target_text, target_typed};

use itoa::Buffer;
use std::alloc::{AllocError, Global};
use thiserror::Error;
use url::{ParseError, Url};

/// The port of `http` (RFC 9110, section 4.2.1).
const HTTP_PORT: u16 = 80;

/// Holds what a URL of `http` names: the server to connect to as `HOST:PORT`, the URL's authority, and its target, the path with the query.
#[derive(Debug, Drop)]
pub struct FileUrl {
    pub server: String,
    pub authority: String,
    pub target: String,
}

/// Says why a URL names no file.
#[derive(Debug, Drop, Error)]
pub enum FileUrlError {
    /// The word is no URL, for this reason.
    #[error("{0}")]
    NotAUrl(ParseError),
    /// The scheme is https.
    #[error("https isn't spoken: use the Python package, or a reverse proxy (as nginx with proxy_pass https://..)")]
    Tls,
    /// The scheme is neither http nor https.
    #[error("not of http")]
    Scheme,
    /// The URL has a user's name or a password.
    #[error("a user's name and a password aren't sent: use --header 'Authorization: Basic ..'")]
    User,
    /// No path was typed.
    #[error("no path after the host: give http://HOST/PATH")]
    NoPath,
    /// The path and the query that would be asked for aren't those that were typed.
    #[error("path and query can't be asked for as they are typed: write other characters as %XX, and leave out .. and #")]
    Target,
    /// No memory was left.
    #[error("out of memory")]
    Memory,
}

impl From<AllocError> for FileUrlError {
    ghost use Rattle.std.specs.Prelude.{◌≡◌};
    ghost use Rattle.command_lines.specs.declared.urls.FileUrlError.TheVariants.{Memory};

    ghost from_gives = { λ _ told. told ≡ Memory };

    fn from(_refused: AllocError) -> FileUrlError {
        FileUrlError::Memory
    }
}

/// Returns whether a word begins with `front`, in letters of either case.
fn begins_with(word: &str, front: &str) -> bool
    ensures { IsTrue result ↔ BeginsWith front.now word.now }
{
    let start = &word.as_bytes()[..front.len().min(word.len())];
    start.eq_ignore_ascii_case(front.as_bytes())
}

/// Returns whether a word is a URL and no server's `HOST:PORT`: it begins with `http://` or `https://`, in letters of either case.
pub fn is_url(word: &str) -> bool
    ensures { IsTrue result ↔ IsUrl word.now }
{
    begins_with(word, "http://") || begins_with(word, "https://")
}

/// Parses a word as a URL. Fails with `NotAUrl` where it is none, or with `Memory`.
fn parse(alloc: Global, word: &str) -> Result<Url, FileUrlError>
    ensures ok { IfOk result (λ url. parse_url None word.now ≡ Ok url) }
    ensures err { IfErr result (IsFileUrlError word.now) }
{
    match Url::parse(alloc, word) {
        Ok(url) => Ok(url),
        Err(ParseError::OutOfMemory) => Err(FileUrlError::Memory),
        Err(error) => Err(FileUrlError::NotAUrl(error)),
    }
}

/// Returns what follows the first colon of a text, or `None` without one.
fn behind_colon(text: &str) -> Option<&str>
    ensures { option_copied result ≡ behind_first 58 text.now }
{
    let (_, behind) = text.split_once(':')?;
    Some(behind)
}

/// Returns what follows the two slashes that a text begins with, or `None` without them.
fn behind_slashes(text: &str) -> Option<&str>
    ensures { option_copied result ≡ behind_slashes text.now }
{
    text.strip_prefix("//")
}

/// Returns what follows the first slash of a text, or `None` without one.
fn behind_slash(text: &str) -> Option<&str>
    ensures { option_copied result ≡ behind_first 47 text.now }
{
    let (_, behind) = text.split_once('/')?;
    Some(behind)
}

/// Returns the name in a URL as it was typed, or `None` where the URL has no path.
fn typed_name(word: &str) -> Option<&str>
    ensures { option_copied result ≡ name_typed word.now }
{
    behind_slash(behind_slashes(behind_colon(word)?)?)
}

/// Returns the name in a path: what follows the slash that it begins with.
fn name_of(path: &str) -> Option<&str>
    ensures { MatchOption result ((name : List ℕ) → path.now ≢ codes "/" ++ name) (λ name. path.now ≡ codes "/" ++ name.now) }
{
    path.strip_prefix('/')
}

/// Checks that path and query of a URL were typed just as in `target`. Fails with `NoPath` or `Target` where they weren't.
fn check_typed(word: &str, target: &str) -> Result<(), FileUrlError>
    ensures ok { OnOk result (target_typed word.now ≡ Some target.now) }
    ensures err { IfErr result (IsTypedError word.now target.now) }
{
    let Some(typed) = typed_name(word) else {
        return Err(FileUrlError::NoPath);
    };
    match name_of(target) {
        Some(name) if name == typed => Ok(()),
        _ => Err(FileUrlError::Target),
    }
}

/// Checks the parts of a URL before its path. Fails with `Tls` for https, `Scheme` for another scheme than http, and `User` for a user's
/// name or a password.
fn check_front(url: &Url) -> Result<(), FileUrlError>
    ensures ok { OnOk result ((url.now.scheme ≡ codes "http") × (has_credentials url.now ≡ false)) }
    ensures err { IfErr result (IsFrontError url.now) }
{
    match url.scheme() {
        "http" => {}
        "https" => return Err(FileUrlError::Tls),
        _ => return Err(FileUrlError::Scheme),
    }
    if !url.username().is_empty() || url.password().is_some() {
        return Err(FileUrlError::User);
    }
    Ok(())
}

/// Returns the host of a URL, with `port` after it if there is one.
fn host_with(alloc: Global, url: &Url, port: Option<u16>) -> Result<String, AllocError>
    ensures { IfOk result (λ text. string_bytes text ≡ host_with url.now port) }
{
    let mut text = String::from_str(alloc, url.host_str().unwrap_or_default())?;
    if let Some(port) = port {
        let mut digits = Buffer::new();
        text.push_str(":")?;
        text.push_str(digits.format(port))?;
    }
    Ok(text)
}

/// Returns the path of a URL, with its query after it if there is one.
fn target_of(alloc: Global, url: &Url) -> Result<String, AllocError>
    ensures { IfOk result (λ target. string_bytes target ≡ target_text url.now) }
{
    let mut target = String::from_str(alloc, url.path())?;
    if let Some(query) = url.query() {
        target.push_str("?")?;
        target.push_str(query)?;
    }
    Ok(target)
}

/// Returns what a URL names. The server's port is 80 where the URL has none, and the authority has none then (RFC 9110, section 7.2). Fails
/// with `NoPath` where no path was typed, and with `Target` where path and query would be asked for otherwise than they were typed, as with
/// `..` or `#`. Fails with `NotAUrl`, `Tls`, `Scheme` or `User` where the word is no URL of that kind, and with `Memory` where no memory is
/// left.
pub fn file_url(alloc: Global, word: &str) -> Result<FileUrl, FileUrlError>
    ensures ok { IfOk result (Names word.now) }
    ensures err { IfErr result (IsFileUrlError word.now) }
{
    let url = parse(alloc, word)?;
    check_front(&url)?;
    let target = target_of(alloc, &url)?;
    check_typed(word, target.as_str())?;
    Ok(FileUrl {
        server: host_with(alloc, &url, Some(url.port().unwrap_or(HTTP_PORT)))?,
        authority: host_with(alloc, &url, url.port())?,
        target,
    })
}
