//! What a command line prints, and its exit status.
use crate::capture::Capture;
use programs::run;
use std::alloc::{AllocError, Global};
use std::convert::AsStr;
use std::net::{Net, TcpListener, TcpStream};
use std::rt::{Clock, Files};

/// What a command line prints on standard output and on standard error, and its exit status.
#[derive(Debug, Drop)]
pub struct Told {
    pub out: Vec<u8>,
    pub err: Vec<u8>,
    pub status: u8,
}

impl Told {
    /// Returns whether exactly this is printed, with this status.
    pub fn is(&self, out: &str, err: &str, status: u8) -> bool {
        self.out.as_slice() == out.as_bytes()
            && self.err.as_slice() == err.as_bytes()
            && self.status == status
    }
}

/// Returns the lines of a log without their times. It leaves out each first word that ends in `Z`, and after it the `-` of a line that
/// concerns no client. Returns nothing for a log that isn't text.
pub fn without_times(alloc: Global, log: &[u8]) -> Result<String, AllocError> {
    let mut lines = String::new(alloc);
    for line in str::from_utf8(log).unwrap_or("").lines() {
        let rest = match line.split_once(' ') {
            Some((first, rest)) if first.ends_with('Z') => rest.strip_prefix("- ").unwrap_or(rest),
            _ => line,
        };
        lines.push_str(rest)?;
        lines.push_str("\n")?;
    }
    Ok(lines)
}

/// Returns the command's own name, and these words.
fn line_of<S: AsStr>(alloc: Global, words: &[S]) -> Result<Vec<String>, AllocError> {
    let mut line = Vec::new(alloc);
    line.push(String::from_str(alloc, "cogtools")?)?;
    for word in words {
        line.push(String::from_str(alloc, word.as_str())?)?;
    }
    Ok(line)
}

/// Returns the words of a line, which spaces separate. An empty word is written as two quotes.
pub fn words_of(alloc: Global, line: &str) -> Result<Vec<&str>, AllocError> {
    let mut words = Vec::new(alloc);
    for word in line.split_whitespace() {
        words.push(if word == "''" { "" } else { word })?;
    }
    Ok(words)
}

/// Runs the command over this runtime, with these words, of which the first is its own name. Returns what it prints, and its status.
pub fn tell_line<R>(capture: Capture<'_, R>, line: &[String]) -> Told
where
    R: Files + Clock + AllocGlobal + Net<Listener = TcpListener, Stream = TcpStream>,
{
    let status = run(&capture, line);
    let (out, err) = capture.into_texts();
    Told { out, err, status }
}

/// Runs the command over this runtime, with these words after its own name. Returns what it prints, and its status.
pub fn tell_on<R, S: AsStr>(capture: Capture<'_, R>, words: &[S]) -> Result<Told, AllocError>
where
    R: Files + Clock + AllocGlobal + Net<Listener = TcpListener, Stream = TcpStream>,
{
    let line = line_of(capture.alloc(), words)?;
    Ok(tell_line(capture, &line))
}

/// Runs the command with these words after its own name. Returns what it prints, and its status.
pub fn tell<R, S: AsStr>(rt: &R, words: &[S]) -> Result<Told, AllocError>
where
    R: Files + Clock + AllocGlobal + Net<Listener = TcpListener, Stream = TcpStream>,
{
    tell_on(Capture::new(rt), words)
}
