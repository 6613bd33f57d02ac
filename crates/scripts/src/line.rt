//! The lines of a script.
ghost use Rattle.std.specs.Prelude.{◌≡◌, ◌==◌, ◌∷◌, IfErr, IfOk, codes};
ghost use Rattle.std.specs.List.{slice_split};
ghost use Rattle.hex.specs.Hex.{decode_of};
ghost use Rattle.scripts.specs.Line.{IsOnlyNumber, IsScriptFault, IsWindow, NoFile, Reads, ReadsLine, ReadsWords, texts};
ghost use Rattle.scripts.specs.Script.{AreEvents, FindsTheSame, IsEvent, IsPick, IsQuery, are_filled, cut, is_read, lines, number};
ghost use Rattle.scripts.specs.Verb.{word_of};
ghost use Rattle.scripts.specs.declared.line.LineError.TheVariants.{NotAnEvent};

use crate::number::number;
use crate::source::{LoadError, Source};
use crate::verb::{Verb, verb_of};
use hex::FromHexError;
use std::alloc::{AllocError, AllocFailed, Global};
use tiff_dir::{Pick, Query};
use world::Event;

/// Says why a script isn't read. Lines are counted from 1.
#[derive(Clone, Copy, Debug, PartialEq, Eq)]
pub enum ScriptError {
    /// This line is no event.
    NotAnEvent(usize),
    /// The file that this line names can't be read.
    CantRead(usize),
    /// No memory was left.
    Memory,
}

/// Says why a line isn't read.
#[derive(Clone, Copy, Debug, PartialEq, Eq)]
enum LineError {
    /// The line has no form of `docs/SCRIPTS.md`.
    NotAnEvent,
    /// The file that the line names can't be read.
    CantRead,
    /// No memory was left.
    Memory,
}

impl LineError {
    ghost use Rattle.std.specs.Prelude.{◌≡◌};
    ghost use Rattle.scripts.specs.Line.{told_at};

    fn at(self, line: usize) -> ScriptError
        ensures { result ≡ told_at self line }
    {
        match self {
            LineError::NotAnEvent => ScriptError::NotAnEvent(line),
            LineError::CantRead => ScriptError::CantRead(line),
            LineError::Memory => ScriptError::Memory,
        }
    }
}

impl From<LoadError> for LineError {
    ghost use Rattle.std.specs.Prelude.{◌≡◌};
    ghost use Rattle.scripts.specs.Line.{told_of};

    ghost from_gives = { λ error told. told ≡ told_of error };

    fn from(error: LoadError) -> LineError {
        match error {
            LoadError::CantRead => LineError::CantRead,
            LoadError::Memory => LineError::Memory,
        }
    }
}

impl From<AllocError> for LineError {
    ghost use Rattle.std.specs.Prelude.{◌≡◌};
    ghost use Rattle.scripts.specs.declared.line.LineError.TheVariants.{Memory};

    ghost from_gives = { λ _ told. told ≡ Memory };

    fn from(_refused: AllocError) -> LineError {
        LineError::Memory
    }
}

impl From<AllocError> for ScriptError {
    ghost use Rattle.std.specs.Prelude.{◌≡◌};
    ghost use Rattle.scripts.specs.declared.line.ScriptError.TheVariants.{Memory};

    ghost from_gives = { λ _ told. told ≡ Memory };

    fn from(_refused: AllocError) -> ScriptError {
        ScriptError::Memory
    }
}

impl<T: Drop> From<AllocFailed<T>> for ScriptError {
    ghost use Rattle.std.specs.Prelude.{◌≡◌};
    ghost use Rattle.scripts.specs.declared.line.ScriptError.TheVariants.{Memory};

    ghost from_gives = { λ _ told. told ≡ Memory };

    fn from(_refused: AllocFailed<T>) -> ScriptError {
        ScriptError::Memory
    }
}

/// Returns the number that a word writes. Fails with `NotAnEvent` where it writes none.
fn wanted(word: &[u8]) -> Result<u32, LineError>
    ensures read { Reads (λ n. number word.now ≡ Some n) result }
    ensures told { IfErr result (λ error. error ≡ NotAnEvent) }
{
    number(word).ok_or(LineError::NotAnEvent)
}

/// Returns the number that follows the first word of a line. Fails with `NotAnEvent` where anything else follows it.
fn only_number(rest: &[&[u8]]) -> Result<u32, LineError>
    ensures read { Reads (IsOnlyNumber (texts rest.now)) result }
    ensures told { IfErr result (λ error. error ≡ NotAnEvent) }
{
    match rest {
        [word] => wanted(word),
        _ => Err(LineError::NotAnEvent),
    }
}

/// Returns the event of `publish`, which a name and the path of a file follow.
fn publication<S: Source>(alloc: Global, rest: &[&[u8]], source: &mut S) -> Result<Event, LineError>
    ensures event { ReadsWords (S.finds source.old) (codes "publish" ∷ texts rest.now) result }
    ensures kept { FindsTheSame (S.finds source.old) (S.finds source.new) }
{
    let [name, path] = rest else {
        return Err(LineError::NotAnEvent);
    };
    Ok(Event::Publish {
        name: Vec::from_slice(alloc, name)?,
        file: source.load(path)?,
    })
}

/// Returns the event of `client`, which a name and the number of blocks of its cache follow.
fn new_client(alloc: Global, rest: &[&[u8]]) -> Result<Event, LineError>
    ensures { Reads (IsEvent NoFile (codes "client" ∷ texts rest.now)) result }
{
    let [name, blocks] = rest else {
        return Err(LineError::NotAnEvent);
    };
    Ok(Event::NewClient {
        name: Vec::from_slice(alloc, name)?,
        blocks: wanted(blocks)?,
    })
}

/// Returns the level that `level N` or `columns C` picks.
fn pick_of(kind: &[u8], word: &[u8]) -> Result<Pick, LineError>
    ensures read { Reads (IsPick kind.now word.now) result }
    ensures told { IfErr result (λ error. error ≡ NotAnEvent) }
{
    match kind {
        b"level" => Ok(Pick::Level(wanted(word)?)),
        b"columns" => Ok(Pick::Columns(wanted(word)?)),
        _ => Err(LineError::NotAnEvent),
    }
}

/// Returns the window with these sides, of the level that `pick` picks.
fn window(pick: Pick, sides: &[&[u8]; 4]) -> Result<Query, LineError>
    ensures read { Reads (IsWindow pick (texts sides.now)) result }
    ensures told { IfErr result (λ error. error ≡ NotAnEvent) }
{
    let [x, y, w, h] = sides;
    Ok(Query::Window {
        pick,
        x: wanted(x)?,
        y: wanted(y)?,
        w: wanted(w)?,
        h: wanted(h)?,
    })
}

/// Returns the query of words: a window of the level that is picked, or `info`.
fn query_of(words: &[&[u8]]) -> Result<Query, LineError>
    ensures read { Reads (IsQuery (texts words.now)) result }
    ensures told { IfErr result (λ error. error ≡ NotAnEvent) }
{
    match words {
        [b"info"] => Ok(Query::Info),
        [kind, word, x, y, w, h] => window(pick_of(kind, word)?, &[*x, *y, *w, *h]),
        _ => Err(LineError::NotAnEvent),
    }
}

/// Returns the event of `open`, which a client and its query follow.
fn opening(rest: &[&[u8]]) -> Result<Event, LineError>
    ensures read { Reads (IsEvent NoFile (codes "open" ∷ texts rest.now)) result }
    ensures told { IfErr result (λ error. error ≡ NotAnEvent) }
{
    let [client, query @ ..] = rest else {
        return Err(LineError::NotAnEvent);
    };
    Ok(Event::Open {
        client: wanted(client)?,
        query: query_of(query)?,
    })
}

/// Returns the bytes of hexadecimal digits, two each, in either case.
fn bytes_of(alloc: Global, digits: &[u8]) -> Result<Vec<u8>, LineError>
    ensures { Reads (λ bytes. decode_of digits.now ≡ Ok bytes.items) result }
{
    match hex::decode(alloc, digits) {
        Ok(bytes) => Ok(bytes),
        Err(FromHexError::OutOfMemory) => Err(LineError::Memory),
        Err(_) => Err(LineError::NotAnEvent),
    }
}

/// Returns the event of `ask`, which a message in hexadecimal digits follows.
fn message(alloc: Global, rest: &[&[u8]]) -> Result<Event, LineError>
    ensures { Reads (IsEvent NoFile (codes "ask" ∷ texts rest.now)) result }
{
    let [digits] = rest else {
        return Err(LineError::NotAnEvent);
    };
    Ok(Event::Ask(bytes_of(alloc, digits)?))
}

/// Returns how many bytes of an answer are delivered, or `None` for all of them, which `-` stands for.
fn cut_of(word: &[u8]) -> Result<Option<u32>, LineError>
    ensures read { Reads (λ n. cut word.now ≡ Some n) result }
    ensures told { IfErr result (λ error. error ≡ NotAnEvent) }
{
    match word {
        b"-" => Ok(None),
        _ => Ok(Some(wanted(word)?)),
    }
}

/// Returns the event of `deliver`, which a client, an answer, and the number of its bytes that come follow.
fn delivery(rest: &[&[u8]]) -> Result<Event, LineError>
    ensures read { Reads (IsEvent NoFile (codes "deliver" ∷ texts rest.now)) result }
    ensures told { IfErr result (λ error. error ≡ NotAnEvent) }
{
    let [client, answer, cut] = rest else {
        return Err(LineError::NotAnEvent);
    };
    Ok(Event::Deliver {
        client: wanted(client)?,
        answer: wanted(answer)?,
        cut: cut_of(cut)?,
    })
}

/// Returns the event of a line that names no file, by its first word.
fn event_without_file(alloc: Global, verb: Verb, rest: &[&[u8]]) -> Result<Event, LineError>
    ensures { Reads (IsEvent NoFile (word_of verb ∷ texts rest.now)) result }
{
    match verb {
        Verb::Epoch => Ok(Event::Epoch(only_number(rest)?)),
        Verb::Client => new_client(alloc, rest),
        Verb::Open => opening(rest),
        Verb::Forget => Ok(Event::Forget(only_number(rest)?)),
        Verb::Ask => message(alloc, rest),
        Verb::AskFrom => Ok(Event::AskFrom(only_number(rest)?)),
        Verb::Deliver => delivery(rest),
        Verb::Exchange => Ok(Event::Exchange(only_number(rest)?)),
        Verb::Check => Ok(Event::Check(only_number(rest)?)),
    }
}

/// Returns the event of a line of these words.
fn event_of<S: Source>(alloc: Global, words: &[&[u8]], source: &mut S) -> Result<Event, LineError>
    ensures event { ReadsWords (S.finds source.old) (texts words.now) result }
    ensures kept { FindsTheSame (S.finds source.old) (S.finds source.new) }
{
    let [first, rest @ ..] = words else {
        return Err(LineError::NotAnEvent);
    };
    if *first == b"publish".as_slice() {
        return publication(alloc, rest, source);
    }
    match verb_of(first) {
        Some(verb) => event_without_file(alloc, verb, rest),
        None => Err(LineError::NotAnEvent),
    }
}

/// Returns the parts of a text, which is cut at each byte `end`.
fn parts_of(alloc: Global, text: &[u8], end: u8) -> Result<Vec<&[u8]>, AllocError>
    ensures { IfOk result (λ parts. texts parts.items ≡ slice_split (λ b. b == end) text.now) }
{
    text.split(|b| *b == end).collect(alloc)
}

/// Returns whether no word is empty.
fn are_filled(words: &[&[u8]]) -> bool
    ensures { result ≡ are_filled (texts words.now) }
{
    words.iter().all(|word| !word.is_empty())
}

/// Returns the event of a line that isn't passed over.
fn read_line<S: Source>(alloc: Global, line: &[u8], source: &mut S) -> Result<Event, LineError>
    ensures event { ReadsLine (S.finds source.old) line.now result }
    ensures kept { FindsTheSame (S.finds source.old) (S.finds source.new) }
{
    let words = parts_of(alloc, line, b' ')?;
    if line.ends_with(b"\r") || !are_filled(&words) {
        return Err(LineError::NotAnEvent);
    }
    event_of(alloc, &words, source)
}

/// Returns whether a line isn't passed over: it isn't empty, and doesn't begin with `#`.
fn is_read(line: &[u8]) -> bool
    ensures { result ≡ is_read line.now }
{
    !line.is_empty() && !line.starts_with(b"#")
}

/// Returns the events of a script, whose files come from `source`. Fails for the first line that isn't read. That is with `NotAnEvent`
/// where it has no form of `docs/SCRIPTS.md`, and with `CantRead` where its file can't be loaded. Fails with `Memory` where no memory is
/// left.
///
/// ```
/// let events = script(rt.alloc(), b"epoch 1\nclient a 66\n", &mut Loaded::new(rt.alloc()))?;
/// let mut log = Log::new(rt.alloc());
/// run(rt.alloc(), &events, &mut log)?;
/// let text = log_text(rt.alloc(), &log)?;
/// ```
pub fn script<S: Source>(
    alloc: Global,
    text: &[u8],
    source: &mut S,
) -> Result<Vec<Event>, ScriptError>
    ensures ok { IfOk result (λ events. AreEvents (S.finds source.old) (lines text.now) events.items) }
    ensures err { IfErr result (IsScriptFault (S.finds source.old) text.now) }
    ensures kept { FindsTheSame (S.finds source.old) (S.finds source.new) }
{
    let lines = parts_of(alloc, text, b'\n')?;
    let mut events = Vec::new(alloc);
    for (before, line) in lines.iter().enumerate() {
        if !is_read(line) {
            continue;
        }
        match read_line(alloc, line, source) {
            Ok(event) => events.push(event)?,
            Err(error) => return Err(error.at(before + 1)),
        }
    }
    Ok(events)
}
