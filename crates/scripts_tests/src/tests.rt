//! Tests of scripts and logs.
mod larger_files;
mod log_lines;
mod refused_memory;
mod script_lines;
mod scripts_and_logs;
mod windows;

use fixtures_support::{f1, f1m, f2, f2b, f3, f4, f6, f6m};
use scripts::{Loaded, ScriptError, log_text, script};
use std::alloc::Global;
use std::process::Abort;
use std::test::Fail;
use tiff_dir::Memory;
use world::{Event, Log, run, run_cut};

/// Returns the file f1 with one byte changed.
fn damaged(alloc: Global, at: usize, byte: u8) -> Result<Vec<u8>, Memory> {
    let mut file = f1(alloc)?;
    if let Some(place) = file.get_mut(at) {
        *place = byte;
    }
    Ok(file)
}

/// Returns the file f1 with a tile of 255 bytes.
fn damaged_twice(alloc: Global) -> Result<Vec<u8>, Memory> {
    let mut file = damaged(alloc, 114, 255)?;
    if let Some(place) = file.get_mut(115) {
        *place = 0;
    }
    Ok(file)
}

/// Returns the file f1 without its last byte.
fn shortened(alloc: Global) -> Result<Vec<u8>, Memory> {
    let mut file = f1(alloc)?;
    file.pop();
    Ok(file)
}

/// Adds the fixtures.
fn add_fixtures(alloc: Global, files: &mut Loaded) -> Result<(), Memory> {
    files.add(b"f1.tif", f1(alloc)?)?;
    files.add(b"f1m.tif", f1m(alloc)?)?;
    files.add(b"f2.tif", f2(alloc)?)?;
    files.add(b"f2b.tif", f2b(alloc)?)?;
    files.add(b"f3.tif", f3(alloc)?)?;
    files.add(b"f4.tif", f4(alloc)?)?;
    files.add(b"f6.tif", f6(alloc)?)?;
    files.add(b"f6m.tif", f6m(alloc)?)?;
    Ok(())
}

/// Adds an empty file, and f1 in four forms. These have a loop of directories, compression 5, a tile of 255 bytes, and a missing last byte.
fn add_damaged(alloc: Global, files: &mut Loaded) -> Result<(), Memory> {
    files.add(b"empty", Vec::new(alloc))?;
    files.add(b"loop.tif", damaged(alloc, 118, 8)?)?;
    files.add(b"coded.tif", damaged(alloc, 54, 5)?)?;
    files.add(b"tile.tif", damaged_twice(alloc)?)?;
    files.add(b"short.tif", shortened(alloc)?)?;
    Ok(())
}

/// Returns the files of the scripts.
fn files(alloc: Global) -> Result<Loaded, Memory> {
    let mut files = Loaded::new(alloc);
    add_fixtures(alloc, &mut files)?;
    add_damaged(alloc, &mut files)?;
    Ok(files)
}

/// Returns the events of a script of these files.
fn events(alloc: Global, text: &str) -> Result<Vec<Event>, ScriptError> {
    let Ok(mut files) = files(alloc) else {
        return Err(ScriptError::Memory);
    };
    script(alloc, text.as_bytes(), &mut files)
}

/// Sizes of the pieces in which answers come. The head of an answer has about 171 bytes, and a block has 16,384.
const PIECES: [usize; 5] = [1, 7, 171, 16_384, 100_000];

/// Returns the text of the log of a run. Answers come whole, or in pieces of the size `piece`.
fn text_of_run(alloc: Global, events: &[Event], piece: Option<usize>) -> Result<Vec<u8>, Memory> {
    let mut log = Log::new(alloc);
    match piece {
        Some(piece) => run_cut(alloc, events, piece, &mut log)?,
        None => run(alloc, events, &mut log)?,
    }
    log_text(alloc, &log)
}

/// Expects the log of a script's events. Answers come whole, or in pieces of the size `piece`.
fn expect_log(
    rt: &(impl Abort + AllocGlobal),
    events: &[Event],
    (text, want): (&str, &str),
    piece: Option<usize>,
) -> Result<(), Fail> {
    let found = text_of_run(rt.alloc(), events, piece)?;
    assert_eq!(rt;
        str::from_utf8(&found),
        Ok(want),
        "of the script {text:?} by {piece:?}"
    );
    Ok(())
}

/// Expects a script's log, whether answers come whole or in pieces.
fn expect(rt: &(impl Abort + AllocGlobal), text: &str, want: &str) -> Result<(), Fail> {
    let events = events(rt.alloc(), text)?;
    expect_log(rt, &events, (text, want), None)?;
    for piece in PIECES {
        expect_log(rt, &events, (text, want), Some(piece))?;
    }
    Ok(())
}

/// A row has an event of a script, and its lines in the log.
type Steps = &'static [(&'static str, &'static str)];

/// Appends a line to a text.
fn push_line(text: &mut String, line: &str) -> Result<(), Memory> {
    text.push_str(line)?;
    text.push('\n')?;
    Ok(())
}

/// Returns the text of a script, and that of its log.
fn texts_of(alloc: Global, steps: Steps) -> Result<(String, String), Memory> {
    let mut script = String::new(alloc);
    let mut log = String::new(alloc);
    for (event, lines) in steps {
        push_line(&mut script, event)?;
        push_line(&mut log, lines)?;
    }
    Ok((script, log))
}

/// Expects the log of a script step by step.
fn expect_steps(rt: &(impl Abort + AllocGlobal), steps: Steps) -> Result<(), Fail> {
    let (script, log) = texts_of(rt.alloc(), steps)?;
    expect(rt, script.as_str(), log.as_str())
}

/// Returns the two texts with a beginning: this file is published as `a` in epoch 1, and client 0 of 66 blocks is made.
fn texts_after(alloc: Global, file: &str, steps: Steps) -> Result<(String, String), Memory> {
    let (script, log) = texts_of(alloc, steps)?;
    let script = format!(in alloc;
        "epoch 1\npublish a {file}\nclient a 66\n{}",
        script.as_str()
    )?;
    let log = format!(in alloc; "epoch 1\npublished \"1-1\"\nclient 0\n{}", log.as_str())?;
    Ok((script, log))
}

/// Expects the log of a script with that beginning: this file is published, and a client is made.
fn expect_after(rt: &(impl Abort + AllocGlobal), file: &str, steps: Steps) -> Result<(), Fail> {
    let (script, log) = texts_after(rt.alloc(), file, steps)?;
    expect(rt, script.as_str(), log.as_str())
}
