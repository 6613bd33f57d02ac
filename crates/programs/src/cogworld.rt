//! `cogworld [--pieces N] SCRIPT`: runs a script and prints its log.
ghost use Rattle.std.specs.Prelude.{[], ℕ, List, IfErr, IfOk, OnErr, OnOk};
ghost use Rattle.std.specs.Io.KnownBytes.{Appends};
ghost use Rattle.world.specs.Run.{IsBeginning, Runs};
ghost use Rattle.world.specs.World.{AreAlike, AtEach, IsTrueEntry, start};
ghost use Rattle.world.specs.Progress.{AllReport, IsNeededEntry};
ghost use Rattle.programs.specs.Printed.{IsPrinted, IsUnprinted};

use crate::disk::Disk;
use crate::exit::Exit;
use crate::number::number;
use crate::stored;
use cog_fetch::ANSWER_LIMIT;
use command_lines::world_line;
use http_range::Memory;
use scripts::{Loaded, Source, log_text, script};
use std::alloc::Global;
use std::io::Write;
use std::rt::Files;
use std::{fs, io};
use world::{Event, Log, run, run_cut};

/// The most bytes of a piece: as many as are taken of an answer in pieces.
const MOST_BYTES: u32 = ANSWER_LIMIT as u32;

/// Runs the events, and returns their log. The second value is an error where no memory was left, which ends the log. Answers are handed
/// over whole, or in pieces of `piece` bytes.
fn log_of(alloc: Global, events: &[Event], piece: Option<u32>) -> (Log, Result<(), Memory>)
    // The log is of these events, each in its turn, and each report is true of one file.
    ensures logged { OnOk result.1 (Runs start [] events.now result.0.entries.items result.0.clients.items) }
    ensures true_reports { OnOk result.1 (AtEach IsTrueEntry start events.now result.0.entries.items) }
    ensures alike { OnOk result.1 (AreAlike result.0.entries.items) }
    ensures needed { OnOk result.1 (AtEach IsNeededEntry start events.now result.0.entries.items) }
    ensures progress { OnOk result.1 (AllReport events.now result.0.entries.items) }
    ensures memory { OnErr result.1 (IsBeginning events.now result.0.entries.items result.0.clients.items) }
{
    let mut log = Log::new(alloc);
    let ran = match piece {
        None => run(alloc, events, &mut log),
        Some(piece) => run_cut(alloc, events, piece as usize, &mut log),
    };
    (log, ran)
}

/// Runs a script and writes its log to `out`. Answers are handed over whole, or in pieces of `piece` bytes. The value is an error where no
/// memory was left for the run, which ends the log. Fails with `Script` where the script isn't read, and with `CantWrite` or `ReaderGone`
/// where `out` fails. Fails with `Memory` where no memory is left for the text. After that nothing is said of what was written.
pub fn write_log<S: Source, W: Write>(
    alloc: Global,
    text: &[u8],
    source: &mut S,
    piece: Option<u32>,
    out: &mut W,
) -> Result<Result<(), Memory>, Exit>
    ensures ok { IfOk result (λ ran. (printed : List ℕ) × IsPrinted (S.finds source.old) text.now ran printed
        × Appends (W.contents out.old) (W.contents out.new) printed) }
    ensures err { IfErr result (IsUnprinted (S.finds source.old) text.now) }
{
    let events = script(alloc, text, source)?;
    let (log, ran) = log_of(alloc, &events, piece);
    let text = log_text(alloc, &log)?;
    match out.write_all(&text) {
        Ok(()) => Ok(ran),
        Err(error) => Err(Exit::of_writing(error)),
    }
}

/// Runs a script and prints its log. Where no memory is left, it fails after printing the log up to there.
fn run_script<R: Print + AllocGlobal, S: Source>(
    rt: &R,
    text: &[u8],
    source: &mut S,
    piece: Option<u32>,
) -> Result<(), Exit> {
    Ok(write_log(rt.alloc(), text, source, piece, &mut io::writer(rt))??)
}

/// Runs the stored script, and prints its log.
pub fn run_stored<R: Print + AllocGlobal>(rt: &R) -> Result<(), Exit> {
    let mut files = Loaded::new(rt.alloc());
    files.add(b"f1.tif", Vec::from_slice(rt.alloc(), &stored::FILE)?)?;
    run_script(rt, stored::SCRIPT, &mut files, None)
}

/// Runs the script that the words name, of which the first is the program's own name. Fails with the reason for which the program ends
/// early.
pub fn run_line<R: Files + Print + AllocGlobal>(rt: &R, words: &[&str]) -> Result<(), Exit> {
    let line = world_line(rt.alloc(), words)?;
    let piece = match line.pieces {
        Some(word) => Some(number(rt, "--pieces", word, 1, MOST_BYTES)?),
        None => None,
    };
    run_file(rt, line.script, piece)
}

fn run_file<R: Files + Print + AllocGlobal>(
    rt: &R,
    path: &str,
    piece: Option<u32>,
) -> Result<(), Exit> {
    match fs::read(rt, path) {
        Ok(text) => run_script(rt, &text, &mut Disk { rt }, piece),
        Err(error) if error.kind() == io::ErrorKind::OutOfMemory => Err(Exit::Memory),
        Err(_) => Err(Exit::CantRead(String::from_str(rt.alloc(), path)?)),
    }
}
