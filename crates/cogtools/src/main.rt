//! The programs. The first word of the command line names one; without a word the script "one window" is run,
//! with its file from memory.
#![tactic(auto)]

use programs::{Exit, run};
use std::env;
use std::fs::File;
use std::io::ErrorKind;
use std::process::ExitCode;
use std::rt::{Env, Files};

/// The words of the command line, of which the first is the command's own name.
fn words<R: Env + AllocGlobal>(rt: &R) -> Result<Vec<String>, Exit> {
    match env::args(rt) {
        Ok(words) => Ok(words.collect(rt.alloc())?),
        Err(error) if error.kind() == ErrorKind::OutOfMemory => Err(Exit::Memory),
        Err(_) => Err(Exit::NotText),
    }
}

/// Opens a file that is always empty, for reading alone. Open files take the lowest descriptors that are free. So a standard descriptor
/// that was closed becomes this file, and no socket takes its place. Reading from it finds the end, and writing to it fails, as before.
fn take_descriptor<R: Files>(rt: &R) -> Option<R::File> {
    File::open(rt, "/dev/null").ok()
}

fn main(rt: HostRuntime) -> ExitCode {
    // They are held until the end: one for each standard descriptor that may be closed.
    let _held = [
        take_descriptor(&rt),
        take_descriptor(&rt),
        take_descriptor(&rt),
    ];
    match words(&rt) {
        Ok(words) => ExitCode::from(run(&rt, &words)),
        Err(exit) => ExitCode::from(exit.tell(&rt, "cogtools")),
    }
}
