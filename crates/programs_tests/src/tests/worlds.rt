//! `cogworld`, and words that name no program.
use super::{FaultRow, Want, expect_faults, expect_told};
use fixtures_support::f1;
use programs_support::{Capture, tell, tell_on};
use std::fs;
use std::net::{Net, TcpListener, TcpStream};
use std::process::Abort;
use std::rt::{Clock, Files};
use std::test::Fail;

/// The log of the stored script.
const LOG: &str = "\
epoch 1
published \"1-1\"
client 0
opened 0
asked 0 0-65535 - answer 0 206 378 took 1
report 0 \"1-1\" window 3 2 1 121314222324
";

#[test]
fn runs_the_stored_script_where_there_are_no_words(rt: HostRuntime) -> Result<(), Fail> {
    let words: [&str; 0] = [];
    assert!(rt; tell(&rt, &words)?.is(LOG, "", 0));
    assert!(rt; tell_on(Capture::closed(&rt), &words)?.is("", "cogworld: can't write\n", 1));
    Ok(())
}

#[rattlefmt::skip]
const FAULTS: [FaultRow<'static>; 5] = [
    ("world", "cogtools: not a program: world\n", 2),
    ("'' --help", "cogtools: not a program: \n", 2),
    ("cogworld programs_tests_nowhere", "cogworld: can't read programs_tests_nowhere\n", 1),
    ("cogworld --pieces 0 a", "cogworld: not a number: 0\n", 2),
    ("cogworld a --pieces 1069057", "cogworld: not a number: 1069057\n", 2),
];

#[test]
fn refuses_other_programs_and_scripts_that_are_not_there(rt: HostRuntime) -> Result<(), Fail> {
    Ok(expect_faults(&rt, &FAULTS)?)
}

const PATH: &str = "programs_tests_script";

const FILE: &str = "programs_tests_f1";

/// The events of the stored script, with its file on the disk.
const SCRIPT: &str = "\
epoch 1
publish a programs_tests_f1
client a 66
open 0 level 0 2 1 3 2
exchange 0
";

/// A row has a script, what it prints on standard output and on standard error, and its status.
#[rattlefmt::skip]
const SCRIPTS: [(&str, &str, &str, u8); 6] = [
    (SCRIPT, LOG, "", 0),
    ("", "", "", 0),
    ("epoch 1\nclient a 66\nexchange 0\n", "epoch 1\nclient 0\nasked 0 nothing\n", "", 0),
    ("epoch 1\nno event\n", "", "line 2: not an event\n", 2),
    ("# two faults\npublish a programs_tests_nowhere\nno event\n", "", "line 2: can't read\n", 1),
    ("epoch 4294967296\n", "", "line 1: not an event\n", 2),
];

#[test]
fn runs_a_script_of_the_disk_or_tells_its_first_fault(rt: HostRuntime) -> Result<(), Fail> {
    fs::write(&rt, FILE, f1(rt.alloc())?.as_slice())?;
    for (script, out, err, status) in SCRIPTS {
        expect_script(&rt, script, (out, err, status))?;
    }
    fs::remove_file(&rt, FILE)?;
    fs::remove_file(&rt, PATH)?;
    Ok(())
}

/// Expects what is printed for a script, in pieces of each size.
fn expect_script<R>(rt: &R, script: &str, want: Want<'_>) -> Result<(), Fail>
where
    R: Abort + Files + Clock + AllocGlobal + Net<Listener = TcpListener, Stream = TcpStream>,
{
    fs::write(rt, PATH, script)?;
    expect_told(rt, script, &["cogworld", PATH], want)?;
    for size in ["1", "171", "1069056"] {
        expect_told(rt, script, &["cogworld", "--pieces", size, PATH], want)?;
    }
    Ok(())
}
