//! Wherever memory is refused once, `run` and `run_cut` report it, and the log is a beginning of the whole one. Each test passes with ample
//! memory, and wherever one allocation is refused.
use super::larger_files::{INFO, LEVELS, REPLACED_BETWEEN, TWO_EXCHANGES, tile_texts};
use super::scripts_and_logs::ONE_WINDOW;
use super::{events, texts_after};
use assertion_support::expect_eq;
use scripts::{ScriptError, log_text};
use std::alloc::Global;
use std::process::Abort;
use std::test::Fail;
use tiff_dir::Memory;
use world::{Event, Log, run, run_cut};

/// A worked row.
#[derive(Clone, Copy)]
enum Row {
    OneWindow,
    TwoExchanges,
    ReplacedBetween,
    Columns,
    Info,
}

impl Row {
    /// Returns the text of the row's script, and that of its log.
    fn texts(self, alloc: Global) -> Result<(String, String), Memory> {
        match self {
            Row::OneWindow => texts_after(alloc, "f1.tif", ONE_WINDOW),
            Row::TwoExchanges => tile_texts(alloc, TWO_EXCHANGES, "\"1-1\"", 'f'),
            Row::ReplacedBetween => tile_texts(alloc, REPLACED_BETWEEN, "\"1-2\"", '0'),
            Row::Columns => texts_after(alloc, "f3.tif", LEVELS),
            Row::Info => texts_after(alloc, "f3.tif", INFO),
        }
    }
}

/// Makes the texts of a row. Makes them again where memory was refused.
fn texts_again(alloc: Global, row: Row) -> Result<(String, String), Memory> {
    match row.texts(alloc) {
        Err(Memory) => row.texts(alloc),
        texts => texts,
    }
}

/// Reads the events of a script. Reads them again where memory was refused.
fn events_again(alloc: Global, script: &str) -> Result<Vec<Event>, ScriptError> {
    match events(alloc, script) {
        Err(ScriptError::Memory) => events(alloc, script),
        events => events,
    }
}

/// Writes the text of a log. Writes it again where memory was refused.
fn log_text_again(alloc: Global, log: &Log) -> Result<Vec<u8>, Memory> {
    match log_text(alloc, log) {
        Err(Memory) => log_text(alloc, log),
        text => text,
    }
}

/// Expects the whole log of a run that was `Ok`. Of a run that ran out of memory, expects a beginning that lacks an event.
fn expect_beginning(
    rt: &(impl Abort + AllocGlobal),
    ran: Result<(), Memory>,
    log: &Log,
    want: &str,
) -> Result<(), Fail> {
    let text = log_text_again(rt.alloc(), log)?;
    assert!(rt; want.as_bytes().starts_with(&text));
    assert!(rt; text.is_empty() || text.ends_with(b"\n"));
    expect_eq!(rt; ran.is_ok(), text.len() == want.len());
    Ok(())
}

/// Expects the log of a row, or a beginning of it, with answers that come whole and with answers in pieces.
fn expect_row(rt: &(impl Abort + AllocGlobal), row: Row) -> Result<(), Fail> {
    let alloc = rt.alloc();
    let (script, want) = texts_again(alloc, row)?;
    let events = events_again(alloc, script.as_str())?;
    let mut log = Log::new(alloc);
    let ran = run(alloc, &events, &mut log);
    expect_beginning(rt, ran, &log, want.as_str())?;
    let mut log = Log::new(alloc);
    let ran = run_cut(alloc, &events, 1_000, &mut log);
    expect_beginning(rt, ran, &log, want.as_str())
}

#[test]
fn logs_a_beginning_of_one_window(rt: HostRuntime) -> Result<(), Fail> {
    expect_row(&rt, Row::OneWindow)
}

#[test]
fn logs_a_beginning_of_two_exchanges(rt: HostRuntime) -> Result<(), Fail> {
    expect_row(&rt, Row::TwoExchanges)
}

#[test]
fn logs_a_beginning_where_the_file_is_replaced_between(rt: HostRuntime) -> Result<(), Fail> {
    expect_row(&rt, Row::ReplacedBetween)
}

#[test]
fn logs_a_beginning_of_windows_by_columns(rt: HostRuntime) -> Result<(), Fail> {
    expect_row(&rt, Row::Columns)
}

#[test]
fn logs_a_beginning_of_info(rt: HostRuntime) -> Result<(), Fail> {
    expect_row(&rt, Row::Info)
}
