//! Clients of larger files as scripts with their logs: several requests, restarts, and queries of every kind.
use super::{PIECES, Steps, expect, expect_after, expect_log, texts_after, texts_of};
use fixtures_support::f5;
use scripts::{Loaded, ScriptError, script};
use std::alloc::Global;
use std::process::Abort;
use std::test::Fail;
use tiff_dir::Memory;
use world::Event;

/// A tile of f2 in two exchanges. Its report isn't in the table.
#[rattlefmt::skip]
pub const TWO_EXCHANGES: Steps = &[
    ("open 0 level 0 240 240 16 16", "opened 0"),
    ("exchange 0", "asked 0 0-65535 - answer 0 206 65536 took 4"),
    ("exchange 0", "asked 0 65536-67705 \"1-1\" answer 1 206 2170 took 1"),
];

/// The file is replaced between the exchanges.
#[rattlefmt::skip]
pub const REPLACED_BETWEEN: Steps = &[
    ("open 0 level 0 240 240 16 16", "opened 0"),
    ("exchange 0", "asked 0 0-65535 - answer 0 206 65536 took 4"),
    ("publish a f2b.tif", "published \"1-2\""),
    ("exchange 0", "asked 0 65536-67705 \"1-1\" answer 1 200 67706 restarted"),
    ("exchange 0", "asked 0 65536-67705 \"1-2\" answer 2 206 2170 took 1"),
];

/// The server is restarted between the exchanges.
#[rattlefmt::skip]
const RESTARTED_BETWEEN: Steps = &[
    ("open 0 level 0 240 240 16 16", "opened 0"),
    ("exchange 0", "asked 0 0-65535 - answer 0 206 65536 took 4"),
    ("epoch 2", "epoch 2"),
    ("publish a f2.tif", "published \"2-1\""),
    ("exchange 0", "asked 0 65536-67705 \"1-1\" answer 1 200 67706 restarted"),
    ("exchange 0", "asked 0 65536-67705 \"2-1\" answer 2 206 2170 took 1"),
];

/// A client that forgets what it has, and one that isn't there.
#[rattlefmt::skip]
const FORGETTING: Steps = &[
    ("open 0 level 0 240 240 16 16", "opened 0"),
    ("exchange 0", "asked 0 0-65535 - answer 0 206 65536 took 4"),
    ("forget 0", "forgot 0"),
    ("exchange 0", "asked 0 0-65535 - answer 1 206 65536 took 4"),
    ("forget 1", "skipped"),
];

/// Info of f3: two levels and three keys.
#[rattlefmt::skip]
pub const INFO: Steps = &[
    ("open 0 info", "opened 0"),
    ("exchange 0", "asked 0 0-65535 - answer 0 206 1456 took 1\nreport 0 \"1-1\" info 2 3"),
];

/// Windows of both levels of f3: by the level's number, and by columns.
#[rattlefmt::skip]
pub const LEVELS: Steps = &[
    ("open 0 level 0 15 15 2 2", "opened 0"),
    ("exchange 0", "asked 0 0-65535 - answer 0 206 1456 took 1\nreport 0 \"1-1\" window 2 2 1 10111213"),
    ("open 0 columns 1 5 0 3 1", "opened 0"),
    ("exchange 0", "asked 0 nothing\nreport 0 \"1-1\" window 2 1 1 0000"),
];

/// A window of f4, with three samples to a pixel.
#[rattlefmt::skip]
const THREE_SAMPLES: Steps = &[
    ("open 0 level 0 15 15 3 3", "opened 0"),
    ("exchange 0", "asked 0 0-65535 - answer 0 206 548 took 1\nreport 0 \"1-1\" window 3 3 3 8080800f01ff8080808080800003ff8080808080800103ff808080"),
];

/// A window of f6, with samples of 16 bits.
#[rattlefmt::skip]
const SIXTEEN_BITS: Steps = &[
    ("open 0 level 0 2 1 3 2", "opened 0"),
    ("exchange 0", "asked 0 0-65535 - answer 0 206 634 took 1\nreport 0 \"1-1\" window 3 2 1 801280138014802280238024"),
];

/// The whole of f5: its directory with the first tile, and two groups of tiles. Its report isn't in the table.
#[rattlefmt::skip]
const THREE_EXCHANGES: Steps = &[
    ("open 0 level 0 0 0 1280 1024", "opened 0"),
    ("exchange 0", "asked 0 0-65535 - answer 0 206 65536 took 4"),
    ("exchange 0", "asked 0 65536-1064959 \"1-1\" answer 1 206 999424 took 61"),
    ("exchange 0", "asked 0 1064960-1327103 \"1-1\" answer 2 206 262144 took 16"),
];

/// A pixel of tile 3 after that. The last 66 blocks are there, so two of the tile's four have left.
#[rattlefmt::skip]
const BLOCKS_THAT_LEFT: Steps = &[
    ("open 0 level 0 768 0 1 1", "opened 0"),
    ("exchange 0", "asked 0 212992-245759 \"1-1\" answer 3 206 32768 took 2\nreport 0 \"1-1\" window 1 1 1 03"),
];

/// Appends the digits of 256 equal samples.
fn push_digits(alloc: Global, digits: &mut String, sample: u32) -> Result<(), Memory> {
    let pair = format!(in alloc; "{sample:02x}")?;
    for _ in 0..256 {
        digits.push_str(pair.as_str())?;
    }
    Ok(())
}

/// Returns the digits of the samples of f5. Each sample of tile t is t.
fn digits_of_f5(alloc: Global) -> Result<String, Memory> {
    let mut digits = String::new(alloc);
    for run in 0..5120u32 {
        push_digits(alloc, &mut digits, run / 1280 * 5 + run % 5)?;
    }
    Ok(digits)
}

/// Returns the texts of a script that reads the whole of f5 and then a pixel, and of its log.
fn texts_of_f5(alloc: Global) -> Result<(String, String), Memory> {
    let (script, log) = texts_after(alloc, "f5.tif", THREE_EXCHANGES)?;
    let (script_after, log_after) = texts_of(alloc, BLOCKS_THAT_LEFT)?;
    let digits = digits_of_f5(alloc)?;
    let script = format!(in alloc; "{}{}", script.as_str(), script_after.as_str())?;
    let log = format!(in alloc;
        "{}report 0 \"1-1\" window 1280 1024 1 {}\n{}",
        log.as_str(),
        digits.as_str(),
        log_after.as_str()
    )?;
    Ok((script, log))
}

/// Returns the file f5, under its name.
fn file_f5(alloc: Global) -> Result<Loaded, Memory> {
    let mut files = Loaded::new(alloc);
    files.add(b"f5.tif", f5(alloc)?)?;
    Ok(files)
}

/// Returns the events of a script of f5.
fn events_of_f5(alloc: Global, text: &str) -> Result<Vec<Event>, ScriptError> {
    let Ok(mut files) = file_f5(alloc) else {
        return Err(ScriptError::Memory);
    };
    script(alloc, text.as_bytes(), &mut files)
}

/// Returns the texts of a script of f2 and of its log, at whose end the last tile of f2 or f2b is reported. All bytes of the tile have two
/// equal digits.
pub fn tile_texts(
    alloc: Global,
    steps: Steps,
    tag: &str,
    digit: char,
) -> Result<(String, String), Memory> {
    let (script, log) = texts_after(alloc, "f2.tif", steps)?;
    let mut digits = String::new(alloc);
    for _ in 0..512 {
        digits.push(digit)?;
    }
    let digits = digits.as_str();
    let log = format!(in alloc; "{}report 0 {tag} window 16 16 1 {digits}\n", log.as_str())?;
    Ok((script, log))
}

/// Expects the log of a script of f2, at whose end a tile is reported.
fn expect_tile(
    rt: &(impl Abort + AllocGlobal),
    steps: Steps,
    tag: &str,
    digit: char,
) -> Result<(), Fail> {
    let (script, log) = tile_texts(rt.alloc(), steps, tag, digit)?;
    expect(rt, script.as_str(), log.as_str())
}

#[test]
fn reports_a_tile_after_two_exchanges(rt: HostRuntime) -> Result<(), Fail> {
    expect_tile(&rt, TWO_EXCHANGES, "\"1-1\"", 'f')
}

#[test]
fn restarts_where_the_file_is_replaced_between_requests(rt: HostRuntime) -> Result<(), Fail> {
    expect_tile(&rt, REPLACED_BETWEEN, "\"1-2\"", '0')
}

#[test]
fn restarts_where_the_server_is_restarted_between_requests(rt: HostRuntime) -> Result<(), Fail> {
    expect_tile(&rt, RESTARTED_BETWEEN, "\"2-1\"", 'f')
}

#[test]
fn asks_again_for_what_it_forgot(rt: HostRuntime) -> Result<(), Fail> {
    expect_after(&rt, "f2.tif", FORGETTING)
}

#[test]
fn reports_the_numbers_of_levels_and_keys(rt: HostRuntime) -> Result<(), Fail> {
    expect_after(&rt, "f3.tif", INFO)
}

#[test]
fn reports_windows_of_each_level(rt: HostRuntime) -> Result<(), Fail> {
    expect_after(&rt, "f3.tif", LEVELS)
}

#[test]
fn reports_three_samples_to_a_pixel(rt: HostRuntime) -> Result<(), Fail> {
    expect_after(&rt, "f4.tif", THREE_SAMPLES)
}

#[test]
fn reports_samples_of_16_bits_of_both_orders_of_bytes(rt: HostRuntime) -> Result<(), Fail> {
    for file in ["f6.tif", "f6m.tif"] {
        expect_after(&rt, file, SIXTEEN_BITS)?;
    }
    Ok(())
}

#[test]
fn reports_all_samples_of_a_larger_file(rt: HostRuntime) -> Result<(), Fail> {
    let (script, log) = texts_of_f5(rt.alloc())?;
    let events = events_of_f5(rt.alloc(), script.as_str())?;
    let texts = (script.as_str(), log.as_str());
    expect_log(&rt, &events, texts, None)?;
    for piece in PIECES {
        expect_log(&rt, &events, texts, Some(piece))?;
    }
    Ok(())
}
