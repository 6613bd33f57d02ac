//! Answers that come late, cut, again, of other statuses or to a client of another name, and checks, as scripts with their logs.
use super::{Course, expect, expect_course, texts_of};
use std::alloc::Global;
use std::test::Fail;

/// An answer that comes after its revision was replaced, and answers to requests that others made.
#[rattlefmt::skip]
const LATE_ANSWERS: Course = ("f2.tif", &[
    ("client a 66", "client 0"),
    ("open 0 level 0 240 240 16 16", "opened 0"),
    ("exchange 0", "asked 0 0-65535 - answer 0 206 65536 took 4"),
    ("ask 474554202f6120485454502f312e310d0a486f73743a20680d0a0d0a", "answer 1 200 67706"),
    ("publish a f2b.tif", "published \"1-2\""),
    ("askfrom 0", "asked 0 65536-67705 \"1-1\" answer 2 200 67706"),
    ("deliver 0 2 -", "delivered 0 restarted"),
    ("askfrom 0", "asked 0 65536-67705 \"1-2\" answer 3 206 2170"),
    ("deliver 0 1 -", "delivered 0 restarted"),
    ("deliver 0 3 -", "delivered 0 ignored 10"),
    ("exchange 0", "asked 0 65536-67705 \"1-1\" answer 4 200 67706 restarted"),
]);

/// The first answer comes again after its revision was replaced.
#[rattlefmt::skip]
const LATE_PART: Course = ("f2.tif", &[
    ("client a 66", "client 0"),
    ("open 0 level 0 240 240 16 16", "opened 0"),
    ("exchange 0", "asked 0 0-65535 - answer 0 206 65536 took 4"),
    ("publish a f2b.tif", "published \"1-2\""),
    ("exchange 0", "asked 0 65536-67705 \"1-1\" answer 1 200 67706 restarted"),
    ("deliver 0 0 -", "delivered 0 ignored 10"),
]);

/// The first answer, whose head has 171 bytes, is cut in its head, before the end of its first block, and after it. A cut past its end is
/// none.
#[rattlefmt::skip]
const CUT_ANSWERS: Course = ("f2.tif", &[
    ("client a 66", "client 0"),
    ("client a 66", "client 1"),
    ("client a 66", "client 2"),
    ("client a 66", "client 3"),
    ("open 0 level 0 240 240 16 16", "opened 0"),
    ("open 1 level 0 240 240 16 16", "opened 1"),
    ("open 2 level 0 240 240 16 16", "opened 2"),
    ("open 3 level 0 240 240 16 16", "opened 3"),
    ("askfrom 0", "asked 0 0-65535 - answer 0 206 65536"),
    ("askfrom 1", "asked 1 0-65535 - answer 1 206 65536"),
    ("askfrom 2", "asked 2 0-65535 - answer 2 206 65536"),
    ("askfrom 3", "asked 3 0-65535 - answer 3 206 65536"),
    ("deliver 0 0 170", "delivered 0 ignored 1"),
    ("deliver 1 1 16554", "delivered 1 took 0"),
    ("deliver 2 2 16555", "delivered 2 took 1"),
    ("deliver 3 3 4294967295", "delivered 3 took 4"),
    ("askfrom 0", "asked 0 0-65535 - answer 4 206 65536"),
    ("askfrom 1", "asked 1 0-16383 \"1-1\" answer 5 206 16384"),
    ("askfrom 2", "asked 2 65536-67705 \"1-1\" answer 6 206 2170"),
    ("askfrom 3", "asked 3 65536-67705 \"1-1\" answer 7 206 2170"),
]);

/// The answers to a GET and a HEAD of `/b` aren't delivered to a client of `a`. One to `/c`, which no file has, is delivered. An answer
/// that wasn't sent isn't delivered, nor one to a client that isn't there.
#[rattlefmt::skip]
const OTHER_NAMES: Course = ("f1.tif", &[
    ("publish b f2.tif", "published \"1-2\""),
    ("client a 66", "client 0"),
    ("open 0 level 0 2 1 3 2", "opened 0"),
    ("ask 474554202f6220485454502f312e310d0a486f73743a20680d0a0d0a", "answer 0 200 67706"),
    ("ask 48454144202f6220485454502f312e310d0a486f73743a20680d0a0d0a", "answer 1 200 0"),
    ("askfrom 0", "asked 0 0-65535 - answer 2 206 378"),
    ("ask 474554202f6320485454502f312e310d0a486f73743a20680d0a0d0a", "answer 3 404 0"),
    ("deliver 0 0 -", "skipped"),
    ("deliver 0 1 -", "skipped"),
    ("deliver 0 3 -", "delivered 0 ignored 3 404"),
    ("deliver 0 4 -", "skipped"),
    ("deliver 1 2 -", "skipped"),
    ("deliver 0 2 -", "delivered 0 took 1\nreport 0 \"1-1\" window 3 2 1 121314222324"),
    ("deliver 0 2 -", "delivered 0 ignored 12"),
    ("askfrom 0", "asked 0 nothing"),
    ("askfrom 1", "skipped"),
]);

/// Answers of each status that isn't used, to messages that others sent, and the head of the file without its bytes. That head brings the
/// revision, and no block of it.
#[rattlefmt::skip]
const OTHER_STATUSES: Course = ("f1.tif", &[
    ("client a 66", "client 0"),
    ("open 0 level 0 2 1 3 2", "opened 0"),
    ("askfrom 0", "asked 0 0-65535 - answer 0 206 378"),
    ("ask 00", "answer 1 400 0"),
    ("deliver 0 1 -", "delivered 0 ignored 3 400"),
    ("ask 474554202f6120485454502f312e310d0a0d0a", "answer 2 400 0"),
    ("deliver 0 2 -", "delivered 0 ignored 3 400"),
    ("ask 474554202f6320485454502f312e310d0a486f73743a20680d0a0d0a", "answer 3 404 0"),
    ("deliver 0 3 -", "delivered 0 ignored 3 404"),
    ("ask 44454c455445202f6120485454502f312e310d0a486f73743a20680d0a0d0a", "answer 4 405 0"),
    ("deliver 0 4 -", "delivered 0 ignored 3 405"),
    ("ask 474554202f6120485454502f312e310d0a486f73743a20680d0a49662d4d617463683a202231220d0a0d0a", "answer 5 412 0"),
    ("deliver 0 5 -", "delivered 0 ignored 3 412"),
    ("ask 474554202f6120485454502f312e310d0a486f73743a20680d0a52616e67653a2062797465733d3337382d0d0a0d0a", "answer 6 416 0"),
    ("deliver 0 6 -", "delivered 0 ignored 3 416"),
    ("ask 474554202f6120485454502f312e310d0a486f73743a20680d0a49662d4e6f6e652d4d617463683a202a0d0a0d0a", "answer 7 304 0"),
    ("deliver 0 7 -", "delivered 0 ignored 3 304"),
    ("ask 48454144202f6120485454502f312e310d0a486f73743a20680d0a0d0a", "answer 8 200 0"),
    ("deliver 0 8 -", "delivered 0 took 0"),
    ("deliver 0 1 -", "delivered 0 ignored 3 400"),
    ("exchange 0", "asked 0 0-377 \"1-1\" answer 9 206 378 took 1\nreport 0 \"1-1\" window 3 2 1 121314222324"),
]);

/// Another query is opened, and the first answer comes again before anything is asked.
#[rattlefmt::skip]
const OPENED_BETWEEN: Course = ("f2.tif", &[
    ("client a 66", "client 0"),
    ("open 0 level 0 240 240 16 16", "opened 0"),
    ("exchange 0", "asked 0 0-65535 - answer 0 206 65536 took 4"),
    ("open 0 level 0 0 0 1 1", "opened 0"),
    ("deliver 0 0 -", "delivered 0 ignored 12"),
    ("askfrom 0", "asked 0 nothing\nreport 0 \"1-1\" window 1 1 1 00"),
]);

/// Checks of a client without a revision, of the file that it reads, of another one that replaced it, and of none.
#[rattlefmt::skip]
const CHECKS: Course = ("f1.tif", &[
    ("client a 66", "client 0"),
    ("check 0", "checked 0 nothing"),
    ("open 0 level 0 2 1 3 2", "opened 0"),
    ("exchange 0", "asked 0 0-65535 - answer 0 206 378 took 1\nreport 0 \"1-1\" window 3 2 1 121314222324"),
    ("check 0", "checked 0 \"1-1\" answer 1 304 0 same"),
    ("publish a f1m.tif", "published \"1-2\""),
    ("check 0", "checked 0 \"1-1\" answer 2 200 0 other"),
    ("epoch 2", "epoch 2"),
    ("check 0", "checked 0 \"1-1\" answer 3 404 0 unknown 3"),
    ("check 1", "skipped"),
]);

/// A tile that isn't packed in any way is a fault of a window of its level alone.
#[rattlefmt::skip]
const DAMAGED_TILE: Course = ("damaged.tif", &[
    ("client a 66", "client 0"),
    ("open 0 level 1 0 0 1 1", "opened 0"),
    ("exchange 0", "asked 0 0-65535 - answer 0 206 1456 took 1\nreport 0 \"1-1\" fault 13"),
    ("open 0 level 0 0 0 1 1", "opened 0"),
    ("askfrom 0", "asked 0 nothing\nreport 0 \"1-1\" window 1 1 1 10"),
]);

/// The whole image in at least 16 columns is its second level, and in at least 17 its first. The reports end in samples.
const LEVELS_BY_COLUMNS: &str =
    "epoch 1\npublish a f3.tif\nclient a 66\nopen 0 columns 16 0 0 32 32\nexchange 0\n\
    open 0 columns 17 0 0 32 32\nexchange 0\n";

#[test]
fn restarts_once_and_ignores_answers_of_the_replaced_revision(rt: HostRuntime) -> Result<(), Fail> {
    expect_course(&rt, LATE_ANSWERS)
}

#[test]
fn ignores_a_part_of_another_revision(rt: HostRuntime) -> Result<(), Fail> {
    expect_course(&rt, LATE_PART)
}

#[test]
fn takes_the_whole_blocks_of_a_cut_answer(rt: HostRuntime) -> Result<(), Fail> {
    expect_course(&rt, CUT_ANSWERS)
}

#[test]
fn delivers_no_answer_to_a_client_of_another_name(rt: HostRuntime) -> Result<(), Fail> {
    expect_course(&rt, OTHER_NAMES)
}

#[test]
fn ignores_answers_of_other_statuses(rt: HostRuntime) -> Result<(), Fail> {
    expect_course(&rt, OTHER_STATUSES)
}

#[test]
fn ignores_an_answer_that_was_not_asked_for(rt: HostRuntime) -> Result<(), Fail> {
    expect_course(&rt, OPENED_BETWEEN)
}

#[test]
fn tells_whether_the_file_is_the_same_as_checked(rt: HostRuntime) -> Result<(), Fail> {
    expect_course(&rt, CHECKS)
}

#[test]
fn reports_a_damaged_tile_for_its_level_alone(rt: HostRuntime) -> Result<(), Fail> {
    expect_course(&rt, DAMAGED_TILE)
}

/// Expects that the last request of the client to which answers came late brings the report.
#[test]
fn reports_after_late_answers_and_a_restart(rt: HostRuntime) -> Result<(), Fail> {
    let alloc = rt.alloc();
    let digits = [b'0'; 512];
    let digits = str::from_utf8(&digits)?;
    let (script, log) = texts_of(alloc, LATE_ANSWERS)?;
    let script = format!(in alloc; "{}exchange 0\n", script.as_str())?;
    let log = format!(in alloc;
        "{}asked 0 65536-67705 \"1-2\" answer 5 206 2170 took 1\nreport 0 \"1-2\" window 16 16 1 {digits}\n",
        log.as_str()
    )?;
    expect(&rt, script.as_str(), log.as_str())
}

/// Returns the samples of f3's levels as digits, row by row. In the second level each row has its number, and in the first each tile has
/// its own value.
fn digits_of_levels(alloc: Global) -> Result<(String, String), Fail> {
    let mut second = String::new(alloc);
    for y in 0..16u8 {
        for _ in 0..16 {
            second.push_str(format!(in alloc; "{y:02x}")?.as_str())?;
        }
    }
    let mut first = String::new(alloc);
    for y in 0..32u8 {
        for x in 0..32u8 {
            let tile = y / 16 * 2 + x / 16;
            first.push_str(format!(in alloc; "{:02x}", 16 + tile)?.as_str())?;
        }
    }
    Ok((first, second))
}

#[test]
fn picks_the_smallest_level_of_enough_columns(rt: HostRuntime) -> Result<(), Fail> {
    let alloc = rt.alloc();
    let (first, second) = digits_of_levels(alloc)?;
    let log = format!(in alloc;
        "epoch 1\npublished \"1-1\"\nclient 0\nopened 0\nasked 0 0-65535 - answer 0 206 1456 took 1\n\
        report 0 \"1-1\" window 16 16 1 {second}\nopened 0\nasked 0 nothing\n\
        report 0 \"1-1\" window 32 32 1 {first}\n"
    )?;
    expect(&rt, LEVELS_BY_COLUMNS, log.as_str())
}
