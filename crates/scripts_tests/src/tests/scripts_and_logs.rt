//! Worked rows as scripts with their logs.
use super::{Steps, expect, expect_after, expect_log, expect_steps};
use std::alloc::{AllocError, Global};
use std::test::Fail;
use world::Event;

/// A window of f1.
#[rattlefmt::skip]
pub const ONE_WINDOW: Steps = &[
    ("open 0 level 0 2 1 3 2", "opened 0"),
    ("exchange 0", "asked 0 0-65535 - answer 0 206 378 took 1\nreport 0 \"1-1\" window 3 2 1 121314222324"),
];

/// The last sample of f1, and windows that its only level doesn't have.
#[rattlefmt::skip]
const LAST_SAMPLE_AND_OUTSIDE: Steps = &[
    ("open 0 level 0 15 15 1 1", "opened 0"),
    ("exchange 0", "asked 0 0-65535 - answer 0 206 378 took 1\nreport 0 \"1-1\" window 1 1 1 ff"),
    ("open 0 level 0 16 0 1 1", "opened 0"),
    ("exchange 0", "asked 0 nothing\nreport 0 \"1-1\" fault 14"),
    ("open 0 level 0 0 0 0 1", "opened 0"),
    ("exchange 0", "asked 0 nothing\nreport 0 \"1-1\" fault 14"),
    ("open 0 level 0 4294967295 0 2 1", "opened 0"),
    ("exchange 0", "asked 0 nothing\nreport 0 \"1-1\" fault 14"),
    ("open 0 level 1 0 0 1 1", "opened 0"),
    ("exchange 0", "asked 0 nothing\nreport 0 \"1-1\" fault 14"),
];

/// Files that each have another fault.
#[rattlefmt::skip]
const DAMAGED_DIRECTORIES: Steps = &[
    ("epoch 1", "epoch 1"),
    ("publish a loop.tif", "published \"1-1\""),
    ("publish b coded.tif", "published \"1-2\""),
    ("publish c tile.tif", "published \"1-3\""),
    ("publish d short.tif", "published \"1-4\""),
    ("client a 66", "client 0"),
    ("client b 66", "client 1"),
    ("client c 66", "client 2"),
    ("client d 66", "client 3"),
    ("open 0 level 0 0 0 1 1", "opened 0"),
    ("open 1 level 0 0 0 1 1", "opened 1"),
    ("open 2 level 0 0 0 1 1", "opened 2"),
    ("open 3 level 0 0 0 1 1", "opened 3"),
    ("exchange 0", "asked 0 0-65535 - answer 0 206 378 took 1\nreport 0 \"1-1\" fault 6"),
    ("exchange 1", "asked 1 0-65535 - answer 1 206 378 took 1\nreport 1 \"1-2\" fault 9 259"),
    ("exchange 2", "asked 2 0-65535 - answer 2 206 378 took 1\nreport 2 \"1-3\" fault 12"),
    ("exchange 3", "asked 3 0-65535 - answer 3 206 377 took 1\nreport 3 \"1-4\" fault 2"),
];

/// Events that are skipped, a file that is replaced, and later epochs.
#[rattlefmt::skip]
const EPOCHS_AND_REPLACEMENTS: Steps = &[
    ("exchange 0", "skipped"),
    ("open 0 level 0 0 0 1 1", "skipped"),
    ("epoch 0", "skipped"),
    ("publish a f1.tif", "published \"0-1\""),
    ("epoch 1", "epoch 1"),
    ("epoch 1", "skipped"),
    ("client a 65", "skipped"),
    ("client a 4097", "skipped"),
    ("client a 4096", "client 0"),
    ("open 0 level 0 1 0 1 1", "opened 0"),
    ("exchange 0", "asked 0 0-65535 - answer 0 404 0 ignored 3 404"),
    ("publish a f1.tif", "published \"1-1\""),
    ("open 0 level 0 1 0 1 1", "opened 0"),
    ("exchange 0", "asked 0 0-65535 - answer 1 206 378 took 1\nreport 0 \"1-1\" window 1 1 1 01"),
    ("exchange 0", "asked 0 nothing"),
    ("publish a f1m.tif", "published \"1-2\""),
    ("open 0 level 0 1 0 1 1", "opened 0"),
    ("exchange 0", "asked 0 nothing\nreport 0 \"1-1\" window 1 1 1 01"),
    ("epoch 0", "skipped"),
    ("epoch 2", "epoch 2"),
    ("publish a f1.tif", "published \"2-1\""),
    ("open 0 level 0 1 0 1 1", "opened 0"),
    ("exchange 0", "asked 0 nothing\nreport 0 \"1-1\" window 1 1 1 01"),
    ("forget 0", "forgot 0"),
    ("exchange 0", "asked 0 0-65535 - answer 2 206 378 took 1\nreport 0 \"2-1\" window 1 1 1 01"),
];

/// Messages of any bytes. The request for the last byte of `a` is among them, and an exchange is between them.
#[rattlefmt::skip]
const ASKS: Steps = &[
    ("epoch 1", "epoch 1"),
    ("publish a f1.tif", "published \"1-1\""),
    ("ask 474554202f6120485454502f312e310d0a486f73743a20680d0a52616e67653a2062797465733d3337372d0d0a0d0a", "answer 0 206 1"),
    ("ask 00", "answer 1 400 0"),
    ("client a 66", "client 0"),
    ("open 0 level 0 2 1 3 2", "opened 0"),
    ("exchange 0", "asked 0 0-65535 - answer 2 206 378 took 1\nreport 0 \"1-1\" window 3 2 1 121314222324"),
    ("epoch 2", "epoch 2"),
    ("ask 474554202F6120485454502F312E310D0A486F73743A20680D0A52616E67653A2062797465733D3337372D0D0A0D0A", "answer 3 404 0"),
];

/// Two clients, each of another name.
#[rattlefmt::skip]
const TWO_NAMES_AND_TWO_CLIENTS: Steps = &[
    ("epoch 7", "epoch 7"),
    ("publish a f1.tif", "published \"7-1\""),
    ("publish b/c loop.tif", "published \"7-2\""),
    ("client b/c 66", "client 0"),
    ("client a 66", "client 1"),
    ("open 0 level 0 0 0 1 1", "opened 0"),
    ("open 1 level 0 3 3 2 1", "opened 1"),
    ("exchange 1", "asked 1 0-65535 - answer 0 206 378 took 1\nreport 1 \"7-1\" window 2 1 1 3334"),
    ("open 1 level 0 4 4 1 2", "opened 1"),
    ("exchange 0", "asked 0 0-65535 - answer 1 206 378 took 1\nreport 0 \"7-2\" fault 6"),
    ("exchange 1", "asked 1 nothing\nreport 1 \"7-1\" window 1 2 1 4454"),
    ("exchange 2", "skipped"),
];

#[test]
fn reports_the_same_window_of_both_orders_of_bytes(rt: HostRuntime) -> Result<(), Fail> {
    for file in ["f1.tif", "f1m.tif"] {
        expect_after(&rt, file, ONE_WINDOW)?;
    }
    Ok(())
}

#[test]
fn reports_windows_outside_the_level_as_a_fault(rt: HostRuntime) -> Result<(), Fail> {
    expect_after(&rt, "f1.tif", LAST_SAMPLE_AND_OUTSIDE)
}

#[test]
fn reports_the_fault_of_each_damaged_file(rt: HostRuntime) -> Result<(), Fail> {
    expect_steps(&rt, DAMAGED_DIRECTORIES)
}

#[test]
fn reports_of_the_publication_that_the_client_reads(rt: HostRuntime) -> Result<(), Fail> {
    expect_steps(&rt, EPOCHS_AND_REPLACEMENTS)
}

#[test]
fn answers_messages_of_any_bytes(rt: HostRuntime) -> Result<(), Fail> {
    expect_steps(&rt, ASKS)
}

#[test]
fn keeps_clients_of_two_names_apart(rt: HostRuntime) -> Result<(), Fail> {
    expect_steps(&rt, TWO_NAMES_AND_TWO_CLIENTS)
}

/// Expects the log of a script that publishes f1 under names of 1 to 200 bytes and others, and an empty file.
#[test]
fn refuses_names_of_other_bytes_and_empty_files(rt: HostRuntime) -> Result<(), Fail> {
    let name = [b'n'; 201];
    let name = str::from_utf8(&name)?;
    let text = format!(in rt.alloc();
        "publish {name} f1.tif\npublish {} f1.tif\npublish a? f1.tif\npublish A.z_0-9/ f1.tif\npublish a empty\n",
        &name[..200]
    )?;
    expect(
        &rt,
        text.as_str(),
        "refused 1\npublished \"0-1\"\nrefused 1\npublished \"0-2\"\nrefused 2\n",
    )
}

/// Makes the publication of `len` zero bytes as `a`.
fn publication(alloc: Global, len: usize) -> Result<Event, AllocError> {
    let name = Vec::from_slice(alloc, b"a")?;
    let file = vec![in alloc; 0; len]?;
    Ok(Event::Publish { name, file })
}

#[test]
fn refuses_a_file_past_the_limit(rt: HostRuntime) -> Result<(), Fail> {
    let mut events = Vec::new(rt.alloc());
    for len in [67_108_865, 67_108_864] {
        events.push(publication(rt.alloc(), len)?)?;
    }
    let texts = ("two publications", "refused 3\npublished \"0-1\"\n");
    expect_log(&rt, &events, texts, None)
}

/// Returns a script that publishes f1 under 65 names and under the 64th again, and its log.
fn texts_of_65_names(alloc: Global) -> Result<(String, String), AllocError> {
    let mut text = String::new(alloc);
    let mut want = String::new(alloc);
    for i in 0..64u8 {
        text.push_str(format!(in alloc; "publish n{i} f1.tif\n")?.as_str())?;
        want.push_str(format!(in alloc; "published \"0-{}\"\n", i + 1)?.as_str())?;
    }
    text.push_str("publish n64 f1.tif\npublish n63 f1.tif\n")?;
    want.push_str("refused 4\npublished \"0-65\"\n")?;
    Ok((text, want))
}

/// Expects that 64 names are taken, and a further one is refused. A name that is there is published again.
#[test]
fn refuses_the_65th_name(rt: HostRuntime) -> Result<(), Fail> {
    let (text, want) = texts_of_65_names(rt.alloc())?;
    expect(&rt, text.as_str(), want.as_str())
}
