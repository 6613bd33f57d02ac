//! The events of the lines of a script, and the lines that are no events.
use assertion_support::expect_eq;
use scripts::{Loaded, ScriptError, script};
use std::alloc::Global;
use std::process::Abort;
use std::test::Fail;
use tiff_dir::{Pick, Query};
use world::Event;

/// Returns the events of a script that may publish `data/f`, a file of four bytes.
fn events(alloc: Global, text: &[u8]) -> Result<Vec<Event>, ScriptError> {
    let mut files = Loaded::new(alloc);
    let bytes = Vec::from_slice(alloc, b"FILE").map_err(|_| ScriptError::Memory)?;
    if files.add(b"data/f", bytes).is_err() {
        return Err(ScriptError::Memory);
    }
    script(alloc, text, &mut files)
}

const QUERY: Query = Query::Window {
    x: 3,
    y: 4,
    w: 5,
    h: 6,
    pick: Pick::Level(2),
};

const BY_COLUMNS: Query = Query::Window {
    x: 3,
    y: 4,
    w: 5,
    h: 6,
    pick: Pick::Columns(2),
};

/// Returns whether an event delivers a part of answer 5 to client 6, up to the place `want` or whole.
fn is_delivery(event: &Event, want: Option<u32>) -> bool {
    matches!(event, Event::Deliver { client: 6, answer: 5, cut } if *cut == want)
}

/// Returns whether an event publishes this file under this name.
fn is_publication(event: &Event, want: (&[u8], &[u8])) -> bool {
    matches!(event, Event::Publish { name, file } if (name.as_slice(), file.as_slice()) == want)
}

/// Returns whether an event makes a client of this name, with the greatest number of blocks.
fn is_client(event: &Event, want: &[u8]) -> bool {
    matches!(event, Event::NewClient { name, blocks: u32::MAX } if name.as_slice() == want)
}

/// Returns whether an event asks this message.
fn is_ask(event: &Event, want: &[u8]) -> bool {
    matches!(event, Event::Ask(message) if message.as_slice() == want)
}

/// Returns whether an event is event `n` of a script with one of each kind.
fn is_event(n: usize, event: &Event) -> bool {
    match n {
        0 => matches!(event, Event::Epoch(7)),
        1 => is_publication(event, (b"a", b"FILE")),
        2 => is_client(event, b"b/c"),
        3 => matches!(event, Event::Open { client: 1, query } if *query == QUERY),
        4 => matches!(event, Event::Exchange(9)),
        5 => is_ask(event, b"\x00\xff\xab"),
        6 => matches!(
            event,
            Event::Open {
                client: 0,
                query: Query::Info
            }
        ),
        7 => matches!(event, Event::Open { client: 1, query } if *query == BY_COLUMNS),
        8 => matches!(event, Event::Forget(8)),
        9 => matches!(event, Event::AskFrom(7)),
        10 => is_delivery(event, Some(4)),
        11 => is_delivery(event, None),
        12 => matches!(event, Event::Check(u32::MAX)),
        _ => false,
    }
}

/// Expects one event of each kind.
fn expect_events(rt: &impl Abort, events: &[Event]) {
    expect_eq!(rt; events.len(), 13);
    for (n, event) in events.iter().enumerate() {
        assert!(rt; is_event(n, event), "event {n}");
    }
}

#[test]
fn reads_an_event_of_each_kind(rt: HostRuntime) -> Result<(), Fail> {
    let text = b"# a comment\n\nepoch 007\npublish a data/f\nclient b/c 4294967295\n\
        open 1 level 2 3 4 5 6\n\nexchange 9\nask 00fFAb\nopen 0 info\nopen 1 columns 2 3 4 5 6\nforget 8\n\
        askfrom 7\ndeliver 6 5 4\ndeliver 6 5 -\ncheck 4294967295\n";
    expect_events(&rt, &events(rt.alloc(), text)?);
    Ok(())
}

/// Lines that are no events: of other forms, with other spaces or ends, with greater numbers, and of events that don't exist.
const NO_EVENTS: [&str; 36] = [
    "exchange",
    "exchange 0 0",
    "exchange 4294967296",
    "exchange 99999999999999999999999999999999999999999",
    "exchange -1",
    "exchange +1",
    "exchange 0x1",
    "exchange 1 ",
    " exchange 1",
    "exchange  1",
    "exchange 1\r",
    "\r",
    " ",
    "Exchange 1",
    "publish a",
    "publish  data/f",
    "epoch",
    "client a",
    "client a many",
    "open 0 level 0 1 1 1",
    "open 0 level 0 1 1 1 1 1",
    "open 0 info 0",
    "open 0 columns 1 1 1 1",
    "forget",
    "forget 0 0",
    "ask",
    "ask 0",
    "ask 0x00",
    "ask 00 00",
    "askfrom",
    "deliver 0 0",
    "deliver 0 0 --",
    "deliver 0 - -",
    "deliver 0 0 4294967296",
    "check",
    "check 0 0",
];

/// Expects that a line is no event.
fn expect_no_event(rt: &(impl Abort + AllocGlobal), line: &str) -> Result<(), Fail> {
    let text = format!(in rt.alloc(); "epoch 1\n#\n{line}\npublish a nowhere\n")?;
    let refusal = events(rt.alloc(), text.as_bytes()).err();
    expect_eq!(rt; refusal, Some(ScriptError::NotAnEvent(3)), "{line:?}");
    Ok(())
}

#[test]
fn refuses_a_line_of_another_form(rt: HostRuntime) -> Result<(), Fail> {
    for line in NO_EVENTS {
        expect_no_event(&rt, line)?;
    }
    Ok(())
}

#[test]
fn tells_the_first_line_that_fails(rt: HostRuntime) {
    let text = b"\n\npublish a nowhere\npublish a data/f\nno event\n";
    expect_eq!(rt;
        events(rt.alloc(), text).err(),
        Some(ScriptError::CantRead(3))
    );
}

#[test]
fn takes_comments_and_empty_lines_for_no_event(rt: HostRuntime) -> Result<(), Fail> {
    for text in ["", "\n", "\n\n# only this", "#\r\n"] {
        assert_eq!(rt; events(rt.alloc(), text.as_bytes())?.len(), 0, "{text:?}");
    }
    Ok(())
}
