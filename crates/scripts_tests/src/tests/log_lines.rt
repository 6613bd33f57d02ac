//! The lines of each kind of entry of a log.
use http_range::{Span, Tag, Why, publication_tag};
use scripts::log_text;
use std::alloc::Global;
use std::process::Abort;
use std::test::Fail;
use tiff_dir::{FileFault, Pick, Query};
use world::{
    Answer, AnsweredCheck, AnsweredRequest, Current, Delivered, Effect, Entry, Ignored, Log,
    Outcome, PublishError, Report, Unknown, Window,
};

const QUERY: Query = Query::Window {
    x: 3,
    y: 4,
    w: 5,
    h: 6,
    pick: Pick::Level(2),
};

/// Makes an entry without a report.
fn quiet(effect: Effect) -> Entry {
    Entry {
        effect,
        report: None,
    }
}

/// Makes an entry of an opening, with the report of this outcome.
fn opened(client: u32, outcome: Outcome) -> Entry {
    Entry {
        effect: Effect::Opened(client),
        report: Some(Report {
            query: QUERY,
            tag: publication_tag(1, 2),
            outcome,
        }),
    }
}

/// Makes an answer without a text. It has this status, and a body of `body` bytes.
fn answer(alloc: Global, status: u16, body: u64) -> Answer {
    Answer {
        text: Vec::new(alloc),
        close: true,
        name: None,
        status,
        body,
    }
}

/// Makes a request of client 4, whose answer has number 5, status 206 and two bytes of body.
fn asked(alloc: Global, tag: Option<Tag>) -> AnsweredRequest {
    AnsweredRequest {
        client: 4,
        span: Span {
            first: 16384,
            last: 65535,
        },
        tag,
        request: Vec::new(alloc),
        number: 5,
        answer: answer(alloc, 206, 2),
    }
}

/// Makes a check of client 6, whose answer has number 8 and status 304.
fn checked(alloc: Global, current: Current) -> Effect {
    Effect::Checked(AnsweredCheck {
        client: 6,
        tag: publication_tag(1, 2),
        request: Vec::new(alloc),
        number: 8,
        answer: answer(alloc, 304, 0),
        current,
    })
}

/// Returns the text of a log of one entry.
fn text_of(alloc: Global, entry: Entry) -> Result<Vec<u8>, Fail> {
    let mut log = Log::new(alloc);
    log.entries.push(entry)?;
    Ok(log_text(alloc, &log)?)
}

/// Expects the text of an entry.
fn expect_text(rt: &(impl Abort + AllocGlobal), entry: Entry, want: &str) -> Result<(), Fail> {
    let text = text_of(rt.alloc(), entry)?;
    assert_eq!(rt; str::from_utf8(&text), Ok(want));
    Ok(())
}

/// Expects the line of an entry without a report.
fn expect_line(rt: &(impl Abort + AllocGlobal), effect: Effect, want: &str) -> Result<(), Fail> {
    expect_text(rt, quiet(effect), want)
}

/// Expects the line of a refused publication.
fn expect_refused(
    rt: &(impl Abort + AllocGlobal),
    refusal: PublishError,
    want: &str,
) -> Result<(), Fail> {
    expect_line(rt, Effect::Refused(refusal), want)
}

#[test]
fn writes_a_line_for_each_effect(rt: HostRuntime) -> Result<(), Fail> {
    expect_line(&rt, Effect::Skipped, "skipped\n")?;
    let last = Effect::Published(publication_tag(4294967295, 4294967295));
    expect_line(&rt, last, "published \"4294967295-4294967295\"\n")?;
    expect_refused(&rt, PublishError::Name, "refused 1\n")?;
    expect_refused(&rt, PublishError::Empty, "refused 2\n")?;
    expect_refused(&rt, PublishError::TooLarge, "refused 3\n")?;
    expect_refused(&rt, PublishError::TooManyNames, "refused 4\n")?;
    expect_refused(&rt, PublishError::Exhausted, "refused 5\n")?;
    expect_line(&rt, Effect::Epoch(0), "epoch 0\n")?;
    expect_line(&rt, Effect::Made(10), "client 10\n")?;
    expect_line(&rt, Effect::Opened(0), "opened 0\n")?;
    expect_line(&rt, Effect::Forgot(2), "forgot 2\n")?;
    expect_line(&rt, Effect::Nothing(3), "asked 3 nothing\n")?;
    expect_line(&rt, Effect::Unchecked(9), "checked 9 nothing\n")
}

/// Expects the line of a request.
fn expect_asked(rt: &(impl Abort + AllocGlobal), tag: Option<Tag>, want: &str) -> Result<(), Fail> {
    expect_line(rt, Effect::Asked(asked(rt.alloc(), tag)), want)
}

/// Expects the line of a check.
fn expect_checked(
    rt: &(impl Abort + AllocGlobal),
    current: Current,
    want: &str,
) -> Result<(), Fail> {
    expect_line(rt, checked(rt.alloc(), current), want)
}

#[test]
fn writes_the_number_and_status_of_an_answer(rt: HostRuntime) -> Result<(), Fail> {
    let answered = Effect::Answered {
        number: 7,
        answer: answer(rt.alloc(), 416, 0),
    };
    expect_line(&rt, answered, "answer 7 416 0\n")?;
    let tag = Some(publication_tag(1, 2));
    expect_asked(&rt, None, "asked 4 16384-65535 - answer 5 206 2\n")?;
    expect_asked(&rt, tag, "asked 4 16384-65535 \"1-2\" answer 5 206 2\n")?;
    let (none, other) = (Unknown::NoRevision, Unknown::NotUsed(Why::Status(404)));
    let (none, other) = (Current::Unknown(none), Current::Unknown(other));
    expect_checked(
        &rt,
        Current::Same,
        "checked 6 \"1-2\" answer 8 304 0 same\n",
    )?;
    expect_checked(
        &rt,
        Current::Other,
        "checked 6 \"1-2\" answer 8 304 0 other\n",
    )?;
    expect_checked(&rt, none, "checked 6 \"1-2\" answer 8 304 0 unknown 12\n")?;
    expect_checked(&rt, other, "checked 6 \"1-2\" answer 8 304 0 unknown 3\n")
}

/// A row has a delivery, and its text in the log.
const DELIVERED: [(Delivered, &str); 8] = [
    (Delivered::Took(4), "took 4"),
    (Delivered::Restarted, "restarted"),
    (Delivered::Ignored(Ignored::OtherRevision), "ignored 10"),
    (Delivered::Ignored(Ignored::OtherLength), "ignored 11"),
    (Delivered::Ignored(Ignored::NotAsked), "ignored 12"),
    (Delivered::Ignored(Ignored::NotUsed(Why::Cut)), "ignored 1"),
    (
        Delivered::Ignored(Ignored::NotUsed(Why::Coding)),
        "ignored 9",
    ),
    (
        Delivered::Ignored(Ignored::NotUsed(Why::Status(404))),
        "ignored 3 404",
    ),
];

/// Expects the text of a delivery after an exchange, and after a front of an answer.
fn expect_delivered(
    rt: &(impl Abort + AllocGlobal),
    (delivered, want): (Delivered, &str),
) -> Result<(), Fail> {
    let alloc = rt.alloc();
    let line = format!(in alloc; "asked 4 16384-65535 - answer 5 206 2 {want}\n")?;
    let asked = asked(alloc, None);
    expect_line(rt, Effect::Exchanged { asked, delivered }, line.as_str())?;
    let line = format!(in alloc; "delivered 3 {want}\n")?;
    let client = 3;
    expect_line(rt, Effect::Delivered { client, delivered }, line.as_str())
}

#[test]
fn writes_what_came_of_a_delivery(rt: HostRuntime) -> Result<(), Fail> {
    for row in DELIVERED {
        expect_delivered(&rt, row)?;
    }
    Ok(())
}

/// A row has a fault, and its text in the log.
const FAULTS: [(FileFault, &str); 8] = [
    (FileFault::Header, "fault 1\n"),
    (FileFault::PastEnd, "fault 2\n"),
    (FileFault::Missing(256), "fault 7 256\n"),
    (FileFault::FieldType(325), "fault 8 325\n"),
    (FileFault::Unsupported(65535), "fault 9 65535\n"),
    (FileFault::TileSize, "fault 12\n"),
    (FileFault::TooLarge, "fault 15\n"),
    (FileFault::KeyPlace, "fault 18\n"),
];

/// Expects the text of a fault, after the 24 bytes of its entry and its tag.
fn expect_fault(
    rt: &(impl Abort + AllocGlobal),
    (fault, want): (FileFault, &str),
) -> Result<(), Fail> {
    let text = text_of(rt.alloc(), opened(0, Outcome::Fault(fault)))?;
    assert_eq!(rt; text.get(24..), Some(want.as_bytes()), "{want:?}");
    Ok(())
}

#[test]
fn writes_a_report_below_its_entry(rt: HostRuntime) -> Result<(), Fail> {
    let window = Outcome::Window(Window {
        w: 2,
        h: 1,
        samples: 3,
        bits: 8,
        pixels: Vec::from_slice(rt.alloc(), &[0, 9, 0x10, 0xab, 0xff, 0x0f])?,
    });
    let want = "opened 7\nreport 7 \"1-2\" window 2 1 3 000910abff0f\n";
    expect_text(&rt, opened(7, window), want)?;
    for row in FAULTS {
        expect_fault(&rt, row)?;
    }
    Ok(())
}
