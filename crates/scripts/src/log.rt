//! The text of a log.
ghost use Rattle.std.specs.Prelude.{◌≡◌, ◌++◌, [], ◌∷◌, IfOk, OnOk, codes, decimal};
ghost use Rattle.std.specs.List.{flat_map};
ghost use Rattle.scripts.specs.LogSteps.{further};
ghost use Rattle.scripts.specs.LogText.{answer_words, asked_words, client_of, current_words, delivered_words, effect_words, entry_lines, line, number_if, outcome_words, report_words, spaced, span_word, status_of, tag_word, text_of_log};

use crate::log_text_lines::LogLines;
use http_range::{Memory, Span, Tag, Why};
use itoa::{Buffer, Integer};
use std::alloc::{AllocError, Global};
use tiff_dir::FileFault;
use world::{
    Answer, AnsweredCheck, AnsweredRequest, Current, Delivered, Effect, Entry, Ignored, Info, Log,
    Outcome, Report, Window,
};

/// Returns the text of a log: a line for each entry, and one more for its report (`docs/SCRIPTS.md`). Fails where no memory is left.
pub fn log_text(alloc: Global, log: &Log) -> Result<Vec<u8>, Memory>
    ensures { IfOk result (λ text. text.items ≡ text_of_log log.now.entries.items) }
{
    let mut text = LogLines::new(alloc);
    for entry in &log.entries {
        push_entry(&mut text, entry)?;
    }
    Ok(text.into_bytes())
}

fn push_entry(text: &mut LogLines, entry: &Entry) -> Result<(), AllocError>
    ensures { OnOk result (text.new.bytes.items ≡ text.old.bytes.items ++ flat_map line (entry_lines entry.now)) }
{
    push_effect(text, &entry.effect)?;
    text.end_line()?;
    match (&entry.report, client_of(&entry.effect)) {
        (Some(report), Some(client)) => push_report(text, client, report),
        _ => Ok(()),
    }
}

/// Returns the client that an event was about, if it was about one.
fn client_of(effect: &Effect) -> Option<u32>
    ensures { result ≡ client_of effect.now }
{
    match effect {
        Effect::Opened(client) | Effect::Forgot(client) | Effect::Nothing(client) => Some(*client),
        Effect::Delivered { client, .. } => Some(*client),
        Effect::Exchanged { asked, .. } => Some(asked.client),
        _ => None,
    }
}

fn push_effect(text: &mut LogLines, effect: &Effect) -> Result<(), AllocError>
    ensures { OnOk result (text.new.bytes.items ≡ text.old.bytes.items ++ spaced (effect_words effect.now)) }
{
    match effect {
        Effect::Skipped => text.push(b"skipped"),
        Effect::Published(tag) => {
            text.push(b"published")?;
            text.word(tag.as_bytes())
        }
        Effect::Refused(refusal) => begin_counted(text, b"refused", refusal.number()),
        Effect::Epoch(epoch) => begin_counted(text, b"epoch", *epoch),
        Effect::Made(client) => begin_counted(text, b"client", *client),
        Effect::Opened(client) => begin_counted(text, b"opened", *client),
        Effect::Forgot(client) => begin_counted(text, b"forgot", *client),
        Effect::Nothing(client) => push_nothing(text, b"asked", *client),
        Effect::Answered { number, answer } => {
            text.push(b"answer")?;
            push_numbers(text, *number, answer)
        }
        Effect::Asked(asked) => push_asked(text, asked),
        Effect::Delivered { client, delivered } => {
            begin_counted(text, b"delivered", *client)?;
            push_delivered(text, *delivered)
        }
        Effect::Exchanged { asked, delivered } => {
            push_asked(text, asked)?;
            push_delivered(text, *delivered)
        }
        Effect::Unchecked(client) => push_nothing(text, b"checked", *client),
        Effect::Checked(check) => push_checked(text, check),
    }
}

/// Appends the first word of a line, and its number.
fn begin_counted<I: Integer>(text: &mut LogLines, word: &[u8], number: I) -> Result<(), AllocError>
    ensures { OnOk result (text.new.bytes.items ≡ text.old.bytes.items ++ spaced (word.now ∷ I.text number ∷ [])) }
{
    text.push(word)?;
    text.number(number)
}

/// Appends a further word, and its number.
fn push_counted<I: Integer>(text: &mut LogLines, word: &[u8], number: I) -> Result<(), AllocError>
    ensures { OnOk result (text.new.bytes.items ≡ text.old.bytes.items ++ further (word.now ∷ I.text number ∷ [])) }
{
    text.word(word)?;
    text.number(number)
}

/// Appends the line of a client that has nothing to send.
fn push_nothing(text: &mut LogLines, word: &[u8], client: u32) -> Result<(), AllocError>
    ensures { OnOk result (text.new.bytes.items ≡ text.old.bytes.items ++ spaced (word.now ∷ decimal client ∷ codes "nothing" ∷ [])) }
{
    begin_counted(text, word, client)?;
    text.word(b"nothing")
}

/// Appends a number, if there is one.
fn push_number_if(text: &mut LogLines, number: Option<u16>) -> Result<(), AllocError>
    ensures { OnOk result (text.new.bytes.items ≡ text.old.bytes.items ++ further (number_if number)) }
{
    match number {
        Some(number) => text.number(number),
        None => Ok(()),
    }
}

/// Appends an answer's number, its status code, and the number of bytes of its body.
fn push_numbers(text: &mut LogLines, number: usize, answer: &Answer) -> Result<(), AllocError>
    ensures { OnOk result (text.new.bytes.items
        ≡ text.old.bytes.items ++ further (decimal number ∷ decimal answer.now.status ∷ decimal answer.now.body ∷ [])) }
{
    text.number(number)?;
    text.number(answer.status)?;
    text.number(answer.body)
}

/// Appends an answer as further words.
fn push_answer(text: &mut LogLines, number: usize, answer: &Answer) -> Result<(), AllocError>
    ensures { OnOk result (text.new.bytes.items ≡ text.old.bytes.items ++ further (answer_words number answer.now)) }
{
    text.word(b"answer")?;
    push_numbers(text, number, answer)
}

/// Appends the byte range that a client asked for, the ETag of its condition, and the answer.
fn push_asked(text: &mut LogLines, asked: &AnsweredRequest) -> Result<(), AllocError>
    ensures { OnOk result (text.new.bytes.items ≡ text.old.bytes.items ++ spaced (asked_words asked.now)) }
{
    begin_counted(text, b"asked", asked.client)?;
    push_span(text, asked.span)?;
    push_tag(text, &asked.tag)?;
    push_answer(text, asked.number, &asked.answer)
}

/// Appends the first and the last position, with `-` between them.
fn push_span(text: &mut LogLines, span: Span) -> Result<(), AllocError>
    ensures { OnOk result (text.new.bytes.items ≡ text.old.bytes.items ++ further (span_word span ∷ [])) }
{
    text.number(span.first)?;
    text.push(b"-")?;
    text.push(Buffer::new().format(span.last).as_bytes())
}

/// Appends the ETag, or `-` without one.
fn push_tag(text: &mut LogLines, tag: &Option<Tag>) -> Result<(), AllocError>
    ensures { OnOk result (text.new.bytes.items ≡ text.old.bytes.items ++ further (tag_word tag.now ∷ [])) }
{
    match tag {
        Some(tag) => text.word(tag.as_bytes()),
        None => text.word(b"-"),
    }
}

/// Appends the ETag that a client checked, the answer, and what it says.
fn push_checked(text: &mut LogLines, check: &AnsweredCheck) -> Result<(), AllocError>
    ensures { OnOk result (text.new.bytes.items ≡ text.old.bytes.items ++ spaced (effect_words (Effect.Checked check.now))) }
{
    begin_counted(text, b"checked", check.client)?;
    text.word(check.tag.as_bytes())?;
    push_answer(text, check.number, &check.answer)?;
    push_current(text, check.current)
}

fn push_current(text: &mut LogLines, current: Current) -> Result<(), AllocError>
    ensures { OnOk result (text.new.bytes.items ≡ text.old.bytes.items ++ further (current_words current)) }
{
    match current {
        Current::Same => text.word(b"same"),
        Current::Other => text.word(b"other"),
        Current::Unknown(unknown) => push_counted(text, b"unknown", unknown.number()),
    }
}

fn push_delivered(text: &mut LogLines, delivered: Delivered) -> Result<(), AllocError>
    ensures { OnOk result (text.new.bytes.items ≡ text.old.bytes.items ++ further (delivered_words delivered)) }
{
    match delivered {
        Delivered::Took(blocks) => push_counted(text, b"took", blocks),
        Delivered::Restarted => text.word(b"restarted"),
        Delivered::Ignored(ignored) => {
            push_counted(text, b"ignored", ignored.number())?;
            push_number_if(text, status_of(ignored))
        }
    }
}

/// Returns the status code for which an answer is ignored, if that is the reason.
fn status_of(ignored: Ignored) -> Option<u16>
    ensures { result ≡ status_of ignored }
{
    match ignored {
        Ignored::NotUsed(Why::Status(status)) => Some(status),
        _ => None,
    }
}

/// Appends the line of a report.
fn push_report(text: &mut LogLines, client: u32, report: &Report) -> Result<(), AllocError>
    ensures { OnOk result (text.new.bytes.items ≡ text.old.bytes.items ++ line (report_words client report.now)) }
{
    begin_counted(text, b"report", client)?;
    text.word(report.tag.as_bytes())?;
    push_outcome(text, &report.outcome)?;
    text.end_line()
}

fn push_outcome(text: &mut LogLines, outcome: &Outcome) -> Result<(), AllocError>
    ensures { OnOk result (text.new.bytes.items ≡ text.old.bytes.items ++ further (outcome_words outcome.now)) }
{
    match outcome {
        Outcome::Window(window) => push_window(text, window),
        Outcome::Info(info) => push_info(text, info),
        Outcome::Fault(fault) => push_fault(text, *fault),
    }
}

/// Appends a window's sides, the samples of a pixel, and the bytes of its samples.
fn push_window(text: &mut LogLines, window: &Window) -> Result<(), AllocError>
    ensures { OnOk result (text.new.bytes.items ≡ text.old.bytes.items ++ further (outcome_words (Outcome.Window window.now))) }
{
    push_counted(text, b"window", window.w)?;
    text.number(window.h)?;
    text.number(window.samples)?;
    text.hexadecimal(&window.pixels)
}

/// Appends the numbers of levels and of keys.
fn push_info(text: &mut LogLines, info: &Info) -> Result<(), AllocError>
    ensures { OnOk result (text.new.bytes.items ≡ text.old.bytes.items ++ further (outcome_words (Outcome.Info info.now))) }
{
    push_counted(text, b"info", info.sides.len())?;
    text.number(info.geo.keys.len())
}

/// Appends a fault's number, and the tag of the field that it is about.
fn push_fault(text: &mut LogLines, fault: FileFault) -> Result<(), AllocError>
    ensures { OnOk result (text.new.bytes.items ≡ text.old.bytes.items ++ further (outcome_words (Outcome.Fault fault))) }
{
    push_counted(text, b"fault", fault.number())?;
    push_number_if(text, fault.tag())
}
