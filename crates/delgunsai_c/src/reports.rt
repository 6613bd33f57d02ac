//! Calls that read the report. A text that is longer than its room isn't copied.
ghost use Rattle.std.specs.Prelude.{◌≡◌};
ghost use Rattle.delgunsai_c.specs.Calls.{Calls, Kept};
ghost use Rattle.delgunsai_c.specs.Driving.{KeepsRest};
ghost use Rattle.delgunsai_c.specs.Handle.{client_of, held_of};
ghost use Rattle.delgunsai_c.specs.Told.{TellsInfo, TellsPixels, TellsReport, kind_told, told_of};

use crate::failure::Failure;
use crate::handle::Handle;
use crate::laying::lay;
use cog_client::{Client, Outcome};
use std::alloc::Global;
use text_report::info_text;

/// Holds the numbers of a report: `struct cog_report`.
#[repr(C)]
#[derive(Clone, Copy, Debug, PartialEq, Eq)]
pub struct Told {
    /// 1 is a window, 2 Info, 3 a fault.
    pub kind: u32,
    /// The columns of a window. This and all numbers below are 0 in a report that has none of the kind.
    pub width: u32,
    /// The rows of a window.
    pub height: u32,
    /// The samples of a pixel, 1 or 3.
    pub samples: u32,
    /// The bits of a sample, 8 or 16.
    pub bits: u32,
    /// The number of a fault, 1 to 18.
    pub fault: u32,
    /// The tag of the field that the fault is about, or 0 where it is about none.
    pub field: u32,
}

/// Returns the kind of a report, with 0 for its other numbers.
fn kind_alone(kind: u32) -> Told
    ensures { result ≡ kind_told kind }
{
    Told {
        kind,
        width: 0,
        height: 0,
        samples: 0,
        bits: 0,
        fault: 0,
        field: 0,
    }
}

/// Returns the numbers of an outcome.
fn numbers_of(outcome: &Outcome) -> Told
    ensures { result ≡ told_of outcome.now }
{
    match outcome {
        Outcome::Window(window) => Told {
            width: window.w,
            height: window.h,
            samples: window.samples as u32,
            bits: window.bits as u32,
            ..kind_alone(1)
        },
        Outcome::Info(_) => kind_alone(2),
        Outcome::Fault(fault) => Told {
            fault: fault.number() as u32,
            field: fault.tag().unwrap_or(0) as u32,
            ..kind_alone(3)
        },
    }
}

/// Writes the numbers of the report to `out`, and copies its ETag to `tag`. Returns the ETag's length in bytes, or 0 where no report
/// stands.
fn report(client: &Client, out: &mut Told, tag: &mut [u8]) -> i64
    ensures { TellsReport client.now out.old out.new tag.old tag.new result }
{
    match client.report() {
        Some(report) => {
            *out = numbers_of(&report.outcome);
            lay(report.tag.as_bytes(), tag)
        }
        None => 0,
    }
}

/// Copies the samples of the window that is reported to `room`. Returns their length in bytes, `COG_NO_REPORT` or `COG_OTHER_REPORT`.
fn pixels(client: &Client, room: &mut [u8]) -> i64
    ensures { TellsPixels client.now room.old room.new result }
{
    let Some(report) = client.report() else {
        return Failure::NoReport.code() as i64;
    };
    match &report.outcome {
        Outcome::Window(window) => lay(&window.pixels, room),
        _ => Failure::OtherReport.code() as i64,
    }
}

/// Copies the text of the Info that is reported to `room`: it begins with the line of the ETag. Returns its length in bytes,
/// `COG_NO_REPORT`, `COG_OTHER_REPORT` or `COG_MEMORY`.
fn info(alloc: Global, client: &Client, room: &mut [u8]) -> i64
    ensures { TellsInfo client.now room.old room.new result }
{
    let Some(report) = client.report() else {
        return Failure::NoReport.code() as i64;
    };
    let Outcome::Info(info) = &report.outcome else {
        return Failure::OtherReport.code() as i64;
    };
    match info_text(alloc, &report.tag, info) {
        Ok(text) => lay(&text, room),
        Err(_) => Failure::Memory.code() as i64,
    }
}

/// Writes the numbers of the report to `out`, and copies its ETag to `tag`. Returns the ETag's length in bytes, 0 where no report stands,
/// or `COG_NO_CLIENT`.
#[unsafe(no_mangle)]
pub extern "C" fn cog_client_report(
    alloc: Global,
    client: &mut Handle,
    out: &mut Told,
    tag: &mut [u8],
) -> i64
    ensures does { Calls (λ s t. Kept (TellsReport s out.old out.new tag.old tag.new result) s t)
        (client_of client.old) (client_of client.new) result }
    ensures rest { KeepsRest (held_of client.old) (held_of client.new) result }
    ensures out_untouched { client_of client.old ≡ None → out.new ≡ out.old }
    ensures tag_untouched { client_of client.old ≡ None → tag.new ≡ tag.old }
{
    let Some(held) = client.take(alloc) else {
        return Failure::NoClient.code() as i64;
    };
    let told = report(&held.client, out, tag);
    client.put(held);
    told
}

/// Copies the samples of the window that is reported to `room`. Returns their length in bytes, `COG_NO_REPORT`, `COG_OTHER_REPORT` or
/// `COG_NO_CLIENT`.
#[unsafe(no_mangle)]
pub extern "C" fn cog_client_pixels(alloc: Global, client: &mut Handle, room: &mut [u8]) -> i64
    ensures does { Calls (λ s t. Kept (TellsPixels s room.old room.new result) s t)
        (client_of client.old) (client_of client.new) result }
    ensures rest { KeepsRest (held_of client.old) (held_of client.new) result }
    ensures untouched { client_of client.old ≡ None → room.new ≡ room.old }
{
    let Some(held) = client.take(alloc) else {
        return Failure::NoClient.code() as i64;
    };
    let told = pixels(&held.client, room);
    client.put(held);
    told
}

/// Copies the text of the Info that is reported to `room`: it begins with the line of the ETag. Returns its length in bytes,
/// `COG_NO_REPORT`, `COG_OTHER_REPORT`, `COG_MEMORY` or `COG_NO_CLIENT`.
#[unsafe(no_mangle)]
pub extern "C" fn cog_client_info(alloc: Global, client: &mut Handle, room: &mut [u8]) -> i64
    ensures does { Calls (λ s t. Kept (TellsInfo s room.old room.new result) s t)
        (client_of client.old) (client_of client.new) result }
    ensures rest { KeepsRest (held_of client.old) (held_of client.new) result }
    ensures untouched { client_of client.old ≡ None → room.new ≡ room.old }
{
    let Some(held) = client.take(alloc) else {
        return Failure::NoClient.code() as i64;
    };
    let told = info(alloc, &held.client, room);
    client.put(held);
    told
}
