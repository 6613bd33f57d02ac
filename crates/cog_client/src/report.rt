//! What a client reports.
ghost use Rattle.std.specs.Prelude.{◌≡◌, IfOk};
ghost use Rattle.geokeys.specs.Same.{content_of, contents};
ghost use Rattle.cog_reader.specs.declared.outcome.Outcome.TheVariants as outcomes;
ghost use Rattle.cog_client.specs.Report.{items_in, said_of};

use cog_reader::{Info, Outcome, Window};
use extents::Memory;
use geokeys::{Geo, Key, KeyValue};
use http_range::Tag;
use std::alloc::Global;
use tiff_dir::Query;

/// The answer to a query of a file, with the ETag of the representation that it is true of.
#[derive(Debug, Drop)]
pub struct Report {
    /// The query that it answers.
    pub query: Query,
    /// The ETag (RFC 9110, section 8.8.3).
    pub tag: Tag,
    /// The answer.
    pub outcome: Outcome,
}

/// Returns an equal value of a key.
fn copy_value(alloc: Global, value: &KeyValue) -> Result<KeyValue, Memory>
    ensures { IfOk result (λ v. content_of v ≡ content_of value.now) }
{
    match value {
        KeyValue::Short(number) => Ok(KeyValue::Short(*number)),
        KeyValue::Doubles(items) => Ok(KeyValue::Doubles(Vec::from_slice(alloc, items)?)),
        KeyValue::Ascii(bytes) => Ok(KeyValue::Ascii(Vec::from_slice(alloc, bytes)?)),
    }
}

/// Returns equal keys.
fn copy_geo(alloc: Global, geo: &Geo) -> Result<Geo, Memory>
    ensures { IfOk result (λ g. (g.minor ≡ geo.now.minor) × (contents g.keys.items ≡ contents geo.now.keys.items)) }
{
    let mut keys = Vec::with_capacity(alloc, geo.keys.len())?;
    for key in geo.keys.iter() {
        let value = copy_value(alloc, &key.value)?;
        keys.push(Key { id: key.id, value })?;
    }
    Ok(Geo {
        minor: geo.minor,
        keys,
    })
}

/// Returns equal items of a geo field.
fn copy_items(alloc: Global, items: &Option<Vec<[u8; 8]>>) -> Result<Option<Vec<[u8; 8]>>, Memory>
    ensures { IfOk result (λ o. items_in o ≡ items_in items.now) }
{
    match items {
        None => Ok(None),
        Some(items) => Ok(Some(Vec::from_slice(alloc, items)?)),
    }
}

/// Returns an `Info` that says the same.
fn copy_info(alloc: Global, info: &Info) -> Result<Info, Memory>
    ensures { IfOk result (λ i. said_of (outcomes.Info i) ≡ said_of (outcomes.Info info.now)) }
{
    let sides = Vec::from_slice(alloc, &info.sides)?;
    let geo = copy_geo(alloc, &info.geo)?;
    let scale = copy_items(alloc, &info.scale)?;
    let tiepoints = copy_items(alloc, &info.tiepoints)?;
    let transformation = copy_items(alloc, &info.transformation)?;
    Ok(Info {
        sides,
        geo,
        scale,
        tiepoints,
        transformation,
    })
}

/// Returns an equal window.
fn copy_window(alloc: Global, window: &Window) -> Result<Window, Memory>
    ensures { IfOk result (λ w. said_of (outcomes.Window w) ≡ said_of (outcomes.Window window.now)) }
{
    let pixels = Vec::from_slice(alloc, &window.pixels)?;
    Ok(Window {
        w: window.w,
        h: window.h,
        samples: window.samples,
        bits: window.bits,
        pixels,
    })
}

/// Returns an equal outcome.
fn copy_outcome(alloc: Global, outcome: &Outcome) -> Result<Outcome, Memory>
    ensures { IfOk result (λ o. said_of o ≡ said_of outcome.now) }
{
    match outcome {
        Outcome::Window(window) => Ok(Outcome::Window(copy_window(alloc, window)?)),
        Outcome::Info(info) => Ok(Outcome::Info(copy_info(alloc, info)?)),
        Outcome::Fault(fault) => Ok(Outcome::Fault(*fault)),
    }
}

impl Report {
    ghost use Rattle.std.specs.Prelude.{◌≡◌, IfOk};
    ghost use Rattle.cog_client.specs.Report.{told};

    /// Returns an equal report. Fails with `Memory` alone.
    pub fn copy(&self, alloc: Global) -> Result<Report, Memory>
        ensures { IfOk result (λ report. told report ≡ told self.now) }
    {
        let outcome = copy_outcome(alloc, &self.outcome)?;
        Ok(Report {
            query: self.query,
            tag: self.tag.copy(),
            outcome,
        })
    }
}
