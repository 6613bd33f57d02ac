//! Reads the geo fields.
ghost use Rattle.std.specs.Prelude.{◌≡◌, IfErr, IfOk};
ghost use Rattle.tiff_dir.specs.declared.query.Query.{Query as Asks};
ghost use Rattle.tiff_dir.specs.Walk.{HasEnded};
ghost use Rattle.tiff_dir.specs.WalkState.{WalkState};
ghost use Rattle.cog_reader.specs.declared.kept_arrays.KeptArrays.{KeptArrays as Keeps};
ghost use Rattle.cog_reader.specs.declared.state.State.TheVariants as state;
ghost use Rattle.cog_reader.specs.ReaderStep.{ComesLater, ComesNext, IsStep};

use crate::Outcome;
use crate::fields::GeoFields;
use crate::info::info;
use crate::state::{FileView, ReaderStep, State, span_of};
use extents::Span;
use geokeys::GeoError;
use tiff_dir::FileFault;

/// Returns what comes next: a geo field, or, where all were given, what Info says. Fails where an allocation fails, and
/// returns the fields then.
pub fn next(file: &FileView<'_>, fields: GeoFields) -> Result<ReaderStep, GeoFields>
    requires { HasEnded file.now.walk.now }
    ensures step { IfOk result (λ step. (k : Keeps) (q : Asks) → IsStep file.now.file_length file.now.walk.now k q
        (state.GeoFields fields) step) }
    ensures err { IfErr result (λ same. same ≡ fields) }
{
    match fields.next() {
        Some(place) => match span_of(place, file.file_length) {
            Some(span) => Ok(ReaderStep::Read(State::GeoFields(fields), span)),
            None => Ok(ReaderStep::Answer(Outcome::Fault(FileFault::PastEnd))),
        },
        None => match info(file.alloc, file.walk, &fields) {
            Ok(info) => Ok(ReaderStep::Answer(Outcome::Info(info))),
            Err(GeoError::File(fault)) => Ok(ReaderStep::Answer(Outcome::Fault(fault))),
            Err(GeoError::Memory) => Err(fields),
        },
    }
}

/// Returns the byte range of the next field.
pub fn wanted(file_length: u64, fields: &GeoFields) -> Option<Span>
    ensures { (w : WalkState) (k : Keeps) → ComesNext file_length w k (state.GeoFields fields.now) result }
{
    let place = fields.next()?;
    span_of(place, file_length)
}

/// Returns the byte range of the field after the next one and `index` more.
pub fn upcoming(file_length: u64, fields: &GeoFields, index: u32) -> Option<Span>
    ensures { (w : WalkState) (k : Keeps) → ComesLater file_length w k (state.GeoFields fields.now) index result }
{
    let place = fields.upcoming(index)?;
    span_of(place, file_length)
}
