//! The window of a report as a portable graymap or pixmap (Netpbm, the formats P5 and P6).
ghost use Rattle.std.specs.Prelude.{◌≡◌, IfOk, IsSome, Some};
ghost use Rattle.text_report.specs.Netpbm.{picture_of};

use cog_client::{Memory, Outcome, Report};
use std::alloc::Global;
use text_report::window_picture;

/// Returns the window of a report as P5, or as P6 where a pixel has three samples: a head of text, then the samples. The report is of a
/// window. Fails where no memory is left.
///
/// ```
/// if let Outcome::Window(_) = &report.outcome {
///     io::writer(&rt).write_all(&picture(rt.alloc(), report)?)?;
/// }
/// ```
pub fn picture(alloc: Global, report: &Report) -> Result<Vec<u8>, Memory>
    requires window { IsSome (picture_of report.now.outcome) }
    ensures picture { IfOk result (λ text. picture_of report.now.outcome ≡ Some text.items) }
{
    let Outcome::Window(window) = &report.outcome else {
        unreachable!()
    };
    window_picture(alloc, window)
}
