//! What `cogread` writes.
ghost use Rattle.std.specs.Prelude.{◌≡◌, ◌++◌, [], OnOk};
ghost use Rattle.std.specs.Io.KnownBytes.{Appends};

use std::io;
use std::io::Write;
use text_description::WorldFile;

/// Holds what `cogread` writes: a text, and after it the samples of a window, where the text is the head of its picture. The samples are
/// the client's.
#[derive(Drop)]
pub struct Text<'c> {
    pub head: Vec<u8>,
    pub samples: &'c [u8],
    /// The world file that is written beside a picture, if one is asked for.
    pub world: Option<WorldFile>,
}

impl Text<'_> {
    /// Writes the head, and after it the samples.
    pub fn write_to<W: Write>(&self, out: &mut W) -> io::Result<()>
        ensures { OnOk result (Appends (W.contents out.old) (W.contents out.new) (self.now.head.items ++ self.now.samples.now)) }
    {
        out.write_all(&self.head)?;
        out.write_all(self.samples)
    }
}

impl From<Vec<u8>> for Text<'_> {
    /// Makes a text without samples.
    fn from(text: Vec<u8>) -> Self
        ensures head { result.head ≡ text }
        ensures samples { result.samples.now ≡ [] }
    {
        Text {
            head: text,
            samples: &[],
            world: None,
        }
    }
}
