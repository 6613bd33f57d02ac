//! Lines of words.
ghost use Rattle.std.specs.Prelude.{◌≡◌, ◌++◌, [], ◌∷◌, OnOk, codes};
ghost use Rattle.hex.specs.Hex.{encode_lower};

use itoa::{Buffer, Integer};
use std::alloc::{AllocError, Global};

/// Holds lines of words, which are separated by one space.
#[derive(Drop)]
pub struct LogLines {
    alloc: Global,
    bytes: Vec<u8>,
}

impl LogLines {
    /// Makes a text without lines.
    pub fn new(alloc: Global) -> LogLines
        ensures { result.bytes.items ≡ [] }
    {
        LogLines {
            alloc,
            bytes: Vec::new(alloc),
        }
    }

    /// Returns the bytes of the text.
    pub fn into_bytes(self) -> Vec<u8>
        ensures { result ≡ self.bytes }
    {
        self.bytes
    }

    /// Appends bytes to the line.
    pub fn push(&mut self, bytes: &[u8]) -> Result<(), AllocError>
        ensures { OnOk result (self.new.bytes.items ≡ self.old.bytes.items ++ bytes.now) }
    {
        self.bytes.extend_from_slice(bytes)
    }

    /// Appends a further word to the line.
    pub fn word(&mut self, word: &[u8]) -> Result<(), AllocError>
        ensures { OnOk result (self.new.bytes.items ≡ self.old.bytes.items ++ codes " " ++ word.now) }
    {
        self.bytes.push(b' ')?;
        self.push(word)
    }

    /// Appends a number to the line, as a further word.
    pub fn number<I: Integer>(&mut self, number: I) -> Result<(), AllocError>
        ensures { OnOk result (self.new.bytes.items ≡ self.old.bytes.items ++ codes " " ++ I.text number) }
    {
        self.word(Buffer::new().format(number).as_bytes())
    }

    /// Appends bytes to the line, as a further word of lower case hexadecimal digits.
    pub fn hexadecimal(&mut self, bytes: &[u8]) -> Result<(), AllocError>
        ensures { OnOk result (self.new.bytes.items ≡ self.old.bytes.items ++ codes " " ++ encode_lower bytes.now) }
    {
        let digits = hex::encode(self.alloc, bytes)?;
        self.word(digits.as_bytes())
    }

    /// Ends the line.
    pub fn end_line(&mut self) -> Result<(), AllocError>
        ensures { OnOk result (self.new.bytes.items ≡ self.old.bytes.items ++ 10 ∷ []) }
    {
        self.push(b"\n")
    }
}
