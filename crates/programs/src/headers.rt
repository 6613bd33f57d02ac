//! The field lines that a command line adds to requests.
ghost use Rattle.std.specs.Prelude.{IfErr, IfOk, OnErr, OnOk};
ghost use Rattle.cog_client.specs.Keeps.{AddsField};
ghost use Rattle.http_fields.specs.Text.{FieldLine};
ghost use Rattle.programs.specs.Headers.{AddsLines, IsFieldLine, IsNoFieldLine, IsOfHeaders};

use crate::exit::Exit;
use cog_client::{Client, FieldError};

/// Returns the name and the value of a word `NAME: VALUE`, without white space round the value. Fails with `NoFieldLine` where it has no
/// colon.
fn field_of(word: &str) -> Result<(&str, &str), Exit>
    ensures ok { IfOk result (λ line. IsFieldLine word.now (line.0.now, line.1.now)) }
    ensures err { OnErr result (IsNoFieldLine word.now) }
    ensures kinds { IfErr result IsOfHeaders }
{
    match word.split_once(':') {
        Some((name, value)) => Ok((name, value.trim_ascii())),
        None => Err(Exit::NoFieldLine),
    }
}

/// Adds the field line that a word writes to the requests and checks of a client. Fails with `NoFieldLine`, with `NotAField` where the
/// client refuses it, or with `Memory`.
fn add_header<R: AllocGlobal>(rt: &R, client: &mut Client, word: &str) -> Result<(), Exit>
    ensures ok { OnOk result ((line : FieldLine) × IsFieldLine word.now line × AddsField line client.old client.new) }
    ensures kinds { IfErr result IsOfHeaders }
{
    let (name, value) = field_of(word)?;
    match client.add_field(name.as_bytes(), value.as_bytes()) {
        Ok(()) => Ok(()),
        Err(FieldError::Memory) => Err(Exit::Memory),
        Err(error) => Err(Exit::NotAField(String::from_str(rt.alloc(), name)?, error)),
    }
}

/// Adds the field lines that words write to the requests and checks of a client, in their order. Fails as for the first word that fails.
pub fn add_headers<R: AllocGlobal>(rt: &R, client: &mut Client, words: &[&str]) -> Result<(), Exit>
    ensures ok { OnOk result (AddsLines words.now client.old client.new) }
    ensures kinds { IfErr result IsOfHeaders }
{
    for word in words {
        add_header(rt, client, word)?;
    }
    Ok(())
}
