//! What `cogserve` adds to its answers: the origins whose pages may read files in a browser, and that an answer is the last.
ghost use Rattle.std.specs.Prelude.{◌≡◌, IfErr, IfOk, OnOk};
ghost use Rattle.std.specs.Option.{option_copied};
ghost use Rattle.programs.specs.Origins.{IsOriginOrNone, NamesNoOrigin};

use crate::exit::Exit;
use cog_server::Additions;
use command_lines::is_origin;

/// Fails with `NotAnOrigin` where a word is given that is no origin.
fn check_origin<R: AllocGlobal>(rt: &R, word: Option<&str>) -> Result<(), Exit>
    ensures ok { OnOk result (IsOriginOrNone (option_copied word.entry)) }
    ensures told { IfErr result (NamesNoOrigin (option_copied word.entry)) }
{
    match word {
        Some(word) if !is_origin(word) => {
            Err(Exit::NotAnOrigin(String::from_str(rt.alloc(), word)?))
        }
        _ => Ok(()),
    }
}

/// Returns what is added to answers: the fields for `origin`, and whether the last answer of a connection says so. Fails with `NotAnOrigin`
/// where `origin` is none.
pub fn additions_of<'a, R: AllocGlobal>(
    rt: &R,
    origin: Option<&'a str>,
    announces_last: bool,
) -> Result<Additions<'a>, Exit>
    ensures origin { IfOk result (λ added. option_copied added.origin ≡ option_copied origin.entry) }
    ensures checked { OnOk result (IsOriginOrNone (option_copied origin.entry)) }
    ensures last { IfOk result (λ added. added.announces_last ≡ announces_last) }
    ensures told { IfErr result (NamesNoOrigin (option_copied origin.entry)) }
{
    check_origin(rt, origin)?;
    let origin = match origin {
        Some(origin) => Some(origin.as_bytes()),
        None => None,
    };
    Ok(Additions {
        origin,
        announces_last,
    })
}
