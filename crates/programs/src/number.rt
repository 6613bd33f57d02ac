//! Numbers of command lines.
ghost use Rattle.std.specs.Prelude.{◌≡◌, ◌≤◌, ◌⊎◌, None, Some, Err, Ok, IfErr, IfOk, IfSome, OnErr};
ghost use Rattle.std.specs.Option.{option_copied};
ghost use Rattle.command_lines.specs.Number.{number_from};
ghost use Rattle.programs.specs.Number.{HasRange, IsOfNumber, Names, number_or, ranged};

use crate::exit::Exit;
use command_lines::number_from;
use std::fmt;

/// Holds the range of a number of a command line, and the option or the place that has it.
#[derive(Clone, Copy, Debug, PartialEq, Eq)]
pub struct NumberRange {
    pub name: &'static str,
    pub least: u32,
    pub greatest: u32,
}

impl fmt::Display for NumberRange {
    fn fmt<W: fmt::Write>(&self, f: &mut fmt::Formatter<W>) -> fmt::Result {
        let (name, least, greatest) = (self.name, self.least, self.greatest);
        write!(f, "{name} a number from {least} to {greatest}")
    }
}

/// Has a word that is no number reported with its range, as where a URL, a path or files alone stand in a line. Another outcome stays.
pub fn with_range<T>(made: Result<T, Exit>) -> Result<T, Exit>
    ensures ok { IfOk made (λ value. result ≡ Ok value) }
    ensures err { IfErr made (λ fault. result ≡ Err (ranged fault)) }
{
    match made {
        Err(Exit::NotANumber(word, range)) => Err(Exit::OutOfRange(word, range)),
        made => made,
    }
}

/// Returns the number that a word writes, from `least` to `greatest`. `name` is the option or the place that the word has. Fails with
/// `NotANumber`, or with `Memory`.
pub fn number<R: AllocGlobal>(
    rt: &R,
    name: &'static str,
    word: &str,
    least: u32,
    greatest: u32,
) -> Result<u32, Exit>
    ensures ok { IfOk result (λ n. number_from least greatest word.now ≡ Some n) }
    ensures err { OnErr result (number_from least greatest word.now ≡ None) }
    ensures told { IfErr result (Names word.now) }
    ensures range { IfErr result (HasRange name.now least greatest) }
    ensures kinds { IfErr result IsOfNumber }
    ensures low { IfOk result (λ n. least ≤ n) }
{
    match number_from(word, least, greatest) {
        Some(n) => Ok(n),
        None => {
            let range = NumberRange {
                name,
                least,
                greatest,
            };
            Err(Exit::NotANumber(String::from_str(rt.alloc(), word)?, range))
        }
    }
}

/// Returns the number that an option's word writes, from `least` to `greatest`, or `default` where the option is left out. Fails with
/// `NotANumber`, or with `Memory`.
pub fn number_or<R: AllocGlobal>(
    rt: &R,
    name: &'static str,
    word: Option<&str>,
    least: u32,
    greatest: u32,
    default: u32,
) -> Result<u32, Exit>
    ensures ok { IfOk result (λ n. number_or least greatest default (option_copied word.entry) ≡ Some n) }
    ensures err { OnErr result (number_or least greatest default (option_copied word.entry) ≡ None) }
    ensures told { IfErr result (λ fault. IfSome (option_copied word.entry) (λ told. Names told fault)) }
    ensures range { IfErr result (HasRange name.now least greatest) }
    ensures kinds { IfErr result IsOfNumber }
    ensures low { IfOk result (λ n. least ≤ n ⊎ (n ≡ default)) }
{
    match word {
        Some(word) => number(rt, name, word, least, greatest),
        None => Ok(default),
    }
}
