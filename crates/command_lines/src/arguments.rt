//! Arguments that several commands share.
ghost use Rattle.std.specs.Prelude.{◌≡◌, ◌++◌, ◌∷◌, [], false, OnOk};
ghost use Rattle.clap.specs.Words.{rule_of};
ghost use Rattle.command_lines.specs.Rules.{AddsRule};
ghost use Rattle.command_lines.specs.ServeLine.{choice, flag};

use clap::{Arg, ArgAction};
use std::alloc::{AllocError, Global};

/// Makes an option with one value, which may be left out.
pub(crate) fn choice<'a>(alloc: Global, name: &'a str, value: &'a str, help: &'a str) -> Arg<'a>
    ensures rule { rule_of result ≡ choice name.entry.now }
    ensures local { result.global ≡ false }
{
    Arg::new(alloc, name)
        .long(name)
        .value_name(value)
        .help(help)
        .action(ArgAction::Set)
}

/// Makes an option without a value.
pub(crate) fn flag<'a>(alloc: Global, name: &'a str, help: &'a str) -> Arg<'a>
    ensures rule { rule_of result ≡ flag name.entry.now }
    ensures local { result.global ≡ false }
{
    Arg::new(alloc, name)
        .long(name)
        .help(help)
        .action(ArgAction::SetTrue)
}

/// Adds an argument.
pub(crate) fn add<'a>(arguments: &mut Vec<Arg<'a>>, argument: Arg<'a>) -> Result<(), AllocError>
    ensures { OnOk result (arguments.new.items ≡ arguments.old.items ++ argument.entry ∷ []) }
{
    arguments.push(argument)?;
    Ok(())
}

/// Adds an option with one value, which may be left out.
pub(crate) fn add_choice<'a>(
    alloc: Global,
    arguments: &mut Vec<Arg<'a>>,
    name: &'a str,
    value: &'a str,
    help: &'a str,
) -> Result<(), AllocError>
    ensures { OnOk result (AddsRule arguments.old.items arguments.new.items (choice name.entry.now)) }
{
    add(arguments, choice(alloc, name, value, help))
}

/// Adds an option without a value.
pub(crate) fn add_flag<'a>(
    alloc: Global,
    arguments: &mut Vec<Arg<'a>>,
    name: &'a str,
    help: &'a str,
) -> Result<(), AllocError>
    ensures { OnOk result (AddsRule arguments.old.items arguments.new.items (flag name.entry.now)) }
{
    add(arguments, flag(alloc, name, help))
}
