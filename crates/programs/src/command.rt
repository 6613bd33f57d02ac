//! The command and its words. It runs the program with its own name, as where a link called it. Else it runs the program that its first
//! word names.
ghost use Rattle.std.specs.Prelude.{◌≡◌, IfNone, IfSome, MatchResult};
ghost use Rattle.programs.specs.Commands.{NamesNone, name_of};
ghost use Rattle.programs.specs.Status.{EndsWith};

use crate::exit::Exit;
use crate::{cogread, cogserve, cogworld};
use command_lines::VERSION;
use std::alloc::{AllocError, Global};
use std::net::{Net, TcpListener, TcpStream};
use std::rt::{Clock, Files};

/// Names one of the programs.
#[derive(Clone, Copy)]
enum Program {
    Cogread,
    Cogserve,
    Cogworld,
}

impl Program {
    fn from_name(name: &str) -> Option<Program>
        ensures some { IfSome result (λ program. name.now ≡ name_of program) }
        ensures none { IfNone result (NamesNone name.now) }
    {
        match name {
            "cogread" => Some(Program::Cogread),
            "cogserve" => Some(Program::Cogserve),
            "cogworld" => Some(Program::Cogworld),
            _ => None,
        }
    }

    fn name(self) -> &'static str
        ensures { result.now ≡ name_of self }
    {
        match self {
            Program::Cogread => "cogread",
            Program::Cogserve => "cogserve",
            Program::Cogworld => "cogworld",
        }
    }
}

/// Returns the command's own name: the last part of the path by which it was called.
fn own_name(words: &[String]) -> &str {
    let path = match words.first() {
        Some(word) => word.as_str(),
        None => "cogtools",
    };
    path.rsplit('/').next().unwrap_or(path)
}

/// Says what the words of a command line name.
#[derive(Clone, Copy)]
enum Command<'w> {
    /// A program, by this word or by the command's own name, and the words after it.
    Program(Program, Option<&'w str>, &'w [String]),
    /// The stored script, where there is no word.
    Stored,
    /// No program: this word.
    Word(&'w str),
}

impl<'w> Command<'w> {
    fn of(words: &'w [String]) -> Command<'w> {
        if let Some(program) = Program::from_name(own_name(words)) {
            return Command::Program(program, None, words.get(1..).unwrap_or_default());
        }
        let Some(word) = words.get(1) else {
            return Command::Stored;
        };
        match Program::from_name(word.as_str()) {
            Some(program) => Command::Program(program, Some(word.as_str()), &words[2..]),
            None => Command::Word(word.as_str()),
        }
    }

    /// Returns the name under which a fault is printed.
    fn name(self) -> &'static str {
        match self {
            Command::Program(program, _, _) => program.name(),
            Command::Stored => Program::Cogworld.name(),
            Command::Word(_) => "cogtools",
        }
    }
}

/// Returns the text of the command's help.
fn help(alloc: Global, name: &str) -> Result<String, AllocError> {
    format!(in alloc;
        "\
Usage: {name} cogserve FILE..
       {name} cogread http://HOST[:PORT]/PATH[?QUERY]
       {name} cogread FILE
       {name} cogserve --listen HOST:PORT --epoch N --connections N [--at-once N] [--patience SECONDS] [--log] NAME=PATH..
       {name} cogserve .. [--allow-origin ORIGIN] [--announce-last] [--verify SECONDS] ..
       {name} cogread window SERVER NAME X Y W H [--level N | --columns C] [--requests N] [--blocks N] [--ahead N] [--keep]
       {name} cogread info SERVER NAME [--requests N] [--blocks N] [--ahead N] [--keep]
       {name} cogread describe SERVER NAME [--json] [--requests N] [--blocks N] [--ahead N] [--keep]
       {name} cogread window .. --whole [--level N] ..
       {name} cogread window .. --bounds W S E N [--level N] ..
       {name} cogread .. http://HOST[:PORT]/PATH[?QUERY] .. [--close]
       {name} cogread .. [--header 'NAME: VALUE']..
       {name} cogread .. FILE ..
       {name} cogread .. [--output FILE] [--verbose | --progress]
       {name} cogread window .. --output FILE --world
       {name} cogworld [--pieces N] SCRIPT
       {name} --version

Programs:
  cogserve  Serves files over HTTP by single byte ranges
  cogread   Reads a window, the info or a description of a file over HTTP by single byte ranges
  cogworld  Runs a script of events and prints its log

Without a word a stored script is run. A link to the command that has a program's name is that program. The help of
a program lists its units, defaults, refusals, faults and exit statuses, and an example:
  {name} cogserve --help"
    )
}

/// Returns the command as it was typed, and the words after it.
fn words_of<'a>(
    alloc: Global,
    command: &'a str,
    rest: &'a [String],
) -> Result<Vec<&'a str>, AllocError> {
    let mut words = Vec::new(alloc);
    words.push(command)?;
    for word in rest {
        words.push(word.as_str())?;
    }
    Ok(words)
}

/// Runs a program on its words: the command as it was typed, and the words after it.
fn run_program<R>(rt: &R, program: Program, command: &str, rest: &[String]) -> Result<(), Exit>
where
    R: Files
        + Clock
        + Print
        + Eprint
        + AllocGlobal
        + Net<Listener = TcpListener, Stream = TcpStream>,
{
    let words = words_of(rt.alloc(), command, rest)?;
    match program {
        Program::Cogread => cogread::run_line(rt, &words),
        Program::Cogserve => cogserve::run_line(rt, &words),
        Program::Cogworld => cogworld::run_line(rt, &words),
    }
}

/// Runs what the words name. Without a word it runs the stored script, with its file from memory. `name` is the command's own name.
fn run_command<R>(rt: &R, name: &str, command: Command<'_>) -> Result<(), Exit>
where
    R: Files
        + Clock
        + Print
        + Eprint
        + AllocGlobal
        + Net<Listener = TcpListener, Stream = TcpStream>,
{
    match command {
        Command::Stored => cogworld::run_stored(rt),
        Command::Program(program, None, rest) => run_program(rt, program, name, rest),
        Command::Program(program, Some(word), rest) => {
            let typed = format!(in rt.alloc(); "{name} {word}")?;
            run_program(rt, program, typed.as_str(), rest)
        }
        Command::Word("-h" | "--help" | "help") => Ok(rt.println(help(rt.alloc(), name)?)?),
        Command::Word("-V" | "--version") => Ok(println!(rt; "{name} {VERSION}")?),
        Command::Word(word) => Err(Exit::NotAProgram(String::from_str(rt.alloc(), word)?)),
    }
}

/// Runs the program that the words name, and prints its fault. Returns the exit status.
pub fn run<R>(rt: &R, words: &[String]) -> u8
where
    R: Files
        + Clock
        + Print
        + Eprint
        + AllocGlobal
        + Net<Listener = TcpListener, Stream = TcpStream>,
{
    let command = Command::of(words);
    let ended = run_command(rt, own_name(words), command);
    status_of(rt, command.name(), &ended)
}

/// Prints the fault of a program that has ended, if there is one, and returns the exit status.
fn status_of<R: Print + Eprint>(rt: &R, program: &str, ended: &Result<(), Exit>) -> u8
    ensures { MatchResult ended.now (λ _. result ≡ 0) (λ fault. EndsWith fault result) }
{
    match ended {
        Ok(()) => 0,
        Err(fault) => fault.tell(rt, program),
    }
}
