//! Why a program ends early.
use crate::number::NumberRange;
use clap::error::ErrorKind;
use cog_client::{ClientError, FieldError, UrlError, Why};
use cog_server::PublishError;
use command_lines::FileUrlError;
use http_range::Memory;
use read_command::ReadError;
use read_progress::WhySentence;
use scripts::ScriptError;
use std::alloc::AllocError;
use std::{fmt, io};
use text_description::NoPixels;
use text_report::ExplainedFault;
use thiserror::Error;
use tiff_dir::FileFault;

/// Says why a program ends early. Its text is the fault's line, without the program's name before it.
#[derive(Debug, Drop, Error)]
pub enum Exit {
    /// A word of the command line isn't UTF-8.
    #[error("a word isn't text")]
    NotText,
    /// The first word names no program.
    #[error("not a program: {0}")]
    NotAProgram(String),
    /// The words of the command line aren't the program's, or ask for help.
    #[error("{0}")]
    CommandLine(clap::Error),
    /// A word of the command line isn't a number of its range.
    #[error("not a number: {0}")]
    NotANumber(String, NumberRange),
    /// A word of the command line isn't a number of its range, which the line has, too.
    #[error("not a number: {0}. Give {1}")]
    OutOfRange(String, NumberRange),
    /// A word of a rectangle isn't a finite number.
    #[error("not a number: {0}. Give --bounds W S E N: four numbers in the file's own coordinates")]
    NotACoordinate(String),
    /// The west side of a rectangle is greater than the east side, or the south side than the north side.
    #[error("no rectangle: W is greater than E, or S than N. Give --bounds W S E N")]
    NoRectangle,
    /// A rectangle gives no window of the file that is read, for this reason.
    #[error("no window: {0}")]
    NoWindow(NoPixels),
    /// A world file is asked for, and the file that is read doesn't say where its pixels lie.
    #[error("no world file: the file doesn't say where its pixels lie. Leave --world out")]
    NoWorld,
    /// A word of `--header` isn't `NAME: VALUE`. It isn't printed, since it may be a secret.
    #[error("no field line: it has no colon. Give --header 'NAME: VALUE'")]
    NoFieldLine,
    /// The field line of this name isn't added to requests, for this reason. Its value isn't printed.
    #[error("no field line: {0}: {1}")]
    NotAField(String, FieldError),
    /// A word of the command line isn't `NAME=PATH`.
    #[error("not a file: {0}")]
    NotAFile(String),
    /// A word of the command line isn't an origin.
    #[error("not an origin: {0}")]
    NotAnOrigin(String),
    /// Two files have one name, the first text here. Their paths follow.
    #[error("one name for two files: {0}: {1}, {2}. Name one of them: NAME=PATH")]
    OneName(String, String, String),
    /// The clock doesn't say what time it is.
    #[error("no clock: give --epoch N")]
    NoClock,
    /// The script isn't read, for this reason.
    #[error(fmt = write_script_error)]
    Script(ScriptError),
    /// The file at this path can't be read.
    #[error("can't read {0}")]
    CantRead(String),
    /// The file at this path can't be read, for this reason.
    #[error("can't read {0}: {1}")]
    CantReadBy(String, NotRead),
    /// This word is a negative number, where the line has numbers without a sign alone.
    #[error("not a number: {0}. Give numbers without a sign")]
    Negative(String),
    /// This word names no file to read, for this reason.
    #[error("can't read {0}: {1}. Give http://HOST/PATH, the path of a file, or SERVER NAME")]
    NamesNoFile(String, NotRead),
    /// The file of this name isn't published.
    #[error("refused {number} {1}", number = .0.number())]
    Refused(PublishError, String),
    /// No client of the host and name is made.
    #[error("refused {number}", number = .0.number())]
    RefusedClient(ClientError),
    /// This word names no file of a server.
    #[error("can't read {0}: {1}")]
    NotAFileUrl(String, FileUrlError),
    /// No client of this URL is made.
    #[error("can't read {0}: {1}")]
    RefusedUrl(String, UrlError),
    /// The report is this fault of the file.
    #[error(fmt = write_fault)]
    OfFile(FileFault),
    /// The report is this fault of a file that a URL or a path names. The program's line explains it.
    #[error("{0}")]
    Explained(ExplainedFault),
    /// No report stands after all requests.
    #[error("no report")]
    NoReport,
    /// No report stands after all requests to a URL, and the last connection wasn't made, for this reason.
    #[error("no report: no connection: {0}")]
    NoConnection(io::Error),
    /// No report stands after all requests to a URL, and no answer came to the last one.
    #[error("no report: no answer came to the last request")]
    NoAnswer,
    /// No report stands after this number of requests to a URL, and the last one brought bytes of the file.
    #[error("no report after {0} requests. Give more: --requests N, up to 65536")]
    TooFewRequests(u32),
    /// An answer to a URL isn't used for this reason. It is the first one, and no later one is expected to be used, or the last one.
    #[error("no report: {sentence}", sentence = WhySentence(*.0))]
    NotUsed(Why),
    /// The address can't be bound.
    #[error("can't listen")]
    CantListen,
    /// This address can't be bound, for this reason.
    #[error("can't listen at {0}: {1}. Give --listen HOST:PORT, as 127.0.0.1:0 for any free port")]
    CantListenAt(String, io::Error),
    /// No connection can be accepted any more.
    #[error("can't accept")]
    CantAccept,
    /// Connections can't be waited for any more.
    #[error("can't wait")]
    CantWait,
    /// The standard output can't be written.
    #[error("can't write")]
    CantWrite,
    /// Nobody reads the standard output any more, as where `head` has ended. Nothing is printed then.
    #[error("can't write")]
    ReaderGone,
    /// The file at this path can't be written.
    #[error("can't write {0}")]
    CantWriteFile(String),
    /// No memory was left.
    #[error("out of memory")]
    Memory,
}

/// Says why a file isn't read.
#[derive(Debug, Drop, Error)]
pub enum NotRead {
    /// The system says why.
    #[error("{0}")]
    Io(io::Error),
    /// It isn't a plain file: a folder, say.
    #[error("it isn't a plain file")]
    NotPlain,
    /// Another program wrote to it while it was read.
    #[error("it was written while it was read. Try again")]
    Written,
    /// No server takes such a file.
    #[error("{0}")]
    Refused(PublishError),
    /// It is a URL of another scheme than http.
    #[error("it isn't a URL of http")]
    Scheme,
}

/// Writes why a script isn't read: the number of its line that is no event or whose file can't be read, or that memory ran out.
fn write_script_error<W: fmt::Write>(
    error: &ScriptError,
    f: &mut fmt::Formatter<W>,
) -> fmt::Result {
    match error {
        ScriptError::NotAnEvent(line) => write!(f, "line {line}: not an event"),
        ScriptError::CantRead(line) => write!(f, "line {line}: can't read"),
        ScriptError::Memory => f.write_str("out of memory"),
    }
}

/// Writes the numbers of a fault: its own, and the tag of the field that it is about, if it is about one.
fn write_fault<W: fmt::Write>(fault: &FileFault, f: &mut fmt::Formatter<W>) -> fmt::Result {
    match fault.tag() {
        Some(tag) => write!(f, "fault {} {tag}", fault.number()),
        None => write!(f, "fault {}", fault.number()),
    }
}

impl Exit {
    ghost use Rattle.std.specs.Prelude.{◌≡◌, ◌≢◌, is_ok};
    ghost use Rattle.std.specs.IoError.{error_kind};
    ghost use Rattle.std.specs.declared.io.ErrorKind.TheVariants.{BrokenPipe, OutOfMemory};
    ghost use Rattle.programs.specs.Status.{EndsBy, EndsWith, HasStatus, IsOfWriting};

    /// Returns the exit status. It is 0 for help and the version, 1 for files, sockets, publications and memory, and 2 for the command
    /// line, and for a line of a script that is no event. It is 3 for a fault of the file that is read, and 4 where there is no report.
    pub fn status(&self) -> u8
        ensures { HasStatus self.now result }
    {
        match self {
            Exit::CommandLine(error) if !error.use_stderr() => 0,
            Exit::NotText
            | Exit::NotAProgram(_)
            | Exit::CommandLine(_)
            | Exit::NotANumber(_, _)
            | Exit::OutOfRange(_, _)
            | Exit::Negative(_)
            | Exit::NamesNoFile(_, _)
            | Exit::NotACoordinate(_)
            | Exit::NoRectangle
            | Exit::NoWindow(_)
            | Exit::NoWorld
            | Exit::NotAFile(_)
            | Exit::NotAnOrigin(_)
            | Exit::OneName(_, _, _)
            | Exit::RefusedClient(_)
            | Exit::NotAFileUrl(_, _)
            | Exit::RefusedUrl(_, _)
            | Exit::NoFieldLine
            | Exit::NotAField(_, _)
            | Exit::Script(ScriptError::NotAnEvent(_)) => 2,
            Exit::OfFile(_) => 3,
            Exit::Explained(_) => 3,
            Exit::NoReport
            | Exit::NoConnection(_)
            | Exit::NoAnswer
            | Exit::TooFewRequests(_)
            | Exit::NotUsed(_) => 4,
            Exit::Script(_)
            | Exit::CantRead(_)
            | Exit::CantReadBy(_, _)
            | Exit::Refused(_, _)
            | Exit::NoClock
            | Exit::CantListen
            | Exit::CantListenAt(_, _)
            | Exit::CantAccept
            | Exit::CantWait
            | Exit::CantWrite
            | Exit::ReaderGone
            | Exit::CantWriteFile(_)
            | Exit::Memory => 1,
        }
    }

    /// Prints the fault's line as `program` does, or the help that was asked for. Returns the exit status, which is 1 where that help can't
    /// be written.
    pub fn tell<R: Print + Eprint>(&self, rt: &R, program: &str) -> u8
        ensures { EndsWith self.now result }
    {
        let printed = self.print(rt, program);
        let status = self.status_by(&printed);
        if let Err(error) = printed
            && self.status() == 0
        {
            let _ = Exit::from(error).print(rt, program);
        }
        status
    }

    /// Returns the exit status where printing came to `printed`. It is 1 where the help that was asked for isn't printed.
    fn status_by(&self, printed: &io::Result<()>) -> u8
        ensures { EndsBy (is_ok printed.now) self.now result }
    {
        match self.status() {
            0 if printed.is_err() => 1,
            status => status,
        }
    }

    /// Returns the fault for an error of writing to the standard output.
    pub(crate) fn of_writing(error: io::Error) -> Exit
        ensures memory { error_kind error ≡ OutOfMemory → result ≡ Exit.Memory }
        ensures gone { error_kind error ≡ BrokenPipe → result ≡ Exit.ReaderGone }
        ensures other { error_kind error ≢ OutOfMemory → error_kind error ≢ BrokenPipe → result ≡ Exit.CantWrite }
        ensures kinds { IsOfWriting result }
    {
        match error.kind() {
            io::ErrorKind::OutOfMemory => Exit::Memory,
            io::ErrorKind::BrokenPipe => Exit::ReaderGone,
            _ => Exit::CantWrite,
        }
    }

    fn print<R: Print + Eprint>(&self, rt: &R, program: &str) -> io::Result<()> {
        match self {
            Exit::CommandLine(error) => error.print(rt),
            Exit::ReaderGone => Ok(()),
            fault => rt.eprintln(ExitLine { program, fault }),
        }
    }
}

/// Prints a fault as a program's line: after the program's name, but for a line of a script, and where clap has written the name.
#[derive(Drop)]
struct ExitLine<'a> {
    program: &'a str,
    fault: &'a Exit,
}

impl fmt::Display for ExitLine<'_> {
    fn fmt<W: fmt::Write>(&self, f: &mut fmt::Formatter<W>) -> fmt::Result {
        let program = self.program;
        match self.fault {
            Exit::CommandLine(error) => write!(f, "{error}"),
            Exit::Script(ScriptError::NotAnEvent(_) | ScriptError::CantRead(_)) => write!(
                f,
                "{}",
                self.fault
            ),
            fault => write!(f, "{program}: {fault}"),
        }
    }
}

impl From<AllocError> for Exit {
    ghost use Rattle.std.specs.Prelude.{◌≡◌};
    ghost use Rattle.programs.specs.declared.exit.Exit.TheVariants.{Memory};

    ghost from_gives = { λ _ fault. fault ≡ Memory };

    fn from(_refused: AllocError) -> Exit {
        Exit::Memory
    }
}

impl From<Memory> for Exit {
    ghost use Rattle.std.specs.Prelude.{◌≡◌};
    ghost use Rattle.programs.specs.declared.exit.Exit.TheVariants.{Memory};

    ghost from_gives = { λ _ fault. fault ≡ Memory };

    fn from(_refused: Memory) -> Exit {
        Exit::Memory
    }
}

impl From<ReadError> for Exit {
    ghost use Rattle.std.specs.Prelude.{◌≡◌};
    ghost use Rattle.programs.specs.Status.{exit_of_reading};

    ghost from_gives = { λ error fault. fault ≡ exit_of_reading error };

    fn from(error: ReadError) -> Exit {
        match error {
            ReadError::OfFile(fault) => Exit::OfFile(fault),
            ReadError::NoReport => Exit::NoReport,
            ReadError::NotUsed(why) => Exit::NotUsed(why),
            ReadError::NoWindow(why) => Exit::NoWindow(why),
            ReadError::NoWorld => Exit::NoWorld,
            ReadError::Memory => Exit::Memory,
        }
    }
}

impl From<ScriptError> for Exit {
    ghost use Rattle.std.specs.Prelude.{◌≡◌};
    ghost use Rattle.programs.specs.declared.exit.Exit.TheVariants.{Script};

    ghost from_gives = { λ error fault. fault ≡ Script error };

    fn from(error: ScriptError) -> Exit {
        Exit::Script(error)
    }
}

impl From<io::Error> for Exit {
    ghost use Rattle.std.specs.Prelude.{◌≡◌, ◌≢◌};
    ghost use Rattle.std.specs.IoError.{error_kind};
    ghost use Rattle.std.specs.declared.io.ErrorKind.TheVariants.{BrokenPipe, OutOfMemory};
    ghost use Rattle.programs.specs.declared.exit.Exit.TheVariants.{CantWrite, Memory, ReaderGone};

    ghost from_gives = { λ error fault. (error_kind error ≡ OutOfMemory → fault ≡ Memory)
        × (error_kind error ≡ BrokenPipe → fault ≡ ReaderGone)
        × (error_kind error ≢ OutOfMemory → error_kind error ≢ BrokenPipe → fault ≡ CantWrite) };

    fn from(error: io::Error) -> Exit {
        Exit::of_writing(error)
    }
}

impl From<clap::Error> for Exit {
    ghost use Rattle.std.specs.Prelude.{◌≡◌, ◌≢◌};
    ghost use Rattle.programs.specs.declared.exit.Exit.TheVariants.{CommandLine, Memory};
    ghost use Rattle.clap.specs.Words.{kind_of};
    ghost use Rattle.clap.specs.declared.error.kind.ErrorKind.TheVariants.{OutOfMemory};

    ghost from_gives = { λ error fault. (kind_of error ≡ OutOfMemory → fault ≡ Memory)
        × (kind_of error ≢ OutOfMemory → fault ≡ CommandLine error) };

    fn from(error: clap::Error) -> Exit {
        match error.kind() {
            ErrorKind::OutOfMemory => Exit::Memory,
            _ => Exit::CommandLine(error),
        }
    }
}
