//! The words of `cogread`, `cogserve` and `cogworld`, and the lines that are read from them.
use assertion_support::expect_eq;
use clap::Error;
use clap::error::ErrorKind;
use command_lines::{
    AskedWords, BoundsWords, ReadLine, WindowWords, read_line, read_line_with_headers, serve_line,
    world_line,
};
use programs_support::words_of;
use std::alloc::{AllocError, Global};
use std::process::Abort;
use std::test::Fail;

const WINDOW: WindowWords<'static> = WindowWords {
    x: "2",
    y: "1",
    w: "3",
    h: "2",
    level: None,
    columns: None,
};

const OF_LEVEL_0: WindowWords<'static> = WindowWords {
    level: Some("0"),
    ..WINDOW
};

const OF_4_COLUMNS: WindowWords<'static> = WindowWords {
    columns: Some("4"),
    ..WINDOW
};

const LINE: ReadLine<'static> = ReadLine {
    server: "h:1",
    name: "a",
    asked: AskedWords::Window(WINDOW),
    requests: None,
    blocks: None,
    ahead: None,
    keep: false,
    close: false,
    output: None,
    world: false,
    verbose: false,
    progress: false,
};

const BOUNDS: BoundsWords<'static> = BoundsWords {
    west: "-1.5",
    south: "2",
    east: "-1e-5",
    north: "4",
    level: None,
};

const OF_LEVEL_1: BoundsWords<'static> = BoundsWords {
    level: Some("1"),
    ..BOUNDS
};

const INFO: ReadLine<'static> = ReadLine {
    asked: AskedWords::Info,
    ..LINE
};

const DESCRIPTION: ReadLine<'static> = ReadLine {
    asked: AskedWords::Description { is_json: false },
    ..LINE
};

fn is_read(alloc: Global, line: &str, want: &ReadLine<'_>) -> Result<bool, AllocError> {
    let words = words_of(alloc, line)?;
    let is_read = match read_line(alloc, &words) {
        Ok(found) => found == *want,
        Err(_) => false,
    };
    Ok(is_read)
}

/// Expects the line that is read from these words of `cogread`. Each is a call of its own, since a table of such lines takes minutes to
/// prove.
fn expect_read(
    rt: &(impl Abort + AllocGlobal),
    line: &str,
    want: &ReadLine<'_>,
) -> Result<(), Fail> {
    assert!(rt; is_read(rt.alloc(), line, want)?, "{line:?}");
    Ok(())
}

/// Expects the lines of windows.
#[rattlefmt::skip]
fn expect_windows(rt: &(impl Abort + AllocGlobal)) -> Result<(), Fail> {
    expect_read(rt, "cogread window h:1 a 2 1 3 2", &LINE)?;
    expect_read(rt, "cogread window h:1 a 2 1 3 2 --level 0", &ReadLine { asked: AskedWords::Window(OF_LEVEL_0), ..LINE })?;
    expect_read(rt, "cogread window --columns=4 h:1 a 2 1 3 2", &ReadLine { asked: AskedWords::Window(OF_4_COLUMNS), ..LINE })?;
    expect_read(rt, "cogread window --requests x h:1 a 2 1 3 2 --blocks ''", &ReadLine { requests: Some("x"), blocks: Some(""), ..LINE })?;
    expect_read(rt, "cogread window h:1 --ahead=64 a 2 1 3 2", &ReadLine { ahead: Some("64"), ..LINE })?;
    expect_read(rt, "cogread window h:1 a 2 1 3 2 --keep", &ReadLine { keep: true, ..LINE })?;
    expect_read(rt, "cogread window h:1 a 2 1 3 2 --output=w.pgm", &ReadLine { output: Some("w.pgm"), ..LINE })?;
    Ok(())
}

/// Expects the lines of whole levels, and of infos.
#[rattlefmt::skip]
fn expect_wholes_and_infos(rt: &(impl Abort + AllocGlobal)) -> Result<(), Fail> {
    expect_read(rt, "cogread window h:1 a --whole", &ReadLine { asked: AskedWords::Whole { level: None }, ..LINE })?;
    expect_read(rt, "cogread window --level 1 h:1 --whole a", &ReadLine { asked: AskedWords::Whole { level: Some("1") }, ..LINE })?;
    expect_read(rt, "cogread info h:1 a", &INFO)?;
    expect_read(rt, "cogread info --blocks 66 h:1 --requests=1 a", &ReadLine { requests: Some("1"), blocks: Some("66"), ..INFO })?;
    expect_read(rt, "cogread info --keep h:1 a", &ReadLine { keep: true, ..INFO })?;
    expect_read(rt, "cogread info h:1 a --close", &ReadLine { close: true, ..INFO })?;
    expect_read(rt, "cogread info h:1 --verbose a", &ReadLine { verbose: true, ..INFO })?;
    expect_read(rt, "cogread info h:1 a --progress", &ReadLine { progress: true, ..INFO })?;
    Ok(())
}

/// Expects the lines of rectangles, whose numbers may be negative, and of world files.
#[rattlefmt::skip]
fn expect_rectangles(rt: &(impl Abort + AllocGlobal)) -> Result<(), Fail> {
    expect_read(rt, "cogread window h:1 a --bounds -1.5 2 -1e-5 4", &ReadLine { asked: AskedWords::Bounds(BOUNDS), ..LINE })?;
    expect_read(rt, "cogread window --bounds -1.5 2 -1e-5 4 h:1 --level 1 a", &ReadLine { asked: AskedWords::Bounds(OF_LEVEL_1), ..LINE })?;
    expect_read(rt, "cogread window h:1 a 2 1 3 2 --output=w.pgm --world", &ReadLine { output: Some("w.pgm"), world: true, ..LINE })?;
    Ok(())
}

/// Expects the lines of descriptions.
#[rattlefmt::skip]
fn expect_descriptions(rt: &(impl Abort + AllocGlobal)) -> Result<(), Fail> {
    expect_read(rt, "cogread describe h:1 a", &DESCRIPTION)?;
    expect_read(rt, "cogread describe --blocks 66 h:1 a --keep", &ReadLine { blocks: Some("66"), keep: true, ..DESCRIPTION })?;
    expect_read(rt, "cogread describe h:1 --json a", &ReadLine { asked: AskedWords::Description { is_json: true }, ..LINE })?;
    Ok(())
}

#[test]
fn reads_the_options_of_cogread_anywhere(rt: HostRuntime) -> Result<(), Fail> {
    expect_windows(&rt)?;
    expect_wholes_and_infos(&rt)?;
    expect_rectangles(&rt)?;
    expect_descriptions(&rt)
}

/// A line of `cogread` with two field lines.
const WITH_HEADERS: &str = "cogread info --header A:1 h:1 --keep a --header=b:";

#[test]
fn reads_the_field_lines_of_cogread_in_their_order(rt: HostRuntime) -> Result<(), Fail> {
    let words = words_of(rt.alloc(), WITH_HEADERS)?;
    let read = read_line_with_headers(rt.alloc(), &words)?;
    assert_eq!(rt; read.line, ReadLine { keep: true, ..INFO });
    assert_eq!(rt; read.headers.as_slice(), ["A:1", "b:"].as_slice());
    let words = words_of(rt.alloc(), "cogread describe h:1 a")?;
    let read = read_line_with_headers(rt.alloc(), &words)?;
    assert_eq!(rt; read.line, DESCRIPTION);
    assert_eq!(rt; read.headers.len(), 0);
    Ok(())
}

/// The options of `cogserve` that add to answers, and the line that has them.
const ADDED: &str =
    "cogserve --allow-origin * --listen h:1 --epoch 1 --announce-last --connections 2 a=p --verify=60";

#[test]
fn reads_what_cogserve_adds(rt: HostRuntime) -> Result<(), Fail> {
    let words = words_of(rt.alloc(), ADDED)?;
    let line = serve_line(rt.alloc(), &words)?;
    assert_eq!(rt; line.allow_origin, Some("*"));
    assert!(rt; line.announce_last);
    assert_eq!(rt; line.verify, Some("60"));
    Ok(())
}

/// A row has a line of `cogserve`, with its address, its epoch and its number of connections. Then come how many at once, the patience, the
/// files, and whether there is a log.
type ServedRow = (
    &'static str,
    [&'static str; 3],
    [Option<&'static str>; 2],
    &'static [&'static str],
    bool,
);

#[rattlefmt::skip]
const SERVED: [ServedRow; 5] = [
    ("cogserve --listen h:1 --epoch 1 --connections 2 a=p", ["h:1", "1", "2"], [None, None], &["a=p"], false),
    ("cogserve --log --listen h:1 --epoch 1 --connections 2 a=p", ["h:1", "1", "2"], [None, None], &["a=p"], true),
    (
        "cogserve a=p --connections=3 b=q=r --epoch x --at-once 7 --listen=[::1]:80 c",
        ["[::1]:80", "x", "3"], [Some("7"), None], &["a=p", "b=q=r", "c"], false,
    ),
    ("cogserve --listen '' --epoch '' --connections '' -- --a=p", ["", "", ""], [None, None], &["--a=p"], false),
    (
        "cogserve --patience=x --listen h:1 --at-once '' --epoch 1 --connections 2 a=p --log",
        ["h:1", "1", "2"], [Some(""), Some("x")], &["a=p"], true,
    ),
];

fn is_served(alloc: Global, row: ServedRow) -> Result<bool, AllocError> {
    let (line, values, choices, files, log) = row;
    let words = words_of(alloc, line)?;
    let is_served = match serve_line(alloc, &words) {
        Ok(found) => {
            [found.listen, found.epoch, found.connections] == values
                && [found.at_once, found.patience] == choices
                && found.files.as_slice() == files
                && found.log == log
        }
        Err(_) => false,
    };
    Ok(is_served)
}

#[test]
fn reads_the_options_and_files_of_cogserve_anywhere(rt: HostRuntime) -> Result<(), Fail> {
    for row in SERVED {
        assert!(rt; is_served(rt.alloc(), row)?, "{:?}", row.0);
    }
    Ok(())
}

/// A row has words that are refused or ask for help, and how clap names that.
#[rattlefmt::skip]
const REFUSED: [(&str, ErrorKind); 38] = [
    ("cogread --help", ErrorKind::DisplayHelp),
    ("cogread window --help", ErrorKind::DisplayHelp),
    ("cogread info -h", ErrorKind::DisplayHelp),
    ("cogread", ErrorKind::MissingSubcommand),
    ("cogread picture", ErrorKind::InvalidSubcommand),
    ("cogread info h:1", ErrorKind::MissingRequiredArgument),
    ("cogread info h:1 a 0", ErrorKind::UnknownArgument),
    ("cogread info h:1 a --level 0", ErrorKind::UnknownArgument),
    ("cogread info h:1 a --json", ErrorKind::UnknownArgument),
    ("cogread describe h:1", ErrorKind::MissingRequiredArgument),
    ("cogread window h:1 a", ErrorKind::MissingRequiredArgument),
    ("cogread window h:1 --whole", ErrorKind::MissingRequiredArgument),
    ("cogread window h:1 a --whole --columns 4", ErrorKind::ArgumentConflict),
    ("cogread window h:1 a 0 0 1 1 --whole", ErrorKind::ArgumentConflict),
    ("cogread info h:1 a --keep --keep", ErrorKind::ArgumentConflict),
    ("cogread info h:1 a --keep --close", ErrorKind::ArgumentConflict),
    ("cogread info h:1 a --verbose --progress", ErrorKind::ArgumentConflict),
    ("cogread window h:1 a 0 0 1", ErrorKind::MissingRequiredArgument),
    ("cogread window h:1 a 0 0 1 1 --level 0 --level 0", ErrorKind::ArgumentConflict),
    ("cogread window h:1 a 0 0 1 1 --level 0 --columns 4", ErrorKind::ArgumentConflict),
    ("cogserve --help", ErrorKind::DisplayHelp),
    ("cogserve -h", ErrorKind::DisplayHelp),
    ("cogserve", ErrorKind::MissingRequiredArgument),
    ("cogserve --listen h:1 --epoch 1 --connections 2", ErrorKind::MissingRequiredArgument),
    ("cogserve --listen h:1 --connections 2 a=p", ErrorKind::MissingRequiredArgument),
    ("cogserve --port h:1", ErrorKind::UnknownArgument),
    ("cogserve --listen h:1 --epoch 1 --connections 2 --log --log a=p", ErrorKind::ArgumentConflict),
    ("cogserve --listen h:1 --epoch 1 --connections 2 --log=1 a=p", ErrorKind::TooManyValues),
    ("cogserve --listen h:1 --listen h:2 a=p", ErrorKind::ArgumentConflict),
    ("cogserve a=p --epoch", ErrorKind::InvalidValue),
    ("cogserve --listen h:1 --epoch 1 --connections 2 --at-once 1 --at-once 2 a=p", ErrorKind::ArgumentConflict),
    ("cogworld --help", ErrorKind::DisplayHelp),
    ("cogworld --version", ErrorKind::DisplayVersion),
    ("cogworld", ErrorKind::MissingRequiredArgument),
    ("cogworld a b", ErrorKind::UnknownArgument),
    ("cogworld --log a", ErrorKind::UnknownArgument),
    ("cogworld a --pieces", ErrorKind::InvalidValue),
    ("cogworld --pieces 1 --pieces 2 a", ErrorKind::ArgumentConflict),
];

/// Returns how clap names the refusal, if there is one.
fn refusal<T: Drop>(line: Result<T, Error>) -> Option<ErrorKind> {
    match line {
        Ok(_) => None,
        Err(error) => Some(error.kind()),
    }
}

/// Returns how the program that is the first word of a line refuses its words.
fn refusal_of(alloc: Global, line: &str) -> Result<Option<ErrorKind>, AllocError> {
    let words = words_of(alloc, line)?;
    if line.starts_with("cogserve") {
        return Ok(refusal(serve_line(alloc, &words)));
    }
    if line.starts_with("cogworld") {
        return Ok(refusal(world_line(alloc, &words)));
    }
    Ok(refusal(read_line(alloc, &words)))
}

#[test]
fn refuses_words_of_another_form(rt: HostRuntime) -> Result<(), Fail> {
    for (line, want) in REFUSED {
        expect_eq!(rt; refusal_of(rt.alloc(), line)?, Some(want), "{line:?}");
    }
    Ok(())
}
