//! Help, and faults of the form of a line.
use assertion_support::expect_eq;
use programs_support::{Capture, Told, tell, tell_line, tell_on, words_of};
use std::alloc::{AllocError, Global};
use std::test::Fail;

const WINDOW_PARTS: &[&str] = &[
    "Usage: cogtools cogread window [OPTIONS] <SERVER> <NAME> [X] [Y] [W] [H]\n",
    "HOST:PORT",
    "in pixels from 0",
    "in pixels\n",
    "--level <N>",
    "0 for the largest (default 0)",
    "--columns <C>",
    "(no default)",
    "--requests <N>",
    "1 to 65536 (default 64; with a path 65536)",
    "--blocks <N>",
    "Keeps N blocks of 16384 bytes, 66 to 4096 (default 256)",
    "--ahead <N>",
    "Blocks that a request may ask for early, after those that are needed next, 0 to 64 (default 0; with a URL or a path 64)",
    "--keep",
    "Keeps one connection for all requests, as long as the server does",
    "--close",
    "Connects anew for each request (the default for SERVER NAME; a URL's connection is kept)",
    "--header <LINE>",
    "Adds a field line to each request, as 'NAME: VALUE'; may stand up to 16 times",
    "--whole",
    "The whole of the level, instead of X Y W H",
    "--bounds <W> <S> <E> <N>",
    "as numbers in the file's own coordinates",
    "--world",
    "--output <FILE>",
    "(default: standard output)",
    "--verbose",
    "--progress",
    "Draws on standard error, as one line over itself, how many ranges and bytes came",
    "Example:\n  cogtools cogread window 127.0.0.1:8080 a.tif 0 0 256 256 > window.pgm\n",
    "cogtools cogread window http://127.0.0.1:8080/a.tif 0 0 256 256 --output window.pgm\n",
];

/// A row has a command line that asks for help, and what stands in the help. That is each word and option with its unit and its default,
/// and an example.
#[rattlefmt::skip]
const HELPS: [(&str, &[&str]); 10] = [
    ("--help", &[
        "Usage: cogtools cogserve FILE..\n",
        "cogtools cogread http://HOST[:PORT]/PATH[?QUERY]\n",
        "cogtools cogread FILE\n",
        "cogtools cogserve .. [--allow-origin ORIGIN] [--announce-last] [--verify SECONDS] ..\n",
        "cogtools cogread .. FILE ..\n",
        "cogtools cogserve --listen HOST:PORT --epoch N --connections N [--at-once N] [--patience SECONDS] [--log] NAME=PATH..\n",
        "cogtools cogread window SERVER NAME X Y W H [--level N | --columns C] [--requests N] [--blocks N] [--ahead N] [--keep]\n",
        "cogtools cogread info SERVER NAME [--requests N] [--blocks N] [--ahead N] [--keep]\n",
        "cogtools cogread describe SERVER NAME [--json] [--requests N] [--blocks N] [--ahead N] [--keep]\n",
        "cogtools cogread window .. --whole [--level N] ..\n",
        "cogtools cogread window .. --bounds W S E N [--level N] ..\n",
        "cogtools cogread window .. --output FILE --world\n",
        "cogtools cogread .. http://HOST[:PORT]/PATH[?QUERY] .. [--close]\n",
        "cogtools cogread .. [--header 'NAME: VALUE']..\n",
        "cogtools cogread .. [--output FILE] [--verbose | --progress]\n",
        "cogtools cogworld [--pieces N] SCRIPT\n",
        "cogtools --version\n",
    ]),
    ("cogserve help", &["<FILE>...", "--log"]),
    ("help", &["Usage: cogtools cogserve FILE..\n"]),
    ("cogserve --help", &[
        "<FILE>...",
        "--listen <HOST:PORT>",
        "(default 127.0.0.1:8080)",
        "--epoch <N>",
        "0 to 4294967295 (default: the seconds since 1970)",
        "--connections <N>",
        "1 to 4294967295 (default 4294967295)",
        "--at-once <N>",
        "1 to 10000 (default 256)",
        "--patience <SECONDS>",
        "1 to 3600 (default 60)",
        "--allow-origin <ORIGIN>",
        "--announce-last",
        "--verify <SECONDS>",
        "1 to 86400",
        "--log",
        "Prints each answer on standard error, why a file isn't taken anew, and where it listens",
        "NAME=PATH",
        "files of 1 to 67108864 bytes",
        "Example:\n  cogtools cogserve a.tif b=/data/b.tif\n",
        "  cogtools cogserve --listen 127.0.0.1:8080 --epoch 1 --connections 100 a.tif=/data/a.tif\n",
    ]),
    ("cogread --help", &[
        "window",
        "info",
        "describe",
        "Example:\n  cogtools cogread http://127.0.0.1:8080/a.tif\n",
        "  cogtools cogread info 127.0.0.1:8080 a.tif\n",
    ]),
    ("cogread window --help", WINDOW_PARTS),
    ("cogread window a -h", WINDOW_PARTS),
    ("cogread info --help", &[
        "HOST:PORT",
        "1 to 65536 (default 64; with a path 65536)",
        "Keeps N blocks of 16384 bytes, 66 to 4096 (default 256)",
        "Blocks that a request may ask for early, after those that are needed next, 0 to 64 (default 0; with a URL or a path 64)",
        "Keeps one connection for all requests, as long as the server does",
        "Example:\n  cogtools cogread info 127.0.0.1:8080 a.tif\n",
    ]),
    ("cogread describe --help", &[
        "HOST:PORT",
        "1 to 65536 (default 64; with a path 65536)",
        "Keeps N blocks of 16384 bytes, 66 to 4096 (default 256)",
        "Keeps one connection for all requests, as long as the server does",
        "--json",
        "Prints JSON, with gdalinfo's keys where they mean the same",
        "--output <FILE>",
        "--verbose",
        "Example:\n  cogtools cogread describe 127.0.0.1:8080 a.tif\n",
        "cogtools cogread describe http://127.0.0.1:8080/a.tif --json\n",
    ]),
    ("cogworld --help", &[
        "SCRIPT",
        "(no default)",
        "1 to 1069056 (default: whole)",
        "Example:\n  cogtools cogworld late.txt\n",
    ]),
];

/// Returns the first part that isn't in the help on standard output.
fn missing_part(told: &Told, parts: &'static [&'static str]) -> Option<&'static str> {
    let Ok(help) = str::from_utf8(&told.out) else {
        return parts.first().copied();
    };
    parts.iter().copied().find(|part| !help.contains(*part))
}

#[test]
fn prints_each_word_with_its_unit_and_default(rt: HostRuntime) -> Result<(), Fail> {
    for (line, parts) in HELPS {
        let told = tell(&rt, &words_of(rt.alloc(), line)?)?;
        assert_eq!(rt; missing_part(&told, parts), None, "{line:?}");
        assert!(rt; told.err.is_empty(), "{line:?}");
        expect_eq!(rt; told.status, 0, "{line:?}");
    }
    Ok(())
}

/// Lines that don't have their program's form.
const OTHERS: [&str; 15] = [
    "cogworld",
    "cogworld a b",
    "cogworld --fast a",
    "cogserve",
    "cogserve --listen h:1 --epoch 1 --connections 1",
    "cogread",
    "cogread picture",
    "cogread info h:1",
    "cogread window h:1 a 0 0 1 1 --level 0 --columns 4",
    "cogread window h:1 a --bounds 1 2 3",
    "cogread window h:1 a --bounds 1 2 3 4 --whole",
    "cogread window h:1 a --bounds 1 2 3 4 --columns 4",
    "cogread window h:1 a 0 0 1 1 --bounds 1 2 3 4",
    "cogread window h:1 a 0 0 1 1 --world",
    "cogread window h:1 a 0 0 1 1 --columns 4 --output w.pgm --world",
];

/// Expects clap's message about each of them on standard error.
#[test]
fn refuses_a_line_that_is_not_of_its_program(rt: HostRuntime) -> Result<(), Fail> {
    for line in OTHERS {
        let told = tell(&rt, &words_of(rt.alloc(), line)?)?;
        assert!(rt; told.out.is_empty(), "{line:?}");
        assert!(rt; told.err.starts_with(b"error: "), "{line:?}");
        expect_eq!(rt; told.status, 2, "{line:?}");
    }
    Ok(())
}

/// A row has a command line with the command's own name, and what its output begins with.
const NAMED: [(&str, &str); 9] = [
    ("cogtools --version", "cogtools 0.1.0\n"),
    ("/usr/bin/cogtools cogread --version", "cogread 0.1.0\n"),
    ("cogtools cogread window -V", "cogread-window 0.1.0\n"),
    ("/usr/bin/cogserve --version", "cogserve 0.1.0\n"),
    ("./cogworld -V", "cogworld 0.1.0\n"),
    ("bin/cog -V", "cog 0.1.0\n"),
    ("bin/cog --help", "Usage: cog cogserve FILE..\n"),
    ("/usr/bin/cogread info --help", "Prints the levels"),
    ("/usr/bin/cogserve -h", "Serves files"),
];

fn strings_of(alloc: Global, line: &str) -> Result<Vec<String>, AllocError> {
    let mut words = Vec::new(alloc);
    for word in line.split_whitespace() {
        words.push(String::from_str(alloc, word)?)?;
    }
    Ok(words)
}

#[test]
fn is_the_program_that_its_own_name_names(rt: HostRuntime) -> Result<(), Fail> {
    for (line, front) in NAMED {
        let told = tell_line(Capture::new(&rt), &strings_of(rt.alloc(), line)?);
        assert!(rt;
            told.out.starts_with(front.as_bytes()),
            "{line:?}: {told:?}"
        );
        assert!(rt; told.err.is_empty(), "{line:?}");
        expect_eq!(rt; told.status, 0, "{line:?}");
    }
    Ok(())
}

/// A row has a command line with the command's own name, and the usage in its help.
const USAGES: [(&str, &str); 3] = [
    (
        "/usr/bin/cogread info -h",
        "Usage: cogread info [OPTIONS] <SERVER> <NAME>\n",
    ),
    (
        "x/cog cogread info -h",
        "Usage: cog cogread info [OPTIONS] <SERVER> <NAME>\n",
    ),
    ("cogworld -h", "Usage: cogworld [OPTIONS] <SCRIPT>\n"),
];

#[test]
fn names_the_command_as_it_was_typed(rt: HostRuntime) -> Result<(), Fail> {
    for (line, usage) in USAGES {
        let told = tell_line(Capture::new(&rt), &strings_of(rt.alloc(), line)?);
        let out = str::from_utf8(&told.out).unwrap_or_default();
        assert!(rt; out.contains(usage), "{line:?}: {told:?}");
    }
    Ok(())
}

/// A row has a line that asks for help or a version, and the line of its fault.
const TOLD: [(&str, &str); 4] = [
    ("--help", "cogtools: can't write\n"),
    ("--version", "cogtools: can't write\n"),
    ("cogread --help", "cogread: can't write\n"),
    ("cogserve --version", "cogserve: can't write\n"),
];

#[test]
fn ends_with_one_where_help_cannot_be_written(rt: HostRuntime) -> Result<(), Fail> {
    for (line, err) in TOLD {
        let told = tell_on(Capture::closed(&rt), &words_of(rt.alloc(), line)?)?;
        assert!(rt; told.is("", err, 1), "{line:?}: {told:?}");
    }
    Ok(())
}
