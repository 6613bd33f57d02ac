//! `cogserve`: the lines of its faults, and the lines of what was published before. No listener can have its address.
use super::{Want, expect_told};
use assertion_support::expect_eq;
use programs_support::{tell, without_times};
use std::alloc::{AllocError, Global};
use std::convert::AsStr;
use std::fs::OpenFile;
use std::net::{Net, TcpListener, TcpStream};
use std::process::Abort;
use std::rt::{Clock, Files};
use std::test::Fail;
use std::{fs, io};

const LISTENS_NOWHERE: [&str; 4] = ["cogserve", "--listen", "nowhere", "--epoch"];

/// Returns the words of `cogserve` with this epoch, this number of connections and these files.
fn words_of<S: AsStr>(
    alloc: Global,
    epoch: &str,
    connections: &str,
    files: &[S],
) -> Result<Vec<String>, AllocError> {
    let mut words = Vec::new(alloc);
    push_each(alloc, &mut words, &LISTENS_NOWHERE)?;
    push_each(alloc, &mut words, &[epoch, "--connections", connections])?;
    push_each(alloc, &mut words, files)?;
    Ok(words)
}

/// Appends each of these to the words.
fn push_each<S: AsStr>(
    alloc: Global,
    words: &mut Vec<String>,
    more: &[S],
) -> Result<(), AllocError> {
    for word in more {
        words.push(String::from_str(alloc, word.as_str())?)?;
    }
    Ok(())
}

/// One file, without a path.
const NO_FILE: &[&str] = &["a"];

/// A row has an epoch, a number of connections and files, and what is printed for them on standard error.
#[rattlefmt::skip]
const OF_WORDS: [(&str, &str, &[&str], &str); 9] = [
    ("e", "0", NO_FILE, "cogserve: not a number: e\n"),
    ("", "1", NO_FILE, "cogserve: not a number: \n"),
    ("+1", "1", NO_FILE, "cogserve: not a number: +1\n"),
    ("4294967296", "1", NO_FILE, "cogserve: not a number: 4294967296\n"),
    ("00000000001", "1", NO_FILE, "cogserve: not a number: 00000000001\n"),
    ("4294967295", "0", NO_FILE, "cogserve: not a number: 0\n"),
    ("1", "4294967296", NO_FILE, "cogserve: not a number: 4294967296\n"),
    ("0", "1", NO_FILE, "cogserve: not a file: a\n"),
    ("1", "1", &["a=programs_tests_nowhere", "b", "c"], "cogserve: not a file: b\n"),
];

#[test]
fn refuses_the_first_word_of_another_form(rt: HostRuntime) -> Result<(), Fail> {
    for (epoch, connections, files, err) in OF_WORDS {
        expect_words(&rt, (epoch, connections, files), ("", err, 2))?;
    }
    Ok(())
}

/// Expects what is printed for an epoch, a number of connections and files.
fn expect_words<R>(
    rt: &R,
    (epoch, connections, files): (&str, &str, &[&str]),
    (out, err, status): Want<'_>,
) -> Result<(), AllocError>
where
    R: Abort + Files + Clock + AllocGlobal + Net<Listener = TcpListener, Stream = TcpStream>,
{
    let words = words_of(rt.alloc(), epoch, connections, files)?;
    expect_told(rt, err, &words, (out, err, status))
}

/// A row has an option that may be left out, a word for it that isn't accepted, and what is printed.
const OF_CHOICES: [(&str, &str, &str); 10] = [
    ("--at-once", "0", "cogserve: not a number: 0\n"),
    ("--at-once", "10001", "cogserve: not a number: 10001\n"),
    ("--at-once", "all", "cogserve: not a number: all\n"),
    ("--patience", "0", "cogserve: not a number: 0\n"),
    ("--patience", "3601", "cogserve: not a number: 3601\n"),
    ("--patience", "", "cogserve: not a number: \n"),
    ("--verify", "0", "cogserve: not a number: 0\n"),
    ("--verify", "86401", "cogserve: not a number: 86401\n"),
    ("--allow-origin", "", "cogserve: not an origin: \n"),
    (
        "--allow-origin",
        "http://a b",
        "cogserve: not an origin: http://a b\n",
    ),
];

/// Rows of values at each limit that are accepted: then the next fault is reported.
const WITHIN: [(&str, &str); 8] = [
    ("--at-once", "1"),
    ("--at-once", "10000"),
    ("--patience", "1"),
    ("--patience", "3600"),
    ("--verify", "1"),
    ("--verify", "86400"),
    ("--allow-origin", "*"),
    ("--allow-origin", "http://127.0.0.1:8000"),
];

#[test]
fn refuses_numbers_past_the_limits_of_options(rt: HostRuntime) -> Result<(), Fail> {
    for row in OF_CHOICES {
        expect_choice(&rt, row)?;
    }
    for (option, word) in WITHIN {
        expect_choice(&rt, (option, word, "cogserve: not a file: a\n"))?;
    }
    Ok(())
}

/// Expects what is printed on standard error for an option with this word.
fn expect_choice<R>(rt: &R, (option, word, err): (&str, &str, &str)) -> Result<(), AllocError>
where
    R: Abort + Files + Clock + AllocGlobal + Net<Listener = TcpListener, Stream = TcpStream>,
{
    let words = words_of(rt.alloc(), "1", "1", &["a", option, word])?;
    let name = format!(in rt.alloc(); "{option} {word}")?;
    expect_told(rt, name.as_str(), &words, ("", err, 2))
}

/// A row has an epoch and files, and what is printed for them on standard output and on standard error.
#[rattlefmt::skip]
const OF_FILES: [(&str, &[&str], &str, &str); 8] = [
    ("1", &["a=programs_tests_nowhere"], "", "cogserve: can't read programs_tests_nowhere\n"),
    // A folder.
    ("1", &["a=."], "", "cogserve: can't read .\n"),
    ("1", &["a b=programs_tests_some"], "", "cogserve: refused 1 a b\n"),
    ("1", &["a=programs_tests_empty"], "", "cogserve: refused 2 a\n"),
    ("1", &["a=programs_tests_large"], "", "cogserve: refused 3 a\n"),
    (
        "4294967295", &["b=programs_tests_some", "=programs_tests_some"],
        "published b \"4294967295-1\"\n", "cogserve: refused 1 \n",
    ),
    (
        "0", &["a=programs_tests_some", "a=programs_tests_equals=", "a=programs_tests_some"],
        "published a \"0-1\"\npublished a \"0-2\"\npublished a \"0-3\"\n", "cogserve: can't listen\n",
    ),
    ("1", &["a=programs_tests_some"], "published a \"1-1\"\n", "cogserve: can't listen\n"),
];

const PATHS: [&str; 4] = [
    "programs_tests_some",
    "programs_tests_empty",
    "programs_tests_equals=",
    "programs_tests_large",
];

/// Makes files at these paths: two of some bytes, one of none, and one of a byte more than may be published.
fn make_files<R: Files>(rt: &R) -> io::Result<()> {
    let [some, empty, equals, large] = PATHS;
    fs::write(rt, some, "some bytes")?;
    fs::write(rt, empty, "")?;
    fs::write(rt, equals, "other bytes")?;
    fs::create(rt, large)?.set_len(67_108_865)
}

#[test]
fn publishes_the_files_before_the_first_fault(rt: HostRuntime) -> Result<(), Fail> {
    make_files(&rt)?;
    for (epoch, files, out, err) in OF_FILES {
        expect_words(&rt, (epoch, "1", files), (out, err, 1))?;
    }
    for path in PATHS {
        fs::remove_file(&rt, path)?;
    }
    Ok(())
}

/// Returns the words of `count` files of one path, named by numbers.
fn many_files(alloc: Global, count: usize) -> Result<Vec<String>, AllocError> {
    let mut files = Vec::new(alloc);
    for k in 0..count {
        files.push(format!(in alloc; "{k}=programs_tests_one")?)?;
    }
    Ok(files)
}

/// Returns the lines of `count` publications.
fn many_lines(alloc: Global, count: u32) -> Result<String, AllocError> {
    let mut lines = String::new(alloc);
    for k in 0..count {
        let line = format!(in alloc; "published {k} \"1-{}\"\n", k + 1)?;
        lines.push_str(line.as_str())?;
    }
    Ok(lines)
}

#[test]
fn refuses_the_65th_name(rt: HostRuntime) -> Result<(), Fail> {
    fs::write(&rt, "programs_tests_one", "some bytes")?;
    let files = many_files(rt.alloc(), 65)?;
    let lines = many_lines(rt.alloc(), 64)?;
    let words = words_of(rt.alloc(), "1", "1", &files)?;
    expect_told(
        &rt,
        "65 names",
        &words,
        (lines.as_str(), "cogserve: refused 4 64\n", 1),
    )?;
    fs::remove_file(&rt, "programs_tests_one")?;
    Ok(())
}

/// A row has a file, and what is printed for it on standard error with a log: why, and then the fault.
#[rattlefmt::skip]
const LOGGED: [(&str, &str, &str); 4] = [
    (
        "a=programs_tests_none", "",
        "cogserve: a isn't taken: can't read programs_tests_none: No such file or directory (os error 2)\ncogserve: can't read programs_tests_none\n",
    ),
    ("a=.", "", "cogserve: a isn't taken: . is no file\ncogserve: can't read .\n"),
    (
        "a+=programs_tests_logged", "",
        "cogserve: a+ isn't taken: refused 1: not a name of a file\ncogserve: refused 1 a+\n",
    ),
    (
        "a=programs_tests_logged", "published a \"1-1\"\n",
        "cogserve: can't listen: invalid socket address\ncogserve: can't listen\n",
    ),
];

#[test]
fn tells_with_a_log_why_it_ends(rt: HostRuntime) -> Result<(), Fail> {
    fs::write(&rt, "programs_tests_logged", "some bytes")?;
    for (file, out, err) in LOGGED {
        let words = words_of(rt.alloc(), "1", "1", &[file, "--log"])?;
        let told = tell(&rt, &words)?;
        assert_eq!(rt; without_times(rt.alloc(), &told.err)?.as_str(), err);
        assert_eq!(rt; told.out.as_slice(), out.as_bytes());
        expect_eq!(rt; told.status, 1);
    }
    fs::remove_file(&rt, "programs_tests_logged")?;
    Ok(())
}
