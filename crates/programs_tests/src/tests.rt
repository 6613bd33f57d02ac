//! Tests of what the command prints, and of its exit status.
mod disk;
mod faults;
mod line_forms;
mod output;
mod read_faults;
mod serves;
mod worlds;

use programs_support::{tell, words_of};
use std::alloc::AllocError;
use std::convert::AsStr;
use std::net::{Net, TcpListener, TcpStream};
use std::process::Abort;
use std::rt::{Clock, Files};

/// What is printed on standard output and on standard error, and the exit status.
type Want<'a> = (&'a str, &'a str, u8);

/// Expects what is printed for these words. A failure prints their name.
fn expect_told<R, S: AsStr>(
    rt: &R,
    name: &str,
    words: &[S],
    (out, err, status): Want<'_>,
) -> Result<(), AllocError>
where
    R: Abort + Files + Clock + AllocGlobal + Net<Listener = TcpListener, Stream = TcpStream>,
{
    let told = tell(rt, words)?;
    assert_eq!(rt;
        (
            str::from_utf8(&told.out),
            str::from_utf8(&told.err),
            told.status
        ),
        (Ok(out), Ok(err), status),
        "of {name:?}"
    );
    Ok(())
}

/// A row has words, what is printed for them on standard error, and the status. Nothing is printed on standard output.
type FaultRow<'a> = (&'a str, &'a str, u8);

/// Expects what is printed for the words of each row.
fn expect_faults<R>(rt: &R, rows: &[FaultRow<'_>]) -> Result<(), AllocError>
where
    R: Abort + Files + Clock + AllocGlobal + Net<Listener = TcpListener, Stream = TcpStream>,
{
    for row in rows {
        expect_fault(rt, *row)?;
    }
    Ok(())
}

/// Expects what is printed for the words of a row.
fn expect_fault<R>(rt: &R, (line, err, status): FaultRow<'_>) -> Result<(), AllocError>
where
    R: Abort + Files + Clock + AllocGlobal + Net<Listener = TcpListener, Stream = TcpStream>,
{
    let words = words_of(rt.alloc(), line)?;
    expect_told(rt, line, &words, ("", err, status))
}
