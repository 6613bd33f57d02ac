//! What `cogread` prints over a server in memory, and the lines of its faults.
ghost use Rattle.std.specs.Prelude.{◌+◌, ◌^◌, ◌<◌};

use assertion_support::expect_eq;
use cog_client::{Client, Pieces, Query};
use cog_server::Server;
use fixtures_support::{f1, f2, f2b};
use programs::Exit;
use programs_support::{Capture, Told};
use read_command::{Area, Asked, Exchanges, Part};
use read_progress::{Noted, NotedNet, Printing, Verbosity};
use std::alloc::{AllocError, Global};
use std::io;
use std::rt::Clock;
use std::test::Fail;
use tiff_dir::Pick;
use transports::{InMemory, InPieces, Replaced, server_of_one};

/// The sizes of the pieces in which answers come.
const SIZES: [usize; 3] = [1, 170, 4096];

/// Reads what is asked of a source, in at most `requests` exchanges, and writes it with the runtime. A world file is written after the
/// picture.
fn read<R: AllocGlobal + Clock, P: Pieces + Drop>(
    capture: &Capture<'_, R>,
    pieces: P,
    requests: u32,
    asked: Asked,
) -> Result<(), Exit>
    requires { P.count pieces + requests < 2 ^ 64 }
{
    let alloc = capture.alloc();
    let Ok(mut client) = Client::new(alloc, b"cog.test", b"a", 66) else {
        return Err(Exit::Memory);
    };
    let net = NotedNet::new(capture);
    let printing = Printing {
        rt: capture,
        net: &net,
        verbosity: Verbosity::Nothing,
    };
    let mut noted = Noted::new(alloc, pieces, printing);
    let exchanges = Exchanges {
        rt: capture,
        requests,
        is_url: false,
    };
    let text = exchanges.text(&mut client, &mut noted, asked)?;
    text.write_to(&mut io::writer(capture))?;
    match text.world {
        Some(world) => Ok(print!(capture; "{world}")?),
        None => Ok(()),
    }
}

/// Returns what is printed, and the status, for what is asked of a source in at most `requests` exchanges.
fn told_over<R: AllocGlobal + Clock, P: Pieces + Drop>(
    capture: Capture<'_, R>,
    pieces: P,
    requests: u32,
    asked: Asked,
) -> Told
    requires { P.count pieces + requests < 2 ^ 64 }
{
    let status = match read(&capture, pieces, requests, asked) {
        Ok(()) => 0,
        Err(fault) => fault.tell(&capture, "cogread"),
    };
    let (out, err) = capture.into_texts();
    Told { out, err, status }
}

/// Returns what is printed, and the status, for what is asked of a server in memory.
pub fn told_of<R: AllocGlobal + Clock>(
    capture: Capture<'_, R>,
    server: &Server,
    asked: Asked,
) -> Told {
    let memory = InMemory::new(server, b"a");
    let pieces = InPieces::new(capture.alloc(), memory, &SIZES);
    told_over(capture, pieces, 4, asked)
}

/// Makes a query of two rows of three columns, from row 1 on.
fn window(x: u32, pick: Pick) -> Asked {
    let (y, w, h) = (1, 3, 2);
    Asked::Query(Query::Window { x, y, w, h, pick })
}

/// Asks for the whole of a level.
fn whole(level: u32) -> Asked {
    Asked::Part(Part {
        area: Area::Whole,
        level,
        has_world: false,
    })
}

#[test]
fn prints_what_is_read_or_tells_the_fault(rt: HostRuntime) -> Result<(), Fail> {
    let server = server_of_one(rt.alloc(), 1, b"a", f1(rt.alloc())?)?;
    let picture = "P5\n3 2\n255\n\x12\x13\x14\x22\x23\x24";
    let info = "tag \"1-1\"\nlevel 0 16 16\nminor 0\n";
    let outside = "cogread: fault 14\n";
    for (query, out, err, status) in [
        (window(2, Pick::Level(0)), picture, "", 0),
        (Asked::Query(Query::Info), info, "", 0),
        (window(14, Pick::Level(0)), "", outside, 3),
        (window(2, Pick::Level(1)), "", outside, 3),
        (whole(1), "", outside, 3),
    ] {
        let told = told_of(Capture::new(&rt), &server, query);
        assert!(rt; told.is(out, err, status), "{query:?}: {told:?}");
    }
    Ok(())
}

/// Expects the whole of a level. The sample of f1 at x, y is 16y + x.
#[test]
fn reads_the_whole_of_a_level(rt: HostRuntime) -> Result<(), Fail> {
    let server = server_of_one(rt.alloc(), 1, b"a", f1(rt.alloc())?)?;
    let told = told_of(Capture::new(&rt), &server, whole(0));
    let mut want = Vec::from_slice(rt.alloc(), b"P5\n16 16\n255\n")?;
    for sample in 0..=u8::MAX {
        want.push(sample)?;
    }
    expect_eq!(rt; told.out, want);
    assert!(rt; told.err.is_empty());
    expect_eq!(rt; told.status, 0);
    Ok(())
}

/// Returns the picture of f2b. Its samples in the tile of 16 by 16 with the number t, row by row of tiles, are 255 - t.
fn picture_of_f2b(alloc: Global) -> Result<Vec<u8>, AllocError> {
    let mut picture = Vec::from_slice(alloc, b"P5\n256 256\n255\n")?;
    for row in 0..=u8::MAX {
        for column in 0..=u8::MAX {
            picture.push(255 - (row / 16 * 16 + column / 16))?;
        }
    }
    Ok(picture)
}

/// Returns what is printed for the whole of f2, where f2b replaces it after the first exchange.
fn told_of_replaced(rt: &HostRuntime, requests: u32) -> Result<Told, Fail> {
    let old = server_of_one(rt.alloc(), 1, b"a", f2(rt.alloc())?)?;
    let new = server_of_one(rt.alloc(), 2, b"a", f2b(rt.alloc())?)?;
    let replaced = Replaced::new(&old, &new, b"a", 1);
    let pieces = InPieces::new(rt.alloc(), replaced, &SIZES);
    Ok(told_over(Capture::new(rt), pieces, requests, whole(0)))
}

/// Expects the whole of the file that replaces another. An answer has the sides of the level of the old file, and then the new one is
/// there: two answers bring all of it. Its sides are read before the whole of it, and neither takes another exchange.
#[test]
fn reads_the_whole_of_a_file_that_is_replaced(rt: HostRuntime) -> Result<(), Fail> {
    let want = picture_of_f2b(rt.alloc())?;
    for requests in [3, 4] {
        let told = told_of_replaced(&rt, requests)?;
        assert!(rt;
            told.out == want,
            "{} bytes, {:?}, {}",
            told.out.len(),
            told.err,
            told.status
        );
        expect_eq!(rt; told.status, 0);
    }
    let told = told_of_replaced(&rt, 2)?;
    assert!(rt; told.is("", "cogread: no report\n", 4), "{told:?}");
    Ok(())
}

#[test]
fn tells_that_standard_output_is_closed(rt: HostRuntime) -> Result<(), Fail> {
    let server = server_of_one(rt.alloc(), 1, b"a", f1(rt.alloc())?)?;
    let told = told_of(Capture::closed(&rt), &server, Asked::Query(Query::Info));
    assert!(rt; told.is("", "cogread: can't write\n", 1), "{told:?}");
    Ok(())
}

/// Expects a fault with its tag. The compression of f1 stands at byte 54, and 5 is one that isn't accepted.
#[test]
fn tells_a_fault_with_its_tag(rt: HostRuntime) -> Result<(), Fail> {
    let mut file = f1(rt.alloc())?;
    assert!(rt; file.len() > 54);
    file[54] = 5;
    let server = server_of_one(rt.alloc(), 1, b"a", file)?;
    let told = told_of(Capture::new(&rt), &server, Asked::Query(Query::Info));
    assert!(rt; told.is("", "cogread: fault 9 259\n", 3), "{told:?}");
    Ok(())
}
