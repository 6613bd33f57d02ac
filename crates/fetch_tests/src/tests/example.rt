//! The two examples of the README: a window of a file in memory, and the same window by ranges, over a transport of one's own.
use cog_client::{Client, Lost, Outcome, Report, Transport};
use cog_fetch::fetch;
use cog_reader::read_file;
use cog_server::Server;
use fixtures_support::f1;
use std::alloc::Global;
use std::test::Fail;
use tiff_dir::{Memory, Pick, Query};
use transports::server_of_one;

/// Three columns from column 2, two rows from row 1, of the largest level.
const WINDOW: Query = Query::Window {
    x: 2,
    y: 1,
    w: 3,
    h: 2,
    pick: Pick::Level(0),
};

/// Returns the samples of that window, row by row. Returns `None` where the file is faulty, or doesn't have this window.
fn samples_of_file(alloc: Global, file: &[u8]) -> Result<Option<Vec<u8>>, Memory> {
    match read_file(alloc, file, WINDOW)? {
        Outcome::Window(window) => Ok(Some(window.pixels)),
        Outcome::Info(_) | Outcome::Fault(_) => Ok(None),
    }
}

/// Asks a server in the same process. It speaks for no file: contracts don't know what it brings.
#[derive(Drop)]
struct Direct<'s> {
    server: &'s Server,
    exchanges: u64,
}

impl Transport for Direct<'_> {
    ghost speaks_for = { λ _ _. ⊥ };

    ghost count = { λ s. s.exchanges };

    fn exchange(&mut self, request: &[u8]) -> Result<Vec<u8>, Lost> {
        self.exchanges += 1;
        let answer = self.server.answer(request).map_err(|_| Lost)?;
        Ok(answer.text)
    }

    fn exchanges(&self) -> u64 {
        self.exchanges
    }
}

/// Reads the window of the file `a`, in at most 64 exchanges.
fn report_to(alloc: Global, client: &mut Client, server: &Server) -> Result<Option<Report>, Fail> {
    let mut transport = Direct {
        server,
        exchanges: 0,
    };
    client.open(WINDOW);
    match fetch(client, &mut transport, 64)? {
        Some(report) => Ok(Some(report.copy(alloc)?)),
        None => Ok(None),
    }
}

/// Reads the window by a client that keeps 256 blocks of 16,384 bytes for the next query.
fn report_of_server(alloc: Global, server: &Server) -> Result<Option<Report>, Fail> {
    let mut client = Client::new(alloc, b"localhost", b"a", 256)?;
    report_to(alloc, &mut client, server)
}

#[test]
fn reads_a_window_of_a_file_in_memory(rt: HostRuntime) -> Result<(), Fail> {
    let file = f1(rt.alloc())?;
    let samples = samples_of_file(rt.alloc(), &file)?.ok_or("no window")?;
    assert_eq!(rt;
        samples.as_slice(),
        [0x12, 0x13, 0x14, 0x22, 0x23, 0x24].as_slice()
    );
    Ok(())
}

/// Returns the numbers of a report's window, and its tag. Returns `None` where it has no window.
fn told(report: &Report) -> Option<(u32, u32, u16, u16, &[u8])> {
    match &report.outcome {
        Outcome::Window(window) => Some((
            window.w,
            window.h,
            window.samples,
            window.bits,
            report.tag.as_bytes(),
        )),
        _ => None,
    }
}

#[test]
fn reads_a_window_of_a_server_by_ranges(rt: HostRuntime) -> Result<(), Fail> {
    let server = server_of_one(rt.alloc(), 1, b"a", f1(rt.alloc())?)?;
    let report = report_of_server(rt.alloc(), &server)?.ok_or("no report")?;
    assert_eq!(rt; told(&report), Some((3, 2, 1, 8, b"\"1-1\"".as_slice())));
    Ok(())
}
