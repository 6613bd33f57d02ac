//! Answers from memory.
use anyhow::{Result, ensure};
use cog_server::{
    AfterBytes, AfterPieces, Ended, ScriptedInlet, ScriptedOutlet, Served, Server, Stream,
};
use std::alloc::Global;
use std::io;
use std::io::Write;
use std::rt::Clock;
use std::time::Instant;

const MEBIBYTE: usize = 1048576;

/// The most bytes that a write takes.
const ROOM: usize = 65536;

/// How often a hundred answers are given.
const REPEATS: u32 = 40;

/// The head of the first 65,536 bytes, with its empty line.
const HEAD: &[u8] =
    b"HTTP/1.1 206 Partial Content\r\nETag: \"1-1\"\r\nAccept-Ranges: bytes\r\nContent-Type: image/tiff\r\n\
    Content-Range: bytes 0-65535/1048576\r\nContent-Length: 65536\r\n\r\n";

/// Copies what it takes into a buffer, as a socket does, and counts it.
#[derive(Drop)]
struct Meter {
    room: Vec<u8>,
    bytes: u64,
}

impl Meter {
    fn new(alloc: Global) -> Result<Meter> {
        let room = vec![in alloc; 0u8; ROOM]?;
        Ok(Meter { room, bytes: 0 })
    }
}

impl Write for Meter {
    fn write(&mut self, bytes: &[u8]) -> io::Result<usize> {
        let n = bytes.len().min(self.room.len());
        self.room[..n].copy_from_slice(&bytes[..n]);
        self.bytes = self.bytes.wrapping_add(n as u64);
        Ok(n)
    }

    fn flush(&mut self) -> io::Result<()> {
        Ok(())
    }
}

/// A server of one file of 1 MiB.
fn server_of_mebibyte(alloc: Global) -> Result<Server> {
    let mut server = Server::new(alloc, 1);
    server.publish(b"a", vec![in alloc; 7u8; MEBIBYTE]?)?;
    Ok(server)
}

/// A hundred requests for the file's first bytes, up to a last position.
fn requests(alloc: Global, last: usize) -> Result<Vec<u8>> {
    let one = format!(in alloc; "GET /a HTTP/1.1\r\nHost: h\r\nRange: bytes=0-{last}\r\n\r\n")?;
    let mut stream = Vec::new(alloc);
    for _ in 0..100 {
        stream.extend_from_slice(one.as_bytes())?;
    }
    Ok(stream)
}

/// Whether 8,191 bytes that come one by one are no message.
fn serve_single_bytes(alloc: Global, server: &Server) -> Result<bool> {
    let bytes = vec![in alloc; b'A'; 8191]?;
    let pieces = vec![in alloc; 1usize; 8191]?;
    let mut inlet = ScriptedInlet::new(bytes, pieces, AfterBytes::End);
    let mut outlet = ScriptedOutlet::new(alloc, Vec::new(alloc), AfterPieces::All);
    let none = Served {
        answers: 0,
        ended: Ended::EndOfInput,
    };
    Ok(server.serve(&mut inlet, &mut outlet)? == none)
}

/// Serves a hundred answers so many times, and says how many bytes were written.
fn serve_often(server: &Server, stream: &[u8], meter: &mut Meter, repeats: u32) -> Result<u64> {
    let limit = Served {
        answers: 100,
        ended: Ended::Limit,
    };
    let before = meter.bytes;
    for _ in 0..repeats {
        let served = server.serve(&mut Stream::new(stream), &mut Stream::new(&mut *meter))?;
        ensure!(served == limit, "served");
    }
    Ok(meter.bytes.wrapping_sub(before))
}

/// What a hundred answers to such requests are.
fn answers(alloc: Global, server: &Server, stream: &[u8]) -> Result<ScriptedOutlet> {
    let mut outlet = ScriptedOutlet::new(alloc, Vec::new(alloc), AfterPieces::All);
    server.serve(&mut Stream::new(stream), &mut outlet)?;
    Ok(outlet)
}

/// Whether the first of a hundred answers is the head and these 64 KiB, and all have as many bytes as they should.
fn is_hundredfold(taken: &[u8], body: &[u8]) -> bool {
    let one = HEAD.len() + 65536;
    taken.get(..HEAD.len()) == Some(HEAD)
        && taken.get(HEAD.len()..one) == Some(body)
        && taken.len() == one * 100
}

/// Whether an answer of 64 KiB is the head and the file's bytes, and a hundred have as many bytes as they should.
fn serve_64_kib(alloc: Global, server: &Server) -> Result<bool> {
    let stream = requests(alloc, 65535)?;
    let outlet = answers(alloc, server, &stream)?;
    let body = vec![in alloc; 7u8; 65536]?;
    Ok(is_hundredfold(outlet.taken(), &body))
}

/// Whether a hundred answers of 1 MiB have as many bytes as they should.
fn serve_1_mib(alloc: Global, server: &Server) -> Result<bool> {
    let mut meter = Meter::new(alloc)?;
    let stream = requests(alloc, MEBIBYTE - 1)?;
    let bytes = serve_often(server, &stream, &mut meter, 1)?;
    let head = (HEAD.len() + 4) as u64;
    Ok(bytes == (head + 1048576) * 100)
}

/// Prints what a server's answers are.
fn check_server(rt: &impl Print, alloc: Global, server: &Server) -> Result<()> {
    println!(rt; "serve 64 KiB: {}", serve_64_kib(alloc, server)?)?;
    println!(rt; "serve 1 MiB: {}", serve_1_mib(alloc, server)?)?;
    println!(rt; "single bytes: {}", serve_single_bytes(alloc, server)?)?;
    Ok(())
}

/// Whether an answer is the head and the file's bytes, and whether a hundred have as many bytes as they should.
pub fn check_serving(rt: &impl Print, alloc: Global) -> Result<()> {
    let server = server_of_mebibyte(alloc)?;
    check_server(rt, alloc, &server)
}

/// Prints how many answers a second are served.
fn measure_stream(
    rt: &(impl Print + Clock),
    server: &Server,
    stream: &[u8],
    meter: &mut Meter,
    name: &str,
) -> Result<()> {
    let start = Instant::now(rt)?;
    serve_often(server, stream, meter, REPEATS)?;
    let seconds = start.elapsed(rt)?.as_secs_f64();
    println!(rt;
        "serve {name}: {:.0} answers/s",
        f64::from(REPEATS) * 100.0 / seconds
    )?;
    Ok(())
}

/// Prints how many answers of each length a second are served.
fn measure_streams(
    rt: &(impl Print + Clock),
    alloc: Global,
    server: &Server,
    meter: &mut Meter,
) -> Result<()> {
    for (name, last) in [("1 KiB", 1023), ("64 KiB", 65535), ("1 MiB", MEBIBYTE - 1)] {
        let stream = requests(alloc, last)?;
        measure_stream(rt, server, &stream, meter, name)?;
    }
    Ok(())
}

/// Prints how long single bytes take.
fn measure_single_bytes(rt: &(impl Print + Clock), alloc: Global, server: &Server) -> Result<()> {
    let start = Instant::now(rt)?;
    for _ in 0..REPEATS {
        ensure!(serve_single_bytes(alloc, server)?, "single bytes");
    }
    let seconds = start.elapsed(rt)?.as_secs_f64();
    println!(rt;
        "8,191 single bytes: {:.0} microseconds",
        seconds * 1e6 / f64::from(REPEATS)
    )?;
    Ok(())
}

/// Prints what a server's answers and single bytes take.
fn measure_server(rt: &(impl Print + Clock), alloc: Global, server: &Server) -> Result<()> {
    let mut meter = Meter::new(alloc)?;
    measure_streams(rt, alloc, server, &mut meter)?;
    measure_single_bytes(rt, alloc, server)
}

/// Prints how many answers a second are served, and how long single bytes take.
pub fn measure_serving(rt: &(impl Print + Clock), alloc: Global) -> Result<()> {
    let server = server_of_mebibyte(alloc)?;
    measure_server(rt, alloc, &server)
}
