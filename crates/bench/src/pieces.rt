//! Answers of a mebibyte, as a client takes them: whole, and in pieces.
use crate::MEBIBYTE;
use anyhow::{Result, bail, ensure};
use cog_client::Client;
use cog_server::Server;
use std::alloc::{AllocError, Global};
use std::rt::Clock;
use std::time::Instant;
use tiff_dir::{Memory, Pick, Query};

/// How often an answer is taken.
const REPEATS: u32 = 256;

/// Sizes of pieces: what a packet brings, a block, and what a socket may bring at once.
const PIECES: [usize; 3] = [1_460, 16_384, 65_536];

/// The directory of an image of 1024 by 1024 samples of 8 bits in one tile, which stands behind it: each entry's tag, type, count
/// and value (TIFF 6.0, section 2).
const ENTRIES: [(u16, u16, u32, u32); 10] = [
    (256, 4, 1, 1024),
    (257, 4, 1, 1024),
    (258, 3, 1, 8),
    (259, 3, 1, 1),
    (262, 3, 1, 1),
    (277, 3, 1, 1),
    (322, 4, 1, 1024),
    (323, 4, 1, 1024),
    (324, 4, 1, 134),
    (325, 4, 1, 1_048_576),
];

/// Appends an entry of a directory.
fn push_entry(
    file: &mut Vec<u8>,
    (tag, kind, count, value): (u16, u16, u32, u32),
) -> Result<(), AllocError> {
    file.extend_from_slice(&tag.to_le_bytes())?;
    file.extend_from_slice(&kind.to_le_bytes())?;
    file.extend_from_slice(&count.to_le_bytes())?;
    file.extend_from_slice(&value.to_le_bytes())
}

/// Appends that image to the head of a file.
fn push_image(file: &mut Vec<u8>) -> Result<(), AllocError> {
    for entry in ENTRIES {
        push_entry(file, entry)?;
    }
    file.extend_from_slice(&[0; 4])?;
    file.resize(134 + MEBIBYTE, 7)
}

/// A file of that image.
fn image(alloc: Global) -> Result<Vec<u8>, AllocError> {
    let mut file = Vec::from_slice(alloc, b"II*\0\x08\0\0\0\x0a\0")?;
    push_image(&mut file)?;
    Ok(file)
}

/// The answer to what the client asks now.
fn asked(client: &mut Client, server: &Server) -> Result<Vec<u8>> {
    let Ok(Some(request)) = client.request() else {
        bail!("nothing is asked");
    };
    match server.answer(&request) {
        Ok(answer) => Ok(answer.text),
        Err(Memory) => bail!("no memory"),
    }
}

/// Hands an answer over, whole or in pieces of so many bytes.
fn hand(client: &mut Client, answer: &[u8], piece: Option<usize>) -> Result<(), Memory> {
    let Some(size) = piece else {
        client.deliver(answer)?;
        return Ok(());
    };
    client.begin();
    for part in answer.chunks(size.max(1)) {
        client.feed(part)?;
    }
    client.end()?;
    Ok(())
}

/// Lets a client without blocks take the first answer.
fn begin(client: &mut Client, server: &Server) -> Result<()> {
    client.forget();
    let answer = asked(client, server)?;
    ensure!(hand(client, &answer, None).is_ok(), "no memory");
    Ok(())
}

/// How many seconds a client needs to take the last answer before its report.
fn seconds_of(
    rt: &impl Clock,
    client: &mut Client,
    answer: &[u8],
    piece: Option<usize>,
) -> Result<f64> {
    let start = Instant::now(rt)?;
    let taken = hand(client, answer, piece);
    let seconds = start.elapsed(rt)?.as_secs_f64();
    ensure!(taken.is_ok() && client.report().is_some(), "no report");
    Ok(seconds)
}

/// How many MB a second of the second answer a client takes, which has the image's last 983,174 bytes.
fn rate(
    rt: &impl Clock,
    client: &mut Client,
    server: &Server,
    piece: Option<usize>,
) -> Result<f64> {
    let mut seconds = 0.0;
    for _ in 0..REPEATS {
        begin(client, server)?;
        let answer = asked(client, server)?;
        seconds += seconds_of(rt, client, &answer, piece)?;
    }
    Ok(f64::from(REPEATS) * 983_174.0 / seconds / 1e6)
}

/// A server of the image.
fn server_of_image(alloc: Global) -> Result<Server> {
    let mut server = Server::new(alloc, 1);
    server.publish(b"a", image(alloc)?)?;
    Ok(server)
}

/// A client that asks for the whole image.
fn client_of_image(alloc: Global) -> Result<Client> {
    let mut client = Client::new(alloc, b"h", b"a", 66)?;
    client.open(Query::Window {
        x: 0,
        y: 0,
        w: 1024,
        h: 1024,
        pick: Pick::Level(0),
    });
    Ok(client)
}

/// Prints the rates of a client, of each size in turn.
fn print_rates(rt: &(impl Print + Clock), client: &mut Client, server: &Server) -> Result<()> {
    let whole = rate(rt, client, server, None)?;
    println!(rt; "deliver: {whole:.0} MB/s")?;
    for piece in PIECES {
        let rate = rate(rt, client, server, Some(piece))?;
        println!(rt; "pieces of {piece}: {rate:.0} MB/s")?;
    }
    Ok(())
}

/// Prints the rates of a new client.
fn measure_client(rt: &(impl Print + Clock), alloc: Global, server: &Server) -> Result<()> {
    let mut client = client_of_image(alloc)?;
    print_rates(rt, &mut client, server)
}

/// Prints the rates, of each size in turn.
pub fn measure_pieces(rt: &(impl Print + Clock), alloc: Global) -> Result<()> {
    let server = server_of_image(alloc)?;
    measure_client(rt, alloc, &server)
}
