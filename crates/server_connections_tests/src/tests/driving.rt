//! What the tests do with a connection, and what they expect of it.
use cog_server::{Connection, Server};
use http_range::Memory;
use server_connections::Connections;
use std::alloc::Global;
use std::test::Fail;

/// Requests for the file `a`, for `b`, and one for `a` that ends the connection.
pub const ASKS_A: &[u8] = b"GET /a HTTP/1.1\r\nHost: h\r\n\r\n";

pub const ASKS_B: &[u8] = b"GET /b HTTP/1.1\r\nHost: h\r\n\r\n";

pub const CLOSES: &[u8] = b"GET /a HTTP/1.1\r\nHost: h\r\nConnection: close\r\n\r\n";

/// Publishes `count` copies of the byte `byte`.
pub fn publish(
    alloc: Global,
    server: &mut Server,
    name: &[u8],
    byte: u8,
    count: usize,
) -> Result<(), Fail> {
    let mut file = Vec::new(alloc);
    file.resize(count, byte)?;
    server.publish(name, file).map_err(|_| "refused")?;
    Ok(())
}

/// Makes a server with the files `a` and `b`.
pub fn server_of_two(alloc: Global) -> Result<Server, Fail> {
    let mut server = Server::new(alloc, 1);
    publish(alloc, &mut server, b"a", b'A', 5)?;
    publish(alloc, &mut server, b"b", b'B', 7)?;
    Ok(server)
}

/// Hands in as many of the bytes as there is room for. Returns how many.
pub fn give(connection: &mut Connection, bytes: &[u8]) -> Result<usize, Memory> {
    let n = connection.room().min(bytes.len());
    connection.came(&bytes[..n])?;
    Ok(n)
}

/// Takes at most `most` of the waiting bytes. Returns how many.
pub fn take(connection: &mut Connection, most: usize, text: &mut Vec<u8>) -> Result<usize, Fail> {
    let (head, body) = connection.waiting();
    let front = &head[..most.min(head.len())];
    let rest = &body[..(most - front.len()).min(body.len())];
    text.extend_from_slice(front)?;
    text.extend_from_slice(rest)?;
    let n = front.len() + rest.len();
    connection.wrote(n);
    Ok(n)
}

/// Hands bytes to a connection of the table, as many as there is room for. Returns how many.
pub fn give_at(connections: &mut Connections, number: u64, bytes: &[u8]) -> Result<usize, Memory> {
    let Some(timed) = connections.get(number) else {
        return Ok(0);
    };
    let n = timed.connection.room().min(bytes.len());
    connections.came(number, &bytes[..n])?;
    Ok(n)
}

/// Takes at most `most` of the bytes that wait on a connection of the table, at the moment `now`. Returns how many.
pub fn take_at(
    connections: &mut Connections,
    number: u64,
    most: usize,
    now: u64,
    text: &mut Vec<u8>,
) -> Result<usize, Fail> {
    let Some(timed) = connections.get(number) else {
        return Ok(0);
    };
    let (head, body) = timed.connection.waiting();
    let front = &head[..most.min(head.len())];
    let rest = &body[..(most - front.len()).min(body.len())];
    text.extend_from_slice(front)?;
    text.extend_from_slice(rest)?;
    let n = front.len() + rest.len();
    connections.wrote(number, n, now);
    Ok(n)
}
