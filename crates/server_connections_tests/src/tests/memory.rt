//! Where memory is refused, the failure reports that. This connection and the other are as they were, and the same call succeeds later.
use super::driving::{ASKS_A, ASKS_B, give_at, take_at};
use assertion_support::expect_eq;
use cog_server::{PublishError, Server, Service};
use http_range::Memory;
use server_connections::Connections;
use std::alloc::Global;
use std::num::NonZeroUsize;
use std::process::Abort;
use std::test::Fail;

/// The number of bytes of room for the text of an answer.
const ROOM: usize = 1024;

/// Returns, for both connections, the room for bytes that come, the number of waiting bytes, and the number of answers.
fn state(connections: &Connections) -> [Option<(usize, usize, usize)>; 2] {
    let mut state = [None, None];
    for number in 0..2usize {
        if let Some(timed) = connections.get(number as u64) {
            let connection = &timed.connection;
            let (head, body) = connection.waiting();
            let waiting = head.len().saturating_add(body.len());
            state[number] = Some((connection.room(), waiting, connection.answers()));
        }
    }
    state
}

/// Accepts a connection. Accepts it a second time where memory was refused.
fn accept(rt: &impl Abort, connections: &mut Connections) -> Result<u64, Fail> {
    let before = state(connections);
    if connections.is_full() {
        return Err("full".into());
    }
    match connections.accept(0) {
        Ok(number) => Ok(number),
        Err(Memory) => {
            expect_eq!(rt; state(connections), before);
            Ok(connections.accept(0)?)
        }
    }
}

/// Hands a message to a connection. Hands it a second time where memory was refused.
fn give(
    rt: &impl Abort,
    connections: &mut Connections,
    number: u64,
    message: &[u8],
) -> Result<usize, Fail> {
    let before = state(connections);
    match give_at(connections, number, message) {
        Ok(count) => Ok(count),
        Err(Memory) => {
            expect_eq!(rt; state(connections), before);
            Ok(give_at(connections, number, message)?)
        }
    }
}

/// Answers the next message of a connection. Answers it a second time where memory was refused. Returns the status code.
fn go_on(
    rt: &impl Abort,
    connections: &mut Connections,
    number: u64,
    server: &Server,
) -> Result<Option<u16>, Fail> {
    let before = state(connections);
    match connections.go_on(number, &Service::plain(server), 0) {
        Ok(status) => Ok(status),
        Err(Memory) => {
            expect_eq!(rt; state(connections), before);
            Ok(connections.go_on(number, &Service::plain(server), 0)?)
        }
    }
}

/// Makes a table for two. Makes it a second time where memory was refused.
fn table_of_two(alloc: Global) -> Result<Connections, Fail> {
    let two = NonZeroUsize::new(2).ok_or("none")?;
    match Connections::new(alloc, two) {
        Ok(connections) => Ok(connections),
        Err(Memory) => Ok(Connections::new(alloc, two)?),
    }
}

/// Makes a file of `count` copies of the byte `byte`. Makes it a second time where memory was refused.
fn file_of(alloc: Global, byte: u8, count: usize) -> Result<Vec<u8>, Fail> {
    match vec![in alloc; byte; count] {
        Ok(file) => Ok(file),
        Err(_) => Ok(vec![in alloc; byte; count]?),
    }
}

/// Publishes a file of `count` copies of the byte `byte`. Publishes it a second time where memory was refused.
fn publish(
    rt: &(impl Abort + AllocGlobal),
    server: &mut Server,
    name: &[u8],
    byte: u8,
    count: usize,
) -> Result<(), Fail> {
    if let Some(refusal) = refusal_of(server, name, file_of(rt.alloc(), byte, count)?) {
        expect_eq!(rt; refusal.number(), 6);
        let again = refusal_of(server, name, file_of(rt.alloc(), byte, count)?);
        assert!(rt; again.is_none());
    }
    Ok(())
}

/// Returns why a publication is refused.
fn refusal_of(server: &mut Server, name: &[u8], file: Vec<u8>) -> Option<PublishError> {
    match server.publish(name, file) {
        Ok(_) => None,
        Err(refusal) => Some(refusal),
    }
}

/// Returns the text of the answer to a message. Makes it a second time where memory was refused.
fn answer_to(server: &Server, message: &[u8]) -> Result<Vec<u8>, Memory> {
    match server.answer(message) {
        Ok(answer) => Ok(answer.text),
        Err(Memory) => Ok(server.answer(message)?.text),
    }
}

/// Returns the bytes that wait on a connection. They are taken into room that is made a second time where memory was refused.
fn taken(alloc: Global, connections: &mut Connections, number: u64) -> Result<Vec<u8>, Fail> {
    let mut text = match Vec::with_capacity(alloc, ROOM) {
        Ok(text) => text,
        Err(_) => Vec::with_capacity(alloc, ROOM)?,
    };
    take_at(connections, number, usize::MAX, 0, &mut text)?;
    Ok(text)
}

#[test]
fn goes_on_after_refused_memory(rt: HostRuntime) -> Result<(), Fail> {
    let mut server = Server::new(rt.alloc(), 1);
    publish(&rt, &mut server, b"a", b'A', 5)?;
    publish(&rt, &mut server, b"b", b'B', 7)?;
    let mut connections = table_of_two(rt.alloc())?;
    accept_both(&rt, &mut connections)?;
    for (number, message) in [(0, ASKS_A), (1, ASKS_B), (0, ASKS_B)] {
        expect_answered(&rt, &mut connections, &server, (number, message))?;
    }
    Ok(())
}

/// Accepts the two connections, numbered from 0.
fn accept_both(rt: &impl Abort, connections: &mut Connections) -> Result<(), Fail> {
    for number in 0..2 {
        expect_eq!(rt; accept(rt, connections)?, number);
    }
    Ok(())
}

/// Expects that a message on a connection is taken whole and answered.
fn expect_answered(
    rt: &(impl Abort + AllocGlobal),
    connections: &mut Connections,
    server: &Server,
    (number, message): (u64, &[u8]),
) -> Result<(), Fail> {
    let count = give(rt, connections, number, message)?;
    let status = go_on(rt, connections, number, server)?;
    expect_eq!(rt; (count, status), (message.len(), Some(200)));
    let text = taken(rt.alloc(), connections, number)?;
    let want = answer_to(server, message)?;
    assert_eq!(rt; text.as_slice(), want.as_slice());
    Ok(())
}
