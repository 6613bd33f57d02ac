//! One connection: bytes one by one, short writes, the last answer, a file that is replaced, and what comes after the last message.
use super::driving::{ASKS_A, ASKS_B, CLOSES, give, publish, server_of_two, take};
use assertion_support::expect_eq;
use cog_server::{Connection, Ended, Server};
use std::alloc::Global;
use std::process::Abort;
use std::test::Fail;

/// Returns the answers of the server, as it is now, to some messages.
fn answers(alloc: Global, server: &Server, messages: &[&[u8]]) -> Result<Vec<u8>, Fail> {
    let mut text = Vec::new(alloc);
    for message in messages {
        let answer = server.answer(message)?;
        text.extend_from_slice(&answer.text)?;
    }
    Ok(text)
}

#[test]
fn answers_single_bytes_by_writes_of_one(rt: HostRuntime) -> Result<(), Fail> {
    let alloc = rt.alloc();
    let server = server_of_two(alloc)?;
    let messages = [ASKS_A, ASKS_B, CLOSES];
    let want = answers(alloc, &server, &messages)?;
    let mut connection = Connection::new(alloc);
    let mut text = Vec::new(alloc);
    for message in messages {
        expect_single_bytes(&rt, &mut connection, &server, message, &mut text)?;
    }
    assert_eq!(rt;
        (text.as_slice(), connection.ended(), connection.answers()),
        (want.as_slice(), Some(Ended::Closed), 3)
    );
    Ok(())
}

/// Hands in the bytes of a message one by one, and takes what waits after each.
fn expect_single_bytes(
    rt: &(impl Abort + AllocGlobal),
    connection: &mut Connection,
    server: &Server,
    message: &[u8],
    text: &mut Vec<u8>,
) -> Result<(), Fail> {
    for byte in message {
        let count = give(connection, &[*byte])?;
        expect_eq!(rt; (count, connection.ended()), (1, None));
        connection.go_on(server)?;
        take_single_bytes(connection, text)?;
    }
    Ok(())
}

/// Takes one waiting byte, 200 times.
fn take_single_bytes(connection: &mut Connection, text: &mut Vec<u8>) -> Result<(), Fail> {
    for _ in 0..200 {
        take(connection, 1, text)?;
    }
    Ok(())
}

/// Expects that a hundred messages are answered and no more. A second answer waits until the first is written.
#[test]
fn ends_with_the_hundredth_answer(rt: HostRuntime) -> Result<(), Fail> {
    let alloc = rt.alloc();
    let server = server_of_two(alloc)?;
    let want = answers(alloc, &server, &[ASKS_A])?;
    let mut connection = Connection::new(alloc);
    for _ in 0..100 {
        expect_first_of_two(&rt, &mut connection, &server, &want)?;
    }
    let status = connection.go_on(&server)?;
    expect_eq!(rt;
        (status, connection.ended(), connection.answers()),
        (None, Some(Ended::Limit), 100)
    );
    Ok(())
}

/// Hands in two messages, and expects the answer to the first alone.
fn expect_first_of_two(
    rt: &(impl Abort + AllocGlobal),
    connection: &mut Connection,
    server: &Server,
    want: &[u8],
) -> Result<(), Fail> {
    give_two_and_answer(rt, connection, server)?;
    assert!(rt; connection.go_on(server)?.is_none());
    let mut text = Vec::new(rt.alloc());
    take(connection, usize::MAX, &mut text)?;
    assert_eq!(rt; text.as_slice(), want);
    Ok(())
}

/// Hands in two messages, and expects an answer.
fn give_two_and_answer(
    rt: &(impl Abort + AllocGlobal),
    connection: &mut Connection,
    server: &Server,
) -> Result<(), Fail> {
    give(connection, ASKS_A)?;
    give(connection, ASKS_A)?;
    expect_eq!(rt; connection.go_on(server)?, Some(200));
    Ok(())
}

/// Expects that a file whose answer is under way is sent to its end as it was. The answer to the next message has the new file.
#[test]
fn sends_a_replaced_file_as_it_was(rt: HostRuntime) -> Result<(), Fail> {
    let alloc = rt.alloc();
    let mut server = Server::new(alloc, 1);
    publish(alloc, &mut server, b"a", 1, 40000)?;
    let mut want = answers(alloc, &server, &[ASKS_A])?;
    let mut connection = Connection::new(alloc);
    let mut text = Vec::new(alloc);
    give_two_and_answer(&rt, &mut connection, &server)?;
    expect_eq!(rt; take(&mut connection, 300, &mut text)?, 300);
    publish(alloc, &mut server, b"a", 2, 30)?;
    expect_second_behind_the_first(&rt, &mut connection, &server, &mut text)?;
    want.extend_from_slice(&answers(alloc, &server, &[ASKS_A])?)?;
    assert_eq!(rt; text.as_slice(), want.as_slice());
    Ok(())
}

/// Expects that the second message is answered after the first answer is taken. Takes both.
fn expect_second_behind_the_first(
    rt: &(impl Abort + AllocGlobal),
    connection: &mut Connection,
    server: &Server,
    text: &mut Vec<u8>,
) -> Result<(), Fail> {
    assert!(rt; connection.go_on(server)?.is_none());
    take(connection, usize::MAX, text)?;
    expect_eq!(rt; connection.go_on(server)?, Some(200));
    take(connection, usize::MAX, text)?;
    Ok(())
}

/// Expects that 65,536 bytes after the last message are dropped, and that then no more may come.
#[test]
fn drops_what_comes_behind_the_last_message(rt: HostRuntime) -> Result<(), Fail> {
    let alloc = rt.alloc();
    let server = server_of_two(alloc)?;
    let zeros = vec![in alloc; 0u8; 8192]?;
    let mut connection = Connection::new(alloc);
    expect_draining(&rt, &mut connection, &server)?;
    for _ in 0..7 {
        expect_dropped(&rt, &mut connection, (&zeros, 8192, false))?;
    }
    expect_dropped(&rt, &mut connection, (&zeros[..8191], 8191, false))?;
    expect_dropped(&rt, &mut connection, (&zeros, 1, true))?;
    let status = connection.go_on(&server)?;
    expect_eq!(rt; (connection.room(), status), (0, None));
    Ok(())
}

/// Expects that a connection drains after its last answer is taken.
fn expect_draining(
    rt: &(impl Abort + AllocGlobal),
    connection: &mut Connection,
    server: &Server,
) -> Result<(), Fail> {
    give(connection, CLOSES)?;
    let status = connection.go_on(server)?;
    expect_eq!(rt; (status, connection.is_draining()), (Some(200), false));
    take(connection, usize::MAX, &mut Vec::new(rt.alloc()))?;
    assert!(rt; connection.is_draining());
    Ok(())
}

/// Expects that `count` of the bytes are dropped, and whether no more may come then.
fn expect_dropped(
    rt: &(impl Abort + AllocGlobal),
    connection: &mut Connection,
    (bytes, count, is_drained): (&[u8], usize, bool),
) -> Result<(), Fail> {
    let dropped = give(connection, bytes)?;
    expect_eq!(rt; (dropped, connection.is_drained()), (count, is_drained));
    Ok(())
}
