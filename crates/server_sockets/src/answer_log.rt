//! A log of the answers on connections, each with the message that it answers.
ghost use Rattle.std.specs.Prelude.{◌≡◌, ◌+◌, ◌≤◌, length, min};

use crate::connection_socket::ConnectionSocket;
use http_range::{law_messages_stay, message_length};
use server_connections::{Connections, Timed};
use std::alloc::Global;
use std::net::SocketAddr;

/// An answer on a connection.
#[derive(Clone, Copy, Debug, PartialEq, Eq)]
pub struct LoggedAnswer {
    /// The number of the connection, from 1 on.
    pub connection: u64,
    /// The address of the client, as the system gave it when the connection was accepted.
    pub client: SocketAddr,
    /// The status code.
    pub status: u16,
    /// The length of the body in bytes.
    pub length: usize,
}

/// A log of answers.
pub trait AnswerLog {
    /// Returns whether answers are logged.
    fn is_on(&self) -> bool;

    /// Logs an answer, once it is made. `message` is the message that it answers, or `None` where memory for it was short.
    fn note_answer(&mut self, message: Option<&[u8]>, answer: LoggedAnswer);
}

/// A log that keeps nothing.
#[derive(Clone, Copy, Debug)]
pub struct NoLog;

impl AnswerLog for NoLog {
    fn is_on(&self) -> bool {
        false
    }

    fn note_answer(&mut self, _message: Option<&[u8]>, _answer: LoggedAnswer) {}
}

/// The bytes that came on a connection and aren't answered yet. They are kept for a log that is on.
#[derive(Drop)]
pub struct UnansweredInput {
    bytes: Vec<u8>,
    is_kept: bool,
}

impl UnansweredInput {
    ghost use Rattle.std.specs.Prelude.{◌≡◌, [], Some, drop};
    ghost use Rattle.std.specs.Option.{option_copied, option_map};
    ghost use Rattle.server_sockets.specs.Unanswered.{IsNext, Keeps, input_of};

    /// Makes an empty one.
    pub fn new(alloc: Global) -> UnansweredInput
        ensures { input_of result ≡ Some [] }
    {
        UnansweredInput {
            bytes: Vec::new(alloc),
            is_kept: true,
        }
    }

    /// Keeps the bytes that came. Where memory for them is short, nothing is kept from then on.
    fn keep(&mut self, bytes: &[u8])
        ensures { Keeps bytes.now self.old self.new }
    {
        if self.is_kept && self.bytes.extend_from_slice(bytes).is_err() {
            self.is_kept = false;
        }
    }

    /// Returns the next message, or `None` where it isn't whole, or where some of the bytes weren't kept.
    fn next(&self) -> Option<&[u8]>
        ensures { IsNext self.now (option_copied result) }
    {
        law_messages_stay();
        if !self.is_kept {
            return None;
        }
        let length = message_length(&self.bytes, 0)?;
        Some(&self.bytes[..length])
    }

    /// Drops the first `length` bytes, which are answered.
    fn skip(&mut self, length: usize)
        ensures { input_of self.new ≡ option_map (drop length) (input_of self.old) }
    {
        let left = self.bytes.len().saturating_sub(length);
        self.bytes.copy_within(length.min(self.bytes.len()).., 0);
        self.bytes.truncate(left);
    }
}

/// The log, with what it needs to know of one connection.
#[derive(Drop)]
pub struct ConnectionLog<'a, A> {
    /// The bytes of the connection that aren't answered yet.
    pub unanswered: &'a mut UnansweredInput,
    pub log: &'a mut A,
}

impl<A: AnswerLog> ConnectionLog<'_, A> {
    /// Keeps the bytes that came on the connection, where the log is on.
    pub fn came(&mut self, bytes: &[u8])
        ensures unanswered { self.new.unanswered.ghost_name ≡ self.old.unanswered.ghost_name }
    {
        if self.log.is_on() {
            self.unanswered.keep(bytes);
        }
    }

    /// Logs the answer that waits on the connection of `socket`, where the log is on. `status` is the answer's status code.
    pub fn answered(&mut self, connections: &Connections, socket: &ConnectionSocket, status: u16)
        ensures unanswered { self.new.unanswered.ghost_name ≡ self.old.unanswered.ghost_name }
    {
        if self.log.is_on() {
            log_answer(self.unanswered, self.log, connections, socket, status);
        }
    }
}

/// Returns what is logged of the answer that waits on the connection of `socket`, which is `timed`. `status` is its status code.
fn logged_answer(socket: &ConnectionSocket, timed: &Timed, status: u16) -> LoggedAnswer
    ensures connection { result.connection ≡ min (socket.now.number + 1) u64.MAX }
    ensures client { result.client ≡ socket.now.client }
    ensures status { result.status ≡ status }
    ensures length { result.length ≤ length timed.now.connection.waiting }
{
    let (_head, body) = timed.connection.waiting();
    LoggedAnswer {
        connection: socket.number.saturating_add(1),
        client: socket.client,
        status,
        length: body.len(),
    }
}

/// Logs the answer that waits on the connection of `socket`, and drops the message that it answers.
fn log_answer<A: AnswerLog>(
    unanswered: &mut UnansweredInput,
    log: &mut A,
    connections: &Connections,
    socket: &ConnectionSocket,
    status: u16,
) {
    let Some(timed) = connections.get(socket.number) else {
        return;
    };
    let answer = logged_answer(socket, timed, status);
    let message = unanswered.next();
    log.note_answer(message, answer);
    let count = message.map_or(0, |message| message.len());
    unanswered.skip(count);
}
