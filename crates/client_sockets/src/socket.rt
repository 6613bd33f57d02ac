//! Connections to a server that is named by its address: one for each request, or one that is kept from answer to answer.
ghost use Rattle.std.specs.Prelude.{◌≡◌, ◌⊎◌, [], false, true, OnErr, OnOk};
ghost use Rattle.client_connection.specs.Status.{over};
ghost use Rattle.client_sockets.specs.Sockets.{IsFirstOut, IsFresh, KeepsOut, connection_of, exchanges_of, handed_of, is_over, keeps, sent_anew, server_of, unread_of};

mod answers;

use crate::stream::is_quiet;
use client_connection::{ClientConnection, Turn};
use cog_client::Lost;
use std::io::Write;
use std::net::{Net, TcpStream};

/// Sends requests, and brings the answers as they arrive. It speaks for no file, since no contract says what a network brings.
///
/// It moves the bytes of a `ClientConnection`, which has the rules: where an answer ends, when the connection goes on after it, and what
/// is sent once more.
#[derive(Drop)]
pub struct Socket<'r, R> {
    pub(crate) rt: &'r R,
    server: &'r str,
    keeps: bool,
    exchanges: u64,
    stream: Option<TcpStream>,
    connection: ClientConnection,
    /// Bytes that were read and that the connection hasn't taken. They belong to a head or follow one.
    unread: Vec<u8>,
    /// How many bytes of the head were handed on.
    handed: usize,
    /// The answer was whole, and nothing more of it comes.
    is_over: bool,
    /// The connection failed.
    is_broken: bool,
}

impl<'r, R: Net<Stream = TcpStream> + AllocGlobal> Socket<'r, R> {
    /// Makes a source at the server at `HOST:PORT`, without exchanges. Each request has a connection of its own.
    pub fn new(rt: &'r R, server: &'r str) -> Self
        ensures server { server_of result ≡ server.entry.now }
        ensures exchanges { exchanges_of result ≡ 0 }
        ensures alone { connection_of result ≡ over [] }
        ensures apart { keeps result ≡ false }
    {
        Socket {
            rt,
            server,
            keeps: false,
            exchanges: 0,
            stream: None,
            connection: ClientConnection::new(rt.alloc()),
            unread: Vec::new(rt.alloc()),
            handed: 0,
            is_over: false,
            is_broken: false,
        }
    }

    /// Keeps its connection from here on, and sends the next request after each answer. It connects anew where the connection ended, and
    /// after an answer that isn't used or wasn't read to its end (RFC 9112, section 9.3). Its requests are to be GETs.
    pub fn keep_open(&mut self)
        ensures server { server_of self.new ≡ server_of self.old }
        ensures exchanges { exchanges_of self.new ≡ exchanges_of self.old }
        ensures alone { connection_of self.new ≡ over [] }
        ensures keeps { keeps self.new ≡ true }
    {
        self.close();
        self.keeps = true;
    }

    /// Ends the connection.
    fn close(&mut self)
        ensures server { server_of self.new ≡ server_of self.old }
        ensures exchanges { exchanges_of self.new ≡ exchanges_of self.old }
        ensures keeps { keeps self.new ≡ keeps self.old }
        ensures handed { handed_of self.new ≡ handed_of self.old }
        ensures over { is_over self.new ≡ is_over self.old }
        ensures alone { connection_of self.new ≡ over [] }
        ensures clean { unread_of self.new ≡ [] }
    {
        self.stream = None;
        self.unread.clear();
        self.connection.end();
    }

    /// Ends the connection, which failed.
    fn give_up(&mut self)
        ensures server { server_of self.new ≡ server_of self.old }
        ensures exchanges { exchanges_of self.new ≡ exchanges_of self.old }
        ensures keeps { keeps self.new ≡ keeps self.old }
        ensures handed { handed_of self.new ≡ handed_of self.old }
        ensures over { is_over self.new ≡ is_over self.old }
        ensures alone { connection_of self.new ≡ over [] }
        ensures clean { unread_of self.new ≡ [] }
    {
        self.close();
        self.is_broken = true;
    }

    /// Sends a request: on the connection that is kept, or on a new one. One that was sent early isn't written again.
    pub fn send(&mut self, request: &[u8]) -> Result<(), Lost>
        ensures server { server_of self.new ≡ server_of self.old }
        ensures exchanges { exchanges_of self.new ≡ exchanges_of self.old }
        ensures keeps { keeps self.new ≡ keeps self.old }
        // Nothing of its answer was handed on, nor has that ended. The answer that comes next is its own, and on a new connection where
        // none is kept.
        ensures front { handed_of self.new ≡ 0 }
        ensures begun { is_over self.new ≡ false }
        ensures asked { OnOk result (IsFirstOut request.now self.new) }
        ensures apart { keeps self.old ≡ false → OnOk result (IsFresh self.new) }
        // The request is written, unless it was sent early.
        ensures written { OnOk result (((connection_of self.new).waits ≡ []) ⊎ IsFirstOut request.now self.old) }
        // Bytes that no request had asked for aren't taken for its answer.
        ensures clean { (connection_of self.old).out ≡ [] → unread_of self.new ≡ [] }
    {
        self.begin();
        match self.connection.ask(request) {
            Ok(Turn::Sent) => Ok(()),
            Ok(Turn::Sends) => self.send_on(),
            Ok(Turn::Anew) => self.connect(),
            Err(_) => {
                self.close();
                Err(Lost)
            }
        }
    }

    /// Begins an exchange. A connection that isn't to be kept ends, and so does one that brought bytes that nothing asked for, or was
    /// closed.
    fn begin(&mut self)
        ensures server { server_of self.new ≡ server_of self.old }
        ensures exchanges { exchanges_of self.new ≡ exchanges_of self.old }
        ensures keeps { keeps self.new ≡ keeps self.old }
        ensures front { handed_of self.new ≡ 0 }
        ensures begun { is_over self.new ≡ false }
        ensures works { self.new.is_broken ≡ false }
        ensures same { (connection_of self.new ≡ connection_of self.old) ⊎ (connection_of self.new ≡ over []) }
        ensures apart { keeps self.old ≡ false → connection_of self.new ≡ over [] }
        ensures clean { (connection_of self.old).out ≡ [] → unread_of self.new ≡ [] }
    {
        if !self.may_go_on() {
            self.close();
        }
        self.handed = 0;
        self.is_over = false;
        self.is_broken = false;
    }

    /// Returns whether the next request may come on the connection that is there.
    fn may_go_on(&mut self) -> bool
        ensures server { server_of self.new ≡ server_of self.old }
        ensures exchanges { exchanges_of self.new ≡ exchanges_of self.old }
        ensures keeps { keeps self.new ≡ keeps self.old }
        ensures handed { handed_of self.new ≡ handed_of self.old }
        ensures connection { connection_of self.new ≡ connection_of self.old }
        ensures no { keeps self.old ≡ false → result ≡ false }
        ensures clean { (connection_of self.old).out ≡ [] → result ≡ true → unread_of self.new ≡ [] }
    {
        if self.connection.is_asked() {
            return self.keeps;
        }
        match &mut self.stream {
            Some(stream) => self.keeps && self.unread.is_empty() && is_quiet(stream),
            None => false,
        }
    }

    /// Writes what waits on the connection that is kept, or on a new one where that was closed.
    fn send_on(&mut self) -> Result<(), Lost>
        ensures server { server_of self.new ≡ server_of self.old }
        ensures exchanges { exchanges_of self.new ≡ exchanges_of self.old }
        ensures keeps { keeps self.new ≡ keeps self.old }
        ensures handed { handed_of self.new ≡ handed_of self.old }
        ensures over { is_over self.new ≡ is_over self.old }
        ensures out { OnOk result (KeepsOut self.old self.new) }
        ensures written { OnOk result ((connection_of self.new).waits ≡ []) }
        ensures clean { unread_of self.old ≡ [] → unread_of self.new ≡ [] }
    {
        if self.write() {
            return Ok(());
        }
        if self.connection.gone() {
            return self.connect();
        }
        self.close();
        Err(Lost)
    }

    /// Connects, and writes the request that waits for a connection.
    fn connect(&mut self) -> Result<(), Lost>
        requires { (connection_of self.old).is_open ≡ false }
        ensures server { server_of self.new ≡ server_of self.old }
        ensures exchanges { exchanges_of self.new ≡ exchanges_of self.old }
        ensures keeps { keeps self.new ≡ keeps self.old }
        ensures handed { handed_of self.new ≡ handed_of self.old }
        ensures over { is_over self.new ≡ is_over self.old }
        ensures anew { OnOk result (connection_of self.new ≡ sent_anew (connection_of self.old)) }
        ensures err { OnErr result (connection_of self.new ≡ over []) }
        ensures clean { unread_of self.new ≡ [] }
    {
        if self.try_connect() {
            return Ok(());
        }
        self.give_up();
        Err(Lost)
    }

    /// Connects and writes the request that waits, and returns whether both went well.
    fn try_connect(&mut self) -> bool
        requires { (connection_of self.old).is_open ≡ false }
        ensures server { server_of self.new ≡ server_of self.old }
        ensures exchanges { exchanges_of self.new ≡ exchanges_of self.old }
        ensures keeps { keeps self.new ≡ keeps self.old }
        ensures handed { handed_of self.new ≡ handed_of self.old }
        ensures over { is_over self.new ≡ is_over self.old }
        ensures anew { result ≡ true → connection_of self.new ≡ sent_anew (connection_of self.old) }
        ensures clean { unread_of self.new ≡ [] }
    {
        self.unread.clear();
        self.stream = TcpStream::connect(self.rt, self.server).ok();
        if let Some(stream) = &self.stream {
            // Requests that are sent early aren't held back until the one before is acknowledged. Where that can't be set, they come
            // later.
            let _ = stream.set_nodelay(true);
        }
        self.connection.opened().is_ok() && self.write()
    }

    /// Writes what waits, and returns whether it did.
    fn write(&mut self) -> bool
        ensures server { server_of self.new ≡ server_of self.old }
        ensures exchanges { exchanges_of self.new ≡ exchanges_of self.old }
        ensures keeps { keeps self.new ≡ keeps self.old }
        ensures handed { handed_of self.new ≡ handed_of self.old }
        ensures over { is_over self.new ≡ is_over self.old }
        ensures unread { unread_of self.new ≡ unread_of self.old }
        ensures written { result ≡ true → connection_of self.new ≡ record (connection_of self.old) { waits = [] } }
        ensures status { result ≡ false → connection_of self.new ≡ connection_of self.old }
    {
        let Some(stream) = &mut self.stream else {
            return false;
        };
        let waiting = self.connection.waiting();
        if stream.write_all(waiting).is_err() {
            self.stream = None;
            return false;
        }
        let count = waiting.len();
        self.connection.wrote(count);
        true
    }

    /// Writes requests early, after the one that was sent, as far as they weren't. The connection ends with a write that fails.
    fn send_early(&mut self, requests: &[Vec<u8>])
        ensures server { server_of self.new ≡ server_of self.old }
        ensures exchanges { exchanges_of self.new ≡ exchanges_of self.old }
        ensures keeps { keeps self.new ≡ keeps self.old }
        // None goes out on a connection that hasn't gone on after an answer.
        ensures fresh { (connection_of self.old).kept ≡ false → connection_of self.new ≡ connection_of self.old }
    {
        let requests = self.connection.unsent(requests);
        if requests.is_empty() {
            return;
        }
        for request in requests {
            if !self.connection.is_open() || self.connection.send_early(request).is_err() {
                return;
            }
        }
        self.write();
    }
}
