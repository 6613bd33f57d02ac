//! What a socket brings of an answer: its head once that is whole, and then its body as it comes.
ghost use Rattle.std.specs.Prelude.{◌≡◌, ◌≢◌, ◌<◌, ◌≤◌, ◌+◌, ℕ, [], None, Some, false, true, IfOk, IsSome, drop, length, take};
ghost use Rattle.client_connection.specs.Status.{Takes, after_finish, cut};
ghost use Rattle.client_connection.specs.declared.parts.Part.TheVariants.{Body};
ghost use Rattle.client_sockets.specs.Sockets.{IsFront, TookUnread, connection_of, exchanges_of, handed_of, is_over, keeps, server_of, unread_of};

use crate::socket::Socket;
use crate::stream::read_some;
use client_connection::Part;
use cog_client::{Lost, Pieces};
use http_fields::limits::HEAD_LIMIT;
use std::net::{Net, TcpStream};

impl<R: Net<Stream = TcpStream> + AllocGlobal> Socket<'_, R> {
    /// Reads what is there, or waits for it. Returns 0 at the end of the stream, and where the connection fails.
    fn read_in(&mut self, out: &mut [u8]) -> usize
        ensures few { result ≤ length out.new }
        ensures server { server_of self.new ≡ server_of self.old }
        ensures exchanges { exchanges_of self.new ≡ exchanges_of self.old }
        ensures keeps { keeps self.new ≡ keeps self.old }
        ensures handed { handed_of self.new ≡ handed_of self.old }
        ensures connection { connection_of self.new ≡ connection_of self.old }
        ensures unread { unread_of self.new ≡ unread_of self.old }
    {
        let Some(stream) = &mut self.stream else {
            self.is_broken = true;
            return 0;
        };
        match read_some(stream, out) {
            Ok(count) => count,
            Err(Lost) => {
                self.is_broken = true;
                0
            }
        }
    }

    /// Notes that the connection brings nothing more. A request that is to be sent once more is, on a new one.
    fn lose(&mut self)
        ensures server { server_of self.new ≡ server_of self.old }
        ensures exchanges { exchanges_of self.new ≡ exchanges_of self.old }
        ensures keeps { keeps self.new ≡ keeps self.old }
        ensures handed { handed_of self.new ≡ handed_of self.old }
        ensures ends { IsSome (connection_of self.old).left → connection_of self.new ≡ cut [] }
        ensures clean { unread_of self.new ≡ [] }
    {
        self.stream = None;
        self.unread.clear();
        if self.connection.gone() {
            self.is_broken = false;
            let _ = self.connect();
        }
    }

    /// Reads bytes of a head, and what follows it, unless some are there. Returns whether some are.
    fn fill(&mut self) -> bool
        ensures server { server_of self.new ≡ server_of self.old }
        ensures exchanges { exchanges_of self.new ≡ exchanges_of self.old }
        ensures keeps { keeps self.new ≡ keeps self.old }
        ensures handed { handed_of self.new ≡ handed_of self.old }
        ensures connection { connection_of self.new ≡ connection_of self.old }
        ensures some { result ≡ true → 0 < length (unread_of self.new) }
        ensures same { 0 < length (unread_of self.old) → unread_of self.new ≡ unread_of self.old }
    {
        if !self.unread.is_empty() {
            return true;
        }
        let mut room = [0u8; HEAD_LIMIT];
        let count = self.read_in(&mut room);
        if self.unread.extend_from_slice(&room[..count]).is_err() {
            self.is_broken = true;
        }
        !self.unread.is_empty()
    }

    /// Takes bytes that were read, as many as are of one part of a head.
    fn take_unread(&mut self)
        requires opens { (connection_of self.old).is_open ≡ true }
        requires none { (connection_of self.old).left ≡ None }
        requires some { 0 < length (unread_of self.old) }
        ensures server { server_of self.new ≡ server_of self.old }
        ensures exchanges { exchanges_of self.new ≡ exchanges_of self.old }
        ensures keeps { keeps self.new ≡ keeps self.old }
        ensures handed { handed_of self.new ≡ handed_of self.old }
        ensures took { TookUnread self.old self.new }
    {
        let Ok(taken) = self.connection.came(&self.unread) else {
            self.give_up();
            return;
        };
        self.unread.copy_within(taken.count.., 0);
        self.unread.truncate(self.unread.len() - taken.count);
        match taken.part {
            Part::Again => {
                let _ = self.connect();
            }
            Part::Stray | Part::Refused => {
                self.stream = None;
                self.unread.clear();
            }
            Part::Head | Part::Interim | Part::Begun | Part::Body => {}
        }
    }

    /// Reads until the head of the answer is whole, or the connection is over.
    fn reach_body(&mut self)
        requires { is_over self.old ≡ false }
        ensures stays { IsSome (connection_of self.old).left
            → (connection_of self.new ≡ connection_of self.old) × (unread_of self.new ≡ unread_of self.old) }
        ensures reached { (connection_of self.new).is_open ≡ true → IsSome (connection_of self.new).left }
        ensures handed { handed_of self.new ≡ handed_of self.old }
        ensures server { server_of self.new ≡ server_of self.old }
        ensures exchanges { exchanges_of self.new ≡ exchanges_of self.old }
        ensures keeps { keeps self.new ≡ keeps self.old }
    {
        for _ in 0..u64::MAX {
            if !self.connection.is_open() || self.connection.left().is_some() {
                return;
            }
            if self.fill() {
                self.take_unread();
            } else {
                self.lose();
            }
        }
        if self.connection.left().is_none() {
            self.give_up();
        }
    }

    /// Hands on bytes of the head that weren't, and returns how many. A head that isn't whole is handed on where the connection is over.
    fn hand_head(&mut self, out: &mut [u8]) -> usize
        ensures few { result ≤ length out.new }
        ensures bytes { take result out.new ≡ take result (drop (handed_of self.old) (connection_of self.old).head) }
        ensures handed { handed_of self.new ≡ handed_of self.old + result }
        ensures none { result ≡ 0 → 0 < length out.new → length (connection_of self.old).head ≤ handed_of self.old }
        ensures server { server_of self.new ≡ server_of self.old }
        ensures exchanges { exchanges_of self.new ≡ exchanges_of self.old }
        ensures keeps { keeps self.new ≡ keeps self.old }
        ensures connection { connection_of self.new ≡ connection_of self.old }
        ensures unread { unread_of self.new ≡ unread_of self.old }
    {
        let head = self.connection.head();
        if self.handed >= head.len() {
            return 0;
        }
        let rest = &head[self.handed..];
        let count = rest.len().min(out.len());
        out[..count].copy_from_slice(&rest[..count]);
        self.handed += count;
        count
    }

    /// Reads bytes of the body, of which `left` are to come.
    fn read_body(&mut self, left: u64, out: &mut [u8]) -> Result<usize, Lost>
        requires opens { (connection_of self.old).is_open ≡ true }
        requires is { (connection_of self.old).left ≡ Some left }
        requires more { 0 < left }
        ensures few { IfOk result (λ n. n ≤ length out.new) }
        ensures takes { IfOk result (λ n. 0 < n → Takes Body (take n out.new) (connection_of self.old) (connection_of self.new)) }
        ensures handed { IfOk result (λ n. 0 < n → handed_of self.new ≡ handed_of self.old) }
        ensures front { IfOk result (λ n. 0 < n → IsFront (take n out.new) (unread_of self.old) (unread_of self.new)) }
        ensures ends { IfOk result (λ n. n ≡ 0 → (connection_of self.new).is_open ≡ false) }
        ensures server { server_of self.new ≡ server_of self.old }
        ensures exchanges { exchanges_of self.new ≡ exchanges_of self.old }
        ensures keeps { keeps self.new ≡ keeps self.old }
    {
        let most = left.min(out.len() as u64) as usize;
        let count = self.receive_unread(&mut out[..most]);
        if count == 0 {
            self.lose();
            return if self.is_broken { Err(Lost) } else { Ok(0) };
        }
        match self.connection.came(&out[..count]) {
            Ok(taken) if taken.part == Part::Body && taken.count == count => Ok(count),
            _ => {
                self.give_up();
                Err(Lost)
            }
        }
    }

    /// Reads bytes that were read with the head, or else from the stream.
    fn receive_unread(&mut self, out: &mut [u8]) -> usize
        ensures few { result ≤ length out.new }
        ensures server { server_of self.new ≡ server_of self.old }
        ensures exchanges { exchanges_of self.new ≡ exchanges_of self.old }
        ensures keeps { keeps self.new ≡ keeps self.old }
        ensures handed { handed_of self.new ≡ handed_of self.old }
        ensures connection { connection_of self.new ≡ connection_of self.old }
        ensures front { IsFront (take result out.new) (unread_of self.old) (unread_of self.new) }
        ensures some { unread_of self.old ≢ [] → 0 < length out.old → 0 < result }
    {
        if self.unread.is_empty() {
            return self.read_in(out);
        }
        let count = self.unread.len().min(out.len());
        out[..count].copy_from_slice(&self.unread[..count]);
        self.unread.copy_within(count.., 0);
        self.unread.truncate(self.unread.len() - count);
        count
    }

    /// Ends the answer, which is whole. Bytes after it that nothing asked for end the connection.
    fn finish(&mut self)
        requires opens { (connection_of self.old).is_open ≡ true }
        requires whole { (connection_of self.old).left ≡ Some 0 }
        ensures server { server_of self.new ≡ server_of self.old }
        ensures exchanges { exchanges_of self.new ≡ exchanges_of self.old }
        ensures keeps { keeps self.new ≡ keeps self.old }
        ensures over { is_over self.new ≡ true }
        ensures done { connection_of self.new ≡ after_finish (connection_of self.old) }
    {
        self.is_over = true;
        self.connection.finish();
        if !self.connection.is_open() {
            self.close();
        }
    }
}

impl<R: Net<Stream = TcpStream> + AllocGlobal> Pieces for Socket<'_, R> {
    ghost use Rattle.std.specs.Prelude.{◌≡◌, ◌⊎◌, ◌+◌, ◌<◌, ◌≤◌, ◌^◌, ℕ, List, [], false, true, IfOk, IsTrue, Ok, OnErr, OnOk, length, take, ⊤};
    ghost use Rattle.cog_client.specs.Pieces.{BringsOf};
    ghost use Rattle.cog_client.specs.Transport.{AnswersOn, IsTrueToAll, OrLost, SpeaksOn};
    ghost use Rattle.client_sockets.specs.Sockets.{Ends, Hands, IsFirstOut, IsFresh, Nothing, connection_of, exchanges_of, handed_of, is_over, keeps, unread_of};

    ghost speaks_for = { λ _ _. Nothing };

    ghost count = { exchanges_of };

    ghost rest = { λ _. [] };

    fn start(&mut self, request: &[u8]) -> Result<(), Lost>
        requires { exchanges_of self.old + 1 < 2 ^ 64 }
        // As `send`, and it keeps the trait's law.
        ensures front { handed_of self.new ≡ 0 }
        ensures begun { is_over self.new ≡ false }
        ensures asked { OnOk result (IsFirstOut request.now self.new) }
        ensures apart { keeps self.old ≡ false → OnOk result (IsFresh self.new) }
        ensures written { OnOk result (((connection_of self.new).waits ≡ []) ⊎ IsFirstOut request.now self.old) }
        ensures clean { (connection_of self.old).out ≡ [] → unread_of self.new ≡ [] }
        ensures answered { OnOk result ⊤ }
        ensures dropped { OnErr result (◌≡◌ {A = List ℕ} [] []) }
        ensures told { OnErr result (IsTrue true) }
        ensures kept { OnOk result (true ≡ true) }
        ensures goes_on { AnswersOn (OrLost (λ _ _. ⊤)) (OrLost (λ _ _. ⊤)) }
        ensures shows { OnOk result (IsTrueToAll (λ _. Nothing) []) }
        ensures speaks { SpeaksOn (λ _. Nothing) (λ _. Nothing) }
        ensures counted { exchanges_of self.new ≡ exchanges_of self.old + 1 }
    {
        self.exchanges += 1;
        self.send(request)
    }

    fn next(&mut self, out: &mut [u8]) -> Result<usize, Lost>
        requires { 0 < length out.old }
        ensures stays { keeps self.new ≡ keeps self.old }
        // What is handed on are the next bytes of the answer. Nothing is once the answer is whole, or its connection is over.
        ensures hands { IfOk result (λ n. 0 < n → Hands (take n out.new) self.old self.new) }
        ensures ends { IfOk result (λ n. n ≡ 0 → Ends self.old self.new) }
        ensures over { is_over self.old ≡ true → (result ≡ Ok 0) × (self.new ≡ self.old) }

        // It keeps the trait's law, as a source that speaks for no file and tells nothing of its losses.
        ensures fits { IfOk result (λ n. n ≤ length out.new) }
        ensures brings { IfOk result (λ n. BringsOf (λ _. Nothing) [] out.new n []) }
        ensures told { OnErr result (IsTrue true) }
        ensures kept { OnOk result (true ≡ true) }
        ensures goes_on { AnswersOn (OrLost (λ _ _. ⊤)) (OrLost (λ _ _. ⊤)) }
        ensures speaks { SpeaksOn (λ _. Nothing) (λ _. Nothing) }
        ensures counted { exchanges_of self.new ≡ exchanges_of self.old }
    {
        if self.is_over {
            return Ok(0);
        }
        self.reach_body();
        let handed = self.hand_head(out);
        if handed > 0 {
            return Ok(handed);
        }
        match self.connection.left() {
            Some(0) => {
                self.finish();
                Ok(0)
            }
            Some(left) => self.read_body(left, out),
            None if self.is_broken => Err(Lost),
            None => Ok(0),
        }
    }

    fn foresee(&mut self, requests: &[Vec<u8>]) {
        self.send_early(requests);
    }

    fn starts(&self) -> u64 {
        self.exchanges
    }
}
