//! A socket as a `Transport`: answers are taken whole, into memory.
ghost use Rattle.std.specs.Prelude.{◌≡◌, ◌<◌, ◌≤◌, ◌++◌, ℕ, [], List, IfOk, OnOk, length};
ghost use Rattle.cog_fetch.specs.declared.taking.TheConstants.{ANSWER_LIMIT};
ghost use Rattle.client_sockets.specs.Sockets.{HandedOn, Hands, exchanges_of, keeps};

use crate::socket::Socket;
use cog_client::{Lost, Pieces, Transport};
use cog_fetch::{ANSWER_LIMIT, PIECE_ROOM};
use std::alloc::AllocError;
use std::net::{Net, TcpStream};

impl<R: Net<Stream = TcpStream> + AllocGlobal> Socket<'_, R> {
    /// Takes the answer to the request that was sent, up to its end, or up to `ANSWER_LIMIT` bytes. Returns what came where the connection
    /// fails after that. Fails with `Lost` where nothing came, and where memory ran out.
    pub fn receive(&mut self) -> Result<Vec<u8>, Lost>
        ensures exchanges { exchanges_of self.new ≡ exchanges_of self.old }
        ensures keeps { keeps self.new ≡ keeps self.old }
        ensures some { IfOk result (λ answer. 0 < length answer.items) }
        ensures most { IfOk result (λ answer. length answer.items ≤ ANSWER_LIMIT) }
        // What is returned are the next bytes of the answer.
        ensures hands { IfOk result (λ answer. (t : Socket R) × HandedOn self.old answer.items t) }
    {
        let mut answer = Vec::new(self.rt.alloc());
        match self.receive_pieces(&mut answer) {
            Ok(()) if !answer.is_empty() => Ok(answer),
            _ => Err(Lost),
        }
    }

    /// Appends the pieces of the answer to `answer`, which is empty, up to its end, to a loss, or to `ANSWER_LIMIT` bytes.
    fn receive_pieces(&mut self, answer: &mut Vec<u8>) -> Result<(), AllocError>
        requires { answer.old.items ≡ [] }
        ensures exchanges { exchanges_of self.new ≡ exchanges_of self.old }
        ensures keeps { keeps self.new ≡ keeps self.old }
        ensures most { OnOk result (length answer.new.items ≤ ANSWER_LIMIT) }
        ensures hands { OnOk result ((t : Socket R) × HandedOn self.old answer.new.items t) }
    {
        let mut room = [0u8; PIECE_ROOM];
        let mut left = ANSWER_LIMIT;
        while left > 0 {
            let most = left.min(PIECE_ROOM);
            let count = self.receive_piece(&mut room[..most], answer)?;
            if count == 0 {
                return Ok(());
            }
            left -= count;
        }
        Ok(())
    }

    /// Appends the next piece to `answer`, of at most as many bytes as `room` has. Returns how many it has, 0 at the end, or where the rest
    /// is lost.
    fn receive_piece(&mut self, room: &mut [u8], answer: &mut Vec<u8>) -> Result<usize, AllocError>
        requires { 0 < length room.old }
        ensures few { IfOk result (λ n. n ≤ length room.old) }
        ensures exchanges { exchanges_of self.new ≡ exchanges_of self.old }
        ensures keeps { keeps self.new ≡ keeps self.old }
        ensures ends { IfOk result (λ n. n ≡ 0 → answer.new.items ≡ answer.old.items) }
        ensures hands { IfOk result (λ n. 0 < n → (piece : List ℕ) × (length piece ≡ n) × (answer.new.items ≡ answer.old.items ++ piece)
            × Hands piece self.old self.new) }
    {
        match self.next(room) {
            Err(Lost) => Ok(0),
            Ok(count) => {
                answer.extend_from_slice(&room[..count])?;
                Ok(count)
            }
        }
    }
}

impl<R: Net<Stream = TcpStream> + AllocGlobal> Transport for Socket<'_, R> {
    ghost use Rattle.client_sockets.specs.Sockets.{Nothing, exchanges_of};

    ghost speaks_for = { λ _ _. Nothing };

    ghost count = { exchanges_of };

    fn exchange(&mut self, request: &[u8]) -> Result<Vec<u8>, Lost> {
        self.start(request)?;
        self.receive()
    }

    fn exchanges(&self) -> u64 {
        self.starts()
    }
}
