//! A driver over connections in memory. A script says what each of them brings.
use client_dialogue::{Dialogue, Loss, Step};
use cog_client::{Client, Query};
use std::alloc::Global;
use std::test::Fail;

/// What a connection brings between one look or read and the next.
#[derive(Clone, Copy)]
pub enum Comes {
    /// Nothing, when the driver looks.
    Nothing,
    /// A text.
    Text(&'static str),
    /// A text, and after it bytes of the file: from the first position to before the second.
    Part(&'static str, usize, usize),
    /// The end of the connection.
    Lost(Loss),
}

/// The scripts of connections, one after another. After the last one no connection can be made.
pub type Connections = &'static [&'static [Comes]];

/// A driver of one client. It reads and writes at most `size` bytes at a time.
pub struct Driver<'a> {
    pub client: Client,
    pub dialogue: Dialogue,
    /// The steps without `More`. A step that repeats the one before is left out.
    pub steps: Vec<Step>,
    /// The bytes that were written, on all connections.
    pub written: Vec<u8>,
    /// The number of connections that were made.
    pub made: usize,
    file: &'a [u8],
    size: usize,
    connections: Connections,
    /// The number of items of the last connection's script that were begun.
    begun: usize,
    /// The bytes that the connection brought, how many of them were read, and how many were taken.
    came: Vec<u8>,
    read: usize,
    taken: usize,
}

// Written out, so that it is one call wherever a driver is dropped.
impl<'a> Drop for Driver<'a> {
    fn drop(self) {
        let Driver {
            client: _,
            dialogue: _,
            steps: _,
            written: _,
            made: _,
            file: _,
            size: _,
            connections: _,
            begun: _,
            came: _,
            read: _,
            taken: _,
        } = self;
    }
}

/// Makes a client of the file `a` that keeps its connections.
pub fn client_of_a(alloc: Global) -> Result<Client, Fail> {
    let mut client = Client::new(alloc, b"cog.test", b"a", 66)?;
    client.keep_open();
    Ok(client)
}

impl<'a> Driver<'a> {
    /// Makes a driver for the query `query` of the file `file`.
    pub fn new(
        alloc: Global,
        query: Query,
        file: &'a [u8],
        size: usize,
        connections: Connections,
    ) -> Result<Driver<'a>, Fail> {
        let mut client = client_of_a(alloc)?;
        client.open(query);
        Ok(Driver {
            client,
            dialogue: Dialogue::new(alloc, 0),
            steps: Vec::new(alloc),
            written: Vec::new(alloc),
            made: 0,
            file,
            size: size.max(1),
            connections,
            begun: 0,
            came: Vec::new(alloc),
            read: 0,
            taken: 0,
        })
    }

    /// Notes a step, unless it is `More` or the same as the one before. Returns whether another one follows.
    fn note(&mut self, step: Step) -> Result<bool, Fail> {
        if step != Step::More && self.steps.as_slice().last() != Some(&step) {
            self.steps.push(step)?;
        }
        Ok(step != Step::Over)
    }

    /// Reports the loss of the connection, where an exchange is under way.
    fn lose(&mut self, how: Loss) -> Result<bool, Fail> {
        if !self.dialogue.is_asked() {
            return Ok(false);
        }
        let step = self.dialogue.gone(&mut self.client, how)?;
        self.note(step)
    }

    /// Makes the next connection. What is left of the one before is dropped.
    fn connect(&mut self) -> Result<bool, Fail> {
        self.came.clear();
        self.read = 0;
        self.taken = 0;
        self.begun = 0;
        if self.made >= self.connections.len() {
            return self.lose(Loss::Failed);
        }
        self.made = self.made.saturating_add(1);
        if self.dialogue.is_asked() {
            self.dialogue.connected(&self.client)?;
        }
        Ok(true)
    }

    /// Writes waiting bytes, at most `size` of them.
    fn write(&mut self) -> Result<bool, Fail> {
        if !self.dialogue.is_asked() || !self.dialogue.is_open() {
            return Ok(false);
        }
        let waiting = self.dialogue.waiting();
        let count = waiting.len().min(self.size);
        self.written.extend_from_slice(&waiting[..count])?;
        self.dialogue.wrote(&self.client, count);
        Ok(true)
    }

    /// Lets the connection bring a text, and after it the bytes of the file from `first` to before `end`.
    fn bring(&mut self, text: &str, first: usize, end: usize) -> Result<bool, Fail> {
        self.came.clear();
        self.came.extend_from_slice(text.as_bytes())?;
        self.came
            .extend_from_slice(self.file.get(first..end).unwrap_or(&[]))?;
        self.read = self.size.min(self.came.len());
        self.taken = 0;
        Ok(true)
    }

    /// Returns the next item of the last connection's script.
    fn next(&mut self) -> Option<Comes> {
        let last = self.made.checked_sub(1)?;
        let script = self.connections.get(last)?;
        let next = script.get(self.begun).copied();
        self.begun = self.begun.saturating_add(1);
        next
    }

    /// Looks, or reads. Where nothing more is to come, the driver waits for ever: no other step follows.
    fn receive(&mut self, step: Step) -> Result<bool, Fail> {
        if self.read < self.came.len() {
            self.read = self.read.saturating_add(self.size).min(self.came.len());
            return Ok(true);
        }
        let Some(next) = self.next() else {
            return Ok(false);
        };
        match next {
            Comes::Nothing => {
                self.dialogue.silent();
                Ok(step == Step::Look)
            }
            Comes::Text(text) => self.bring(text, 0, 0),
            Comes::Part(text, first, end) => self.bring(text, first, end),
            Comes::Lost(how) => self.lose(how),
        }
    }

    /// Hands on the bytes that were read, and does the next step. Returns whether another one follows.
    fn go_on(&mut self) -> Result<bool, Fail> {
        let bytes = self.came.get(self.taken..self.read).unwrap_or(&[]);
        let progress = self.dialogue.go_on(&mut self.client, bytes)?;
        self.taken = self.taken.saturating_add(progress.count);
        let goes_on = self.note(progress.step)?;
        match progress.step {
            Step::Connect => self.connect(),
            Step::Look | Step::Read => self.receive(progress.step),
            Step::Write => self.write(),
            Step::More | Step::Exchanged(_) | Step::Over => Ok(goes_on),
        }
    }

    /// Takes a query to its end, with at most `exchanges` exchanges.
    pub fn take(&mut self, exchanges: u32) -> Result<(), Fail> {
        self.dialogue.begin(exchanges);
        for _ in 0..1_000_000 {
            if !self.go_on()? {
                break;
            }
        }
        Ok(())
    }
}
