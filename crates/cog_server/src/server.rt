//! The server of one epoch.
ghost use Rattle.std.specs.Prelude.{◌≡◌, ◌+◌, ◌<◌, [], ℕ, List, None, false, IfOk, IfErr, OnOk, OnErr, map, option_map, option_copied};
ghost use Rattle.http_range.specs.Book.{publish, published, publication_tag};
ghost use Rattle.std.specs.Io.KnownBytes.{append_known};
ghost use Rattle.cog_server.specs.Catalogue.{publication};
ghost use Rattle.cog_server.specs.Serve.{Serves, read_failed, write_failed};
ghost use Rattle.cog_server.specs.Server.{IsAnswered, IsRefusal, OthersStay, refusal_of};

use crate::catalogue::{find_file, is_crowded, place_of, put};
use crate::connection::Connection;
use crate::error::PublishError;
use crate::inlet::{Inlet, Outlet};
use crate::prepared::{prepare, status};
use crate::published::Published;
use crate::serve::{Buffers, receive, send_waiting};
use crate::served::{ServeError, Served};
use http_range::{
    FILE_LIMIT, Memory, Tag, is_name, law_messages_stay, law_publications_replace, publication_tag,
    write_head,
};
use std::alloc::Global;
use std::marker::Model;
use std::rc::RcSlice;

/// An answer, as one text.
#[derive(Drop)]
pub struct Answer {
    /// The bytes of the head and of the body.
    pub text: Vec<u8>,
    /// Whether the connection ends with the answer.
    pub close: bool,
    /// The name of the file whose ETag the answer carries.
    pub name: Option<Vec<u8>>,
    /// The status code.
    pub status: u16,
    /// The number of bytes of the body.
    pub body: u64,
}

/// The files of one epoch, the last publication of each name.
pub struct Server {
    alloc: Global,
    epoch: u32,
    count: u32,
    files: Vec<Published>,
}

// Written out, the drop is one call in each place where a server is dropped. Derived, each place would be proved field
// by field.
impl Drop for Server {
    fn drop(self) {
        let Server {
            alloc: _,
            epoch: _,
            count: _,
            files: _,
        } = self;
    }
}

impl Model for Server {
    ghost use Rattle.cog_server.specs.Server.{ServerState};
    ghost use Rattle.cog_server.specs.Inside.{state_of};

    ghost Value = { ServerState };

    ghost view = { state_of };
}

impl Server {
    /// Makes a server without files. Each start of a server needs a greater epoch than the one before, so that no ETag
    /// is given twice.
    ///
    /// ```
    /// let mut server = Server::new(rt.alloc(), 1);
    /// let tag = server.publish(b"a.tif", file)?;
    /// let answer = server.answer(b"GET /a.tif HTTP/1.1\r\nHost: localhost\r\nRange: bytes=0-99\r\n\r\n")?;
    /// ```
    pub fn new(alloc: Global, epoch: u32) -> Self
        ensures { result ≡ record { epoch = epoch; count = 0; catalogue = [] } }
    {
        Server {
            alloc,
            epoch,
            count: 0,
            files: Vec::new(alloc),
        }
    }

    /// Returns the epoch that it was made with.
    pub fn epoch(&self) -> u32
        ensures { result ≡ self.now.epoch }
    {
        self.epoch
    }

    /// Returns how many publications there were.
    pub fn count(&self) -> u32
        ensures { result ≡ self.now.count }
    {
        self.count
    }

    /// Returns the files, each with its name.
    pub(crate) fn files(&self) -> &[Published]
        ensures { map publication result.now ≡ self.now.catalogue }
    {
        &self.files
    }

    /// Returns the bytes that were published last under `name`, or `None`.
    pub fn file(&self, name: &[u8]) -> Option<&[u8]>
        ensures { option_copied result ≡ option_map (λ p. p.file) (published name.now self.now.catalogue) }
    {
        match find_file(&self.files, name) {
            Some(file) => Some(&file.file),
            None => None,
        }
    }

    /// Publishes `file` under `name`, and returns the ETag under which it is served. Fails with the first of these that
    /// holds, and then changes nothing:
    /// - `Name`: the name isn't 1 to 200 letters, digits and `._-/`.
    /// - `Empty`: the file has no bytes.
    /// - `TooLarge`: the file has more than 67,108,864 bytes.
    /// - `TooManyNames`: there are 64 other names.
    /// - `Exhausted`: the epoch had 4,294,967,295 publications.
    /// - `Memory`: an allocation failed.
    pub fn publish(&mut self, name: &[u8], file: Vec<u8>) -> Result<Tag, PublishError>
        // It fails with the first rule that holds, and with `Memory` only where none does.
        ensures accepted { OnOk result (refusal_of self.old.count self.old.catalogue name.now file.items ≡ None) }
        ensures refused { IfErr result (IsRefusal (refusal_of self.old.count self.old.catalogue name.now file.items)) }

        // The ETag has the epoch and the number of the publication. The file replaces the one of its name.
        ensures tag { IfOk result (λ tag. tag ≡ publication_tag self.old.epoch (self.old.count + 1)) }
        ensures ok { IfOk result (λ tag. self.new ≡ record {
          epoch = self.old.epoch;
          count = self.old.count + 1;
          catalogue = publish (record { name = name.now; tag = tag; file = file.items }) self.old.catalogue;
        }) }
        ensures err { OnErr result (self.new ≡ self.old) }

        // The files and the answers under every other name are as they were.
        ensures others { OthersStay name.now self.old.catalogue self.new.catalogue }
    {
        law_publications_replace();
        if let Some(refusal) = self.refusal(name, &file) {
            return Err(refusal);
        }
        let place = place_of(&self.files, name);
        let tag = publication_tag(self.epoch, self.count + 1);
        let Ok(name) = Vec::from_slice(self.alloc, name) else {
            return Err(PublishError::Memory);
        };
        let Ok(file) = RcSlice::from_vec(file) else {
            return Err(PublishError::Memory);
        };
        let kept = tag.copy();
        put(&mut self.files, place, Published { name, tag, file })?;
        self.count += 1;
        Ok(kept)
    }

    /// Returns why the file isn't published, or `None`.
    fn refusal(&self, name: &[u8], file: &[u8]) -> Option<PublishError>
        ensures first { result ≡ refusal_of self.now.count self.now.catalogue name.now file.now }
        ensures room { result ≡ None → self.now.count < 4294967295 }
    {
        if !is_name(name) {
            return Some(PublishError::Name);
        }
        if file.is_empty() {
            return Some(PublishError::Empty);
        }
        if file.len() > FILE_LIMIT {
            return Some(PublishError::TooLarge);
        }
        if is_crowded(&self.files, name) {
            return Some(PublishError::TooManyNames);
        }
        if self.count == u32::MAX {
            return Some(PublishError::Exhausted);
        }
        None
    }

    /// Returns the answer to the head at the front of a message, whatever its bytes are (RFC 9110, section 15).
    /// `docs/PROFILE.md` has the cases. Fails with `Memory` alone.
    pub fn answer(&self, message: &[u8]) -> Result<Answer, Memory>
        ensures { IfOk result (IsAnswered self.now.catalogue message.now) }
    {
        let prepared = prepare(&self.files, message);
        let mut text = write_head(self.alloc, &prepared.reply, prepared.close)?;
        text.extend_from_slice(prepared.body)?;
        let name = match prepared.name {
            Some(name) => Some(Vec::from_slice(self.alloc, name)?),
            None => None,
        };
        Ok(Answer {
            text,
            close: prepared.close,
            name,
            status: status(&prepared.reply),
            body: prepared.body.len() as u64,
        })
    }

    /// Answers the messages of a stream in order, up to the first answer that closes or the hundredth. A message that
    /// isn't whole when the input ends gets no answer. Fails with `Read` where a read fails, with `Write` where a write
    /// fails or takes nothing, or with `Memory`.
    pub fn serve<R: Inlet, W: Outlet>(&self, r: &mut R, w: &mut W) -> Result<Served, ServeError>
        requires reads { R.has_failed r.old ≡ false }
        requires writes { W.has_failed w.old ≡ false }

        // What is written are the answers to what was read, however reads cut it.
        ensures served { (stream : List ℕ) × (text : List ℕ) × (R.given r.new ≡ append_known (R.given r.old) stream)
            × (W.taken w.new ≡ append_known (W.taken w.old) text)
            × Serves self.now.catalogue stream text (R.is_over r.new) result }

        // It fails with `Read` and `Write` exactly where a read or a write failed.
        ensures read { R.has_failed r.new ≡ read_failed result }
        ensures write { W.has_failed w.new ≡ write_failed result }
    {
        law_messages_stay();
        let mut connection = Connection::new(self.alloc);
        let mut buffers = Buffers::new(self.alloc)?;
        'answers: loop {
            if connection.go_on(self)?.is_some() {
                send_waiting(&mut connection, &mut buffers.text, w)?;
                continue;
            }
            if let Some(ended) = connection.ended() {
                let answers = connection.answers();
                return Ok(Served { answers, ended });
            }
            receive(&mut connection, &mut buffers.room, r)?;
        }
    }
}
