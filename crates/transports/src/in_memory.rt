//! A server in memory as a transport.
ghost use Rattle.std.specs.Prelude.{◌≡◌, ◌↔◌, IfErr, IfOk, IsTrue, OnOk, None, [], option_map};
ghost use Rattle.cog_client.specs.Transport.{IsTrueToAll};
ghost use Rattle.cog_server.specs.Server.{IsRefusal, refusal_of};
ghost use Rattle.transports.specs.InMemory.{Has, IsAbout, IsAnswerAbout, StandsIn, first_of, server_of_one};

use cog_client::{Lost, Transport};
use cog_server::{PublishError, Server};
use http_range::{law_fronts_are_read, law_tags_tell_publications};
use std::alloc::Global;

/// Returns whether an answer is for the file `name`, where `carried` is the name of the file whose ETag it carries. Without an ETag it is.
fn is_about(carried: &Option<Vec<u8>>, name: &[u8]) -> bool
    ensures { IsTrue result ↔ IsAbout name.now (option_map (λ n. n.items) carried.now) }
{
    match carried {
        Some(other) => other.as_slice() == name,
        None => true,
    }
}

/// Returns the text of the server's answer. Fails with `Lost` where it is for another file, or where no memory is left.
pub(crate) fn answer_about(server: &Server, name: &[u8], request: &[u8]) -> Result<Vec<u8>, Lost>
    ensures answered { IfOk result (λ text. IsAnswerAbout server.now.catalogue name.now request.now text.items) }
    ensures shows { IfOk result (λ text. IsTrueToAll (StandsIn server.now.catalogue name.now) text.items) }
{
    law_fronts_are_read();
    let Ok(answer) = server.answer(request) else {
        return Err(Lost);
    };
    if !is_about(&answer.name, name) {
        return Err(Lost);
    }
    Ok(answer.text)
}

/// Answers requests from a server in memory, for the file of one name. It speaks for each book that has the file of the server's catalogue
/// under that name. An answer that carries another file's ETag is lost, and so is one for which no memory is left.
#[derive(Drop)]
pub struct InMemory<'s> {
    server: &'s Server,
    name: &'s [u8],
    exchanges: u64,
    has_lost: bool,
}

impl<'s> InMemory<'s> {
    ghost use Rattle.std.specs.Prelude.{◌≡◌, false};
    ghost use Rattle.transports.specs.Transports.{exchanges_of, has_lost, served_name, served_state};

    /// Makes a transport without exchanges.
    ///
    /// ```
    /// let server = server_of_one(rt.alloc(), 1, b"image.tif", file)?;
    /// let mut transport = InMemory::new(&server, b"image.tif");
    /// let report = fetch(&mut client, &mut transport, 10)?;
    /// ```
    pub fn new(server: &'s Server, name: &'s [u8]) -> Self
        ensures server { served_state result ≡ server.now }
        ensures name { served_name result ≡ name.now }
        ensures exchanges { exchanges_of result ≡ 0 }
        ensures lost { has_lost result ≡ false }
    {
        InMemory {
            server,
            name,
            exchanges: 0,
            has_lost: false,
        }
    }

    /// Returns whether the answer to an exchange was lost.
    pub fn has_lost(&self) -> bool
        ensures { result ≡ has_lost self.now }
    {
        self.has_lost
    }
}

impl Transport for InMemory<'_> {
    ghost use Rattle.std.specs.Prelude.{◌≡◌, ◌+◌, ◌<◌, ◌^◌, IfOk, IsTrue, OnErr, OnOk, None};
    ghost use Rattle.cog_client.specs.Transport.{AnswersOn, IsTrueToAll, OrLost, SpeaksOn};
    ghost use Rattle.transports.specs.InMemory.{IsAnswerAbout, StandsIn};
    ghost use Rattle.transports.specs.Transports.{exchanges_of, has_lost, served_name, served_state};

    ghost speaks_for = { λ s. StandsIn (served_state s).catalogue (served_name s) };

    ghost answers = { λ s. OrLost (IsAnswerAbout (served_state s).catalogue (served_name s)) };

    ghost has_lost = { has_lost };

    ghost count = { exchanges_of };

    fn exchange(&mut self, request: &[u8]) -> Result<Vec<u8>, Lost>
        requires { exchanges_of self.old + 1 < 2 ^ 64 }

        // What comes is the server's answer to the request.
        ensures answered { IfOk result (λ text.
            IsAnswerAbout (served_state self.old).catalogue (served_name self.old) request.now text.items) }
        ensures server { served_state self.new ≡ served_state self.old }
        ensures name { served_name self.new ≡ served_name self.old }

        // It keeps the trait's law. An answer may be lost, too, and `has_lost` says so.
        ensures lost { OnErr result (OrLost (IsAnswerAbout (served_state self.old).catalogue (served_name self.old)) request.now None) }
        ensures told { OnErr result (IsTrue (has_lost self.new)) }
        ensures kept { OnOk result (has_lost self.new ≡ has_lost self.old) }
        ensures goes_on { AnswersOn (OrLost (IsAnswerAbout (served_state self.old).catalogue (served_name self.old)))
            (OrLost (IsAnswerAbout (served_state self.new).catalogue (served_name self.new))) }
        ensures shows { IfOk result (λ text.
            IsTrueToAll (StandsIn (served_state self.old).catalogue (served_name self.old)) text.items) }
        ensures speaks { SpeaksOn (StandsIn (served_state self.old).catalogue (served_name self.old))
            (StandsIn (served_state self.new).catalogue (served_name self.new)) }
        ensures counted { exchanges_of self.new ≡ exchanges_of self.old + 1 }
    {
        self.exchanges += 1;
        let answer = answer_about(self.server, self.name, request);
        self.has_lost |= answer.is_err();
        answer
    }

    fn exchanges(&self) -> u64 {
        self.exchanges
    }
}

/// Makes a server that has one file, the first publication of `epoch`. Fails where the server refuses the file, or where no memory is left.
pub fn server_of_one(
    alloc: Global,
    epoch: u32,
    name: &[u8],
    file: Vec<u8>,
) -> Result<Server, PublishError>
    ensures has { IfOk result (λ server. Has server.catalogue name.now (first_of epoch name.now file.items)) }

    // It has no other file.
    ensures one { IfOk result (λ server. server ≡ server_of_one epoch name.now file.items) }

    // It is refused as the first publication of a new server is.
    ensures accepted { OnOk result (refusal_of 0 [] name.now file.items ≡ None) }
    ensures refused { IfErr result (IsRefusal (refusal_of 0 [] name.now file.items)) }
{
    law_tags_tell_publications();
    let mut server = Server::new(alloc, epoch);
    server.publish(name, file)?;
    Ok(server)
}
