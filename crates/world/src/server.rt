//! What happens at the server.
ghost use Rattle.std.specs.Prelude.{◌≡◌, None, IfOk};
ghost use Rattle.world.specs.Run.{told_of};
ghost use Rattle.world.specs.State.{Answers, Publishes, Restarts};

use crate::event::{Effect, Entry};
use cog_server::{PublishError, Server};
use http_range::Memory;
use std::alloc::Global;

/// Returns an entry without a report.
pub fn quiet(effect: Effect) -> Entry
    ensures effect { result.effect ≡ effect }
    ensures report { told_of result ≡ None }
{
    Entry {
        effect,
        report: None,
    }
}

/// Publishes a file, or logs why it is refused. Fails where no memory is left.
pub fn publish(
    alloc: Global,
    server: &mut Server,
    name: &[u8],
    file: &[u8],
) -> Result<Entry, Memory>
    ensures { IfOk result (λ n. Publishes name.now file.now n server.old server.new) }
{
    let copy = Vec::from_slice(alloc, file)?;
    match server.publish(name, copy) {
        Ok(tag) => Ok(quiet(Effect::Published(tag))),
        Err(PublishError::Memory) => Err(Memory),
        Err(refusal) => Ok(quiet(Effect::Refused(refusal))),
    }
}

/// Starts the server anew with `epoch`, or skips the event where that epoch isn't greater.
pub fn restart(alloc: Global, server: &mut Server, epoch: u32) -> Entry
    ensures { Restarts epoch result server.old server.new }
{
    if server.epoch() < epoch {
        *server = Server::new(alloc, epoch);
        quiet(Effect::Epoch(epoch))
    } else {
        quiet(Effect::Skipped)
    }
}

/// Answers a message from the server's files, as the answer `number`. Fails where no memory is left.
pub fn ask(server: &Server, number: usize, message: &[u8]) -> Result<Entry, Memory>
    ensures { IfOk result (λ n. Answers server.now.catalogue number message.now n) }
{
    let answer = server.answer(message)?;
    Ok(quiet(Effect::Answered { number, answer }))
}
