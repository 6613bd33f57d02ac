//! The clients that command lines ask for.
ghost use Rattle.std.specs.Prelude.{[], IfErr, IfOk, string_bytes};
ghost use Rattle.cog_client.specs.Calls.{Starts, StartsByUrl};
ghost use Rattle.cog_client.specs.Client.{client_refusal};
ghost use Rattle.programs.specs.Words.{IsNoClient, IsNoUrlClient};

use crate::exit::Exit;
use cog_client::{Client, ClientError, RequestFields, UrlError};
use command_lines::{FileUrl, ReadLine};
use read_progress::RefusalSentence;

/// Makes the client for the server and the name of a line. It keeps at most `blocks` blocks. Fails with `RefusedClient`, or with `Memory`.
pub fn client_of<R: Eprint + AllocGlobal>(
    rt: &R,
    line: &ReadLine<'_>,
    blocks: u32,
) -> Result<Client, Exit>
    ensures starts { IfOk result (Starts line.now.server.now line.now.name.now blocks) }
    ensures err { IfErr result (IsNoClient (client_refusal line.now.server.now line.now.name.now blocks)) }
{
    let server = line.server.as_bytes();
    match Client::new(rt.alloc(), server, line.name.as_bytes(), blocks) {
        Ok(client) => Ok(client),
        Err(ClientError::Memory) => Err(Exit::Memory),
        Err(refusal) => {
            if line.verbose {
                let _ = eprintln!(rt; "cogread: {}", RefusalSentence(&refusal));
            }
            Err(Exit::RefusedClient(refusal))
        }
    }
}

/// Makes the client for a URL, which was typed as `word`. It keeps at most `blocks` blocks. Fails with `RefusedUrl`, or with `Memory`.
pub fn client_of_url<R: AllocGlobal>(
    rt: &R,
    word: &str,
    url: &FileUrl,
    blocks: u32,
) -> Result<Client, Exit>
    ensures starts { IfOk result (StartsByUrl (string_bytes url.now.authority) (string_bytes url.now.target) [] blocks) }
    ensures err { IfErr result (IsNoUrlClient word.now (string_bytes url.now.authority) (string_bytes url.now.target) blocks) }
{
    let (authority, target) = (url.authority.as_bytes(), url.target.as_bytes());
    let none = RequestFields::new(rt.alloc());
    match Client::by_url(rt.alloc(), authority, target, none, blocks) {
        Ok(client) => Ok(client),
        Err(UrlError::Memory) => Err(Exit::Memory),
        Err(error) => Err(Exit::RefusedUrl(String::from_str(rt.alloc(), word)?, error)),
    }
}
