//! Clients that are made.
ghost use Rattle.std.specs.Prelude.{◌≡◌, ◌∷◌, [], IfErr, IfOk, IsTrue, OnOk};
ghost use Rattle.http_fields.specs.Target.{is_authority_text, is_target};
ghost use Rattle.cog_client.specs.Calls.{StartsByUrl, started};
ghost use Rattle.cog_client.specs.Client.{IsUrlRefusal, MayStartByUrl};

use crate::client::Client;
use crate::error::UrlError;
use crate::partial_answer::PartialAnswer;
use crate::request_options::RequestOptions;
use crate::url::{is_url_host, name_of_target};
use http_range::RequestFields;
use range_cache::{Cache, CacheError};
use std::alloc::{AllocError, Global};

impl Client {
    /// Makes a client of the file that a URL of `http` names (RFC 9110, section 4.2.1). `authority` is its host with the
    /// port, if it has one. `target` is its path with the query, if it has one. Each request and check has the lines of
    /// `fields` as well. Its `name` is the target without the first `/`, and it has a cache of `blocks` blocks of 16,384
    /// bytes. Fails with the first of these that holds:
    /// - `Authority`: the authority isn't a name, an IPv4 address or an IPv6 address in brackets, with a port or none.
    ///   It has 1 to 255 bytes, and no userinfo.
    /// - `Target`: the target isn't in origin-form (RFC 9112, section 3.2.1), or has more than 2,048 bytes.
    /// - `Blocks`: `blocks` isn't between 66 and 4,096.
    /// - `Memory`: an allocation failed.
    ///
    /// ```
    /// let mut fields = RequestFields::new(rt.alloc());
    /// fields.push(b"User-Agent", b"reader/1.0")?;
    /// let mut client = Client::by_url(rt.alloc(), b"[::1]:8080", b"/year=2020/a%20b.tif?v=1", fields, 66)?;
    /// ```
    pub fn by_url(
        alloc: Global,
        authority: &[u8],
        target: &[u8],
        fields: RequestFields,
        blocks: u32,
    ) -> Result<Client, UrlError>
        ensures starts { IfOk result (StartsByUrl authority.now target.now fields blocks) }
        ensures ok { OnOk result (MayStartByUrl authority.now target.now blocks) }
        ensures refused { IfErr result (IsUrlRefusal authority.now target.now blocks) }
    {
        if !is_url_host(authority) {
            return Err(UrlError::Authority);
        }
        let Some(name) = name_of_target(target) else {
            return Err(UrlError::Target);
        };
        let cache = match Cache::new(alloc, blocks) {
            Ok(cache) => cache,
            Err(CacheError::Blocks) => return Err(UrlError::Blocks),
            Err(CacheError::Memory) => return Err(UrlError::Memory),
        };
        let client = Client::start(alloc, authority, name, fields, cache)?;
        Ok(client)
    }

    /// Makes a client without query and revision.
    pub(super) fn start(
        alloc: Global,
        host: &[u8],
        name: &[u8],
        fields: RequestFields,
        cache: Cache,
    ) -> Result<Client, AllocError>
        requires host { IsTrue (is_authority_text host.now) }
        requires name { IsTrue (is_target (47 ∷ name.now)) }
        requires empty { cache.entries ≡ [] }
        ensures { IfOk result (λ c. c ≡ started host.now name.now fields cache) }
    {
        let partial_answer = PartialAnswer::new(alloc)?;
        Ok(Client {
            alloc,
            how: RequestOptions {
                closes: true,
                ahead: 0,
                fields,
            },
            host: Vec::from_slice(alloc, host)?,
            name: Vec::from_slice(alloc, name)?,
            query: None,
            asked: None,
            source: None,
            cache,
            report: None,
            partial_answer,
        })
    }
}
