//! The requests that may be sent before the answer to the last one came.
ghost use Rattle.std.specs.Prelude.{◌≡◌, ◌<◌, ◌≤◌, [], IfOk, IsOk, length, map};
ghost use Rattle.std.specs.List.{All};
ghost use Rattle.cog_reader.specs.Early.{AreApart};
ghost use Rattle.cog_client.specs.declared.request_options.TheConstants.{REQUEST_LIMIT, URL_REQUEST_LIMIT};
ghost use Rattle.cog_client.specs.Client.{IsPlain};
ghost use Rattle.cog_client.specs.Early.{AreAllInReach, AreEarlyRequests, AsksNothingEarly, IsEarly, LeaveNothing, LeaveNothingInReach};

use crate::client::Client;
use cog_reader::early_spans;
use extents::{Memory, Span};
use http_range::law_requests_are_short;

#[tactic(auto, unfolding(crate::specs::Client::asked_of, crate::specs::Client::blocks_of, crate::specs::Client::reader_of, crate::specs::Client::to_come, crate::specs::Client::Knows))]
impl Client {
    /// Returns at most `most` requests that may be sent before the answer to the last one. Their byte ranges ascend, and
    /// no two share a byte. No missing block is left out before one of them, if it is known to be wanted. There are none
    /// where requests close their connections or don't look ahead. `request` is to make them in this order if each
    /// answer comes whole. No contract says so.
    ///
    /// A sender may write them one after another on a connection (RFC 9112, section 9.3.2). It takes the answers as
    /// ever: `request` makes each of them once more in its turn. It makes another one where an answer came otherwise.
    /// Fails with `Memory` alone.
    pub fn early_requests(&self, most: u32) -> Result<Vec<Vec<u8>>, Memory>
        ensures requests { IfOk result (λ texts. AreEarlyRequests self.now (map (λ text. text.items) texts.items)) }
        ensures none { AsksNothingEarly self.now → IfOk result (λ texts. texts.items ≡ []) }
        ensures few { IfOk result (λ texts. length texts.items ≤ most) }
        ensures short { IfOk result (λ texts. All (λ text. IsPlain self.now → length text.items ≤ REQUEST_LIMIT) texts.items) }
        ensures long { IfOk result (λ texts. All (λ text. length text.items ≤ URL_REQUEST_LIMIT) texts.items) }
        ensures sure { AsksNothingEarly self.now → IsOk result }
        // Where they are fewer, nothing in reach is left out.
        ensures end { IfOk result (λ texts. length texts.items < most
            → AreAllInReach self.now (map (λ text. text.items) texts.items)) }
    {
        law_requests_are_short();
        let spans = self.spans_early(most)?;
        let mut texts = Vec::new(self.alloc);
        for span in &spans {
            texts.push(self.request_for(*span)?)?;
        }
        Ok(texts)
    }

    /// Returns the byte ranges of those requests.
    fn spans_early(&self, most: u32) -> Result<Vec<Span>, Memory>
        ensures early { IfOk result (λ spans. All (IsEarly self.now) spans.items) }
        ensures apart { IfOk result (λ spans. AreApart spans.items) }
        ensures order { IfOk result (λ spans. LeaveNothing self.now spans.items) }
        ensures none { AsksNothingEarly self.now → IfOk result (λ spans. spans.items ≡ []) }
        ensures few { IfOk result (λ spans. length spans.items ≤ most) }
        ensures sure { AsksNothingEarly self.now → IsOk result }
        ensures end { IfOk result (λ spans. length spans.items < most → ¬ AsksNothingEarly self.now
            → LeaveNothingInReach self.now spans.items) }
    {
        let (Some(asked), Some(source)) = (self.asked, &self.source) else {
            return Ok(Vec::new(self.alloc));
        };
        let ahead = self.how.ahead;
        if self.how.closes || ahead == 0 {
            return Ok(Vec::new(self.alloc));
        }
        early_spans(self.alloc, &source.reader, &self.cache, asked, ahead, most)
    }
}
