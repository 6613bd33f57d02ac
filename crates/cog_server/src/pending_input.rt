//! What came on a connection and isn't answered yet.
ghost use Rattle.std.specs.Prelude.{◌≡◌, ◌+◌, ◌≤◌, ◌++◌, [], true, false, ℕ, List, IfNone, IfSome, OnOk, OnErr, OnSome, length, take, drop};
ghost use Rattle.http_fields.specs.declared.limits.TheConstants.{MESSAGE_LIMIT};
ghost use Rattle.http_range.specs.Stream.{HasNoMessage, IsFirstMessage, IsUnfinished};

use http_range::{Memory, law_messages_stay, message_length};
use std::alloc::Global;

/// The bytes that came and aren't answered yet. No message ends in the first `scanned` of them.
#[derive(Drop)]
pub struct PendingInput {
    pub bytes: Vec<u8>,
    pub scanned: usize,
    ghost small: { length bytes.items ≤ MESSAGE_LIMIT },
    ghost searched: { scanned ≤ length bytes.items },
    ghost none: { HasNoMessage bytes.items scanned },
}

impl PendingInput {
    /// Makes one to which nothing came.
    pub fn new(alloc: Global) -> Self
        ensures { result.bytes.items ≡ [] }
    {
        law_messages_stay();
        PendingInput {
            bytes: Vec::new(alloc),
            scanned: 0,
        }
    }

    /// Returns the length of the first message in bytes, or `None` where none is whole. Only new bytes are gone
    /// through.
    pub fn whole(&mut self) -> Option<usize>
        ensures held { self.new.bytes.items ≡ self.old.bytes.items }
        ensures found { IfSome result (λ n. (n ≤ length self.new.bytes.items)
            × IsFirstMessage self.new.bytes.items (take n self.new.bytes.items)) }
        ensures none { IfNone result (IsUnfinished self.new.bytes.items) }
        ensures searched { IfNone result (self.new.scanned ≡ length self.new.bytes.items) }
        ensures kept { OnSome result (self.new.scanned ≡ self.old.scanned) }
    {
        let found = message_length(&self.bytes, self.scanned);
        if found.is_none() {
            self.scanned = self.bytes.len();
        }
        found
    }

    /// Returns whether no message is whole.
    pub fn is_unfinished(&self) -> bool
        ensures yes { result ≡ true → IsUnfinished self.now.bytes.items }
        ensures no { result ≡ false → (message : List ℕ) × IsFirstMessage self.now.bytes.items message }
    {
        message_length(&self.bytes, self.scanned).is_none()
    }

    /// Adds bytes after those that are held. Fails with `Memory` alone, and then keeps what was held.
    pub fn add(&mut self, bytes: &[u8]) -> Result<(), Memory>
        requires { length self.old.bytes.items + length bytes.now ≤ MESSAGE_LIMIT }
        ensures ok { OnOk result (self.new.bytes.items ≡ self.old.bytes.items ++ bytes.now) }
        ensures err { OnErr result (self.new.bytes.items ≡ self.old.bytes.items) }
        ensures searched { self.new.scanned ≡ self.old.scanned }
    {
        law_messages_stay();
        self.bytes.extend_from_slice(bytes)?;
        Ok(())
    }

    /// Drops the first `n` bytes.
    pub fn skip(&mut self, n: usize)
        requires { n ≤ length self.old.bytes.items }
        ensures left { self.new.bytes.items ≡ drop n self.old.bytes.items }
        ensures searched { self.new.scanned ≡ 0 }
    {
        law_messages_stay();
        self.scanned = 0;
        self.bytes.copy_within(n.., 0);
        self.bytes.truncate(self.bytes.len() - n);
    }
}
