//! What a handle holds: a client, and its exchanges.
ghost use Rattle.std.specs.Prelude.{◌≡◌, None, false};
ghost use Rattle.client_dialogue.specs.Goes.{BeginsAnew};
ghost use Rattle.delgunsai_c.specs.Moving.{BeginsAlone};

use client_dialogue::{Check, Dialogue};
use cog_client::Client;

/// Holds a client, its exchanges over connections, and the check that is under way.
#[derive(Drop)]
pub struct Held {
    pub client: Client,
    pub dialogue: Dialogue,
    pub check: Option<Check>,
    /// The most exchanges that a query may take.
    pub exchanges: u32,
}

impl Held {
    /// Begins a query. What is under way is dropped with its connection.
    pub fn begin_query(&mut self)
        ensures client { self.new.client ≡ self.old.client }
        ensures check { self.new.check ≡ None }
        ensures exchanges { self.new.exchanges ≡ self.old.exchanges }
        ensures begins { BeginsAnew self.old.exchanges self.old.dialogue self.new.dialogue }
        ensures allows { self.new.dialogue.exchanges ≡ self.old.exchanges }
        ensures idle { self.new.dialogue.asked ≡ false }
    {
        self.check = None;
        self.dialogue.begin(self.exchanges);
    }

    /// Begins a query without a connection. What is under way is dropped.
    pub fn begin_alone(&mut self)
        ensures begins { BeginsAlone self.old self.new }
        ensures check { self.new.check ≡ None }
    {
        self.begin_query();
        self.dialogue.end();
    }
}
