//! The events of a wait.
ghost use Rattle.std.specs.Prelude.{◌≡◌, ◌≢◌, ◌↔◌, ◌⊎◌, ◌≤◌, ℕ, Contains, IsTrue, None, Some};
ghost use Rattle.mio.specs.Events.{items};
ghost use Rattle.server_connections.specs.Table.{timed_at};
ghost use Rattle.server_connections.specs.declared.timed.Timed.{Timed};
ghost use Rattle.server_sockets.specs.declared.events.TheConstants.{LISTENER};
ghost use Rattle.server_sockets.specs.Closings.{BeginsWith};
ghost use Rattle.server_sockets.specs.Draining.{IsReadyAt};
ghost use Rattle.server_sockets.specs.Waits.{IsQueued, sockets_of};

use crate::open_connections::OpenConnections;
use mio::{Events, Token};
use std::collections::VecDeque;

/// The listener's token. No connection's number is so great.
pub const LISTENER: Token = Token(usize::MAX);

/// Queues connection `number`, which is ready for its turn, unless it is queued already. Closes it where memory has no room to queue it.
#[tactic(auto, using(crate::proofs::EventLemmas::pushed))]
fn queue(number: u64, open_connections: &mut OpenConnections, ready: &mut VecDeque<u64>)
    ensures queued { IsQueued number ready.new.items open_connections.old open_connections.new }
    ensures marked { (k : ℕ) → IsReadyAt k open_connections.new → (k ≡ number) ⊎ IsReadyAt k open_connections.old }
    ensures kept { (k : ℕ) → Contains ready.old.items k → Contains ready.new.items k }
    ensures slots { (k : ℕ) → timed_at k open_connections.old.connections.table.entries ≡ None
        → timed_at k open_connections.new.connections.table.entries ≡ None }
    ensures same { (k : ℕ) (p : Timed) → timed_at k open_connections.new.connections.table.entries ≡ Some p
        → timed_at k open_connections.old.connections.table.entries ≡ Some p }
    ensures ended { open_connections.old.ended ≤ open_connections.new.ended }
    ensures cap { open_connections.new.connections.table.cap ≡ open_connections.old.connections.table.cap }
    ensures begins { BeginsWith ready.new.items ready.old.items }
{
    if !open_connections.note_ready(number) {
        return;
    }
    if ready.push_back(number).is_err() {
        open_connections.close(number);
    }
}

/// Queues the connections that are ready, each once, and returns whether a connection may wait in the listen backlog. Closes a connection
/// that memory has no room to queue.
pub fn note(
    events: &Events,
    open_connections: &mut OpenConnections,
    ready: &mut VecDeque<u64>,
) -> bool
    ensures heard { IsTrue result ↔ Contains (sockets_of (items events.now)) LISTENER.0 }
    ensures queued { (k : ℕ) → Contains (sockets_of (items events.now)) k → k ≢ LISTENER.0
        → IsQueued k ready.new.items open_connections.old open_connections.new }
    ensures slots { (k : ℕ) → timed_at k open_connections.old.connections.table.entries ≡ None
        → timed_at k open_connections.new.connections.table.entries ≡ None }
    ensures same { (k : ℕ) (p : Timed) → timed_at k open_connections.new.connections.table.entries ≡ Some p
        → timed_at k open_connections.old.connections.table.entries ≡ Some p }
    ensures ended { open_connections.old.ended ≤ open_connections.new.ended }
    ensures cap { open_connections.new.connections.table.cap ≡ open_connections.old.connections.table.cap }
    ensures begins { BeginsWith ready.new.items ready.old.items }
{
    let mut accept_pending = false;
    for event in events {
        let token = event.token();
        if token == LISTENER {
            accept_pending = true;
        } else {
            queue(token.0 as u64, open_connections, ready);
        }
    }
    accept_pending
}
