//! Why the system doesn't accept a connection.
ghost use Rattle.std.specs.Prelude.{◌≡◌, ◌↔◌, Contains};
ghost use Rattle.server_sockets.specs.Refusals.{lost, no_room};
ghost use Rattle.server_sockets.specs.declared.refusal.Refusal.TheVariants.{Lost, NoRoom};

use std::io;

/// Why no connection can be accepted any more, with the error of the system.
#[derive(Debug, Drop)]
pub enum AcceptError {
    /// The system doesn't accept one.
    Accept(io::Error),
    /// The system can't be asked whether one waits.
    Ask(io::Error),
}

/// Why the system doesn't accept a connection.
#[derive(Clone, Copy, Debug, PartialEq, Eq)]
pub enum Refusal {
    /// The connection is lost before it is accepted, or a signal came.
    Lost,
    /// There is no room for it.
    NoRoom,
    /// No connection can be accepted any more.
    Last,
}

/// The errors where there is no room for a connection: `EMFILE`, `ENFILE`, `ENOMEM`, `ENOBUFS`.
const NO_ROOM: [i32; 4] = [24, 23, 12, 105];

/// The errors where a connection is lost before it is accepted: `ECONNABORTED`, `EPERM`, `EPROTO`, `ENOPROTOOPT`, `EOPNOTSUPP`, `ENONET`,
/// `ENETDOWN`, `ENETUNREACH`, `EHOSTDOWN`, `EHOSTUNREACH`, `ETIMEDOUT`. The last, `EINTR`, is that of a signal.
const LOST: [i32; 12] = [103, 1, 71, 92, 95, 64, 100, 101, 112, 113, 110, 4];

/// Returns what the error `number` of accept(2) says of the connection.
pub fn refusal_of(number: i32) -> Refusal
    ensures lost { (result ≡ Lost) ↔ Contains lost number }
    ensures no_room { (result ≡ NoRoom) ↔ Contains no_room number }
{
    if LOST.contains(&number) {
        Refusal::Lost
    } else if NO_ROOM.contains(&number) {
        Refusal::NoRoom
    } else {
        Refusal::Last
    }
}
