//! A connection's turn. It is served until its socket would block, and no longer than is fair to others.
ghost use Rattle.std.specs.Prelude.{◌≡◌, ◌≢◌, ◌<◌, ◌⊎◌, ◌↔◌, ℕ, false, length, IfErr, IfOk, IsSome, IsSomeAnd, IsTrue, None, Some};
ghost use Rattle.std.specs.IoError.{error_kind};
ghost use Rattle.cog_server.specs.Service.{service_of};
ghost use Rattle.server_connections.specs.Table.{Changes, timed_after_write, timed_at};
ghost use Rattle.cog_server.specs.Additions.{ServiceState};
ghost use Rattle.std.specs.declared.io.ErrorKind.TheVariants.{Interrupted, OutOfMemory, WouldBlock};
ghost use Rattle.server_sockets.specs.Going.{AllWentOn};
ghost use Rattle.server_sockets.specs.Turns.{FailsRightly, HasEndedAt, HasFailed, IsDrainedAt, IsFailure, IsOpenAt, IsTriedAt, KeepsSlots, RestsAt};
ghost use Rattle.server_sockets.specs.declared.turn.Turn.TheVariants.{Ended, Failed, GoesOn, Waits};

use crate::answer_log::{AnswerLog, ConnectionLog};
use crate::connection_socket::{ConnectionSocket, answer, read_some, write_some};
use cog_server::Service;
use server_connections::Connections;
use std::io;
use std::io::ErrorKind;

/// The most bytes that one turn writes.
const WRITE_LIMIT: usize = 1_048_576;

/// The most steps of one turn: reads, writes and answers.
const STEP_LIMIT: usize = 256;

/// The outcome of a turn.
#[derive(Clone, Copy, Debug, PartialEq, Eq)]
pub enum Turn {
    /// The connection has to wait until its socket is ready.
    Waits,
    /// The connection could have gone on, but reached the limit of one turn.
    GoesOn,
    /// All answers are written, or all bytes after the last message were dropped.
    Ended,
    /// The socket failed, or memory was short: with the kind of the error.
    Failed(ErrorKind),
}

/// Returns whether bytes wait to be written on connection `number`.
fn is_waiting(connections: &Connections, number: u64) -> bool
    ensures { IsTrue result ↔ IsSomeAnd (timed_at number connections.now.table.entries) (λ p. 0 < length p.connection.waiting) }
{
    let Some(timed) = connections.get(number) else {
        return false;
    };
    let (head, body) = timed.connection.waiting();
    !head.is_empty() || !body.is_empty()
}

/// Returns whether all answers of connection `number` are written, or there is no such connection.
fn has_ended(connections: &Connections, number: u64) -> bool
    ensures ended { IsTrue result → HasEndedAt number connections.now.table.entries }
    ensures open { result ≡ false → IsOpenAt number connections.now.table.entries }
{
    match connections.get(number) {
        Some(timed) => timed.connection.ended().is_some(),
        None => true,
    }
}

/// Returns whether no more bytes may come on connection `number`, or there is no such connection.
pub fn is_drained(connections: &Connections, number: u64) -> bool
    ensures { IsTrue result ↔ IsDrainedAt number connections.now.table.entries }
{
    match connections.get(number) {
        Some(timed) => timed.connection.is_drained(),
        None => true,
    }
}

/// Returns the outcome of a turn whose call failed with `error`, or `None` where the call is to be repeated.
fn turn_of(error: &io::Error) -> Option<Turn>
    ensures again { result ≡ None ↔ (error_kind error.now ≡ Interrupted) }
    ensures waits { result ≡ Some Waits ↔ (error_kind error.now ≡ WouldBlock) }
    ensures goes_on { result ≢ Some GoesOn }
    ensures ended { result ≢ Some Ended }
    ensures failed { (kind : ErrorKind) → result ≡ Some (Failed kind) → (kind ≡ error_kind error.now) × IsFailure kind }
{
    match error.kind() {
        ErrorKind::Interrupted => None,
        ErrorKind::WouldBlock => Some(Turn::Waits),
        kind => Some(Turn::Failed(kind)),
    }
}

/// The bounds of a step: the most bytes that it writes, and its moment in milliseconds.
#[derive(Clone, Copy)]
struct Bounds {
    most: usize,
    now: u64,
}

/// Writes the bytes that wait, or else answers the next message, or else reads. Returns how many bytes were written, or `None` once all
/// answers are.
#[tactic(auto, using(crate::proofs::GoingLemmas::steps))]
fn step<A: AnswerLog>(
    connections: &mut Connections,
    socket: &ConnectionSocket,
    service: &Service<'_>,
    buffer: &mut [u8],
    bounds: Bounds,
    log: &mut ConnectionLog<'_, A>,
) -> io::Result<Option<usize>>
    requires room { 0 < length buffer.old }
    requires some { 0 < bounds.most }
    ensures kept { KeepsSlots socket.now.number connections.old connections.new }
    ensures went { AllWentOn (service_of service.now) bounds.now connections.old.table.entries connections.new.table.entries }
    ensures ended { IfOk result (λ count. count ≡ None → HasEndedAt socket.now.number connections.new.table.entries) }
    // Something is done only on a connection that hasn't ended, and its socket blocks, or fails, only where it still hasn't.
    ensures open { IfOk result (λ count. IsSome count → IsOpenAt socket.now.number connections.old.table.entries) }
    ensures blocks { IfErr result (λ error. error_kind error ≢ OutOfMemory
        → IsOpenAt socket.now.number connections.old.table.entries × IsOpenAt socket.now.number connections.new.table.entries) }
    // Where its socket blocks, or fails, it was tried to write what waits, or no whole message is left to be answered.
    ensures rests { IfErr result (λ error. error_kind error ≢ OutOfMemory
        → RestsAt bounds.now socket.now.number connections.new.table.entries) }
    ensures unanswered { log.new.unanswered.ghost_name ≡ log.old.unanswered.ghost_name }
{
    let Bounds { most, now } = bounds;
    let number = socket.number;
    if is_waiting(connections, number) {
        return Ok(Some(write_some(connections, socket, most, now)?));
    }
    if let Some(status) = answer(connections, number, service, now)? {
        log.answered(connections, socket, status);
        return Ok(Some(0));
    }
    if has_ended(connections, number) {
        return Ok(None);
    }
    let count = read_some(connections, socket, buffer)?;
    log.came(&buffer[..count]);
    Ok(Some(0))
}

/// Reads messages, writes their answers, and logs them in `log`. The outcome is `Ended` once the last answer is written.
#[tactic(auto, using(crate::proofs::TurnLemmas::keeps_on, crate::proofs::GoingLemmas::all_on))]
pub fn serve_turn<A: AnswerLog>(
    connections: &mut Connections,
    socket: &ConnectionSocket,
    service: &Service<'_>,
    buffer: &mut [u8],
    now: u64,
    log: &mut ConnectionLog<'_, A>,
) -> Turn
    requires { 0 < length buffer.old }
    ensures kept { KeepsSlots socket.now.number connections.old connections.new }
    ensures went { AllWentOn (service_of service.now) now connections.old.table.entries connections.new.table.entries }
    ensures ended { result ≡ Ended → HasEndedAt socket.now.number connections.new.table.entries }
    // One that has ended neither goes on nor waits.
    ensures goes_on { result ≡ GoesOn → IsOpenAt socket.now.number connections.old.table.entries
        × IsOpenAt socket.now.number connections.new.table.entries }
    ensures waits { result ≡ Waits → IsOpenAt socket.now.number connections.old.table.entries
        × IsOpenAt socket.now.number connections.new.table.entries }
    // One that waits can't go on: it was tried to write what waits on it, or no whole message is left to be answered.
    ensures rests { result ≡ Waits → RestsAt now socket.now.number connections.new.table.entries }
    // One fails only by an error of another kind than that its socket would block, or that a signal came.
    ensures failed { FailsRightly result }
    ensures unanswered { log.new.unanswered.ghost_name ≡ log.old.unanswered.ghost_name }
{
    let mut most = WRITE_LIMIT;
    for _ in 0..STEP_LIMIT {
        let bounds = Bounds { most, now };
        match step(connections, socket, service, buffer, bounds, log) {
            Ok(Some(n)) => most = most.saturating_sub(n),
            Ok(None) => return Turn::Ended,
            Err(error) => {
                if let Some(turn) = turn_of(&error) {
                    return turn;
                }
            }
        }
        if most == 0 {
            break;
        }
    }
    if has_ended(connections, socket.number) {
        Turn::Ended
    } else {
        Turn::GoesOn
    }
}

/// Tries at moment `now` to write what waits on a connection. The outcome is `GoesOn` where its socket took bytes or a signal came, `Ended`
/// where these were the last, `Waits` where it took none, and `Failed` after an error.
#[tactic(auto, using(crate::proofs::GoingLemmas::tries))]
pub fn try_turn(connections: &mut Connections, socket: &ConnectionSocket, now: u64) -> Turn
    ensures kept { KeepsSlots socket.now.number connections.old connections.new }
    // Nothing is answered, by whatever service.
    ensures went { (service : ServiceState) → AllWentOn service now connections.old.table.entries connections.new.table.entries }
    ensures tried { IsTriedAt now socket.now.number connections.new.table.entries }
    ensures ended { result ≡ Ended → HasEndedAt socket.now.number connections.new.table.entries }
    // One whose socket took bytes neither waits nor fails.
    ensures blocked { (result ≡ Waits) ⊎ HasFailed result
        → Changes socket.now.number (timed_after_write 0 now) connections.old.table.entries connections.new.table.entries }
    ensures failed { FailsRightly result }
{
    match write_some(connections, socket, WRITE_LIMIT, now) {
        Ok(_) if has_ended(connections, socket.number) => Turn::Ended,
        Ok(_) => Turn::GoesOn,
        Err(error) => turn_of(&error).unwrap_or(Turn::GoesOn),
    }
}

/// Drops the bytes that still come after the last message. The outcome is `Ended` once no more may come.
#[tactic(auto, using(crate::proofs::TurnLemmas::keeps_on, crate::proofs::GoingLemmas::all_still))]
pub fn drain_turn(
    connections: &mut Connections,
    socket: &ConnectionSocket,
    buffer: &mut [u8],
) -> Turn
    requires { 0 < length buffer.old }
    ensures kept { KeepsSlots socket.now.number connections.old connections.new }
    // Nothing is answered, by whatever service.
    ensures went { (service : ServiceState) (now : ℕ) → AllWentOn service now connections.old.table.entries connections.new.table.entries }
    ensures ended { result ≡ Ended → IsDrainedAt socket.now.number connections.new.table.entries }
    // Where nothing more may come it neither goes on nor waits.
    ensures goes_on { result ≡ GoesOn → ¬ IsDrainedAt socket.now.number connections.old.table.entries }
    ensures waits { result ≡ Waits → ¬ IsDrainedAt socket.now.number connections.new.table.entries }
    ensures failed { FailsRightly result }
{
    for _ in 0..STEP_LIMIT {
        if is_drained(connections, socket.number) {
            return Turn::Ended;
        }
        if let Err(error) = read_some(connections, socket, buffer)
            && let Some(turn) = turn_of(&error)
        {
            return turn;
        }
    }
    Turn::GoesOn
}
