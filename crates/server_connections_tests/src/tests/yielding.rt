//! Which connection gives its slot to one that waits.
use super::driving::{ASKS_A, CLOSES, give_at, server_of_two, take_at};
use assertion_support::expect_eq;
use cog_server::{Server, Service};
use server_connections::Connections;
use std::alloc::Global;
use std::num::NonZeroUsize;
use std::process::Abort;
use std::test::Fail;

/// What a connection of the table does after it is accepted.
#[derive(Clone, Copy, Debug, PartialEq, Eq)]
enum Doing {
    /// Nothing came.
    Idle,
    /// A beginning of a message came.
    Begun,
    /// An answer waits to be written.
    Answered,
    /// The last answer is written.
    Draining,
}

/// Accepts a connection at a moment. The connection then does this.
fn accept(alloc: Global, connections: &mut Connections, doing: Doing, at: u64) -> Result<(), Fail> {
    let server = server_of_two(alloc)?;
    if connections.is_full() {
        return Ok(());
    }
    let number = connections.accept(at)?;
    begin(alloc, connections, &server, (number, doing, at))
}

/// Does this on connection `number` at a moment.
fn begin(
    alloc: Global,
    connections: &mut Connections,
    server: &Server,
    (number, doing, at): (u64, Doing, u64),
) -> Result<(), Fail> {
    match doing {
        Doing::Idle => {}
        Doing::Begun => {
            give_at(connections, number, b"GET")?;
        }
        Doing::Answered => {
            give_at(connections, number, ASKS_A)?;
            connections.go_on(number, &Service::plain(server), at)?;
        }
        Doing::Draining => {
            give_at(connections, number, CLOSES)?;
            connections.go_on(number, &Service::plain(server), at)?;
            take_at(connections, number, usize::MAX, at, &mut Vec::new(alloc))?;
        }
    }
    Ok(())
}

/// A row has the connections of a table with their moments. Then come which of them yields at the moment 100 with the patience 30, and when
/// the table wakes.
type Row<'a> = (&'a [(Doing, u64)], Option<u64>, Option<u64>);

/// Makes a table with these connections.
fn table_of(alloc: Global, rows: &[(Doing, u64)]) -> Result<Connections, Fail> {
    let limit = NonZeroUsize::new(rows.len()).ok_or("no rows")?;
    let mut connections = Connections::new(alloc, limit)?;
    for (doing, at) in rows {
        accept(alloc, &mut connections, *doing, *at)?;
    }
    Ok(connections)
}

/// Tries the sockets that are due at the moment 100 with the patience 30. None of them takes a byte.
fn try_sockets(connections: &mut Connections, count: usize) {
    for _ in 0..count {
        if let Some(number) = connections.untried(100, 30) {
            connections.wrote(number, 0, 100);
        }
    }
}

/// Expects each row, after the sockets are tried.
fn expect(rt: &(impl Abort + AllocGlobal), rows: &[Row<'_>]) -> Result<(), Fail> {
    for (table, yields, wakes) in rows {
        let mut connections = table_of(rt.alloc(), table)?;
        try_sockets(&mut connections, table.len());
        expect_eq!(rt;
            (connections.yields(100, 30), connections.wakes_at(30)),
            (*yields, *wakes),
            "{table:?}"
        );
    }
    Ok(())
}

/// Rows where one connection drains, or one is idle.
#[rattlefmt::skip]
const DRAIN_OR_IDLE: [Row<'static>; 4] = [
    (&[(Doing::Idle, 90), (Doing::Draining, 99), (Doing::Begun, 1)], Some(1), Some(31)),
    (&[(Doing::Draining, 98), (Doing::Draining, 97)], Some(1), Some(127)),
    (&[(Doing::Begun, 1), (Doing::Idle, 95), (Doing::Idle, 94), (Doing::Idle, 96)], Some(2), Some(31)),
    (&[(Doing::Answered, 1), (Doing::Idle, 100)], Some(1), Some(31)),
];

/// Rows where all connections are busy.
#[rattlefmt::skip]
const BUSY: [Row<'static>; 4] = [
    (&[(Doing::Begun, 71), (Doing::Answered, 72)], None, Some(101)),
    (&[(Doing::Begun, 71), (Doing::Answered, 70)], Some(1), Some(100)),
    (&[(Doing::Begun, 69), (Doing::Answered, 70)], Some(0), Some(99)),
    (&[(Doing::Answered, 200), (Doing::Begun, 300)], None, Some(230)),
];

/// Rows where one connection is alone.
#[rattlefmt::skip]
const ALONE: [Row<'static>; 4] = [
    (&[(Doing::Idle, 1)], None, Some(31)),
    (&[(Doing::Draining, 1)], None, Some(31)),
    (&[(Doing::Begun, u64::MAX - 29)], None, None),
    (&[(Doing::Begun, u64::MAX - 30)], None, Some(u64::MAX)),
];

#[test]
fn takes_the_place_of_one_that_drains_or_idles(rt: HostRuntime) -> Result<(), Fail> {
    expect(&rt, &DRAIN_OR_IDLE)
}

/// Expects that a busy connection yields only where its patience has run out: at 70, and not at 71.
#[test]
fn takes_the_place_of_a_busy_one_behind_the_patience(rt: HostRuntime) -> Result<(), Fail> {
    expect(&rt, &BUSY)
}

/// Expects that a socket is tried at half of the patience, and before its connection loses its slot. A connection whose socket takes a byte
/// keeps the slot.
#[test]
fn tries_a_socket_before_its_connection_yields(rt: HostRuntime) -> Result<(), Fail> {
    let mut connections = table_of(rt.alloc(), &[(Doing::Answered, 50), (Doing::Begun, 60)])?;
    expect_eq!(rt; connections.tries_at(30), Some(65));
    expect_eq!(rt; (connections.untried(64, 30), connections.untried(65, 30)), (None, Some(0)));
    connections.wrote(0, 0, 65);
    expect_eq!(rt; (connections.untried(79, 30), connections.untried(80, 30)), (None, Some(0)));
    expect_eq!(rt; (connections.tries_at(30), connections.yields(80, 30)), (Some(80), None));
    connections.wrote(0, 0, 80);
    expect_eq!(rt; (connections.untried(80, 30), connections.yields(80, 30)), (None, Some(0)));
    take_at(&mut connections, 0, 1, 80, &mut Vec::new(rt.alloc()))?;
    expect_eq!(rt; connections.yields(80, 30), None);
    Ok(())
}

#[test]
fn never_takes_the_only_place(rt: HostRuntime) -> Result<(), Fail> {
    expect(&rt, &ALONE)
}
