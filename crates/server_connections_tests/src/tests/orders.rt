//! Two connections, in every order of what happens to them. Each is answered as if it were alone.
use super::driving::{ASKS_A, ASKS_B, CLOSES, give_at, server_of_two, take_at};
use assertion_support::expect_eq;
use cog_server::{AfterBytes, AfterPieces, ScriptedInlet, ScriptedOutlet, Server, Service};
use server_connections::Connections;
use std::alloc::Global;
use std::num::NonZeroUsize;
use std::process::Abort;
use std::test::Fail;

/// The number of steps of a connection, one after another. Bytes come, a message is answered, or some of the answer is taken.
const STEPS: u32 = 6;

/// The streams of the two connections, in two pieces each.
const STREAMS: [[&[u8]; 2]; 2] = [[ASKS_A, CLOSES], [ASKS_B, ASKS_A]];

/// Returns what `serve` writes where it is given both pieces alone.
fn alone(alloc: Global, server: &Server, [first, second]: [&[u8]; 2]) -> Result<Vec<u8>, Fail> {
    let mut stream = Vec::from_slice(alloc, first)?;
    stream.extend_from_slice(second)?;
    let mut inlet = ScriptedInlet::new(stream, Vec::new(alloc), AfterBytes::End);
    let mut outlet = ScriptedOutlet::new(alloc, Vec::new(alloc), AfterPieces::All);
    server.serve(&mut inlet, &mut outlet)?;
    Ok(Vec::from_slice(alloc, outlet.taken())?)
}

/// Does a step of a connection.
fn step(
    connections: &mut Connections,
    server: &Server,
    (number, at): (u64, u32),
    text: &mut Vec<u8>,
) -> Result<(), Fail> {
    let [of_the_first, of_the_second] = STREAMS;
    let [first, second] = if number == 0 {
        of_the_first
    } else {
        of_the_second
    };
    match at {
        0 => {
            give_at(connections, number, first)?;
        }
        1 | 4 => {
            connections.go_on(number, &Service::plain(server), 0)?;
        }
        2 => {
            take_at(connections, number, 20, 0, text)?;
            give_at(connections, number, second)?;
        }
        _ => {
            take_at(connections, number, usize::MAX, 0, text)?;
        }
    }
    Ok(())
}

/// Makes a table with two connections.
fn table_of_two(alloc: Global) -> Result<Connections, Fail> {
    let mut connections = Connections::new(alloc, NonZeroUsize::new(2).ok_or("none")?)?;
    for _ in 0..2 {
        if !connections.is_full() {
            connections.accept(0)?;
        }
    }
    Ok(connections)
}

/// Does all steps of both connections. The bits of the order say whose step is next.
fn run(alloc: Global, server: &Server, order: u32) -> Result<[Vec<u8>; 2], Fail> {
    let mut connections = table_of_two(alloc)?;
    let mut texts = [Vec::new(alloc), Vec::new(alloc)];
    let mut done = [0u32; 2];
    for turn in 0..2 * STEPS {
        let which = if order >> turn & 1 == 0 { 0usize } else { 1 };
        let at = (which as u64, done[which]);
        step(&mut connections, server, at, &mut texts[which])?;
        done[which] = done[which].saturating_add(1);
    }
    Ok(texts)
}

#[test]
fn answers_each_as_if_it_were_alone(rt: HostRuntime) -> Result<(), Fail> {
    let server = server_of_two(rt.alloc())?;
    let [first, second] = STREAMS;
    let first = alone(rt.alloc(), &server, first)?;
    let second = alone(rt.alloc(), &server, second)?;
    let mut orders = 0u32;
    for order in 0..1u32 << (2 * STEPS) {
        if order.count_ones() == STEPS {
            expect_order(&rt, &server, order, (&first, &second))?;
            orders = orders.saturating_add(1);
        }
    }
    expect_eq!(rt; orders, 924);
    Ok(())
}

/// Expects these texts of the two connections in an order.
fn expect_order(
    rt: &(impl Abort + AllocGlobal),
    server: &Server,
    order: u32,
    wants: (&[u8], &[u8]),
) -> Result<(), Fail> {
    let [first, second] = run(rt.alloc(), server, order)?;
    assert_eq!(rt;
        (first.as_slice(), second.as_slice()),
        wants,
        "order {order}"
    );
    Ok(())
}
