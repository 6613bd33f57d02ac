//! Fifty connections at random, with publications between, beside the plain answer to each message.
use super::driving::{ASKS_A, ASKS_B, give_at, publish, server_of_two, take_at};
use cog_server::{Server, Service};
use fixtures_support::Numbers;
use server_connections::Connections;
use std::alloc::Global;
use std::num::NonZeroUsize;
use std::process::Abort;
use std::test::Fail;

/// The number of connections, and the number of events.
const CONNECTIONS: usize = 50;

const EVENTS: usize = 20000;

/// The request that a connection sends again and again, and how many bytes of it came. Then come what is written, and what is expected.
#[derive(Drop)]
struct Peer {
    asks: &'static [u8],
    sent: usize,
    text: Vec<u8>,
    want: Vec<u8>,
}

impl Peer {
    fn new(alloc: Global, number: usize) -> Self {
        Peer {
            asks: if number % 2 == 0 { ASKS_A } else { ASKS_B },
            sent: 0,
            text: Vec::new(alloc),
            want: Vec::new(alloc),
        }
    }
}

/// Does one event of a connection, at random.
fn happen(
    numbers: &mut Numbers,
    connections: &mut Connections,
    server: &Server,
    number: u64,
    peer: &mut Peer,
) -> Result<(), Fail> {
    match numbers.below(3) {
        0 => come(numbers, connections, number, peer),
        1 => go_on(connections, server, number, peer),
        _ => {
            let most = numbers.below(400);
            take_at(connections, number, most, 0, &mut peer.text)?;
            Ok(())
        }
    }
}

/// Lets some of the next bytes come.
fn come(
    numbers: &mut Numbers,
    connections: &mut Connections,
    number: u64,
    peer: &mut Peer,
) -> Result<(), Fail> {
    let rest = &peer.asks[peer.sent.min(peer.asks.len())..];
    let piece = &rest[..(1 + numbers.below(30)).min(rest.len())];
    let n = give_at(connections, number, piece)?;
    peer.sent = peer.sent.saturating_add(n);
    if peer.sent >= peer.asks.len() {
        peer.sent = 0;
    }
    Ok(())
}

/// Answers the next message where it came whole. The answer is then expected to be written.
fn go_on(
    connections: &mut Connections,
    server: &Server,
    number: u64,
    peer: &mut Peer,
) -> Result<(), Fail> {
    if connections
        .go_on(number, &Service::plain(server), 0)?
        .is_some()
    {
        let answer = server.answer(peer.asks)?;
        peer.want.extend_from_slice(&answer.text)?;
    }
    Ok(())
}

/// Makes a table with its connections.
fn full_table(alloc: Global) -> Result<Connections, Fail> {
    let limit = NonZeroUsize::new(CONNECTIONS).ok_or("none")?;
    let mut connections = Connections::new(alloc, limit)?;
    for _ in 0..CONNECTIONS {
        if !connections.is_full() {
            connections.accept(0)?;
        }
    }
    Ok(connections)
}

/// Returns what the connections are asked.
fn peers_of(alloc: Global) -> Result<Vec<Peer>, Fail> {
    let mut peers = Vec::new(alloc);
    for number in 0..CONNECTIONS {
        peers.push(Peer::new(alloc, number))?;
    }
    Ok(peers)
}

/// Publishes another file.
fn replace(alloc: Global, numbers: &mut Numbers, server: &mut Server) -> Result<(), Fail> {
    let byte = numbers.byte();
    let count = 1 + numbers.below(300);
    publish(alloc, server, b"a", byte, count)
}

/// Does all events, with a publication at every hundredth.
fn play(
    alloc: Global,
    server: &mut Server,
    connections: &mut Connections,
    peers: &mut Vec<Peer>,
) -> Result<(), Fail> {
    let mut numbers = Numbers::new(7);
    for event in 0..EVENTS {
        let which = numbers.below(CONNECTIONS);
        if let Some(peer) = peers.get_mut(which) {
            happen(&mut numbers, connections, server, which as u64, peer)?;
        }
        if event % 100 == 0 {
            replace(alloc, &mut numbers, server)?;
        }
    }
    Ok(())
}

/// Takes what still waits on a connection, and expects all that should be written. Returns the number of its bytes.
fn expect_text(
    rt: &(impl Abort + AllocGlobal),
    connections: &mut Connections,
    number: u64,
    peer: &mut Peer,
) -> Result<usize, Fail> {
    take_at(connections, number, usize::MAX, 0, &mut peer.text)?;
    assert_eq!(rt; peer.text.as_slice(), peer.want.as_slice(), "{number}");
    Ok(peer.want.len())
}

#[test]
fn answers_fifty_at_random(rt: HostRuntime) -> Result<(), Fail> {
    let mut server = server_of_two(rt.alloc())?;
    let mut connections = full_table(rt.alloc())?;
    let mut peers = peers_of(rt.alloc())?;
    play(rt.alloc(), &mut server, &mut connections, &mut peers)?;
    let mut answered = 0;
    for (number, peer) in peers.iter_mut().enumerate() {
        let length = expect_text(&rt, &mut connections, number as u64, peer)?;
        answered = length.max(answered);
    }
    assert!(rt; answered > 1000);
    Ok(())
}
