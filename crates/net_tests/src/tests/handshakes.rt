//! Peers that don't speak WebSocket.

use super::links::{at, free_address};
use host_net::HostNet;
use outside::{Net, NetFault};
use rs_wire::Blob;
use std::alloc::Global;
use std::io::{Read, Write};
use std::net::{TcpListener, TcpStream};
use std::process::Abort;
use std::random::RandomSource;
use std::str::from_utf8;
use std::thread::{Threads, join};
use std::time::Instant;
use std::{io, net, time};

/// What a client sends, and then nothing, and how long the handshake takes, in seconds.
struct Row {
    shows: &'static str,
    sent: &'static [u8],
    /// How many letters come then.
    letters: usize,
    least: u64,
    most: u64,
}

/// Most are refused at once, but for a machine that is slow.
const AT_ONCE: Row = Row {
    shows: "what is no request",
    sent: b"\x00\x00\x08garbage",
    letters: 0,
    least: 0,
    most: 4,
};

const ROWS: &[Row] = &[
    AT_ONCE,
    Row {
        shows: "a request that asks for no WebSocket",
        sent: b"GET / HTTP/1.1\r\nHost: a\r\n\r\n",
        ..AT_ONCE
    },
    Row {
        shows: "a head of 100,000 bytes that does not end",
        sent: b"GET / HTTP/1.1\r\nHost: ",
        letters: 100_000,
        ..AT_ONCE
    },
    Row {
        shows: "half a request and then nothing",
        sent: b"GET / HTTP/1.1\r\n",
        least: 4,
        most: 30,
        ..AT_ONCE
    },
];

// Connects, and sends what the row says.
fn connected<R>(rt: &R, alloc: Global, address: &Blob, row: &Row) -> io::Result<TcpStream>
where
    R: net::Net<Listener = TcpListener, Stream = TcpStream>,
{
    let stream = TcpStream::connect(rt, from_utf8(address.as_slice()).unwrap_or(""))?;
    (&stream).write_all(row.sent)?;
    let letters = vec![in alloc; b'a'; row.letters]?;
    (&stream).write_all(&letters)?;
    Ok(stream)
}

// How long an accept takes that fails, in seconds.
fn refused_after<R: time::Clock + Abort, N: Net>(rt: &R, net: &mut N) -> io::Result<u64>
where
    N::Link: Drop,
{
    let start = Instant::now(rt)?;
    assert!(rt; matches!(net.accept(true), Err(NetFault::Failed)));
    Ok(start.elapsed(rt)?.as_secs())
}

fn play<R>(rt: &R, alloc: Global, row: &Row)
where
    R: net::Net<Listener = TcpListener, Stream = TcpStream> + RandomSource + time::Clock + Abort,
{
    let address = free_address(rt, alloc);
    let mut net = HostNet::new(alloc, rt);
    assert!(rt; net.listen(&address) == Ok(()));
    // The socket is kept until the net has refused it.
    let stream = connected(rt, alloc, &address, row);
    assert!(rt; stream.is_ok());
    let passed = refused_after(rt, &mut net).unwrap_or(u64::MAX);
    assert!(rt;
        row.least <= passed && passed <= row.most,
        "{}: {passed} s",
        row.shows
    );
}

#[test]
fn each_handshake_is_refused_in_its_time(rt: HostRuntime) {
    for row in ROWS {
        play(&rt, rt.alloc(), row);
    }
}

// Reads the first bytes that a client sends, and closes the socket.
fn hang_up(listener: &TcpListener) -> io::Result<[u8; 4]> {
    let (stream, _) = listener.accept()?;
    let mut first = [0; 4];
    (&stream).read_exact(&mut first)?;
    Ok(first)
}

// Whether a dial over WebSocket fails.
fn fails_to_dial<N: Net>(net: &mut N, address: &Blob) -> bool
where
    N::Link: Drop,
{
    matches!(net.dial(address, true), Err(NetFault::Failed))
}

fn dial_to<R>(rt: &R, alloc: Global, listener: &TcpListener, address: &Blob)
where
    R: net::Net<Listener = TcpListener, Stream = TcpStream>
        + RandomSource
        + time::Clock
        + Threads
        + Abort
        + Sync,
{
    let mut net = HostNet::new(alloc, rt);
    let (first, failed) = join(
        rt,
        || hang_up(listener).unwrap_or([0; 4]),
        || fails_to_dial(&mut net, address),
    );
    assert!(rt; first == *b"GET ");
    assert!(rt; failed);
}

#[test]
fn a_server_that_hangs_up_is_a_fault(rt: HostRuntime) -> io::Result<()> {
    let listener = TcpListener::bind(&rt, "127.0.0.1:0")?;
    let address = at(&rt, rt.alloc(), "127.0.0.1", listener.local_addr()?.port());
    dial_to(&rt, rt.alloc(), &listener, &address);
    Ok(())
}
