//! What is no address, and a port that is taken.

use super::crossing::cross;
use super::links::{blob, free_address};
use host_net::HostNet;
use outside::{Net, NetFault};
use rs_wire::Blob;
use std::alloc::Global;
use std::net::{TcpListener, TcpStream};
use std::process::Abort;
use std::random::RandomSource;
use std::thread::Threads;
use std::{net, time};

/// What is no address, and a name that no system knows: a part of it is longer than 63 bytes.
const NO_ADDRESSES: &[(&str, &[u8])] = &[
    ("no port", b"127.0.0.1"),
    ("a port that is too large", b"127.0.0.1:65536"),
    ("a port that is no number", b"127.0.0.1:http"),
    ("no host", b""),
    ("no text", b"\xff:1"),
    ("no brackets", b"::1"),
    (
        "a name that is not known",
        b"aaaaaaaaaaaaaaaaaaaaaaaaaaaaaaaaaaaaaaaaaaaaaaaaaaaaaaaaaaaaaaaaaaaaaa:1",
    ),
];

// Neither dials, nor listens, nor accepts then. A dial that failed makes the next one wait.
fn refuse<R: Abort, N: Net>(rt: &R, net: &mut N, address: &Blob, ws: bool, shows: &str)
where
    N::Link: Drop,
{
    assert!(rt;
        matches!(net.dial(address, ws), Err(NetFault::Failed)),
        "{shows}"
    );
    assert!(rt; net.listen(address) == Err(NetFault::Failed), "{shows}");
    assert!(rt; matches!(net.accept(ws), Err(NetFault::Failed)), "{shows}");
}

fn refuse_both<R>(rt: &R, alloc: Global, address: &Blob, shows: &str)
where
    R: net::Net<Listener = TcpListener, Stream = TcpStream> + RandomSource + time::Clock + Abort,
{
    for ws in [false, true] {
        refuse(rt, &mut HostNet::new(alloc, rt), address, ws, shows);
    }
}

#[test]
fn what_is_no_address_is_a_fault(rt: HostRuntime) {
    for (shows, text) in NO_ADDRESSES {
        refuse_both(&rt, rt.alloc(), &blob(&rt, rt.alloc(), text), shows);
    }
}

fn listen_twice<R>(rt: &R, alloc: Global, free: &Blob, taken: &Blob)
where
    R: net::Net<Listener = TcpListener, Stream = TcpStream>
        + RandomSource
        + time::Clock
        + Threads
        + Abort
        + Sync,
{
    let mut other = HostNet::new(alloc, rt);
    let mut server = HostNet::new(alloc, rt);
    assert!(rt; other.listen(taken) == Ok(()));
    assert!(rt; server.listen(free) == Ok(()));
    assert!(rt; server.listen(taken) == Err(NetFault::Failed));

    // It listens where it did before.
    cross(rt, &mut server, &mut other, free, false);
}

#[test]
fn a_port_that_is_taken_is_a_fault(rt: HostRuntime) {
    let free = free_address(&rt, rt.alloc());
    let taken = free_address(&rt, rt.alloc());
    listen_twice(&rt, rt.alloc(), &free, &taken);
}
