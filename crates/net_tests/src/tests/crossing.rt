//! Bytes that go there and back.

use super::links::{answer, ask, at, free_port};
use host_net::HostNet;
use outside::Net;
use rs_wire::Blob;
use std::alloc::Global;
use std::net::{TcpListener, TcpStream};
use std::process::Abort;
use std::random::RandomSource;
use std::thread::{Threads, join};
use std::{net, time};

/// A host as an address of the system, and as one of the net. A machine may not have the last one.
const HOSTS: &[(&str, &str)] = &[
    ("127.0.0.1", "127.0.0.1"),
    ("127.0.0.1", "localhost"),
    ("::1", "[::1]"),
];

/// Bytes go there and back between two nets, one of which listens at this address.
pub fn cross<R>(
    rt: &R,
    server: &mut HostNet<&R>,
    client: &mut HostNet<&R>,
    address: &Blob,
    ws: bool,
)
where
    R: net::Net<Listener = TcpListener, Stream = TcpStream>
        + RandomSource
        + time::Clock
        + Threads
        + Abort
        + Sync,
{
    join(
        rt,
        || answer(rt, server, ws),
        || ask(rt, client, address, ws),
    );
}

fn there_and_back<R>(rt: &R, alloc: Global, address: &Blob, ws: bool)
where
    R: net::Net<Listener = TcpListener, Stream = TcpStream>
        + RandomSource
        + time::Clock
        + Threads
        + Abort
        + Sync,
{
    let mut server = HostNet::new(alloc, rt);
    let mut client = HostNet::new(alloc, rt);
    assert!(rt; server.listen(address) == Ok(()));
    cross(rt, &mut server, &mut client, address, ws);
}

#[test]
fn bytes_go_there_and_back(rt: HostRuntime) {
    for (host, named) in HOSTS {
        for ws in [false, true] {
            if let Some(port) = free_port(&rt, host) {
                there_and_back(&rt, rt.alloc(), &at(&rt, rt.alloc(), named, port), ws);
            }
        }
    }
}
