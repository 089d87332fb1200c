//! Addresses of the loopback, and what two links of it do.

ghost use Rattle.std.specs.Prelude.{◌<◌, length};

use outside::{Given, Link, Net, Taken};
use rs_wire::Blob;
use std::alloc::Global;
use std::net;
use std::net::{TcpListener, TcpStream};
use std::process::Abort;

/// Two frames, of 2 bytes and of 1, each after its length.
pub const FRAMES: [u8; 9] = *b"\x00\x00\x02hi\x00\x00\x01!";

/// A host and a port.
pub fn at<R: Abort>(rt: &R, alloc: Global, host: &str, port: u16) -> Blob {
    let text = format!(in alloc; "{host}:{port}").expect(rt, "there is memory");
    blob(rt, alloc, text.as_bytes())
}

/// These bytes.
pub fn blob<R: Abort>(rt: &R, alloc: Global, bytes: &[u8]) -> Blob {
    Blob::from_slice(alloc, bytes).expect(rt, "there is memory")
}

/// A port of this host that is free for now; None where there is no such host.
pub fn free_port<R>(rt: &R, host: &str) -> Option<u16>
where
    R: net::Net<Listener = TcpListener, Stream = TcpStream>,
{
    let listener = TcpListener::bind(rt, (host, 0u16)).ok()?;
    Some(listener.local_addr().ok()?.port())
}

/// A free port of the loopback.
pub fn free_address<R>(rt: &R, alloc: Global) -> Blob
where
    R: net::Net<Listener = TcpListener, Stream = TcpStream> + Abort,
{
    match free_port(rt, "127.0.0.1") {
        Some(port) => at(rt, alloc, "127.0.0.1", port),
        None => panic!(rt; "there is a loopback"),
    }
}

/// Takes until a piece is whole, in a hundred takes of 10 milliseconds.
pub fn take_all<R: Abort, L: Link>(rt: &R, link: &mut L, piece: &mut [u8]) {
    let mut have = 0;
    for _ in 0..100 {
        if have >= piece.len() {
            return;
        }
        match link.take(&mut piece[have..]) {
            Taken::Took(count) => have += count,
            Taken::Lull => {}
            Taken::End | Taken::Failed => assert!(rt; false, "the link ended"),
        }
    }
    assert!(rt; have >= piece.len(), "nothing came");
}

/// Takes both frames, and then the end.
pub fn take_frames<R: Abort, L: Link>(rt: &R, link: &mut L) {
    let mut piece = [0; 9];
    take_all(rt, link, &mut piece);
    assert!(rt; piece == FRAMES);
    for _ in 0..100 {
        match link.take(&mut piece) {
            Taken::Lull => {}
            Taken::End => return,
            Taken::Took(_) | Taken::Failed => break,
        }
    }
    assert!(rt; false, "the other end closed");
}

/// Accepts a link, and gives back what comes.
pub fn answer<R: Abort, N: Net>(rt: &R, net: &mut N, ws: bool) {
    let Ok(mut link) = net.accept(ws) else {
        panic!(rt; "no link was accepted");
    };
    let mut piece = [0; 9];
    take_all(rt, &mut link, &mut piece);
    assert!(rt; link.give(&piece) == Given::Took(9));
    net.put_back(link);
}

/// Dials, asks, and takes what comes back.
pub fn ask<R: Abort, N: Net>(rt: &R, net: &mut N, address: &Blob, ws: bool) {
    let Ok(mut link) = net.dial(address, ws) else {
        panic!(rt; "no link was dialed");
    };
    assert!(rt; link.give(&FRAMES) == Given::Took(9));
    take_frames(rt, &mut link);
    net.put_back(link);
}
