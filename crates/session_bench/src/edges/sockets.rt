//! Two ends over sockets of the loopback.

use crate::asks::take_job;
use crate::end::{End, Said, Unlinked};
use anyhow::{Result, bail};
use outside::{Link, Taken};
use rs_chunk::split_frame;
use std::alloc::Global;
use std::io;
use std::net::{Ipv4Addr, Net, SocketAddr, TcpListener, TcpStream};
use std::sync::Wait;
use tcp_end::TcpEnd;

/// An end over TCP.
pub type TcpSide = End<TcpEnd>;

/// How many takes a first frame may need, of 10 milliseconds at most.
const MOST_TAKES: u32 = 1_000;

/// How many turns an end waits for a request at most.
const MOST_TURNS: u32 = 1_000_000;

/// A socket of the loopback, and the one that answers it.
pub fn two_sockets<R>(rt: &R) -> io::Result<(TcpStream, TcpStream)>
where
    R: Net<Listener = TcpListener, Stream = TcpStream>,
{
    let anywhere = SocketAddr::from((Ipv4Addr::LOCALHOST, 0));
    let listener = TcpListener::bind(rt, anywhere)?;
    let near = TcpStream::connect(rt, listener.local_addr()?)?;
    let (far, _) = listener.accept()?;
    Ok((near, far))
}

// The end over its link, where it opened.
fn linked(unlinked: Result<Unlinked>, link: TcpEnd) -> Result<TcpSide> {
    match unlinked {
        Ok(unlinked) => Ok(End { unlinked, link }),
        Err(error) => {
            drop(link);
            Err(error)
        }
    }
}

/// A client over this socket, whose SETUP is due.
pub fn client_over<R: Net + Wait>(rt: &R, alloc: Global, socket: TcpStream) -> Result<TcpSide> {
    let link = TcpEnd::new(rt, alloc, socket)?;
    linked(Unlinked::client(rt, alloc, false), link)
}

// The bytes that come up to the end of the first frame, and some after it.
fn first_bytes(alloc: Global, link: &mut TcpEnd) -> Result<Vec<u8>> {
    let mut bytes = Vec::new(alloc);
    let mut buffer = [0; 256];
    for _ in 0..MOST_TAKES {
        if split_frame(&bytes).is_some() {
            break;
        }
        match link.take(&mut buffer) {
            Taken::Took(count) => bytes.extend_from_slice(&buffer[..count])?,
            Taken::Lull => {}
            Taken::End | Taken::Failed => bail!("no first frame came"),
        }
    }
    Ok(bytes)
}

// The server that the SETUP opens which comes over the link.
fn begun_over<R: Wait>(rt: &R, alloc: Global, link: &mut TcpEnd) -> Result<Unlinked> {
    let bytes = first_bytes(alloc, link)?;
    let begun = Unlinked::server(rt, alloc, false, &bytes);
    drop(bytes);
    begun
}

/// A server over this socket, once a SETUP has come.
pub fn server_over<R: Net + Wait>(rt: &R, alloc: Global, socket: TcpStream) -> Result<TcpSide> {
    let mut link = TcpEnd::new(rt, alloc, socket)?;
    let unlinked = begun_over(rt, alloc, &mut link);
    linked(unlinked, link)
}

/// The stream of the next request that comes to a server.
pub fn next_request<R: Wait>(rt: &R, server: &mut TcpSide) -> Result<u32> {
    for _ in 0..MOST_TURNS {
        let said = server.ask(rt, take_job());
        if let Some(Said::Asked(stream)) = said {
            return Ok(stream);
        }
        server.turn(rt)?;
    }
    bail!("no request came")
}

/// Turns until the other end is gone.
pub fn outlast<R: Wait>(rt: &R, server: &mut TcpSide) {
    for _ in 0..MOST_TURNS {
        if server.turn(rt).is_err() {
            return;
        }
    }
}
