//! What two ends say to one another over a socket of the loopback, each by its own thread.

use crate::edges::sockets::{TcpSide, client_over, server_over, two_sockets};
use crate::edges::{items, pings};
use crate::times::{nanos_since, now};
use anyhow::Result;
use std::alloc::Global;
use std::net::{Net, TcpListener, TcpStream};
use std::sync::Wait;
use std::thread::{Threads, join};
use std::time::Clock;

/// What they say.
#[derive(Clone, Copy)]
pub enum Talk {
    /// Items of one stream, to the client.
    Items,
    /// Requests, each made once the response to the one before is there.
    Pings,
}

impl Talk {
    fn ask<R: Wait>(self, rt: &R, alloc: Global, client: &mut TcpSide, count: u32) -> Result<()> {
        match self {
            Talk::Items => items::ask(rt, alloc, client, count),
            Talk::Pings => pings::ask(rt, alloc, client, count),
        }
    }

    fn serve<R: Wait>(self, rt: &R, alloc: Global, server: &mut TcpSide, count: u32) -> Result<()> {
        match self {
            Talk::Items => items::serve(rt, alloc, server, count),
            Talk::Pings => pings::serve(rt, alloc, server, count),
        }
    }
}

// The client's part, over this socket.
fn ask_over<R: Net + Wait>(
    rt: &R,
    alloc: Global,
    socket: TcpStream,
    talk: Talk,
    count: u32,
) -> Result<()> {
    let mut client = client_over(rt, alloc, socket)?;
    let asked = talk.ask(rt, alloc, &mut client, count);
    client.close();
    asked
}

// The server's part, over this socket.
fn serve_over<R: Net + Wait>(
    rt: &R,
    alloc: Global,
    socket: TcpStream,
    talk: Talk,
    count: u32,
) -> Result<()> {
    let mut server = server_over(rt, alloc, socket)?;
    let served = talk.serve(rt, alloc, &mut server, count);
    server.close();
    served
}

/// So many items or requests cross, and none is lost. How many nanoseconds each took.
pub fn cross<R>(rt: &R, alloc: Global, talk: Talk, count: u32) -> Result<u64>
where
    R: Net<Listener = TcpListener, Stream = TcpStream> + Threads + Wait + Clock + Sync,
{
    let (near, far) = two_sockets(rt)?;
    let start = now(rt);
    let (asked, served) = join(
        rt,
        move || ask_over(rt, alloc, near, talk, count),
        move || serve_over(rt, alloc, far, talk, count),
    );
    let nanos = nanos_since(rt, start, count);
    served?;
    asked?;
    Ok(nanos)
}
