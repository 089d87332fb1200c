//! Times what two ends say to one another over TCP on the loopback, each by its own thread: items of a
//! stream, and requests of which each waits for the response to the one before; and how much of a
//! processor links take that are idle.
//!
//! Timed, it prints nanoseconds an item and a request, and thousandths of a processor. Else it prints
//! what crossed, in short runs.

mod idle;
mod items;
mod pings;
mod sockets;
mod talks;

use crate::edges::talks::{Talk, cross};
use anyhow::Result;
use std::alloc::Global;
use std::io::Print;
use std::net::{Net, TcpListener, TcpStream};
use std::sync::Wait;
use std::thread::Threads;
use std::time::{Clock, CpuClock};

/// A small item.
const SMALL: &[u8] = b"an item of bytes";

/// How long each part is.
#[derive(Clone, Copy)]
struct Length {
    /// How many items cross.
    items: u32,
    /// How many requests are answered, one after another.
    pings: u32,
    /// How many links are idle.
    links: u32,
    /// For how many milliseconds.
    millis: u64,
}

const TIMED: Length = Length {
    items: 1_000_000,
    pings: 1_000,
    links: 60,
    millis: 3_000,
};

const SHORT: Length = Length {
    items: 1_000,
    pings: 10,
    links: 2,
    millis: 50,
};

/// Times what crosses, or else lets a little cross.
pub fn run<R>(rt: R, alloc: Global, is_timed: bool) -> Result<()>
where
    R: Net<Listener = TcpListener, Stream = TcpStream>
        + Threads
        + Wait
        + Clock
        + CpuClock
        + Print
        + Send
        + Sync
        + Copy
        + Drop
        + 'static,
{
    let length = if is_timed { TIMED } else { SHORT };
    let item = cross(&rt, alloc, Talk::Items, length.items)?;
    let ping = cross(&rt, alloc, Talk::Pings, length.pings)?;
    let idle = idle::wait(rt, alloc, length.links, length.millis)?;
    if is_timed {
        println!(rt; "items {} nanos {item}", length.items)?;
        println!(rt; "pings {} nanos {ping}", length.pings)?;
        println!(rt; "idle {} thousandths {idle}", length.links)?;
    } else {
        println!(rt; "items {}", length.items)?;
        println!(rt; "pings {}", length.pings)?;
        println!(rt; "idle {}", length.links)?;
    }
    Ok(())
}
