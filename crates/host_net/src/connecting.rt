//! Sockets that are opened, and links that are given up, in a bounded time.

use crate::link::HostLink;
use outside::{Link, Taken};
use std::io::ErrorKind;
use std::net::{TcpListener, TcpStream, ToSocketAddrs};
use std::time::{Clock, Duration, Instant};
use std::{io, net};

/// How long connecting may take, in milliseconds, over all the addresses of a name.
const CONNECT_MILLIS: u64 = 20_000;

/// How long a link that is given up is read on, in milliseconds.
const DRAIN_MILLIS: u64 = 200;

/// How many bytes one read of such a link drops at most.
const DRAIN_PIECE: usize = 16_384;

/// How many such reads there are at most.
const MOST_DRAINS: u32 = 1_000_000;

/// The pause after the first dial that failed, in milliseconds. Each further one doubles it.
const FIRST_PAUSE: u64 = 100;

/// The longest pause between two dials, in milliseconds.
const LAST_PAUSE: u64 = 3_000;

/// How many connections may fail before they are accepted, as a peer goes away, until an accept fails.
const MOST_LOST: u32 = 1024;

/// The pause that follows a dial that failed after this pause, in milliseconds.
pub(crate) fn longer_pause(pause: u64) -> u64 {
    pause.saturating_mul(2).clamp(FIRST_PAUSE, LAST_PAUSE)
}

// A time, unless more than this has passed since the start.
fn left_of<R: Clock>(rt: &R, start: &Instant, millis: u64) -> Option<Duration> {
    let passed = start.elapsed(rt).ok()?;
    let left = Duration::from_millis(millis).saturating_sub(passed);
    if left.is_zero() { None } else { Some(left) }
}

/// A socket to an address, as `127.0.0.1:7878`, `[::1]:7878` or `localhost:7878`. Where a name has
/// several addresses they are tried in their order, within 20 seconds together; how long the system
/// looks for a name is its own affair.
pub(crate) fn connect<R>(rt: &R, address: &str) -> io::Result<TcpStream>
where
    R: net::Net<Listener = TcpListener, Stream = TcpStream> + Clock,
{
    let start = Instant::now(rt)?;
    let mut last = io::Error::from(ErrorKind::InvalidInput);
    for found in address.to_socket_addrs(rt)? {
        let Some(left) = left_of(rt, &start, CONNECT_MILLIS) else {
            return Err(io::Error::from(ErrorKind::TimedOut));
        };
        match TcpStream::connect_timeout(rt, &found, left) {
            Ok(stream) => return Ok(stream),
            Err(error) => last = error,
        }
    }
    Err(last)
}

/// The next socket that others open. It waits in the system alone, for ever.
pub(crate) fn next_socket(listener: &TcpListener) -> io::Result<TcpStream> {
    for _ in 0..MOST_LOST {
        match listener.accept() {
            Ok((stream, _)) => return Ok(stream),
            Err(error) => {
                let lost = matches!(
                    error.kind(),
                    ErrorKind::ConnectionAborted | ErrorKind::Interrupted
                );
                if !lost {
                    return Err(error);
                }
            }
        }
    }
    Err(io::Error::from(ErrorKind::ConnectionAborted))
}

/// Reads a link that is given up until its peer ends it, too, for 200 milliseconds at most, and
/// drops what comes. From a socket that is let go with bytes unread the system sends a reset, and
/// the peer may lose the last frame that was given.
pub(crate) fn drain<R: Clock>(rt: &R, link: &mut HostLink) {
    let Ok(start) = Instant::now(rt) else {
        return;
    };
    let mut buffer = [0; DRAIN_PIECE];
    for _ in 0..MOST_DRAINS {
        match link.take(&mut buffer) {
            Taken::Took(_) | Taken::Lull => {}
            Taken::End | Taken::Failed => return,
        }
        if left_of(rt, &start, DRAIN_MILLIS).is_none() {
            return;
        }
    }
}
