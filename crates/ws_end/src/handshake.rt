//! Handshakes over a TCP socket (RFC 6455, section 4).

ghost use Rattle.std.specs.Prelude.{◌≡◌, IfOk};
ghost use Rattle.outside.specs.Links.{no_counts};

use crate::keys::ClientKeys;
use crate::sizes::limits;
use crate::ws_end::WsEnd;
use std::alloc::{AllocError, Global};
use std::io;
use std::net::{Net, TcpStream};
use std::random::RandomSource;
use tcp_end::Waiter;
use thiserror::Error;
use tungstenite::handshake::HandshakeRole;
use tungstenite::handshake::client::{request_of, start as start_asking};
use tungstenite::handshake::server::start as start_serving;
use tungstenite::{Error as SocketError, HandshakeError, MidHandshake, NoCallback, NoMask};

/// How often a handshake waits, for 10 milliseconds at most each time: it lasts 5 seconds at most,
/// however slowly the peer sends. The socket refuses a head of more than 64 KiB.
const MOST_WAITS: u32 = 500;

/// Why a handshake gave no link.
#[derive(Debug, Drop, Error)]
pub enum HandshakeFault {
    /// The system, or the random source, refused something.
    #[error("{0}")]
    System(#[from] io::Error),
    /// The peer does not speak WebSocket, or it refused.
    #[error("the WebSocket handshake failed")]
    Refused,
    /// The peer did not finish it within 5 seconds.
    #[error("the WebSocket handshake took too long")]
    Slow,
    /// There was not enough memory.
    #[error("out of memory")]
    OutOfMemory,
}

impl From<AllocError> for HandshakeFault {
    fn from(_error: AllocError) -> HandshakeFault {
        HandshakeFault::OutOfMemory
    }
}

// Why a handshake failed.
fn fault_of(error: &SocketError) -> HandshakeFault {
    match error {
        SocketError::Io(cause) => HandshakeFault::System(io::Error::from(cause.kind())),
        SocketError::OutOfMemory => HandshakeFault::OutOfMemory,
        _ => HandshakeFault::Refused,
    }
}

// Goes on with a handshake until it is done or has failed, or has waited too often.
fn finish<H: HandshakeRole + Drop>(
    mid: MidHandshake<H>,
    waiter: &mut Waiter,
) -> Result<H::Finished, HandshakeFault>
where
    H::Finished: Drop,
{
    let mut mid = mid;
    for _ in 0..MOST_WAITS {
        match mid.handshake() {
            Ok(finished) => return Ok(finished),
            Err(HandshakeError::Interrupted(again)) => {
                mid = again;
                waiter.wait();
            }
            Err(HandshakeError::Failure(error)) => return Err(fault_of(&error)),
        }
    }
    Err(HandshakeFault::Slow)
}

/// A link over a socket that a client opened, once the client has asked for a WebSocket and was
/// answered, at any path. The socket never blocks from now on. Where it fails the socket is closed.
pub fn serve<R: Net>(
    rt: &R,
    alloc: Global,
    stream: TcpStream,
) -> Result<WsEnd<TcpStream, NoMask>, HandshakeFault>
    ensures { IfOk result (λ e. e ≡ no_counts) }
{
    let mut waiter = Waiter::new(rt, alloc, stream.try_clone()?)?;
    let asked = start_serving(alloc, stream, NoCallback, Some(limits()));
    let socket = finish(asked, &mut waiter)?;
    Ok(WsEnd::waiting(alloc, socket, waiter))
}

/// A link over a socket to a server, once the server has answered the request for a WebSocket at
/// the path `/` of this address, a host and a port. The socket never blocks from now on. Where it
/// fails the socket is closed.
pub fn ask<R: Net + RandomSource>(
    rt: &R,
    alloc: Global,
    stream: TcpStream,
    address: &str,
) -> Result<WsEnd<TcpStream, ClientKeys>, HandshakeFault>
    ensures { IfOk result (λ e. e ≡ no_counts) }
{
    let mut waiter = Waiter::new(rt, alloc, stream.try_clone()?)?;
    let mut nonce = [0; 16];
    rt.fill_bytes(&mut nonce)?;
    let keys = ClientKeys::seeded_by(rt)?;
    let uri = format!(in alloc; "ws://{address}/")?;
    let request = match request_of(alloc, &uri) {
        Ok(request) => request,
        Err(error) => return Err(fault_of(&error)),
    };
    let asking = match start_asking(alloc, nonce, keys, request, stream, Some(limits())) {
        Ok(asking) => asking,
        Err(error) => return Err(fault_of(&error)),
    };
    let (socket, _) = finish(asking, &mut waiter)?;
    Ok(WsEnd::waiting(alloc, socket, waiter))
}
