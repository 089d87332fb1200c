//! A link of the host.

ghost use Rattle.host_net.specs.Hosts.{shown_of_host};

use bell::Bell;
use outside::{Given, Link, Taken};
use std::net::TcpStream;
use std::sync::{Arc, Wait};
use tcp_end::TcpEnd;
use tungstenite::NoMask;
use ws_end::{ClientKeys, WsEnd};

/// A link over TCP or over WebSocket. Contracts see its counts alone.
#[derive(Drop)]
pub enum HostLink {
    /// Over TCP.
    Tcp(TcpEnd),
    /// Over WebSocket, accepted: what it sends is not masked.
    Served(WsEnd<TcpStream, NoMask>),
    /// Over WebSocket, dialed: what it sends is masked.
    Asked(WsEnd<TcpStream, ClientKeys>),
}

impl Link for HostLink {
    ghost use Rattle.host_net.specs.Hosts.{shown_of_host};

    ghost shown = { shown_of_host };

    fn take(&mut self, buffer: &mut [u8]) -> Taken {
        match self {
            HostLink::Tcp(end) => end.take(buffer),
            HostLink::Served(end) => end.take(buffer),
            HostLink::Asked(end) => end.take(buffer),
        }
    }

    fn give(&mut self, piece: &[u8]) -> Given {
        match self {
            HostLink::Tcp(end) => end.give(piece),
            HostLink::Served(end) => end.give(piece),
            HostLink::Asked(end) => end.give(piece),
        }
    }

    fn hear<R: Wait>(&mut self, rt: &R, bell: &Arc<Bell>) {
        match self {
            HostLink::Tcp(end) => end.hear(rt, bell),
            HostLink::Served(end) => end.hear(rt, bell),
            HostLink::Asked(end) => end.hear(rt, bell),
        }
    }

    /// Says so over TCP by the end of what is sent, and over WebSocket by a close before it.
    fn close(&mut self) {
        match self {
            HostLink::Tcp(end) => end.close(),
            HostLink::Served(end) => end.close(),
            HostLink::Asked(end) => end.close(),
        }
    }
}
