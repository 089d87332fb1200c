//! What the words of a server ask for.

use rs_wire::{Amount, Blob};

/// What the words of `serve` ask for: where links are accepted, and how they are served.
#[derive(Debug, Drop, PartialEq, Eq)]
pub struct ServeTask {
    /// Where links are accepted, as `HOST:PORT`.
    pub address: Blob,
    /// `--connections`: how many links are accepted, 1 to 64.
    pub connections: u32,
    /// `--workers`: how many threads answer the requests of a connection, 1 to 16; 1 where it is not
    /// given.
    pub workers: u32,
    /// `--lease`: how many requests are let in for 60,000 ms after each opening; where it is not
    /// given, requests need no lease.
    pub lease: Option<Amount>,
    /// `--resume`: sessions can be resumed.
    pub resume: bool,
    /// `--ws`: over WebSocket, and else over TCP.
    pub ws: bool,
}
