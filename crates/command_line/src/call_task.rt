//! What the words of a call ask for.

use rs_wire::{Amount, Blob, Kind};

/// What the words of `call` ask for: one call, and when to give it up.
#[derive(Debug, Drop, PartialEq, Eq)]
pub struct CallTask {
    /// Where the server is, as `HOST:PORT`.
    pub address: Blob,
    /// The interaction.
    pub kind: Kind,
    /// The route of the request. Route and content have at most 16,000,000 bytes together.
    pub route: Blob,
    /// The content of the request.
    pub content: Blob,
    /// `--count`: how many items of a stream or a channel are let in at first, and again each time
    /// that so many were taken; 2,147,483,647 where it is not given.
    pub count: Amount,
    /// `--resume`: the token of a session that resumes, of 1 to 65,535 bytes.
    pub token: Option<Blob>,
    /// `--lease`: requests wait for a lease.
    pub lease: bool,
    /// `--lulls`: after how many lulls the call is given up, 1 to 1,000,000,000; 1,000 where it is
    /// not given.
    pub lulls: u64,
    /// `--tries`: how often another link is dialed, where the session resumes, 0 to 16; 0 where it
    /// is not given.
    pub tries: u32,
    /// `--ws`: over WebSocket, and else over TCP.
    pub ws: bool,
}
