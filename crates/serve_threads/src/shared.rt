//! What all threads of a server share.

use conn::Connection;
use handlers::{Handler, Routes};
use rs_wire::{Amount, Checked};
use session_table::Sessions;
use std::alloc::Global;
use std::sync::Mutex;
use tape::Tape;

/// What all threads of a server share. K is the clock.
#[derive(Clone, Copy)]
pub(crate) struct Shared<'a, T: Tape, K, F: Handler> {
    pub alloc: Global,
    /// The connections, one for each slot.
    pub connections: &'a [Connection<T>],
    /// Which token is at which slot.
    pub table: &'a Mutex<Sessions>,
    pub clock: &'a K,
    pub routes: &'a Routes<F>,
    /// The settings of all sessions.
    pub settings: &'a Checked,
    /// How many requests each client is granted, where some are.
    pub grant: Option<Amount>,
    /// Whether links are accepted over WebSocket.
    pub ws: bool,
}
