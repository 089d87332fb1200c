//! What serves links.

use conn::Connection;
use handlers::{Handler, Routes};
use rs_wire::{Amount, Checked};
use session_table::Sessions;
use std::alloc::Global;
use std::sync::Mutex;
use tape::Tape;

/// What stays the same while a link is served. K is the clock.
#[derive(Clone, Copy)]
pub(crate) struct Host<'a, T: Tape, K, F: Handler> {
    pub(crate) alloc: Global,
    pub(crate) clock: &'a K,
    /// The slot of the link.
    pub(crate) slot: u32,
    /// The connections, one for each slot.
    pub(crate) connections: &'a [Connection<T>],
    /// Which token is at which slot.
    pub(crate) table: &'a Mutex<Sessions>,
    /// The settings of all sessions.
    pub(crate) settings: &'a Checked,
    pub(crate) routes: &'a Routes<F>,
    /// How many requests the client is granted, where some are.
    pub(crate) grant: Option<Amount>,
}

/// An opening that was accepted: at which slot, of which connection, and its number there.
#[derive(Clone, Copy)]
pub(crate) struct Begun<'a, T: Tape> {
    pub(crate) at: u32,
    pub(crate) connection: &'a Connection<T>,
    pub(crate) conn: u64,
}
