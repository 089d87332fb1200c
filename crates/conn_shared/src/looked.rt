//! What a session is like at one moment.

use rs_wire::Cause;

/// What a session is like at one moment.
#[derive(Clone, Copy, Debug, PartialEq, Eq)]
pub struct Looked {
    /// The number of the live connection, 0 for none.
    pub live: u64,
    /// How many bytes wait to be drawn.
    pub queued: u64,
    /// Whether frames that are made go out at once.
    pub carrying: bool,
    /// Why the session is closed, where it is.
    pub cause: Option<Cause>,
}
