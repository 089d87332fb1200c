//! What is kept of a stream that is open, and what is known of a stream id.

use credit::Credit;
use rs_wire::{Kind, Role, Side};

/// The limits of an end on its streams.
#[derive(Clone, Copy, Debug, PartialEq, Eq)]
pub struct Limits {
    /// Which end it is.
    pub side: Side,
    /// How many streams may be open at once, from 1 to 65,536.
    pub max_streams: u32,
    /// The last stream id that this end uses, from 1 to 2,147,483,647.
    pub last_id: u32,
}

/// What is kept of a stream that is open: all that later calls and frames on it depend on, but for
/// what waits to be taken.
#[derive(Clone, Copy, Debug, PartialEq, Eq)]
pub struct Stream {
    /// The part of this end.
    pub role: Role,
    /// The interaction that the stream carries.
    pub kind: Kind,
    /// The initial n of the request, 0 for none.
    pub initial: u32,
    /// The request's own message is whole: no fragment of it is to come.
    pub whole: bool,
    /// The way from the requester to the responder is over.
    pub request_over: bool,
    /// The way back is over.
    pub reply_over: bool,
    /// The credit of the request way, of a channel.
    pub request: Credit,
    /// The credit of the reply way, of a stream or a channel.
    pub reply: Credit,
}

/// What is known of a stream id (RSocket 1.0, "Stream Identifiers").
#[derive(Clone, Copy, Debug, PartialEq, Eq)]
pub enum State {
    /// It is 0, or above the highest id of its parity: there was no such stream yet.
    Above,
    /// The stream is over, or the id was passed over.
    Over,
    /// The stream is open.
    Live {
        /// The interaction that it carries.
        kind: Kind,
        /// The end that made the request.
        opener: Side,
        /// The way from the requester to the responder is over.
        request_over: bool,
        /// The way back is over.
        reply_over: bool,
    },
}
