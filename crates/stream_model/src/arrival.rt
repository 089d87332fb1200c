//! What the peer says on the streams, and what it does.

use rs_wire::{Amount, Blob, Kind, Message, Rule};

/// What the peer says on a stream.
#[derive(Debug, Drop)]
pub enum Arrival {
    /// It makes a request (RSocket 1.0, "Request").
    Asked {
        /// The stream.
        stream: u32,
        /// The interaction that the stream carries.
        kind: Kind,
        /// How many payloads this end may send at first: present exactly for a stream and a channel.
        initial: Option<Amount>,
        /// The request's message, and whether the peer sends nothing more; none where fragments follow.
        whole: Option<(Message, bool)>,
    },
    /// A message is whole: the rest of a request's own, or one of PAYLOAD frames (RSocket 1.0, "PAYLOAD
    /// Frame").
    Whole {
        /// The stream.
        stream: u32,
        /// The message.
        message: Message,
        /// The peer sends nothing more on the stream.
        complete: bool,
        /// The message is an item, or the response.
        next: bool,
    },
    /// It lets this end send more items (RSocket 1.0, "REQUEST_N Frame").
    Granted {
        /// The stream.
        stream: u32,
        /// How many more.
        n: Amount,
    },
    /// It wants nothing more of a stream (RSocket 1.0, "CANCEL Frame").
    Canceled {
        /// The stream.
        stream: u32,
    },
    /// It ends a stream by an error (RSocket 1.0, "ERROR Frame").
    Failed {
        /// The stream.
        stream: u32,
        /// The error code.
        code: u32,
        /// What the error says.
        content: Blob,
    },
    /// It makes a request that its lease does not cover: the id is used, and opens no stream (RSocket 1.0,
    /// "Lease Semantics").
    PassedOver {
        /// The stream.
        stream: u32,
    },
    /// It sends metadata for the whole connection (RSocket 1.0, "METADATA_PUSH Frame").
    Pushed {
        /// The metadata.
        metadata: Blob,
    },
}

/// What an arrival does.
#[derive(Clone, Copy, Debug, PartialEq, Eq)]
pub enum Effect {
    /// It is used.
    Used,
    /// It is counted, and changes no stream that is open.
    Ignored,
    /// As many streams as the limits allow are open: the request opens none, and is to be answered by an
    /// ERROR.
    TooMany,
    /// It breaks this rule of the protocol, and changes nothing.
    Broken(Rule),
}
