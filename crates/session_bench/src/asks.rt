//! What callers ask on streams.

ghost use Rattle.rs_wire.specs.Calls.{CanBeAsked};

use rs_wire::{Amount, Blob, Call, Kind, Message};

/// The most items that a request grants, 2^31 - 1.
const MOST: u32 = 2_147_483_647;

// Content without metadata.
fn plain(content: Blob) -> Message {
    Message {
        metadata: None,
        content,
    }
}

/// A request that has one response.
pub fn request_response(content: Blob) -> Call
    ensures { CanBeAsked result }
{
    Call::Request {
        kind: Kind::Response,
        initial: None,
        message: plain(content),
        complete: false,
    }
}

/// A stream of as many items as can be granted.
pub fn request_stream(content: Blob) -> Call
    ensures { CanBeAsked result }
{
    Call::Request {
        kind: Kind::Stream,
        initial: Amount::of(MOST),
        message: plain(content),
        complete: false,
    }
}

/// An item on a stream, the last one where it is complete.
pub fn item(stream: u32, content: Blob, complete: bool) -> Call
    ensures { CanBeAsked result }
{
    Call::Next {
        stream,
        message: plain(content),
        complete,
    }
}

/// The response to a request on a stream.
pub fn respond(stream: u32, content: Blob) -> Call
    ensures { CanBeAsked result }
{
    Call::Next {
        stream,
        message: plain(content),
        complete: true,
    }
}

/// Takes what came next on a stream.
pub fn take_next(stream: u32) -> Call
    ensures { CanBeAsked result }
{
    Call::Take { stream }
}

/// Takes a request of the peer's.
pub fn take_job() -> Call
    ensures { CanBeAsked result }
{
    Call::TakeJob
}
