//! What crossed to an end and did not come there yet.

ghost use Rattle.std.specs.Prelude.{◌≡◌, ◌<◌, ◌^◌, IfOk};
ghost use Rattle.cable.specs.Played.{event_of as event_meant};
ghost use Rattle.cable.specs.Hearing.{IsNextOf, IsSpelledInFront, too_long, whole_in};

use rs_chunk::{Front, Reader};
use rs_frame::{Frame, FrameFault, decode};
use rs_wire::OutOfMemory;
use session_model::LONG_FRAME;
use std::alloc::Global;
use tape::Event;

/// What stands in front of the bytes that crossed.
#[derive(Drop)]
pub(crate) enum Arrival {
    /// A whole frame.
    Whole(Frame),
    /// The length of a frame that is longer than the end takes.
    TooLong,
}

/// What it is at the end to which it crossed, on a connection that is open there.
pub(crate) fn event_of(conn: u64, arrival: Arrival) -> Event
    ensures { result ≡ event_meant conn arrival }
{
    match arrival {
        Arrival::Whole(frame) => Event::Came { conn, frame },
        Arrival::TooLong => Event::Bad {
            conn,
            rule: LONG_FRAME,
        },
    }
}

/// Nothing can come after it.
pub(crate) fn is_too_long(arrival: &Arrival) -> bool
    ensures { result ≡ too_long arrival.now }
{
    matches!(arrival, Arrival::TooLong)
}

/// The frame, where it is one.
pub(crate) fn whole(next: Option<Arrival>) -> Option<Frame>
    ensures { result ≡ whole_in next }
{
    match next {
        Some(Arrival::Whole(frame)) => Some(frame),
        Some(Arrival::TooLong) | None => None,
    }
}

/// What stands in front of what crossed. The other end wrote it, so its frames are right, and only
/// memory can run out.
pub(crate) fn next(alloc: Global, crossing: &Reader) -> Result<Option<Arrival>, OutOfMemory>
    requires longest { crossing.now.max_in < 2 ^ 24 }
    requires spelled { IsSpelledInFront crossing.now }
    ensures { IfOk result (IsNextOf crossing.now) }
{
    let bytes = match crossing.front() {
        Front::Whole(bytes) => bytes,
        Front::TooLong(_) => return Ok(Some(Arrival::TooLong)),
        Front::Part => return Ok(None),
    };
    match decode(alloc, bytes) {
        Ok(frame) => Ok(Some(Arrival::Whole(frame))),
        Err(fault) => match fault {
            FrameFault::OutOfMemory => Err(OutOfMemory),
            _ => unreachable!(),
        },
    }
}
