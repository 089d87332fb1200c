//! PAYLOAD: an item, a completion, or a fragment of a message (RSocket 1.0, "PAYLOAD Frame (0x0A)").
//!
//! | type | flags | stream | fields after the header |
//! |---|---|---|---|
//! | 0x0a | M, F 0x80, C 0x40, N 0x20 | above 0 | payload |

ghost use Rattle.std.specs.Prelude.{◌≡◌, ◌+◌, ◌<◌, ◌↔◌, IsTrue, is_some};
ghost use Rattle.rs_frame.specs.Views.{Shows};
ghost use Rattle.rs_frame.specs.Reading.{payload_at};
ghost use Rattle.rs_frame.specs.Spelling.{IsStream, MessageFits, bit_if};

use crate::cursor::is_stream;
use crate::fault::FrameFault;
use crate::frame_ref::FrameRef;
use crate::header::{COMPLETE, FOLLOWS, Header, METADATA, bit};
use crate::parts::{message_fits, parts_of};
use rs_wire::Message;

/// The type number of a PAYLOAD.
pub const NUMBER: u16 = 0x0a;

/// The flag N: the message is an item.
const NEXT: u16 = 0x20;

/// The PAYLOAD with this header and this payload, or the least rule that is broken.
#[tactic(auto, unfolding(crate::specs::Reading::payload_at))]
pub fn find(header: Header, body: &[u8]) -> Result<FrameRef<'_>, FrameFault>
    ensures { Shows result (payload_at header.stream header.flags body.now) }
{
    if header.stream == 0 {
        return Err(FrameFault::WrongStream);
    }
    let Some(message) = parts_of(header.has(METADATA), body) else {
        return Err(FrameFault::MetadataLength);
    };
    Ok(FrameRef::Payload {
        stream: header.stream,
        follows: header.has(FOLLOWS),
        complete: header.has(COMPLETE),
        next: header.has(NEXT),
        message,
    })
}

/// Whether each field is in its range.
pub fn fits(stream: u32, message: &Message) -> bool
    ensures { IsTrue result ↔ IsStream stream × MessageFits message.now }
{
    is_stream(stream) && message_fits(message)
}

/// The flags M, F, C and N as the fields say.
pub fn flags(follows: bool, complete: bool, next: bool, message: &Message) -> u16
    ensures value { result ≡ bit_if (is_some message.now.metadata) 0x100 + bit_if follows 0x80 +
        bit_if complete 0x40 + bit_if next 0x20 }
    ensures fits { result < 1024 }
{
    bit(message.metadata.is_some(), METADATA)
        + bit(follows, FOLLOWS)
        + bit(complete, COMPLETE)
        + bit(next, NEXT)
}
