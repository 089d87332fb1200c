//! KEEPALIVE: the sender is alive (RSocket 1.0, "KEEPALIVE Frame (0x03)").
//!
//! | type | flags | stream | fields after the header |
//! |---|---|---|---|
//! | 0x03 | R 0x80 | 0 | position of 63 bits; content to the end |

ghost use Rattle.std.specs.Prelude.{◌≡◌, ◌+◌, ◌<◌, ◌≤◌, ◌^◌, ◌++◌, length, vec_len, vec_capacity};
ghost use Rattle.byteorder.specs.Endian.{big_bytes};
ghost use Rattle.rs_frame.specs.Views.{Shows};
ghost use Rattle.rs_frame.specs.Reading.{keepalive_at};
ghost use Rattle.rs_frame.specs.Spelling.{bit_if};

use crate::cursor::{put, put_u64};
use crate::fault::FrameFault;
use crate::frame_ref::FrameRef;
use crate::header::{Header, bit};
use byteorder::{BigEndian, ByteOrder};
use rs_wire::Blob;

/// The flag R: the sender asks for an answer.
const RESPOND: u16 = 0x80;

/// The KEEPALIVE with this header and these fields, or the least rule that is broken.
#[tactic(auto, unfolding(crate::specs::Reading::keepalive_at))]
pub fn find(header: Header, body: &[u8]) -> Result<FrameRef<'_>, FrameFault>
    ensures { Shows result (keepalive_at header.stream header.flags body.now) }
{
    if header.stream != 0 {
        return Err(FrameFault::WrongStream);
    }
    if body.len() < 8 {
        return Err(FrameFault::ShortBody);
    }
    let position = BigEndian::read_u64(body);
    if position >= 0x8000_0000_0000_0000 {
        return Err(FrameFault::HighBit);
    }
    Ok(FrameRef::Keepalive {
        respond: header.has(RESPOND),
        position,
        content: &body[8..],
    })
}

/// The flag R, where the sender asks for an answer.
pub fn flags(respond: bool) -> u16
    ensures value { result ≡ bit_if respond 0x80 }
    ensures fits { result < 1024 }
{
    bit(respond, RESPOND)
}

/// Appends the fields, for which there is room.
pub fn write(out: &mut Vec<u8>, position: u64, content: &Blob)
    requires { vec_len out.old + 8 + length content.now ≤ vec_capacity out.old }
    ensures { out.new.items ≡ out.old.items ++ (big_bytes 8 position ++ content.now) }
{
    put_u64(out, position);
    put(out, content.as_slice());
}
