//! EXT: a frame of an extension (RSocket 1.0, "EXT (Extension) Frame (0x3F)").
//!
//! | type | flags | stream | fields after the header |
//! |---|---|---|---|
//! | 0x3f | all ten are kept | any | extended type of 31 bits; bytes to the end |

ghost use Rattle.std.specs.Prelude.{◌≡◌, ◌+◌, ◌<◌, ◌≤◌, ◌^◌, ◌++◌, ◌↔◌, IsTrue, length, vec_len, vec_capacity};
ghost use Rattle.byteorder.specs.Endian.{big_bytes};
ghost use Rattle.rs_frame.specs.Views.{Shows};
ghost use Rattle.rs_frame.specs.Reading.{ext_at};

use crate::cursor::{is_31, put, put_u32};
use crate::fault::FrameFault;
use crate::frame_ref::FrameRef;
use crate::header::Header;
use byteorder::{BigEndian, ByteOrder};
use rs_wire::Blob;

/// The EXT with this header and these fields, or the least rule that is broken.
#[tactic(auto, unfolding(crate::specs::Reading::ext_at))]
pub fn find(header: Header, body: &[u8]) -> Result<FrameRef<'_>, FrameFault>
    ensures { Shows result (ext_at header.stream header.flags body.now) }
{
    if body.len() < 4 {
        return Err(FrameFault::ShortBody);
    }
    let extended = BigEndian::read_u32(body);
    if extended >= 0x8000_0000 {
        return Err(FrameFault::HighBit);
    }
    Ok(FrameRef::Ext {
        stream: header.stream,
        flags: header.flags,
        extended,
        rest: &body[4..],
    })
}

/// Whether each field is in its range.
pub fn fits(stream: u32, flags: u16, extended: u32) -> bool
    ensures { IsTrue result ↔ (stream < 2 ^ 31) × (flags < 1024) × (extended < 2 ^ 31) }
{
    is_31(stream) && flags < 1024 && is_31(extended)
}

/// Appends the fields, for which there is room.
pub fn write(out: &mut Vec<u8>, extended: u32, rest: &Blob)
    requires { vec_len out.old + 4 + length rest.now ≤ vec_capacity out.old }
    ensures { out.new.items ≡ out.old.items ++ (big_bytes 4 extended ++ rest.now) }
{
    put_u32(out, extended);
    put(out, rest.as_slice());
}
