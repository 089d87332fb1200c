//! ERROR: a stream fails, or on stream 0 the connection (RSocket 1.0, "ERROR Frame (0x0B)").
//!
//! | type | flags | stream | fields after the header |
//! |---|---|---|---|
//! | 0x0b | | any | code of 32 bits; content to the end |

ghost use Rattle.std.specs.Prelude.{◌≡◌, ◌+◌, ◌≤◌, ◌++◌, length, vec_len, vec_capacity};
ghost use Rattle.byteorder.specs.Endian.{big_bytes};
ghost use Rattle.rs_frame.specs.Views.{Shows};
ghost use Rattle.rs_frame.specs.Reading.{error_at};

use crate::cursor::{put, put_u32};
use crate::fault::FrameFault;
use crate::frame_ref::FrameRef;
use crate::header::Header;
use byteorder::{BigEndian, ByteOrder};
use rs_wire::Blob;

/// The ERROR with this header and these fields, or the least rule that is broken. Any code is taken.
#[tactic(auto, unfolding(crate::specs::Reading::error_at))]
pub fn find(header: Header, body: &[u8]) -> Result<FrameRef<'_>, FrameFault>
    ensures { Shows result (error_at header.stream body.now) }
{
    if body.len() < 4 {
        return Err(FrameFault::ShortBody);
    }
    Ok(FrameRef::Error {
        stream: header.stream,
        code: BigEndian::read_u32(body),
        content: &body[4..],
    })
}

/// Appends the fields, for which there is room.
pub fn write(out: &mut Vec<u8>, code: u32, content: &Blob)
    requires { vec_len out.old + 4 + length content.now ≤ vec_capacity out.old }
    ensures { out.new.items ≡ out.old.items ++ (big_bytes 4 code ++ content.now) }
{
    put_u32(out, code);
    put(out, content.as_slice());
}
