//! REQUEST_N: the sender allows more payloads (RSocket 1.0, "REQUEST_N Frame (0x08)").
//!
//! | type | flags | stream | fields after the header |
//! |---|---|---|---|
//! | 0x08 | | above 0 | n of 31 bits, above 0 |

ghost use Rattle.rs_frame.specs.Views.{Shows};
ghost use Rattle.rs_frame.specs.Reading.{request_n_at};

use crate::fault::FrameFault;
use crate::frame_ref::FrameRef;
use crate::header::Header;
use byteorder::{BigEndian, ByteOrder};
use rs_wire::Amount;

/// The REQUEST_N with this header and this n, or the least rule that is broken.
#[tactic(auto, unfolding(crate::specs::Reading::request_n_at))]
pub fn find(header: Header, body: &[u8]) -> Result<FrameRef<'_>, FrameFault>
    ensures { Shows result (request_n_at header.stream body.now) }
{
    if header.stream == 0 {
        return Err(FrameFault::WrongStream);
    }
    if body.len() < 4 {
        return Err(FrameFault::ShortBody);
    }
    if body.len() > 4 {
        return Err(FrameFault::LongBody);
    }
    let n = BigEndian::read_u32(body);
    if n == 0 {
        return Err(FrameFault::ZeroNumber);
    }
    match Amount::of(n) {
        None => Err(FrameFault::HighBit),
        Some(n) => Ok(FrameRef::RequestN {
            stream: header.stream,
            n,
        }),
    }
}
