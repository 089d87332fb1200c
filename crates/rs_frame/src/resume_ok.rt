//! RESUME_OK: the server goes on with a session (RSocket 1.0, "RESUME_OK Frame (0x0E)").
//!
//! | type | flags | stream | fields after the header |
//! |---|---|---|---|
//! | 0x0e | | 0 | last received client position of 63 bits |

ghost use Rattle.rs_frame.specs.Views.{Shows};
ghost use Rattle.rs_frame.specs.Reading.{resume_ok_at};

use crate::fault::FrameFault;
use crate::frame_ref::FrameRef;
use crate::header::Header;
use byteorder::{BigEndian, ByteOrder};

/// The RESUME_OK with this header and this position, or the least rule that is broken.
#[tactic(auto, unfolding(crate::specs::Reading::resume_ok_at))]
pub fn find(header: Header, body: &[u8]) -> Result<FrameRef<'_>, FrameFault>
    ensures { Shows result (resume_ok_at header.stream body.now) }
{
    if header.stream != 0 {
        return Err(FrameFault::WrongStream);
    }
    if body.len() < 8 {
        return Err(FrameFault::ShortBody);
    }
    if body.len() > 8 {
        return Err(FrameFault::LongBody);
    }
    let position = BigEndian::read_u64(body);
    if position >= 0x8000_0000_0000_0000 {
        return Err(FrameFault::HighBit);
    }
    Ok(FrameRef::ResumeOk { position })
}
