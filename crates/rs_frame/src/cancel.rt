//! CANCEL: the sender wants no more of a stream (RSocket 1.0, "CANCEL Frame (0x09)").
//!
//! | type | flags | stream | fields after the header |
//! |---|---|---|---|
//! | 0x09 | | above 0 | none |

ghost use Rattle.rs_frame.specs.Views.{Shows};
ghost use Rattle.rs_frame.specs.Reading.{cancel_at};

use crate::fault::FrameFault;
use crate::frame_ref::FrameRef;
use crate::header::Header;

/// The CANCEL with this header and nothing after it, or the least rule that is broken.
#[tactic(auto, unfolding(crate::specs::Reading::cancel_at))]
pub fn find(header: Header, body: &[u8]) -> Result<FrameRef<'_>, FrameFault>
    ensures { Shows result (cancel_at header.stream body.now) }
{
    if header.stream == 0 {
        return Err(FrameFault::WrongStream);
    }
    if !body.is_empty() {
        return Err(FrameFault::LongBody);
    }
    Ok(FrameRef::Cancel {
        stream: header.stream,
    })
}
