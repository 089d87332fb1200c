//! METADATA_PUSH: metadata for the whole connection (RSocket 1.0, "METADATA_PUSH Frame (0x0C)").
//!
//! | type | flags | stream | fields after the header |
//! |---|---|---|---|
//! | 0x0c | M | 0 | metadata to the end |
//!
//! It is written with M, and read with or without it.

ghost use Rattle.rs_frame.specs.Views.{Shows};
ghost use Rattle.rs_frame.specs.Reading.{metadata_push_at};

use crate::fault::FrameFault;
use crate::frame_ref::FrameRef;
use crate::header::Header;

/// The METADATA_PUSH with this header and this metadata, or the least rule that is broken.
#[tactic(auto, unfolding(crate::specs::Reading::metadata_push_at))]
pub fn find(header: Header, body: &[u8]) -> Result<FrameRef<'_>, FrameFault>
    ensures { Shows result (metadata_push_at header.stream body.now) }
{
    if header.stream != 0 {
        return Err(FrameFault::WrongStream);
    }
    Ok(FrameRef::MetadataPush { metadata: body })
}
