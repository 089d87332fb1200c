//! The frame that refuses a connection.

ghost use Rattle.std.specs.Prelude.{◌≡◌, IfOk};
ghost use Rattle.session_model.specs.Frames.{refusal};

use rs_frame::Frame;
use rs_wire::{Blob, OutOfMemory};
use session_model::REJECTED_RESUME;
use std::alloc::Global;
use tape::Answer;

/// The frame that a server gives on a connection whose first frame it refused, and nothing else
/// (RSocket 1.0, "Setup"): for [`Answer::SetupRefused`] the ERROR on stream 0 with the fault's
/// code, for [`Answer::ResumeRefused`] that with the code REJECTED_RESUME, and the fault's word as
/// content. Every other answer has none.
pub fn refusal_frame(alloc: Global, answer: &Answer) -> Result<Option<Frame>, OutOfMemory>
    ensures { IfOk result (λ f. f ≡ refusal answer.now) }
{
    match answer {
        Answer::SetupRefused(fault) => Ok(Some(Frame::Error {
            stream: 0,
            code: setup_core::code_of(fault),
            content: Blob::from_slice(alloc, fault.word().as_bytes())?,
        })),
        Answer::ResumeRefused(gone) => Ok(Some(Frame::Error {
            stream: 0,
            code: REJECTED_RESUME,
            content: Blob::from_slice(alloc, gone.word().as_bytes())?,
        })),
        _ => Ok(None),
    }
}
