//! Which frames count for resumption (RSocket 1.0, "Resuming Operation").

ghost use Rattle.std.specs.Prelude.{◌≡◌};
ghost use Rattle.rs_frame.specs.Spelling.{is_resumable};

use crate::frame::Frame;

/// Whether the frame counts in the positions of a session and is sent again after a resumption: the
/// four requests, REQUEST_N, CANCEL, PAYLOAD, and ERROR of a stream.
pub fn resumable(frame: &Frame) -> bool
    ensures { result ≡ is_resumable frame.now }
{
    match frame {
        Frame::Request(_) | Frame::RequestN { .. } | Frame::Cancel { .. } | Frame::Payload { .. } =>
            true,
        Frame::Error { stream, .. } => *stream > 0,
        _ => false,
    }
}
