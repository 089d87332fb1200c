//! The names of frame types (RSocket 1.0, "Frame Types").

ghost use Rattle.std.specs.Prelude.{◌≡◌};
ghost use Rattle.frame_text.specs.Names.{frame_name, kind_name};

use rs_frame::Frame;
use rs_wire::Kind;

/// The name of the request frame of this kind.
pub fn kind_name(kind: Kind) -> &'static str
    ensures { result.now ≡ kind_name kind }
{
    match kind {
        Kind::Response => "REQUEST_RESPONSE",
        Kind::Fnf => "REQUEST_FNF",
        Kind::Stream => "REQUEST_STREAM",
        Kind::Channel => "REQUEST_CHANNEL",
    }
}

/// The name of the frame's type.
pub fn frame_name(frame: &Frame) -> &'static str
    ensures { result.now ≡ frame_name frame.now }
{
    match frame {
        Frame::Setup(_) => "SETUP",
        Frame::Lease { .. } => "LEASE",
        Frame::Keepalive { .. } => "KEEPALIVE",
        Frame::Request(fields) => kind_name(fields.kind),
        Frame::RequestN { .. } => "REQUEST_N",
        Frame::Cancel { .. } => "CANCEL",
        Frame::Payload { .. } => "PAYLOAD",
        Frame::Error { .. } => "ERROR",
        Frame::MetadataPush { .. } => "METADATA_PUSH",
        Frame::Resume(_) => "RESUME",
        Frame::ResumeOk { .. } => "RESUME_OK",
        Frame::Ext { .. } => "EXT",
        Frame::Unknown { .. } => "UNKNOWN",
    }
}
