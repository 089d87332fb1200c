//! The six bytes before a frame's fields: stream id, type number and flags (RSocket 1.0,
//! "Frame Header Format").

ghost use Rattle.std.specs.Prelude.{◌≡◌, ◌<◌};
ghost use Rattle.rs_frame.specs.Table.{flag};
ghost use Rattle.rs_frame.specs.Spelling.{FieldsFit, bit_if, flags_of, number_of, stream_of};

use crate::frame::Frame;
use crate::{keepalive, lease, payload, request, setup};

/// How many bytes a header has.
pub const HEADER: usize = 6;

/// The flag M: metadata is there.
pub const METADATA: u16 = 0x100;

/// The flag F: fragments of the same message follow.
pub const FOLLOWS: u16 = 0x80;

/// The flag C: the sender's way of the stream is complete.
pub const COMPLETE: u16 = 0x40;

/// A header that was read.
#[derive(Clone, Copy)]
pub struct Header {
    /// The stream id, below 2^31.
    pub stream: u32,
    /// The type number, below 64.
    pub number: u16,
    /// The ten flag bits.
    pub flags: u16,
}

impl Header {
    /// Whether the flag is set.
    pub fn has(self, bit: u16) -> bool
        ensures { result ≡ flag bit self.flags }
    {
        self.flags & bit != 0
    }
}

/// The bit where it is set, else 0.
pub fn bit(is_set: bool, bit: u16) -> u16
    ensures { result ≡ bit_if is_set bit }
{
    if is_set { bit } else { 0 }
}

/// The flags that the frame has, of those that its type names; METADATA_PUSH always has M.
pub fn flags(frame: &Frame) -> u16
    requires { FieldsFit frame.now }
    ensures value { result ≡ flags_of frame.now }
    ensures fits { result < 1024 }
{
    match frame {
        Frame::Setup(fields) => setup::flags(fields),
        Frame::Request(fields) => request::flags(fields.follows, fields.complete, &fields.message),
        Frame::Payload {
            follows,
            complete,
            next,
            message,
            ..
        } => payload::flags(*follows, *complete, *next, message),
        Frame::Lease { metadata, .. } => lease::flags(metadata),
        Frame::Keepalive { respond, .. } => keepalive::flags(*respond),
        Frame::MetadataPush { .. } => METADATA,
        Frame::Ext { flags, .. } | Frame::Unknown { flags, .. } => *flags,
        _ => 0,
    }
}

/// The type number of the frame.
pub fn number(frame: &Frame) -> u16
    requires { FieldsFit frame.now }
    ensures value { result ≡ number_of frame.now }
    ensures fits { result < 64 }
{
    match frame {
        Frame::Setup(_) => 0x01,
        Frame::Lease { .. } => 0x02,
        Frame::Keepalive { .. } => 0x03,
        Frame::Request(fields) => request::number(fields.kind),
        Frame::RequestN { .. } => 0x08,
        Frame::Cancel { .. } => 0x09,
        Frame::Payload { .. } => payload::NUMBER,
        Frame::Error { .. } => 0x0b,
        Frame::MetadataPush { .. } => 0x0c,
        Frame::Resume(_) => 0x0d,
        Frame::ResumeOk { .. } => 0x0e,
        Frame::Ext { .. } => 0x3f,
        Frame::Unknown { number, .. } => u16::from(*number),
    }
}

/// The stream that the frame is of; 0 is the connection.
pub fn stream(frame: &Frame) -> u32
    ensures { result ≡ stream_of frame.now }
{
    match frame {
        Frame::Request(fields) => fields.stream,
        Frame::RequestN { stream, .. }
        | Frame::Cancel { stream }
        | Frame::Payload { stream, .. }
        | Frame::Error { stream, .. }
        | Frame::Ext { stream, .. }
        | Frame::Unknown { stream, .. } => *stream,
        Frame::Setup(_)
        | Frame::Lease { .. }
        | Frame::Keepalive { .. }
        | Frame::MetadataPush { .. }
        | Frame::Resume(_)
        | Frame::ResumeOk { .. } => 0,
    }
}
