//! A frame that lies in its bytes: what it carries is borrowed from them, and nothing is copied.

ghost use Rattle.std.specs.Prelude.{◌≡◌, IfOk, IsOk};
ghost use Rattle.rs_frame.specs.Views.{IsBare, IsBareMessage, frame_view, parts_view, request_view, resume_view, setup_view};

use crate::frame::{Frame, Request, Resume, Setup};
use crate::parts::{Parts, owned, owned_bytes, owned_option};
use rs_wire::{Amount, Blob, Kind, OutOfMemory};
use std::alloc::Global;

/// A [`Setup`] that lies in its bytes.
#[derive(Clone, Copy, Debug)]
pub struct SetupRef<'a> {
    /// The token by which the session may be resumed.
    pub resume: Option<&'a [u8]>,
    /// Whether the client keeps to leases.
    pub lease: bool,
    /// The major version of the protocol.
    pub major: u16,
    /// The minor version of the protocol.
    pub minor: u16,
    /// The client's time between two KEEPALIVE frames, in milliseconds.
    pub keepalive: Amount,
    /// How long the client waits for a sign of life, in milliseconds.
    pub lifetime: Amount,
    /// The MIME type of metadata.
    pub metadata_mime: &'a [u8],
    /// The MIME type of content.
    pub content_mime: &'a [u8],
    /// The payload of the connection's setup.
    pub message: Parts<'a>,
}

/// A [`Request`] that lies in its bytes.
#[derive(Clone, Copy, Debug)]
pub struct RequestRef<'a> {
    /// The stream that the request begins.
    pub stream: u32,
    /// Which of the four requests it is.
    pub kind: Kind,
    /// Whether fragments of this message follow.
    pub follows: bool,
    /// Whether the requester sends nothing after this message.
    pub complete: bool,
    /// How many payloads the responder may send at first.
    pub initial: Option<Amount>,
    /// The payload.
    pub message: Parts<'a>,
}

/// A [`Resume`] that lies in its bytes.
#[derive(Clone, Copy, Debug)]
pub struct ResumeRef<'a> {
    /// The major version of the protocol.
    pub major: u16,
    /// The minor version of the protocol.
    pub minor: u16,
    /// The token of the session.
    pub token: &'a [u8],
    /// Up to where the client has received from the server.
    pub server_position: u64,
    /// From where the client can send again.
    pub client_position: u64,
}

/// A [`Frame`] that lies in its bytes: it has the same variants and fields.
#[derive(Clone, Copy, Debug)]
pub enum FrameRef<'a> {
    /// The client opens a session.
    Setup(SetupRef<'a>),
    /// The sender allows requests.
    Lease {
        /// How long the lease holds from its coming, in milliseconds.
        ttl: u32,
        /// How many requests it allows.
        count: u32,
        /// Metadata of any length.
        metadata: Option<&'a [u8]>,
    },
    /// The sender is alive.
    Keepalive {
        /// Whether the sender asks for an answer.
        respond: bool,
        /// Up to where the sender has received.
        position: u64,
        /// What the answer is to carry back.
        content: &'a [u8],
    },
    /// Metadata for the whole connection.
    MetadataPush {
        /// The metadata.
        metadata: &'a [u8],
    },
    /// The client goes on with a session.
    Resume(ResumeRef<'a>),
    /// The server goes on with a session.
    ResumeOk {
        /// Up to where the server has received.
        position: u64,
    },
    /// A frame of an extension.
    Ext {
        /// The stream, or 0.
        stream: u32,
        /// The ten flag bits.
        flags: u16,
        /// The extension's own type.
        extended: u32,
        /// What stands after it.
        rest: &'a [u8],
    },
    /// A requester begins a stream.
    Request(RequestRef<'a>),
    /// The sender allows more payloads.
    RequestN {
        /// The stream.
        stream: u32,
        /// How many more payloads may come.
        n: Amount,
    },
    /// The sender wants no more of the stream.
    Cancel {
        /// The stream.
        stream: u32,
    },
    /// An item, a completion, or a fragment of a message.
    Payload {
        /// The stream.
        stream: u32,
        /// Whether fragments of this message follow.
        follows: bool,
        /// Whether the sender sends nothing after this message.
        complete: bool,
        /// Whether the message is an item.
        next: bool,
        /// The payload.
        message: Parts<'a>,
    },
    /// A stream, or on stream 0 the connection, fails.
    Error {
        /// The stream, or 0.
        stream: u32,
        /// The error code.
        code: u32,
        /// What the error says.
        content: &'a [u8],
    },
    /// A frame of a type that is none of these.
    Unknown {
        /// The stream, or 0.
        stream: u32,
        /// The type number.
        number: u8,
        /// The ten flag bits.
        flags: u16,
        /// What stands after the header.
        rest: &'a [u8],
    },
}

fn owned_setup(alloc: Global, at: &SetupRef<'_>) -> Result<Setup, OutOfMemory>
    ensures { IfOk result (λ s. s ≡ setup_view at.now) }
{
    let resume = owned_option(alloc, at.resume)?;
    let metadata_mime = Blob::from_slice(alloc, at.metadata_mime)?;
    let content_mime = Blob::from_slice(alloc, at.content_mime)?;
    let message = owned(alloc, at.message)?;
    Ok(Setup {
        resume,
        lease: at.lease,
        major: at.major,
        minor: at.minor,
        keepalive: at.keepalive,
        lifetime: at.lifetime,
        metadata_mime,
        content_mime,
        message,
    })
}

fn owned_request(alloc: Global, at: &RequestRef<'_>) -> Result<Request, OutOfMemory>
    ensures request { IfOk result (λ r. r ≡ request_view at.now) }
    ensures bare { IsBareMessage (parts_view at.now.message) → IsOk result }
{
    let message = owned(alloc, at.message)?;
    Ok(Request {
        stream: at.stream,
        kind: at.kind,
        follows: at.follows,
        complete: at.complete,
        initial: at.initial,
        message,
    })
}

fn owned_resume(alloc: Global, at: &ResumeRef<'_>) -> Result<Resume, OutOfMemory>
    ensures { IfOk result (λ r. r ≡ resume_view at.now) }
{
    let token = Blob::from_slice(alloc, at.token)?;
    Ok(Resume {
        major: at.major,
        minor: at.minor,
        token,
        server_position: at.server_position,
        client_position: at.client_position,
    })
}

impl FrameRef<'_> {
    /// The frame, with bytes of its own. It takes no memory where the frame carries none: REQUEST_N,
    /// CANCEL and RESUME_OK, and every other but SETUP and RESUME without metadata and content.
    pub fn to_frame(&self, alloc: Global) -> Result<Frame, OutOfMemory>
        ensures frame { IfOk result (λ f. f ≡ frame_view self.now) }
        ensures bare { IsBare (frame_view self.now) → IsOk result }
    {
        Ok(match self {
            FrameRef::Setup(fields) => Frame::Setup(owned_setup(alloc, fields)?),
            FrameRef::Request(fields) => Frame::Request(owned_request(alloc, fields)?),
            FrameRef::Resume(fields) => Frame::Resume(owned_resume(alloc, fields)?),
            FrameRef::RequestN { stream, n } => Frame::RequestN {
                stream: *stream,
                n: *n,
            },
            FrameRef::Cancel { stream } => Frame::Cancel { stream: *stream },
            FrameRef::ResumeOk { position } => Frame::ResumeOk {
                position: *position,
            },
            FrameRef::Lease {
                ttl,
                count,
                metadata,
            } => Frame::Lease {
                ttl: *ttl,
                count: *count,
                metadata: owned_option(alloc, *metadata)?,
            },
            FrameRef::Keepalive {
                respond,
                position,
                content,
            } => Frame::Keepalive {
                respond: *respond,
                position: *position,
                content: owned_bytes(alloc, content)?,
            },
            FrameRef::MetadataPush { metadata } => Frame::MetadataPush {
                metadata: owned_bytes(alloc, metadata)?,
            },
            FrameRef::Payload {
                stream,
                follows,
                complete,
                next,
                message,
            } => Frame::Payload {
                stream: *stream,
                follows: *follows,
                complete: *complete,
                next: *next,
                message: owned(alloc, *message)?,
            },
            FrameRef::Error {
                stream,
                code,
                content,
            } => Frame::Error {
                stream: *stream,
                code: *code,
                content: owned_bytes(alloc, content)?,
            },
            FrameRef::Ext {
                stream,
                flags,
                extended,
                rest,
            } => Frame::Ext {
                stream: *stream,
                flags: *flags,
                extended: *extended,
                rest: owned_bytes(alloc, rest)?,
            },
            FrameRef::Unknown {
                stream,
                number,
                flags,
                rest,
            } => Frame::Unknown {
                stream: *stream,
                number: *number,
                flags: *flags,
                rest: owned_bytes(alloc, rest)?,
            },
        })
    }
}
