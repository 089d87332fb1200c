//! What a caller asks of a session.

ghost use Rattle.std.specs.Prelude.{◌≡◌, IfOk};
ghost use Rattle.rs_wire.specs.Calls.{fire_and_forget, is_stream_code};

use crate::amount::Amount;
use crate::blob::Blob;
use crate::memory::OutOfMemory;
use crate::message::Message;
use crate::words::Kind;
use std::alloc::Global;

/// What a caller asks of a session.
#[derive(Debug, Drop, PartialEq, Eq)]
pub enum Call {
    /// Starts a stream (RSocket 1.0, "Request").
    Request {
        /// The interaction that the stream carries.
        kind: Kind,
        /// How many payloads the responder may send at first: present exactly for a stream and a
        /// channel.
        initial: Option<Amount>,
        /// What the request carries.
        message: Message,
        /// The requester sends nothing more: true only for a channel.
        complete: bool,
    },
    /// Sends a payload on a stream (RSocket 1.0, "PAYLOAD Frame"): an item of a stream or a channel,
    /// or the one response.
    Next {
        /// The stream.
        stream: u32,
        /// What the payload carries.
        message: Message,
        /// This end sends nothing more on the stream.
        complete: bool,
    },
    /// Sends nothing more on a stream, and no payload with it.
    Done {
        /// The stream.
        stream: u32,
    },
    /// Lets the peer send more items on a stream (RSocket 1.0, "REQUEST_N Frame").
    Grant {
        /// The stream.
        stream: u32,
        /// How many more.
        n: Amount,
    },
    /// Wants nothing more of a stream: the requester ends it, the responder of a channel ends what the
    /// requester sends (RSocket 1.0, "CANCEL Frame").
    Cancel {
        /// The stream.
        stream: u32,
    },
    /// Ends a stream by an error (RSocket 1.0, "ERROR Frame").
    Fail {
        /// The stream.
        stream: u32,
        /// The error code, for which [`is_stream_code`] is true.
        code: u32,
        /// What the error says.
        content: Blob,
    },
    /// Sends metadata for the whole connection (RSocket 1.0, "METADATA_PUSH Frame").
    Push {
        /// The metadata.
        metadata: Blob,
    },
    /// Lets the peer make requests (RSocket 1.0, "LEASE Frame").
    Lease {
        /// For how long, in milliseconds.
        ttl: Amount,
        /// How many requests.
        count: Amount,
        /// Metadata that goes with it, where there is some.
        metadata: Option<Blob>,
    },
    /// Takes what was delivered on a stream and waits, the oldest first. It sends nothing.
    Take {
        /// The stream.
        stream: u32,
    },
    /// Takes what waits of what the peer asked, the oldest first. It sends nothing.
    TakeJob,
    /// Closes the session (RSocket 1.0, "ERROR Frame", CONNECTION_ERROR).
    Close,
}

/// Whether an ERROR on a stream may have that code: 0x201 to 0x204, and 0x301 to 0xFFFFFFFE, which are
/// left to applications (RSocket 1.0, "Error Codes").
pub fn is_stream_code(code: u32) -> bool
    ensures { result ≡ is_stream_code code }
{
    (0x201..=0x204).contains(&code) || (0x301..=0xFFFF_FFFE).contains(&code)
}

fn copy_of(alloc: Global, metadata: &Option<Blob>) -> Result<Option<Blob>, OutOfMemory>
    ensures { IfOk result (λ m. m ≡ metadata.now) }
{
    match metadata {
        None => Ok(None),
        Some(metadata) => Ok(Some(metadata.copy(alloc)?)),
    }
}

impl Call {
    /// A fire-and-forget of this content, without metadata (RSocket 1.0, "Request Fire-n-Forget").
    pub fn fire_and_forget(content: Blob) -> Call
        ensures { result ≡ fire_and_forget content }
    {
        Call::Request {
            kind: Kind::Fnf,
            initial: None,
            message: Message {
                metadata: None,
                content,
            },
            complete: false,
        }
    }

    /// The same call again.
    pub fn copy(&self, alloc: Global) -> Result<Call, OutOfMemory>
        ensures { IfOk result (λ c. c ≡ self.now) }
    {
        Ok(match self {
            Call::Request {
                kind,
                initial,
                message,
                complete,
            } => Call::Request {
                kind: *kind,
                initial: *initial,
                message: message.copy(alloc)?,
                complete: *complete,
            },
            Call::Next {
                stream,
                message,
                complete,
            } => Call::Next {
                stream: *stream,
                message: message.copy(alloc)?,
                complete: *complete,
            },
            Call::Done { stream } => Call::Done { stream: *stream },
            Call::Grant { stream, n } => Call::Grant {
                stream: *stream,
                n: *n,
            },
            Call::Cancel { stream } => Call::Cancel { stream: *stream },
            Call::Fail {
                stream,
                code,
                content,
            } => Call::Fail {
                stream: *stream,
                code: *code,
                content: content.copy(alloc)?,
            },
            Call::Push { metadata } => Call::Push {
                metadata: metadata.copy(alloc)?,
            },
            Call::Lease {
                ttl,
                count,
                metadata,
            } => Call::Lease {
                ttl: *ttl,
                count: *count,
                metadata: copy_of(alloc, metadata)?,
            },
            Call::Take { stream } => Call::Take { stream: *stream },
            Call::TakeJob => Call::TakeJob,
            Call::Close => Call::Close,
        })
    }
}
