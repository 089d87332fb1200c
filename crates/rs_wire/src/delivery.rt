//! What a stream delivers to a caller, and what the peer asks of this end.

ghost use Rattle.std.specs.Prelude.{◌≡◌, IfOk};

use crate::amount::Amount;
use crate::blob::Blob;
use crate::memory::OutOfMemory;
use crate::message::Message;
use crate::words::Kind;
use std::alloc::Global;

/// What a stream delivers. After `Complete`, `Error` and `Canceled` it delivers nothing more.
#[derive(Debug, Drop, PartialEq, Eq)]
pub enum Delivery {
    /// A payload of the peer's.
    Item(Message),
    /// The peer sends nothing more.
    Complete,
    /// The peer ended the stream by an error (RSocket 1.0, "ERROR Frame").
    Error {
        /// The error code.
        code: u32,
        /// What the error says.
        content: Blob,
    },
    /// The peer wants nothing more of the stream (RSocket 1.0, "CANCEL Frame").
    Canceled,
}

impl Delivery {
    /// The same delivery again.
    pub fn copy(&self, alloc: Global) -> Result<Delivery, OutOfMemory>
        ensures { IfOk result (λ d. d ≡ self.now) }
    {
        Ok(match self {
            Delivery::Item(message) => Delivery::Item(message.copy(alloc)?),
            Delivery::Complete => Delivery::Complete,
            Delivery::Error { code, content } => Delivery::Error {
                code: *code,
                content: content.copy(alloc)?,
            },
            Delivery::Canceled => Delivery::Canceled,
        })
    }
}

/// What the peer asks of this end.
#[derive(Debug, Drop, PartialEq, Eq)]
pub enum Job {
    /// A request, once its message is whole (RSocket 1.0, "Request").
    Asked {
        /// The stream that the answer goes on.
        stream: u32,
        /// The interaction that the stream carries.
        kind: Kind,
        /// How many payloads this end may send at first: present exactly for a stream and a channel.
        initial: Option<Amount>,
        /// What the request carries.
        message: Message,
        /// C stood on a frame of the request's message: on a channel the requester sends nothing more
        /// (RSocket 1.0, "REQUEST_CHANNEL Frame"); elsewhere it says nothing, and stands on fragments alone.
        complete: bool,
    },
    /// Metadata for the whole connection (RSocket 1.0, "METADATA_PUSH Frame"). Nothing answers it.
    Pushed {
        /// The metadata.
        metadata: Blob,
    },
}

impl Job {
    /// The same job again.
    pub fn copy(&self, alloc: Global) -> Result<Job, OutOfMemory>
        ensures { IfOk result (λ j. j ≡ self.now) }
    {
        Ok(match self {
            Job::Asked {
                stream,
                kind,
                initial,
                message,
                complete,
            } => Job::Asked {
                stream: *stream,
                kind: *kind,
                initial: *initial,
                message: message.copy(alloc)?,
                complete: *complete,
            },
            Job::Pushed { metadata } => Job::Pushed {
                metadata: metadata.copy(alloc)?,
            },
        })
    }
}
