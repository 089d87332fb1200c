//! The fields of a frame as they lie in a line: numbers and flags that were read, and the words of
//! bytes that are not decoded yet.

ghost use Rattle.std.specs.Prelude.{◌≡◌, ◌+◌, ◌<◌, ◌^◌, IfOk, IfSome, IsTrue, length};
ghost use Rattle.rs_frame.specs.Spelling.{FieldsFit, body_of, if_there, length_of, payload, to_end};
ghost use Rattle.frame_text.specs.Fields.{AreBlobs, IsMessage, IsOption, frame_of, message_from};
ghost use Rattle.frame_text.specs.Spelled.{option_of};

use crate::spelled::{blob, is_dash, option, size};
use rs_frame::{Frame, Request, Resume, Setup};
use rs_wire::{Amount, Blob, Kind, Message, OutOfMemory};
use std::alloc::Global;

/// The words of a message.
#[derive(Clone, Copy)]
pub struct MessageWords<'a> {
    /// The word of the metadata, a dash where it is absent.
    pub metadata: &'a [u8],
    /// The word of the content.
    pub content: &'a [u8],
}

/// The fields of a SETUP; the token is a dash where resumption is not asked for.
#[derive(Clone, Copy)]
pub struct SetupWords<'a> {
    /// The word of the token, a dash where resumption is not asked for.
    pub token: &'a [u8],
    /// Whether leases are asked for.
    pub lease: bool,
    /// The major version.
    pub major: u16,
    /// The minor version.
    pub minor: u16,
    /// Milliseconds between two keepalives.
    pub keepalive: Amount,
    /// Milliseconds after which a silent peer is dead.
    pub lifetime: Amount,
    /// The word of the name of the metadata's type.
    pub metadata_mime: &'a [u8],
    /// The word of the name of the content's type.
    pub content_mime: &'a [u8],
    /// The words of the message.
    pub message: MessageWords<'a>,
}

/// The fields of a request.
#[derive(Clone, Copy)]
pub struct RequestWords<'a> {
    /// The stream id.
    pub stream: u32,
    /// What is asked for.
    pub kind: Kind,
    /// Whether more fragments follow.
    pub follows: bool,
    /// Whether the requester sends nothing more.
    pub complete: bool,
    /// The first credit, where the type has one.
    pub initial: Option<Amount>,
    /// The words of the message.
    pub message: MessageWords<'a>,
}

/// The fields of a RESUME.
#[derive(Clone, Copy)]
pub struct ResumeWords<'a> {
    /// The major version.
    pub major: u16,
    /// The minor version.
    pub minor: u16,
    /// The word of the token.
    pub token: &'a [u8],
    /// The last position that the client received.
    pub server_position: u64,
    /// The first position that the client holds.
    pub client_position: u64,
}

/// The fields of a frame.
#[derive(Clone, Copy)]
pub enum Fields<'a> {
    /// SETUP.
    Setup(SetupWords<'a>),
    /// LEASE: milliseconds, requests and metadata.
    Lease {
        ttl: u32,
        count: u32,
        metadata: &'a [u8],
    },
    /// KEEPALIVE.
    Keepalive {
        respond: bool,
        position: u64,
        content: &'a [u8],
    },
    /// METADATA_PUSH.
    MetadataPush {
        metadata: &'a [u8],
    },
    /// RESUME.
    Resume(ResumeWords<'a>),
    /// RESUME_OK.
    ResumeOk {
        position: u64,
    },
    /// EXT.
    Ext {
        stream: u32,
        flags: u16,
        extended: u32,
        rest: &'a [u8],
    },
    /// One of the four requests.
    Request(RequestWords<'a>),
    /// REQUEST_N.
    RequestN {
        stream: u32,
        n: Amount,
    },
    /// CANCEL.
    Cancel {
        stream: u32,
    },
    /// PAYLOAD.
    Payload {
        stream: u32,
        follows: bool,
        complete: bool,
        next: bool,
        message: MessageWords<'a>,
    },
    /// ERROR.
    Error {
        stream: u32,
        code: u32,
        content: &'a [u8],
    },
    /// A frame of a type that the standard does not name.
    Unknown {
        stream: u32,
        number: u8,
        flags: u16,
        rest: &'a [u8],
    },
}

fn message(alloc: Global, words: &MessageWords<'_>) -> Result<Message, OutOfMemory>
    requires { IsMessage words.now }
    ensures { IfOk result (λ m. m ≡ message_from words.now) }
{
    let metadata = option(alloc, words.metadata)?;
    let content = blob(alloc, words.content)?;
    Ok(Message { metadata, content })
}

fn setup(alloc: Global, words: &SetupWords<'_>) -> Result<Frame, OutOfMemory>
    requires { AreBlobs (Fields.Setup words.now) }
    ensures { IfOk result (λ f. f ≡ frame_of (Fields.Setup words.now)) }
{
    let resume = option(alloc, words.token)?;
    let metadata_mime = blob(alloc, words.metadata_mime)?;
    let content_mime = blob(alloc, words.content_mime)?;
    let message = message(alloc, &words.message)?;
    Ok(Frame::Setup(Setup {
        resume,
        lease: words.lease,
        major: words.major,
        minor: words.minor,
        keepalive: words.keepalive,
        lifetime: words.lifetime,
        metadata_mime,
        content_mime,
        message,
    }))
}

fn request(alloc: Global, words: &RequestWords<'_>) -> Result<Frame, OutOfMemory>
    requires { AreBlobs (Fields.Request words.now) }
    ensures { IfOk result (λ f. f ≡ frame_of (Fields.Request words.now)) }
{
    let message = message(alloc, &words.message)?;
    Ok(Frame::Request(Request {
        stream: words.stream,
        kind: words.kind,
        follows: words.follows,
        complete: words.complete,
        initial: words.initial,
        message,
    }))
}

fn resume(alloc: Global, words: &ResumeWords<'_>) -> Result<Frame, OutOfMemory>
    requires { AreBlobs (Fields.Resume words.now) }
    ensures { IfOk result (λ f. f ≡ frame_of (Fields.Resume words.now)) }
{
    let token = blob(alloc, words.token)?;
    Ok(Frame::Resume(Resume {
        major: words.major,
        minor: words.minor,
        token,
        server_position: words.server_position,
        client_position: words.client_position,
    }))
}

/// The frame of these fields.
pub fn frame(alloc: Global, fields: &Fields<'_>) -> Result<Frame, OutOfMemory>
    requires { AreBlobs fields.now }
    ensures { IfOk result (λ f. f ≡ frame_of fields.now) }
{
    match fields {
        Fields::Setup(words) => setup(alloc, words),
        Fields::Request(words) => request(alloc, words),
        Fields::Resume(words) => resume(alloc, words),
        Fields::RequestN { stream, n } => Ok(Frame::RequestN {
            stream: *stream,
            n: *n,
        }),
        Fields::Cancel { stream } => Ok(Frame::Cancel { stream: *stream }),
        Fields::ResumeOk { position } => Ok(Frame::ResumeOk {
            position: *position,
        }),
        Fields::Lease {
            ttl,
            count,
            metadata,
        } => Ok(Frame::Lease {
            ttl: *ttl,
            count: *count,
            metadata: option(alloc, metadata)?,
        }),
        Fields::Keepalive {
            respond,
            position,
            content,
        } => Ok(Frame::Keepalive {
            respond: *respond,
            position: *position,
            content: blob(alloc, content)?,
        }),
        Fields::MetadataPush { metadata } => Ok(Frame::MetadataPush {
            metadata: blob(alloc, metadata)?,
        }),
        Fields::Payload {
            stream,
            follows,
            complete,
            next,
            message: words,
        } => Ok(Frame::Payload {
            stream: *stream,
            follows: *follows,
            complete: *complete,
            next: *next,
            message: message(alloc, words)?,
        }),
        Fields::Error {
            stream,
            code,
            content,
        } => Ok(Frame::Error {
            stream: *stream,
            code: *code,
            content: blob(alloc, content)?,
        }),
        Fields::Ext {
            stream,
            flags,
            extended,
            rest,
        } => Ok(Frame::Ext {
            stream: *stream,
            flags: *flags,
            extended: *extended,
            rest: blob(alloc, rest)?,
        }),
        Fields::Unknown {
            stream,
            number,
            flags,
            rest,
        } => Ok(Frame::Unknown {
            stream: *stream,
            number: *number,
            flags: *flags,
            rest: blob(alloc, rest)?,
        }),
    }
}

// How many bytes a token that may be missing has, with its length.
fn token_size(word: &[u8]) -> u64
    requires { IsOption word.now }
    ensures value { result ≡ length (if_there 2 (option_of word.now)) }
    ensures bound { result < 2 ^ 62 + 2 ^ 8 }
{
    if is_dash(word) {
        return 0;
    }
    2 + size(word)
}

// How many bytes metadata that may be missing has, with its length.
fn metadata_size(word: &[u8]) -> u64
    requires { IsOption word.now }
    ensures value { result ≡ length (if_there 3 (option_of word.now)) }
    ensures bound { result < 2 ^ 62 + 2 ^ 8 }
{
    if is_dash(word) {
        return 0;
    }
    3 + size(word)
}

// How many bytes stand to the end, where there are any.
fn end_size(word: &[u8]) -> u64
    requires { IsOption word.now }
    ensures value { result ≡ length (to_end (option_of word.now)) }
    ensures bound { result < 2 ^ 62 }
{
    if is_dash(word) {
        return 0;
    }
    size(word)
}

fn message_length(words: &MessageWords<'_>) -> u64
    requires { IsMessage words.now }
    ensures value { result ≡ length (payload (message_from words.now)) }
    ensures bound { result < 2 ^ 63 + 2 ^ 8 }
{
    metadata_size(words.metadata) + size(words.content)
}

fn setup_length(words: &SetupWords<'_>) -> u64
    requires blobs { AreBlobs (Fields.Setup words.now) }
    requires fits { FieldsFit (frame_of (Fields.Setup words.now)) }
    ensures value { result ≡ length (body_of (frame_of (Fields.Setup words.now))) }
    ensures bound { result < 2 ^ 63 + 2 ^ 62 + 2 ^ 20 }
{
    let token = token_size(words.token);
    let names = 2 + size(words.metadata_mime) + size(words.content_mime);
    12 + token + names + message_length(&words.message)
}

fn request_length(words: &RequestWords<'_>) -> u64
    requires blobs { AreBlobs (Fields.Request words.now) }
    ensures value { result ≡ length (body_of (frame_of (Fields.Request words.now))) }
    ensures bound { result < 2 ^ 63 + 2 ^ 62 + 2 ^ 20 }
{
    let initial = if words.initial.is_some() { 4 } else { 0 };
    initial + message_length(&words.message)
}

fn body_length(fields: &Fields<'_>) -> u64
    requires blobs { AreBlobs fields.now }
    requires fits { FieldsFit (frame_of fields.now) }
    ensures value { result ≡ length (body_of (frame_of fields.now)) }
    ensures bound { result < 2 ^ 63 + 2 ^ 62 + 2 ^ 20 }
{
    match fields {
        Fields::Setup(words) => setup_length(words),
        Fields::Lease { metadata, .. } => 8 + end_size(metadata),
        Fields::Keepalive { content, .. } => 8 + size(content),
        Fields::Request(words) => request_length(words),
        Fields::RequestN { .. } => 4,
        Fields::Cancel { .. } => 0,
        Fields::Payload { message, .. } => message_length(message),
        Fields::Error { content, .. } => 4 + size(content),
        Fields::MetadataPush { metadata } => size(metadata),
        Fields::Resume(words) => 22 + size(words.token),
        Fields::ResumeOk { .. } => 8,
        Fields::Ext { rest, .. } => 4 + size(rest),
        Fields::Unknown { rest, .. } => size(rest),
    }
}

/// How many bytes the frame has.
pub fn length(fields: &Fields<'_>) -> u64
    requires blobs { AreBlobs fields.now }
    requires fits { FieldsFit (frame_of fields.now) }
    ensures value { result ≡ length_of (frame_of fields.now) }
{
    6 + body_length(fields)
}
