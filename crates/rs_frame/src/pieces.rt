//! Frames in pieces: the head of a frame, and its message's own bytes where they lie. So a frame is
//! spelled without memory, and its message is copied once, to where the frame is to stand.

ghost use Rattle.std.specs.Prelude.{◌≡◌, ◌+◌, ◌≤◌, ◌++◌, IfSome, false, true, length};
ghost use Rattle.rs_frame.specs.declared.frame.Frame.{Frame as Sent};
ghost use Rattle.rs_frame.specs.Framed.{framed_frame};
ghost use Rattle.rs_frame.specs.Requests.{request_frame};
ghost use Rattle.rs_frame.specs.Spelling.{IsSpellable, MessageFits, payload, to_end};

use crate::frame::Frame;
use crate::head::{Head, MOST_HEAD};
use crate::header::{flags, number, stream};
use crate::parts::payload_length;
use crate::writing::{item_length, length, request_length};
use crate::{payload, request};
use rs_wire::{Amount, Blob, Kind, Message};
use std::marker::Model;

/// Bytes that lie in pieces. Contracts see them as one list.
#[derive(Debug, Drop)]
pub struct Pieces<'a> {
    head: Head,
    metadata: &'a [u8],
    content: &'a [u8],
    // How many bytes these are in sum.
    count: usize,
}

impl<'a> Model for Pieces<'a> {
    ghost use Rattle.std.specs.Prelude.{ℕ, List};

    ghost Value = { List ℕ };

    ghost use Rattle.rs_frame.specs.Pieces.{bytes_of, IsCounted};

    ghost view = { bytes_of };

    ghost invariant = { IsCounted };
}

// The bytes, if any.
fn bytes_of(bytes: &Option<Blob>) -> &[u8]
    ensures { result.now ≡ to_end bytes.now }
{
    match bytes {
        None => &[],
        Some(bytes) => bytes.as_slice(),
    }
}

impl<'a> Pieces<'a> {
    // Content after the head of its frame.
    fn with_content(head: Head, content: &'a [u8]) -> Pieces<'a>
        ensures { result ≡ head ++ content.now }
    {
        let count = head.len() + content.len();
        Pieces {
            head,
            metadata: &[],
            content,
            count,
        }
    }

    /// Bytes that lie in one piece.
    pub fn of(bytes: &'a [u8]) -> Pieces<'a>
        ensures { result ≡ bytes.now }
    {
        Pieces::with_content(Head::new(), bytes)
    }

    // A message after the head of its frame.
    fn with_message(head: Head, message: &'a Message) -> Pieces<'a>
        requires fits { MessageFits message.now }
        requires has_room { length head + 3 ≤ MOST_HEAD }
        ensures { result ≡ head ++ payload message.now }
    {
        let count = head.len() + payload_length(message);
        let mut head = head;
        if let Some(metadata) = &message.metadata {
            head.put_u24(metadata.len() as u32);
        }
        Pieces {
            head,
            metadata: bytes_of(&message.metadata),
            content: message.content.as_slice(),
            count,
        }
    }

    /// How many bytes.
    pub fn len(&self) -> usize
        ensures { result ≡ length self.now }
    {
        self.count
    }

    /// The pieces, in their order.
    pub fn as_slices(&self) -> (&[u8], &[u8], &[u8])
        ensures { self.now ≡ result.0.now ++ (result.1.now ++ result.2.now) }
    {
        (self.head.as_slice(), self.metadata, self.content)
    }
}

/// A frame of a stream after its length, a number of 24 bits, where its message, if it has one, stays
/// where it lies. `None` of a request and of a frame that is no stream's.
pub fn frame_pieces(frame: &Frame) -> Option<Pieces<'_>>
    requires { IsSpellable frame.now }
    ensures { IfSome result (λ pieces. pieces ≡ framed_frame frame.now) }
{
    let word = number(frame) * 1024 + flags(frame);
    let mut head = Head::framed(length(frame), stream(frame), word);
    match frame {
        Frame::RequestN { n, .. } => {
            head.put_u32(n.get());
            Some(Pieces::with_content(head, &[]))
        }
        Frame::Cancel { .. } => Some(Pieces::with_content(head, &[])),
        Frame::Payload { message, .. } => Some(Pieces::with_message(head, message)),
        Frame::Error { code, content, .. } => {
            head.put_u32(*code);
            Some(Pieces::with_content(head, content.as_slice()))
        }
        _ => None,
    }
}

/// The PAYLOAD of an item after its length, a number of 24 bits. Its message stays where it lies.
pub fn item_pieces(stream: u32, complete: bool, message: &Message) -> Pieces<'_>
    requires { IsSpellable (Sent.Payload stream false complete true message.now) }
    ensures { result ≡ framed_frame (Sent.Payload stream false complete true message.now) }
{
    let head = Head::framed(
        item_length(stream, complete, message),
        stream,
        payload::NUMBER * 1024 + payload::flags(false, complete, true, message),
    );
    Pieces::with_message(head, message)
}

/// A request whose message is whole, after its length. Its message stays where it lies.
pub fn request_pieces<'a>(
    stream: u32,
    kind: Kind,
    initial: &Option<Amount>,
    complete: bool,
    message: &'a Message,
) -> Pieces<'a>
    requires { IsSpellable (request_frame stream kind initial.now message.now complete) }
    ensures { result ≡ framed_frame (request_frame stream kind initial.now message.now complete) }
{
    let mut head = Head::framed(
        request_length(stream, kind, initial, complete, message),
        stream,
        request::number(kind) * 1024 + request::flags(false, complete, message),
    );
    if let Some(n) = initial {
        head.put_u32(n.get());
    }
    Pieces::with_message(head, message)
}
