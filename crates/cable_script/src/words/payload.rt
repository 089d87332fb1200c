//! The parts of a message, as words.

ghost use Rattle.std.specs.Prelude.{◌≡◌, ℕ, List, IfNone, IfOk, IfSome, IsTrue};
ghost use Rattle.hex.specs.Hex.{IsBytes};
ghost use Rattle.rs_wire.specs.declared.message.Message.{Message as Said};
ghost use Rattle.cable_script.specs.Line.{IsPayload, part_text, payload_text};
ghost use Rattle.cable_script.specs.Words.{SpellsMessage, are_parts, bytes_of, is_part, message_of};

use crate::words::cuts::cut_at;
use plain_text::{is_hex_word, read_hex};
use rs_wire::{Blob, Message, OutOfMemory};
use std::alloc::Global;

/// The word of no bytes.
const NO_BYTES: u8 = b'-';

/// The parts of a message.
#[derive(Clone, Copy)]
pub(crate) enum Payload<'a> {
    Content(&'a [u8]),
    Both {
        metadata: &'a [u8],
        content: &'a [u8],
    },
}

/// Whether the word is a part of a message.
pub(crate) fn is_part(word: &[u8]) -> bool
    ensures value { result ≡ is_part word.now }
    ensures spelled { IsTrue result →
        (word.now ≡ part_text (bytes_of word.now)) × IsBytes (bytes_of word.now) }
    ensures only { (bytes : List ℕ) → IsBytes bytes → word.now ≡ part_text bytes → IsTrue result }
{
    is_hex_word(word, NO_BYTES)
}

/// The bytes of a part.
pub(crate) fn bytes(alloc: Global, part: &[u8]) -> Result<Blob, OutOfMemory>
    requires { IsTrue (is_part part.now) }
    ensures { IfOk result (λ bytes. bytes ≡ bytes_of part.now) }
{
    read_hex(alloc, part, NO_BYTES)
}

impl Payload<'_> {
    /// The message of these parts.
    pub(crate) fn message(&self, alloc: Global) -> Result<Message, OutOfMemory>
        requires { IsTrue (are_parts self.now) }
        ensures { IfOk result (λ m. m ≡ message_of self.now) }
    {
        match self {
            Payload::Content(part) => Ok(Message {
                metadata: None,
                content: bytes(alloc, part)?,
            }),
            Payload::Both { metadata, content } => Ok(Message {
                metadata: Some(bytes(alloc, metadata)?),
                content: bytes(alloc, content)?,
            }),
        }
    }

    fn are_parts(&self) -> bool
        ensures { result ≡ are_parts self.now }
    {
        match self {
            Payload::Content(part) => is_part(part),
            Payload::Both { metadata, content } => is_part(metadata) && is_part(content),
        }
    }
}

// The one way to cut a word into the parts of a message.
fn parts_of(word: &[u8]) -> Payload<'_>
    ensures right { IsTrue (are_parts result) → SpellsMessage (λ text. word.now ≡ text) result }
    ensures only { (m : Said) → IsPayload m → word.now ≡ payload_text m →
        IsTrue (are_parts result) }
{
    match cut_at(word, b':') {
        Some((metadata, content)) => Payload::Both { metadata, content },
        None => Payload::Content(word),
    }
}

/// The parts of the message that the word is the text of.
pub(crate) fn payload_of(word: &[u8]) -> Option<Payload<'_>>
    ensures some { IfSome result (SpellsMessage (λ text. word.now ≡ text)) }
    ensures none { IfNone result ((m : Said) → IsPayload m → ¬ (word.now ≡ payload_text m)) }
{
    let payload = parts_of(word);
    if payload.are_parts() {
        return Some(payload);
    }
    None
}
