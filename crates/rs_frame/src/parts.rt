//! A payload: metadata after its length of three bytes where the flag M is set, and then content to
//! the end (RSocket 1.0, "Metadata Optional Header").

ghost use Rattle.std.specs.Prelude.{◌≡◌, ◌+◌, ◌<◌, ◌≤◌, ◌^◌, ◌++◌, ◌↔◌, [], None, IfOk, IsOk, IsTrue, length, vec_len, vec_capacity};
ghost use Rattle.std.specs.Option.{option_map};
ghost use Rattle.rs_frame.specs.Rules.{message_of};
ghost use Rattle.rs_frame.specs.Spelling.{MessageFits, payload};
ghost use Rattle.rs_frame.specs.Views.{IsBareMessage, parts_view};

use crate::cursor::{counted_u24, put, put_u24};
use rs_wire::{Blob, Message, OutOfMemory};
use std::alloc::Global;

/// A message that lies in a frame's bytes.
#[derive(Clone, Copy, Debug)]
pub struct Parts<'a> {
    /// The metadata, where there is any.
    pub metadata: Option<&'a [u8]>,
    /// The content.
    pub content: &'a [u8],
}

/// The payload in these bytes. `None` where the length of the metadata is missing or passes the end.
pub fn parts_of(present: bool, bytes: &[u8]) -> Option<Parts<'_>>
    ensures { option_map parts_view result ≡ message_of present bytes.now }
{
    if !present {
        return Some(Parts {
            metadata: None,
            content: bytes,
        });
    }
    match counted_u24(bytes) {
        None => None,
        Some((metadata, content)) => Some(Parts {
            metadata: Some(metadata),
            content,
        }),
    }
}

/// A copy of the bytes, which takes no memory where there are none.
pub fn owned_bytes(alloc: Global, bytes: &[u8]) -> Result<Blob, OutOfMemory>
    ensures bytes { IfOk result (λ b. b ≡ bytes.now) }
    ensures bare { bytes.now ≡ [] → IsOk result }
{
    if bytes.is_empty() {
        return Ok(Blob::from_vec(Vec::new(alloc)));
    }
    Blob::from_slice(alloc, bytes)
}

/// The bytes, if any, as a blob.
pub fn owned_option(alloc: Global, bytes: Option<&[u8]>) -> Result<Option<Blob>, OutOfMemory>
    ensures bytes { IfOk result (λ b. b ≡ option_map (λ x. x.now) bytes.entry) }
    ensures bare { option_map (λ x. x.now) bytes.entry ≡ None → IsOk result }
{
    match bytes {
        None => Ok(None),
        Some(bytes) => Ok(Some(owned_bytes(alloc, bytes)?)),
    }
}

/// The payload as a message.
#[inline(always)]
pub fn owned(alloc: Global, parts: Parts<'_>) -> Result<Message, OutOfMemory>
    ensures message { IfOk result (λ m. m ≡ parts_view parts.entry) }
    ensures bare { IsBareMessage (parts_view parts.entry) → IsOk result }
{
    let metadata = owned_option(alloc, parts.metadata)?;
    let content = owned_bytes(alloc, parts.content)?;
    Ok(Message { metadata, content })
}

/// The blob, if any, again.
pub fn copy_of(alloc: Global, bytes: &Option<Blob>) -> Result<Option<Blob>, OutOfMemory>
    ensures { IfOk result (λ b. b ≡ bytes.now) }
{
    match bytes {
        None => Ok(None),
        Some(bytes) => Ok(Some(bytes.copy(alloc)?)),
    }
}

/// Whether the length of the metadata has three bytes.
pub fn message_fits(message: &Message) -> bool
    ensures { IsTrue result ↔ MessageFits message.now }
{
    match &message.metadata {
        None => true,
        Some(metadata) => metadata.len() < 0x100_0000,
    }
}

/// How many bytes the payload has.
pub fn payload_length(message: &Message) -> usize
    requires { MessageFits message.now }
    ensures value { result ≡ length (payload message.now) }
    ensures bound { result < 2 ^ 63 + 2 ^ 25 }
{
    match &message.metadata {
        None => message.content.len(),
        Some(metadata) => 3 + metadata.len() + message.content.len(),
    }
}

/// Appends the payload, for which there is room.
pub fn put_payload(out: &mut Vec<u8>, message: &Message)
    requires fits { MessageFits message.now }
    requires has_room { vec_len out.old + length (payload message.now) ≤ vec_capacity out.old }
    ensures items { out.new.items ≡ out.old.items ++ payload message.now }
    ensures len { vec_len out.new ≡ vec_len out.old + length (payload message.now) }
    ensures room { vec_capacity out.old ≤ vec_capacity out.new }
{
    if let Some(metadata) = &message.metadata {
        put_u24(out, metadata.len() as u32);
        put(out, metadata.as_slice());
    }
    put(out, message.content.as_slice());
}
