//! A message that is borrowed, and the two pieces that a fragment cuts it into.

ghost use Rattle.std.specs.Prelude.{◌≡◌, ◌<◌, ◌+◌, ◌^◌, length, take, drop, IfOk};
ghost use Rattle.fragment.specs.Splitting.{first_part, left_part, left_metadata, field_length};
ghost use Rattle.fragment.specs.Views.{message_in};
ghost use Rattle.std.specs.Option.{option_map};

use rs_wire::{Blob, Message, OutOfMemory};
use std::alloc::Global;

// The bytes of the length that stands before metadata.
const LENGTH_FIELD: usize = 3;

/// The metadata and the content of a message, borrowed.
#[derive(Clone, Copy)]
pub struct Parts<'a> {
    /// The metadata that is left, where any is.
    pub metadata: Option<&'a [u8]>,
    /// The content that is left.
    pub content: &'a [u8],
}

// The first n bytes, or all where there are fewer.
fn front(bytes: &[u8], n: usize) -> &[u8]
    ensures { result.now ≡ take n bytes.now }
{
    &bytes[..n.min(bytes.len())]
}

// The bytes after the first n.
fn past(bytes: &[u8], n: usize) -> &[u8]
    ensures { result.now ≡ drop n bytes.now }
{
    &bytes[n.min(bytes.len())..]
}

// The metadata after the first n bytes, where there is more.
fn metadata_past(metadata: Option<&[u8]>, n: usize) -> Option<&[u8]>
    ensures { option_map (λ x. x.now) result
        ≡ left_metadata n (option_map (λ x. x.now) metadata.entry) }
{
    match metadata {
        Some(bytes) if bytes.len() > n => Some(past(bytes, n)),
        _ => None,
    }
}

impl<'a> Parts<'a> {
    /// All of a message.
    pub fn of(message: &'a Message) -> Parts<'a>
        ensures { message_in result ≡ message.now }
    {
        let metadata = match &message.metadata {
            Some(metadata) => Some(metadata.as_slice()),
            None => None,
        };
        Parts {
            metadata,
            content: message.content.as_slice(),
        }
    }

    /// How many bytes the metadata takes with its length before it.
    pub fn field_length(&self) -> usize
        requires { field_length (message_in self.now).metadata < 2 ^ 32 }
        ensures { result ≡ field_length (message_in self.now).metadata }
    {
        match self.metadata {
            Some(bytes) => LENGTH_FIELD + bytes.len(),
            None => 0,
        }
    }

    /// What stands in a fragment that has `room` bytes left.
    pub fn first(&self, room: usize) -> Parts<'a>
        requires { field_length (message_in self.now).metadata < 2 ^ 32 }
        ensures { message_in result ≡ first_part room (message_in self.now) }
    {
        let metadata = match self.metadata {
            Some(bytes) => Some(front(bytes, room.saturating_sub(LENGTH_FIELD))),
            None => None,
        };
        let content = front(self.content, room.saturating_sub(self.field_length()));
        Parts { metadata, content }
    }

    /// What is left after that.
    pub fn left(&self, room: usize) -> Parts<'a>
        requires { field_length (message_in self.now).metadata < 2 ^ 32 }
        ensures { message_in result ≡ left_part room (message_in self.now) }
    {
        Parts {
            metadata: metadata_past(self.metadata, room.saturating_sub(LENGTH_FIELD)),
            content: past(self.content, room.saturating_sub(self.field_length())),
        }
    }

    /// The message, owned.
    pub fn copy(&self, alloc: Global) -> Result<Message, OutOfMemory>
        ensures { IfOk result (λ m. m ≡ message_in self.now) }
    {
        let metadata = match self.metadata {
            Some(bytes) => Some(Blob::from_slice(alloc, bytes)?),
            None => None,
        };
        let content = Blob::from_slice(alloc, self.content)?;
        Ok(Message { metadata, content })
    }
}
