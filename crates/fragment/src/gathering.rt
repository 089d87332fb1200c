//! The parts of a message that came so far, and room for more of them.

ghost use Rattle.std.specs.Prelude.{◌≡◌, ◌<◌, ◌^◌, false, OnOk};
ghost use Rattle.rs_wire.specs.Message.{size_of};
ghost use Rattle.fragment.specs.Joining.{nothing, with_part, glued_of, HasRoomFor};

use crate::glue::Glued;
use rs_wire::{Blob, Message, OutOfMemory};
use std::alloc::{AllocError, Global};
use std::marker::Model;
use std::mem;

/// A message that is gathered has fewer bytes than this. No machine has as many, and what is
/// computed from a length fits 64 bits.
const BYTES_END: u64 = 1 << 62;

/// The parts of a message that came so far, joined, however large it grows. Contracts see what
/// they are joined to, and how many bytes more of metadata and of content are sure to fit.
#[derive(Debug, Drop)]
pub struct Gathering {
    /// Whether a part had M; without, the metadata is empty.
    has_metadata: bool,
    /// The metadata of all parts.
    metadata: Vec<u8>,
    /// The content of all parts.
    content: Vec<u8>,
    /// Whether a part had C.
    complete: bool,
    /// Whether a part had N.
    next: bool,
}

impl Model for Gathering {
    ghost use Rattle.std.specs.Prelude.{◌≡◌, ◌<◌, ◌+◌, ◌-◌, ◌^◌, false, Some, None, vec_len, vec_capacity, if◌then◌else◌};
    ghost use Rattle.fragment.specs.Joining.{Gathered, GatheringView};

    ghost Value = { GatheringView };

    ghost view = { λ g. record {
      held = record {
        message = record {
          metadata = (if g.has_metadata then Some g.metadata.items else None);
          content = g.content.items;
        };
        complete = g.complete;
        next = g.next;
      };
      metadata_room = vec_capacity g.metadata - vec_len g.metadata;
      content_room = vec_capacity g.content - vec_len g.content;
    } };

    ghost invariant = { λ g.
        (g.has_metadata ≡ false → vec_len g.metadata ≡ 0)
        × (vec_len g.metadata + vec_len g.content < 2 ^ 62) };
}

impl Gathering {
    /// Nothing came yet.
    pub fn new(alloc: Global) -> Gathering
        ensures { result.held ≡ nothing }
    {
        Gathering {
            has_metadata: false,
            metadata: Vec::new(alloc),
            content: Vec::new(alloc),
            complete: false,
            next: false,
        }
    }

    /// How many bytes of metadata and content came.
    pub fn size(&self) -> u64
        ensures value { result ≡ size_of self.now.held.message }
        ensures bound { result < 2 ^ 62 }
    {
        self.metadata.len() as u64 + self.content.len() as u64
    }

    /// Whether a part had N.
    pub fn next(&self) -> bool
        ensures { result ≡ self.now.held.next }
    {
        self.next
    }

    /// Makes room for a part. It costs what the part carries, over all parts, since the buffers
    /// grow by doubling.
    pub fn reserve(&mut self, message: &Message) -> Result<(), OutOfMemory>
        ensures held { self.new.held ≡ self.old.held }
        ensures room { OnOk result (HasRoomFor self.new message.now) }
    {
        if self.size().saturating_add(message.size()) >= BYTES_END {
            return Err(OutOfMemory);
        }
        if let Some(metadata) = &message.metadata {
            self.metadata.reserve(metadata.len())?;
        }
        self.content.reserve(message.content.len())?;
        Ok(())
    }

    /// Takes in a part for which there is room: what it carries, and whether it has C and N.
    pub fn push(&mut self, message: &Message, complete: bool, next: bool)
        requires room { HasRoomFor self.old message.now }
        ensures { self.new.held ≡ with_part self.old.held message.now complete next }
    {
        if let Some(metadata) = &message.metadata {
            let _ = self.metadata.extend_from_slice(metadata.as_slice());
            self.has_metadata = true;
        }
        let _ = self.content.extend_from_slice(message.content.as_slice());
        self.complete = self.complete || complete;
        self.next = self.next || next;
    }

    /// Gives all that came with its room, and nothing came then.
    pub fn take(&mut self) -> Gathering
        ensures given { result ≡ self.old }
        ensures empty { self.new.held ≡ nothing }
    {
        let empty = Gathering::new(*self.content.allocator());
        mem::replace(self, empty)
    }

    /// The message of all parts, as the answer to the last of them.
    pub fn into_whole(self) -> Glued
        ensures { result ≡ glued_of false self.held }
    {
        let Gathering {
            has_metadata,
            metadata,
            content,
            complete,
            next,
        } = self;
        let metadata = if has_metadata {
            Some(Blob::from_vec(metadata))
        } else {
            None
        };
        Glued::Whole {
            message: Message {
                metadata,
                content: Blob::from_vec(content),
            },
            complete,
            next,
        }
    }
}
