//! What is gathered, by stream.

ghost use Rattle.std.specs.Prelude.{◌≡◌, ◌<◌, ◌≤◌, ◌^◌, ◌||◌, ℕ, true, false, Some, OnOk, nat_eq, if◌then◌else◌};
ghost use Rattle.indexmap.specs.IndexMap.{get, spare};
ghost use Rattle.rs_wire.specs.Message.{size_of};
ghost use Rattle.fragment.specs.Joining.{nothing, join_messages, with_part, glued_of, left_held};
ghost use Rattle.reassembly.specs.Gathering.{gathered_at, has_part_at, gathering_at, HasRoom};

use fragment::{Gathering, Glued};
use indexmap::IndexMap;
use rs_wire::{Message, OutOfMemory};
use std::alloc::Global;
use std::marker::Model;

/// The messages that are not whole yet, by stream, in one direction. Contracts see what is gathered
/// on each stream: `nothing` where no part came. Nothing is kept of a stream on which no part came,
/// nor of one whose message is whole or forgotten.
#[derive(Drop)]
pub struct Reassembly {
    /// The messages of the streams on which a part came.
    gatherings: IndexMap<u32, Gathering>,
    /// The empty gathering that the next such stream is given, with the room that was made for it.
    fresh: Gathering,
}

impl Model for Reassembly {
    ghost use Rattle.std.specs.Prelude.{◌≡◌};
    ghost use Rattle.indexmap.specs.IndexMap.{spare};
    ghost use Rattle.fragment.specs.Joining.{nothing};
    ghost use Rattle.reassembly.specs.Gathering.{ReassemblyView};

    ghost Value = { ReassemblyView };

    ghost view = { λ r. record {
      gatherings = r.gatherings.entries;
      place = spare r.gatherings;
      fresh = r.fresh;
    } };

    ghost invariant = { λ r. r.fresh.held ≡ nothing };
}

// Keeps what is gathered on a stream, where there is a place for it.
fn put(gatherings: &mut IndexMap<u32, Gathering>, stream: u32, gathering: Gathering)
    requires { 0 < spare gatherings.old }
    ensures { (s : ℕ) → get nat_eq gatherings.new s
        ≡ (if nat_eq stream s then Some gathering else get nat_eq gatherings.old s) }
{
    if gatherings.insert(stream, gathering).is_err() {
        return;
    }
}

impl Reassembly {
    /// No part came on any stream.
    pub fn new(alloc: Global) -> Reassembly
        ensures gathered { (s : ℕ) → gathered_at result s ≡ nothing }
        ensures parts { (s : ℕ) → has_part_at result s ≡ false }
    {
        Reassembly {
            gatherings: IndexMap::new(alloc),
            fresh: Gathering::new(alloc),
        }
    }

    /// Whether no part is kept of any stream.
    pub fn is_empty(&self) -> bool
        ensures gathered { result ≡ true → (s : ℕ) → gathered_at self.now s ≡ nothing }
        ensures parts { result ≡ true → (s : ℕ) → has_part_at self.now s ≡ false }
    {
        self.gatherings.is_empty()
    }

    /// Whether a part is kept of this stream.
    pub fn has_part(&self, stream: u32) -> bool
        ensures value { result ≡ has_part_at self.now stream }
        ensures gathered { result ≡ false → gathered_at self.now stream ≡ nothing }
    {
        self.gatherings.contains_key(&stream)
    }

    /// How many bytes of metadata and content the stream's message has with this part. A part is
    /// below 2^63 bytes.
    pub fn size_with(&self, stream: u32, message: &Message) -> u64
        requires small { size_of message.now < 2 ^ 63 }
        ensures value { result
            ≡ size_of (join_messages (gathered_at self.now stream).message message.now) }
        ensures gathered { size_of (gathered_at self.now stream).message < 2 ^ 62 }
    {
        match self.gatherings.get(&stream) {
            None => message.size(),
            Some(gathering) => gathering.size() + message.size(),
        }
    }

    /// Whether a part of the stream's message had N, or this one has.
    pub fn next_with(&self, stream: u32, next: bool) -> bool
        ensures { result ≡ ((gathered_at self.now stream).next || next) }
    {
        match self.gatherings.get(&stream) {
            None => next,
            Some(gathering) => gathering.next() || next,
        }
    }

    /// Makes room for a part of the stream's message.
    pub fn reserve(&mut self, stream: u32, message: &Message) -> Result<(), OutOfMemory>
        ensures gathered { (s : ℕ) → gathered_at self.new s ≡ gathered_at self.old s }
        ensures parts { (s : ℕ) → has_part_at self.new s ≡ has_part_at self.old s }
        ensures room { OnOk result (HasRoom self.new stream message.now) }
    {
        self.gatherings.reserve(1)?;
        match self.gatherings.get_mut(&stream) {
            None => self.fresh.reserve(message),
            Some(gathering) => gathering.reserve(message),
        }
    }

    // Takes out what is gathered on a stream, or the fresh gathering.
    fn remove(&mut self, stream: u32) -> Gathering
        ensures gathering { result ≡ gathering_at self.old stream }
        ensures held { result.held ≡ gathered_at self.old stream }
        ensures gathered { (s : ℕ) → gathered_at self.new s
            ≡ (if nat_eq stream s then nothing else gathered_at self.old s) }
        ensures parts { (s : ℕ) → has_part_at self.new s
            ≡ (if nat_eq stream s then false else has_part_at self.old s) }
        ensures place { self.old.place ≤ self.new.place }
    {
        match self.gatherings.swap_remove(&stream) {
            None => self.fresh.take(),
            Some(gathering) => gathering,
        }
    }

    /// Takes in the next part of the stream's message, for which there is room: whether it has F,
    /// what it carries, and whether it has C and N. Where none follows it gives the whole message,
    /// and nothing is kept of the stream.
    pub fn push(
        &mut self,
        stream: u32,
        follows: bool,
        message: &Message,
        complete: bool,
        next: bool,
    ) -> Glued
        requires room { HasRoom self.old stream message.now }
        ensures answer { result ≡ glued_of follows
            (with_part (gathered_at self.old stream) message.now complete next) }
        ensures gathered { (s : ℕ) → gathered_at self.new s ≡ (if nat_eq stream s
            then left_held follows
            (with_part (gathered_at self.old stream) message.now complete next)
            else gathered_at self.old s) }
        ensures parts { (s : ℕ) → has_part_at self.new s
            ≡ (if nat_eq stream s then follows else has_part_at self.old s) }
    {
        let mut gathering = self.remove(stream);
        gathering.push(message, complete, next);
        if !follows {
            return gathering.into_whole();
        }
        put(&mut self.gatherings, stream, gathering);
        Glued::Part
    }

    /// Drops what is gathered on a stream, as where the stream is over.
    pub fn forget(&mut self, stream: u32)
        ensures gathered { (s : ℕ) → gathered_at self.new s
            ≡ (if nat_eq stream s then nothing else gathered_at self.old s) }
        ensures parts { (s : ℕ) → has_part_at self.new s
            ≡ (if nat_eq stream s then false else has_part_at self.old s) }
    {
        let _ = self.gatherings.swap_remove(&stream);
    }
}
