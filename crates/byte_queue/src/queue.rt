//! The queue: one buffer, and where the bytes left begin in it.

ghost use Rattle.std.specs.Prelude.{◌≡◌, ◌+◌, ◌-◌, ◌*◌, ◌<◌, ◌≤◌, ◌^◌, ◌++◌, [], ℕ, List, length, take, drop, max, vec_len, vec_capacity, is_ok, if◌then◌else◌, IsOk, OnOk, OnErr};
ghost use Rattle.std.specs.Fn.{FnOnceReturnsAtMut};

use rs_wire::OutOfMemory;
use std::alloc::Global;
use std::marker::Model;

/// A buffer of at most this many bytes is kept where few bytes are left, so that a queue that
/// empties and fills all the time does not allocate each time.
const KEPT: usize = 65_536;

/// Bytes in order, and how many more are sure to fit. Contracts see these two: `bytes` and
/// `reserved`.
#[derive(Debug, Drop)]
pub struct ByteQueue {
    /// Bytes that were dropped, and then the bytes left.
    buffer: Vec<u8>,
    /// Where the bytes left begin. It is in the first half of the buffer, so moving them to the
    /// front is paid for by the bytes that were dropped.
    start: usize,
    /// How many bytes more can be appended without allocating, since they were reserved.
    reserved: usize,
}

impl Model for ByteQueue {
    ghost use Rattle.std.specs.Prelude.{◌+◌, ◌*◌, ◌≤◌, drop, vec_len, vec_capacity};
    ghost use Rattle.byte_queue.specs.Contents.{Contents};

    ghost Value = { Contents };

    ghost view = { λ q. record { bytes = drop q.start q.buffer.items; reserved = q.reserved } };

    ghost invariant = { λ q.
        (2 * q.start ≤ vec_len q.buffer) ×
        (vec_len q.buffer + q.reserved ≤ vec_capacity q.buffer) };
}

// Removes the first bytes, at least half of them, and moves the others to their place. What moves
// and where it goes don't overlap then, so it is one copy.
fn remove_front(buffer: &mut Vec<u8>, count: usize)
    requires within { count ≤ vec_len buffer.old }
    requires half { vec_len buffer.old ≤ 2 * count }
    ensures items { buffer.new.items ≡ drop count buffer.old.items }
    ensures len { vec_len buffer.new + count ≡ vec_len buffer.old }
    ensures capacity { vec_capacity buffer.new ≡ vec_capacity buffer.old }
{
    let left = buffer.len() - count;
    let (removed, kept) = buffer.split_at_mut(count);
    removed[..left].copy_from_slice(kept);
    buffer.truncate(left);
}

// Gives memory back where the buffer is more than four times as large as what it has to hold.
fn shrink(buffer: &mut Vec<u8>, reserved: usize)
    requires { vec_len buffer.old + reserved ≤ vec_capacity buffer.old }
    ensures items { buffer.new.items ≡ buffer.old.items }
    ensures len { vec_len buffer.new ≡ vec_len buffer.old }
    ensures room { vec_len buffer.new + reserved ≤ vec_capacity buffer.new }
{
    let wanted = buffer.len() + reserved;
    if wanted < buffer.capacity() / 4 {
        buffer.shrink_to((2 * wanted).max(KEPT));
    }
}

impl ByteQueue {
    /// An empty queue.
    pub fn new(alloc: Global) -> ByteQueue
        ensures { result ≡ record { bytes = []; reserved = 0 } }
    {
        ByteQueue {
            buffer: Vec::new(alloc),
            start: 0,
            reserved: 0,
        }
    }

    /// How many bytes are left.
    pub fn len(&self) -> usize
        ensures value { result ≡ length self.now.bytes }
        ensures bound { result < 2 ^ 63 }
    {
        self.buffer.len() - self.start
    }

    /// The bytes left.
    pub fn as_slice(&self) -> &[u8]
        ensures { result.now ≡ self.now.bytes }
    {
        &self.buffer[self.start..]
    }

    /// Makes sure that `count` bytes more fit, those that were reserved before counted in.
    pub fn reserve(&mut self, count: usize) -> Result<(), OutOfMemory>
        ensures ok { OnOk result (self.new ≡
            record self.old { reserved = max self.old.reserved count }) }
        ensures err { OnErr result (self.new ≡ self.old) }
        ensures fits { count ≤ self.old.reserved → IsOk result }
    {
        if count > self.reserved {
            self.buffer.reserve(count)?;
            self.reserved = count;
        }
        Ok(())
    }

    /// Appends the bytes. Where they were reserved, it never runs out of memory.
    pub fn append(&mut self, more: &[u8]) -> Result<(), OutOfMemory>
        ensures ok { OnOk result (self.new ≡ record {
          bytes = self.old.bytes ++ more.now;
          reserved = self.old.reserved - length more.now;
        }) }
        ensures err { OnErr result (self.new ≡ self.old) }
        ensures fits { length more.now ≤ self.old.reserved → IsOk result }
    {
        self.buffer.extend_from_slice(more)?;
        self.reserved = self.reserved.saturating_sub(more.len());
        Ok(())
    }

    /// Appends the bytes that `write` appends to a buffer; it may not change what stands there
    /// before, also where it runs out of memory. What was reserved is used up by it.
    pub fn append_with<W>(&mut self, write: W) -> Result<(), OutOfMemory>
    where
        W: FnOnce(&mut Vec<u8>) -> Result<(), OutOfMemory>,
        ghost more: { List ℕ }
        requires callable { W.IsAlwaysCallable write }
        requires appends { (before after : _) (outcome : _) →
            FnOnceReturnsAtMut W.FnOnce write before outcome after →
            after.items ≡ (if is_ok outcome then before.items ++ more else before.items) }
        ensures ok { OnOk result (self.new ≡
            record { bytes = self.old.bytes ++ more; reserved = 0 }) }
        ensures err { OnErr result (self.new.bytes ≡ self.old.bytes) }
    {
        self.reserved = 0;
        write(&mut self.buffer)
    }

    /// Drops the first `count` bytes. What was reserved stays reserved.
    pub fn drop_front(&mut self, count: usize)
        requires { count ≤ length self.old.bytes }
        ensures { self.new ≡ record self.old { bytes = drop count self.old.bytes } }
    {
        let start = self.start + count;
        if start <= self.buffer.len() / 2 {
            self.start = start;
            return;
        }
        remove_front(&mut self.buffer, start);
        self.start = 0;
        shrink(&mut self.buffer, self.reserved);
    }

    /// Keeps the first `count` bytes. What was reserved stays reserved.
    #[tactic(auto, using(crate::proofs::Lists::drop_take))]
    pub fn truncate(&mut self, count: usize)
        requires { count ≤ length self.old.bytes }
        ensures { self.new ≡ record self.old { bytes = take count self.old.bytes } }
    {
        let end = self.start + count;
        self.buffer.truncate(end);
        if self.start > end / 2 {
            remove_front(&mut self.buffer, self.start);
            self.start = 0;
        }
    }

    /// Drops all bytes. What was reserved stays reserved.
    pub fn clear(&mut self)
        ensures { self.new ≡ record self.old { bytes = [] } }
    {
        self.drop_front(self.len());
    }
}
