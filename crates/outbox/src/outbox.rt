//! The bytes that wait, and what is held.

ghost use Rattle.std.specs.Prelude.{◌≡◌, ◌+◌, ◌-◌, ◌<◌, ◌≤◌, ◌^◌, ◌↔◌, ◌++◌, [], ◌∷◌, IfOk, IsTrue, List, OnErr, OnOk, drop, false, length, max, take, true, ℕ};
ghost use Rattle.std.specs.List.{AllByRecursion};
ghost use Rattle.rs_frame.specs.declared.frame.Frame.{Frame as Sent};
ghost use Rattle.rs_frame.specs.Requests.{request_frame};
ghost use Rattle.rs_frame.specs.Spelling.{IsSpellable};
ghost use Rattle.rs_frame.specs.Framed.{framed_all};
ghost use Rattle.replay_buffer.specs.Held.{IsHeldBoundary, IsHeldOf, end_of, framed_from, from_acked, spare_for};
ghost use Rattle.outbox.specs.Waiting.{nothing_waits, with_last, with_queue, with_spare};

use crate::drawing;
use crate::spans::{MOST, Spans};
use byte_queue::ByteQueue;
use rs_chunk::{frame_bytes, frames_bytes, item_bytes, request_bytes};
use rs_frame::Frame;
use rs_wire::{Amount, Kind, Message, OutOfMemory};
use std::alloc::Global;
use std::marker::Model;

/// What waits to be drawn, and what is held. Contracts see the bytes that wait, what is held, what
/// was reserved, and how many of the last bytes lie in one piece.
#[derive(Drop)]
pub struct Outbox {
    /// The own bytes: those of frames that lie nowhere else.
    pub(crate) own: ByteQueue,
    /// The line: own bytes that have held ones after them, and these. The other own bytes come last.
    pub(crate) spans: Spans,
}

impl Model for Outbox {
    ghost use Rattle.outbox.specs.Waiting.{Waiting};

    ghost Value = { Waiting };

    ghost use Rattle.outbox.specs.Woven.{waiting_of, IsWoven};

    ghost view = { waiting_of };

    ghost invariant = { IsWoven };
}

// Drops what was appended after the first `before` own bytes, where more would wait than can.
fn keep_within(own: &mut ByteQueue, held: u64, before: usize) -> Result<(), OutOfMemory>
    requires before { before ≤ length own.old.bytes }
    requires held { held < 2 ^ 63 }
    ensures ok { OnOk result (own.new ≡ own.old) }
    ensures few { OnOk result (length own.old.bytes + held < 2 ^ 63) }
    ensures err { OnErr result (own.new.bytes ≡ take before own.old.bytes) }
{
    if own.len() as u64 + held > MOST {
        own.truncate(before);
        return Err(OutOfMemory);
    }
    Ok(())
}

impl Outbox {
    /// Nothing waits and nothing is held. At most `hold` bytes of frames will be held.
    pub fn new(alloc: Global, hold: u64) -> Result<Outbox, OutOfMemory>
        ensures nothing { IfOk result (λ o. o ≡ nothing_waits hold) }
        ensures of_none { IfOk result (λ o. IsHeldOf [] 0 o.held) }
    {
        Ok(Outbox {
            own: ByteQueue::new(alloc),
            spans: Spans::new(alloc, hold)?,
        })
    }

    /// How many bytes wait.
    pub fn len(&self) -> u64
        ensures value { result ≡ length self.now.queue }
        ensures bound { result < 2 ^ 63 }
    {
        self.own.len() as u64 + self.spans.held()
    }

    /// The position where the oldest held frame starts.
    pub fn first(&self) -> u64
        ensures { result ≡ self.now.held.first }
    {
        self.spans.first()
    }

    /// The position where the newest frame ended.
    pub fn end(&self) -> u64
        ensures value { result ≡ end_of self.now.held }
        ensures bound { result < 2 ^ 63 }
    {
        self.spans.end()
    }

    /// Whether a held frame starts at the position, or the newest frame ended there.
    pub fn is_boundary(&self, position: u64) -> bool
        ensures { IsTrue result ↔ IsHeldBoundary self.now.held position }
    {
        self.spans.is_boundary(position)
    }

    /// Reserves memory for `frames` more frames that are kept, of `bytes` bytes in sum.
    pub fn reserve(&mut self, frames: usize, bytes: usize) -> Result<(), OutOfMemory>
        ensures ok { OnOk result (self.new ≡ with_spare
            self.old (spare_for self.old.room.spare frames bytes)) }
        ensures err { OnErr result (self.new ≡ self.old) }
    {
        self.spans.reserve(frames, bytes)
    }

    /// Puts frames in line that no position counts, or that are not held, each after its length.
    pub fn append(&mut self, frames: &[Frame]) -> Result<(), OutOfMemory>
        requires { AllByRecursion IsSpellable frames.now }
        ensures ok { OnOk result (self.new ≡ with_last self.old (framed_all frames.now)) }
        ensures err { OnErr result (self.new ≡ self.old) }
    {
        let before = self.own.len();
        self.own.append_with(|bytes| frames_bytes(frames, bytes))?;
        keep_within(&mut self.own, self.spans.held(), before)?;
        Ok(())
    }

    // Puts a frame in line after its length.
    pub(crate) fn append_frame(&mut self, frame: &Frame) -> Result<(), OutOfMemory>
        requires { IsSpellable frame.now }
        ensures ok { OnOk result (self.new ≡ with_last self.old (framed_all (frame.now ∷ []))) }
        ensures err { OnErr result (self.new ≡ self.old) }
    {
        let before = self.own.len();
        self.own.append_with(|bytes| frame_bytes(frame, bytes))?;
        keep_within(&mut self.own, self.spans.held(), before)?;
        Ok(())
    }

    /// Puts the PAYLOAD of an item in line after its length. Its message stays its owner's.
    pub fn append_item(
        &mut self,
        stream: u32,
        complete: bool,
        message: &Message,
    ) -> Result<(), OutOfMemory>
        requires { IsSpellable (Frame.Payload stream false complete true message.now) }
        ensures ok { OnOk result (self.new ≡ with_last self.old
            (framed_all (Frame.Payload stream false complete true message.now ∷ []))) }
        ensures err { OnErr result (self.new ≡ self.old) }
    {
        let before = self.own.len();
        self.own
            .append_with(move |bytes| item_bytes(stream, complete, message, bytes))?;
        keep_within(&mut self.own, self.spans.held(), before)?;
        Ok(())
    }

    /// Puts a request whose message is whole in line after its length. Its message stays its owner's.
    pub fn append_request(
        &mut self,
        stream: u32,
        kind: Kind,
        initial: &Option<Amount>,
        complete: bool,
        message: &Message,
    ) -> Result<(), OutOfMemory>
        requires { IsSpellable (request_frame stream kind initial.now message.now complete) }
        ensures ok { OnOk result (self.new ≡ with_last self.old
            (framed_all (request_frame stream kind initial.now message.now complete ∷ []))) }
        ensures err { OnErr result (self.new ≡ self.old) }
    {
        let before = self.own.len();
        self.own.append_with(move |bytes| {
            request_bytes(stream, kind, initial, complete, message, bytes)
        })?;
        keep_within(&mut self.own, self.spans.held(), before)?;
        Ok(())
    }

    /// Puts the held frames from a held boundary on in line, each after its length.
    pub fn send_from(&mut self, position: u64) -> Result<(), OutOfMemory>
        requires { IsHeldBoundary self.old.held position }
        ensures ok { OnOk result (self.new ≡ with_queue self.old
            (self.old.queue ++ framed_from self.old.held position) self.new.room.loose) }
        ensures err { OnErr result (self.new ≡ self.old) }
    {
        self.spans.send_from(position, self.own.len() as u64)?;
        Ok(())
    }

    /// Forgets the whole frames that end at or before the position.
    pub fn release(&mut self, position: u64)
        ensures held { self.new.held ≡ from_acked self.old.held position }
        ensures of_made { (made : List Sent) (told : ℕ) →
            IsHeldOf made told self.old.held → IsHeldOf made (max told position) self.new.held }
        ensures same { self.new ≡ record self.old { held = self.new.held } }
    {
        self.spans.release(position);
    }

    /// Keeps the first bytes of what waits alone.
    pub fn truncate(&mut self, count: u64)
        requires { count ≤ length self.old.queue }
        ensures { self.new ≡ with_queue self.old (take count self.old.queue) self.new.room.loose }
    {
        drawing::truncate(self, count);
    }

    /// Drops the first bytes of what waits.
    pub fn drop_front(&mut self, count: u64)
        requires { count ≤ length self.old.queue }
        ensures { self.new ≡ with_queue self.old (drop count self.old.queue) self.new.room.loose }
    {
        drawing::drop_front(self, count);
    }

    // Drops some of the first bytes that wait, at most so many, and answers how many.
    pub(crate) fn drop_some(&mut self, most: u64) -> u64
        requires some { 0 < most }
        requires wait { most ≤ length self.old.queue }
        ensures some { 0 < result }
        ensures within { result ≤ most }
        ensures left { self.new ≡
            with_queue self.old (drop result self.old.queue) self.new.room.loose }
    {
        let left = self.spans.drop_some(most);
        if left.count == 0 {
            self.own.drop_front(most as usize);
            return most;
        }
        self.own.drop_front(left.own as usize);
        left.count
    }

    // Drops some of the last bytes that wait, at most so many, and answers how many.
    pub(crate) fn drop_last(&mut self, most: u64) -> u64
        requires some { 0 < most }
        requires wait { most ≤ length self.old.queue }
        ensures some { 0 < result }
        ensures within { result ≤ most }
        ensures left { self.new ≡ with_queue self.old
            (take (length self.old.queue - result) self.old.queue) self.new.room.loose }
    {
        let own = self.own.len();
        let last = own as u64 - self.spans.own();
        if last > 0 {
            let count = last.min(most);
            self.own.truncate(own - count as usize);
            return count;
        }
        let left = self.spans.drop_last(most);
        self.own.truncate(own - left.own as usize);
        left.count
    }

    // Copies some of the first bytes that wait to the beginning of the buffer, and answers how many.
    pub(crate) fn copy_front(&self, buffer: &mut [u8]) -> usize
        requires some { 0 < length buffer.old }
        requires wait { length buffer.old ≤ length self.now.queue }
        ensures some { 0 < result }
        ensures within { result ≤ length buffer.old }
        ensures taken { buffer.new ≡ take result self.now.queue ++ drop result buffer.old }
    {
        self.spans.copy_front(self.own.as_slice(), buffer)
    }

    /// Moves the first bytes into the buffer, as many as it has room for.
    pub fn take_front(&mut self, buffer: &mut [u8])
        requires { length buffer.old ≤ length self.old.queue }
        ensures taken { buffer.new ≡ take (length buffer.old) self.old.queue }
        ensures left { self.new ≡ with_queue
            self.old (drop (length buffer.old) self.old.queue) self.new.room.loose }
    {
        drawing::take_front(self, buffer);
    }
}
