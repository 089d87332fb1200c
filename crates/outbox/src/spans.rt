//! The line: own bytes and spans of the frames that can be read, in their order.

ghost use Rattle.std.specs.Prelude.{◌≡◌, ◌+◌, ◌-◌, ◌<◌, ◌≤◌, ◌^◌, ◌↔◌, ◌++◌, [], ◌∷◌, IfOk, IsTrue, List, OnErr, OnOk, drop, false, length, max, take, true, ℕ};
ghost use Rattle.rs_frame.specs.declared.frame.Frame.{Frame as Sent};
ghost use Rattle.rs_frame.specs.Spelling.{canonical};
ghost use Rattle.rs_frame.specs.Framed.{framed};
ghost use Rattle.position.specs.Boundaries.{pos};
ghost use Rattle.replay_buffer.specs.Held.{HasSpare, IsHeldBoundary, IsHeldOf, end_of, framed_from, from_acked, from_least, spare_after, spare_for, with_newest};
ghost use Rattle.outbox.specs.Line.{nothing_in_line, own_in, run, weave};

use crate::stretch::{
    Stretch, advance, copy_span, lengthen, make_room, next_place, pin_at, pin_where_one, put_first,
    put_last, unpin_where_none,
};
use replay_buffer::{Place, Replay};
use rs_frame::Pieces;
use rs_wire::OutOfMemory;
use std::alloc::Global;
use std::collections::VecDeque;
use std::marker::Model;

/// More bytes than this never wait: one less than 2^63.
pub const MOST: u64 = 9_223_372_036_854_775_807;

/// Kept frames begin a new stretch where fewer than this wait.
const FEW: usize = 2;

/// How many bytes left the line, and how many of them are own ones.
#[derive(Debug, Clone, Copy)]
pub struct Left {
    pub count: u64,
    pub own: u64,
}

/// The line, and the frames made that are held. Contracts see each byte of the line, what is held,
/// what was reserved, and for how many stretches there is room.
#[derive(Drop)]
pub struct Spans {
    replay: Replay,
    stretches: VecDeque<Stretch>,
    // How many own bytes stand in the line, and how many held ones.
    own: u64,
    held: u64,
    // Whether the last stretch is known to reach the end of the frames.
    reaches: bool,
}

impl Model for Spans {
    ghost use Rattle.outbox.specs.Line.{Line};

    ghost Value = { Line };

    ghost use Rattle.outbox.specs.Spans.{line_of, IsLine};

    ghost view = { line_of };

    ghost invariant = { IsLine };
}

// Copies as many of the bytes as fit to the beginning of the buffer, and answers how many.
fn copy_some(bytes: &[u8], buffer: &mut [u8]) -> usize
    ensures some { 0 < length bytes.now → 0 < length buffer.old → 0 < result }
    ensures within { result ≤ length buffer.old }
    ensures bound { result ≤ length bytes.now }
    ensures taken { buffer.new ≡ take result bytes.now ++ drop result buffer.old }
{
    let count = bytes.len().min(buffer.len());
    buffer[..count].copy_from_slice(&bytes[..count]);
    count
}

// A stretch with so many own bytes fewer.
fn without_own(stretch: Stretch, count: u64) -> Stretch
    requires { count ≤ stretch.own }
    ensures { result ≡ record stretch { own = stretch.own - count } }
{
    Stretch {
        own: stretch.own - count,
        place: stretch.place,
        count: stretch.count,
    }
}

// A stretch with so many held bytes fewer, without the last ones.
fn without_held(stretch: Stretch, count: u64) -> Stretch
    requires { count ≤ stretch.count }
    ensures { result ≡ record stretch { count = stretch.count - count } }
{
    Stretch {
        own: stretch.own,
        place: stretch.place,
        count: stretch.count - count,
    }
}

impl Spans {
    /// The line is empty, and nothing is held. At most `hold` bytes of frames will be.
    pub fn new(alloc: Global, hold: u64) -> Result<Spans, OutOfMemory>
        ensures nothing { IfOk result (nothing_in_line hold) }
        ensures of_none { IfOk result (λ s. IsHeldOf [] 0 s.held) }
    {
        Ok(Spans {
            replay: Replay::new(alloc, hold)?,
            stretches: VecDeque::new(alloc),
            own: 0,
            held: 0,
            reaches: false,
        })
    }

    /// The position where the oldest held frame starts.
    pub fn first(&self) -> u64
        ensures { result ≡ self.now.held.first }
    {
        self.replay.first()
    }

    /// The position where the newest frame ended.
    pub fn end(&self) -> u64
        ensures value { result ≡ end_of self.now.held }
        ensures bound { result < 2 ^ 63 }
    {
        self.replay.end()
    }

    /// Whether a held frame starts at the position, or the newest frame ended there.
    pub fn is_boundary(&self, position: u64) -> bool
        ensures { IsTrue result ↔ IsHeldBoundary self.now.held position }
    {
        self.replay.is_boundary(position)
    }

    /// How many own bytes stand in the line.
    pub fn own(&self) -> u64
        ensures { result ≡ own_in self.now.bytes }
    {
        self.own
    }

    /// How many held bytes stand in the line.
    pub fn held(&self) -> u64
        ensures { own_in self.now.bytes + result ≡ length self.now.bytes }
    {
        self.held
    }

    /// Whether a frame after the first `own` own bytes can be put into the line: there is room, and it
    /// joins the last stretch, or few stretches wait. What was drawn of the first of them stays as long
    /// as another waits.
    pub fn can_take(&self, own: u64) -> bool
        ensures { result ≡ true → 0 < self.now.room }
    {
        self.stretches.len() < self.stretches.capacity()
            && (self.stretches.len() < FEW || (self.reaches && own == self.own))
    }

    /// Reserves memory for `frames` more frames, of `bytes` bytes in sum, and for a stretch.
    pub fn reserve(&mut self, frames: usize, bytes: usize) -> Result<(), OutOfMemory>
        ensures bytes { self.new.bytes ≡ self.old.bytes }
        ensures held { self.new.held ≡ self.old.held }
        ensures ok { OnOk result (self.new.spare ≡ spare_for self.old.spare frames bytes) }
        ensures err { OnErr result (self.new.spare ≡ self.old.spare) }
    {
        make_room(&mut self.stretches)?;
        self.replay.reserve(frames, bytes)?;
        Ok(())
    }

    /// Keeps a frame. It doesn't stand in the line.
    pub fn keep(&mut self, frame: &[u8])
        requires spare { HasSpare self.old.spare (length frame.now) }
        requires shortest { 6 ≤ length frame.now }
        requires longest { length frame.now < 2 ^ 24 }
        requires top { end_of self.old.held + length frame.now < 2 ^ 63 }
        ensures held { let all = with_newest self.old.held frame.now in
            self.new.held ≡ from_least all (end_of all - all.hold) }
        ensures of_made { (made : List Sent) (told : ℕ) (newest : Sent) →
            IsHeldOf made told self.old.held → told ≤ pos made → frame.now ≡ canonical newest →
            IsHeldOf (made ++ newest ∷ []) told self.new.held }
        ensures end { end_of self.new.held ≡ end_of self.old.held + length frame.now }
        ensures spare { self.new.spare ≡ spare_after self.old.spare (length frame.now) }
        ensures bytes { self.new.bytes ≡ self.old.bytes }
    {
        // It does nothing: it says where the frames start that can be read.
        let _floor = self.replay.floor();
        self.replay.keep(frame);
        self.reaches = false;
    }

    /// Keeps a frame that stands after its length, in pieces, and puts it in line after the first
    /// `own` own bytes.
    pub fn keep_last(&mut self, bytes: &Pieces<'_>, own: u64)
        requires framed { bytes.now ≡ framed (drop 3 bytes.now) }
        requires spare { HasSpare self.old.spare (length (drop 3 bytes.now)) }
        requires shortest { 6 ≤ length (drop 3 bytes.now) }
        requires longest { length (drop 3 bytes.now) < 2 ^ 24 }
        requires top { end_of self.old.held + length (drop 3 bytes.now) < 2 ^ 63 }
        requires room { 0 < self.old.room }
        requires own { own_in self.old.bytes ≤ own }
        requires few { own + length self.old.bytes + length bytes.now <
            2 ^ 63 + own_in self.old.bytes }
        ensures held { let all = with_newest self.old.held (drop 3 bytes.now) in
            self.new.held ≡ from_least all (end_of all - all.hold) }
        ensures of_made { (made : List Sent) (told : ℕ) (newest : Sent) →
            IsHeldOf made told self.old.held → told ≤ pos made →
            drop 3 bytes.now ≡ canonical newest →
            IsHeldOf (made ++ newest ∷ []) told self.new.held }
        ensures bytes { self.new.bytes ≡ self.old.bytes ++
            run (own - own_in self.old.bytes) bytes.now }
    {
        let count = bytes.len() as u64;
        let before = own - self.own;
        // It does nothing: it says where the frames start that can be read.
        let _floor = self.replay.floor();
        if lengthen(
            &self.replay,
            &mut self.stretches,
            self.reaches,
            before,
            count,
        ) {
            self.replay.keep_framed(bytes);
            self.held += count;
            return;
        }
        let place = next_place(&mut self.replay, self.stretches.is_empty());
        let _floor = self.replay.floor();
        self.replay.keep_framed(bytes);
        self.stretches.push_back_reserved(Stretch {
            own: before,
            place,
            count,
        });
        self.own = own;
        self.held += count;
        self.reaches = true;
    }

    /// Forgets the whole frames that end at or before the position, but for those in the line.
    pub fn release(&mut self, position: u64)
        ensures held { self.new.held ≡ from_acked self.old.held position }
        ensures of_made { (made : List Sent) (told : ℕ) →
            IsHeldOf made told self.old.held → IsHeldOf made (max told position) self.new.held }
        ensures rest { self.new ≡ record self.old { held = self.new.held } }
    {
        // It does nothing: it says where the frames start that can be read.
        let _floor = self.replay.floor();
        self.replay.release(position);
        self.reaches = false;
    }

    /// Puts the held frames from a boundary on in line after the first `own` own bytes.
    pub fn send_from(&mut self, position: u64, own: u64) -> Result<(), OutOfMemory>
        requires boundary { IsHeldBoundary self.old.held position }
        requires own { own_in self.old.bytes ≤ own }
        requires few { own + length self.old.bytes < 2 ^ 63 + own_in self.old.bytes }
        ensures held { self.new.held ≡ self.old.held }
        ensures spare { self.new.spare ≡ self.old.spare }
        ensures ok { OnOk result (self.new.bytes ≡ self.old.bytes ++
            run (own - own_in self.old.bytes) (framed_from self.old.held position)) }
        ensures few { OnOk result (own + length self.new.bytes < 2 ^ 63 + own_in self.new.bytes) }
        ensures err { OnErr result (self.new.bytes ≡ self.old.bytes) }
    {
        self.stretches.reserve(1)?;
        let count = self.replay.framed_len(position);
        if own + self.held + count > MOST {
            return Err(OutOfMemory);
        }
        let before = own - self.own;
        if before + count == 0 {
            return Ok(());
        }
        pin_at(&mut self.replay, self.stretches.is_empty(), position);
        self.stretches.push_back_reserved(Stretch {
            own: before,
            place: Place { position, skip: 0 },
            count,
        });
        self.own = own;
        self.held += count;
        self.reaches = true;
        Ok(())
    }

    /// Copies some of the first bytes of the line to the beginning of the buffer, or of the own ones
    /// where it is empty. Answers how many.
    pub fn copy_front(&self, own: &[u8], buffer: &mut [u8]) -> usize
        requires own { own_in self.now.bytes ≤ length own.now }
        requires some { 0 < length buffer.old }
        requires wait { length buffer.old ≤ length (weave self.now.bytes own.now) }
        ensures some { 0 < result }
        ensures within { result ≤ length buffer.old }
        ensures taken { buffer.new ≡
            take result (weave self.now.bytes own.now) ++ drop result buffer.old }
    {
        let Some(stretch) = self.stretches.front() else {
            return copy_some(own, buffer);
        };
        if stretch.own > 0 {
            return copy_some(&own[..stretch.own as usize], buffer);
        }
        copy_span(&self.replay, *stretch, buffer)
    }

    /// Drops some of the first bytes, at most so many.
    pub fn drop_some(&mut self, most: u64) -> Left
        ensures bytes { self.new.bytes ≡ drop result.count self.old.bytes }
        ensures own { result.own ≡ own_in (take result.count self.old.bytes) }
        ensures within { result.count ≤ length self.old.bytes }
        ensures most { result.count ≤ most }
        ensures some { 0 < most → 0 < length self.old.bytes → 0 < result.count }
        ensures held { self.new.held ≡ self.old.held }
        ensures spare { self.new.spare ≡ self.old.spare }
    {
        let Some(stretch) = self.stretches.pop_front() else {
            return Left { count: 0, own: 0 };
        };
        if stretch.own > 0 {
            let count = stretch.own.min(most);
            self.own -= count;
            self.reaches = false;
            put_first(&mut self.stretches, without_own(stretch, count));
            unpin_where_none(&mut self.replay, &self.stretches);
            return Left { count, own: count };
        }
        let count = stretch.count.min(most);
        self.held -= count;
        if count == stretch.count {
            unpin_where_none(&mut self.replay, &self.stretches);
            pin_where_one(&mut self.replay, &self.stretches);
            return Left { count, own: 0 };
        }
        let alone = self.stretches.is_empty();
        let place = advance(&mut self.replay, alone, stretch.place, count);
        self.stretches.push_front_reserved(Stretch {
            own: 0,
            place,
            count: stretch.count - count,
        });
        Left { count, own: 0 }
    }

    /// Drops some of the last bytes, at most so many.
    pub fn drop_last(&mut self, most: u64) -> Left
        ensures bytes { self.new.bytes ≡
            take (length self.old.bytes - result.count) self.old.bytes }
        ensures own { result.own ≡
            own_in (drop (length self.old.bytes - result.count) self.old.bytes) }
        ensures within { result.count ≤ length self.old.bytes }
        ensures most { result.count ≤ most }
        ensures some { 0 < most → 0 < length self.old.bytes → 0 < result.count }
        ensures held { self.new.held ≡ self.old.held }
        ensures spare { self.new.spare ≡ self.old.spare }
    {
        let Some(stretch) = self.stretches.pop_back() else {
            return Left { count: 0, own: 0 };
        };
        if stretch.count > 0 {
            let count = stretch.count.min(most);
            self.held -= count;
            self.reaches = false;
            put_last(&mut self.stretches, without_held(stretch, count));
            unpin_where_none(&mut self.replay, &self.stretches);
            return Left { count, own: 0 };
        }
        let count = stretch.own.min(most);
        self.own -= count;
        self.reaches = false;
        put_last(&mut self.stretches, without_own(stretch, count));
        unpin_where_none(&mut self.replay, &self.stretches);
        Left { count, own: count }
    }
}
