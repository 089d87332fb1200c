//! The frames that can be read: those that are held, and those before them.

ghost use Rattle.std.specs.Prelude.{◌≡◌, ◌+◌, ◌-◌, ◌*◌, ◌<◌, ◌^◌, ◌≤◌, ◌++◌, [], ◌∷◌, length, take, drop, OnOk, OnErr, IfOk};
ghost use Rattle.std.specs.List.{flat_map};
ghost use Rattle.rs_frame.specs.Framed.{framed};
ghost use Rattle.position.specs.Boundaries.{frames_from_by, pos_by};
ghost use Rattle.replay_buffer.specs.Held.{HasSpare, spare_after, spare_for};
ghost use Rattle.replay_buffer.specs.Marked.{IsAt};
ghost use Rattle.replay_buffer.specs.Stored.{IsStart, IsTrimmed, end_of, first_after, floor_of, frames_of, framed_from, held_from, nothing_stored};

use crate::blocks::Blocks;
use crate::laid::plain_after;
use crate::marks::{Marks, Spot};
use rs_frame::Pieces;
use rs_wire::OutOfMemory;
use std::alloc::Global;
use std::marker::Model;

/// The frames that can be read, in the order in which they were made. The first of them are held no
/// longer. Contracts see both lists, the position where the second one starts, and what was reserved.
#[derive(Debug, Drop)]
pub struct Store {
    // The frames, as they lie.
    pub(crate) bytes: Blocks,
    // How many frames these are, and where some of them start and lie.
    pub(crate) marks: Marks,
    // The position where the oldest frame starts, and how many bytes lay before it.
    pub(crate) floor: u64,
    pub(crate) base: usize,
    // The oldest frame that is held, or the end of the newest one.
    pub(crate) oldest: Spot,
    // The position where the newest frame ended, stored or not.
    pub(crate) end: u64,
    // From this position on the frames lie as they go onto a stream.
    pub(crate) plain: u64,
    // One of the frames, or the end of the newest one, that is likely to be looked for next.
    pub(crate) near: Spot,
    // How many frames may be kept before more has to be reserved, and their bytes in sum.
    spare_frames: usize,
    spare_bytes: usize,
}

impl Model for Store {
    ghost use Rattle.replay_buffer.specs.Stored.{Stored};

    ghost Value = { Stored };

    ghost use Rattle.replay_buffer.specs.Storage.{stored_of, IsStored};

    ghost view = { stored_of };

    ghost invariant = { IsStored };
}

// How many bytes so many frames of so many bytes in sum have at most, as they lie.
fn laid_len(frames: usize, bytes: usize) -> Result<usize, OutOfMemory>
    ensures { IfOk result (λ n. n ≡ bytes + 4 * frames) }
{
    frames
        .checked_mul(4)
        .and_then(|lengths| lengths.checked_add(bytes))
        .ok_or(OutOfMemory)
}

impl Store {
    /// Nothing is stored: the first frame will start at position 0.
    pub fn new(alloc: Global) -> Result<Store, OutOfMemory>
        ensures { IfOk result (λ store. store ≡ nothing_stored) }
    {
        Ok(Store {
            bytes: Blocks::new(alloc)?,
            marks: Marks::new(alloc)?,
            floor: 0,
            base: 0,
            oldest: Spot::first(0, 0),
            end: 0,
            plain: 0,
            near: Spot::first(0, 0),
            spare_frames: 0,
            spare_bytes: 0,
        })
    }

    /// Reserves memory for `frames` more frames, of `bytes` bytes in sum. What was reserved and not
    /// used before counts.
    pub fn reserve(&mut self, frames: usize, bytes: usize) -> Result<(), OutOfMemory>
        ensures ok { OnOk result
            (self.new ≡ record self.old { spare = spare_for self.old.spare frames bytes }) }
        ensures err { OnErr result (self.new ≡ self.old) }
    {
        let frames = frames.max(self.spare_frames);
        let bytes = bytes.max(self.spare_bytes);
        self.marks.reserve(frames)?;
        self.bytes.reserve(laid_len(frames, bytes)?)?;
        self.spare_frames = frames;
        self.spare_bytes = bytes;
        Ok(())
    }

    /// The position where the oldest frame starts.
    pub fn floor(&self) -> u64
        ensures value { result ≡ floor_of self.now }
        ensures within { pos_by length self.now.below ≤ self.now.first }
        ensures none { result ≡ self.now.first → self.now.below ≡ [] }
    {
        self.floor
    }

    /// The position where the oldest held frame starts.
    pub fn first(&self) -> u64
        ensures value { result ≡ self.now.first }
        ensures low { pos_by length self.now.below ≤ result }
    {
        self.oldest.position
    }

    /// The position where the newest frame ended.
    pub fn end(&self) -> u64
        ensures value { result ≡ end_of self.now }
        ensures bound { result < 2 ^ 63 }
    {
        self.end
    }

    /// Appends a frame.
    pub fn append(&mut self, frame: &[u8])
        requires spare { HasSpare self.old.spare (length frame.now) }
        requires shortest { 6 ≤ length frame.now }
        requires longest { length frame.now < 2 ^ 24 }
        requires top { end_of self.old + length frame.now < 2 ^ 63 }
        ensures { self.new ≡ record self.old {
          held = self.old.held ++ frame.now ∷ [];
          spare = spare_after self.old.spare (length frame.now);
        } }
    {
        self.marks.append(self.end, self.base + self.bytes.len());
        self.bytes.put_laid(frame);
        self.end += frame.len() as u64;
        self.plain = plain_after(self.plain, self.end, frame.len());
        self.spare_frames -= 1;
        self.spare_bytes -= frame.len();
    }

    /// Appends a frame that stands after its length, in pieces.
    pub fn append_framed(&mut self, bytes: &Pieces<'_>)
        requires framed { bytes.now ≡ framed (drop 3 bytes.now) }
        requires spare { HasSpare self.old.spare (length (drop 3 bytes.now)) }
        requires shortest { 6 ≤ length (drop 3 bytes.now) }
        requires longest { length (drop 3 bytes.now) < 2 ^ 24 }
        requires top { end_of self.old + length (drop 3 bytes.now) < 2 ^ 63 }
        ensures { self.new ≡ record self.old {
          held = self.old.held ++ drop 3 bytes.now ∷ [];
          spare = spare_after self.old.spare (length (drop 3 bytes.now));
        } }
    {
        let count = bytes.len() - 3;
        self.marks.append(self.end, self.base + self.bytes.len());
        self.bytes.put_laid_pieces(bytes);
        self.end += count as u64;
        self.plain = plain_after(self.plain, self.end, count);
        self.spare_frames -= 1;
        self.spare_bytes -= count;
    }

    /// How many frames are held no longer.
    pub fn passed(&self) -> usize
        ensures value { result ≡ length self.now.below }
        ensures within { pos_by length self.now.below ≤ self.now.first }
    {
        self.oldest.index
    }

    /// Holds the oldest frame no longer. It can still be read.
    pub fn pass_oldest(&mut self)
        requires { 0 < length self.old.held }
        ensures passed { self.new ≡ record self.old {
          first = first_after self.old;
          below = self.old.below ++ take 1 self.old.held;
          held = drop 1 self.old.held;
        } }
        ensures rises { self.old.first < self.new.first }
    {
        let oldest = self.oldest;
        self.oldest = self.next(oldest);
    }

    /// Holds the frames no longer that lie before a place. They can still be read.
    pub fn pass_to(&mut self, spot: Spot)
        requires at { IsAt (floor_of self.old) self.old.base (frames_of self.old) spot }
        requires later { length self.old.below ≤ spot.index }
        ensures passed { self.new ≡ record self.old {
          first = spot.position;
          below = self.old.below ++ take (spot.index - length self.old.below) self.old.held;
          held = drop (spot.index - length self.old.below) self.old.held;
        } }
        ensures first { self.new.first ≡ self.old.first +
            pos_by length (take (spot.index - length self.old.below) self.old.held) }
        ensures rest { self.new.held ≡
            frames_from_by length self.old.held (self.new.first - self.old.first) }
    {
        self.oldest = spot;
    }

    // Forgets the frames before a place, none of which is held.
    fn forget_before(&mut self, gone: Spot)
        requires at { IsAt (floor_of self.old) self.old.base (frames_of self.old) gone }
        requires below { gone.index ≤ length self.old.below }
        ensures forgotten { self.new ≡ record self.old {
          base = gone.offset;
          below = drop gone.index self.old.below;
        } }
        ensures floor { floor_of self.new ≡ gone.position }
    {
        self.marks.drop_front(gone.index);
        self.bytes.drop_front(gone.offset - self.base);
        self.near = self.near.without_front(gone);
        self.oldest.index -= gone.index;
        self.floor = gone.position;
        self.base = gone.offset;
    }

    /// Forgets the oldest frame, which is held no longer.
    pub fn forget_oldest(&mut self)
        requires { 0 < length self.old.below }
        ensures forgotten { self.new ≡ record self.old {
          base = self.new.base;
          below = drop 1 self.old.below;
        } }
        ensures rises { floor_of self.old < floor_of self.new }
    {
        let oldest = Spot::first(self.floor, self.base);
        let next = self.next(oldest);
        self.forget_before(next);
    }

    /// Forgets the frames that are held no longer.
    pub fn forget_passed(&mut self)
        ensures { IsTrimmed self.old self.new self.old.first }
    {
        let held = self.oldest;
        self.forget_before(held);
    }

    /// How many bytes the frames from one on have, each after its length field.
    pub fn framed_len(&self, from: u64) -> u64
        requires { IsStart self.now from }
        ensures value { result ≡ length (framed_from self.now from) }
        ensures held { self.now.first ≤ from → framed_from self.now from ≡ held_from self.now from }
        ensures bound { result < 2 ^ 63 }
    {
        let frames = self.marks.frames() - self.find(from).index;
        (self.end - from) + 3 * frames as u64
    }

    /// How many bytes all frames have, each after its length field.
    pub fn framed_total(&self) -> u64
        ensures value { result ≡ length (flat_map framed (frames_of self.now)) }
        ensures bound { result < 2 ^ 63 }
    {
        (self.end - self.floor) + 3 * self.marks.frames() as u64
    }
}
