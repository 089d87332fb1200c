//! The held frames, and which of those before them can still be read.

ghost use Rattle.std.specs.Prelude.{◌≡◌, ◌+◌, ◌-◌, ◌<◌, ◌^◌, ◌≤◌, ◌↔◌, ◌++◌, [], ◌∷◌, length, take, drop, min, max, None, Some, IsTrue, OnOk, OnErr, IfOk, ℕ, List};
ghost use Rattle.rs_frame.specs.declared.frame.Frame.{Frame};
ghost use Rattle.rs_frame.specs.Spelling.{canonical};
ghost use Rattle.std.specs.List.{flat_map};
ghost use Rattle.rs_frame.specs.Framed.{framed};
ghost use Rattle.position.specs.Boundaries.{pos, pos_by};
ghost use Rattle.replay_buffer.specs.Held.{CanReadFrom, HasSpare, IsHeldBoundary, IsHeldOf, IsReadable, end_of, floor_of, framed_from, from_acked, from_boundary, from_least, lesser, new_buffer, readable, spare_after, spare_for, with_newest};

use crate::marks::Place;
use crate::passing::{forget_unpinned, pass_beyond, pass_up_to};
use crate::store::Store;
use rs_frame::Pieces;
use rs_wire::OutOfMemory;
use std::alloc::Global;
use std::marker::Model;

/// The frames made that are still held (RSocket 1.0, "Resuming Operation"), and those before them
/// that can still be read, since a pin keeps them. Contracts see the bytes of each of these frames,
/// the position where the oldest held one starts, the pin, and what was reserved.
#[derive(Debug, Drop)]
pub struct Replay {
    // The frames that can be read.
    store: Store,
    // How many bytes of frames may be held.
    hold: u64,
    // Where there is a pin, the frames from it on can be read, held or not.
    pin: Option<u64>,
}

impl Model for Replay {
    ghost use Rattle.replay_buffer.specs.Held.{Buffer};

    ghost Value = { Buffer };

    ghost use Rattle.replay_buffer.specs.Pinned.{IsPinned, buffer_of};

    ghost view = { buffer_of };

    ghost invariant = { IsPinned };
}

impl Replay {
    /// Nothing is held: the first frame will start at position 0. At most `hold` bytes of frames
    /// will be held, without their length fields. With 0 each frame is forgotten as it is kept.
    pub fn new(alloc: Global, hold: u64) -> Result<Replay, OutOfMemory>
        ensures empty { IfOk result (λ replay. replay ≡ new_buffer hold) }
        ensures of_none { IfOk result (λ replay. IsHeldOf [] 0 replay.held) }
    {
        Ok(Replay {
            store: Store::new(alloc)?,
            hold,
            pin: None,
        })
    }

    /// Reserves memory for `frames` more frames, of `bytes` bytes in sum. What was reserved and not
    /// used before counts.
    pub fn reserve(&mut self, frames: usize, bytes: usize) -> Result<(), OutOfMemory>
        ensures ok { OnOk result
            (self.new ≡ record self.old { spare = spare_for self.old.spare frames bytes }) }
        ensures err { OnErr result (self.new ≡ self.old) }
    {
        self.store.reserve(frames, bytes)
    }

    /// Appends a frame, without its length field, and forgets the oldest whole frames while more
    /// than `hold` bytes are held. A frame that is forgotten stays readable where a pin keeps it. It
    /// takes the time to copy the frame and, over all calls, a constant for each byte forgotten.
    pub fn keep(&mut self, frame: &[u8])
        requires spare { HasSpare self.old.spare (length frame.now) }
        requires shortest { 6 ≤ length frame.now }
        requires longest { length frame.now < 2 ^ 24 }
        requires top { end_of self.old.held + length frame.now < 2 ^ 63 }
        ensures held { let all = with_newest self.old.held frame.now in
            self.new.held ≡ from_least all (end_of all - all.hold) }
        ensures of_made { (made : List Frame) (told : ℕ) (newest : Frame) →
            IsHeldOf made told self.old.held → told ≤ pos made → frame.now ≡ canonical newest →
            IsHeldOf (made ++ newest ∷ []) told self.new.held }
        ensures readable { readable self.new ≡ from_boundary
            (with_newest (readable self.old) frame.now)
            (lesser self.old.pin self.new.held.first) }
        ensures pin { self.new.pin ≡ self.old.pin }
        ensures end { end_of self.new.held ≡ end_of self.old.held + length frame.now }
        ensures spare { self.new.spare ≡ spare_after self.old.spare (length frame.now) }
    {
        self.store.append(frame);
        pass_beyond(&mut self.store, self.hold);
        forget_unpinned(&mut self.store, self.pin);
    }

    /// Appends a frame that stands after its length field, in pieces, as [`Replay::keep`] does.
    pub fn keep_framed(&mut self, bytes: &Pieces<'_>)
        requires framed { bytes.now ≡ framed (drop 3 bytes.now) }
        requires spare { HasSpare self.old.spare (length (drop 3 bytes.now)) }
        requires shortest { 6 ≤ length (drop 3 bytes.now) }
        requires longest { length (drop 3 bytes.now) < 2 ^ 24 }
        requires top { end_of self.old.held + length (drop 3 bytes.now) < 2 ^ 63 }
        ensures held { let all = with_newest self.old.held (drop 3 bytes.now) in
            self.new.held ≡ from_least all (end_of all - all.hold) }
        ensures of_made { (made : List Frame) (told : ℕ) (newest : Frame) →
            IsHeldOf made told self.old.held → told ≤ pos made →
            drop 3 bytes.now ≡ canonical newest →
            IsHeldOf (made ++ newest ∷ []) told self.new.held }
        ensures readable { readable self.new ≡ from_boundary
            (with_newest (readable self.old) (drop 3 bytes.now))
            (lesser self.old.pin self.new.held.first) }
        ensures pin { self.new.pin ≡ self.old.pin }
        ensures end { end_of self.new.held ≡
            end_of self.old.held + length (drop 3 bytes.now) }
        ensures spare { self.new.spare ≡
            spare_after self.old.spare (length (drop 3 bytes.now)) }
    {
        self.store.append_framed(bytes);
        pass_beyond(&mut self.store, self.hold);
        forget_unpinned(&mut self.store, self.pin);
    }

    /// Forgets the whole frames that end at or before the position. Such a frame stays readable
    /// where a pin keeps it. Over all calls it takes a constant time for each byte forgotten.
    pub fn release(&mut self, position: u64)
        ensures held { self.new.held ≡ from_acked self.old.held position }
        ensures of_made { (made : List Frame) (told : ℕ) →
            IsHeldOf made told self.old.held → IsHeldOf made (max told position) self.new.held }
        ensures readable { readable self.new ≡ from_boundary
            (readable self.old) (lesser self.old.pin self.new.held.first) }
        ensures pin { self.new.pin ≡ self.old.pin }
        ensures end { end_of self.new.held ≡ end_of self.old.held }
        ensures spare { self.new.spare ≡ self.old.spare }
    {
        pass_up_to(&mut self.store, position);
        forget_unpinned(&mut self.store, self.pin);
    }

    /// Keeps the frames readable that start at the position or later, also where they are
    /// forgotten. There is one pin: it takes the place of the one before.
    pub fn pin(&mut self, position: u64)
        requires { CanReadFrom self.old position }
        ensures held { self.new.held ≡ self.old.held }
        ensures readable { readable self.new ≡ from_boundary
            (readable self.old) (lesser (Some position) self.old.held.first) }
        ensures pin { self.new.pin ≡ Some position }
        ensures spare { self.new.spare ≡ self.old.spare }
    {
        self.store.remember(position);
        self.pin = Some(position);
        forget_unpinned(&mut self.store, self.pin);
    }

    /// Takes the pin away: what is held is what can be read.
    pub fn unpin(&mut self)
        ensures { self.new ≡ record self.old { below = []; pin = None } }
    {
        self.pin = None;
        forget_unpinned(&mut self.store, self.pin);
    }

    /// The lesser of the pin and of [`Replay::first`], and `first` without a pin: frames from there on
    /// can be read.
    pub fn floor(&self) -> u64
        ensures value { result ≡ floor_of self.now }
        ensures lesser { result ≡ lesser self.now.pin self.now.held.first }
        ensures within { pos_by length self.now.below ≤ self.now.held.first }
    {
        self.store.floor()
    }

    /// Whether a frame that can be read starts at the position, or the newest frame ended there. It
    /// takes the time to find the frame: a binary search among marks, and the lengths of fewer than 128
    /// frames.
    pub fn readable(&self, position: u64) -> bool
        ensures { IsTrue result ↔ IsReadable self.now position }
    {
        self.store.is_start(position)
    }

    /// The position where the oldest held frame starts: [`Replay::end`] where none is held.
    pub fn first(&self) -> u64
        ensures { result ≡ self.now.held.first }
    {
        self.store.first()
    }

    /// The position where the newest frame ended, held or not.
    pub fn end(&self) -> u64
        ensures value { result ≡ end_of self.now.held }
        ensures bound { result < 2 ^ 63 }
    {
        self.store.end()
    }

    /// Whether a held frame starts at the position, or the newest frame ended there. It takes the
    /// time to find the frame, as [`Replay::readable`] does.
    pub fn is_boundary(&self, position: u64) -> bool
        ensures { IsTrue result ↔ IsHeldBoundary self.now.held position }
    {
        position >= self.store.first() && self.store.is_start(position)
    }

    /// How many bytes the frames from a readable boundary on have, with their length fields.
    pub fn framed_len(&self, from: u64) -> u64
        requires { CanReadFrom self.now from }
        ensures value { result ≡ length (framed_from (readable self.now) from) }
        ensures held { IsHeldBoundary self.now.held from →
            framed_from (readable self.now) from ≡ framed_from self.now.held from }
        ensures bound { result < 2 ^ 63 }
    {
        self.store.framed_len(from)
    }

    /// How many bytes all readable frames have, with their length fields.
    pub fn framed_total(&self) -> u64
        ensures value { result ≡ length (flat_map framed (readable self.now).frames) }
        ensures bound { result < 2 ^ 63 }
    {
        self.store.framed_total()
    }

    /// Writes as many bytes as fit of the frames from a readable boundary on, each after its length
    /// field, without the first `skip` of these bytes. Answers how many were written. It takes the
    /// time to copy them and to find the frame, as [`Replay::readable`] does.
    pub fn copy(&self, from: u64, skip: u64, buffer: &mut [u8]) -> usize
        requires boundary { CanReadFrom self.now from }
        requires within { skip ≤ length (framed_from (readable self.now) from) }
        ensures count { let framed = framed_from (readable self.now) from in
            result ≡ min (length buffer.old) (length framed - skip) }
        ensures written { let framed = framed_from (readable self.now) from in
            buffer.new ≡ take result (drop skip framed) ++ drop result buffer.old }
    {
        self.store.copy(from, skip, buffer)
    }

    /// The last readable boundary that the first `count` framed bytes from a readable boundary on
    /// reach, and how many of them lie after it. It takes the time to find the two frames, as
    /// [`Replay::readable`] does, and a constant for every 128 frames between them.
    pub fn place_after(&self, from: u64, count: u64) -> Place
        requires boundary { CanReadFrom self.now from }
        requires within { count ≤ length (framed_from (readable self.now) from) }
        ensures boundary { IsReadable self.now result.position }
        ensures later { from ≤ result.position }
        ensures skip { result.skip ≤ count }
        ensures rest { drop (count - result.skip) (framed_from (readable self.now) from) ≡
            framed_from (readable self.now) result.position }
        ensures inside { result.skip ≤ length (framed_from (readable self.now) result.position) }
        ensures last { (p : ℕ) → IsReadable self.now p → result.position < p →
            count + length (framed_from (readable self.now) p)
            < length (framed_from (readable self.now) from) }
    {
        self.store.place_after(from, count)
    }
}
