//! Frames that are kept: put in line, and held from then on.

ghost use Rattle.std.specs.Prelude.{◌≡◌, ◌+◌, ◌-◌, ◌<◌, ◌≤◌, ◌^◌, ◌++◌, [], ◌∷◌, IfSome, List, OnErr, OnOk, drop, false, length, true, ℕ};
ghost use Rattle.rs_frame.specs.declared.frame.Frame.{Frame as Sent};
ghost use Rattle.rs_frame.specs.Requests.{request_frame};
ghost use Rattle.rs_frame.specs.Spelling.{IsSpellable, canonical, length_of};
ghost use Rattle.rs_frame.specs.Framed.{framed, framed_frame};
ghost use Rattle.position.specs.Boundaries.{pos};
ghost use Rattle.replay_buffer.specs.Held.{HasSpare, IsHeldOf, end_of, from_least, spare_after, with_newest};
ghost use Rattle.outbox.specs.Line.{own_in};
ghost use Rattle.outbox.specs.Waiting.{CanKeepLast, IsKept, with_spare};

use crate::outbox::Outbox;
use crate::spans::{MOST, Spans};
use byteorder::{BigEndian, ByteOrder};
use rs_frame::{
    Frame, Pieces, frame_pieces, item_length, item_pieces, request_length, request_pieces,
};
use rs_wire::{Amount, Kind, Message, OutOfMemory};

/// How long the length field before a frame is.
const LENGTH: usize = 3;

/// How long a frame is at most, without it.
const LONGEST: usize = 16_777_215;

// Whether the bytes are a frame after its length.
fn is_framed(bytes: &[u8]) -> bool
    ensures { result ≡ true → bytes.now ≡ framed (drop 3 bytes.now) }
{
    bytes.len() >= LENGTH && BigEndian::read_u24(bytes) as usize == bytes.len() - LENGTH
}

// Where the last frame starts, of so many bytes after its length, if it can be put into the line.
fn start_of_last(spans: &Spans, own: &[u8], count: usize) -> Option<usize>
    ensures room { IfSome result (λ _. 0 < spans.now.room) }
    ensures within { IfSome result (λ start. start + (3 + count) ≡ length own.now) }
    ensures after { IfSome result (λ start. own_in spans.now.bytes ≤ start) }
    ensures framed { IfSome result (λ start.
        drop start own.now ≡ framed (drop (start + 3) own.now)) }
{
    if count > LONGEST || own.len() < LENGTH + count {
        return None;
    }
    let start = own.len() - (LENGTH + count);
    if (start as u64) < spans.own() || !spans.can_take(start as u64) {
        return None;
    }
    if !is_framed(&own[start..]) {
        return None;
    }
    Some(start)
}

impl Outbox {
    // Keeps the frame of so many bytes that was put in line last.
    fn keep_last(&mut self, count: usize)
        requires { CanKeepLast self.old count }
        ensures held { let all = with_newest self.old.held
            (drop (length self.old.queue - count) self.old.queue) in
            self.new.held ≡ from_least all (end_of all - all.hold) }
        ensures of_made { (made : List Sent) (told : ℕ) (newest : Sent) →
            IsHeldOf made told self.old.held → told ≤ pos made →
            drop (length self.old.queue - count) self.old.queue ≡ canonical newest →
            IsHeldOf (made ++ newest ∷ []) told self.new.held }
        ensures queue { self.new.queue ≡ self.old.queue }
    {
        let own = self.own.as_slice();
        match start_of_last(&self.spans, own, count) {
            Some(start) => {
                self.spans
                    .keep_last(&Pieces::of(&own[start..]), start as u64);
                self.own.truncate(start);
            }
            // It stays among the own bytes.
            None => self.spans.keep(&own[own.len() - count..]),
        }
    }

    // Puts a frame in line that stands after its length, and keeps it, where the line has a place
    // for it. Answers whether it has one. The frame's bytes are copied once.
    fn keep_in_line(&mut self, frame: &Pieces<'_>) -> bool
        requires framed { frame.now ≡ framed (drop 3 frame.now) }
        requires spare { HasSpare self.old.room.spare (length (drop 3 frame.now)) }
        requires shortest { 6 ≤ length (drop 3 frame.now) }
        requires longest { length (drop 3 frame.now) < 2 ^ 24 }
        requires top { end_of self.old.held + length (drop 3 frame.now) < 2 ^ 63 }
        ensures kept { (newest : Sent) → frame.now ≡ framed_frame newest → result ≡ true →
            IsKept newest self.old self.new }
        ensures same { result ≡ false → self.new ≡ self.old }
    {
        let own = self.own.len() as u64;
        if frame.len() as u64 > MOST - self.len() || !self.spans.can_take(own) {
            return false;
        }
        self.spans.keep_last(frame, own);
        true
    }

    /// Puts the PAYLOAD of an item in line after its length, and keeps it. Its message stays its
    /// owner's.
    pub fn keep_item(
        &mut self,
        stream: u32,
        complete: bool,
        message: &Message,
    ) -> Result<(), OutOfMemory>
        requires spellable { IsSpellable (Frame.Payload stream false complete true message.now) }
        requires top { end_of self.old.held +
            length_of (Frame.Payload stream false complete true message.now) < 2 ^ 63 }
        ensures ok { OnOk result (IsKept
            (Frame.Payload stream false complete true message.now) self.old self.new) }
        ensures err { OnErr result (self.new ≡ with_spare self.old self.new.room.spare) }
    {
        let count = item_length(stream, complete, message) as usize;
        self.reserve(1, count)?;
        let frame = item_pieces(stream, complete, message);
        if self.keep_in_line(&frame) {
            return Ok(());
        }
        self.append_item(stream, complete, message)?;
        self.keep_last(count);
        Ok(())
    }

    /// Puts a request whose message is whole in line after its length, and keeps it. Its message stays
    /// its owner's.
    pub fn keep_request(
        &mut self,
        stream: u32,
        kind: Kind,
        initial: &Option<Amount>,
        complete: bool,
        message: &Message,
    ) -> Result<(), OutOfMemory>
        requires spellable { IsSpellable
            (request_frame stream kind initial.now message.now complete) }
        requires top { end_of self.old.held +
            length_of (request_frame stream kind initial.now message.now complete) < 2 ^ 63 }
        ensures ok { OnOk result (IsKept
            (request_frame stream kind initial.now message.now complete) self.old self.new) }
        ensures err { OnErr result (self.new ≡ with_spare self.old self.new.room.spare) }
    {
        let count = request_length(stream, kind, initial, complete, message) as usize;
        self.reserve(1, count)?;
        let frame = request_pieces(stream, kind, initial, complete, message);
        if self.keep_in_line(&frame) {
            return Ok(());
        }
        self.append_request(stream, kind, initial, complete, message)?;
        self.keep_last(count);
        Ok(())
    }

    // The same of a frame that can be put so.
    fn keep_at_once(&mut self, frame: &Frame) -> bool
        requires spellable { IsSpellable frame.now }
        requires spare { HasSpare self.old.room.spare (length_of frame.now) }
        requires top { end_of self.old.held + length_of frame.now < 2 ^ 63 }
        ensures kept { result ≡ true → IsKept frame.now self.old self.new }
        ensures same { result ≡ false → self.new ≡ self.old }
    {
        match frame_pieces(frame) {
            Some(pieces) => self.keep_in_line(&pieces),
            None => false,
        }
    }

    /// Puts a frame in line after its length, and keeps it.
    #[inline(never)]
    pub fn keep_frame(&mut self, frame: &Frame) -> Result<(), OutOfMemory>
        requires spellable { IsSpellable frame.now }
        requires top { end_of self.old.held + length_of frame.now < 2 ^ 63 }
        ensures ok { OnOk result (IsKept frame.now self.old self.new) }
        ensures err { OnErr result (self.new ≡ with_spare self.old self.new.room.spare) }
    {
        let count = rs_frame::length(frame) as usize;
        self.reserve(1, count)?;
        if self.keep_at_once(frame) {
            return Ok(());
        }
        self.append_frame(frame)?;
        self.keep_last(count);
        Ok(())
    }

    /// Keeps a frame.
    pub fn keep(&mut self, frame: &[u8])
        requires spare { HasSpare self.old.room.spare (length frame.now) }
        requires shortest { 6 ≤ length frame.now }
        requires longest { length frame.now < 2 ^ 24 }
        requires top { end_of self.old.held + length frame.now < 2 ^ 63 }
        ensures held { let all = with_newest self.old.held frame.now in
            self.new.held ≡ from_least all (end_of all - all.hold) }
        ensures of_made { (made : List Sent) (told : ℕ) (newest : Sent) →
            IsHeldOf made told self.old.held → told ≤ pos made → frame.now ≡ canonical newest →
            IsHeldOf (made ++ newest ∷ []) told self.new.held }
        ensures end { end_of self.new.held ≡ end_of self.old.held + length frame.now }
        ensures spare { self.new.room.spare ≡ spare_after self.old.room.spare (length frame.now) }
        ensures queue { self.new.queue ≡ self.old.queue }
    {
        self.spans.keep(frame);
    }
}
