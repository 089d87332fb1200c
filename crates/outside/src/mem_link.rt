//! A link in memory.

ghost use Rattle.std.specs.Prelude.{◌≡◌, ◌≤◌, ◌<◌, ◌↔◌, ℕ, IsTrue, false, length, drop, min, [], ◌++◌};
ghost use Rattle.outside.specs.Causes.{one_more, Rose};
ghost use Rattle.outside.specs.Links.{IsGive, IsTake, NoneFell, counts_after_give, counts_after_take};
ghost use Rattle.outside.specs.MemoryLink.{IsSetAlike, fresh, link_fails_next, shown_of};

use crate::calls::Calls;
use crate::link::{Given, Link, Taken};
use rs_wire::Blob;
use std::alloc::Global;
use std::marker::Model;

/// What a link in memory does after its last byte.
#[derive(Clone, Copy, Debug, PartialEq, Eq)]
pub enum After {
    /// Each further take is a lull.
    Lulls,
    /// Each further take is an end.
    Ends,
}

/// A link in memory, which shows everything. A call moves as many bytes as it can and is allowed to,
/// and fails where its list says so. A give that runs out of memory fails too. Takes and gives have
/// one numbering.
#[derive(Drop)]
pub struct MemLink {
    // The bytes that come from the peer.
    bytes: Blob,
    // How many of them were taken.
    start: usize,
    given: Vec<u8>,
    after: After,
    // The most bytes of one call.
    most: u32,
    calls: Calls,
    lulls: u64,
    ends: u64,
}

impl Model for MemLink {
    ghost use Rattle.std.specs.Prelude.{◌≤◌, ◌<◌, drop, take, length};
    ghost use Rattle.outside.specs.MemoryLink.{MemoryLink};

    ghost Value = { MemoryLink };

    ghost view = { λ l. record {
      taken = take l.start l.bytes;
      left = drop l.start l.bytes;
      given = l.given.items;
      after = l.after;
      most = l.most;
      calls = l.calls.count;
      counts = record { faults = l.calls.faults; lulls = l.lulls; stalls = 0; ends = l.ends };
      fails = l.calls.fails.items;
    } };

    ghost invariant = { λ l. (l.start ≤ length l.bytes) × (0 < l.most) };
}

impl MemLink {
    /// A link that gives these bytes and then lulls or ends. A call moves at most `most` bytes, at
    /// least 1. `fails` has the numbers, from 1, of the takes and gives that are to fail.
    pub fn new(alloc: Global, bytes: Blob, after: After, most: u32, fails: Vec<u64>) -> MemLink
        requires { 0 < most }
        ensures { result ≡ fresh bytes after most fails.items }
    {
        MemLink {
            bytes,
            start: 0,
            given: Vec::new(alloc),
            after,
            most,
            calls: Calls::new(fails),
            lulls: 0,
            ends: 0,
        }
    }

    /// The bytes given.
    pub fn given(&self) -> &[u8]
        ensures { result.now ≡ self.now.given }
    {
        self.given.as_slice()
    }

    /// The bytes taken.
    pub fn taken(&self) -> &[u8]
        ensures { result.now ≡ self.now.taken }
    {
        &self.bytes.as_slice()[..self.start]
    }
}

impl Link for MemLink {
    ghost use Rattle.outside.specs.MemoryLink.{shown_of};

    ghost shown = { shown_of };

    fn take(&mut self, buffer: &mut [u8]) -> Taken
        requires { 0 < length buffer.old }
        ensures taken { IsTake (shown_of self.old).taken
            (shown_of self.new).taken buffer.new result }
        ensures given { (shown_of self.new).given ≡ (shown_of self.old).given }
        ensures counted { NoneFell self.old.counts self.new.counts }
        ensures failed { result ≡ Taken.Failed →
            Rose self.old.counts.faults self.new.counts.faults }
        ensures lull { result ≡ Taken.Lull → Rose self.old.counts.lulls self.new.counts.lulls }
        ensures end { result ≡ Taken.End → Rose self.old.counts.ends self.new.counts.ends }

        // It fails exactly in the calls of its list, and else moves all that it can.
        ensures told_to { (result ≡ Taken.Failed) ↔ IsTrue (link_fails_next self.old) }
        ensures most { link_fails_next self.old ≡ false →
            self.new.left ≡ drop (min (length buffer.new) self.old.most) self.old.left }
        ensures same_bytes { self.new.taken ++ self.new.left ≡ self.old.taken ++ self.old.left }
        ensures lulls { result ≡ Taken.Lull → (self.old.left ≡ []) × (self.old.after ≡
            After.Lulls) }
        ensures ends { result ≡ Taken.End → (self.old.left ≡ []) × (self.old.after ≡ After.Ends) }
        ensures counts { self.new.counts ≡ counts_after_take result self.old.counts }
        ensures calls { self.new.calls ≡ one_more self.old.calls }
        ensures kept { IsSetAlike self.old self.new }
    {
        if self.calls.begin() {
            self.calls.fault();
            return Taken::Failed;
        }
        let (_, left) = self.bytes.as_slice().split_at(self.start);
        if left.is_empty() {
            return match self.after {
                After::Lulls => {
                    self.lulls = self.lulls.saturating_add(1);
                    Taken::Lull
                }
                After::Ends => {
                    self.ends = self.ends.saturating_add(1);
                    Taken::End
                }
            };
        }
        let count = left.len().min(buffer.len()).min(self.most as usize);
        buffer[..count].copy_from_slice(&left[..count]);
        self.start += count;
        Taken::Took(count)
    }

    fn give(&mut self, piece: &[u8]) -> Given
        requires { 0 < length piece.now }
        ensures given { IsGive (shown_of self.old).given
            (shown_of self.new).given piece.now result }
        ensures taken { (shown_of self.new).taken ≡ (shown_of self.old).taken }
        ensures counted { NoneFell self.old.counts self.new.counts }
        ensures failed { result ≡ Given.Failed →
            Rose self.old.counts.faults self.new.counts.faults }
        ensures lull { result ≡ Given.Lull → Rose self.old.counts.stalls self.new.counts.stalls }

        // It fails in the calls of its list, and where there is no memory.
        ensures told_to { IsTrue (link_fails_next self.old) → result ≡ Given.Failed }
        ensures most { (n : ℕ) → result ≡ Given.Took n → n ≡ min (length piece.now) self.old.most }
        ensures left { self.new.left ≡ self.old.left }
        ensures counts { self.new.counts ≡ counts_after_give result self.old.counts }
        ensures calls { self.new.calls ≡ one_more self.old.calls }
        ensures kept { IsSetAlike self.old self.new }
    {
        if self.calls.begin() {
            self.calls.fault();
            return Given::Failed;
        }
        let count = piece.len().min(self.most as usize);
        if self.given.extend_from_slice(&piece[..count]).is_err() {
            self.calls.fault();
            return Given::Failed;
        }
        Given::Took(count)
    }
}
