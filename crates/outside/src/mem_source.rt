//! A source in memory.

ghost use Rattle.std.specs.Prelude.{◌≡◌, ◌≤◌, ◌<◌, ◌↔◌, IsTrue, Some, length, false, ◌++◌, take, drop};
ghost use Rattle.outside.specs.Causes.{one_more};
ghost use Rattle.outside.specs.Memory.{next_fails};
ghost use Rattle.outside.specs.Streams.{IsPartOf, IsRead, faults_after_read};

use crate::calls::Calls;
use crate::source::{Read, Source};
use rs_wire::Blob;
use std::marker::Model;

/// A source of bytes in memory, which shows them. A read takes as many bytes as fit, and fails in
/// the calls of its list. Contracts see the bytes left, the counts, and those calls.
#[derive(Drop)]
pub struct MemSource {
    bytes: Blob,
    /// Where the bytes left begin.
    start: usize,
    calls: Calls,
}

impl Model for MemSource {
    ghost use Rattle.std.specs.Prelude.{◌≤◌, drop, length};
    ghost use Rattle.outside.specs.Memory.{Memory};

    ghost Value = { Memory };

    ghost view = { λ s. record {
      content = drop s.start s.bytes;
      calls = s.calls.count;
      faults = s.calls.faults;
      fails = s.calls.fails.items;
    } };

    ghost invariant = { λ s. s.start ≤ length s.bytes };
}

impl MemSource {
    /// The source of these bytes. `fails` has the numbers, from 1, of the reads that are to fail.
    pub fn new(bytes: Blob, fails: Vec<u64>) -> MemSource
        ensures { result ≡ record { content = bytes; calls = 0; faults = 0; fails = fails.items } }
    {
        MemSource {
            bytes,
            start: 0,
            calls: Calls::new(fails),
        }
    }
}

impl Source for MemSource {
    ghost use Rattle.outside.specs.Memory.{shown_of_memory};

    ghost shown = { shown_of_memory };

    fn read(&mut self, buffer: &mut [u8]) -> Read
        requires { 0 < length buffer.old }
        ensures read { IsRead (Some self.old.content) (Some self.new.content) buffer.new result }
        ensures faults { self.new.faults ≡ faults_after_read result self.old.faults }

        // It fails exactly in the calls of its list, and else moves all that it can.
        ensures failed { (result ≡ Read.Failed) ↔ IsTrue (next_fails self.old) }
        ensures most { next_fails self.old ≡ false →
            self.new.content ≡ drop (length buffer.new) self.old.content }
        ensures calls { self.new.calls ≡ one_more self.old.calls }
        ensures fails { self.new.fails ≡ self.old.fails }
    {
        if self.calls.begin() {
            self.calls.fault();
            return Read::Failed;
        }
        let (_, left) = self.bytes.as_slice().split_at(self.start);
        if left.is_empty() {
            return Read::End;
        }
        let count = fill(buffer, left);
        self.start += count;
        Read::Took(count)
    }
}

// Copies as many bytes as fit. How many.
fn fill(buffer: &mut [u8], bytes: &[u8]) -> usize
    requires room { 0 < length buffer.old }
    requires some { 0 < length bytes.now }
    ensures count { IsPartOf result (length buffer.new) }
    ensures fits { result ≤ length bytes.now }
    ensures front { bytes.now ≡ take result buffer.new ++ drop result bytes.now }
    ensures most { drop result bytes.now ≡ drop (length buffer.new) bytes.now }
{
    let count = bytes.len().min(buffer.len());
    buffer[..count].copy_from_slice(&bytes[..count]);
    count
}
