//! A sink in memory.

ghost use Rattle.std.specs.Prelude.{◌≡◌, ◌<◌, ℕ, IsTrue, Some, length, []};
ghost use Rattle.outside.specs.Causes.{one_more};
ghost use Rattle.outside.specs.Memory.{next_fails};
ghost use Rattle.outside.specs.Streams.{IsWrite, faults_after_write};

use crate::calls::Calls;
use crate::sink::{Sink, Wrote};
use std::alloc::Global;
use std::marker::Model;

/// A sink in memory, which shows what was written. A write takes the whole piece, and fails in the
/// calls of its list and where there is no memory. Contracts see the bytes written, the
/// counts, and those calls.
#[derive(Drop)]
pub struct MemSink {
    bytes: Vec<u8>,
    calls: Calls,
}

impl Model for MemSink {
    ghost use Rattle.outside.specs.Memory.{Memory};

    ghost Value = { Memory };

    ghost view = { λ s. record {
      content = s.bytes.items;
      calls = s.calls.count;
      faults = s.calls.faults;
      fails = s.calls.fails.items;
    } };
}

impl MemSink {
    /// A sink with nothing written. `fails` has the numbers, from 1, of the writes that are to fail.
    pub fn new(alloc: Global, fails: Vec<u64>) -> MemSink
        ensures { result ≡ record { content = []; calls = 0; faults = 0; fails = fails.items } }
    {
        MemSink {
            bytes: Vec::new(alloc),
            calls: Calls::new(fails),
        }
    }

    /// The bytes written.
    pub fn written(&self) -> &[u8]
        ensures { result.now ≡ self.now.content }
    {
        self.bytes.as_slice()
    }
}

impl Sink for MemSink {
    ghost use Rattle.outside.specs.Memory.{shown_of_memory};

    ghost shown = { shown_of_memory };

    fn write(&mut self, piece: &[u8]) -> Wrote
        requires { 0 < length piece.now }
        ensures write { IsWrite (Some self.old.content) (Some self.new.content) piece.now result }
        ensures faults { self.new.faults ≡ faults_after_write result self.old.faults }

        // It fails in the calls of its list, and else writes the whole piece, unless there
        // is no memory.
        ensures failed { IsTrue (next_fails self.old) → result ≡ Wrote.Failed }
        ensures most { (n : ℕ) → result ≡ Wrote.Took n → n ≡ length piece.now }
        ensures calls { self.new.calls ≡ one_more self.old.calls }
        ensures fails { self.new.fails ≡ self.old.fails }
    {
        if self.calls.begin() {
            self.calls.fault();
            return Wrote::Failed;
        }
        if self.bytes.extend_from_slice(piece).is_err() {
            self.calls.fault();
            return Wrote::Failed;
        }
        Wrote::Took(piece.len())
    }
}
