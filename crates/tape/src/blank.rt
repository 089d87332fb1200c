//! Tapes that keep nothing but a count.

ghost use Rattle.std.specs.Prelude.{◌≡◌, None};

use crate::answer::Answer;
use crate::entry::Entry;
use crate::event::Event;
use crate::tapes::Tape;
use rs_wire::{Call, Delivery, Job, OutOfMemory};

/// A tape that counts its entries and keeps none: it shows nothing, and always has spare.
#[derive(Drop)]
pub struct Blank {
    count: u64,
}

impl Blank {
    /// An empty tape.
    pub fn new() -> Blank
        ensures told { ⟦<Blank as Tape>⟧.told result ≡ None }
        ensures count { ⟦<Blank as Tape>⟧.count result ≡ 0 }
    {
        Blank { count: 0 }
    }
}

impl Tape for Blank {
    ghost use Rattle.std.specs.Prelude.{None, ◌^◌};

    ghost told = { λ b. None };

    ghost count = { λ b. b.count };

    ghost spare = { λ b. 2 ^ 64 };

    ghost counted = { λ b. tt };

    fn reserve(&mut self, _n: usize) -> Result<(), OutOfMemory> {
        Ok(())
    }

    fn push(&mut self, entry: Entry) {
        drop(entry);
        self.count += 1;
    }

    fn note(&mut self, _who: u32, _event: &Event, _answer: &Answer) -> Result<(), OutOfMemory> {
        self.count += 1;
        Ok(())
    }

    fn note_call(&mut self, _who: u32, _call: &Call, _answer: &Answer) -> Result<(), OutOfMemory> {
        self.count += 1;
        Ok(())
    }

    fn note_taken(
        &mut self,
        _who: u32,
        _stream: u32,
        _delivery: &Delivery,
    ) -> Result<(), OutOfMemory> {
        self.count += 1;
        Ok(())
    }

    fn note_job(&mut self, _who: u32, _job: &Job) -> Result<(), OutOfMemory> {
        self.count += 1;
        Ok(())
    }

    fn take_back(&mut self) {
        self.count -= 1;
    }

    fn count(&self) -> u64 {
        self.count
    }

    fn entry(&self, _index: u64) -> Option<&Entry> {
        None
    }
}
