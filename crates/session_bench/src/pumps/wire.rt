//! One end of a wire in memory.

ghost use Rattle.std.specs.Prelude.{◌≤◌, vec_len};

use anyhow::{Result, ensure};
use outside::{Given, Link, Taken};
use std::alloc::Global;
use std::mem::swap;

/// One end of a wire in memory. It shows no bytes: a record of them would take longer than a pump.
#[derive(Drop)]
pub struct Wire {
    /// The bytes that come, of which so many were taken.
    coming: Vec<u8>,
    taken: usize,
    /// The bytes given that are not at the other end yet.
    given: Vec<u8>,
    lulls: u64,
    faults: u64,
    ghost within: { taken ≤ vec_len coming },
}

impl Wire {
    /// An end to which nothing came yet.
    pub fn new(alloc: Global) -> Wire {
        Wire {
            coming: Vec::new(alloc),
            taken: 0,
            given: Vec::new(alloc),
            lulls: 0,
            faults: 0,
        }
    }

    /// The bytes given that are not at the other end yet.
    pub fn given(&self) -> &[u8] {
        self.given.as_slice()
    }

    /// What was given never comes.
    pub fn forget(&mut self) {
        self.given.clear();
    }

    /// What the other end was given comes here, where all is taken that came before.
    pub fn carry(&mut self, other: &mut Wire) -> Result<()> {
        ensure!(self.taken == self.coming.len(), "not all is taken");
        self.taken = 0;
        self.coming.clear();
        swap(&mut self.coming, &mut other.given);
        Ok(())
    }
}

impl Link for Wire {
    ghost use Rattle.std.specs.Prelude.{None};

    ghost shown = { λ w. record {
      taken = None;
      given = None;
      counts = record { faults = w.faults; lulls = w.lulls; stalls = 0; ends = 0 };
    } };

    fn take(&mut self, buffer: &mut [u8]) -> Taken {
        let (_, left) = self.coming.as_slice().split_at(self.taken);
        if left.is_empty() {
            self.lulls = self.lulls.saturating_add(1);
            return Taken::Lull;
        }
        let count = left.len().min(buffer.len());
        buffer[..count].copy_from_slice(&left[..count]);
        self.taken += count;
        Taken::Took(count)
    }

    fn give(&mut self, piece: &[u8]) -> Given {
        if self.given.extend_from_slice(piece).is_err() {
            self.faults = self.faults.saturating_add(1);
            return Given::Failed;
        }
        Given::Took(piece.len())
    }
}
