//! A sum of lengths with a top.

ghost use Rattle.std.specs.Prelude.{◌≡◌, ◌+◌, ◌<◌, ◌≤◌, ◌↔◌, IsErr, OnOk, OnErr};

use std::marker::Model;
use thiserror::Error;

/// The sum would pass the top.
#[derive(Clone, Copy, Debug, PartialEq, Eq, Error)]
#[error("the sum of the lengths would pass its top")]
pub struct Spent;

/// A position: the sum of the lengths that were added, in bytes, at most a top. Contracts see the
/// sum and the top.
#[derive(Clone, Copy, Debug, PartialEq, Eq)]
pub struct Counter {
    /// The sum so far, in bytes.
    bytes: u64,
    /// The greatest sum, in bytes.
    top: u64,
}

impl Model for Counter {
    ghost use Rattle.std.specs.Prelude.{◌≤◌};
    ghost use Rattle.position.specs.Position.{Position};

    ghost Value = { Position };

    ghost view = { λ c. record { bytes = c.bytes; top = c.top } };

    ghost invariant = { λ c. c.bytes ≤ c.top };

    ghost inverse = { λ p. record { bytes = p.bytes; top = p.top } };
}

impl Counter {
    /// A counter at 0 with this top, in bytes.
    pub fn new(top: u64) -> Counter
        ensures { result ≡ record { bytes = 0; top = top } }
    {
        Counter { bytes: 0, top }
    }

    /// Adds the length of a frame, in bytes. [`Spent`] exactly where the sum would pass the top,
    /// and then the counter is as before.
    pub fn add(&mut self, length: u32) -> Result<(), Spent>
        ensures spent { IsErr result ↔ (self.old.top < self.old.bytes + length) }
        ensures ok { OnOk result
            (self.new ≡ record self.old { bytes = self.old.bytes + length }) }
        ensures err { OnErr result (self.new ≡ self.old) }
    {
        let length = u64::from(length);
        if length > self.top - self.bytes {
            return Err(Spent);
        }
        self.bytes += length;
        Ok(())
    }

    /// The sum of the lengths that were added, in bytes.
    pub fn now(&self) -> u64
        ensures value { result ≡ self.now.bytes }
        ensures within { self.now.bytes ≤ self.now.top }
    {
        self.bytes
    }
}
