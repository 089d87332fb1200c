//! A net of links that show nothing.

ghost use Rattle.std.specs.Prelude.{◌<◌, ◌≤◌, length};

use crate::meeting::Meeting;
use outside::{Given, Link, Net, NetFault, Taken};
use rs_wire::Blob;
use std::thread::yield_now;

/// The most lulls before a link ends all the same.
const LULLS: u64 = 10_000_000;

/// A link that waits in its first take for the other links. Then it has some bytes, lulls until all
/// calls of handlers have come, and ends.
#[derive(Drop)]
pub struct MeetingLink<'a> {
    bytes: &'static [u8],
    start: usize,
    arrived: bool,
    links: &'a Meeting,
    calls: &'a Meeting,
    lulls: u64,
    ends: u64,
}

// Copies what fits. How many bytes that is.
fn copy_some(from: &[u8], to: &mut [u8]) -> usize
    requires from { 0 < length from.now }
    requires to { 0 < length to.old }
    ensures some { 0 < result }
    ensures of { result ≤ length from.now }
    ensures fits { result ≤ length to.new }
{
    let count = from.len().min(to.len());
    to[..count].copy_from_slice(&from[..count]);
    count
}

impl Link for MeetingLink<'_> {
    ghost use Rattle.std.specs.Prelude.{None};

    ghost shown = { λ l. record {
      taken = None;
      given = None;
      counts = record { faults = 0; lulls = l.lulls; stalls = 0; ends = l.ends };
    } };

    fn take(&mut self, buffer: &mut [u8]) -> Taken {
        if !self.arrived {
            self.arrived = true;
            self.links.meet();
        }
        if self.start < self.bytes.len() {
            let count = copy_some(&self.bytes[self.start..], buffer);
            self.start += count;
            return Taken::Took(count);
        }
        if self.calls.is_full() || self.lulls >= LULLS {
            self.ends = self.ends.saturating_add(1);
            return Taken::End;
        }
        yield_now();
        self.lulls = self.lulls.saturating_add(1);
        Taken::Lull
    }

    fn give(&mut self, piece: &[u8]) -> Given {
        Given::Took(piece.len())
    }
}

/// A net to which so many links come, each with these bytes.
#[derive(Drop)]
pub struct MeetingNet<'a> {
    pub to_come: u64,
    /// What it answers once they have come.
    pub fault: NetFault,
    pub bytes: &'static [u8],
    pub links: &'a Meeting,
    pub calls: &'a Meeting,
    pub out: u64,
    pub back: u64,
    pub asked: u64,
    pub faults: u64,
}

impl<'a> Net for MeetingNet<'a> {
    ghost use Rattle.std.specs.Prelude.{None};

    type Link = MeetingLink<'a>;

    ghost asked = { λ n. None };

    ghost back = { λ n. None };

    ghost out = { λ n. n.out };

    ghost faults = { λ n. n.faults };

    fn dial(&mut self, _address: &Blob, _ws: bool) -> Result<MeetingLink<'a>, NetFault> {
        self.faults = self.faults.saturating_add(1);
        Err(NetFault::Failed)
    }

    fn listen(&mut self, _address: &Blob) -> Result<(), NetFault> {
        Ok(())
    }

    fn accept(&mut self, _ws: bool) -> Result<MeetingLink<'a>, NetFault> {
        self.asked = self.asked.saturating_add(1);
        if self.to_come == 0 {
            if self.fault == NetFault::Failed {
                self.faults = self.faults.saturating_add(1);
            }
            return Err(self.fault);
        }
        self.to_come -= 1;
        self.out = self.out.saturating_add(1);
        Ok(MeetingLink {
            bytes: self.bytes,
            start: 0,
            arrived: false,
            links: self.links,
            calls: self.calls,
            lulls: 0,
            ends: 0,
        })
    }

    fn put_back(&mut self, _link: MeetingLink<'a>) {
        self.out -= 1;
        self.back = self.back.saturating_add(1);
    }
}
