//! The counts that a link keeps.

ghost use Rattle.std.specs.Prelude.{◌≡◌};
ghost use Rattle.outside.specs.Causes.{Rose};
ghost use Rattle.outside.specs.Links.{NoneFell, counts_after_give, counts_after_take, no_counts};

use crate::link::{Given, Taken};
use std::marker::Model;

/// How many calls of a link failed, lulled, stalled or met the end. A count stands still where a u64
/// ends.
#[derive(Drop)]
pub struct Tally {
    faults: u64,
    lulls: u64,
    stalls: u64,
    ends: u64,
}

impl Model for Tally {
    ghost use Rattle.outside.specs.Links.{Counts};

    ghost Value = { Counts };

    ghost view = { λ t. record {
      faults = t.faults;
      lulls = t.lulls;
      stalls = t.stalls;
      ends = t.ends;
    } };
}

impl Tally {
    /// Nothing counted.
    pub const fn new() -> Tally
        ensures { result ≡ no_counts }
    {
        Tally {
            faults: 0,
            lulls: 0,
            stalls: 0,
            ends: 0,
        }
    }

    /// Counts what a take answers.
    pub fn note_take(&mut self, answer: Taken)
        ensures counts { self.new ≡ counts_after_take answer self.old }
        ensures counted { NoneFell self.old self.new }
        ensures failed { answer ≡ Taken.Failed → Rose self.old.faults self.new.faults }
        ensures lull { answer ≡ Taken.Lull → Rose self.old.lulls self.new.lulls }
        ensures end { answer ≡ Taken.End → Rose self.old.ends self.new.ends }
    {
        match answer {
            Taken::Took(_) => {}
            Taken::Lull => self.lulls = self.lulls.saturating_add(1),
            Taken::End => self.ends = self.ends.saturating_add(1),
            Taken::Failed => self.faults = self.faults.saturating_add(1),
        }
    }

    /// Counts what a give answers.
    pub fn note_give(&mut self, answer: Given)
        ensures counts { self.new ≡ counts_after_give answer self.old }
        ensures counted { NoneFell self.old self.new }
        ensures failed { answer ≡ Given.Failed → Rose self.old.faults self.new.faults }
        ensures lull { answer ≡ Given.Lull → Rose self.old.stalls self.new.stalls }
    {
        match answer {
            Given::Took(_) => {}
            Given::Lull => self.stalls = self.stalls.saturating_add(1),
            Given::Failed => self.faults = self.faults.saturating_add(1),
        }
    }
}

impl Default for Tally {
    fn default() -> Tally {
        Tally::new()
    }
}
