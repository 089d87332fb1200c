//! The requests that a responder admits.

ghost use Rattle.std.specs.Prelude.{◌≡◌, ◌+◌, ◌<◌, ◌≤◌, ◌^◌, ◌↔◌, IsTrue};
ghost use Rattle.std.specs.Bool.{OnFalse, OnTrue};

use rs_wire::Amount;
use std::marker::Model;

/// How many requests a responder granted, in sum over the session, and how many it admitted
/// (RSocket 1.0, "Lease Semantics"). Contracts see both numbers.
#[derive(Clone, Copy, Debug, PartialEq, Eq)]
pub struct Granted {
    /// The sum of the counts of the leases that were granted.
    granted: u128,
    /// How many requests were admitted.
    admitted: u128,
}

impl Model for Granted {
    ghost use Rattle.std.specs.Prelude.{◌≤◌};
    ghost use Rattle.lease.specs.Sum.{Sum};

    ghost Value = { Sum };

    ghost view = { λ g. record { granted = g.granted; admitted = g.admitted } };

    ghost invariant = { λ g. g.admitted ≤ g.granted };

    ghost inverse = { λ s. record { granted = s.granted; admitted = s.admitted } };
}

impl Granted {
    /// Nothing granted and nothing admitted.
    pub fn new() -> Granted
        ensures { result ≡ record { granted = 0; admitted = 0 } }
    {
        Granted {
            granted: 0,
            admitted: 0,
        }
    }

    /// Grants `count` more requests.
    pub fn grant(&mut self, count: Amount)
        requires { self.old.granted < 2 ^ 100 }
        ensures { self.new ≡ record self.old { granted = self.old.granted + count } }
    {
        self.granted += u128::from(count.get());
    }

    /// Admits a request: true exactly where fewer were admitted than were granted in sum. It is then
    /// counted, and else nothing changes.
    pub fn admit(&mut self) -> bool
        ensures answer { IsTrue result ↔ (self.old.admitted < self.old.granted) }
        ensures counted { OnTrue result
            (self.new ≡ record self.old { admitted = self.old.admitted + 1 }) }
        ensures not_counted { OnFalse result (self.new ≡ self.old) }
        ensures within { self.new.admitted ≤ self.new.granted }
    {
        if !self.would_admit() {
            return false;
        }
        self.admitted += 1;
        true
    }

    /// What [`Granted::admit`] would answer.
    pub fn would_admit(&self) -> bool
        ensures { IsTrue result ↔ (self.now.admitted < self.now.granted) }
    {
        self.admitted < self.granted
    }
}
