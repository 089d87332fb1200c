//! The credit of one way of a stream: how many items were granted, and how many were sent (RSocket
//! 1.0, "REQUEST_N Frame").
//!
//! For the reply way the requester grants the n of its request and then that of each REQUEST_N; for
//! the request way of a channel the responder grants by REQUEST_N alone. An item uses one, however it
//! is fragmented. A worked example: a stream is requested with n = 2, so 2 are granted and 2 left;
//! after two items 0 are left, and a third may not be sent; REQUEST_N of 1 makes it 3 granted, 1 left.
//! The promise to the layer above: what is left is what was granted without what was used.
#![tactic(auto)]

ghost use Rattle.std.specs.Prelude.{◌≡◌, ◌<◌, ◌^◌, ◌+◌, ◌-◌};

use rs_wire::Amount;

/// How many items were granted on a way, and how many of these are used.
#[derive(Clone, Copy, Debug, PartialEq, Eq)]
pub struct Credit {
    granted: u128,
    used: u128,
}

impl Credit {
    /// Nothing is granted yet.
    pub fn new() -> Credit
        ensures { result ≡ record { granted = 0; used = 0 } }
    {
        Credit {
            granted: 0,
            used: 0,
        }
    }

    /// Grants `n` items more.
    pub fn grant(&mut self, n: Amount)
        requires { self.old.granted < 2 ^ 100 }
        ensures { self.new ≡ record self.old { granted = self.old.granted + n } }
    {
        self.granted += u128::from(n.get());
    }

    /// How many items were granted.
    pub fn granted(&self) -> u128
        ensures { result ≡ self.now.granted }
    {
        self.granted
    }

    /// How many of the items that were granted are left.
    pub fn left(&self) -> u128
        ensures { result ≡ self.now.granted - self.now.used }
    {
        self.granted.saturating_sub(self.used)
    }

    /// Uses one item of those that are left.
    pub fn use_one(&mut self)
        requires { self.old.used < self.old.granted }
        ensures { self.new ≡ record self.old { used = self.old.used + 1 } }
    {
        self.used += 1;
    }
}
