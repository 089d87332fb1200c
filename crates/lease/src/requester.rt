//! The lease by which a requester may make requests.

ghost use Rattle.std.specs.Prelude.{◌≡◌, ◌+◌, ◌↔◌, None, Some, IsOk, IfSome, MatchResult};
ghost use Rattle.lease.specs.Lease.{HasLeft, IsUsable, lease_fault};

use std::marker::Model;
use thiserror::Error;

/// Why a request may not be made now (RSocket 1.0, "Lease Semantics").
#[derive(Clone, Copy, Debug, PartialEq, Eq, Error)]
pub enum LeaseFault {
    /// All requests of the lease, which this number counts, are used; 0 where there is no lease.
    #[error("all {0} requests that were allowed are used")]
    Used(u32),
    /// The lease is over since this moment, in milliseconds.
    #[error("the lease is over since the moment {0} ms")]
    Over(u64),
}

/// What a LEASE frame allows, and how much of it is used.
#[derive(Clone, Copy, Debug, PartialEq, Eq)]
struct Terms {
    /// How many requests the lease allows.
    count: u32,
    /// The moment at which the lease is over, in milliseconds.
    expires: u128,
    /// How many of its requests were made.
    used: u32,
}

/// The requester's lease: what the last LEASE allows, and how much of it is used. Contracts see the
/// lease, where there is one.
#[derive(Clone, Copy, Debug, PartialEq, Eq)]
pub struct Lease {
    /// What the last LEASE of this connection allows, where one came.
    terms: Option<Terms>,
}

impl Model for Lease {
    ghost use Rattle.std.specs.Prelude.{Option};
    ghost use Rattle.lease.specs.Lease.{IsWithin};
    ghost use Rattle.lease.specs.declared.requester.Terms.{Terms};

    ghost Value = { Option Terms };

    ghost view = { λ l. l.terms };

    ghost invariant = { λ l. IsWithin l.terms };

    ghost inverse = { λ terms. record { terms = terms } };
}

impl Lease {
    /// No lease.
    pub fn new() -> Lease
        ensures { result ≡ None }
    {
        Lease { terms: None }
    }

    /// Takes a LEASE that came at the moment `now`, in milliseconds, with this time to live, in
    /// milliseconds, and this count of requests. It replaces the former lease; its end is `now` plus
    /// its time to live.
    pub fn grant(&mut self, now: u64, ttl: u32, count: u32)
        ensures { self.new ≡ Some (record { count = count; expires = now + ttl; used = 0 }) }
    {
        self.terms = Some(Terms {
            count,
            expires: u128::from(now) + u128::from(ttl),
            used: 0,
        });
    }

    /// Gives the lease up, as it ends with its connection.
    pub fn gone(&mut self)
        ensures { self.new ≡ None }
    {
        self.terms = None;
    }

    /// Counts a request that [`Lease::may`] let through.
    pub fn use_one(&mut self)
        requires { HasLeft self.old }
        ensures { IfSome self.old (λ l. self.new ≡ Some (record l { used = l.used + 1 })) }
    {
        if let Some(terms) = &mut self.terms {
            terms.used += 1;
        }
    }

    /// Whether a request may be made at this moment, in milliseconds. [`LeaseFault::Used`] exactly
    /// where all requests of the lease are used, with their number, or there is no lease, with 0;
    /// else [`LeaseFault::Over`] exactly where the moment is at or after the end of the lease, with
    /// that end.
    pub fn may(&self, now: u64) -> Result<(), LeaseFault>
        ensures accepted { IsOk result ↔ IsUsable self.now now }
        ensures first_fault { MatchResult result
            (λ _. lease_fault self.now now ≡ None)
            (λ fault. lease_fault self.now now ≡ Some fault) }
    {
        let Some(terms) = &self.terms else {
            return Err(LeaseFault::Used(0));
        };
        if terms.used == terms.count {
            return Err(LeaseFault::Used(terms.count));
        }
        if u128::from(now) >= terms.expires {
            return Err(LeaseFault::Over(terms.expires as u64));
        }
        Ok(())
    }
}
