//! Leases of both directions (RSocket 1.0, "Lease Semantics").
//!
//! The promise to the layer above: a requester's [`Lease`] lets at most its count of requests
//! through, and none at its end or later; a responder's [`Granted`] admits at most as many requests
//! as it has granted in sum. Left out: whether the two ends agreed on leases at all, and the LEASE
//! frames, which the session makes and reads.
#![tactic(auto)]

mod requester;
mod responder;

pub use requester::{Lease, LeaseFault};
pub use responder::Granted;
