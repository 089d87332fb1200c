//! When a KEEPALIVE is due, and when a peer counts as dead (RSocket 1.0, "Keepalive Frame").
//!
//! The promise to the layer above: a [`Timer`] says that the peer is dead exactly where the last
//! arrival is at least a lifetime ago, and else that a KEEPALIVE is due exactly where the last
//! sending is at least an interval ago. It reads no clock: the moments are handed in. Left out: the
//! frames, and what is done with a dead peer.
#![tactic(auto)]

mod timer;

pub use timer::{Due, Timer};
