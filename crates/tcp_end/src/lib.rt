//! A link over TCP (RSocket 1.0, "Framing Protocol").
//!
//! The socket never blocks. A [`TcpEnd`] waits in [`take`](outside::Link::take) alone, in one poll of
//! the socket and of the bell that it hears, and for 10 milliseconds at most; a take right after a
//! give that moved bytes does not wait at all, since the peer is not heard of sooner by it. The
//! promise to the layer above: each call that fails, lulls, stalls or meets the end is counted once,
//! and no other call is.
//!
//! Left out: what the bytes are. No contract knows what the system sends and receives, so the link
//! shows nothing of its content.
#![tactic(auto)]

mod tcp_end;
mod waiter;

pub use tcp_end::TcpEnd;
pub use waiter::{WAIT_MILLIS, Waiter};
