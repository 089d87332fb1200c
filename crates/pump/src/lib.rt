//! Bytes between a link and a session.
//!
//! A [`Pump`] draws the bytes that are due on one connection and gives them to a link, and takes
//! bytes from the link and brings their frames to the session (RSocket 1.0, "Framing Protocol
//! Usage"). It also ticks, so that KEEPALIVE frames are sent and a dead peer is found. The promise
//! to the layer above: over every link, clock and tape, what was given is a prefix of what was
//! drawn, no drawn byte is lost, the frames that came are those of the bytes taken, in order, each
//! once, and every way in which a turn ends has its cause.
//!
//! Left out: that a byte ever moves, and when; a bell that wakes a link which waits; cuts and
//! openings, which are the callers'.
#![tactic(auto)]

mod begin;
mod bringing;
mod exchange;
mod heard;
mod incoming;
mod inner;
mod laws;
mod numbers;
mod outgoing;
mod pump;
mod run;
mod turn;
mod turned;

pub use bringing::Brought;
pub use laws::pump_laws;
pub use numbers::PIECE;
pub use pump::Pump;
pub use turned::Turned;
