//! The slots of a server: as many connections as it serves links, each round a session with a tape of a
//! shelf, and the callers that are split off for its threads and taken in again.
//!
//! The main caller of a slot is the one from which the others are split off. The promise to the layer
//! above is that no part of a connection is lost on the way: when all callers of a slot are taken in,
//! its main caller has all parts, so that its close is not refused and its tape is put back
//! ([`put_tapes`]). What a caller knows that is taken in stands in `specs/Callers.antt`.
#![tactic(auto)]

mod making;
mod splitting;
mod taking;
mod tapes;

pub use making::make_slots;
pub use splitting::split_row;
pub use taking::{take_in, take_in_row};
pub use tapes::put_tapes;
