//! The tokens of the sessions that may be resumed, and where each session is (RSocket 1.0, "Resuming
//! Operation").
//!
//! A server has a place for each session, a slot. [`Sessions`] has a token for each session that was
//! set up with resumption, and when its connection parted. The promise to the layer above: a token
//! that was added and not purged stands for one slot, and only a session that parted at least the
//! given time ago is purged.
//!
//! It keeps no session and no caller: whoever has them shares this value by a `Mutex`.
#![tactic(auto)]

mod fault;
mod sessions;

pub use fault::AddFault;
pub use sessions::Sessions;
