//! The end of a script that threads played: what is left crosses, and both ends are closed.
//!
//! Once all threads have returned, one thread has both carriers, and each of them the caller that has
//! all parts of its end. It lets bytes cross by the carriers' own functions ([`settle`]), in pieces that
//! fit a ring, until nothing is left: the client has no live connection, or nothing is queued or stands
//! in front on it at either end. Then it compares what was read from each ring with what was pushed
//! ([`shut`]), and closes both connections.
//!
//! The promise to the layer above: what the carriers kept they keep, and where all is done the two ends
//! have the entries of a script that threads played ([`drained_laws`]). Nothing is assumed of the
//! schedule.
//!
//! Left out: that nothing is left in the end. Rounds go on until it is so.
#![tactic(auto)]

mod closing;
mod laws;
mod resting;
mod settling;

pub use closing::{close, shut, unshare};
pub use laws::drained_laws;
pub use settling::settle;
