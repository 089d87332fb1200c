//! The output of the program `rsocket`: bytes that are written whole, or cut off where a write fails,
//! and its last line.
//!
//! The promise to the layer above: after a failed write nothing more is written, and what was written
//! by then is a prefix of what was to be. A run whose output can't be written ends with status 5, but
//! for those that say that the words are wrong or that memory ran out: they keep their status.
#![tactic(auto)]

mod telling;
mod writing;

pub use telling::{insist, say, tell_out_of_memory};
pub use writing::{WriteFault, write_all};
