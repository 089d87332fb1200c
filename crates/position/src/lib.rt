//! The position of a stream of frames: how many bytes its resumable frames have (RSocket 1.0,
//! "Resuming Operation").
//!
//! Here is what a boundary is, what is acknowledged of the frames made and what is held of them
//! (`specs/Boundaries.antt`), with the laws of these definitions ([`boundary_laws`]).
//!
//! The promise to the layer above: a [`Counter`] is the sum of the lengths that were added, and
//! never passes its top; [`Spent`] comes exactly where the sum would. Left out: which frames are
//! resumable, and which bytes of a frame count.
#![tactic(auto)]

mod counter;
mod laws;

pub use counter::{Counter, Spent};
pub use laws::boundary_laws;
