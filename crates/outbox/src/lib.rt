//! What an end has to write: the bytes that wait to be drawn, and the frames made that it holds for
//! a resumption (RSocket 1.0, "Resuming Operation").
//!
//! A frame that is kept as it is put in line is written into what is held, and drawn from there,
//! where it finds a place in the line; only where it lies is kept beside. Other frames lie in a
//! buffer of their own until they are drawn.
//!
//! The promise to the layer above: what waits is one list of bytes, in the order in which it was put
//! there, and what is held is that of `replay_buffer`. Where a byte lies can't be seen. Frames that
//! wait stay readable until they are drawn, also where they are forgotten. To send what is held again
//! copies nothing.
//!
//! It leaves out which frames a position counts, and when what waits is dropped.
#![tactic(auto)]

mod drawing;
mod keeping;
mod outbox;
mod spans;
mod stretch;

pub use outbox::Outbox;
