//! Splitting a request or a payload into fragments, and joining the fragments that came (RSocket
//! 1.0, "Fragmentation and Reassembly").
//!
//! It promises to the layer above that pushing the frames of a [`split`] into an empty [`Glue`]
//! gives the message back, and that no frame of a split is longer than the mtu. The rules are
//! stated frame by frame in [`split`] and [`Glue::push`], and for whole splits in
//! [`fragment_laws`].
//!
//! A fire-and-forget of 100 bytes without metadata is 106 bytes long. With an mtu of 64 it is sent
//! as two frames: the request with F and 58 bytes (64 bytes), and a PAYLOAD with N and the other 42
//! bytes (48 bytes).
//!
//! It leaves out which fragments belong together: a glue is for one direction of one stream, and
//! what may come in between is for the layer above to say. SETUP, ERROR, LEASE and METADATA_PUSH
//! are never fragmented.
#![tactic(auto)]

mod frames;
mod gathering;
mod glue;
mod laws;
mod parts;
mod size;
mod splitting;

pub use frames::Frames;
pub use gathering::Gathering;
pub use glue::{Glue, GlueFault, Glued};
pub use laws::fragment_laws;
pub use size::{SplitSize, split_size};
pub use splitting::split;
