//! What an end still holds of the frames that it made, so that a resumed session can send them
//! again (RSocket 1.0, "Resuming Operation").
//!
//! Frames are kept in the order in which they were made. A *position* counts the bytes of the
//! frames from the session's first on, without their 24-bit length fields; a *boundary* is a
//! position where a frame starts or the newest one ends. The oldest frames are forgotten as whole
//! frames, when the bytes held pass a limit or when the peer has acknowledged them.
//!
//! A frame may be forgotten before all of it has gone onto a stream. So a *pin* keeps the frames from
//! one boundary on readable, held or not.
//!
//! The promise to the layer above: where the frames kept are those made, what is held of them
//! starts at `first` of the crate `position` (the peer may still need it, and no more than `hold`
//! bytes are held), and [`Replay::copy`] gives the readable frames as they go onto a stream, each
//! after its length ([`held_of_made`]). No frame is forgotten sooner or later. The frames lie one after
//! the other in blocks of 16 KiB, each after its length in 1, 3 or 4 bytes, and a ring holds where some
//! of them start and lie. They are never moved: a block is made where room for it is reserved, and given
//! back once all of its frames are forgotten. Only [`Replay::new`], which makes the first block, and
//! [`Replay::reserve`] take memory.
//!
//! It leaves out which frames are resumable, how they are spelled, and whether a peer's position
//! may be believed.
#![tactic(auto)]

mod block;
mod blocks;
mod copying;
mod finding;
mod laid;
mod laws;
mod marks;
mod passing;
mod replay;
mod rings;
mod store;

pub use laws::held_of_made;
pub use marks::Place;
pub use replay::Replay;
