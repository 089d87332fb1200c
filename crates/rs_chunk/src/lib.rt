//! Frames in a stream of bytes that comes in pieces of any size.
//!
//! On TCP and other byte streams each frame stands after its length, a number of 24 bits (RSocket
//! 1.0, "Framing Protocol Usage"). [`Reader`] takes the pieces and gives the frames back;
//! [`split_frame`] cuts one frame off bytes that are all there; [`frame_bytes`] writes a frame for
//! such a stream.
//!
//! The promise to the crates above: after any feeds and passes, the bytes fed are the frames
//! passed, each after its length, and then the bytes left; and what stands at the front is decided
//! by the bytes left and the limit alone, so how the stream was cut into pieces does not matter.
//!
//! Left out: what the bytes of a frame mean (`rs_frame`), and transports that keep messages apart,
//! which have no length field.
#![tactic(auto)]

mod front;
mod laws;
mod reader;
mod writing;

pub use front::{Front, FrontView, split_frame};
pub use laws::stream_laws;
pub use reader::Reader;
pub use writing::{frame_bytes, frames_bytes, item_bytes, request_bytes};
