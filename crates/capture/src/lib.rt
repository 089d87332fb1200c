//! A capture of RSocket traffic, as bytes and as lines of text.
//!
//! The bytes are frames, each after its length of 3 bytes, as a byte stream carries them (RSocket
//! 1.0, "Framing Protocol Usage"). The text has a line for each frame (`frame_text`), with a line
//! feed after it. Either has at most [`MOST_CAPTURE`] bytes.
//!
//! [`to_lines`] appends the lines of all frames of a capture, or names the first frame that can't
//! be read, by its place and the least rule that it breaks. [`from_lines`] appends the canonical
//! bytes of the frames of all lines, or names the first line that is that of no frame. Each is
//! exact ([`capture_laws`], [`text_laws`]).
//!
//! It leaves out where the bytes come from and what is done with them.
#![tactic(auto)]

mod back;
mod back_laws;
mod laws;
mod lines;

/// The most bytes of a capture, and of the text of its lines: 64 MiB.
pub const MOST_CAPTURE: usize = 67_108_864;

pub use back::{LineFault, from_lines};
pub use back_laws::text_laws;
pub use laws::capture_laws;
pub use lines::{BadFrame, CaptureFault, to_lines};
