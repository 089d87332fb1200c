//! Frames as lines of text, one line a frame: the name of the type in the words of RSocket 1.0
//! ("Frame Types"), and then its fields, with one space between two words.
//!
//! [`line_of`] appends the line of a frame. A number is decimal, without a sign or a leading zero.
//! Bytes are lower-case hex digits, two a byte, or `.` for none; bytes that may be absent are `-`
//! where they are. A word of flags has the letters of those that are set, or `-`.
//!
//! [`read_line`] reads a line back. It gives a frame exactly where the line is the line of that
//! frame, and else the first wrong word from the left, by its place. A line is that of at most one
//! frame, and the line of a frame has no wrong word ([`line_laws`]).
//!
//! It leaves out the line feed after a line.
#![tactic(auto)]

mod connection_rows;
mod fault;
mod fields;
mod laws;
mod lines;
mod names;
mod reading;
mod spelled;
mod stream_rows;
mod taken;
mod words;

pub use fault::TextFault;
pub use laws::line_laws;
pub use lines::line_of;
pub use names::{frame_name, kind_name};
pub use reading::read_line;
