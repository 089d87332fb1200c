//! The messages that come in fragments, each until it is whole (RSocket 1.0, "Fragmentation and
//! Reassembly").
//!
//! A [`Reassembly`] keeps what was gathered of each stream's message in one direction, and nothing
//! of any other stream. The promise to the layer above: what is gathered on a stream is its parts
//! joined, in the order in which they came and whatever came between on other streams; the last
//! part gives the whole, and leaves nothing. Only [`Reassembly::reserve`] may run out of memory,
//! and a part costs what it carries, however much was gathered before it.
//!
//! It leaves out which frames are parts of a message, and how large a message may be: the layer
//! above asks for the size with a part, and refuses the part or pushes it.
#![tactic(auto)]

mod table;

pub use table::Reassembly;
