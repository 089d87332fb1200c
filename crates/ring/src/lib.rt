//! One direction between two carriers: bytes, and marks between them, through a ring.
//!
//! The promise to the crates above: what is pushed goes out in its order, what is read is said item by
//! item, and where one thread has both ends again what was read is a prefix of what was pushed
//! ([`compare`]), all of it where the last item read is [`Mark::End`], which is pushed once.
#![tactic(auto)]

mod comparing;
mod item;
mod reading;
mod writing;

/// How many items a ring has room for.
pub const ROOM: usize = 4_096;

pub use comparing::compare;
pub use item::{Gone, Item, Mark};
pub use reading::{Stop, next, read_line};
pub use writing::{push, push_bytes};
