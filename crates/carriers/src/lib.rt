//! What the two carriers of a script have in common: bytes between a pump and two rings.
//!
//! A carrier has a caller of its end, the end of a ring that it pushes into and that of another that it
//! reads from, and a pump for the connection that joins the ends. It gives ([`give`], [`send`]) what it
//! draws to the one ring, and takes ([`take`], [`lose`], [`skip`]) what it reads from the other, up to
//! the next mark. The promise to the layer above: what was pushed and read is said item by item, and what
//! is kept between a link and a connection (`pump`) is kept of a link that was given these bytes, or of
//! which they were taken. So the bytes between two cuts are those of one connection, though no link is
//! there.
//!
//! After a [`Stop`](ring::Stop) the carrier stops, and nothing is promised of the rings but that they are
//! the same.
#![tactic(auto)]

mod giving;
mod taking;
mod telling;

pub use giving::{give, push_mark, send};
pub use taking::{Heard, heard_before, is_more, lose, skip, take};
pub use telling::tell;
