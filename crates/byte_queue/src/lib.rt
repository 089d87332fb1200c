//! Bytes that wait in order: they are appended at the end and leave at the front.
//!
//! Input that came in pieces, output that is not written yet and frames that are held for a
//! resumption are such queues. The bytes lie in one buffer, so what is left is one slice.
//!
//! The promise to the crates above: what is left is what was appended without what was dropped.
//! The buffer never holds more bytes that were dropped than bytes that are left, and dropping
//! costs, over all calls, a constant time for each byte dropped.
#![tactic(auto)]

mod queue;

pub use queue::ByteQueue;
