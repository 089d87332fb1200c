//! What stands outside of the program, as traits: where bytes come from, where they go, links to
//! peers, where links come from, and the time.
//!
//! A [`Source`] gives bytes and a [`Sink`] takes them, as many in a call as it can. A [`Link`] does
//! both, says when nothing can move for now, and may hear the bell of its connection; a [`Net`]
//! hands links out and takes them back; a [`Clock`] gives the moment. Each has a meaning that contracts see: the bytes left, written, taken
//! or given, the calls asked of a net and the links put back, the moments of a clock, where it shows
//! them, and the counts of its faults and lulls. The promise to the crates above: a call that fails
//! or lulls is counted once, no other call is, and whatever is shown of the content is exact.
//!
//! [`MemSource`], [`MemSink`], [`MemLink`], [`MemNet`] and [`MemClock`] show everything, and fail in
//! the calls that a test names. [`StdSource`] and [`StdSink`] are standard input and output; they
//! show nothing of content, since no contract knows what the system gives or takes.
//!
//! Left out: links over sockets, the clock of the system, and what the bytes mean.
#![tactic(auto)]

mod calls;
mod clock;
mod link;
mod mem_clock;
mod mem_link;
mod mem_net;
mod mem_sink;
mod mem_source;
mod net;
mod sink;
mod source;
mod std_streams;
mod tally;

pub use clock::Clock;
pub use link::{Given, Link, Taken};
pub use mem_clock::MemClock;
pub use mem_link::{After, MemLink};
pub use mem_net::MemNet;
pub use mem_sink::MemSink;
pub use mem_source::MemSource;
pub use net::{Ask, Net, NetFault};
pub use sink::{Sink, Wrote};
pub use source::{Read, Source};
pub use std_streams::{StdSink, StdSource};
pub use tally::Tally;
