//! The rules of the four interactions at one end: what its callers may do, and what comes of that
//! and of what the peer says (RSocket 1.0, "Request", "PAYLOAD Frame", "REQUEST_N Frame", "CANCEL
//! Frame", "ERROR Frame").
//!
//! [`Streams`] carries the marks of all that happened on its streams, for contracts alone. The
//! promise to the layer above: every answer and every change is the one that the definitions of
//! `stream_model` give for these marks. It knows no frame, no position, no connection and no lease.
#![tactic(auto)]

mod acting;
mod answers;
mod arriving;
mod asking;
mod history;
mod judging;
mod parts;
mod queue;
mod stream;
mod streams;
mod taking;
mod waits;
mod ways;

pub use stream_model::{Arrival, Effect, Limits, State, Stream};
pub use streams::Streams;
