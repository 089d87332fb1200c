//! The calling end of a session: one call, over as many links as it takes.
//!
//! A [`Client`] has a session that it opened over a link of a net. [`start`](Client::start) asks for
//! the stream of a call, [`go_on`](Client::go_on) is one step of it, and
//! [`run_calls`](Client::run_calls) repeats the step to the end of the call. What a step prints is
//! appended at once, so a program that makes the steps itself writes each line when it is known.
//!
//! The promise to the layer above, where nobody else calls (`specs/Alone.antt`): the entries keep the
//! order of a call and each tick has a moment of the clock; every link is carried, its ticks are few,
//! and each that was put back was left for a reason; what is printed is what the stream delivered, no
//! more and no less; and each way in which a call ends has its cause (`specs/Calling.antt`): the links
//! of an idle call have so many lulls in sum, and no try is left where a call ends with `Net`
//! (`specs/Counting.antt`). Whoever else calls, the net is asked for links to the client's address and
//! for nothing else. What the words mean is said in `call_model` and `link_model`.
//!
//! Left out: words, statuses and writing, which are the program's; that a call ever ends.
#![tactic(auto)]

mod again;
mod asking;
mod begin;
mod called;
mod calling;
mod calls;
mod client;
mod elsewhere;
mod fault;
mod laws;
mod lines;
mod plan;
mod run;
mod stepping;
mod taking;
mod turning;

pub use called::Called;
pub use calling::Calling;
pub use client::Client;
pub use fault::BeginFault;
pub use laws::{callers_are_alone, calls_are_whole, closed_callers_are_alone};
pub use plan::CallPlan;
