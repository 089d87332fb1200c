//! Threads that are started empty-handed, and get their work once all are there.
//!
//! A thread can't always be started, and what moved into it then comes back inside a closure alone. So each thread is
//! started with the reading end of a ring of one place, and its work is pushed when all threads are there: where one
//! could not be started, none has acted, and all work is still with whoever starts them.
//!
//! The promise to the layer above: the work that a thread gets is the one that its ring is named for ([`Named`]), so
//! the thread knows of it what is known where it is pushed; and where a thread got none, the work is still in its
//! ring ([`take_back`]).
//!
//! Left out: which threads there are, and what they do.
#![tactic(auto)]

mod back;
mod place;

pub use back::{Back, Fact, Honest, take_back};
pub use place::{Giver, Just, Named, Taker, one_place, wait_for_work};
