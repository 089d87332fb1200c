//! The threads of a server: one for each link, with workers beside, and what is done once the links have
//! ended.
//!
//! There are as many slots as links. Each slot has a connection, and each link's thread a caller of
//! every connection, since the first frame of a link may name a session that another link opened
//! (RSocket 1.0, "Resuming Operation"). When all links have ended their callers are joined again, each
//! session is closed, and the workers end, since no more jobs come.
//!
//! The promise to the layer above: [`make_threads`] splits the callers off, and [`run_threads`] accepts
//! and serves. Whatever they answer, no caller is lost.
#![tactic(auto)]

mod ending;
mod guest;
mod making;
mod running;
mod shared;
mod worker;

pub use ending::{Mains, take_in_guests};
pub use guest::Guest;
pub use running::{make_threads, run_threads};
pub use worker::Worker;
