//! A script that threads play: two callers and two carriers.
//!
//! One thread makes the calls of the client and one those of the server; two more carry bytes, each
//! through the other lines in their order ([`threaded`]). Once all four have returned, their callers are
//! joined, and one thread lets all cross that is left (`threaded_drain`).
//!
//! ```text
//!    asker of the client                         asker of the server
//!            |  calls                                    |  calls
//!            v             ring of 4,096 items           v
//!    Connection <-> carrier ===================> carrier <-> Connection
//!                           <===================
//! ```
//!
//! The promise to the layer above: what [`threaded`] leaves are the entries of a script that threads
//! played, whatever the schedule, or of one that was played line by line, where a thread could not be
//! started. Its two ends are joined, so what each handled is a prefix of what the other made.
//!
//! Left out: that more than one thread ran.
#![tactic(auto)]

mod asking;
mod ending;
mod far;
mod near;
mod part;
mod run;
mod running;
mod sharing;

pub use run::threaded;
