//! The server's part of one link: [`serve_connection`] serves it to its end (RSocket 1.0, "Setup" and
//! "Resuming Operation").
//!
//! The first frame opens a session at the slot of the link, or goes on with the one that has its
//! token, or is refused with an ERROR that says why. Then bytes move until the link or the session
//! ends, and the session is left to be resumed where it may be. The promise to the layer above is the
//! contract of `serve_connection`, in the words of `specs/Serving.antt`: what was added to what each
//! caller has seen, that the link is carried and was left for a reason, or why no connection was
//! opened on it, and that each answer has its cause.
//!
//! A token is looked up, and its session judged, opened and added, under one lock of the table. What
//! a mutex holds no contract of a caller can name, so what is done to the table is said of the
//! functions that are lent it, in `opening.rt` and `lost.rt`. Left out: whoever accepts links and
//! takes the callers together again.
#![tactic(auto)]

mod attending;
mod first;
mod host;
mod lost;
mod one_link;
mod opening;
mod refusing;
mod served;
mod serving;

pub use served::Served;
pub use serving::serve_connection;
