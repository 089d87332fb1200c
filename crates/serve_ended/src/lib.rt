//! The tapes and the links of a server that has ended.
//!
//! `specs/Ended.antt` says what there is when all links and workers of a server have ended: the
//! callers of each place, as its link left them, and how each slot took its callers in and ended. The
//! law here says that then each tape is a server's, all its jobs are served, and each link is
//! (`serve_laws`). It stands in a function that does nothing.
#![tactic(auto)]

mod laws;

pub use laws::an_ended_server_leaves_what_it_promises;
