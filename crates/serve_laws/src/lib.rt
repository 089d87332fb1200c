//! What a server leaves behind: the definitions of its clause, and the laws that put what each of its
//! threads knows together.
//!
//! A server serves several links, each in a thread of its own, with workers beside them. When it is
//! done it puts its tapes back to a shelf and its links to a net. `specs/Tapes.antt` says what holds
//! of each tape, `Links.antt` what holds of each link and of the tapes that its callers called
//! (RSocket 1.0, "Setup" and "Resuming Operation"), and `Serving.antt` has all of it. `Knowing.antt`
//! says what a caller knows of its own entries when its thread is done.
//!
//! The promise to the layer above are laws, in functions that do nothing: what the callers know goes
//! on while they are taken in, and then each tape is a server's, all its jobs are served, and each
//! link is.
//!
//! Left out: the threads themselves, and how callers are split off and taken in, which stand above.
#![tactic(auto)]

mod laws;

pub use laws::{
    a_link_is_served, a_tape_is_a_servers, all_jobs_are_served, callers_are_taken_in,
    own_calls_end_a_slot, workers_are_taken_in,
};
