//! What the threads of a server tell, put together.
//!
//! `serve_threads` says what each thread did: the links at their places, the workers, and the last
//! task, which takes the links' callers in, closes the sessions and serves the jobs that are left.
//! The laws here take all of it to what a server leaves behind (`serve_laws`): its tapes are a
//! server's, all their jobs are served, and each link is served. Nothing is told where memory ran
//! out. They stand in functions that do nothing.
#![tactic(auto)]

mod laws;

pub use laws::{a_server_that_tells_has_served, the_threads_tell};
