//! What serving a link came to, said of each caller by what it has seen.
//!
//! `serve_connection` of `server` says what it added to the fronts of its callers, and what holds of
//! its link then. The law here says the same of the entries under each caller's number alone, which
//! is what holds of the tapes once all callers are taken in (`serve_laws`). It stands in a function
//! that does nothing.
#![tactic(auto)]

mod laws;

pub use laws::{a_link_is_known, a_link_works_at_its_own_slot};
