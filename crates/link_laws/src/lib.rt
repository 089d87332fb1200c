//! Laws of connections and their links, from the opening to the end.
//!
//! A session is seen by the list of its entries, the newest first, and a link by what it shows
//! (`outside`). `specs/Opened.antt` says what holds where an opening was just accepted,
//! `Staying.antt` when nobody but its own caller moves and ends a connection, and `Unopened.antt`
//! why no connection was opened on a link: its first bytes earned an ERROR, which it was given, or
//! none came in time, or a tape is full (RSocket 1.0, "Setup" and "Resuming Operation").
//!
//! Each function here does nothing: its clauses are laws. They give whoever serves a link its
//! reason to leave it (`Left`), from how its turns ended. What moves bytes stands above.
#![tactic(auto)]

mod connections;
mod links;

pub use connections::{
    a_closed_session_closed_on_the_connection, a_connection_stays_or_is_displaced,
    a_held_connection_stays, a_just_opened_connection_is_fresh, frames_come_in_time,
};
pub use links::{
    all_due_was_given, left_links_stay_left, links_are_left_at_their_end, links_stay_good,
    new_links_are_fresh, unopened_links_stay_unopened,
};
