//! What the callers of a server know of their own entries, and how it holds of a whole tape.
//!
//! A server serves each link in a thread of its own, and lends it callers of all its connections.
//! What a thread knows when it is done is said of the entries under the numbers of its callers alone,
//! and of the list as far as they have seen it. `specs/Names.antt` says so of entries under some
//! names, `Counts.antt` counts what the caller of one number opened, `Order.antt` says that bytes of a
//! connection are moved by whoever opened it, and that openings stand before the first Close, and
//! `Links.antt` what holds of a link whose connection one caller opened (RSocket 1.0, "Setup" and
//! "Resuming Operation").
//!
//! The promise to the layer above are laws, in functions that do nothing: once all callers are taken
//! in, what each knows holds of the tape. No law needs a fact about two threads at once.
//!
//! Left out: the clause of the server itself, and how callers are taken in, which stand above.
#![tactic(auto)]

mod laws;

pub use laws::{
    a_link_is_known_when_all_are_taken_in, all_jobs_were_got_where_none_is_left,
    connections_are_handled_by_those_who_opened_them, counts_stay_where_nothing_is_opened,
    openings_stand_before_the_first_close,
};
