//! The laws of a session, proved from its definitions alone.
//!
//! Each function here does nothing: its clauses are laws of the entries of one end (`one_end`), of
//! its streams (`streams`), of its resumption (`resumption`), of its leases (`leases`), or of two ends
//! whose bytes crossed (`two_ends`). The frames that count are those of streams, and
//! positions count their bytes (RSocket 1.0, "Resuming Operation"). A frame is one that travels, so
//! each fragment of a long request or payload is one; a word of a stream is a whole message, in
//! however many fragments it travels (RSocket 1.0, "Fragmentation and Reassembly").
//!
//! The promise to the layers above: what holds here holds of every list of entries that the core
//! leaves, since each of them is legal, and fair where the caller keeps the conditions of events.
//! First of all, what an end has handled, over all connections of the session, is a prefix of what
//! the other made, in order, with nothing lost and nothing twice, however often the session was cut
//! and resumed; a resumption is accepted exactly where both ends hold what it needs; and no stream
//! carries more items than were granted, or delivers after its end.
//!
//! Left out: how the entries come about (the core), and what only time decides, such as that all
//! that is due comes in the end.
#![tactic(auto)]

mod headline;
mod jobs;
mod leases;
mod one_end;
mod openings;
mod resumption;
mod streams;
mod two_ends;

pub use headline::a_session_has_the_headline;
pub use jobs::{a_take_of_a_job_is_refused_at_its_end, no_job_comes_once_closed};
pub use leases::{
    covered_requests_stay_within_the_sum, requests_stay_within_the_lease, the_moment_never_falls,
};
pub use one_end::{
    closed_stays_closed, frames_are_spellable, frames_only_grow,
    no_fragment_is_longer_than_the_mtu, nothing_more_is_agreed, queued_is_what_is_left,
    seen_is_made_and_handled, the_queue_stays_within_its_limit,
};
pub use openings::{
    an_opening_is_accepted_once, no_resume_is_accepted_where_none_is_agreed,
    the_accepted_setup_stays,
};
pub use resumption::{
    a_refused_resume_changes_nothing, held_frames_follow_a_boundary, positions_never_fall,
    resume_is_accepted_where_both_ends_hold, resume_ok_always_finds_room,
    resume_ok_is_handled_where_the_client_holds,
};
pub use streams::{
    a_response_carries_one_payload, a_stream_delivers_one_end, deliveries_are_what_frames_say,
    each_request_is_handed_out_once, items_stay_within_credit, nothing_is_taken_after_an_own_end,
    over_is_for_good, streams_are_what_frames_say, streams_stay_within_their_limit,
    taken_is_what_was_delivered_first, what_came_before_is_lawful,
};
pub use two_ends::{drained_is_equal, handled_begins_made, handled_is_a_boundary};
