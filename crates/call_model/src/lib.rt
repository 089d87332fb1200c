//! What a client's call asks, prints and leaves: definitions over the entries of its session, the
//! newest first, and over the links that were put back.
//!
//! `specs/Saying.antt` says what a call prints and when its end has come, `Order.antt` in which order
//! it is asked, `Timing.antt` how often it ticks, `Leaving.antt` what holds of each link that was put
//! back, and when no try is left, and `Ran.antt` what each way says in which a call comes to its end.
//! `Standing.antt` and `Present.antt` say what is kept between two entries of a call.
//!
//! The promise to the layer above are laws, in functions that do nothing: where a call stands, it
//! stands after what comes; links that were put back stay as they were; a broken link may be left once
//! all that was taken has come; and what was taken of a stream is a prefix of what was delivered on
//! it, and all of it where a Take gets nothing.
//!
//! Left out: the calling end itself, which stands above.
#![tactic(auto)]

mod laws;

pub use laws::{
    broken_links_may_be_left, calls_go_on, dead_peers_are_late, links_stay_left, order_goes_on,
    takes_are_delivered,
};
