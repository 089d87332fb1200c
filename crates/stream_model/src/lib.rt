//! What the streams of one end are: the definitions that the contracts of every crate above cite.
//!
//! What happened on the streams is a list of marks, the newest first: requests, what either end said on
//! them, and what this end's callers took. `specs/Marks.antt` has the marks; `Turns.antt` what they make
//! of one stream: its ways and their ends, its items, credit and deliveries; `Streams.antt` all streams
//! as a function of the id, and the jobs; `Kept.antt` what is kept of a stream that is open;
//! `Known.antt` all that answers depend on; `Refused.antt` what a call is refused for; `Arriving.antt`
//! what the peer's words do; `Fair.antt` which marks the rules let through, and `Laws.antt` what holds of
//! these. `docs/definitions.md` goes through them in plain words. The functions here are laws, and do
//! nothing.
#![tactic(auto)]

mod arrival;
mod laws;
mod stream;

pub use arrival::{Arrival, Effect};
pub use laws::{
    each_stream_keeps_its_laws, grants_are_few, over_is_for_good, streams_find_their_places,
};
pub use stream::{Limits, State, Stream};
