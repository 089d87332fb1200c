//! What the streams of an end answer without a change.

ghost use Rattle.std.specs.Prelude.{◌≡◌, MatchResult, None, Some};
ghost use Rattle.std.specs.Option.{option_copied};
ghost use Rattle.stream_model.specs.Arriving.{over_credit_on};
ghost use Rattle.stream_model.specs.Known.{credit_on, hears_on, highest_of, is_open_response};
ghost use Rattle.stream_model.specs.Known.{is_peers_next, state};
ghost use Rattle.stream_model.specs.Refused.{by_credit, by_ids, by_live, by_state, refused_by};
ghost use Rattle.interactions.specs.Answers.{admits, next_within};
ghost use Rattle.interactions.specs.Seen.{front_of, known_to};

use crate::streams::Streams;
use rs_wire::{Call, Delivery, Job, Kind, Refusal, Side, Way};
use stream_model::State;

impl Streams {
    /// Whether a call is let through, or the first refusal that holds, in this order: its stream's
    /// state, credit, ids, how many streams are open. A session asks for each by itself where it
    /// puts tests of its own between them.
    pub fn judge(&self, call: &Call) -> Result<(), Refusal>
        ensures { MatchResult result
            (λ _. refused_by self.now.limits (known_to self.now) call.now ≡ None)
            (λ r. refused_by self.now.limits (known_to self.now) call.now ≡ Some r) }
    {
        match self.parts.refused(call) {
            None => Ok(()),
            Some(refusal) => Err(refusal),
        }
    }

    /// Refused for the state of the stream: `UnknownStream`, `Ended` or `WrongKind`.
    pub fn by_state(&self, call: &Call) -> Option<Refusal>
        ensures { result ≡ by_state (known_to self.now) call.now }
    {
        self.parts.by_state(call)
    }

    /// Refused for an item for which no credit is left: `NoCredit`.
    pub fn by_credit(&self, call: &Call) -> Option<Refusal>
        ensures { result ≡ by_credit (known_to self.now) call.now }
    {
        self.parts.by_credit(call)
    }

    /// Refused for a request that no stream id is left for: `IdsGone`.
    pub fn by_ids(&self, call: &Call) -> Option<Refusal>
        ensures { result ≡ by_ids self.now.limits (known_to self.now) call.now }
    {
        self.parts.by_ids(call)
    }

    /// Refused for a request where as many streams are open as may be: `TooManyStreams`.
    pub fn by_live(&self, call: &Call) -> Option<Refusal>
        ensures { result ≡ by_live self.now.limits (known_to self.now) call.now }
    {
        self.parts.by_live(call)
    }

    /// What is known of a stream id (RSocket 1.0, "Stream Identifiers").
    pub fn state(&self, stream: u32) -> State
        ensures { result ≡ state self.now.limits.side (known_to self.now) stream }
    {
        self.parts.state(stream)
    }

    /// The highest id that an end used, 0 for none.
    pub fn highest(&self, opener: Side) -> u32
        ensures { result ≡ highest_of (known_to self.now) opener }
    {
        self.parts.highest(opener)
    }

    /// How many streams are open.
    pub fn live(&self) -> u32
        ensures { result ≡ (known_to self.now).live }
    {
        self.parts.live()
    }

    /// The id of the next request of this end: `None` exactly where it passes the last id.
    pub fn next_id(&self) -> Option<u32>
        ensures { result ≡ next_within self.now.limits (known_to self.now) }
    {
        self.parts.next_id()
    }

    /// How many items were granted on a way of a stream, and how many of these are left: `None`
    /// exactly where the stream is not open, or credit counts no items on that way.
    pub fn credit(&self, stream: u32, way: Way) -> Option<(u128, u128)>
        ensures { result ≡ credit_on ((known_to self.now).kept stream) way }
    {
        self.parts.credit(stream, way)
    }

    /// Whether the peer may make a request on that id: it is of the peer's parity, and above its
    /// highest.
    pub fn is_peers_next(&self, stream: u32) -> bool
        ensures { result ≡ is_peers_next self.now.limits.side (known_to self.now) stream }
    {
        self.parts.is_peers_next(stream)
    }

    /// Whether a request of the peer's would be admitted: one stream more may be open, or it is a
    /// whole fire-and-forget, which is over at once.
    pub fn admits(&self, kind: Kind, whole: bool) -> bool
        ensures { result ≡ admits self.now.limits (known_to self.now) kind whole }
    {
        self.parts.admits(kind, whole)
    }

    /// How many items were granted on a stream, where the next one of the peer's finds no credit
    /// left.
    #[inline(always)]
    pub fn over_credit(&self, stream: u32, next: bool) -> Option<u128>
        ensures { result ≡ over_credit_on ((known_to self.now).kept stream) next }
    {
        self.parts.over_credit(stream, next)
    }

    /// Whether a message of the peer's on a stream is taken in: it is the rest of a request's own,
    /// or goes on a way that is not over.
    #[inline(always)]
    pub fn hears(&self, stream: u32) -> bool
        ensures { result ≡ hears_on ((known_to self.now).kept stream) }
    {
        self.parts.hears(stream)
    }

    /// Whether a stream is a response that is open.
    #[inline(always)]
    pub fn is_open_response(&self, stream: u32) -> bool
        ensures { result ≡ is_open_response ((known_to self.now).kept stream) }
    {
        self.parts.is_open_response(stream)
    }

    /// What [`Streams::take`] would give.
    #[inline(always)]
    pub fn next_take(&self, stream: u32) -> Option<&Delivery>
        ensures { option_copied result ≡ front_of ((known_to self.now).waits stream) }
    {
        self.parts.next_take(stream)
    }

    /// What [`Streams::take_job`] would give.
    pub fn next_job(&self) -> Option<&Job>
        ensures { option_copied result ≡ front_of (known_to self.now).jobs }
    {
        self.parts.next_job()
    }
}
