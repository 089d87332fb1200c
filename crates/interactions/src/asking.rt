//! What a session asks of its streams, with which it tests each rule and limit before it changes
//! anything.

ghost use Rattle.std.specs.Prelude.{◌≡◌};
ghost use Rattle.std.specs.Option.{option_copied};
ghost use Rattle.stream_model.specs.Arriving.{over_credit_on};
ghost use Rattle.stream_model.specs.Known.{credit_on, hears, hears_on, highest_of, is_above};
ghost use Rattle.stream_model.specs.Known.{is_open_response, state};
ghost use Rattle.interactions.specs.Answers.{next_within};
ghost use Rattle.interactions.specs.Seen.{front_of};
ghost use Rattle.interactions.specs.Stands.{known_of};

use crate::parts::Parts;
use crate::stream::over_credit;
use crate::ways::{carries, inbound, is_over_at, needs_credit, other};
use rs_wire::{Delivery, Job, Kind, Side, Way};
use stream_model::{State, Stream};

// The peer's next message is taken in.
fn hears(kept: Stream) -> bool
    ensures { result ≡ hears kept }
{
    let way = inbound(kept.role);
    (!kept.whole || carries(kept.kind, kept.whole, way, other(kept.role))) && !is_over_at(kept, way)
}

impl Parts {
    /// What is known of a stream id.
    pub fn state(&self, stream: u32) -> State
        ensures { result ≡ state self.now.table.limits.side (known_of self.now) stream }
    {
        self.table.state(stream)
    }

    /// Whether there was no stream of that id yet.
    #[inline(always)]
    pub fn is_above(&self, stream: u32) -> bool
        ensures { result ≡ is_above (known_of self.now) stream }
    {
        self.table.is_above(stream)
    }

    /// The highest id that an end used, 0 for none.
    pub fn highest(&self, opener: Side) -> u32
        ensures { result ≡ highest_of (known_of self.now) opener }
    {
        self.table.highest(opener)
    }

    /// How many streams are open.
    pub fn live(&self) -> u32
        ensures { result ≡ (known_of self.now).live }
    {
        self.table.live()
    }

    /// The id of the next request of this end: none where it passes the last id.
    pub fn next_id(&self) -> Option<u32>
        ensures { result ≡ next_within self.now.table.limits (known_of self.now) }
    {
        self.table.next_id()
    }

    /// What was granted on a way of a stream, and what is left, where credit counts its items.
    pub fn credit(&self, stream: u32, way: Way) -> Option<(u128, u128)>
        ensures { result ≡ credit_on ((known_of self.now).kept stream) way }
    {
        let kept = self.table.get(stream)?;
        let credit = match way {
            Way::Request if kept.kind == Kind::Channel => kept.request,
            Way::Reply if needs_credit(kept.kind) => kept.reply,
            _ => return None,
        };
        Some((credit.granted(), credit.left()))
    }

    /// How much was granted on a stream, where an item of the peer's finds no credit left.
    #[inline(always)]
    pub fn over_credit(&self, stream: u32, next: bool) -> Option<u128>
        ensures { result ≡ over_credit_on ((known_of self.now).kept stream) next }
    {
        over_credit(self.table.get(stream)?, next)
    }

    /// Whether a message of the peer's on a stream is taken in.
    #[inline(always)]
    pub fn hears(&self, stream: u32) -> bool
        ensures { result ≡ hears_on ((known_of self.now).kept stream) }
    {
        match self.table.get(stream) {
            None => false,
            Some(kept) => hears(kept),
        }
    }

    /// Whether a stream is a response that is open.
    #[inline(always)]
    pub fn is_open_response(&self, stream: u32) -> bool
        ensures { result ≡ is_open_response ((known_of self.now).kept stream) }
    {
        match self.table.get(stream) {
            None => false,
            Some(kept) => kept.kind == Kind::Response,
        }
    }

    /// What waits first on a stream.
    #[inline(always)]
    pub fn next_take(&self, stream: u32) -> Option<&Delivery>
        ensures { option_copied result ≡ front_of ((known_of self.now).waits stream) }
    {
        self.waits.front(stream)
    }

    /// The job that waits first.
    pub fn next_job(&self) -> Option<&Job>
        ensures { option_copied result ≡ front_of (known_of self.now).jobs }
    {
        self.jobs.front()
    }
}
