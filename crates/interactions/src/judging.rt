//! What a call on the streams is refused for. Each test stands alone, since a session puts tests of
//! its own between them.

ghost use Rattle.std.specs.Prelude.{◌≡◌};
ghost use Rattle.stream_model.specs.Refused.{by_credit, by_ids, by_live, by_state, cancel_refused};
ghost use Rattle.stream_model.specs.Refused.{credit_refused, inbound_over, on_stream, on_way};
ghost use Rattle.stream_model.specs.Refused.{outbound_credit, outbound_over, refused_by, take_refused};
ghost use Rattle.stream_model.specs.Refused.{where_nothing_waits};
ghost use Rattle.interactions.specs.Asked.{asked_refused};
ghost use Rattle.interactions.specs.Stands.{known_of};

use crate::parts::Parts;
use crate::ways::{inbound, is_over_at, needs_credit};
use credit::Credit;
use rs_wire::{Call, Kind, Refusal, Role};
use stream_model::Stream;

/// What a call asks of a stream.
#[derive(Clone, Copy)]
pub enum Asked {
    /// To send a payload on it, or to end what this end sends.
    Send,
    /// To grant items of what this end receives.
    Grant,
    /// To want nothing more of it.
    Cancel,
    /// To end it by an error.
    Fail,
    /// To take what waits on it, where nothing does.
    Take,
}

// Refused unless there is such a way, and it is not over.
fn on_way(over: Option<bool>) -> Option<Refusal>
    ensures { result ≡ on_way over }
{
    match over {
        None => Some(Refusal::WrongKind),
        Some(true) => Some(Refusal::Ended),
        Some(false) => None,
    }
}

// Whether the way that this end sends on is over, where it has one.
fn outbound_over(kept: Stream) -> Option<bool>
    ensures { result ≡ outbound_over kept.role kept.kind kept }
{
    match (kept.role, kept.kind) {
        (Role::Requester, Kind::Channel) => Some(kept.request_over),
        (Role::Requester, _) | (Role::Responder, Kind::Fnf) => None,
        (Role::Responder, _) => Some(kept.reply_over),
    }
}

// Whether the way whose items this end receives is over, where credit counts them.
fn inbound_over(kept: Stream) -> Option<bool>
    ensures { result ≡ inbound_over kept.role kept.kind kept }
{
    match (kept.role, kept.kind) {
        (Role::Requester, Kind::Stream | Kind::Channel) => Some(kept.reply_over),
        (Role::Responder, Kind::Channel) => Some(kept.request_over),
        _ => None,
    }
}

// A requester cancels the stream, a responder what it receives of a channel.
fn cancel_refused(kept: Stream) -> Option<Refusal>
    ensures { result ≡ cancel_refused kept.role kept.kind kept }
{
    match kept.role {
        Role::Requester => None,
        Role::Responder => on_way(inbound_over(kept)),
    }
}

// A fire-and-forget has nothing to take, and of another stream nothing more comes once the way is
// over.
fn take_refused(kept: Stream) -> Option<Refusal>
    ensures { result ≡ take_refused kept }
{
    if kept.kind == Kind::Fnf {
        return Some(Refusal::WrongKind);
    }
    on_way(Some(is_over_at(kept, inbound(kept.role))))
}

fn asked_refused(kept: Stream, asked: Asked) -> Option<Refusal>
    ensures { result ≡ asked_refused asked kept }
{
    match asked {
        Asked::Send => on_way(outbound_over(kept)),
        Asked::Grant => on_way(inbound_over(kept)),
        Asked::Cancel => cancel_refused(kept),
        Asked::Fail => None,
        Asked::Take => take_refused(kept),
    }
}

fn outbound_credit(kept: Stream) -> Credit
    ensures { result ≡ outbound_credit kept.role kept }
{
    match kept.role {
        Role::Requester => kept.request,
        Role::Responder => kept.reply,
    }
}

// An item of a stream or channel for which no credit is left.
fn credit_refused(kept: Option<Stream>) -> Option<Refusal>
    ensures { result ≡ credit_refused kept }
{
    let kept = kept?;
    let credit = outbound_credit(kept);
    if needs_credit(kept.kind) && credit.left() == 0 {
        return Some(Refusal::NoCredit(credit.granted()));
    }
    None
}

impl Parts {
    // Refused unless the stream is open, and then for what is asked of it.
    #[inline(always)]
    fn on_stream(&self, stream: u32, asked: Asked) -> Option<Refusal>
        ensures { result ≡ on_stream (known_of self.now) stream (asked_refused asked) }
    {
        if self.is_above(stream) {
            return Some(Refusal::UnknownStream);
        }
        match self.table.get(stream) {
            None => Some(Refusal::Ended),
            Some(kept) => asked_refused(kept, asked),
        }
    }

    // Refused where nothing waits, and the stream says why.
    fn take_by_state(&self, stream: u32) -> Option<Refusal>
        ensures { result ≡ where_nothing_waits ((known_of self.now).waits stream)
            (on_stream (known_of self.now) stream take_refused) }
    {
        match self.waits.front(stream) {
            Some(_) => None,
            None => self.on_stream(stream, Asked::Take),
        }
    }

    /// Refused for the state of the stream: `UnknownStream`, `Ended` or `WrongKind`.
    pub fn by_state(&self, call: &Call) -> Option<Refusal>
        ensures { result ≡ by_state (known_of self.now) call.now }
    {
        match call {
            Call::Next { stream, .. } | Call::Done { stream } => {
                self.on_stream(*stream, Asked::Send)
            }
            Call::Grant { stream, .. } => self.on_stream(*stream, Asked::Grant),
            Call::Cancel { stream } => self.on_stream(*stream, Asked::Cancel),
            Call::Fail { stream, .. } => self.on_stream(*stream, Asked::Fail),
            Call::Take { stream } => self.take_by_state(*stream),
            Call::Request { .. }
            | Call::Push { .. }
            | Call::Lease { .. }
            | Call::TakeJob
            | Call::Close => None,
        }
    }

    /// Refused for an item for which no credit is left: `NoCredit`.
    pub fn by_credit(&self, call: &Call) -> Option<Refusal>
        ensures { result ≡ by_credit (known_of self.now) call.now }
    {
        match call {
            Call::Next { stream, .. } => credit_refused(self.table.get(*stream)),
            _ => None,
        }
    }

    /// Refused for a request that no stream id is left for: `IdsGone`.
    pub fn by_ids(&self, call: &Call) -> Option<Refusal>
        ensures { result ≡ by_ids self.now.table.limits (known_of self.now) call.now }
    {
        match call {
            Call::Request { .. } if self.next_id().is_none() => Some(Refusal::IdsGone),
            _ => None,
        }
    }

    /// Refused for a request where as many streams are open as may be: `TooManyStreams`.
    pub fn by_live(&self, call: &Call) -> Option<Refusal>
        ensures { result ≡ by_live self.now.table.limits (known_of self.now) call.now }
    {
        let most = self.table.limits().max_streams;
        match call {
            Call::Request { kind, .. } if *kind != Kind::Fnf && self.table.live() == most => {
                Some(Refusal::TooManyStreams(most))
            }
            _ => None,
        }
    }

    /// Refused for the first of these that holds, in this order.
    pub fn refused(&self, call: &Call) -> Option<Refusal>
        ensures { result ≡ refused_by self.now.table.limits (known_of self.now) call.now }
    {
        self.by_state(call)
            .or(self.by_credit(call))
            .or(self.by_ids(call))
            .or(self.by_live(call))
    }
}
