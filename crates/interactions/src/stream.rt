//! What becomes of a stream by what either end says on it.

ghost use Rattle.std.specs.Prelude.{◌≡◌, ◌<◌, ◌≤◌, ◌^◌, ℕ, Bool, List, None, Some, true};
ghost use Rattle.std.specs.Prelude.{◌&&◌, ◌||◌, not, if◌then◌else◌};
ghost use Rattle.rs_wire.specs.declared.message.Message.{Message as Content};
ghost use Rattle.stream_model.specs.Arriving.{or_zero, over_credit, MayGrant};
ghost use Rattle.stream_model.specs.Kept.{after, credit_after, requested, is_done, FitsCredit};
ghost use Rattle.stream_model.specs.Marks.{Cancel as Cancels, Fail as Fails, Opening, Payload};
ghost use Rattle.stream_model.specs.Marks.{RequestN};
ghost use Rattle.stream_model.specs.Known.{credit_at, over_at};
ghost use Rattle.stream_model.specs.Turns.{is_of_requester, needs_credit, Said};
ghost use Rattle.interactions.specs.Credited.{is_counted, HasCredit};
ghost use Rattle.interactions.specs.Next.{completes};

use crate::ways::{
    cancel_ends, carries, credit_at, inbound, is_over_at, may_grant, message_ends, needs_credit,
    other,
};
use credit::Credit;
use rs_wire::{Amount, Kind, Role, Way};
use stream_model::Stream;

/// Whether both ways of a stream are over.
pub fn is_done(kept: Stream) -> bool
    ensures { result ≡ is_done kept }
{
    kept.request_over && kept.reply_over
}

/// How much was granted of the way that this end receives, where an item of the peer's finds no
/// credit left on it.
pub fn over_credit(kept: Stream, next: bool) -> Option<u128>
    ensures { result ≡ over_credit kept next }
{
    let way = inbound(kept.role);
    let credit = credit_at(kept, way);
    if next
        && carries(kept.kind, kept.whole, way, other(kept.role))
        && !is_over_at(kept, way)
        && needs_credit(kept.kind)
        && credit.left() == 0
    {
        return Some(credit.granted());
    }
    None
}

// Whether a message of that end is an item of this way, and credit counts it.
fn is_counted(kept: Stream, by: Role, next: bool, way: Way) -> bool
    ensures { result ≡ is_counted kept by next way }
{
    !is_over_at(kept, way)
        && needs_credit(kept.kind)
        && next
        && carries(kept.kind, kept.whole, way, by)
}

// The credit of this way after a message of that end.
fn credit_used(kept: Stream, by: Role, next: bool, way: Way) -> Credit
    requires { HasCredit kept by next }
    ensures credit { (message : Content) (complete : Bool) → result
        ≡ credit_after (credit_at kept way) (over_at kept way) kept.kind
        kept.whole way (Said by (Payload message complete next)) }
    ensures granted { result.granted ≡ (credit_at kept way).granted }
    ensures within { (credit_at kept way).used ≤ (credit_at kept way).granted
        → result.used ≤ result.granted }
{
    let mut credit = credit_at(kept, way);
    if is_counted(kept, by, next, way) {
        credit.use_one();
    }
    credit
}

// The credit of this way after a REQUEST_N of that end.
fn credit_granted(kept: Stream, by: Role, n: Amount, way: Way) -> Credit
    requires { (credit_at kept way).granted < 2 ^ 100 }
    ensures credit { result ≡ credit_after (credit_at kept way) (over_at kept way)
        kept.kind kept.whole way (Said by (RequestN n)) }
    ensures granted { result.granted < 2 ^ 101 }
    ensures within { (credit_at kept way).used ≤ (credit_at kept way).granted
        → result.used ≤ result.granted }
{
    let mut credit = credit_at(kept, way);
    if may_grant(kept.kind, way, by) {
        credit.grant(n);
    }
    credit
}

// Whether the request's own message is whole after a message of that end.
fn is_whole_after(kept: Stream, by: Role) -> bool
    ensures { (message : Content) (complete next : Bool) → result ≡ (kept.whole
        || (is_of_requester (Said by (Payload message complete next)) && not kept.request_over)) }
{
    match by {
        Role::Requester => kept.whole || !kept.request_over,
        Role::Responder => kept.whole,
    }
}

/// A stream after a whole message of that end.
#[inline(always)]
pub fn after_message(kept: Stream, by: Role, complete: bool, next: bool) -> Stream
    requires credit { HasCredit kept by next }
    requires fits { FitsCredit kept }
    ensures after { (message : Content) → result
        ≡ after kept (Said by (Payload message complete next)) }
    ensures fits { FitsCredit result }
{
    Stream {
        whole: is_whole_after(kept, by),
        request_over: kept.request_over || message_ends(by, kept.kind, complete, Way::Request),
        reply_over: kept.reply_over || message_ends(by, kept.kind, complete, Way::Reply),
        request: credit_used(kept, by, next, Way::Request),
        reply: credit_used(kept, by, next, Way::Reply),
        ..kept
    }
}

/// A stream after REQUEST_N of that end.
pub fn after_grant(kept: Stream, by: Role, n: Amount) -> Stream
    requires credit { MayGrant (Some kept) }
    requires fits { FitsCredit kept }
    ensures after { result ≡ after kept (Said by (RequestN n)) }
    ensures fits { FitsCredit result }
{
    Stream {
        request: credit_granted(kept, by, n, Way::Request),
        reply: credit_granted(kept, by, n, Way::Reply),
        ..kept
    }
}

/// A stream after CANCEL of that end.
pub fn after_cancel(kept: Stream, by: Role) -> Stream
    requires { FitsCredit kept }
    ensures after { result ≡ after kept (Said by Cancels) }
    ensures fits { FitsCredit result }
{
    Stream {
        request_over: kept.request_over || cancel_ends(by, kept.kind, Way::Request),
        reply_over: kept.reply_over || cancel_ends(by, kept.kind, Way::Reply),
        ..kept
    }
}

/// A stream after ERROR of that end.
pub fn after_error(kept: Stream, by: Role) -> Stream
    requires { FitsCredit kept }
    ensures after { (code : ℕ) (content : List ℕ) → result
        ≡ after kept (Said by (Fails code content)) }
    ensures fits { FitsCredit result }
    ensures done { is_done result ≡ true }
{
    Stream {
        request_over: true,
        reply_over: true,
        ..kept
    }
}

/// The initial n of a request, 0 for none.
pub fn number_of(initial: Option<Amount>) -> u32
    ensures number { result ≡ or_zero initial }
    ensures within { result < 2 ^ 31 }
{
    match initial {
        None => 0,
        Some(n) => n.get(),
    }
}

// The credit that a request grants for the replies.
fn first_credit(kind: Kind, initial: u32) -> Credit
    requires { initial < 2 ^ 31 }
    ensures { result ≡ record { granted = if needs_credit kind then initial else 0; used = 0 } }
{
    let mut credit = Credit::new();
    if needs_credit(kind) {
        if let Some(n) = Amount::of(initial) {
            credit.grant(n);
        }
    }
    credit
}

// A stream after its request, whose message is whole with it.
fn first_whole(role: Role, kind: Kind, initial: u32, complete: bool) -> Stream
    requires { initial < 2 ^ 31 }
    ensures first { (message : Content) → result ≡ requested (record {
      role = role;
      kind = kind;
      initial = initial;
      whole = Some (message, complete);
    }) }
    ensures fits { FitsCredit result }
{
    Stream {
        role,
        kind,
        initial,
        whole: true,
        request_over: message_ends(Role::Requester, kind, complete, Way::Request),
        reply_over: message_ends(Role::Requester, kind, complete, Way::Reply),
        request: Credit::new(),
        reply: first_credit(kind, initial),
    }
}

// A stream after its request, whose fragments follow.
fn first_part(role: Role, kind: Kind, initial: u32) -> Stream
    requires { initial < 2 ^ 31 }
    ensures first { result ≡ requested (record {
      role = role;
      kind = kind;
      initial = initial;
      whole = None;
    }) }
    ensures fits { FitsCredit result }
{
    Stream {
        role,
        kind,
        initial,
        whole: false,
        request_over: false,
        reply_over: false,
        request: Credit::new(),
        reply: first_credit(kind, initial),
    }
}

/// A stream after its request: whether that says that the requester sends nothing more, where its
/// message is whole.
pub fn begun(role: Role, kind: Kind, initial: u32, whole: Option<bool>) -> Stream
    requires { initial < 2 ^ 31 }
    ensures first { (o : Opening) → o.role ≡ role → o.kind ≡ kind → o.initial ≡ initial →
        completes o.whole ≡ whole → result ≡ requested o }
    ensures fits { FitsCredit result }
{
    match whole {
        None => first_part(role, kind, initial),
        Some(complete) => first_whole(role, kind, initial, complete),
    }
}
