//! The two ways of a stream: which end uses which, what ends them, and what credit counts on them.

ghost use Rattle.std.specs.Prelude.{◌≡◌};
ghost use Rattle.stream_model.specs.Turns.{cancel_ends, carries, inbound, may_grant, message_ends};
ghost use Rattle.stream_model.specs.Turns.{needs_credit, other};
ghost use Rattle.stream_model.specs.Known.{credit_at, over_at};

use credit::Credit;
use rs_wire::{Kind, Role, Way};
use stream_model::Stream;

/// The part of the peer where this end has that part.
pub fn other(role: Role) -> Role
    ensures { result ≡ other role }
{
    match role {
        Role::Requester => Role::Responder,
        Role::Responder => Role::Requester,
    }
}

/// The way that an end receives.
pub fn inbound(role: Role) -> Way
    ensures { result ≡ inbound role }
{
    match role {
        Role::Requester => Way::Reply,
        Role::Responder => Way::Request,
    }
}

/// Whether a whole message of that end ends this way.
pub fn message_ends(by: Role, kind: Kind, complete: bool, way: Way) -> bool
    ensures { result ≡ message_ends by kind complete way }
{
    match (by, kind) {
        (Role::Requester, Kind::Fnf) => true,
        (Role::Requester, Kind::Channel) => complete && way == Way::Request,
        (Role::Requester, _) => false,
        (Role::Responder, Kind::Response) => true,
        (Role::Responder, Kind::Stream) => complete,
        (Role::Responder, Kind::Channel) => complete && way == Way::Reply,
        (Role::Responder, Kind::Fnf) => false,
    }
}

/// Whether a CANCEL of that end ends this way.
pub fn cancel_ends(by: Role, kind: Kind, way: Way) -> bool
    ensures { result ≡ cancel_ends by kind way }
{
    match by {
        Role::Requester => true,
        Role::Responder => kind == Kind::Channel && way == Way::Request,
    }
}

/// Whether this way carries items of that end, where `whole` says that the request's own message
/// is.
pub fn carries(kind: Kind, whole: bool, way: Way, by: Role) -> bool
    ensures { result ≡ carries kind whole way by }
{
    match (kind, way, by) {
        (Kind::Channel, Way::Request, Role::Requester) => whole,
        (Kind::Channel | Kind::Stream | Kind::Response, Way::Reply, Role::Responder) => true,
        _ => false,
    }
}

/// Whether credit counts the items of such a stream.
pub fn needs_credit(kind: Kind) -> bool
    ensures { result ≡ needs_credit kind }
{
    match kind {
        Kind::Stream | Kind::Channel => true,
        Kind::Response | Kind::Fnf => false,
    }
}

/// Whether that end grants items of this way.
pub fn may_grant(kind: Kind, way: Way, by: Role) -> bool
    ensures { result ≡ may_grant kind way by }
{
    match (kind, way, by) {
        (Kind::Channel | Kind::Stream, Way::Reply, Role::Requester) => true,
        (Kind::Channel, Way::Request, Role::Responder) => true,
        _ => false,
    }
}

/// Whether this way of a stream is over.
pub fn is_over_at(kept: Stream, way: Way) -> bool
    ensures { result ≡ over_at kept way }
{
    match way {
        Way::Request => kept.request_over,
        Way::Reply => kept.reply_over,
    }
}

/// The credit of this way of a stream.
pub fn credit_at(kept: Stream, way: Way) -> Credit
    ensures { result ≡ credit_at kept way }
{
    match way {
        Way::Request => kept.request,
        Way::Reply => kept.reply,
    }
}
