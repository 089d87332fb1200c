//! One open stream: the parts of its two ends, and the ends of its two ways.

ghost use Rattle.std.specs.Prelude.{◌≡◌, false};
ghost use Rattle.stream_model.specs.Kept.{is_done};
ghost use Rattle.stream_model.specs.Known.{opener_of};
ghost use Rattle.stream_table.specs.Tables.{bare, ends_all, finished, role_of};

use credit::Credit;
use rs_wire::{Kind, Role, Side, Way};
use stream_model::Stream;

/// The end that opened a stream in which this side has that part.
pub fn opener(side: Side, role: Role) -> Side
    ensures { result ≡ opener_of side role }
{
    match (side, role) {
        (Side::Client, Role::Requester) | (Side::Server, Role::Responder) => Side::Client,
        (Side::Server, Role::Requester) | (Side::Client, Role::Responder) => Side::Server,
    }
}

/// The part of this side in a stream of that opener.
pub fn part(side: Side, opener: Side) -> Role
    ensures { result ≡ role_of side opener }
{
    if side == opener {
        Role::Requester
    } else {
        Role::Responder
    }
}

/// A stream of which no more is known than its kind.
pub fn bare_stream(role: Role, kind: Kind) -> Stream
    ensures { result ≡ bare role kind }
{
    Stream {
        role,
        kind,
        initial: 0,
        whole: false,
        request_over: false,
        reply_over: false,
        request: Credit::new(),
        reply: Credit::new(),
    }
}

/// Both ways of a stream are over.
pub fn is_over(stream: &Stream) -> bool
    ensures { result ≡ is_done stream.now }
{
    stream.request_over && stream.reply_over
}

/// The end of this way ends the whole stream.
fn ends_stream(kind: Kind, way: Way) -> bool
    ensures { result ≡ ends_all kind way }
{
    match kind {
        Kind::Fnf => true,
        Kind::Channel => false,
        Kind::Response | Kind::Stream => way == Way::Reply,
    }
}

/// The stream after that way is over.
pub fn finish_way(stream: Stream, way: Way) -> Stream
    ensures { result ≡ finished way stream }
{
    let ends_both = ends_stream(stream.kind, way);
    Stream {
        request_over: stream.request_over || ends_both || way == Way::Request,
        reply_over: stream.reply_over || ends_both || way == Way::Reply,
        ..stream
    }
}
