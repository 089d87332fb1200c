//! What is gathered of messages that are not whole yet.

ghost use Rattle.std.specs.Prelude.{◌≡◌, ◌++◌, ℕ, Bool, false, true, nat_eq};
ghost use Rattle.reassembly.specs.Gathering.{HasRoom, gathered_at, has_part_at};
ghost use Rattle.stream_model.specs.Known.{hears_on};
ghost use Rattle.interactions.specs.Seen.{known_to};
ghost use Rattle.session_model.specs.Streams.{arrival_in, gathers, gathers_of, marks_in, while_heard};
ghost use Rattle.session_core.specs.Speaking.{CanSay, arrival_for, heard_on};
ghost use Rattle.session_core.specs.Gathering.{FindsPlace, FindsPlaceFor, IsOfHeard, called_on, is_that, ready_for, ready_in, touches};

use crate::arrivals::Incoming;
use crate::speak::{heard_on, named, say};
use fragment::Glued;
use interactions::Streams;
use reassembly::Reassembly;
use rs_frame::{Frame, Request};
use rs_wire::{Call, Message};
use stream_model::Arrival;
use tape::{Answer, Event};

// The first part of a request's message, or all of it, of which nothing is gathered.
fn begin(parts: &mut Reassembly, request: &Request)
    requires place { request.now.follows ≡ true →
        HasRoom parts.old request.now.stream request.now.message }
    ensures gathered { (s : ℕ) → gathered_at parts.new s ≡
        gathers_of (Frame.Request request.now) s (gathered_at parts.old s) }
    ensures others { (s : ℕ) → nat_eq request.now.stream s ≡ false →
        has_part_at parts.new s ≡ has_part_at parts.old s }
{
    if !request.follows {
        parts.forget(request.stream);
        return;
    }
    let _part = parts.push(
        request.stream,
        true,
        &request.message,
        request.complete,
        false,
    );
}

// One more part of a stream's message, which is what comes where it makes it whole.
fn join(
    parts: &mut Reassembly,
    stream: u32,
    follows: bool,
    message: &Message,
    complete: bool,
    next: bool,
) -> Option<Arrival>
    requires place { HasRoom parts.old stream message.now }
    ensures arrival { (covered : Bool) → result ≡ arrival_in covered (gathered_at parts.old)
        (Frame.Payload stream follows complete next message.now) }
    ensures gathered { (s : ℕ) → gathered_at parts.new s ≡ gathers_of
        (Frame.Payload stream follows complete next message.now) s (gathered_at parts.old s) }
    ensures others { (s : ℕ) → nat_eq stream s ≡ false →
        has_part_at parts.new s ≡ has_part_at parts.old s }
{
    match parts.push(stream, follows, message, complete, next) {
        Glued::Part => None,
        Glued::Whole {
            message,
            complete,
            next,
        } => Some(Arrival::Whole {
            stream,
            message,
            complete,
            next,
        }),
    }
}

// Takes in what a frame adds to a message, and gives what it says then.
fn take_frame(parts: &mut Reassembly, frame: &Frame, incoming: &mut Incoming) -> Option<Arrival>
    requires ready { incoming.old.arrival ≡
        ready_in incoming.old.covered incoming.old.is_part frame.now }
    requires place { FindsPlace parts.old incoming.old.is_part frame.now }
    ensures arrival { result ≡
        arrival_in incoming.old.covered (gathered_at parts.old) frame.now }
    ensures gathered { (s : ℕ) → gathered_at parts.new s ≡
        gathers_of frame.now s (gathered_at parts.old s) }
    ensures others { (s : ℕ) → is_that (heard_on frame.now) s ≡ false →
        has_part_at parts.new s ≡ has_part_at parts.old s }
{
    match frame {
        Frame::Request(request) => {
            begin(parts, request);
            incoming.arrival.take()
        }
        Frame::Payload {
            stream,
            follows,
            complete,
            next,
            message,
        } if incoming.is_part => join(parts, *stream, *follows, message, *complete, *next),
        _ => incoming.arrival.take(),
    }
}

// Takes in what a frame that is handled adds to a message, and gives what it says on a stream.
fn take_in(
    parts: &mut Reassembly,
    event: &Event,
    answer: &Answer,
    incoming: &mut Incoming,
) -> Option<Arrival>
    requires ready { incoming.old.arrival ≡
        ready_for incoming.old.covered incoming.old.is_part answer.now event.now }
    requires place { FindsPlaceFor parts.old incoming.old.is_part answer.now event.now }
    ensures arrival { result ≡
        arrival_for incoming.old.covered (gathered_at parts.old) answer.now event.now }
    ensures gathered { (s : ℕ) → gathered_at parts.new s ≡
        gathers answer.now event.now s (gathered_at parts.old s) }
    ensures others { (s : ℕ) → is_that (touches answer.now event.now) s ≡ false →
        has_part_at parts.new s ≡ has_part_at parts.old s }
{
    match (answer, event) {
        (Answer::Handled, Event::Came { frame, .. }) => take_frame(parts, frame, incoming),
        _ => incoming.arrival.take(),
    }
}

// The stream of a call, which is of that id where it is a request.
fn called_on(id: u32, call: &Call) -> Option<u32>
    ensures { result ≡ called_on id call.now }
{
    match call {
        Call::Request { .. } => Some(id),
        _ => named(call),
    }
}

/// The stream on which an event and its answer say something, or on which something is taken.
#[inline(always)]
pub fn touches(answer: &Answer, event: &Event) -> Option<u32>
    ensures { result ≡ touches answer.now event.now }
{
    match (answer, event) {
        (Answer::Handled, Event::Came { frame, .. }) => heard_on(frame),
        (Answer::Started(id), Event::Asked(call)) => called_on(*id, call),
        (Answer::Done, Event::Asked(call)) => called_on(0, call),
        (Answer::Got(_), Event::Asked(Call::Take { stream })) => Some(*stream),
        _ => None,
    }
}

/// Drops what is gathered on a stream where the peer's messages are not taken in.
#[inline(always)]
pub fn let_stream_go(parts: &mut Reassembly, streams: &Streams, stream: u32)
    ensures heard { (s : ℕ) → hears_on ((known_to streams.now).kept s) ≡ true →
        gathered_at parts.new s ≡ gathered_at parts.old s }
    ensures over { hears_on ((known_to streams.now).kept stream) ≡ false →
        has_part_at parts.new stream ≡ false }
    ensures others { (s : ℕ) → nat_eq stream s ≡ false →
        has_part_at parts.new s ≡ has_part_at parts.old s }
{
    if parts.is_empty() || streams.hears(stream) {
        return;
    }
    parts.forget(stream);
}

// Drops what is gathered on the stream of an event, where the peer's messages are not taken in
// there any more.
fn let_go(parts: &mut Reassembly, streams: &Streams, event: &Event, answer: &Answer)
    ensures heard { (s : ℕ) → hears_on ((known_to streams.now).kept s) ≡ true →
        gathered_at parts.new s ≡ gathered_at parts.old s }
    ensures over { (s : ℕ) → is_that (touches answer.now event.now) s ≡ true →
        hears_on ((known_to streams.now).kept s) ≡ false → has_part_at parts.new s ≡ false }
    ensures others { (s : ℕ) → is_that (touches answer.now event.now) s ≡ false →
        has_part_at parts.new s ≡ has_part_at parts.old s }
{
    if let Some(stream) = touches(answer, event) {
        let_stream_go(parts, streams, stream);
    }
}

/// Takes in what comes, and says on the streams what the event and its answer say, for which there
/// is room. Of a stream on which the peer's messages are not taken in any more nothing is kept.
pub fn speak(
    parts: &mut Reassembly,
    streams: &mut Streams,
    event: &Event,
    answer: &Answer,
    incoming: &mut Incoming,
)
    requires ready { incoming.old.arrival ≡
        ready_for incoming.old.covered incoming.old.is_part answer.now event.now }
    requires place { FindsPlaceFor parts.old incoming.old.is_part answer.now event.now }
    requires says { CanSay streams.old answer.now event.now
        (arrival_for incoming.old.covered (gathered_at parts.old) answer.now event.now) }
    requires heard { IsOfHeard (known_to streams.old) parts.old }
    ensures marks { streams.new.marks ≡
        marks_in incoming.old.covered (gathered_at parts.old) answer.now event.now
        ++ streams.old.marks }
    ensures limits { streams.new.limits ≡ streams.old.limits }
    ensures unfinished { (s : ℕ) → gathered_at parts.new s ≡ while_heard
        streams.new.limits.max_streams streams.new.marks
        (λ i. gathers answer.now event.now i (gathered_at parts.old i)) s }
    ensures heard { IsOfHeard (known_to streams.new) parts.new }
{
    let arrival = take_in(parts, event, answer, incoming);
    say(streams, event, answer, arrival);
    let_go(parts, streams, event, answer);
}
