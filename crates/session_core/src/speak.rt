//! What an event and its answer say on the streams.

ghost use Rattle.std.specs.Prelude.{◌≡◌, ◌++◌, ◌||◌, IfSome, OnErr, OnOk, option_to_list};
ghost use Rattle.std.specs.Option.{option_map};
ghost use Rattle.interactions.specs.Seen.{known_to, stream_of_call};
ghost use Rattle.stream_model.specs.Known.{is_open_response};
ghost use Rattle.stream_model.specs.Arriving.{heard, said};
ghost use Rattle.session_core.specs.Speaking.{Acts, CanSay, Comes, FindsRoom, heard_on, named, says, speaks_on};

use interactions::Streams;
use rs_frame::Frame;
use rs_wire::{Call, OutOfMemory};
use stream_model::Arrival;
use tape::{Answer, Event};

/// The stream of a frame that says something on a stream, or that is a part of a message there; 0
/// for pushed metadata, which is of no stream.
pub fn heard_on(frame: &Frame) -> Option<u32>
    ensures { result ≡ heard_on frame.now }
{
    match frame {
        Frame::Request(request) => Some(request.stream),
        Frame::Error { stream: 0, .. } => None,
        Frame::Payload { stream, .. }
        | Frame::RequestN { stream, .. }
        | Frame::Cancel { stream }
        | Frame::Error { stream, .. } => Some(*stream),
        Frame::MetadataPush { .. } => Some(0),
        _ => None,
    }
}

/// The stream on which a call goes on, where it names one.
pub fn named(call: &Call) -> Option<u32>
    ensures { result ≡ named call.now }
{
    match call {
        Call::Next { stream, .. }
        | Call::Done { stream }
        | Call::Grant { stream, .. }
        | Call::Cancel { stream }
        | Call::Fail { stream, .. } => Some(*stream),
        Call::Request { .. }
        | Call::Push { .. }
        | Call::Lease { .. }
        | Call::Take { .. }
        | Call::TakeJob
        | Call::Close => None,
    }
}

/// Whether a payload is the last that this end sends on its stream: it says so, or it is a
/// response's, which has one payload.
pub fn completes(streams: &Streams, stream: u32, complete: bool) -> bool
    ensures { result ≡ (complete || is_open_response ((known_to streams.now).kept stream)) }
{
    complete || streams.is_open_response(stream)
}

// The stream that a frame that is handled, or a call that acts, speaks on.
fn speaks_on(answer: &Answer, event: &Event) -> Option<u32>
    ensures { result ≡ speaks_on answer.now event.now }
{
    match (answer, event) {
        (Answer::Handled, Event::Came { frame, .. }) => heard_on(frame),
        (Answer::Started(id), Event::Asked(_)) => Some(*id),
        (Answer::Done, Event::Asked(call)) => named(call),
        _ => None,
    }
}

/// Makes room for what an event and its answer say.
#[inline(always)]
pub fn make_room(streams: &mut Streams, event: &Event, answer: &Answer) -> Result<(), OutOfMemory>
    ensures same { streams.new ≡ record streams.old { ready = streams.new.ready } }
    ensures room { OnOk result (FindsRoom
        (speaks_on answer.now event.now) streams.new.ready) }
{
    match speaks_on(answer, event) {
        Some(stream) => streams.reserve(stream),
        None => Ok(()),
    }
}

/// Takes what the peer says to its stream.
pub fn arrive(streams: &mut Streams, arrival: Option<Arrival>)
    requires { IfSome arrival (Comes streams.old) }
    ensures marks { streams.new.marks ≡
        option_to_list (option_map heard arrival) ++ streams.old.marks }
    ensures limits { streams.new.limits ≡ streams.old.limits }
{
    if let Some(arrival) = arrival {
        let _effect = streams.arrive(arrival);
    }
}

// A call acts.
fn act(streams: &mut Streams, call: &Call)
    requires { Acts streams.old call.now }
    ensures marks { streams.new.marks ≡
        said (stream_of_call streams.old call.now) call.now ++ streams.old.marks }
    ensures limits { streams.new.limits ≡ streams.old.limits }
{
    let _stream = streams.act(call);
}

/// Says what an event and its answer say, for which room was made; this arrival is what a frame
/// says that is handled.
pub fn say(streams: &mut Streams, event: &Event, answer: &Answer, arrival: Option<Arrival>)
    requires fits { CanSay streams.old answer.now event.now arrival }
    ensures marks { streams.new.marks ≡ says arrival answer.now event.now ++ streams.old.marks }
    ensures limits { streams.new.limits ≡ streams.old.limits }
{
    match (answer, event) {
        (Answer::Handled, Event::Came { .. }) => arrive(streams, arrival),
        (Answer::Done, Event::Asked(Call::Push { .. } | Call::Lease { .. } | Call::Close)) => {}
        (Answer::Started(_) | Answer::Done, Event::Asked(call)) => act(streams, call),
        (Answer::Got(_), Event::Asked(Call::Take { stream })) => {
            let _taken = streams.take(*stream);
        }
        (Answer::GotJob(_), Event::Asked(Call::TakeJob)) => {
            let _taken = streams.take_job();
        }
        _ => {}
    }
}
