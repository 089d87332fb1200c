//! What a frame that came brings, owned.

ghost use Rattle.std.specs.Prelude.{◌≡◌, IfOk, None, OnOk, Some};
ghost use Rattle.session_model.specs.Streams.{whole_in};
ghost use Rattle.session_core.specs.Gathering.{FindsPlace, FindsPlaceFor, IsPartOrWhole, IsSameGathered, IsSameKept, alone_in, ready_for, ready_in};

use reassembly::Reassembly;
use rs_frame::{Frame, Request};
use rs_wire::{Message, OutOfMemory};
use std::alloc::Global;
use stream_model::Arrival;
use tape::{Answer, Event};

/// What a frame that is handled brings, made before anything changes.
#[derive(Drop)]
pub struct Incoming {
    /// What the frame says on a stream. A payload that is a part of a message says nothing before
    /// it is joined to the other parts.
    pub arrival: Option<Arrival>,
    /// The frame is a payload that is a part of a message.
    pub is_part: bool,
    /// What this end lets its peer ask covers a request.
    pub covered: bool,
}

impl Incoming {
    /// Nothing comes.
    pub fn nothing(covered: bool) -> Incoming
        ensures arrival { result.arrival ≡ None }
        ensures covered { result.covered ≡ covered }
    {
        Incoming {
            arrival: None,
            is_part: false,
            covered,
        }
    }
}

// The request's message, where no fragments follow.
fn whole_in(alloc: Global, request: &Request) -> Result<Option<(Message, bool)>, OutOfMemory>
    ensures { IfOk result (λ w. w ≡
        whole_in request.now.follows request.now.message request.now.complete) }
{
    if request.follows {
        return Ok(None);
    }
    Ok(Some((request.message.copy(alloc)?, request.complete)))
}

// What a request says, which is passed over where it is not covered.
fn asked(alloc: Global, covered: bool, request: &Request) -> Result<Arrival, OutOfMemory>
    ensures { IfOk result (λ a. Some a ≡ alone_in covered (Frame.Request request.now)) }
{
    if !covered {
        return Ok(Arrival::PassedOver {
            stream: request.stream,
        });
    }
    Ok(Arrival::Asked {
        stream: request.stream,
        kind: request.kind,
        initial: request.initial,
        whole: whole_in(alloc, request)?,
    })
}

// What a frame says on a stream where nothing is gathered.
fn alone_in(alloc: Global, covered: bool, frame: &Frame) -> Result<Option<Arrival>, OutOfMemory>
    ensures { IfOk result (λ a. a ≡ alone_in covered frame.now) }
{
    Ok(match frame {
        Frame::Request(request) => Some(asked(alloc, covered, request)?),
        Frame::Payload { follows: true, .. } => None,
        Frame::Payload {
            stream,
            complete,
            next,
            message,
            ..
        } => Some(Arrival::Whole {
            stream: *stream,
            message: message.copy(alloc)?,
            complete: *complete,
            next: *next,
        }),
        Frame::RequestN { stream, n } => Some(Arrival::Granted {
            stream: *stream,
            n: *n,
        }),
        Frame::Cancel { stream } => Some(Arrival::Canceled { stream: *stream }),
        Frame::Error { stream: 0, .. } => None,
        Frame::Error {
            stream,
            code,
            content,
        } => Some(Arrival::Failed {
            stream: *stream,
            code: *code,
            content: content.copy(alloc)?,
        }),
        Frame::MetadataPush { metadata } => Some(Arrival::Pushed {
            metadata: metadata.copy(alloc)?,
        }),
        _ => None,
    })
}

// What a frame says before it is joined to other parts.
fn ready_in(
    alloc: Global,
    covered: bool,
    frame: &Frame,
    is_part: bool,
) -> Result<Option<Arrival>, OutOfMemory>
    ensures { IfOk result (λ a. a ≡ ready_in covered is_part frame.now) }
{
    match frame {
        Frame::Payload { .. } if is_part => Ok(None),
        _ => alone_in(alloc, covered, frame),
    }
}

// Whether the frame is a payload that is a part of a message: more follow, or some came before.
fn is_part(parts: &Reassembly, frame: &Frame) -> bool
    ensures { IsPartOrWhole parts.now result frame.now }
{
    match frame {
        Frame::Payload {
            stream,
            follows,
            ..
        } => *follows || parts.has_part(*stream),
        _ => false,
    }
}

// Makes room for the part of a message that a frame is.
fn make_place(parts: &mut Reassembly, frame: &Frame, is_part: bool) -> Result<(), OutOfMemory>
    requires { IsPartOrWhole parts.old is_part frame.now }
    ensures same { IsSameGathered parts.old parts.new }
    ensures kept { IsSameKept parts.old parts.new }
    ensures place { OnOk result (FindsPlace parts.new is_part frame.now) }
{
    match frame {
        Frame::Request(request) if request.follows => {
            parts.reserve(request.stream, &request.message)
        }
        Frame::Payload {
            stream,
            message,
            ..
        } if is_part => parts.reserve(*stream, message),
        _ => Ok(()),
    }
}

fn incoming_in(
    alloc: Global,
    parts: &mut Reassembly,
    covered: bool,
    frame: &Frame,
) -> Result<Incoming, OutOfMemory>
    ensures same { IsSameGathered parts.old parts.new }
    ensures kept { IsSameKept parts.old parts.new }
    ensures arrival { IfOk result (λ i. i.arrival ≡ ready_in covered i.is_part frame.now) }
    ensures covered { IfOk result (λ i. i.covered ≡ covered) }
    ensures place { IfOk result (λ i. FindsPlace parts.new i.is_part frame.now) }
{
    let is_part = is_part(parts, frame);
    make_place(parts, frame, is_part)?;
    Ok(Incoming {
        arrival: ready_in(alloc, covered, frame, is_part)?,
        is_part,
        covered,
    })
}

/// What a frame that is handled brings, and room for it among the parts, where `covered` says
/// whether a request is.
pub fn incoming_of(
    alloc: Global,
    parts: &mut Reassembly,
    covered: bool,
    event: &Event,
    answer: &Answer,
) -> Result<Incoming, OutOfMemory>
    ensures same { IsSameGathered parts.old parts.new }
    ensures kept { IsSameKept parts.old parts.new }
    ensures arrival { IfOk result (λ i. i.arrival ≡
        ready_for covered i.is_part answer.now event.now) }
    ensures covered { IfOk result (λ i. i.covered ≡ covered) }
    ensures place { IfOk result (λ i.
        FindsPlaceFor parts.new i.is_part answer.now event.now) }
{
    match (answer, event) {
        (Answer::Handled, Event::Came { frame, .. }) => {
            incoming_in(alloc, parts, covered, frame)
        }
        _ => Ok(Incoming::nothing(covered)),
    }
}
