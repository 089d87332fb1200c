//! The frames of the connection that an event puts in line.

ghost use Rattle.std.specs.Prelude.{◌≡◌, if◌then◌else◌, [], ◌∷◌, None, Some, IfOk, false, option_to_list};
ghost use Rattle.rs_wire.specs.Settings.{IsChecked};
ghost use Rattle.rs_frame.specs.Spelling.{IsStream};
ghost use Rattle.session_model.specs.Frames.{closing_error, resume_frame, setup_frame};
ghost use Rattle.session_core.specs.Fits.{facts_of};
ghost use Rattle.session_core.specs.Outgoing.{answering, called_beside, frame_beside, greeting, keepalive, notices};

use crate::life::agrees_resumption;
use crate::state::State;
use rs_frame::{Frame, Resume, Setup};
use rs_wire::{Amount, Blob, Call, Checked, Message, OutOfMemory, Settings};
use session_model::CONNECTION_ERROR;
use std::alloc::Global;
use tape::{Answer, Event};

// An interval of the settings, which is above 0 and has 31 bits.
fn interval(milliseconds: u32) -> Amount
    requires { IsStream milliseconds }
    ensures { result ≡ milliseconds }
{
    Amount::of(milliseconds).unwrap()
}

fn token(alloc: Global, settings: &Settings) -> Result<Option<Blob>, OutOfMemory>
    ensures { IfOk result (λ t. t ≡
        (if settings.now.resume then Some settings.now.token else None)) }
{
    if settings.resume {
        return Ok(Some(settings.token.copy(alloc)?));
    }
    Ok(None)
}

// The SETUP of a client (RSocket 1.0, "SETUP Frame").
fn setup_frame(alloc: Global, settings: &Settings) -> Result<Frame, OutOfMemory>
    requires { IsChecked settings.now }
    ensures { IfOk result (λ f. f ≡ setup_frame settings.now) }
{
    Ok(Frame::Setup(Setup {
        resume: token(alloc, settings)?,
        lease: settings.lease,
        major: 1,
        minor: 0,
        keepalive: interval(settings.keepalive_ms),
        lifetime: interval(settings.lifetime_ms),
        metadata_mime: settings.metadata_mime.copy(alloc)?,
        content_mime: settings.content_mime.copy(alloc)?,
        message: Message {
            metadata: None,
            content: Blob::from_vec(Vec::new(alloc)),
        },
    }))
}

// The RESUME of a client that handled up to one position, and holds what it made from another on
// (RSocket 1.0, "RESUME Frame").
fn resume_frame(
    alloc: Global,
    settings: &Settings,
    handled: u64,
    first: u64,
) -> Result<Frame, OutOfMemory>
    ensures { IfOk result (λ f. f ≡ resume_frame settings.now handled first) }
{
    Ok(Frame::Resume(Resume {
        major: 1,
        minor: 0,
        token: settings.token.copy(alloc)?,
        server_position: handled,
        client_position: first,
    }))
}

/// One frame.
pub fn only(alloc: Global, frame: Frame) -> Result<Vec<Frame>, OutOfMemory>
    ensures { IfOk result (λ v. v.items ≡ frame ∷ []) }
{
    let mut frames = Vec::new(alloc);
    frames.push(frame)?;
    Ok(frames)
}

fn copy_of(alloc: Global, metadata: &Option<Blob>) -> Result<Option<Blob>, OutOfMemory>
    ensures { IfOk result (λ m. m ≡ metadata.now) }
{
    match metadata {
        Some(metadata) => Ok(Some(metadata.copy(alloc)?)),
        None => Ok(None),
    }
}

// The frame that a client's accepted opening begins with.
fn client_greeting(alloc: Global, settings: &Checked, state: &State) -> Result<Frame, OutOfMemory>
    ensures { IfOk result (λ f. f ∷ [] ≡
        greeting settings.now (facts_of state.now) (Event.Open None false)) }
{
    let settings = settings.settings();
    if state.begun {
        let handled = state.handled.position;
        return resume_frame(alloc, settings, handled, state.outbox.first());
    }
    setup_frame(alloc, settings)
}

// The frame that an accepted opening begins with, where there is one.
fn greeting(
    alloc: Global,
    settings: &Checked,
    state: &State,
    event: &Event,
) -> Result<Vec<Frame>, OutOfMemory>
    ensures { IfOk result (λ v. v.items ≡
        greeting settings.now (facts_of state.now) event.now) }
{
    match event {
        Event::Open { first: None, .. } => only(alloc, client_greeting(alloc, settings, state)?),
        Event::Open {
            first: Some(Frame::Resume(_)),
            ..
        } => {
            let position = state.handled.position;
            only(alloc, Frame::ResumeOk { position })
        }
        _ => Ok(Vec::new(alloc)),
    }
}

// The ERROR that closes the session, with this word as content.
fn closing_error(alloc: Global, word: &str) -> Result<Frame, OutOfMemory>
    ensures { IfOk result (λ f. f ≡ closing_error word.now) }
{
    Ok(Frame::Error {
        stream: 0,
        code: CONNECTION_ERROR,
        content: Blob::from_slice(alloc, word.as_bytes())?,
    })
}

// The KEEPALIVE of this end, which asks for an answer or is one (RSocket 1.0, "KEEPALIVE Frame").
fn keepalive(settings: &Checked, state: &State, respond: bool, content: Blob) -> Frame
    ensures { result ≡ keepalive settings.now (facts_of state.now) respond content }
{
    let agreed = agrees_resumption(settings.settings(), &state.setup);
    Frame::Keepalive {
        respond,
        position: if agreed { state.handled.position } else { 0 },
        content,
    }
}

// What answers a frame that is handled: a KEEPALIVE that asks for an answer gets its content back.
fn answering(
    alloc: Global,
    settings: &Checked,
    state: &State,
    frame: &Frame,
) -> Result<Vec<Frame>, OutOfMemory>
    ensures { IfOk result (λ v. v.items ≡ answering settings.now (facts_of state.now) frame.now) }
{
    match frame {
        Frame::Keepalive {
            respond: true,
            content,
            ..
        } => only(
            alloc,
            keepalive(settings, state, false, content.copy(alloc)?),
        ),
        _ => Ok(Vec::new(alloc)),
    }
}

// The frame of the connection alone that a call makes, where it makes one.
fn frame_beside(alloc: Global, call: &Call) -> Result<Option<Frame>, OutOfMemory>
    ensures { IfOk result (λ f. f ≡ frame_beside call.now) }
{
    Ok(match call {
        Call::Push { metadata } => Some(Frame::MetadataPush {
            metadata: metadata.copy(alloc)?,
        }),
        Call::Lease {
            ttl,
            count,
            metadata,
        } => Some(Frame::Lease {
            ttl: ttl.get(),
            count: count.get(),
            metadata: copy_of(alloc, metadata)?,
        }),
        _ => None,
    })
}

// One frame, or none.
fn listed(alloc: Global, frame: Option<Frame>) -> Result<Vec<Frame>, OutOfMemory>
    ensures { IfOk result (λ v. v.items ≡ option_to_list frame) }
{
    match frame {
        Some(frame) => only(alloc, frame),
        None => Ok(Vec::new(alloc)),
    }
}

// What a call that is done puts in line for the connection alone.
fn called_beside(alloc: Global, state: &State, call: &Call) -> Result<Vec<Frame>, OutOfMemory>
    ensures { IfOk result (λ v. v.items ≡ called_beside (facts_of state.now) call.now) }
{
    match call {
        Call::Close if state.carrying => only(alloc, closing_error(alloc, "")?),
        Call::Close => Ok(Vec::new(alloc)),
        _ => listed(alloc, frame_beside(alloc, call)?),
    }
}

/// The frames of the connection that an event and its answer put in line, which no position counts.
pub fn notices(
    alloc: Global,
    settings: &Checked,
    state: &State,
    event: &Event,
    answer: &Answer,
) -> Result<Vec<Frame>, OutOfMemory>
    ensures { IfOk result (λ v. v.items ≡
        notices settings.now (facts_of state.now) answer.now event.now) }
{
    match (answer, event) {
        (Answer::Opened(_), _) => greeting(alloc, settings, state, event),
        (Answer::Violation(rule), _) => only(alloc, closing_error(alloc, rule.word())?),
        (Answer::ResumeRefused(gone), Event::Came { .. }) => {
            only(alloc, closing_error(alloc, gone.word())?)
        }
        (Answer::Handled, Event::Came { frame, .. }) => answering(alloc, settings, state, frame),
        (Answer::Sent, _) => {
            let content = Blob::from_vec(Vec::new(alloc));
            only(alloc, keepalive(settings, state, true, content))
        }
        (Answer::Done, Event::Asked(call)) => called_beside(alloc, state, call),
        _ => Ok(Vec::new(alloc)),
    }
}
