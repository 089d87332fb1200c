//! How the life of a session goes on by an event and its answer.

ghost use Rattle.std.specs.Prelude.{◌≡◌, IfOk};
ghost use Rattle.session_model.specs.Lists.{first_of};
ghost use Rattle.session_model.specs.Life.{agrees_leases, agrees_resumption, carrying_after, closes_so, is_opened, live_after, openings_in, setup_in, told_in};

use rs_frame::{Frame, Setup};
use rs_wire::{Call, Cause, OutOfMemory, Settings, Side};
use std::alloc::Global;
use tape::{Answer, Event};

/// How many openings an event is.
pub fn openings_in(event: &Event) -> u64
    ensures { result ≡ openings_in event.now }
{
    match event {
        Event::Open { .. } => 1,
        _ => 0,
    }
}

/// Whether an opening is accepted.
pub fn is_opened(answer: &Answer) -> bool
    ensures { result ≡ is_opened answer.now }
{
    match answer {
        Answer::Opened(_) => true,
        _ => false,
    }
}

/// The live connection after an event with this answer, where it was `before`.
pub fn live_after(answer: &Answer, before: u64) -> u64
    ensures { result ≡ live_after answer.now before }
{
    match answer {
        Answer::Opened(number) => *number,
        Answer::Parted | Answer::Dead(_) => 0,
        _ => before,
    }
}

/// Whether frames go out at once after an event and its answer: an accepted opening carries from
/// the start, but for a client's later one, which waits for RESUME_OK (RSocket 1.0, "RESUME_OK
/// Frame").
pub fn carrying_after(
    settings: &Settings,
    begun: bool,
    answer: &Answer,
    event: &Event,
    before: bool,
) -> bool
    ensures { result ≡ carrying_after settings.now begun answer.now event.now before }
{
    match (answer, event) {
        (Answer::Opened(_), _) => !(begun && matches!(settings.side, Side::Client)),
        (Answer::Parted | Answer::Dead(_), _) => false,
        (
            Answer::Handled,
            Event::Came {
                frame: Frame::ResumeOk { .. },
                ..
            },
        ) => true,
        _ => before,
    }
}

/// The position up to which the peer has handled what this end made, where an event and its answer
/// tell it, else 0. A KEEPALIVE tells it where resumption is agreed.
pub fn told_in(agreed: bool, answer: &Answer, event: &Event) -> u64
    ensures { result ≡ told_in agreed answer.now event.now }
{
    match (answer, event) {
        (
            Answer::Opened(_),
            Event::Open {
                first: Some(Frame::Resume(resume)),
                ..
            },
        ) => resume.server_position,
        (
            Answer::Handled,
            Event::Came {
                frame: Frame::ResumeOk { position },
                ..
            },
        ) => *position,
        (
            Answer::Handled,
            Event::Came {
                frame: Frame::Keepalive { position, .. },
                ..
            },
        ) if agreed => *position,
        _ => 0,
    }
}

/// Whether resumption is agreed: on a client as it is set, on a server as SETUP asks.
pub fn agrees_resumption(settings: &Settings, setup: &Option<Setup>) -> bool
    ensures { result ≡ agrees_resumption settings.now setup.now }
{
    match settings.side {
        Side::Client => settings.resume,
        Side::Server => match setup {
            Some(setup) => setup.resume.is_some(),
            None => false,
        },
    }
}

/// Whether leases are agreed: on a client as it is set, on a server as SETUP asks.
pub fn agrees_leases(settings: &Settings, setup: &Option<Setup>) -> bool
    ensures { result ≡ agrees_leases settings.now setup.now }
{
    match settings.side {
        Side::Client => settings.lease,
        Side::Server => match setup {
            Some(setup) => setup.lease,
            None => false,
        },
    }
}

/// Why the session is closed by an event and its answer, where it was not closed.
pub fn closes(begun: bool, resumes: bool, answer: &Answer, event: &Event) -> Option<Cause>
    ensures { result ≡ closes_so begun resumes answer.now event.now }
{
    match answer {
        Answer::Done => match event {
            Event::Asked(Call::Close) => Some(Cause::Local),
            _ => None,
        },
        Answer::Parted | Answer::Dead(_) if resumes => None,
        Answer::Parted => Some(Cause::Cut),
        Answer::Dead(_) => Some(Cause::Dead),
        Answer::PeerError(code) => Some(Cause::Peer(*code)),
        Answer::Violation(rule) => Some(Cause::Broken(*rule)),
        Answer::SetupRefused(_) if begun => None,
        Answer::SetupRefused(fault) => Some(Cause::Setup(*fault)),
        Answer::ResumeRefused(gone) => match event {
            Event::Came { .. } => Some(Cause::Resume(*gone)),
            _ => None,
        },
        _ => None,
    }
}

/// Closes for this cause, where there is one and nothing closed before.
pub fn close(closed: &mut Option<Cause>, cause: Option<Cause>)
    ensures { closed.new ≡ first_of closed.old cause }
{
    if cause.is_none() || closed.is_some() {
        return;
    }
    *closed = cause;
}

/// Keeps the SETUP that is accepted, where there is one and none was accepted before.
pub fn keep_setup(setup: &mut Option<Setup>, accepted: &mut Option<Setup>)
    ensures { setup.new ≡ first_of setup.old accepted.old }
{
    if accepted.is_none() || setup.is_some() {
        return;
    }
    *setup = accepted.take();
}

/// The SETUP that an event and its answer bring.
pub fn setup_in(alloc: Global, answer: &Answer, event: &Event) -> Result<Option<Setup>, OutOfMemory>
    ensures { IfOk result (λ s. s ≡ setup_in answer.now event.now) }
{
    match answer {
        Answer::Opened(_) => match event {
            Event::Open {
                first: Some(Frame::Setup(setup)),
                ..
            } => Ok(Some(setup.copy(alloc)?)),
            _ => Ok(None),
        },
        _ => Ok(None),
    }
}
