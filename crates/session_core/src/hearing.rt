//! A message that comes whole, a payload's or a request's, of which nothing is copied.

ghost use Rattle.std.specs.Prelude.{◌≡◌, ℕ, false, true};
ghost use Rattle.stream_model.specs.Known.{hears_on};
ghost use Rattle.reassembly.specs.Gathering.{gathered_at, has_part_at};
ghost use Rattle.interactions.specs.Seen.{known_to};
ghost use Rattle.session_model.specs.Answers.{answer_by};
ghost use Rattle.session_model.specs.Legal.{CanBring, IsFair};
ghost use Rattle.session_model.specs.Means.{Means};
ghost use Rattle.session_core.specs.After.{IsAfter};
ghost use Rattle.session_core.specs.Fits.{AreLimits, HasRoom, facts_of};
ghost use Rattle.session_core.specs.Gathering.{IsOfHeard, is_that};
ghost use Rattle.session_core.specs.Alone.{IsAdmitted, IsAlone, said_alone};
ghost use Rattle.session_core.specs.Leasing.{covers_next};
ghost use Rattle.session_core.specs.Speaking.{CanSay, arrival_for};

use crate::came::to_frame;
use crate::gathering::{let_stream_go, touches};
use crate::leasing::leases_agreed;
use crate::speak::arrive;
use crate::state::{State, count_came};
use crate::turned_away::turned_away_for;
use interactions::Streams;
use reassembly::Reassembly;
use rs_frame::{Frame, Request};
use rs_wire::Checked;
use stream_model::Arrival;
use tape::{Answer, Event};

// Whether a request is admitted with its whole message: it needs no lease, nothing was gathered on
// its stream, and no ERROR turns it away.
fn is_admitted(settings: &Checked, state: &State, request: &Request) -> bool
    requires limits { AreLimits settings.now state.now }
    ensures { result ≡ true → IsAdmitted settings.now (facts_of state.now) request.now }
{
    !request.follows
        && !leases_agreed(settings, state)
        && !state.parts.has_part(request.stream)
        && turned_away_for(&state.streams, true, request).is_none()
}

// Whether a message came whole, and nothing was gathered on its stream.
fn is_alone(settings: &Checked, state: &State, event: &Event) -> bool
    requires limits { AreLimits settings.now state.now }
    ensures { result ≡ true → IsAlone settings.now (facts_of state.now) event.now }
{
    match event {
        Event::Came {
            frame: Frame::Payload {
                stream,
                follows: false,
                ..
            },
            ..
        } => !state.parts.has_part(*stream),
        Event::Came {
            frame: Frame::Request(request),
            ..
        } => is_admitted(settings, state, request),
        _ => false,
    }
}

/// Whether a message came whole, nothing was gathered on its stream, and it is handled.
pub fn comes_alone(settings: &Checked, state: &State, event: &Event) -> bool
    requires fair { CanBring settings.now event.now }
    requires room { HasRoom state.now }
    requires limits { AreLimits settings.now state.now }
    ensures alone { result ≡ true → IsAlone settings.now (facts_of state.now) event.now }
    ensures fair { result ≡ true → IsFair settings.now event.now }
    ensures answer { result ≡ true →
        Answer.Handled ≡ answer_by settings.now (facts_of state.now) event.now }
{
    if !is_alone(settings, state, event) {
        return false;
    }
    match event {
        Event::Came { conn, frame } => {
            matches!(to_frame(settings, state, *conn, frame), Answer::Handled)
        }
        _ => false,
    }
}

// What a message says that comes whole, a payload's or a request's; nothing of any other event.
fn said_alone(event: Event) -> Option<Arrival>
    ensures { result ≡ said_alone event }
{
    match event {
        Event::Came {
            frame: Frame::Payload {
                stream,
                follows: false,
                complete,
                next,
                message,
            },
            ..
        } => Some(Arrival::Whole {
            stream,
            message,
            complete,
            next,
        }),
        Event::Came {
            frame: Frame::Request(request),
            ..
        } => Some(Arrival::Asked {
            stream: request.stream,
            kind: request.kind,
            initial: request.initial,
            whole: Some((request.message, request.complete)),
        }),
        _ => None,
    }
}

// Drops what is gathered on this stream, where the peer's messages are not taken in there any more.
fn let_go_on(parts: &mut Reassembly, streams: &Streams, on: Option<u32>)
    ensures heard { (s : ℕ) → hears_on ((known_to streams.now).kept s) ≡ true →
        gathered_at parts.new s ≡ gathered_at parts.old s }
    ensures over { (s : ℕ) → is_that on s ≡ true →
        hears_on ((known_to streams.now).kept s) ≡ false → has_part_at parts.new s ≡ false }
    ensures others { (s : ℕ) → is_that on s ≡ false →
        has_part_at parts.new s ≡ has_part_at parts.old s }
{
    if let Some(stream) = on {
        let_stream_go(parts, streams, stream);
    }
}

impl State {
    /// Applies a message that came whole and is handled, where nothing was gathered on its stream,
    /// and room was made for it. The message goes to whoever takes it.
    pub fn apply_whole(&mut self, settings: &Checked, event: Event)
        requires fair { IsFair settings.now event }
        requires room { HasRoom self.old }
        requires alone { IsAlone settings.now (facts_of self.old) event }
        requires means { Means settings.now (facts_of self.old) event Answer.Handled }
        requires says { CanSay self.old.streams Answer.Handled event (arrival_for
            (covers_next settings.now self.old) (gathered_at self.old.parts)
            Answer.Handled event) }
        requires heard { IsOfHeard (known_to self.old.streams) self.old.parts }
        ensures { IsAfter settings.now self.old event Answer.Handled self.new }
    {
        count_came(&mut self.handled, settings, &event);
        self.timer.came();
        let on = touches(&Answer::Handled, &event);
        arrive(&mut self.streams, said_alone(event));
        let_go_on(&mut self.parts, &self.streams, on);
    }
}
