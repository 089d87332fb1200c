//! Events by their words, and whether they can happen at an end.

ghost use Rattle.std.specs.Prelude.{IsTrue};
ghost use Rattle.rs_wire.specs.Calls.{CanBeAsked};
ghost use Rattle.session_model.specs.Legal.{CanBring};
ghost use Rattle.session_core.specs.Seen.{IsNoDrawEvent};

use crate::bytes::{frame, number, number_32};
use crate::calls::call;
use anyhow::{Context, Result};
use rs_frame::spellable;
use rs_wire::{Call, Kind, Settings, Side, is_stream_code};
use std::alloc::Global;
use tape::Event;

// A call that can be made: what a request carries fits its kind, and an error has a code of a stream.
fn can_be_asked(call: &Call) -> bool
    ensures { IsTrue result → CanBeAsked call.now }
{
    match call {
        Call::Request {
            kind,
            initial,
            complete,
            ..
        } => {
            initial.is_some() == matches!(kind, Kind::Stream | Kind::Channel)
                && (!*complete || *kind == Kind::Channel)
        }
        Call::Fail { code, .. } => is_stream_code(*code),
        _ => true,
    }
}

/// Whether an event can happen at that end, and is no draw.
pub fn is_act(settings: &Settings, event: &Event) -> bool
    ensures fair { IsTrue result → CanBring settings.now event.now }
    ensures no_draw { IsTrue result → IsNoDrawEvent event.now }
{
    match event {
        Event::Open { first: None, .. } => settings.side == Side::Client,
        Event::Open {
            first: Some(first),
            ..
        } => settings.side == Side::Server && spellable(first),
        Event::Cut { .. } | Event::Tick { .. } => true,
        Event::Draw { .. } => false,
        Event::Came { frame, .. } => spellable(frame),
        Event::Bad { rule, .. } => 0 < *rule && *rule <= 10,
        Event::Asked(call) => can_be_asked(call),
    }
}

// An opening at a server. The number of the opening at the client says nothing to the session.
fn opened(alloc: Global, number_there: &str, words: &[&str]) -> Result<Event> {
    number(number_there)?;
    let (first, taken) = match words {
        [first @ .., "taken"] => (first, true),
        first => (first, false),
    };
    Ok(Event::Open {
        first: Some(frame(alloc, first)?),
        taken,
    })
}

fn bad(conn: &str, rule: &str) -> Result<Event> {
    Ok(Event::Bad {
        conn: number(conn)?,
        rule: u8::try_from(number_32(rule)?).context("no rule")?,
    })
}

/// The event that the words say.
pub fn event(alloc: Global, words: &[&str]) -> Result<Event> {
    match words {
        ["open"] => Ok(Event::opening()),
        ["open", there, words @ ..] => opened(alloc, there, words),
        ["cut", conn] => Ok(Event::Cut {
            conn: number(conn)?,
        }),
        ["draw", conn, room] => Ok(Event::Draw {
            conn: number(conn)?,
            room: number_32(room)?,
        }),
        ["came", conn, line @ ..] => Ok(Event::arrived(number(conn)?, frame(alloc, line)?)),
        ["bad", conn, rule] => bad(conn, rule),
        ["tick", now] => Ok(Event::Tick { now: number(now)? }),
        _ => Ok(Event::Asked(call(alloc, words)?)),
    }
}
