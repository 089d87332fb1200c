//! One event at the session.

ghost use Rattle.std.specs.Prelude.{◌≡◌, None};
ghost use Rattle.session_model.specs.Legal.{CanBring};
ghost use Rattle.session_core.specs.Seen.{IsNoDrawEvent};
ghost use Rattle.pump.specs.Turns.{HasBrought, HasTicked, after_some, brought_by, is_bad, is_ended, leaves_by};

use conn::{Caller, Connection};
use outside::Clock;
use std::sync::Wait;
use tape::{Answer, Event, Tape};

/// What bringing an event to the session, or several, came to.
#[derive(Clone, Copy, Debug, PartialEq, Eq)]
pub enum Brought {
    /// Nothing waits.
    Nothing,
    /// An entry was left.
    Noted,
    /// What came may come again once fewer bytes than these are queued.
    Busy(u64),
    /// Another connection is live, whose number this is; 0 for none.
    Displaced(u64),
    /// The peer counts as dead, from which nothing came since this moment.
    Dead(u64),
    /// The tape has 2^63 entries.
    TapeFull,
    /// There was not enough memory.
    OutOfMemory,
}

pub(crate) fn brought_by(answer: &Answer) -> Brought
    ensures { result ≡ brought_by answer.now }
{
    match answer {
        Answer::NotYet => Brought::Nothing,
        Answer::OutBusy(queued) => Brought::Busy(*queued),
        Answer::Stale(live) => Brought::Displaced(*live),
        Answer::Dead(last) => Brought::Dead(*last),
        Answer::TapeFull => Brought::TapeFull,
        Answer::OutOfMemory => Brought::OutOfMemory,
        _ => Brought::Noted,
    }
}

/// Whether an entry was left.
pub(crate) fn leaves(brought: Brought) -> bool
    ensures { result ≡ leaves_by brought }
{
    matches!(
        brought,
        Brought::Noted | Brought::Displaced(_) | Brought::Dead(_)
    )
}

/// Whether it ends a turn at once.
pub(crate) fn is_ended(brought: Brought) -> bool
    ensures { result ≡ is_ended brought }
{
    matches!(
        brought,
        Brought::Displaced(_) | Brought::Dead(_) | Brought::TapeFull | Brought::OutOfMemory
    )
}

/// What the last of several events came to, of which some were noted, or none.
pub(crate) fn after_some(noted: bool, last: Brought) -> Brought
    ensures { result ≡ after_some noted last }
{
    if noted && last == Brought::Nothing {
        Brought::Noted
    } else {
        last
    }
}

/// Whether bytes that are no frame came.
pub(crate) fn is_bad(event: &Event) -> bool
    ensures { result ≡ is_bad event.now }
{
    matches!(event, Event::Bad { .. })
}

/// Brings an event, which the session takes.
pub(crate) fn bring_event<T: Tape, R: Wait>(
    rt: &R,
    connection: &Connection<T>,
    caller: &mut Caller<T>,
    event: Event,
) -> Brought
    requires of { caller.old.of ≡ connection.now }
    requires fair { CanBring connection.now.settings event }
    requires no_draw { IsNoDrawEvent event }
    ensures same { caller.new ≡ record caller.old { front = caller.new.front; note = None } }
    ensures brought { HasBrought connection.now.settings caller.old event result
        caller.new.front }
{
    let answer = connection.bring(rt, caller, event);
    let brought = brought_by(&answer);
    drop(answer);
    brought
}

/// Brings a tick with the moment that the clock gives. Most find nothing due, and take the short way.
pub(crate) fn tick<T: Tape, K: Clock, R: Wait>(
    rt: &R,
    connection: &Connection<T>,
    caller: &mut Caller<T>,
    clock: &K,
) -> Brought
    requires of { caller.old.of ≡ connection.now }
    ensures same { caller.new ≡ record caller.old { front = caller.new.front; note = None } }
    ensures ticked { HasTicked connection.now.settings (K.moments clock.now) caller.old
        result caller.new.front }
{
    let now = clock.now();
    if connection.tick_if_quiet(rt, caller, now) {
        return Brought::Noted;
    }
    bring_event(rt, connection, caller, Event::Tick { now })
}
