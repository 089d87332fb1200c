//! The end of a connection, as the table of the sessions is told of it.

ghost use Rattle.std.specs.Prelude.{◌≡◌, ◌==◌, None};
ghost use Rattle.session_model.specs.Life.{live};
ghost use Rattle.tape.specs.declared.event.Event.TheVariants as events;
ghost use Rattle.conn_shared.specs.Calls.{IsCalled};
ghost use Rattle.conn_shared.specs.Members.{Follows};
ghost use Rattle.server.specs.Lost.{IsNotedAs, IsNotedIf, is_parted};

use crate::host::{Begun, Host};
use conn::Caller;
use handlers::Handler;
use outside::Clock;
use session_table::Sessions;
use std::sync::Wait;
use tape::{Answer, Event, Tape};

// Whether a cut that was so answered parted the connection.
fn is_parted(answer: &Answer) -> bool
    ensures { result ≡ is_parted answer.now }
{
    matches!(answer, Answer::Parted)
}

// Cuts the connection, and notes that its session has none.
fn cut_in<R: Wait, T: Tape, K: Clock, F: Handler>(
    rt: &R,
    host: &Host<'_, T, K, F>,
    begun: &Begun<'_, T>,
    sessions: &mut Sessions,
    caller: &mut Caller<T>,
) -> Answer
    requires of { caller.old.of ≡ begun.now.connection.now }
    ensures same { caller.new ≡ record caller.old { front = caller.new.front; note = None } }
    ensures called { IsCalled begun.now.connection.now.settings caller.old
        (events.Cut begun.now.conn) result caller.new.front }
    // The table is told where the connection is parted.
    ensures noted { IsNotedAs (K.moments host.now.clock.now) begun.now.at result sessions.old
        sessions.new }
{
    let event = Event::Cut { conn: begun.conn };
    let answer = begun.connection.bring(rt, caller, event);
    if is_parted(&answer) {
        sessions.parted(begun.at, host.clock.now());
    }
    answer
}

/// Cuts the connection.
pub(crate) fn cut<R: Wait, T: Tape, K: Clock, F: Handler>(
    rt: &R,
    host: &Host<'_, T, K, F>,
    begun: &Begun<'_, T>,
    caller: &mut Caller<T>,
) -> Answer
    requires of { caller.old.of ≡ begun.now.connection.now }
    ensures same { caller.new ≡ record caller.old { front = caller.new.front; note = None } }
    ensures called { IsCalled begun.now.connection.now.settings caller.old
        (events.Cut begun.now.conn) result caller.new.front }
{
    let mut sessions = host.table.lock(rt);
    cut_in(rt, host, begun, &mut sessions, caller)
}

// Notes that the session has no connection, where it has none.
fn note_in<R: Wait, T: Tape, K: Clock, F: Handler>(
    rt: &R,
    host: &Host<'_, T, K, F>,
    begun: &Begun<'_, T>,
    sessions: &mut Sessions,
    caller: &mut Caller<T>,
)
    requires of { caller.old.of ≡ begun.now.connection.now }
    ensures same { caller.new ≡ record caller.old { front = caller.new.front; note = None } }
    ensures follows { Follows caller.old.names caller.old.front caller.new.front }
    // The table is told where there is no live connection.
    ensures noted { IsNotedIf (K.moments host.now.clock.now) begun.now.at
        (live caller.new.front == 0) sessions.old sessions.new }
{
    if begun.connection.look(rt, caller).live == 0 {
        sessions.parted(begun.at, host.clock.now());
    }
}

/// The peer counted as dead.
pub(crate) fn note_dead<R: Wait, T: Tape, K: Clock, F: Handler>(
    rt: &R,
    host: &Host<'_, T, K, F>,
    begun: &Begun<'_, T>,
    caller: &mut Caller<T>,
)
    requires of { caller.old.of ≡ begun.now.connection.now }
    ensures same { caller.new ≡ record caller.old { front = caller.new.front; note = None } }
    ensures follows { Follows caller.old.names caller.old.front caller.new.front }
{
    let mut sessions = host.table.lock(rt);
    note_in(rt, host, begun, &mut sessions, caller);
}
