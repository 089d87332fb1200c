//! What a carrier tells its session, and when it stops.

ghost use Rattle.std.specs.Prelude.{◌≡◌, IfOk, OnOk};
ghost use Rattle.session_model.specs.Legal.{CanBring, Legal};
ghost use Rattle.session_core.specs.Seen.{IsNoDrawEvent};
ghost use Rattle.carriers.specs.Moves.{HasTold};

use conn::{Caller, Connection};
use pump::Brought;
use ring::Stop;
use std::sync::Wait;
use tape::{Answer, Event, Tape};

/// Whether a carrier goes on, once this came of what it brought: there was memory, and a place on the
/// tape.
pub(crate) fn stop_at(brought: Brought) -> Result<(), Stop> {
    match brought {
        Brought::OutOfMemory | Brought::TapeFull => Err(Stop::OutOfMemory),
        _ => Ok(()),
    }
}

/// Brings an event that leaves an entry, whatever it comes to: the answer. Where it leaves none, there
/// was no memory, or no place on the tape.
pub fn tell<T: Tape, R: Wait>(
    rt: &R,
    connection: &Connection<T>,
    caller: &mut Caller<T>,
    event: Event,
) -> Result<Answer, Stop>
    requires of { caller.old.of ≡ connection.now }
    requires fair { CanBring connection.now.settings event }
    requires no_draw { IsNoDrawEvent event }
    ensures same { caller.new ≡ record caller.old {
      front = caller.new.front;
      note = caller.new.note;
    } }
    ensures told { IfOk result (λ a.
        HasTold connection.now.settings caller.old caller.new event a) }
    ensures legal { Legal caller.new.of.settings caller.new.front }
{
    let answer = connection.bring(rt, caller, event);
    caller.legal();
    if !answer.leaves_entry() {
        drop(answer);
        return Err(Stop::OutOfMemory);
    }
    Ok(answer)
}
