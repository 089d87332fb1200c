//! Bytes from a ring to a connection.

ghost use Rattle.std.specs.Prelude.{◌≡◌, ◌++◌, ◌∷◌, ℕ, [], true, IfOk, OnOk};
ghost use Rattle.outside.specs.Links.{Shown};
ghost use Rattle.conn_shared.specs.Members.{Knowledge};
ghost use Rattle.pump.specs.Halves.{and_taken};
ghost use Rattle.pump.specs.Turns.{Arrives, GoesOn, IsEmptied, IsKept};
ghost use Rattle.rtrb.specs.Ring.{SameConsumer, received};
ghost use Rattle.ring.specs.declared.item.Item.TheVariants as item;
ghost use Rattle.carriers.specs.Moves.{HasHeard, HasLost, HasTaken, mark_for};

use crate::telling::stop_at;
use conn::{Caller, Connection};
use pump::{Brought, Pump};
use ring::{Item, Mark, Stop, read_line};
use rtrb::Consumer;
use std::alloc::Global;
use std::sync::Wait;
use tape::Tape;

/// What was read up to a mark.
#[derive(Clone, Copy, Debug, PartialEq, Eq)]
pub struct Heard {
    /// The mark.
    pub mark: Mark,
    /// Whether bytes came before it, or something that had waited came.
    pub moved: bool,
}

/// Whether the mark between two halves of a round says that something came: [`Mark::More`] does, and
/// [`Mark::Line`] does not. No other mark comes there.
pub fn is_more(mark: Mark) -> Result<bool, Stop>
    ensures { IfOk result (λ more. mark ≡ mark_for more) }
{
    match mark {
        Mark::Line => Ok(false),
        Mark::More => Ok(true),
        _ => Err(Stop::Gone),
    }
}

// Hands bytes to the pump, where there is memory.
fn feed(pump: &mut Pump, bytes: &[u8]) -> Result<(), Stop>
    ensures kept { OnOk result ((me : Knowledge) (s : Shown) → IsKept me s pump.old →
        IsKept me (and_taken s bytes.now) pump.new) }
    ensures rest { pump.new ≡ record pump.old { rest = pump.new.rest } }
{
    match pump.feed(bytes) {
        Ok(()) => Ok(()),
        Err(_) => Err(Stop::OutOfMemory),
    }
}

/// Reads up to the next mark, and brings what came.
pub fn take<T: Tape, R: Wait>(
    rt: &R,
    alloc: Global,
    connection: &Connection<T>,
    caller: &mut Caller<T>,
    pump: &mut Pump,
    from: &mut Consumer<Item>,
) -> Result<Heard, Stop>
    requires of { caller.old.of ≡ connection.now }
    requires limit { pump.old.max_in ≡ connection.now.settings.max_in }
    ensures same { caller.new ≡ record caller.old {
      front = caller.new.front;
      note = caller.new.note;
    } }
    ensures ring { SameConsumer from.old from.new }
    ensures took { IfOk result (λ h. HasTaken caller.old caller.new pump.old pump.new h.mark
        (received from.old) (received from.new)) }
{
    let mut bytes = Vec::new(alloc);
    let mark = read_line(rt, from, &mut bytes)?;
    feed(pump, &bytes)?;
    let brought = pump.hear(rt, connection, caller);
    stop_at(brought)?;
    let moved = !bytes.is_empty() || brought == Brought::Noted;
    Ok(Heard { mark, moved })
}

/// Brings what stands in front once more: whether nothing that can come stands there then.
pub fn heard_before<T: Tape, R: Wait>(
    rt: &R,
    connection: &Connection<T>,
    caller: &mut Caller<T>,
    pump: &mut Pump,
) -> Result<bool, Stop>
    requires of { caller.old.of ≡ connection.now }
    requires limit { pump.old.max_in ≡ connection.now.settings.max_in }
    ensures same { caller.new ≡ record caller.old {
      front = caller.new.front;
      note = caller.new.note;
    } }
    ensures heard { HasHeard caller.old caller.new pump.old pump.new }
    ensures emptied { IfOk result (λ all. all ≡ true → IsEmptied pump.new) }
{
    let brought = pump.hear(rt, connection, caller);
    stop_at(brought)?;
    Ok(matches!(brought, Brought::Nothing | Brought::Noted))
}

/// Reads up to the next mark, and hands over what came, which is not brought any more.
pub fn lose<R: Wait>(
    rt: &R,
    alloc: Global,
    pump: &mut Pump,
    from: &mut Consumer<Item>,
) -> Result<Mark, Stop>
    ensures ring { SameConsumer from.old from.new }
    ensures lost { IfOk result (λ mark. HasLost pump.old pump.new mark
        (received from.old) (received from.new)) }
{
    let mut bytes = Vec::new(alloc);
    let mark = read_line(rt, from, &mut bytes)?;
    feed(pump, &bytes)?;
    Ok(mark)
}

/// Reads the next mark, before which no byte comes.
pub fn skip<R: Wait>(rt: &R, alloc: Global, from: &mut Consumer<Item>) -> Result<Mark, Stop>
    ensures ring { SameConsumer from.old from.new }
    ensures ok { IfOk result (λ mark. received from.new ≡ received from.old ++ item.Mark mark ∷ []) }
{
    let mut bytes = Vec::new(alloc);
    let mark = read_line(rt, from, &mut bytes)?;
    if !bytes.is_empty() {
        return Err(Stop::Gone);
    }
    Ok(mark)
}
