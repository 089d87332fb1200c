//! Bytes from a connection into a ring.

ghost use Rattle.std.specs.Prelude.{◌≡◌, ◌++◌, ◌∷◌, [], OnOk};
ghost use Rattle.rtrb.specs.Ring.{SameProducer, sent};
ghost use Rattle.ring.specs.declared.item.Item.TheVariants as item;
ghost use Rattle.ring.specs.Parts.{bytes_of};
ghost use Rattle.carriers.specs.Moves.{HasGiven};

use crate::telling::stop_at;
use conn::{Caller, Connection};
use pump::{PIECE, Pump};
use ring::{Item, Mark, Stop, push, push_bytes};
use rtrb::Producer;
use std::sync::Wait;
use tape::Tape;

/// Pushes a mark. It waits while the ring is full.
pub fn push_mark<R: Wait>(rt: &R, out: &mut Producer<Item>, mark: Mark) -> Result<(), Stop>
    ensures ring { SameProducer out.old out.new }
    ensures ok { OnOk result (sent out.new ≡ sent out.old ++ item.Mark mark ∷ []) }
{
    match push(rt, out, Item::Mark(mark)) {
        Ok(()) => Ok(()),
        Err(_) => Err(Stop::Gone),
    }
}

// Pushes bytes, where the other carrier is there.
fn push_all<R: Wait>(rt: &R, out: &mut Producer<Item>, bytes: &[u8]) -> Result<(), Stop>
    ensures ring { SameProducer out.old out.new }
    ensures ok { OnOk result (sent out.new ≡ sent out.old ++ bytes_of bytes.now) }
{
    match push_bytes(rt, out, bytes) {
        Ok(()) => Ok(()),
        Err(_) => Err(Stop::Gone),
    }
}

/// Draws at most `most` bytes, and at most 16,384, and pushes what it drew: how many bytes that were.
pub fn give<T: Tape, R: Wait>(
    rt: &R,
    connection: &Connection<T>,
    caller: &mut Caller<T>,
    pump: &mut Pump,
    out: &mut Producer<Item>,
    most: usize,
) -> Result<usize, Stop>
    requires of { caller.old.of ≡ connection.now }
    ensures same { caller.new ≡ record caller.old {
      front = caller.new.front;
      note = caller.new.note;
    } }
    ensures ring { SameProducer out.old out.new }
    ensures gave { OnOk result (HasGiven caller.old caller.new pump.old pump.new
        (sent out.old) (sent out.new)) }
    ensures left { OnOk result (pump.new.left ≡ []) }
{
    stop_at(pump.draw(rt, connection, caller, most))?;
    let count = pump.left();
    push_all(rt, out, pump.bytes())?;
    pump.gave();
    Ok(count)
}

// At most what is left, and what one draw has room for.
fn at_most(left: u64) -> usize {
    if left < PIECE as u64 {
        left as usize
    } else {
        PIECE
    }
}

/// Draws what is queued now, at most `most` bytes of it, and pushes it: whether there was something.
pub fn send<T: Tape, R: Wait>(
    rt: &R,
    connection: &Connection<T>,
    caller: &mut Caller<T>,
    pump: &mut Pump,
    out: &mut Producer<Item>,
    most: u64,
) -> Result<bool, Stop>
    requires of { caller.old.of ≡ connection.now }
    ensures same { caller.new ≡ record caller.old {
      front = caller.new.front;
      note = caller.new.note;
    } }
    ensures ring { SameProducer out.old out.new }
    ensures gave { OnOk result (HasGiven caller.old caller.new pump.old pump.new
        (sent out.old) (sent out.new)) }
    ensures left { OnOk result (pump.new.left ≡ []) }
{
    let queued = connection.look(rt, caller).queued;
    let mut left = most.min(queued);
    let mut some = false;
    for _ in rt.forever() {
        let count = give(rt, connection, caller, pump, out, at_most(left))?;
        if count == 0 {
            return Ok(some);
        }
        some = true;
        left = left.saturating_sub(count as u64);
    }
    unreachable!()
}
