//! How callers are taken in again.

ghost use Rattle.std.specs.Prelude.{◌≡◌, [], ◌∷◌};
ghost use Rattle.std.specs.List.{AllByRecursion};
ghost use Rattle.serve_slots.specs.Callers.{AreCallersOf, IsAtSlot, TookIn, placed};

use conn::{Caller, Connection};
use tape::Tape;

/// The main caller of a slot takes another caller of it in.
pub fn take_in<T: Tape>(
    connections: &[Connection<T>],
    mains: &mut [Caller<T>],
    slot: usize,
    caller: Caller<T>,
)
    requires of { AreCallersOf connections.now mains.old }
    requires at { IsAtSlot connections.now (slot, caller) }
    ensures took { TookIn mains.old ((slot, caller) ∷ []) mains.new }
    ensures of { AreCallersOf connections.now mains.new }
{
    connections[slot].join(&mut mains[slot], caller);
}

/// The main callers take a row of others in, one of each connection, the last one first.
pub fn take_in_row<T: Tape>(
    connections: &[Connection<T>],
    mains: &mut [Caller<T>],
    row: &mut Vec<Caller<T>>,
)
    requires of { AreCallersOf connections.now mains.old }
    requires row { AllByRecursion (IsAtSlot connections.now) (placed 0 row.old.items) }
    ensures took { TookIn mains.old (placed 0 row.old.items) mains.new }
    ensures of { AreCallersOf connections.now mains.new }
    ensures empty { row.new.items ≡ [] }
{
    while let Some(caller) = row.pop() {
        take_in(connections, mains, row.len(), caller);
    }
}
