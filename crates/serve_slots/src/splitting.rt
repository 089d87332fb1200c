//! How callers are split off.

ghost use Rattle.std.specs.Prelude.{◌≡◌, ◌+◌, ◌≤◌, OnOk, length, vec_len, vec_capacity};
ghost use Rattle.serve_slots.specs.Callers.{AreCallersOf, SplitsInto};

use conn::{Caller, Connection};
use rs_wire::OutOfMemory;
use std::sync::Wait;
use tape::Tape;

/// Splits a caller off from the main caller of each connection, into a row that has room for them.
/// It is refused where 4,294,967,295 numbers of a connection were drawn, or where a main caller has one
/// part; those that were split off before stay in the row.
pub fn split_row<R: Wait, T: Tape>(
    rt: &R,
    connections: &[Connection<T>],
    mains: &mut [Caller<T>],
    row: &mut Vec<Caller<T>>,
) -> Result<(), OutOfMemory>
    requires of { AreCallersOf connections.now mains.old }
    requires room { vec_len row.old + length connections.now ≤ vec_capacity row.old }
    ensures split { SplitsInto mains.old mains.new row.old.items row.new.items }
    ensures of { AreCallersOf connections.now mains.new }
    ensures each { OnOk result (vec_len row.new ≡ vec_len row.old + length connections.now) }
{
    let Some((connection, connections)) = connections.split_first() else {
        return Ok(());
    };
    let Some((main, mains)) = mains.split_first_mut() else {
        return Ok(());
    };
    let Ok(caller) = connection.split(rt, main) else {
        return Err(OutOfMemory);
    };
    row.push_reserved(caller);
    split_row(rt, connections, mains, row)
}
