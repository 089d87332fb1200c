//! Two callers, who are joined before the connection is closed.

ghost use Rattle.std.specs.Prelude.{◌≡◌, ◌<◌, ℕ};
ghost use Rattle.conn_lock.specs.Callers.{calls, times};
ghost use Rattle.conn_shared.specs.Lines.{who_of};

use super::answers::{Wanted, is};
use super::ends::{ask, close, connected, one_more};
use conn::{Caller, Connection};
use rs_wire::{Call, Side};
use std::alloc::Global;
use std::process::Abort;
use std::sync::Wait;
use tape::{Event, Kept, Tape};

// Takes from a stream that is not there.
fn take<R: Abort + Wait, T: Tape>(
    rt: &R,
    connection: &Connection<T>,
    caller: &mut Caller<T>,
    stream: u32,
)
    requires of { caller.old.of ≡ connection.now }
    ensures of { caller.new.of ≡ connection.now }
{
    let take = Call::Take { stream };
    ask(rt, connection, caller, take, Wanted::UnknownStream);
}

// Joins two callers: each entry of either is in the front.
fn join<T: Tape>(connection: &Connection<T>, caller: &mut Caller<T>, other: Caller<T>)
    requires first { caller.old.of ≡ connection.now }
    requires second { other.of ≡ connection.now }
    ensures of { caller.new.of ≡ connection.now }
    ensures ours { (x : ℕ) → 0 < times x caller.old.names
        → calls who_of x caller.new.front ≡ calls who_of x caller.old.front }
    ensures theirs { (x : ℕ) → 0 < times x other.names
        → calls who_of x caller.new.front ≡ calls who_of x other.front }
{
    connection.join(caller, other);
}

// A second caller is split off, and the two take by turns from streams 1 and 3, and where the first
// takes again from stream 5. So the longer front is the first's then, and else the second's.
fn take_in_turns<R: Abort + Wait, T: Tape>(
    rt: &R,
    connection: &Connection<T>,
    caller: &mut Caller<T>,
    again: bool,
)
    requires of { caller.old.of ≡ connection.now }
    ensures of { caller.new.of ≡ connection.now }
{
    let mut other = one_more(rt, connection, caller);
    take(rt, connection, caller, 1);
    take(rt, connection, &mut other, 3);
    if again {
        take(rt, connection, caller, 5);
    }
    join(connection, caller, other);
}

fn is_take(event: &Event, from: u32) -> bool {
    match event {
        Event::Asked(Call::Take { stream }) => *stream == from,
        _ => false,
    }
}

// Whether the entry at this place is the take of this caller from this stream, which is refused.
fn has_take<T: Tape>(tape: &T, index: u64, who: u32, stream: u32) -> bool {
    match tape.entry(index) {
        None => false,
        Some(entry) => {
            entry.who == who
                && is_take(&entry.event, stream)
                && is(&entry.answer, Wanted::UnknownStream)
        }
    }
}

/// The takes of the two callers, numbers 0 and 1, in their order: place, caller and stream.
const TAKES: [(u64, u32, u32); 3] = [(0, 0, 1), (1, 1, 3), (2, 0, 5)];

// The tape has the first two takes, or all three.
fn check_tape<R: Abort, T: Tape>(rt: &R, tape: &T, again: bool) {
    let count = if again { 3 } else { 2 };
    assert!(rt; tape.count() == count);
    for (index, who, stream) in TAKES {
        assert!(rt; has_take(tape, index, who, stream) == (index < count));
    }
}

// Two or three takes of two callers, after which they are joined and the connection is closed.
fn close_after_takes<R: Abort + Wait, T: Tape>(rt: &R, alloc: Global, tape: T, again: bool) -> T
    requires empty { T.count tape ≡ 0 }
{
    let (connection, mut caller) = connected(rt, alloc, Side::Client, false, tape);
    take_in_turns(rt, &connection, &mut caller, again);
    let tape = close(rt, connection, caller);
    check_tape(rt, &tape, again);
    tape
}

#[test]
fn the_closed_session_has_the_entries_of_all_callers(rt: HostRuntime) {
    for again in [true, false] {
        close_after_takes(&rt, rt.alloc(), Kept::new(rt.alloc()), again);
    }
}
